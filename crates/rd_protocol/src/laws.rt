//! Laws of requests and replies. No code calls them.

ghost use Rattle.rd_protocol.specs.Hidden.{HiddenBytesDoNotShow, LooksAlikeShowsTheSame, ShowsItself, WhatIsShownDecides};
ghost use Rattle.rd_protocol.specs.RehearsalLaws.{RehearsalsAreExact};
ghost use Rattle.rd_protocol.specs.StaffListLaws.{StaffListsTellAll};
ghost use Rattle.rd_protocol.specs.RuleTexts.{RulesAreReadBack};
ghost use Rattle.rd_protocol.specs.VerdictLaws.{CatalogueIsThatOfVerdicts, OneAccessionIsThatOfAll, ServedWhereRead};
ghost use Rattle.rd_protocol.specs.Laws.{AnswersStep, EachReply, OneReply, SameAgain};

/// Law: a request on a day has at most one reply, and with it one desk afterwards.
pub fn one_reply()
    ensures { OneReply }
{}

/// Law: whatever a lawful desk holds, each request has a reply on each day. So with `one_reply` it
/// has exactly one: of a lawful desk whose images hold bytes, no request can be answered with 503
/// alone.
pub fn each_request_has_a_reply()
    ensures { EachReply }
{}

/// Law: after an answered request the desk is the old one if the request is refused, and the one
/// that the request makes of it if it is accepted.
pub fn answers_step()
    ensures { AnswersStep }
{}

/// Law: a staff request sent a second time on the same day gets the same reply and changes nothing
/// more, unless the first one changed its caller's own key.
pub fn same_again()
    ensures { SameAgain }
{}

/// Law: two desks that look alike to a caller on a day give the same reply to each request of the caller on that day.
/// Desks look alike to a caller if they have the same keys and rules and, at the same accessions, images of the same
/// kinds and deeds that have the same bytes wherever a byte is needed to describe the files, or to serve a file that the
/// caller may read. So no other byte of an image reaches the caller in a reply. The law leaves out what the staff asks
/// and only the staff may ask.
pub fn hidden_bytes_are_not_told()
    ensures { HiddenBytesDoNotShow }
{}

/// Law: two desks that show the same to a caller on a day give the same reply to each request of the caller on that day.
/// Desks show the same to a caller if they have the same keys and, at the same accessions, images of the same kinds and
/// deeds that show the same. An image shows the slots of its files. Of a file that is denied it shows the label of the
/// rule, and of any other file its name, type, user, class, size and faults, and the verdict on it. Of a sound file that
/// the caller may read it also shows the units and the bytes. So a reply shows of the name, size, type and faults of a
/// denied file only what the label of the rule or a crossed file shows, and of the units of a listed file that the caller
/// may not read only what its size and faults show. The law leaves out what the staff asks and only the staff may ask.
///
/// A desk shows the same as itself, and two desks that look alike to the caller show the same to them.
pub fn what_is_shown_decides()
    ensures decides { WhatIsShownDecides }
    ensures itself { ShowsItself }
    ensures alike { LooksAlikeShowsTheSame }
{}

/// Law: the catalogue of an audience on a day is what the verdicts of that day do not deny to that audience, with the
/// same labels. And a file is served to a caller exactly where the verdict on it is to read it, its class is served and
/// it has no fault. The verdicts on one accession alone are those on it among all verdicts of the day.
pub fn catalogue_is_that_of_verdicts()
    ensures catalogue { CatalogueIsThatOfVerdicts }
    ensures accession { OneAccessionIsThatOfAll }
    ensures served { ServedWhereRead }
{}

/// Law: the lines of a rehearsal are exactly the files and audiences for which the effect on that day differs between
/// the rules that stand and those that would stand, each with both verdicts.
pub fn rehearsals_are_exact()
    ensures { RehearsalsAreExact }
{}

/// Law: the JSON text of a rule, with its rank and without it, reads back as the value that was written.
pub fn rules_are_read_back()
    ensures { RulesAreReadBack }
{}

/// Law: the lists of deeds, takedowns and keys leave nothing out. Two desks that give the same replies to these three
/// questions have the same deeds, rules and keys. Premises: both desks are lawful, have fewer than 2^64 accessions, and
/// keep digests of bytes.
pub fn staff_lists_tell_all()
    ensures { StaffListsTellAll }
{}
