//! Laws of what the staff asks. No code calls them, and nothing stands on this crate.
#![tactic(auto)]

ghost use Rattle.rd_staff_laws.specs.Descriptions.{DescriptionsDecide, DescriptionsSuffice, NeededBytesDescribe};
ghost use Rattle.rd_staff_laws.specs.LatestChecks.{LatestIsLast, NoneIsLatest};
ghost use Rattle.rd_staff_laws.specs.PutAgain.{PutAgain};
ghost use Rattle.rd_staff_laws.specs.RehearsedCommands.{RehearsedDropsFollow, RehearsedRulesFollow};
ghost use Rattle.rd_staff_laws.specs.SizedFiles.{ServedWhereSized};

/// Law: a rule that stands, put again at its place, changes nothing.
pub fn put_again()
    ensures { PutAgain }
{}

/// Law: the answer to a rehearsal has exactly the differences that its command makes: each file and audience for which
/// the effect on the day asked is another after the command, and no other. So it is for a rule that is put, and for one
/// that is dropped.
pub fn rehearsals_follow_commands()
    ensures rules { RehearsedRulesFollow }
    ensures drops { RehearsedDropsFollow }
{}

/// Law: a file is served to a caller exactly where the verdict on it is to read it, and the verdicts give its size.
/// Premises: the images of the desk hold bytes, and the caller is known.
pub fn served_where_sized()
    ensures { ServedWhereSized }
{}

/// Law: the latest check of an accession is the last: it stands with what it found, and no check of the accession has a
/// later day. There is none exactly where no check of the accession stands.
pub fn latest_is_last()
    ensures last { LatestIsLast }
    ensures none { NoneIsLatest }
{}

/// Law: what is said to the staff of images is decided by the descriptions of their files. Take two desks with the same
/// deeds, rules, keys and checks, whose images stand at the same accessions, are of the same kinds and deeds, and have the
/// same files. What the one answers on a day to a question for deeds, takedowns, keys, checks or verdicts, or to a
/// rehearsal, the other answers on that day too.
///
/// Two images of a kind have the same files if they agree on the bytes that are needed to describe their files. They also
/// have the same files if both hold bytes and the same records describe their files.
pub fn descriptions_decide()
    ensures decide { DescriptionsDecide }
    ensures needed { NeededBytesDescribe }
    ensures suffice { DescriptionsSuffice }
{}
