//! Calls of a store in tables: what is called, and what it has to answer.

use super::lists::{has_deeds, has_keys, has_latest_check, rules_at};
use super::told::{Told, are_told, is_told};
use super::{OTHER_DIGEST, put_check, put_deed, put_rule};
use rd_geometry::{Kind, NoMemory};
use rd_policy::{Audience, Audiences, Band, Effect, Rule, is_scope};
use rd_samples::cbm::{add_marks, formatted, looped, mixed, one_program, put_mark};
use rd_samples::cpm::hello;
use rd_samples::keys::{PROGRAM_DIGEST, ROOM_DIGEST, STAFF_DIGEST};
use rd_samples::like;
use rd_samples::rules::{CLOSED, Files, NewRule, OPEN, TAKEDOWN, rule_of};
use rd_store::{Accession, DeedRow, ImageRow, Indexed, Outcome, Rulebook, Store, StoreFault};
use rd_volume::Found;
use sqlite::Alter;
use std::alloc::Global;
use std::process::Abort;
use std::test::Fail;

#[derive(Clone, Copy)]
pub(super) enum Digest {
    /// Of the key of the staff.
    Staff,
    /// Of the key of the room.
    Room,
    /// Of the 1541 image with one program.
    Program,
    /// Of the 1541 image with a loop, and of a key that may be put.
    Other,
}

/// The bytes of an image.
#[derive(Clone, Copy)]
pub(super) enum Picture {
    /// The 1541 image with one program.
    Program,
    /// The 1541 image with a loop.
    Looped,
    /// The 1541 image without files.
    Formatted,
    /// The 1541 image with a relative file, a separator and a program that was never closed.
    Mixed,
    /// The 1541 image with one program, and error bytes that tell of no error.
    Marked,
    /// The same, but that a block of the program reads with an error.
    Unread,
    /// The CP/M image with one file.
    Hello,
}

/// An image: its bytes, its deed and its digest.
pub(super) type Given = (Picture, u32, Digest);

/// A 1541 disk under deed 7.
pub(super) const COMMODORE: Accession = Accession {
    kind: Kind::D64,
    deed: 7,
};

/// A 1541 disk with error bytes under deed 7.
pub(super) const WITH_MARKS: Accession = Accession {
    kind: Kind::D64e,
    deed: 7,
};

/// A rule by its name; its deed or accession stands beside it.
#[derive(Clone, Copy)]
pub(super) enum Named {
    /// Of a deed, rank 20: open to everyone, without days.
    Open,
    /// Of a deed, rank 10: closed to all but the staff until 2030.
    Closed,
    /// Of an accession, rank 1: the file at slot 0 is closed to all but the staff.
    Takedown,
    /// Of a deed, rank 2: the files that begin with HE are listed for the room.
    ByPrefix,
}

/// A rule and its deed or accession.
pub(super) type Ruled = (Named, u32);

/// An accession with its kind, its deed and its files.
pub(super) type Filed<'a> = (u32, Accession, &'a [Told]);

/// A call that may change a desk, with its arguments in their order.
#[derive(Clone, Copy)]
pub(super) enum Call<'a> {
    PutDeed(u32, &'a str, i32),
    PutImage(u32, Given),
    PutRule(Named, u32),
    DropRule(Band, u32, u16),
    PutRoomKey(Digest),
    PutStaffKey(Digest),
    DropKey(Digest),
    PutCheck(u32, i32, Outcome),
}

/// A question, with its argument and then what it has to tell.
#[derive(Clone, Copy)]
pub(super) enum Question<'a> {
    Deed(u32, Option<(&'a str, i32)>),
    /// All of them: the number, the donor and the day of each.
    Deeds(&'a [(u32, &'a str, i32)]),
    Keys(&'a [(Digest, Audience)]),
    /// Of an accession: the day and the outcome.
    LatestCheck(u32, Option<(i32, Outcome)>),
    Image(u32, Option<Given>),
    /// The same, and the store may have the image in memory.
    CachedImage(u32, Option<Given>),
    /// Of an accession: the kind and the deed.
    Accession(u32, Option<Accession>),
    Accessions(&'a [u32]),
    Register(&'a [(u32, Accession)]),
    AudienceOf(Digest, Option<Audience>),
    RulesFor(u32, &'a [Ruled]),
    /// Of a band, and an accession or a deed.
    RulesAt(Band, u32, &'a [Ruled]),
    /// Of an accession and a deed.
    RulesUnder(u32, u32, &'a [Ruled]),
    /// Among all rules, the takedowns of an accession and the rules of a deed.
    RulesAmong(u32, u32, &'a [Ruled], &'a [Ruled]),
    /// The accessions from a place on, at most so many.
    Batch(usize, usize, &'a [Filed<'a>]),
    Files(u32, &'a [Told]),
    /// Of an accession and a slot.
    FileAt(u32, u16, Option<Told>),
}

/// A call with its answer, or a question with what it has to tell.
#[derive(Clone, Copy)]
pub(super) enum Step<'a> {
    Does(Call<'a>, Result<(), StoreFault>),
    Tells(Question<'a>),
}

/// What a call answers that is done.
pub(super) const DONE: Result<(), StoreFault> = Ok(());

/// What it answers where something is not there that it refers to.
pub(super) const MISSING: Result<(), StoreFault> = Err(StoreFault::Missing);

/// What it answers where something else stands.
pub(super) const CONFLICT: Result<(), StoreFault> = Err(StoreFault::Conflict);

pub(super) fn digest_of(digest: Digest) -> &'static [u8; 32] {
    match digest {
        Digest::Staff => &STAFF_DIGEST,
        Digest::Room => &ROOM_DIGEST,
        Digest::Program => &PROGRAM_DIGEST,
        Digest::Other => &OTHER_DIGEST,
    }
}

/// The 1541 image with one program and error bytes: 1, but of the program's second block this one.
fn marked(alloc: Global, mark: u8) -> Result<Vec<u8>, NoMemory> {
    let mut image = one_program(alloc)?;
    add_marks(&mut image)?;
    put_mark(&mut image, 346, mark);
    Ok(image)
}

fn bytes_of(alloc: Global, picture: Picture) -> Result<Vec<u8>, NoMemory> {
    match picture {
        Picture::Program => one_program(alloc),
        Picture::Looped => looped(alloc),
        Picture::Formatted => formatted(alloc),
        Picture::Mixed => mixed(alloc),
        Picture::Marked => marked(alloc, 1),
        Picture::Unread => marked(alloc, 5),
        Picture::Hello => hello(alloc),
    }
}

fn kind_of(picture: Picture) -> Kind {
    match picture {
        Picture::Hello => Kind::Cpm8,
        Picture::Marked | Picture::Unread => Kind::D64e,
        _ => Kind::D64,
    }
}

const ROOM_ALONE: Audiences = Audiences {
    public: false,
    room: true,
    staff: false,
};

/// A rule by its name, of deed 7 or accession 12.
fn new_rule(named: Named) -> NewRule {
    match named {
        Named::Open => OPEN,
        Named::Closed => CLOSED,
        Named::Takedown => TAKEDOWN,
        Named::ByPrefix => {
            like!(NewRule, OPEN, rank: 2, audiences: ROOM_ALONE, files: Files::Prefix("HE"), effect: Effect::List)
        }
    }
}

fn named_rule(alloc: Global, (named, scope): Ruled) -> Result<Rule, NoMemory> {
    rule_of(alloc, like!(NewRule, new_rule(named), scope: scope))
}

/// All that a rule holds, in words.
fn told(alloc: Global, rule: &Rule) -> Result<String, NoMemory> {
    Ok(format!(in alloc; "{rule:?}")?)
}

fn is_rule(alloc: Global, rule: &Rule, wanted: Ruled) -> Result<bool, NoMemory> {
    let wanted = named_rule(alloc, wanted)?;
    Ok(told(alloc, rule)?.as_str() == told(alloc, &wanted)?.as_str())
}

fn are_rules(alloc: Global, rules: &[Rule], wanted: &[Ruled]) -> Result<bool, NoMemory> {
    for (rule, wanted) in rules.iter().zip(wanted) {
        if !is_rule(alloc, rule, *wanted)? {
            return Ok(false);
        }
    }
    Ok(rules.len() == wanted.len())
}

fn put_image<S: Alter>(
    rt: &impl Abort,
    alloc: Global,
    desk: &mut Store<S>,
    acc: u32,
    kind: Kind,
    deed: u32,
    digest: &[u8; 32],
    bytes: &[u8],
) -> Result<(), StoreFault> {
    assert!(rt; is_scope(acc));
    assert!(rt; bytes.len() == kind.size());
    desk.put_image(alloc, acc, kind, deed, digest, bytes)
}

fn drop_rule<S: Alter>(
    desk: &mut Store<S>,
    band: Band,
    scope: u32,
    rank: u16,
) -> Result<(), StoreFault> {
    desk.drop_rule(band, scope, rank)
}

fn put_room_key<S: Alter>(desk: &mut Store<S>, digest: &[u8; 32]) -> Result<(), StoreFault> {
    desk.put_key(digest, Audience::Room)
}

fn put_staff_key<S: Alter>(desk: &mut Store<S>, digest: &[u8; 32]) -> Result<(), StoreFault> {
    desk.put_key(digest, Audience::Staff)
}

fn drop_key<S: Alter>(desk: &mut Store<S>, digest: &[u8; 32]) -> Result<(), StoreFault> {
    desk.drop_key(digest)
}

/// What putting an image answers.
fn put_given<S: Alter>(
    rt: &impl Abort,
    alloc: Global,
    desk: &mut Store<S>,
    acc: u32,
    (picture, deed, digest): Given,
) -> Result<Result<(), StoreFault>, NoMemory> {
    let bytes = bytes_of(alloc, picture)?;
    let kind = kind_of(picture);
    let digest = digest_of(digest);
    let answer = put_image(rt, alloc, desk, acc, kind, deed, digest, bytes.as_slice());
    Ok(answer)
}

/// What a call answers.
pub(super) fn answer<S: Alter>(
    rt: &impl Abort,
    alloc: Global,
    desk: &mut Store<S>,
    call: Call<'_>,
) -> Result<Result<(), StoreFault>, NoMemory> {
    Ok(match call {
        Call::PutDeed(num, donor, signed) => put_deed(rt, desk, num, donor, signed),
        Call::PutImage(acc, given) => put_given(rt, alloc, desk, acc, given)?,
        Call::PutRule(named, scope) => put_rule(rt, desk, &named_rule(alloc, (named, scope))?),
        Call::DropRule(band, scope, rank) => drop_rule(desk, band, scope, rank),
        Call::PutRoomKey(digest) => put_room_key(desk, digest_of(digest)),
        Call::PutStaffKey(digest) => put_staff_key(desk, digest_of(digest)),
        Call::DropKey(digest) => drop_key(desk, digest_of(digest)),
        Call::PutCheck(acc, day, outcome) => put_check(rt, desk, acc, day, outcome),
    })
}

pub(super) fn is_deed(found: Option<&DeedRow>, wanted: Option<(&str, i32)>) -> bool {
    match (found, wanted) {
        (Some(deed), Some((donor, signed))) => {
            deed.donor.as_str() == donor && deed.signed == signed
        }
        (None, None) => true,
        _ => false,
    }
}

fn has_deed<S: Alter>(
    desk: &mut Store<S>,
    num: u32,
    wanted: Option<(&str, i32)>,
) -> Result<bool, StoreFault> {
    let found = desk.deed(num)?;
    Ok(is_deed(found.as_ref(), wanted))
}

pub(super) fn image<S: Alter>(
    alloc: Global,
    desk: &mut Store<S>,
    acc: u32,
) -> Result<Option<ImageRow>, StoreFault> {
    desk.image(alloc, acc)
}

fn cached_image<S: Alter>(
    alloc: Global,
    desk: &mut Store<S>,
    acc: u32,
) -> Result<Option<ImageRow>, StoreFault> {
    desk.cached_image(alloc, acc)
}

pub(super) fn is_given(row: &ImageRow, (picture, deed, digest): Given, bytes: &[u8]) -> bool {
    row.kind == kind_of(picture)
        && row.deed == deed
        && row.digest == *digest_of(digest)
        && row.bytes.as_slice() == bytes
}

fn has_image(
    alloc: Global,
    found: Result<Option<ImageRow>, StoreFault>,
    wanted: Option<Given>,
) -> Result<Result<bool, StoreFault>, NoMemory> {
    let found = match found {
        Ok(found) => found,
        Err(fault) => return Ok(Err(fault)),
    };
    match (found.as_ref(), wanted) {
        (Some(row), Some(given)) => {
            let bytes = bytes_of(alloc, given.0)?;
            Ok(Ok(is_given(row, given, bytes.as_slice())))
        }
        (None, None) => Ok(Ok(true)),
        _ => Ok(Ok(false)),
    }
}

fn has_accession<S: Alter>(
    desk: &mut Store<S>,
    acc: u32,
    wanted: Option<Accession>,
) -> Result<bool, StoreFault> {
    Ok(desk.accession(acc)? == wanted)
}

fn has_accessions<S: Alter>(
    alloc: Global,
    desk: &mut Store<S>,
    wanted: &[u32],
) -> Result<bool, StoreFault> {
    let found = desk.accessions(alloc)?;
    Ok(found.as_slice() == wanted)
}

fn has_register<S: Alter>(
    alloc: Global,
    desk: &mut Store<S>,
    wanted: &[(u32, Accession)],
) -> Result<bool, StoreFault> {
    let found = desk.register(alloc)?;
    Ok(found.as_slice() == wanted)
}

fn has_audience<S: Alter>(
    desk: &mut Store<S>,
    digest: Digest,
    wanted: Option<Audience>,
) -> Result<bool, StoreFault> {
    Ok(desk.audience_of(digest_of(digest))? == wanted)
}

fn rules_for<S: Alter>(
    alloc: Global,
    desk: &mut Store<S>,
    acc: u32,
) -> Result<Vec<Rule>, StoreFault> {
    desk.rules_for(alloc, acc)
}

fn rules_under<S: Alter>(
    alloc: Global,
    desk: &mut Store<S>,
    acc: u32,
    deed: u32,
) -> Result<Vec<Rule>, StoreFault> {
    desk.rules_under(alloc, acc, deed)
}

fn has_rules(
    alloc: Global,
    found: Result<Vec<Rule>, StoreFault>,
    wanted: &[Ruled],
) -> Result<Result<bool, StoreFault>, NoMemory> {
    match found {
        Ok(found) => Ok(Ok(are_rules(alloc, found.as_slice(), wanted)?)),
        Err(fault) => Ok(Err(fault)),
    }
}

fn rulebook<S: Alter>(alloc: Global, desk: &mut Store<S>) -> Result<Rulebook, StoreFault> {
    desk.rulebook(alloc)
}

fn has_rules_among<S: Alter>(
    alloc: Global,
    desk: &mut Store<S>,
    acc: u32,
    deed: u32,
    takedowns: &[Ruled],
    rules: &[Ruled],
) -> Result<Result<bool, StoreFault>, NoMemory> {
    let all = match rulebook(alloc, desk) {
        Ok(all) => all,
        Err(fault) => return Ok(Err(fault)),
    };
    let (first, second) = all.under(acc, deed);
    Ok(Ok(are_rules(alloc, first, takedowns)? && are_rules(alloc, second, rules)?))
}

fn batch<S: Alter>(
    alloc: Global,
    desk: &mut Store<S>,
    from: usize,
    most: usize,
) -> Result<Vec<Indexed>, StoreFault> {
    desk.batch(alloc, from, most)
}

fn is_filed(one: &Indexed, (acc, given, files): Filed<'_>) -> bool {
    one.acc == acc
        && one.kind == given.kind
        && one.deed == given.deed
        && are_told(one.files.as_slice(), files)
}

fn has_batch<S: Alter>(
    alloc: Global,
    desk: &mut Store<S>,
    from: usize,
    most: usize,
    wanted: &[Filed<'_>],
) -> Result<bool, StoreFault> {
    let found = batch(alloc, desk, from, most)?;
    for (one, wanted) in found.iter().zip(wanted) {
        if !is_filed(one, *wanted) {
            return Ok(false);
        }
    }
    Ok(found.len() == wanted.len())
}

fn has_files<S: Alter>(
    alloc: Global,
    desk: &mut Store<S>,
    acc: u32,
    wanted: &[Told],
) -> Result<bool, StoreFault> {
    let found = desk.found(alloc, acc)?;
    Ok(are_told(found.as_slice(), wanted))
}

fn is_file(found: Option<&Found>, wanted: Option<&Told>) -> bool {
    match (found, wanted) {
        (Some(file), Some(told)) => is_told(file, told),
        (None, None) => true,
        _ => false,
    }
}

fn has_file_at<S: Alter>(
    alloc: Global,
    desk: &mut Store<S>,
    acc: u32,
    slot: u16,
    wanted: Option<Told>,
) -> Result<bool, StoreFault> {
    let found = desk.found_at(alloc, acc, slot)?;
    Ok(is_file(found.as_ref(), wanted.as_ref()))
}

/// Whether a question tells what it has to.
pub(super) fn tells_so<S: Alter>(
    alloc: Global,
    desk: &mut Store<S>,
    question: Question<'_>,
) -> Result<Result<bool, StoreFault>, NoMemory> {
    Ok(match question {
        Question::Deed(num, wanted) => has_deed(desk, num, wanted),
        Question::Deeds(wanted) => has_deeds(alloc, desk, wanted),
        Question::Keys(wanted) => has_keys(alloc, desk, wanted),
        Question::LatestCheck(acc, wanted) => has_latest_check(desk, acc, wanted),
        Question::Image(acc, wanted) => has_image(alloc, image(alloc, desk, acc), wanted)?,
        Question::CachedImage(acc, wanted) => {
            has_image(alloc, cached_image(alloc, desk, acc), wanted)?
        }
        Question::Accession(acc, wanted) => has_accession(desk, acc, wanted),
        Question::Accessions(wanted) => has_accessions(alloc, desk, wanted),
        Question::Register(wanted) => has_register(alloc, desk, wanted),
        Question::AudienceOf(digest, wanted) => has_audience(desk, digest, wanted),
        Question::RulesFor(acc, wanted) => has_rules(alloc, rules_for(alloc, desk, acc), wanted)?,
        Question::RulesAt(band, scope, wanted) => {
            has_rules(alloc, rules_at(alloc, desk, band, scope), wanted)?
        }
        Question::RulesUnder(acc, deed, wanted) => {
            has_rules(alloc, rules_under(alloc, desk, acc, deed), wanted)?
        }
        Question::RulesAmong(acc, deed, takedowns, rules) => {
            has_rules_among(alloc, desk, acc, deed, takedowns, rules)?
        }
        Question::Batch(from, most, wanted) => has_batch(alloc, desk, from, most, wanted),
        Question::Files(acc, wanted) => has_files(alloc, desk, acc, wanted),
        Question::FileAt(acc, slot, wanted) => has_file_at(alloc, desk, acc, slot, wanted),
    })
}

/// A step of a desk answers what it has to.
fn assert_step<S: Alter>(
    rt: &impl Abort,
    alloc: Global,
    desk: &mut Store<S>,
    label: &str,
    n: usize,
    step: &Step<'_>,
) -> Result<(), Fail> {
    match step {
        Step::Does(call, wanted) => {
            assert_eq!(rt;
                answer(rt, alloc, desk, *call)?,
                *wanted,
                "{label}: step {n}"
            );
        }
        Step::Tells(question) => {
            assert_eq!(rt;
                tells_so(alloc, desk, *question)?,
                Ok(true),
                "{label}: step {n}"
            );
        }
    }
    Ok(())
}

/// All steps of a desk, in turn, answer what they have to. They are counted from 0.
pub(super) fn assert_steps<S: Alter>(
    rt: &impl Abort,
    alloc: Global,
    desk: &mut Store<S>,
    label: &str,
    steps: &[Step<'_>],
) -> Result<(), Fail> {
    for (n, step) in steps.iter().enumerate() {
        assert_step(rt, alloc, desk, label, n, step)?;
    }
    Ok(())
}
