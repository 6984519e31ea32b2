//! Requests that a script makes under an allocator that refuses one growth. Where that gives the reply of a
//! desk that is unavailable, nothing has changed, and the same request again, with memory, gets the usual one.

use super::cases::{
    ALL_OF_12, BAD_BODY, COLUMNS, DONE, FILE_OF_12, HELLO, NO_ACCESSION, NO_FILE, NO_FILES,
    NO_IMAGES, NO_RULE, NONE_OF_12, ONE_IMAGE, SOUND, STAFF_ONLY, SURVEY_OF_12, TAKEN_DOWN, Told,
    UNAVAILABLE, UNKNOWN_KEY, UNTIL_2030, Visit, Wanted, told, wanted_of,
};
use super::images::{
    HELLO_15, LOOPED_14, MARKED_12, MIXED_16, NewImage, ONES_19, PROGRAM_12, PROGRAM_13, Picture,
    QUOTED_18,
};
use super::requests::{Ask, request_of};
use super::state::{GIVEN, answer};
use crate::tests::desks::{assert_tables, new_desk_again};
use crate::tests::keys::{Key, NOBODY, PUBLIC, ROOM, STAFF};
use crate::tests::plans::{asked, is_asked};
use rd_desk::{Reply, Request};
use rd_fakes::desk::Memory;
use rd_geometry::NoMemory;
use rd_policy::{Audience, Band, Effect};
use rd_samples::days::{AFTER, BEFORE, OPENING as NEW_YEAR};
use rd_samples::rules::{CLOSED, NewRule, OPEN, TAKEDOWN};
use rd_samples::{like, table};
use std::alloc::Global;
use std::process::Abort;
use std::test::Fail;

/// What a desk is given, visits of which at most one changes it, and then comes last, and visits of the desk afterwards.
#[derive(Clone, Copy)]
struct Plan {
    label: &'static str,
    given: &'static [Ask],
    visits: &'static [Visit],
    then: &'static [Visit],
}

fn request_again(alloc: Global, key: Key, ask: Ask) -> Result<Request, NoMemory> {
    match request_of(alloc, key, ask) {
        Ok(request) => Ok(request),
        Err(NoMemory) => request_of(alloc, key, ask),
    }
}

fn told_again(alloc: Global, reply: &Reply) -> Result<Told, NoMemory> {
    match told(alloc, reply) {
        Ok(told) => Ok(told),
        Err(NoMemory) => told(alloc, reply),
    }
}

fn wanted_again(alloc: Global, wanted: Wanted) -> Result<Told, NoMemory> {
    match wanted_of(alloc, wanted) {
        Ok(wanted) => Ok(wanted),
        Err(NoMemory) => wanted_of(alloc, wanted),
    }
}

/// A desk with one staff key, which has what a plan gives it.
fn made(rt: &impl Abort, alloc: Global, plan: &Plan) -> Result<Memory, Fail> {
    let mut desk = new_desk_again(rt, alloc)?;
    for command in plan.given {
        let visit = (STAFF, AFTER, *command, DONE);
        assert_reply(rt, alloc, &mut desk, plan.label, visit)?;
    }
    Ok(desk)
}

fn assert_told(
    rt: &impl Abort,
    alloc: Global,
    label: &str,
    reply: &Reply,
    wanted: Wanted,
) -> Result<(), Fail> {
    assert_eq!(rt;
        told_again(alloc, reply)?,
        wanted_again(alloc, wanted)?,
        "{label}"
    );
    Ok(())
}

/// A visit gets the reply that is wanted, at the second time where the desk is unavailable at the first.
fn assert_reply(
    rt: &impl Abort,
    alloc: Global,
    desk: &mut Memory,
    label: &str,
    (key, seconds, ask, wanted): Visit,
) -> Result<(), Fail> {
    let request = request_again(alloc, key, ask)?;
    let mut reply = answer(rt, alloc, desk, seconds, &request);
    if reply.status == 503 {
        reply = answer(rt, alloc, desk, seconds, &request);
    }
    assert_told(rt, alloc, label, &reply, wanted)
}

/// A visit gets the expected reply at once.
fn assert_at_once(
    rt: &impl Abort,
    alloc: Global,
    desk: &mut Memory,
    label: &str,
    (key, seconds, ask, wanted): Visit,
) -> Result<(), Fail> {
    let request = request_of(alloc, key, ask)?;
    let reply = answer(rt, alloc, desk, seconds, &request);
    assert_told(rt, alloc, label, &reply, wanted)
}

/// A visit of a plan, made once more, gets the expected reply at once, and changes what it has to.
fn assert_once_more(
    rt: &impl Abort,
    alloc: Global,
    mut desk: Memory,
    plan: &Plan,
    visit: Visit,
) -> Result<Memory, Fail> {
    assert_at_once(rt, alloc, &mut desk, plan.label, visit)?;
    let mut kept = made(rt, alloc, plan)?;
    assert_at_once(rt, alloc, &mut kept, plan.label, visit)?;
    assert_tables(rt, alloc, desk, kept)
}

/// A visit of a plan gets the expected reply, or that of a desk that is unavailable and changes nothing.
/// Then the same visit, made once more, gets the expected reply, and changes what it has to.
fn assert_first(
    rt: &impl Abort,
    alloc: Global,
    mut desk: Memory,
    plan: &Plan,
    visit: Visit,
) -> Result<Memory, Fail> {
    let (key, seconds, ask, wanted) = visit;
    let request = request_again(alloc, key, ask)?;
    let reply = answer(rt, alloc, &mut desk, seconds, &request);
    if reply.status != 503 {
        assert_told(rt, alloc, plan.label, &reply, wanted)?;
        return Ok(desk);
    }
    assert_told(rt, alloc, plan.label, &reply, UNAVAILABLE)?;
    let kept = made(rt, alloc, plan)?;
    let desk = assert_tables(rt, alloc, desk, kept)?;
    assert_once_more(rt, alloc, desk, plan, visit)
}

/// What a desk is given, and the visits of a plan: of which the last may change the desk, and no other one does.
fn visited(rt: &impl Abort, alloc: Global, plan: &Plan) -> Result<Memory, Fail> {
    let mut desk = made(rt, alloc, plan)?;
    for visit in plan.visits {
        desk = assert_first(rt, alloc, desk, plan, *visit)?;
    }
    Ok(desk)
}

fn assert_plan(rt: &impl Abort, alloc: Global, plan: &Plan) -> Result<(), Fail> {
    let mut desk = visited(rt, alloc, plan)?;
    for visit in plan.then {
        assert_reply(rt, alloc, &mut desk, plan.label, *visit)?;
    }
    Ok(())
}

const DEED: Ask = Ask::PutDeed(7, "A. Curator", 18_020);

const HELD: &[Ask] = &[DEED, Ask::PutRule(OPEN), Ask::PutImage(PROGRAM_12)];

/// A plan: its label, what the desk is given, the visits, and those that come then.
macro_rules! plan {
    ($label:literal, $given:expr, $visits:expr, $then:expr) => {
        Plan {
            label: $label,
            given: $given,
            visits: $visits,
            then: $then,
        }
    };
}

/// Disks with files of each kind, with faults, with names that are quoted, and with a takedown that lists.
const TOLD: &[Ask] = table![
    Ask::PutDeed(7, "J. \"Jo\" M\u{fc}ller", 18_020);
    Ask::PutRule(OPEN);
    Ask::PutImage(QUOTED_18);
    Ask::PutImage(LOOPED_14);
    Ask::PutImage(HELLO_15);
    Ask::PutImage(MIXED_16);
    Ask::PutImage(ONES_19);
    Ask::PutRule(like!(NewRule, TAKEDOWN, scope: 14, effect: Effect::List));
];

/// What is told of them.
const TEXTS: &[Visit] = table![
    (PUBLIC, AFTER, Ask::Images, Wanted::Json(200, r#"{"images":[{"accession":14,"deed":7,"files":1,"kind":"d64"},{"accession":15,"deed":7,"files":1,"kind":"cpm8"},{"accession":16,"deed":7,"files":3,"kind":"d64"},{"accession":18,"deed":7,"files":2,"kind":"d64"},{"accession":19,"deed":7,"files":1,"kind":"cpm8"}]}"#));
    (PUBLIC, AFTER, Ask::Listing(14), Wanted::Json(200, r#"{"accession":14,"deed":7,"files":[{"effect":"list","faults":["loop"],"name":"LOOP","rule":"T14.1","size":null,"slot":0,"type":"PRG","user":null}],"kind":"d64"}"#));
    (PUBLIC, AFTER, Ask::Listing(15), Wanted::Json(200, r#"{"accession":15,"deed":7,"files":[{"effect":"read","faults":[],"name":"HELLO.TXT","rule":"R7.20","size":128,"slot":0,"type":"TXT","user":0}],"kind":"cpm8"}"#));
    (PUBLIC, AFTER, Ask::Listing(18), Wanted::Json(200, r#"{"accession":18,"deed":7,"files":[{"effect":"read","faults":[],"name":"HI%A0\"","rule":"R7.20","size":0,"slot":0,"type":"PRG","user":null},{"effect":"read","faults":[],"name":"A\\B","rule":"R7.20","size":0,"slot":1,"type":"PRG","user":null}],"kind":"d64"}"#));
    (PUBLIC, AFTER, Ask::Listing(19), Wanted::Json(200, r#"{"accession":19,"deed":7,"files":[{"effect":"read","faults":["duplicate","gap","crossed"],"name":"%01%01%01%01%01%01%01%01.%01%01%01","rule":"R7.20","size":null,"slot":0,"type":"%01%01%01","user":1}],"kind":"cpm8"}"#));
    (PUBLIC, AFTER, Ask::Bytes(14, 0), Wanted::Json(403, r#"{"error":"denied","rule":"T14.1"}"#));
    (STAFF, AFTER, Ask::Bytes(14, 0), Wanted::Json(422, r#"{"error":"faulty","faults":["loop"]}"#));
    (PUBLIC, AFTER, Ask::Bytes(15, 0), Wanted::File(&[("HELLO FROM CP/M\r\n", 1), ("\u{1a}", 111)]));
    (PUBLIC, AFTER, Ask::Bytes(16, 0), Wanted::Json(422, r#"{"error":"listed-only"}"#));
    (PUBLIC, AFTER, Ask::Bytes(18, 0), Wanted::File(&[]));
    (PUBLIC, AFTER, Ask::Bytes(19, 0), Wanted::Json(422, r#"{"error":"faulty","faults":["duplicate","gap","crossed"]}"#));
    (STAFF, AFTER, Ask::Survey(15), Wanted::Json(200, "{\"accession\":15,\"deed\":7,\"directory\":\"end\",\"donor\":\"J. \\\"Jo\\\" M\u{fc}ller\",\"faulty\":0,\"files\":1,\"kind\":\"cpm8\",\"label\":\"\",\"map\":null,\"served\":1,\"signed\":\"2019-05-04\",\"size_differs\":0}"));
    (PUBLIC, AFTER, Ask::Catalogue, Wanted::Table(&[
        COLUMNS,
        "14,7,d64,0,,LOOP,PRG,,loop,T14.1,list",
        "15,7,cpm8,0,0,HELLO.TXT,TXT,128,,R7.20,read",
        "16,7,d64,0,,DATA,REL,,,R7.20,read",
        "16,7,d64,1,,--------,DEL,,,R7.20,read",
        "16,7,d64,2,,LOST,PRG,,not-closed,R7.20,read",
        r#"18,7,d64,0,,"HI%A0""",PRG,0,,R7.20,read"#,
        r#"18,7,d64,1,,A\B,PRG,0,,R7.20,read"#,
        "19,7,cpm8,0,1,%01%01%01%01%01%01%01%01.%01%01%01,%01%01%01,,duplicate gap crossed,R7.20,read",
    ]));
];

/// What a caller may ask, before the file is open and after.
const OPENING: &[Visit] = &[
    (PUBLIC, BEFORE, Ask::Bytes(12, 0), UNTIL_2030),
    (PUBLIC, AFTER, Ask::Bytes(12, 0), HELLO),
    (PUBLIC, BEFORE, Ask::Images, NO_IMAGES),
    (PUBLIC, AFTER, Ask::Images, ONE_IMAGE),
    (PUBLIC, AFTER, Ask::Listing(12), ALL_OF_12),
    (PUBLIC, BEFORE, Ask::Listing(12), NONE_OF_12),
    (PUBLIC, AFTER, Ask::Catalogue, FILE_OF_12),
    (PUBLIC, BEFORE, Ask::Catalogue, NO_FILES),
    (STAFF, AFTER, Ask::Survey(12), SURVEY_OF_12),
];

/// A desk on which one accession is taken down, and another has a deed without rules.
const TAKEN: &[Ask] = &[
    DEED,
    Ask::PutDeed(8, "B. Donor", 18_321),
    Ask::PutKey("hello", Audience::Room),
    Ask::PutRule(OPEN),
    Ask::PutImage(PROGRAM_12),
    Ask::PutRule(TAKEDOWN),
    Ask::PutImage(PROGRAM_13),
];

const VERDICTS: &[Visit] = &[
    (ROOM, AFTER, Ask::Bytes(12, 0), TAKEN_DOWN),
    (STAFF, AFTER, Ask::Bytes(12, 0), HELLO),
    (PUBLIC, AFTER, Ask::Bytes(13, 0), NO_RULE),
    (STAFF, AFTER, Ask::Bytes(13, 0), NO_RULE),
    (PUBLIC, AFTER, Ask::Images, NO_IMAGES),
    (STAFF, AFTER, Ask::Images, ONE_IMAGE),
    (NOBODY, AFTER, Ask::Images, UNKNOWN_KEY),
    (ROOM, AFTER, Ask::Survey(12), STAFF_ONLY),
    (PUBLIC, AFTER, Ask::Listing(99), NO_ACCESSION),
    (STAFF, AFTER, Ask::Bytes(12, 1), NO_FILE),
];

/// What stands on a desk of which accession 12 is taken down.
const STAFF_LISTS: &[Visit] = table![
    (STAFF, AFTER, Ask::Deeds, Wanted::Json(200, r#"{"deeds":[{"accessions":1,"deed":7,"donor":"A. Curator","rules":[{"audiences":["public","room","staff"],"effect":"read","from":null,"rank":20,"select":{"all":true},"until":null}],"signed":"2019-05-04"},{"accessions":1,"deed":8,"donor":"B. Donor","rules":[],"signed":"2020-02-29"}]}"#));
    (STAFF, AFTER, Ask::Takedowns, Wanted::Json(200, r#"{"takedowns":[{"accession":12,"rules":[{"audiences":["public","room"],"effect":"deny","from":null,"rank":1,"select":{"slot":0},"until":null}]}]}"#));
    (STAFF, AFTER, Ask::Keys, Wanted::Json(200, r#"{"keys":[{"audience":"room","digest":"2cf24dba5fb0a30e26e83b2ac5b9e29e1b161e5c1fa7425e73043362938b9824"},{"audience":"staff","digest":"ba7816bf8f01cfea414140de5dae2223b00361a396177a9cb410ff61f20015ad"}]}"#));
    (ROOM, AFTER, Ask::Deeds, STAFF_ONLY);
    (PUBLIC, AFTER, Ask::Checks, STAFF_ONLY);
    (NOBODY, AFTER, Ask::Keys, UNKNOWN_KEY);
];

/// The latest checks, before accession 12 is checked and after.
const UNCHECKED: Wanted = Wanted::Json(
    200,
    r#"{"checks":[{"accession":12,"day":null,"outcome":null}]}"#,
);

const CHECKED: Wanted = Wanted::Json(
    200,
    r#"{"checks":[{"accession":12,"day":"2030-01-01","outcome":"sound"}]}"#,
);

/// The first line of a table of verdicts.
const VERDICT_COLUMNS: &str =
    "accession,deed,kind,slot,user,name,type,size,faults,public,public_rule,room,room_rule,staff,staff_rule";

/// The first line of a rehearsal.
const REHEARSAL_COLUMNS: &str = "accession,slot,name,audience,effect,rule,then_effect,then_rule";

const NO_DIFFERENCE: Wanted = Wanted::Table(&[REHEARSAL_COLUMNS]);

/// The verdicts of one accession, which stands or does not.
const ONE_ACCESSION: &[Visit] = table![
    (STAFF, BEFORE, Ask::VerdictsOf(NEW_YEAR, 12), Wanted::Table(&[
        VERDICT_COLUMNS,
        "12,7,d64,0,,HELLO,PRG,258,,deny,T12.1,deny,T12.1,read,R7.20",
    ]));
    (STAFF, AFTER, Ask::VerdictsOf(NEW_YEAR, 13), Wanted::Table(&[
        VERDICT_COLUMNS,
        "13,8,d64,0,,HELLO,PRG,258,,deny,D0,deny,D0,deny,D0",
    ]));
    (STAFF, AFTER, Ask::VerdictsOf(NEW_YEAR, 99), NO_ACCESSION);
    (ROOM, AFTER, Ask::VerdictsOf(NEW_YEAR, 99), STAFF_ONLY);
];

/// All verdicts, and what commands would change of them.
const REHEARSALS: &[Visit] = table![
    (STAFF, BEFORE, Ask::Verdicts(NEW_YEAR), Wanted::Table(&[
        VERDICT_COLUMNS,
        "12,7,d64,0,,HELLO,PRG,258,,deny,T12.1,deny,T12.1,read,R7.20",
        "13,8,d64,0,,HELLO,PRG,258,,deny,D0,deny,D0,deny,D0",
    ]));
    (STAFF, AFTER, Ask::RehearseDrop(NEW_YEAR, Band::Takedown, 12, 1), Wanted::Table(&[
        REHEARSAL_COLUMNS,
        "12,0,HELLO,public,deny,T12.1,read,R7.20",
        "12,0,HELLO,room,deny,T12.1,read,R7.20",
    ]));
    (STAFF, AFTER, Ask::RehearseRule(NEW_YEAR, like!(NewRule, OPEN, scope: 8)), Wanted::Table(&[
        REHEARSAL_COLUMNS,
        "13,0,HELLO,public,deny,D0,read,R8.20",
        "13,0,HELLO,room,deny,D0,read,R8.20",
        "13,0,HELLO,staff,deny,D0,read,R8.20",
    ]));
    (STAFF, AFTER, Ask::RehearseRule(NEW_YEAR, TAKEDOWN), NO_DIFFERENCE);
    (STAFF, AFTER, Ask::RehearseDrop(NEW_YEAR, Band::Deed, 8, 1), NO_DIFFERENCE);
    (STAFF, AFTER, Ask::RehearseDrop(NEW_YEAR, Band::Deed, 9, 1), NO_DEED);
    (STAFF, AFTER, Ask::RehearseDrop(NEW_YEAR, Band::Takedown, 99, 1), NO_ACCESSION);
    (ROOM, AFTER, Ask::RehearseRule(NEW_YEAR, OPEN), STAFF_ONLY);
];

const CONFLICT: Wanted = Wanted::Json(409, r#"{"error":"conflict"}"#);

const NO_DEED: Wanted = Wanted::Json(404, r#"{"error":"no-deed"}"#);

const DIFFERS: Wanted = Wanted::Json(422, r#"{"error":"digest-differs"}"#);

const WRONG_SIZE: Wanted = Wanted::Json(422, r#"{"error":"wrong-size"}"#);

/// Commands that leave the desk as it is, in which accession 12 stands.
const REPEATS: &[Visit] = table![
    (STAFF, AFTER, Ask::PutImage(PROGRAM_12), DONE);
    (STAFF, AFTER, Ask::PutImage(like!(NewImage, LOOPED_14, acc: 12)), CONFLICT);
    (STAFF, AFTER, Ask::PutImage(like!(NewImage, PROGRAM_12, bytes: Picture::Looped)), DIFFERS);
    (STAFF, AFTER, Ask::PutImage(like!(NewImage, PROGRAM_12, bytes: Picture::Cut)), WRONG_SIZE);
    (STAFF, AFTER, Ask::PutImage(like!(NewImage, PROGRAM_12, deed: 9)), NO_DEED);
];

const RULED: &[Ask] = &[DEED, Ask::PutRule(OPEN)];

/// The same of a desk without an image.
const COMMANDS: &[Visit] = table![
    (STAFF, AFTER, DEED, DONE);
    (STAFF, AFTER, Ask::PutRule(OPEN), DONE);
    (STAFF, AFTER, Ask::PutRule(TAKEDOWN), NO_ACCESSION);
    (STAFF, AFTER, Ask::DropRule(Band::Deed, 7, 1), DONE);
    (STAFF, AFTER, Ask::DropRule(Band::Deed, 9, 1), NO_DEED);
    (STAFF, AFTER, Ask::DropKey("abc"), CONFLICT);
    (STAFF, AFTER, Ask::PutKey("abc", Audience::Room), CONFLICT);
    (STAFF, AFTER, Ask::DropKey("hello"), DONE);
    (STAFF, AFTER, Ask::Check(12), NO_ACCESSION);
];

/// Tries plans, or the one of them that a script asks for, by its place.
fn assert_plans(
    rt: &impl Abort,
    alloc: Global,
    asked: Option<usize>,
    plans: &[Plan],
) -> Result<(), Fail> {
    let mut is_tried = false;
    for (number, plan) in plans.iter().enumerate() {
        if is_asked(asked, number) {
            assert_plan(rt, alloc, plan)?;
            is_tried = true;
        }
    }
    assert!(rt; is_tried, "no plan has this number");
    Ok(())
}

const OF_READERS: &[Plan] = table![
    plan!("images", HELD, &[(PUBLIC, AFTER, Ask::Images, ONE_IMAGE)], &[]);
    plan!("a listing", HELD, &[(PUBLIC, AFTER, Ask::Listing(12), ALL_OF_12)], &[]);
    plan!("bytes", HELD, &[(PUBLIC, AFTER, Ask::Bytes(12, 0), HELLO)], &[]);
    plan!("a denial", &[DEED, Ask::PutRule(CLOSED), Ask::PutImage(PROGRAM_12)], &[(PUBLIC, BEFORE, Ask::Bytes(12, 0), UNTIL_2030)], &[]);
    plan!("questions", GIVEN, OPENING, &[]);
    plan!("verdicts", TAKEN, VERDICTS, &[]);
    plan!("texts", TOLD, TEXTS, &[]);
];

#[test]
fn plans_of_readers_when_memory_is_refused(rt: HostRuntime) -> Result<(), Fail> {
    assert_plans(&rt, rt.alloc(), asked(&rt), OF_READERS)
}

/// What the staff asks for.
const OF_STAFF: &[Plan] = table![
    plan!("a survey", HELD, &[(STAFF, AFTER, Ask::Survey(12), SURVEY_OF_12)], &[]);
    plan!("a check", HELD, &[(STAFF, AFTER, Ask::Check(12), SOUND)], &[(STAFF, AFTER, Ask::Check(12), SOUND)]);
    plan!("staff lists", TAKEN, STAFF_LISTS, &[]);
    plan!("latest checks", HELD, &[(STAFF, AFTER, Ask::Checks, UNCHECKED)], &[(STAFF, AFTER, Ask::Check(12), SOUND), (STAFF, AFTER, Ask::Checks, CHECKED)]);
    plan!("verdicts of one accession", TAKEN, ONE_ACCESSION, &[]);
    plan!("rehearsals", TAKEN, REHEARSALS, &[]);
    plan!("a body that was not read", &[], &[(STAFF, AFTER, Ask::Unread, BAD_BODY)], &[]);
];

#[test]
fn plans_of_the_staff_when_memory_is_refused(rt: HostRuntime) -> Result<(), Fail> {
    assert_plans(&rt, rt.alloc(), asked(&rt), OF_STAFF)
}

/// The image of the first has error bytes, so that all is asked for that one without them asks for, and more.
const OF_COMMANDS: &[Plan] = table![
    plan!("an image", RULED, &[(STAFF, AFTER, Ask::PutImage(MARKED_12), DONE)], &[(PUBLIC, AFTER, Ask::Bytes(12, 0), HELLO)]);
    plan!("a deed", &[], &[(STAFF, AFTER, DEED, DONE)], &[(STAFF, AFTER, Ask::PutRule(OPEN), DONE)]);
    plan!("a rule", HELD, &[(STAFF, AFTER, Ask::PutRule(CLOSED), DONE)], &[(PUBLIC, BEFORE, Ask::Bytes(12, 0), UNTIL_2030)]);
    plan!("a rule dropped", &[DEED, Ask::PutRule(OPEN), Ask::PutImage(PROGRAM_12), Ask::PutRule(TAKEDOWN)], &[(STAFF, AFTER, Ask::DropRule(Band::Takedown, 12, 1), DONE)], &[(PUBLIC, AFTER, Ask::Bytes(12, 0), HELLO)]);
    plan!("a key", &[], &[(STAFF, AFTER, Ask::PutKey("hello", Audience::Room), DONE)], &[(ROOM, AFTER, Ask::Unread, STAFF_ONLY)]);
    plan!("a key dropped", &[Ask::PutKey("hello", Audience::Room)], &[(STAFF, AFTER, Ask::DropKey("hello"), DONE)], &[(ROOM, AFTER, Ask::Unread, UNKNOWN_KEY)]);
    plan!("images again", HELD, REPEATS, &[]);
    plan!("commands again", RULED, COMMANDS, &[]);
];

#[test]
fn plans_of_commands_when_memory_is_refused(rt: HostRuntime) -> Result<(), Fail> {
    assert_plans(&rt, rt.alloc(), asked(&rt), OF_COMMANDS)
}
