//! Visits that a script makes under an allocator that refuses one growth. Each gets its usual reply, or that of
//! a desk that is unavailable, and then nothing has changed; or only a front of its usual reply goes out, and
//! then what was asked is done. Once memory is there, the same visit again gets its usual reply.

use super::cases::{
    ALL_OF_12, BAD_BODY, BAD_HEAD, CLOSED, Came, DONE, FOR_HELLO, FRAMING, GIVEN, HELLO,
    NO_ACCESSION, NO_DEED, NO_ROUTE, NO_RULE, Picture, ROW_OF_12, SOUND, SURVEY_OF_12, TAKEN_DOWN,
    UNAVAILABLE, Visit, Wanted, bytes_of, text_of,
};
use super::doors::{out_of, run};
use crate::tests::desks::{assert_tables, new_desk_again};
use crate::tests::keys::STAFF;
use crate::tests::plans::{asked, is_asked};
use rd_fakes::desk::Memory;
use rd_fakes::wire::{add_visit, door_of, new_door};
use rd_geometry::NoMemory;
use rd_http::{Door, Ended, MemoryDoor, MemoryVisit, Served, WireFault, serve_one};
use rd_samples::days::{AFTER, BEFORE};
use rd_samples::{like, table};
use std::alloc::Global;
use std::process::Abort;
use std::test::Fail;

/// A visit of a desk at which some visits were made, and what shows whether it has changed anything: a
/// question, and its reply before and after.
#[derive(Clone, Copy)]
struct Plan {
    given: &'static [Visit],
    visit: Visit,
    question: Came,
    before: Wanted,
    after: Wanted,
    /// Whether the visit takes no memory except for the bytes that go out.
    is_fixed: bool,
}

fn door(alloc: Global, seconds: i64, came: Came) -> Result<MemoryDoor, NoMemory> {
    door_of(alloc, seconds, bytes_of(alloc, came)?)
}

fn door_again(alloc: Global, seconds: i64, came: Came) -> Result<MemoryDoor, NoMemory> {
    match door(alloc, seconds, came) {
        Ok(door) => Ok(door),
        Err(NoMemory) => door(alloc, seconds, came),
    }
}

fn out_again(alloc: Global, door: &MemoryDoor) -> Result<String, NoMemory> {
    match out_of(alloc, door, 0) {
        Ok(out) => Ok(out),
        Err(NoMemory) => out_of(alloc, door, 0),
    }
}

fn text_again(alloc: Global, wanted: Wanted) -> Result<String, NoMemory> {
    match text_of(alloc, wanted) {
        Ok(text) => Ok(text),
        Err(NoMemory) => text_of(alloc, wanted),
    }
}

/// How the next visit of a door ends.
fn serve_next(
    alloc: Global,
    door: &mut MemoryDoor,
    desk: &mut Memory,
) -> Result<Result<(), WireFault>, Fail> {
    let Ok((seconds, mut conn)) = door.admit() else {
        return Err(Fail::new("the door has shut"));
    };
    let result = serve_one(alloc, &mut conn, seconds, desk);
    door.leave(conn);
    Ok(result)
}

/// Whether memory was refused for what goes out at the one visit of a door.
fn is_cut(door: &MemoryDoor) -> bool {
    matches!(door.visits(), [visit] if visit.write_failed())
}

/// How a visit ends, and what goes out at it. It ends with a fault exactly where memory is refused for what goes out.
fn visit(
    alloc: Global,
    desk: &mut Memory,
    seconds: i64,
    came: Came,
) -> Result<(Result<(), WireFault>, String), Fail> {
    let mut door = door_again(alloc, seconds, came)?;
    let result = serve_next(alloc, &mut door, desk)?;
    if result.is_err() != is_cut(&door) {
        return Err(Fail::new("a fault without a write that failed, or none with one"));
    }
    Ok((result, out_again(alloc, &door)?))
}

/// A visit gets its usual reply.
fn assert_reply(
    rt: &impl Abort,
    alloc: Global,
    desk: &mut Memory,
    (label, seconds, came, wanted): Visit,
) -> Result<(), Fail> {
    let (result, out) = visit(alloc, desk, seconds, came)?;
    assert!(rt; result.is_ok(), "{label}");
    assert_eq!(rt; out, text_of(alloc, wanted)?, "{label}");
    Ok(())
}

/// A visit gets its usual reply. If memory is refused at it, only a front of that goes out, or the desk is
/// unavailable; the visit made again then gets its usual reply.
fn assert_visit(
    rt: &impl Abort,
    alloc: Global,
    desk: &mut Memory,
    (label, seconds, came, wanted): Visit,
) -> Result<(), Fail> {
    let text = text_again(alloc, wanted)?;
    let (result, out) = visit(alloc, desk, seconds, came)?;
    if result.is_err() {
        assert!(rt;
            out != text && text.as_str().starts_with(out.as_str()),
            "{label}"
        );
    } else if out == text {
        return Ok(());
    } else {
        assert_eq!(rt; out, text_again(alloc, UNAVAILABLE)?, "{label}");
    }
    assert_reply(rt, alloc, desk, (label, seconds, came, wanted))
}

/// A desk at which these visits were made.
fn made(rt: &impl Abort, alloc: Global, visits: &[Visit]) -> Result<Memory, Fail> {
    let mut desk = new_desk_again(rt, alloc)?;
    for visit in visits {
        assert_visit(rt, alloc, &mut desk, *visit)?;
    }
    Ok(desk)
}

/// What a desk did of a visit at which memory was refused.
#[derive(Clone, Copy, PartialEq, Eq)]
enum Left {
    /// The visit got its usual reply.
    Replied,
    /// A front of it went out, and what was asked is done.
    Cut,
    /// The desk was unavailable, and nothing has changed.
    Unavailable,
}

/// The visit of a plan gets its usual reply, or a front of it goes out, or the desk is unavailable.
fn assert_first(
    rt: &impl Abort,
    alloc: Global,
    desk: &mut Memory,
    plan: &Plan,
) -> Result<Left, Fail> {
    let (label, seconds, came, wanted) = plan.visit;
    let wanted = text_again(alloc, wanted)?;
    let (result, out) = visit(alloc, desk, seconds, came)?;
    if let Err(fault) = result {
        assert_eq!(rt; fault, WireFault::Write, "{label}");
        assert!(rt;
            out != wanted && wanted.as_str().starts_with(out.as_str()),
            "{label}"
        );
        return Ok(Left::Cut);
    }
    if out == wanted {
        return Ok(Left::Replied);
    }
    assert!(rt; !plan.is_fixed, "{label}");
    assert_eq!(rt; out, text_again(alloc, UNAVAILABLE)?, "{label}");
    Ok(Left::Unavailable)
}

/// After the visit of a plan the desk has the tables of one at which what was asked is done, or else is not. Where
/// the visit got its usual reply they are not asked for.
fn assert_left(
    rt: &impl Abort,
    alloc: Global,
    desk: Memory,
    plan: &Plan,
    left: Left,
) -> Result<Memory, Fail> {
    if left == Left::Replied {
        return Ok(desk);
    }
    let mut kept = made(rt, alloc, plan.given)?;
    if left == Left::Cut {
        assert_visit(rt, alloc, &mut kept, plan.visit)?;
    }
    assert_tables(rt, alloc, desk, kept)
}

/// After the visit of a plan was made again the desk has the tables of one at which it was made once. Where it got
/// its usual reply at first they are not asked for.
fn assert_done(
    rt: &impl Abort,
    alloc: Global,
    desk: Memory,
    plan: &Plan,
    left: Left,
) -> Result<(), Fail> {
    if left == Left::Replied {
        return Ok(());
    }
    let mut kept = made(rt, alloc, plan.given)?;
    assert_visit(rt, alloc, &mut kept, plan.visit)?;
    assert_tables(rt, alloc, desk, kept)?;
    Ok(())
}

/// A visit after that of a plan gets its usual reply, at once if memory was refused at that of the plan.
fn assert_next(
    rt: &impl Abort,
    alloc: Global,
    desk: &mut Memory,
    left: Left,
    visit: Visit,
) -> Result<(), Fail> {
    match left {
        Left::Replied => assert_visit(rt, alloc, desk, visit),
        Left::Cut | Left::Unavailable => assert_reply(rt, alloc, desk, visit),
    }
}

fn assert_plan(rt: &impl Abort, alloc: Global, plan: &Plan) -> Result<(), Fail> {
    let mut desk = made(rt, alloc, plan.given)?;
    let left = assert_first(rt, alloc, &mut desk, plan)?;
    let mut desk = assert_left(rt, alloc, desk, plan, left)?;
    let shown = match left {
        Left::Unavailable => plan.before,
        Left::Replied | Left::Cut => plan.after,
    };
    let question = ("question", AFTER, plan.question, shown);
    let again = ("question again", AFTER, plan.question, plan.after);
    assert_next(rt, alloc, &mut desk, left, question)?;
    assert_next(rt, alloc, &mut desk, left, plan.visit)?;
    assert_next(rt, alloc, &mut desk, left, again)?;
    assert_done(rt, alloc, desk, plan, left)
}

/// A command of the staff that is done: its name, its method and its path, and its body.
macro_rules! done {
    ($label:literal, $line:literal, $body:literal) => {
        ($label, AFTER, Came::Asked($line, STAFF, $body), DONE)
    };
}

/// The image with one program is put, which is done: the name of the visit, its method and its path.
macro_rules! image {
    ($label:literal, $line:literal) => {
        ($label, AFTER, Came::Image($line, Picture::Program), DONE)
    };
}

const HELD_DEED: Visit = done!(
    "deed",
    "PUT /deeds/7",
    r#"{"donor":"A. Curator","signed":"2019-05-04"}"#
);

const HELD_RULE: Visit = done!(
    "rule",
    "PUT /deeds/7/rules/20",
    r#"{"audiences":["public"],"effect":"read","select":{"all":true}}"#
);

const HELD_IMAGE: Visit = image!(
    "image",
    "PUT /accessions/12/d64/7/ee352834e06f2b572e65490eb845939724cc38542aed18acdf81eded76912afb"
);

const HELD: &[Visit] = &[HELD_DEED, HELD_RULE, HELD_IMAGE];

const TAKE_DOWN: Visit = done!(
    "takedown",
    "PUT /images/12/rules/1",
    r#"{"audiences":["public"],"effect":"deny","select":{"prefix":"HELLO"}}"#
);

const PUT_9: Visit = done!(
    "deed",
    "PUT /deeds/9",
    r#"{"donor":"D","signed":"2021-01-01"}"#
);

const PUT_10: Visit = done!(
    "another deed",
    "PUT /deeds/10",
    r#"{"donor":"E","signed":"2021-01-01"}"#
);

const PUT_12: Visit = image!(
    "image",
    "PUT /accessions/12/d64/9/ee352834e06f2b572e65490eb845939724cc38542aed18acdf81eded76912afb"
);

const PUT_KEY: Visit = done!(
    "key",
    "PUT /badges/2cf24dba5fb0a30e26e83b2ac5b9e29e1b161e5c1fa7425e73043362938b9824",
    r#"{"audience":"room"}"#
);

const CONFLICT: Wanted = reply!("409 Conflict", r#"{"error":"conflict"}"#);

const STAFF_ONLY: Wanted = reply!("403 Forbidden", r#"{"error":"staff-only","rule":"S0"}"#);

const UNKNOWN_KEY: Wanted = reply!(
    "401 Unauthorized",
    "WWW-Authenticate: Desk-Key\r\n",
    r#"{"error":"unknown-key","rule":"K0"}"#
);

/// Tries plans, or the one of them that a script asks for, by its place.
fn assert_plans(
    rt: &impl Abort,
    alloc: Global,
    asked: Option<usize>,
    plans: &[Plan],
) -> Result<(), Fail> {
    let mut is_tried = false;
    for (number, plan) in plans.iter().enumerate() {
        if is_asked(asked, number) {
            assert_plan(rt, alloc, plan)?;
            is_tried = true;
        }
    }
    assert!(rt; is_tried, "no plan has this number");
    Ok(())
}

const LISTING: Plan = Plan {
    given: HELD,
    visit: ("listing", AFTER, get!("/images/12"), ALL_OF_12),
    question: FOR_HELLO,
    before: HELLO,
    after: HELLO,
    is_fixed: false,
};

/// A visit of a reader who finds nothing, where accession 12 is closed.
const NONE: Plan =
    like!(Plan, LISTING, given: GIVEN, visit: ("no images", BEFORE, get!("/images"), reply!("200 OK", r#"{"images":[]}"#)));

const OF_READERS: &[Plan] = table![
    LISTING;
    like!(Plan, LISTING, visit: ("file", AFTER, FOR_HELLO, HELLO));
    like!(Plan, LISTING, visit: ("catalogue", AFTER, get!("/catalogue"), ROW_OF_12));
    like!(Plan, LISTING, visit: ("images", AFTER, get!("/images"), reply!("200 OK", r#"{"images":[{"accession":12,"deed":7,"files":1,"kind":"d64"}]}"#)));
    NONE;
    like!(Plan, NONE, visit: ("denied", BEFORE, FOR_HELLO, CLOSED));
    like!(Plan, NONE, visit: ("closed", BEFORE, get!("/images/12"), reply!("200 OK", r#"{"accession":12,"deed":7,"files":[],"kind":"d64"}"#)));
];

#[test]
fn plans_of_readers_when_memory_is_refused(rt: HostRuntime) -> Result<(), Fail> {
    assert_plans(&rt, rt.alloc(), asked(&rt), OF_READERS)
}

/// What the staff asks for.
const OF_STAFF: &[Plan] = table![
    like!(Plan, LISTING, visit: ("survey", AFTER, Came::Asked("GET /images/12/survey", STAFF, ""), SURVEY_OF_12));
    like!(Plan, LISTING, visit: ("check", AFTER, Came::Asked("POST /images/12/check", STAFF, ""), SOUND));
    like!(Plan, LISTING, visit: ("the deeds", AFTER, Came::Asked("GET /staff/deeds", STAFF, ""), reply!("200 OK", r#"{"deeds":[{"accessions":1,"deed":7,"donor":"A. Curator","rules":[{"audiences":["public"],"effect":"read","from":null,"rank":20,"select":{"all":true},"until":null}],"signed":"2019-05-04"}]}"#)));
    like!(Plan, LISTING, visit: ("the takedowns", AFTER, Came::Asked("GET /staff/takedowns", STAFF, ""), reply!("200 OK", r#"{"takedowns":[]}"#)));
    like!(Plan, LISTING, visit: ("the keys", AFTER, Came::Asked("GET /staff/keys", STAFF, ""), reply!("200 OK", r#"{"keys":[{"audience":"staff","digest":"ba7816bf8f01cfea414140de5dae2223b00361a396177a9cb410ff61f20015ad"}]}"#)));
    like!(Plan, LISTING, visit: ("the latest checks", AFTER, Came::Asked("GET /staff/checks", STAFF, ""), reply!("200 OK", r#"{"checks":[{"accession":12,"day":null,"outcome":null}]}"#)));
    like!(Plan, LISTING, visit: ("the verdicts", AFTER, Came::Asked("GET /staff/verdicts/2030-01-01", STAFF, ""), csv!("157", "accession,deed,kind,slot,user,name,type,size,faults,public,public_rule,room,room_rule,staff,staff_rule\n12,7,d64,0,,HELLO,PRG,258,,read,R7.20,deny,D0,deny,D0\n")));
    like!(Plan, LISTING, visit: ("the verdicts of one accession", AFTER, Came::Asked("GET /staff/verdicts/2030-01-01/12", STAFF, ""), csv!("157", "accession,deed,kind,slot,user,name,type,size,faults,public,public_rule,room,room_rule,staff,staff_rule\n12,7,d64,0,,HELLO,PRG,258,,read,R7.20,deny,D0,deny,D0\n")));
    like!(Plan, LISTING, visit: ("verdicts of no date", AFTER, Came::Asked("GET /staff/verdicts/2030-02-30", STAFF, ""), NO_ROUTE));
];

#[test]
fn plans_of_the_staff_when_memory_is_refused(rt: HostRuntime) -> Result<(), Fail> {
    assert_plans(&rt, rt.alloc(), asked(&rt), OF_STAFF)
}

const DEED: Plan =
    like!(Plan, LISTING, given: &[], visit: PUT_9, question: Came::Asked("DELETE /deeds/9/rules/1", STAFF, ""), before: NO_DEED, after: DONE);

const KEY: Plan =
    like!(Plan, LISTING, given: &[], visit: PUT_KEY, question: Came::Asked("GET /images/12/survey", Some("hello"), ""), before: UNKNOWN_KEY, after: STAFF_ONLY);

/// Commands, and what rehearses them. The last one drops the last key of the staff, which stays.
const OF_COMMANDS: &[Plan] = table![
    like!(Plan, LISTING, visit: TAKE_DOWN, after: TAKEN_DOWN);
    like!(Plan, LISTING, given: &[HELD_DEED, HELD_RULE, HELD_IMAGE, TAKE_DOWN], visit: done!("drop", "DELETE /images/12/rules/1", ""), before: TAKEN_DOWN);
    like!(Plan, LISTING, visit: ("a takedown rehearsed", AFTER, Came::Asked("PUT /staff/rehearsals/2030-01-01/images/12/rules/1", STAFF, r#"{"audiences":["public"],"effect":"deny","select":{"prefix":"HELLO"}}"#), csv!("103", "accession,slot,name,audience,effect,rule,then_effect,then_rule\n12,0,HELLO,public,read,R7.20,deny,T12.1\n")));
    like!(Plan, LISTING, visit: ("a rule dropped in a rehearsal", AFTER, Came::Asked("DELETE /staff/rehearsals/2030-01-01/deeds/7/rules/20", STAFF, ""), csv!("100", "accession,slot,name,audience,effect,rule,then_effect,then_rule\n12,0,HELLO,public,read,R7.20,deny,D0\n")));
    like!(Plan, LISTING, visit: ("a rehearsal with a bad body", AFTER, Came::Asked("PUT /staff/rehearsals/2030-01-01/deeds/7/rules/20", STAFF, r#"{"audiences":[]}"#), BAD_BODY));
    DEED;
    KEY;
    like!(Plan, KEY, given: &[PUT_KEY], visit: done!("no key", "DELETE /badges/2cf24dba5fb0a30e26e83b2ac5b9e29e1b161e5c1fa7425e73043362938b9824", ""), before: STAFF_ONLY, after: UNKNOWN_KEY);
    like!(Plan, DEED, visit: ("last key", AFTER, Came::Asked("DELETE /badges/ba7816bf8f01cfea414140de5dae2223b00361a396177a9cb410ff61f20015ad", STAFF, ""), CONFLICT), after: NO_DEED);
];

#[test]
fn plans_of_commands_when_memory_is_refused(rt: HostRuntime) -> Result<(), Fail> {
    assert_plans(&rt, rt.alloc(), asked(&rt), OF_COMMANDS)
}

const IMAGE: Plan =
    like!(Plan, LISTING, given: &[PUT_9], visit: PUT_12, before: NO_ACCESSION, after: NO_RULE);

/// Images that are put: one that stands, one under another deed than the one that it has, and some that are refused.
const OF_IMAGES: &[Plan] = table![
    IMAGE;
    like!(Plan, LISTING, visit: HELD_IMAGE);
    like!(Plan, IMAGE, given: &[PUT_9, PUT_12, PUT_10], visit: ("another", AFTER, Came::Image("PUT /accessions/12/d64/10/ee352834e06f2b572e65490eb845939724cc38542aed18acdf81eded76912afb", Picture::Program), CONFLICT), before: NO_RULE);
    like!(Plan, IMAGE, visit: ("digest", AFTER, Came::Image("PUT /accessions/12/d64/9/ba7816bf8f01cfea414140de5dae2223b00361a396177a9cb410ff61f20015ad", Picture::Program), reply!("422 Unprocessable Content", r#"{"error":"digest-differs"}"#)), after: NO_ACCESSION);
    like!(Plan, IMAGE, visit: ("size", AFTER, Came::Image("PUT /accessions/12/cpm8/9/ee352834e06f2b572e65490eb845939724cc38542aed18acdf81eded76912afb", Picture::Program), reply!("422 Unprocessable Content", r#"{"error":"wrong-size"}"#)), after: NO_ACCESSION);
    like!(Plan, IMAGE, given: &[], visit: ("no deed", AFTER, Came::Image("PUT /accessions/12/d64/9/ee352834e06f2b572e65490eb845939724cc38542aed18acdf81eded76912afb", Picture::Program), NO_DEED), after: NO_ACCESSION);
];

#[test]
fn plans_of_images_when_memory_is_refused(rt: HostRuntime) -> Result<(), Fail> {
    assert_plans(&rt, rt.alloc(), asked(&rt), OF_IMAGES)
}

const BODY: Plan =
    like!(Plan, DEED, visit: ("body", AFTER, Came::Asked("PUT /deeds/9", STAFF, r#"{"donor":"D","signed":"2021-01-32"}"#), BAD_BODY), after: NO_DEED);

/// Bytes that are no request, as a body that ends one byte before its length, and requests whose path, method or key nobody
/// knows, or whose caller is not the staff.
const OF_NO_REQUESTS: &[Plan] = table![
    BODY;
    like!(Plan, BODY, visit: ("short", AFTER, Came::Text("PUT /deeds/9 HTTP/1.1\r\nDesk-Key: abc\r\nContent-Length: 5\r\n\r\nhell"), FRAMING));
    like!(Plan, BODY, visit: ("path", AFTER, get!("/images/012"), NO_ROUTE));
    like!(Plan, BODY, visit: ("head", AFTER, with!("Host: desk\r\n"), BAD_HEAD), is_fixed: true);
    like!(Plan, BODY, visit: ("length", AFTER, with!("Content-Length: +5\r\n\r\nhello"), FRAMING), is_fixed: true);
    like!(Plan, BODY, visit: ("method", AFTER, Came::Text("POST /images HTTP/1.1\r\n\r\n"), reply!("405 Method Not Allowed", "Allow: GET\r\n", r#"{"error":"method"}"#)));
    like!(Plan, BODY, visit: ("nobody", AFTER, Came::Asked("GET /images", Some("nobody"), ""), UNKNOWN_KEY));
    like!(Plan, KEY, given: &[PUT_KEY], visit: ("room", AFTER, Came::Asked("GET /images/12/survey", Some("hello"), ""), STAFF_ONLY), before: STAFF_ONLY);
];

#[test]
fn plans_of_no_requests_when_memory_is_refused(rt: HostRuntime) -> Result<(), Fail> {
    assert_plans(&rt, rt.alloc(), asked(&rt), OF_NO_REQUESTS)
}

/// A door of two visits that ask for the program, before it is open and after.
fn two(alloc: Global) -> Result<MemoryDoor, NoMemory> {
    let mut visits = Vec::new(alloc);
    add_visit(&mut visits, BEFORE, bytes_of(alloc, FOR_HELLO)?)?;
    add_visit(&mut visits, AFTER, bytes_of(alloc, FOR_HELLO)?)?;
    new_door(alloc, visits)
}

fn two_again(alloc: Global) -> Result<MemoryDoor, NoMemory> {
    match two(alloc) {
        Ok(door) => Ok(door),
        Err(NoMemory) => two(alloc),
    }
}

/// At a visit its reply went out, or that of a desk that is unavailable, or a front of its reply where the write
/// failed.
fn is_answered(visit: &MemoryVisit, wanted: &[u8], unavailable: &[u8]) -> bool {
    if visit.write_failed() {
        return visit.out() != wanted && wanted.starts_with(visit.out());
    }
    visit.out() == wanted || visit.out() == unavailable
}

/// How many writes of two visits failed.
fn failed(first: &MemoryVisit, second: &MemoryVisit) -> u32 {
    match (first.write_failed(), second.write_failed()) {
        (true, true) => 2,
        (false, false) => 0,
        _ => 1,
    }
}

/// Both visits of a run ended as memory lets them, and the run says so; one of them got its reply. Says whether both
/// did.
fn assert_both(
    rt: &impl Abort,
    alloc: Global,
    door: &MemoryDoor,
    served: Served,
) -> Result<bool, Fail> {
    let closed = text_again(alloc, CLOSED)?;
    let hello = text_again(alloc, HELLO)?;
    let unavailable = text_again(alloc, UNAVAILABLE)?;
    let [first, second] = door.visits() else {
        return Err(Fail::new("not two visits"));
    };
    assert!(rt; is_answered(first, closed.as_bytes(), unavailable.as_bytes()));
    assert!(rt; is_answered(second, hello.as_bytes(), unavailable.as_bytes()));
    let wanted = Served {
        visits: 2,
        read_faults: 0,
        write_faults: failed(first, second),
        ended: Ended::Count,
    };
    assert_eq!(rt; served, wanted);
    let is_first = first.out() == closed.as_bytes();
    let is_second = second.out() == hello.as_bytes();
    assert!(rt; is_first || is_second);
    Ok(is_first && is_second)
}

/// A run at a door whose visits are over ends as the door has shut, and serves none.
fn assert_shut(rt: &impl Abort, alloc: Global, door: &mut MemoryDoor, desk: &mut Memory) {
    let wanted = Served {
        visits: 0,
        read_faults: 0,
        write_faults: 0,
        ended: Ended::Shut,
    };
    assert_eq!(rt; run(alloc, door, desk, 3), wanted);
}

#[test]
fn a_run_when_memory_is_refused(rt: HostRuntime) -> Result<(), Fail> {
    let alloc = rt.alloc();
    let mut desk = made(&rt, alloc, GIVEN)?;
    let mut door = two_again(alloc)?;
    let served = run(alloc, &mut door, &mut desk, 2);
    assert_shut(&rt, alloc, &mut door, &mut desk);
    if !assert_both(&rt, alloc, &door, served)? {
        let kept = made(&rt, alloc, GIVEN)?;
        let mut desk = assert_tables(&rt, alloc, desk, kept)?;
        let mut door = two_again(alloc)?;
        let served = run(alloc, &mut door, &mut desk, 2);
        assert!(rt; assert_both(&rt, alloc, &door, served)?);
    }
    Ok(())
}
