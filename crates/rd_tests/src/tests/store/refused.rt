//! Calls that allocate, which a script runs under an allocator that refuses one growth. A call that
//! answers `Sql` has changed nothing. It is made again, and must then answer as ever.

use super::steps::{
    COMMODORE, CONFLICT, Call, DONE, Digest, MISSING, Named, Picture, Question, Step, WITH_MARKS,
    answer, tells_so,
};
use super::told::{HELLO, HELLO_TXT, LOOP};
use super::{CPM, Desk, LOOPED, MARKED, PROGRAM, run};
use crate::tests::desks::new_store_again;
use crate::tests::plans::{asked, is_asked};
use crate::tests::tables::{first_tables_of, others_of, tables_of};
use rd_fakes::desk::{create, into_connection, migrate, open, opened};
use rd_geometry::{Kind, NoMemory};
use rd_policy::{Audience, Band};
use rd_store::{Accession, CreateFault, OpenFault, Outcome, StoreFault};
use sqlite::{Connection, Error, MemStore};
use std::alloc::Global;
use std::process::Abort;
use std::test::Fail;

/// Whether a step answers what it has to, or that memory was refused.
fn taken(
    rt: &impl Abort,
    alloc: Global,
    desk: &mut Desk,
    step: &Step<'_>,
) -> Result<Result<bool, StoreFault>, NoMemory> {
    match step {
        Step::Does(call, wanted) => match answer(rt, alloc, desk, *call)? {
            Err(StoreFault::Sql) => Ok(Err(StoreFault::Sql)),
            told => Ok(Ok(told == *wanted)),
        },
        Step::Tells(question) => tells_so(alloc, desk, *question),
    }
}

/// A step answers what it has to, at the second time where memory was refused at the first.
fn assert_step_again(
    rt: &impl Abort,
    alloc: Global,
    desk: &mut Desk,
    n: usize,
    step: &Step<'_>,
) -> Result<(), Fail> {
    let answer = match taken(rt, alloc, desk, step) {
        Err(NoMemory) | Ok(Err(StoreFault::Sql)) => taken(rt, alloc, desk, step)?,
        Ok(answer) => answer,
    };
    assert_eq!(rt; answer, Ok(true), "step {n}");
    Ok(())
}

/// A new desk after the first steps, so many. They are counted from 0.
fn made(rt: &impl Abort, alloc: Global, steps: &[Step<'_>], count: usize) -> Result<Desk, Fail> {
    let mut desk = new_store_again(rt, alloc)?;
    for (n, step) in steps.iter().enumerate() {
        if n < count {
            assert_step_again(rt, alloc, &mut desk, n, step)?;
        }
    }
    Ok(desk)
}

/// The database at which memory was refused has the tables of a desk after the first steps, so many.
fn assert_tables(
    rt: &impl Abort,
    alloc: Global,
    conn: &mut Connection<MemStore>,
    steps: &[Step<'_>],
    count: usize,
) -> Result<(), Fail> {
    let mut kept = into_connection(made(rt, alloc, steps, count)?);
    assert_eq!(rt; tables_of(alloc, conn)?, tables_of(alloc, &mut kept)?);
    Ok(())
}

/// The same of a desk.
fn assert_kept(
    rt: &impl Abort,
    alloc: Global,
    desk: Desk,
    steps: &[Step<'_>],
    count: usize,
) -> Result<Desk, Fail> {
    let mut conn = into_connection(desk);
    assert_tables(rt, alloc, &mut conn, steps, count)?;
    Ok(opened(alloc, conn)?)
}

/// The next step, number `n`, answers as it must. If memory is refused at it, the tables are still those of the steps
/// before it. Taken again, it answers as it must and changes what it has to.
fn assert_next(
    rt: &impl Abort,
    alloc: Global,
    mut desk: Desk,
    (label, steps): (&str, &[Step<'_>]),
    (n, step): (usize, &Step<'_>),
) -> Result<Desk, Fail> {
    let first = taken(rt, alloc, &mut desk, step);
    if first == Ok(Ok(true)) {
        return Ok(desk);
    }
    assert!(rt;
        matches!(&first, Err(NoMemory) | Ok(Err(StoreFault::Sql))),
        "{label}: step {n}"
    );
    let mut desk = assert_kept(rt, alloc, desk, steps, n)?;
    assert_eq!(rt;
        taken(rt, alloc, &mut desk, step)?,
        Ok(true),
        "{label}: step {n} again"
    );
    assert_kept(rt, alloc, desk, steps, n.saturating_add(1))
}

/// From a new desk on, each step answers as it must. A step at which memory is refused is taken once more. Steps are
/// counted from 0.
fn assert_steps_again(
    rt: &impl Abort,
    alloc: Global,
    label: &str,
    steps: &[Step<'_>],
) -> Result<(), Fail> {
    let mut desk = new_store_again(rt, alloc)?;
    for (n, step) in steps.iter().enumerate() {
        desk = assert_next(rt, alloc, desk, (label, steps), (n, step))?;
    }
    Ok(())
}

const PUT_DEED: Step<'static> = Step::Does(Call::PutDeed(7, "A. Curator", 18_020), DONE);

const PUT_IMAGE: Step<'static> = Step::Does(Call::PutImage(12, PROGRAM), DONE);

/// Puts a deed, and another in its place.
const DEEDS: &[Step<'static>] = &[
    Step::Tells(Question::Deed(7, None)),
    Step::Does(Call::PutDeed(7, "B. Donor", 18_321), DONE),
    PUT_DEED,
    Step::Tells(Question::Deed(7, Some(("A. Curator", 18_020)))),
];

/// Puts what the staff may list, and asks for all of it.
const LISTS: &[Step<'static>] = &[
    PUT_DEED,
    Step::Does(Call::PutDeed(8, "B. Donor", 18_321), DONE),
    PUT_IMAGE,
    Step::Does(Call::PutRule(Named::Takedown, 12), DONE),
    Step::Does(Call::PutRoomKey(Digest::Room), DONE),
    Step::Does(Call::PutCheck(12, 21_914, Outcome::Changed), DONE),
    Step::Does(Call::PutCheck(12, 21_915, Outcome::Sound), DONE),
    Step::Tells(Question::Deeds(&[(7, "A. Curator", 18_020), (8, "B. Donor", 18_321)])),
    Step::Tells(Question::RulesAt(Band::Takedown, 12, &[(Named::Takedown, 12)])),
    Step::Tells(Question::RulesAt(Band::Deed, 7, &[])),
    Step::Tells(Question::Keys(&[
        (Digest::Room, Audience::Room),
        (Digest::Staff, Audience::Staff),
    ])),
    Step::Tells(Question::LatestCheck(12, Some((21_915, Outcome::Sound)))),
    Step::Tells(Question::LatestCheck(13, None)),
];

/// Puts an image, and asks for it in each way.
const IMAGE: &[Step<'static>] = &[
    PUT_DEED,
    PUT_IMAGE,
    Step::Tells(Question::Image(12, Some(PROGRAM))),
    Step::Tells(Question::Image(13, None)),
    Step::Tells(Question::Accession(12, Some(COMMODORE))),
    Step::Tells(Question::Accessions(&[12])),
    Step::Tells(Question::Register(&[(12, COMMODORE)])),
];

const PUT_MARKED: Step<'static> = Step::Does(Call::PutImage(13, MARKED), DONE);

/// The same of an image with error bytes.
const WITH_ERROR_BYTES: &[Step<'static>] = &[
    PUT_DEED,
    PUT_MARKED,
    Step::Tells(Question::Image(13, Some(MARKED))),
    Step::Tells(Question::Accession(13, Some(WITH_MARKS))),
    Step::Tells(Question::Accessions(&[13])),
    Step::Tells(Question::Register(&[(13, WITH_MARKS)])),
    Step::Tells(Question::Files(13, &[HELLO])),
];

/// Puts an image, the same again, and images that are not taken in; asks for the image, and for the one in memory.
const IMAGES: &[Step<'static>] = &[
    PUT_DEED,
    PUT_IMAGE,
    PUT_IMAGE,
    Step::Does(Call::PutImage(12, LOOPED), CONFLICT),
    Step::Does(
        Call::PutImage(13, (Picture::Program, 9, Digest::Program)),
        MISSING,
    ),
    Step::Tells(Question::Image(12, Some(PROGRAM))),
    Step::Tells(Question::CachedImage(12, Some(PROGRAM))),
    Step::Tells(Question::CachedImage(12, Some(PROGRAM))),
    Step::Tells(Question::CachedImage(12, Some(PROGRAM))),
];

/// A CP/M disk under deed 7.
const CONTROL_PROGRAM: Accession = Accession {
    kind: Kind::Cpm8,
    deed: 7,
};

/// Puts a CP/M disk and two 1541 disks, and asks for their files.
const FILES: &[Step<'static>] = &[
    PUT_DEED,
    PUT_IMAGE,
    Step::Does(Call::PutImage(15, CPM), DONE),
    Step::Tells(Question::Register(&[(12, COMMODORE), (15, CONTROL_PROGRAM)])),
    Step::Tells(Question::Batch(
        0,
        16,
        &[
            (12, COMMODORE, &[HELLO]),
            (15, CONTROL_PROGRAM, &[HELLO_TXT]),
        ],
    )),
    Step::Tells(Question::Files(12, &[HELLO])),
    Step::Tells(Question::FileAt(12, 0, Some(HELLO))),
    Step::Tells(Question::FileAt(12, 1, None)),
    Step::Tells(Question::Files(13, &[])),
    Step::Tells(Question::Files(15, &[HELLO_TXT])),
    Step::Tells(Question::FileAt(15, 0, Some(HELLO_TXT))),
    Step::Does(Call::PutImage(14, LOOPED), DONE),
    Step::Tells(Question::Files(14, &[LOOP])),
];

/// Puts rules and a takedown, asks for them, and drops some.
const RULES: &[Step<'static>] = &[
    PUT_DEED,
    PUT_IMAGE,
    Step::Does(Call::PutRule(Named::Open, 7), DONE),
    Step::Does(Call::PutRule(Named::ByPrefix, 7), DONE),
    Step::Does(Call::PutRule(Named::Takedown, 12), DONE),
    Step::Tells(Question::RulesFor(
        12,
        &[
            (Named::Takedown, 12),
            (Named::ByPrefix, 7),
            (Named::Open, 7),
        ],
    )),
    Step::Tells(Question::RulesUnder(
        12,
        7,
        &[
            (Named::Takedown, 12),
            (Named::ByPrefix, 7),
            (Named::Open, 7),
        ],
    )),
    Step::Tells(Question::RulesAmong(
        12,
        7,
        &[(Named::Takedown, 12)],
        &[(Named::ByPrefix, 7), (Named::Open, 7)],
    )),
    Step::Does(Call::PutRule(Named::Open, 9), MISSING),
];

/// Puts two rules, and drops them, each twice.
const DROPPED: &[Step<'static>] = &[
    PUT_DEED,
    PUT_IMAGE,
    Step::Does(Call::PutRule(Named::Open, 7), DONE),
    Step::Does(Call::PutRule(Named::Takedown, 12), DONE),
    Step::Does(Call::DropRule(Band::Takedown, 12, 1), DONE),
    Step::Does(Call::DropRule(Band::Takedown, 12, 1), DONE),
    Step::Tells(Question::RulesFor(12, &[(Named::Open, 7)])),
    Step::Does(Call::DropRule(Band::Deed, 7, 20), DONE),
    Step::Does(Call::DropRule(Band::Deed, 9, 20), MISSING),
    Step::Tells(Question::RulesFor(12, &[])),
];

/// Puts desk keys, and drops some; the last one of the staff stays.
const KEYS: &[Step<'static>] = &[
    Step::Does(Call::PutRoomKey(Digest::Room), DONE),
    Step::Tells(Question::AudienceOf(Digest::Room, Some(Audience::Room))),
    Step::Does(Call::PutRoomKey(Digest::Staff), CONFLICT),
    Step::Does(Call::DropKey(Digest::Staff), CONFLICT),
    Step::Tells(Question::AudienceOf(Digest::Staff, Some(Audience::Staff))),
    Step::Does(Call::DropKey(Digest::Room), DONE),
    Step::Tells(Question::AudienceOf(Digest::Room, None)),
    Step::Does(Call::PutStaffKey(Digest::Other), DONE),
    Step::Does(Call::DropKey(Digest::Staff), DONE),
    Step::Tells(Question::AudienceOf(Digest::Other, Some(Audience::Staff))),
    Step::Tells(Question::AudienceOf(Digest::Staff, None)),
];

/// Puts an image, and what checks of it found on a day.
const CHECKED: &[Step<'static>] = &[
    PUT_DEED,
    PUT_IMAGE,
    Step::Does(Call::PutCheck(12, 18_021, Outcome::Sound), DONE),
    Step::Does(Call::PutCheck(12, 18_021, Outcome::Changed), DONE),
    Step::Does(Call::PutCheck(13, 18_021, Outcome::Sound), MISSING),
    Step::Tells(Question::LatestCheck(12, Some((18_021, Outcome::Changed)))),
];

/// A script tries each of them alone, by its place.
const PLANS: &[(&str, &[Step<'static>])] = &[
    ("deeds", DEEDS),
    ("lists", LISTS),
    ("an image", IMAGE),
    ("an image with error bytes", WITH_ERROR_BYTES),
    ("an image again", IMAGES),
    ("files", FILES),
    ("rules", RULES),
    ("dropped rules", DROPPED),
    ("keys", KEYS),
    ("checks", CHECKED),
];

#[test]
fn plans_when_memory_is_refused(rt: HostRuntime) -> Result<(), Fail> {
    let asked = asked(&rt);
    let mut is_tried = false;
    for (number, (label, steps)) in PLANS.iter().enumerate() {
        if is_asked(asked, number) {
            assert_steps_again(&rt, rt.alloc(), label, *steps)?;
            is_tried = true;
        }
    }
    assert!(rt; is_tried, "no plan has this number");
    Ok(())
}

/// The desk that a database holds, opened again where memory was refused, which left the tables as the steps
/// made them.
fn open_again(
    rt: &impl Abort,
    alloc: Global,
    conn: Connection<MemStore>,
    steps: &[Step<'_>],
) -> Result<Desk, Fail> {
    match open(alloc, conn) {
        Ok(desk) => Ok(desk),
        Err((fault, mut conn)) => {
            assert_eq!(rt; fault, OpenFault::Sql);
            assert_tables(rt, alloc, &mut conn, steps, steps.len())?;
            Ok(opened(alloc, conn)?)
        }
    }
}

/// Puts two images, a key for the room, a rule and a takedown.
const PUT_SMALL: &[Step<'static>] = &[
    PUT_DEED,
    PUT_IMAGE,
    PUT_MARKED,
    Step::Does(Call::PutRoomKey(Digest::Room), DONE),
    Step::Does(Call::PutRule(Named::Open, 7), DONE),
    Step::Does(Call::PutRule(Named::Takedown, 12), DONE),
    Step::Does(Call::PutCheck(12, 18_021, Outcome::Sound), DONE),
];

/// Asks for what they put.
const SMALL: &[Step<'static>] = &[
    Step::Tells(Question::Deed(7, Some(("A. Curator", 18_020)))),
    Step::Tells(Question::AudienceOf(Digest::Staff, Some(Audience::Staff))),
    Step::Tells(Question::AudienceOf(Digest::Room, Some(Audience::Room))),
    Step::Tells(Question::Image(12, Some(PROGRAM))),
    Step::Tells(Question::Image(13, Some(MARKED))),
    Step::Tells(Question::RulesFor(12, &[(Named::Takedown, 12), (Named::Open, 7)])),
    Step::Tells(Question::Files(12, &[HELLO])),
];

#[test]
fn opening_when_memory_is_refused(rt: HostRuntime) -> Result<(), Fail> {
    let alloc = rt.alloc();
    let desk = made(&rt, alloc, PUT_SMALL, PUT_SMALL.len())?;
    let mut desk = open_again(&rt, alloc, into_connection(desk), PUT_SMALL)?;
    for (n, step) in SMALL.iter().enumerate() {
        assert_step_again(&rt, alloc, &mut desk, n, step)?;
    }
    Ok(())
}

/// Runs a statement, again where memory was refused, and tells how many rows it changed.
fn run_again(conn: &mut Connection<MemStore>, sql: &str) -> Result<usize, Error> {
    match run(conn, sql) {
        Ok(count) => Ok(count),
        Err(_) => run(conn, sql),
    }
}

/// Puts a deed, and images of two disks.
const FEW: &[Step<'static>] = &[
    PUT_DEED,
    PUT_IMAGE,
    Step::Does(Call::PutImage(14, LOOPED), DONE),
];

/// What is done to the database of a desk, and why none is opened then.
const UNSOUND: &[(&str, OpenFault)] = &[
    ("UPDATE desk SET version = 9", OpenFault::Version),
    ("DELETE FROM found", OpenFault::Inconsistent),
    (
        "UPDATE found SET faults = 0 WHERE acc = 14",
        OpenFault::Inconsistent,
    ),
    (
        "INSERT INTO found VALUES (12, 1, 'HELLO', 'PRG', NULL, 1, 258, 0, x'0150015A', 4)",
        OpenFault::Inconsistent,
    ),
    (
        "UPDATE image SET bytes = x'00' WHERE acc = 12",
        OpenFault::Inconsistent,
    ),
    ("UPDATE badge SET audience = 1", OpenFault::Inconsistent),
    ("DROP TABLE desk", OpenFault::NotADesk),
];

/// The database of a desk to which something was done.
fn unsound(rt: &impl Abort, alloc: Global, sql: &str) -> Result<Connection<MemStore>, Fail> {
    let mut conn = into_connection(made(rt, alloc, FEW, FEW.len())?);
    run_again(&mut conn, sql)?;
    Ok(conn)
}

/// Why a database is not opened, and the connection.
fn fault_of(
    alloc: Global,
    conn: Connection<MemStore>,
) -> Result<(OpenFault, Connection<MemStore>), Fail> {
    match open(alloc, conn) {
        Ok(_) => Err(Fail::new("a desk")),
        Err(refused) => Ok(refused),
    }
}

/// The database of a desk to which something was done is not opened, for this reason. If memory is refused, the
/// tables but `desk` are left as they were, and the second time it is for this reason.
fn assert_fault(
    rt: &impl Abort,
    alloc: Global,
    (sql, wanted): (&str, OpenFault),
) -> Result<(), Fail> {
    let (first, mut conn) = fault_of(alloc, unsound(rt, alloc, sql)?)?;
    if first == wanted {
        return Ok(());
    }
    assert_eq!(rt; first, OpenFault::Sql, "{sql}");
    let mut kept = unsound(rt, alloc, sql)?;
    assert_eq!(rt;
        others_of(alloc, &mut conn)?,
        others_of(alloc, &mut kept)?,
        "{sql}"
    );
    let (second, _) = fault_of(alloc, conn)?;
    assert_eq!(rt; second, wanted, "{sql}");
    Ok(())
}

#[test]
fn no_desk_when_memory_is_refused(rt: HostRuntime) -> Result<(), Fail> {
    for case in UNSOUND {
        assert_fault(&rt, rt.alloc(), *case)?;
    }
    Ok(())
}

/// The database of a desk of version 1.
fn first_version(rt: &impl Abort, alloc: Global) -> Result<Connection<MemStore>, Fail> {
    let mut conn = unsound(rt, alloc, "DROP TABLE marks")?;
    run_again(&mut conn, "UPDATE desk SET version = 1")?;
    Ok(conn)
}

/// The desk that a database of version 1 holds, migrated again where memory was refused, which left its tables as
/// they were. Then it has those of `FEW`.
fn migrate_again(rt: &impl Abort, alloc: Global, conn: Connection<MemStore>) -> Result<Desk, Fail> {
    match migrate(alloc, conn) {
        Ok(desk) => Ok(desk),
        Err((fault, mut conn)) => {
            assert_eq!(rt; fault, OpenFault::Sql);
            let mut kept = first_version(rt, alloc)?;
            assert_eq!(rt;
                first_tables_of(alloc, &mut conn)?,
                first_tables_of(alloc, &mut kept)?
            );
            match migrate(alloc, conn) {
                Ok(desk) => assert_kept(rt, alloc, desk, FEW, FEW.len()),
                Err((fault, _)) => Err(Fail::from(fault)),
            }
        }
    }
}

/// Asks for the bytes of an image that `FEW` puts, and for the files of both.
const TWO_IMAGES: &[Step<'static>] = &[
    Step::Tells(Question::Image(12, Some(PROGRAM))),
    Step::Tells(Question::Files(12, &[HELLO])),
    Step::Tells(Question::Files(14, &[LOOP])),
];

#[test]
fn migrating_when_memory_is_refused(rt: HostRuntime) -> Result<(), Fail> {
    let alloc = rt.alloc();
    let desk = migrate_again(&rt, alloc, first_version(&rt, alloc)?)?;
    let mut desk = open_again(&rt, alloc, into_connection(desk), FEW)?;
    for (n, step) in TWO_IMAGES.iter().enumerate() {
        assert_step_again(&rt, alloc, &mut desk, n, step)?;
    }
    Ok(())
}

/// What is done to the database of a desk of version 1, and why it is not migrated then.
const UNMIGRATED: &[(&str, OpenFault)] = &[
    ("UPDATE desk SET version = 3", OpenFault::Version),
    (
        "UPDATE found SET faults = 0 WHERE acc = 14",
        OpenFault::Inconsistent,
    ),
    ("DROP TABLE desk", OpenFault::NotADesk),
];

/// The database of a desk of version 1 to which something was done.
fn unmigrated(rt: &impl Abort, alloc: Global, sql: &str) -> Result<Connection<MemStore>, Fail> {
    let mut conn = first_version(rt, alloc)?;
    run_again(&mut conn, sql)?;
    Ok(conn)
}

/// Why a database is not migrated, and the connection.
fn migration_fault_of(
    alloc: Global,
    conn: Connection<MemStore>,
) -> Result<(OpenFault, Connection<MemStore>), Fail> {
    match migrate(alloc, conn) {
        Ok(_) => Err(Fail::new("a desk")),
        Err(refused) => Ok(refused),
    }
}

/// The database of a desk of version 1 to which something was done is not migrated, for this reason. If memory is
/// refused, its tables are left as they were, and the second time it is for this reason.
fn assert_unmigrated(
    rt: &impl Abort,
    alloc: Global,
    (sql, wanted): (&str, OpenFault),
) -> Result<(), Fail> {
    let (first, mut conn) = migration_fault_of(alloc, unmigrated(rt, alloc, sql)?)?;
    if first == wanted {
        return Ok(());
    }
    assert_eq!(rt; first, OpenFault::Sql, "{sql}");
    let mut kept = unmigrated(rt, alloc, sql)?;
    assert_eq!(rt;
        first_tables_of(alloc, &mut conn)?,
        first_tables_of(alloc, &mut kept)?,
        "{sql}"
    );
    let (second, _) = migration_fault_of(alloc, conn)?;
    assert_eq!(rt; second, wanted, "{sql}");
    Ok(())
}

#[test]
fn no_migration_when_memory_is_refused(rt: HostRuntime) -> Result<(), Fail> {
    for case in UNMIGRATED {
        assert_unmigrated(&rt, rt.alloc(), *case)?;
    }
    Ok(())
}

/// Why no desk is made over the database of a desk, told again where memory was refused, which left the tables as
/// the steps made them.
fn refusal_again(
    rt: &impl Abort,
    alloc: Global,
    conn: Connection<MemStore>,
    steps: &[Step<'_>],
) -> Result<CreateFault, Fail> {
    let Err((fault, mut conn)) = create(conn) else {
        return Err(Fail::new("a desk"));
    };
    if fault != CreateFault::Sql {
        return Ok(fault);
    }
    assert_tables(rt, alloc, &mut conn, steps, steps.len())?;
    match create(conn) {
        Ok(_) => Err(Fail::new("a desk")),
        Err((fault, _)) => Ok(fault),
    }
}

#[test]
fn a_desk_that_stands_when_memory_is_refused(rt: HostRuntime) -> Result<(), Fail> {
    let desk = made(&rt, rt.alloc(), DEEDS, DEEDS.len())?;
    let fault = refusal_again(&rt, rt.alloc(), into_connection(desk), DEEDS)?;
    assert_eq!(rt; fault, CreateFault::Exists);
    Ok(())
}
