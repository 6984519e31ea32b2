//! Runs of visits of which reads or writes fail, or whose moment has no day.

use super::cases::{Came, DONE, NO_DEED, Visit, assert_visits, filled_desk};
use super::doors::run;
use crate::tests::desks::new_desk;
use crate::tests::keys::STAFF;
use rd_fakes::desk::Memory;
use rd_fakes::wire::{Plan, Visitors, WHOLE};
use rd_http::{Ended, Served};
use rd_samples::days::AFTER;
use rd_samples::{like, table};
use std::alloc::{AllocError, Global};
use std::process::Abort;
use std::test::Fail;

/// A request of 102 bytes, of which 60 are its head.
const REQUEST: &[u8] =
    b"PUT /deeds/9 HTTP/1.1\r\nDesk-Key: abc\r\nContent-Length: 42\r\n\r\n{\"donor\":\"C. Donor\",\"signed\":\"2021-01-01\"}";

/// Its reply, of 103 bytes.
const REPLY: &[u8] =
    b"HTTP/1.1 200 OK\r\nContent-Type: application/json\r\nContent-Length: 13\r\nConnection: close\r\n\r\n{\"done\":true}";

/// The plan of a connection at which nothing fails, and whose flush is one of its writes.
const FLUSHED: Plan = like!(Plan, WHOLE, flush_is_a_write: true);

/// A connection and its moment.
type Coming = (i64, Plan);

const SOUND: Coming = (AFTER, like!(Plan, FLUSHED, reads: 1));

const UNREAD: Coming = (AFTER, like!(Plan, FLUSHED, most_given: 1, reads: 50));

const UNWRITTEN: Coming = (
    AFTER,
    like!(Plan, FLUSHED, reads: 1, most_taken: 1, writes: 50),
);

const DAYLESS: Coming = (i64::MAX, like!(Plan, FLUSHED, reads: 1));

/// A run of visits: its name, their connections, up to how many are served, how it goes, and how many leave.
type Run = (&'static str, &'static [Coming], u32, Served, usize);

const RUNS: &[Run] = table![
    ("faults end their visit alone", &[UNREAD, UNWRITTEN, SOUND], 3, served!(3, 1, 1, Count), 3);
    ("faults are counted", &[UNREAD, SOUND, UNREAD, UNWRITTEN, UNREAD], 5, served!(5, 3, 1, Count), 5);
    ("a moment without a day ends the run", &[SOUND, DAYLESS, SOUND], 3, served!(1, 0, 0, Clock), 2);
    ("the first moment without a day", &[DAYLESS], 1, served!(0, 0, 0, Clock), 1);
    ("fewer are asked for", &[SOUND, DAYLESS], 1, served!(1, 0, 0, Count), 1);
    ("none is asked for", &[SOUND], 0, served!(0, 0, 0, Count), 0);
    ("the door shuts", &[SOUND, UNREAD], 3, served!(2, 1, 0, Shut), 2);
    ("none comes", &[], 1, served!(0, 0, 0, Shut), 0);
];

fn assert_run(rt: &impl Abort, alloc: Global, desk: &mut Memory, case: &Run) {
    let (label, plans, count, wanted, left) = case;
    let mut door = Visitors::new(alloc, REQUEST, *plans);
    assert_eq!(rt; run(alloc, &mut door, desk, *count), *wanted, "{label}");
    assert_eq!(rt; door.over.len(), *left, "{label}");
}

/// Shows that there is no deed 9.
const NONE: &[Visit] =
    table![("no deed", AFTER, Came::Asked("DELETE /deeds/9/rules/1", STAFF, ""), NO_DEED);];

/// Shows that there is a deed 9, and makes it again.
const STANDS: &[Visit] = table![
    ("a deed", AFTER, Came::Asked("DELETE /deeds/9/rules/1", STAFF, ""), DONE);
    ("the deed again", AFTER, Came::Asked("PUT /deeds/9", STAFF, r#"{"donor":"C. Donor","signed":"2021-01-01"}"#), DONE);
];

const BYTEWISE: Plan = like!(Plan, FLUSHED, most_given: 1, most_taken: 1);

/// Connections that give and take one byte at a time: each has one read, or one write, more than the one before.
fn failing(alloc: Global, of_reads: bool, count: usize) -> Result<Vec<Coming>, AllocError> {
    let mut plans = Vec::new(alloc);
    for n in 0..count {
        let plan = if of_reads {
            like!(Plan, BYTEWISE, reads: n)
        } else {
            like!(Plan, BYTEWISE, writes: n)
        };
        plans.push((AFTER, plan))?;
    }
    Ok(plans)
}

/// Of visits that fail at each read, none changes anything. Each that fails at a write has done what was
/// asked, and the front of its reply goes out; the last of them puts all of it, and fails as it is flushed.
fn assert_failing(rt: &impl Abort, alloc: Global, desk: &mut Memory) -> Result<(), Fail> {
    let plans = failing(alloc, true, 102)?;
    let mut door = Visitors::new(alloc, REQUEST, plans.as_slice());
    assert_eq!(rt;
        run(alloc, &mut door, desk, 200),
        served!(102, 102, 0, Shut)
    );
    for conn in &door.over {
        assert!(rt; conn.out.is_empty());
    }
    assert_visits(rt, alloc, desk, NONE)?;
    let plans = failing(alloc, false, 104)?;
    let mut door = Visitors::new(alloc, REQUEST, plans.as_slice());
    assert_eq!(rt;
        run(alloc, &mut door, desk, 200),
        served!(104, 0, 104, Shut)
    );
    for (n, conn) in door.over.iter().enumerate() {
        assert!(rt; conn.out.len() == n && REPLY.starts_with(&conn.out), "{n}");
    }
    assert_visits(rt, alloc, desk, STANDS)
}

#[test]
fn a_run_ends_as_it_says(rt: HostRuntime) -> Result<(), Fail> {
    let mut desk = new_desk(rt.alloc())?;
    for case in RUNS {
        assert_run(&rt, rt.alloc(), &mut desk, case);
    }
    Ok(())
}

#[test]
fn each_read_and_each_write_may_fail(rt: HostRuntime) -> Result<(), Fail> {
    let mut desk = filled_desk(&rt, rt.alloc())?;
    assert_failing(&rt, rt.alloc(), &mut desk)
}
