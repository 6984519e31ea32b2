mod lists;
mod refused;
mod steps;
mod told;
mod values;

use rd_policy::{Rule, is_day, is_scope};
use rd_store::{Outcome, Store, StoreFault, is_donor};
use sqlite::{Alter, Connection, Error, MemStore};
use std::alloc::Global;
use std::process::Abort;
use steps::{Digest, Given, Picture};

/// A desk in memory.
type Desk = Store<MemStore>;

/// The SHA-256 of the 1541 image with a loop, and of no desk key.
const OTHER_DIGEST: [u8; 32] = [
    0x29, 0xbd, 0x47, 0x50, 0x06, 0x27, 0xf9, 0x34, 0xd5, 0x0b, 0xff, 0x93, 0x80, 0xa0, 0xfc, 0x11,
    0x91, 0x3e, 0x61, 0x55, 0xe4, 0x46, 0xd3, 0x2e, 0xa7, 0x9b, 0x7e, 0xcc, 0x5f, 0x7a, 0x6c, 0x17,
];

// The calls of a store have a helper each, without a clause, so that the proof of a test does not carry what
// all its calls say.

fn put_deed<S: Alter>(
    rt: &impl Abort,
    desk: &mut Store<S>,
    num: u32,
    donor: &str,
    signed: i32,
) -> Result<(), StoreFault> {
    assert!(rt; is_scope(num));
    assert!(rt; is_donor(donor));
    assert!(rt; is_day(signed));
    desk.put_deed(num, donor, signed)
}

fn put_rule<S: Alter>(rt: &impl Abort, desk: &mut Store<S>, rule: &Rule) -> Result<(), StoreFault> {
    assert!(rt; rule.fits());
    desk.put_rule(rule)
}

fn put_check<S: Alter>(
    rt: &impl Abort,
    desk: &mut Store<S>,
    acc: u32,
    day: i32,
    outcome: Outcome,
) -> Result<(), StoreFault> {
    assert!(rt; is_day(day));
    desk.put_check(acc, day, outcome)
}

/// The image with one program, under deed 7.
const PROGRAM: Given = (Picture::Program, 7, Digest::Program);

/// The image with a loop, under deed 7.
const LOOPED: Given = (Picture::Looped, 7, Digest::Other);

/// The image with one program and error bytes, under deed 7.
const MARKED: Given = (Picture::Marked, 7, Digest::Other);

/// The CP/M image with one file, under deed 7.
const CPM: Given = (Picture::Hello, 7, Digest::Other);

fn run(conn: &mut Connection<MemStore>, sql: &str) -> Result<usize, Error> {
    conn.execute(sql, &[])
}
