//! What `rd_cbm::directory` says of a 1541 disk.

use super::cases::{Case, Wanted, assert_cases};
use super::sample::{
    ALL_DELETED, CBM_00, CBM_01, CBM_FF, FORMATTED, MIXED, NO_END, Runs, Sample, units_of,
};
use rd_cbm::{CbmEntry, End, directory};
use rd_geometry::{CbmDisk, Image, NoMemory};
use rd_samples::cbm::PROGRAM;
use rd_samples::{like, table};
use std::alloc::Global;

/// The entry of the program `FILE`.
const FILE: CbmEntry = CbmEntry {
    slot: 0,
    ty_byte: 0x82,
    start: (17, 0),
    name: *b"FILE\xa0\xa0\xa0\xa0\xa0\xa0\xa0\xa0\xa0\xa0\xa0\xa0",
    side: (0, 0),
    record_len: 0,
    size_field: 0,
};

const DATA: CbmEntry =
    like!(CbmEntry, FILE, ty_byte: 0x84, name: *b"DATA\xa0\xa0\xa0\xa0\xa0\xa0\xa0\xa0\xa0\xa0\xa0\xa0", side: (17, 1), record_len: 10, size_field: 2);

const LOST: CbmEntry =
    like!(CbmEntry, FILE, slot: 2, ty_byte: 2, start: (17, 2), name: *b"LOST\xa0\xa0\xa0\xa0\xa0\xa0\xa0\xa0\xa0\xa0\xa0\xa0");

const LAST: CbmEntry =
    like!(CbmEntry, FILE, slot: 5_463, ty_byte: 0x80, start: (0, 0), name: [0; 16]);

/// A directory that goes on in another block.
const LONG: Sample =
    like!(Sample, FORMATTED, entries: &[(358, 7, PROGRAM), (361, 0, PROGRAM)], blocks: &[(358, &[18, 4]), (361, &[0, 255])]);

/// A disk whose block 18/0 links to a file's.
const LINKED: Sample = like!(Sample, MIXED, blocks: &[(357, &[17, 5])]);

pub(super) const DIRECTORIES: &[Case] = table![
    ("used entries are told by slot", MIXED, Wanted::Directory(&[(358, 1)], End::Last(255), 3));
    ("used entries are told by slot: the first", MIXED, Wanted::CbmEntry(0, DATA));
    ("used entries are told by slot: the last", MIXED, Wanted::CbmEntry(2, LOST));
    ("slots go on in the next block", LONG, Wanted::Directory(&[(358, 1), (361, 1)], End::Last(255), 2));
    ("slots go on in the next block: the first", LONG, Wanted::CbmEntry(0, like!(CbmEntry, FILE, slot: 7)));
    ("slots go on in the next block: the last", LONG, Wanted::CbmEntry(1, like!(CbmEntry, FILE, slot: 8)));
    ("the link of 18/0 is not followed", LINKED, Wanted::Directory(&[(358, 1)], End::Last(255), 3));
    ("the link of 18/0 is not followed: the first", LINKED, Wanted::CbmEntry(0, DATA));
    ("the link of 18/0 is not followed: the last", LINKED, Wanted::CbmEntry(2, LOST));
    ("a directory that loops", NO_END, Wanted::Directory(&[(358, 1)], End::Loop, 0));
];

const HOSTILE: &[Case] = table![
    ("an image of 00", CBM_00, Wanted::Directory(&[(358, 1)], End::Last(0), 0));
    ("an image of 01", CBM_01, Wanted::Directory(&[(358, 1), (1, 1)], End::Loop, 16));
    ("an image of FF", CBM_FF, Wanted::Directory(&[(358, 1)], End::Off, 8));
    ("a directory of all blocks", ALL_DELETED, Wanted::Directory(&[(358, 325), (0, 358)], End::Loop, 5_464));
    ("a directory of all blocks: the last entry", ALL_DELETED, Wanted::CbmEntry(5_463, LAST));
];

/// Whether the directory has these blocks, this end and so many entries.
pub(super) fn is_directory(
    alloc: Global,
    image: &Image<'_>,
    blocks: Runs,
    end: End,
    count: usize,
) -> Result<bool, NoMemory> {
    let Some(disk) = CbmDisk::of(image) else {
        return Ok(false);
    };
    let found = directory(alloc, &disk)?;
    let blocks = units_of(alloc, blocks)?;
    let is_so = found.end == end && found.entries.as_slice().len() == count;
    Ok(is_so && found.blocks.as_slice() == blocks.as_slice())
}

/// Whether the directory has this entry at a place among its entries.
pub(super) fn has_entry(
    alloc: Global,
    image: &Image<'_>,
    place: usize,
    entry: &CbmEntry,
) -> Result<bool, NoMemory> {
    let Some(disk) = CbmDisk::of(image) else {
        return Ok(false);
    };
    let found = directory(alloc, &disk)?;
    Ok(found.entries.as_slice().get(place) == Some(entry))
}

#[test]
fn directories_are_told(rt: HostRuntime) {
    assert_cases(&rt, rt.alloc(), DIRECTORIES);
}

#[test]
fn directories_of_hostile_images_are_told(rt: HostRuntime) {
    assert_cases(&rt, rt.alloc(), HOSTILE);
}
