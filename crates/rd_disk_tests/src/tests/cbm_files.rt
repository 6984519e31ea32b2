//! What `rd_cbm::files` says of the files of a 1541 disk.

use super::cases::{Case, Wanted, assert_cases};
use super::sample::{
    ALL_DELETED, ALL_PROGRAMS, CBM_00, CBM_01, CBM_FF, CROSSED, FORMATTED, FULL, LOOPED, MIXED,
    ONE_PROGRAM, Runs, Sample, units_of,
};
use rd_cbm::{CbmFile, Class, files};
use rd_geometry::{CbmDisk, Image, NoMemory};
use rd_samples::bytes::padded;
use rd_samples::cbm::{NewCbmEntry, PROGRAM};
use rd_samples::{like, table};
use std::alloc::Global;

/// What must be found about files in slots that follow one another.
#[derive(Clone, Copy)]
pub(super) struct Told {
    /// How many files have this description, and the slot of the first.
    count: usize,
    slot: u16,
    class: Class,
    locked: bool,
    closed: bool,
    /// The name, which is padded with A0 hex.
    name: &'static [u8],
    faults: u8,
    blocks: Runs,
    last: u8,
    size_field: u16,
    claimed: u16,
}

/// What desk says of the program `FILE` at slot 0, where it has no blocks.
const FILE: Told = Told {
    count: 1,
    slot: 0,
    class: Class::Prg,
    locked: false,
    closed: true,
    name: b"FILE",
    faults: 0,
    blocks: &[],
    last: 0,
    size_field: 0,
    claimed: 0,
};

/// What desk says of the one program `HELLO`.
const HELLO_TOLD: Told =
    like!(Told, FILE, name: b"HELLO", blocks: &[(336, 1), (346, 1)], last: 5, size_field: 2, claimed: 2);

/// What desk says of `FILE`, where it is crossed with another of one block.
const SHARED: Told = like!(Told, FILE, faults: 8, claimed: 1);

/// A closed relative file with its data from 17/0 on and its side sectors from 17/1 on.
const RELATIVE: NewCbmEntry<'static> =
    like!(NewCbmEntry, PROGRAM, type_byte: 0x84, side: (17, 1), record_length: 10);

/// What desk says of it, where it is sound.
const RELATIVE_TOLD: Told = like!(Told, FILE, class: Class::Rel, claimed: 2);

/// A formatted disk with these entries from slot 0 of 18/1 on.
macro_rules! holding {
    ($($slot:literal: $entry:expr),+) => {
        like!(Sample, FORMATTED, entries: &[$((358, $slot, $entry)),+])
    };
}

pub(super) const FILES: &[Case] = table![
    ("a sound file is its chain", ONE_PROGRAM, Wanted::CbmFiles(&[HELLO_TOLD]));
    ("a block of a file reads with an error", like!(Sample, ONE_PROGRAM, marks: Some(&[(346, 5)])), Wanted::CbmFiles(&[
        like!(Told, HELLO_TOLD, faults: 16, blocks: &[], last: 0)
    ]));
    ("a file may have 681 blocks", FULL, Wanted::CbmFiles(&[
        like!(Told, FILE, name: b"LONG", blocks: &[(0, 357), (359, 324)], last: 255, size_field: 681, claimed: 681)
    ]));
    ("files that share a block are crossed", CROSSED, Wanted::CbmFiles(&[
        like!(Told, SHARED, name: b"A", size_field: 2, claimed: 2),
        like!(Told, SHARED, slot: 1, name: b"B", size_field: 2, claimed: 2),
        like!(Told, FILE, slot: 2, name: b"C", blocks: &[(338, 1)], last: 3, size_field: 1, claimed: 1)
    ]));
    ("files of other classes are listed alone", MIXED, Wanted::CbmFiles(&[
        like!(Told, RELATIVE_TOLD, name: b"DATA", size_field: 2),
        like!(Told, FILE, slot: 1, class: Class::Del, name: b"--------"),
        like!(Told, FILE, slot: 2, closed: false, name: b"LOST", faults: 1)
    ]));
    ("a chain that loops", LOOPED, Wanted::CbmFiles(&[
        like!(Told, FILE, name: b"LOOP", faults: 4, size_field: 3, claimed: 3)
    ]));
    ("a chain from 0/0", holding!(0: like!(NewCbmEntry, PROGRAM, first: (0, 0))), Wanted::CbmFiles(&[
        like!(Told, FILE, faults: 2)
    ]));
    ("a chain that leaves the disk", like!(Sample, holding!(0: PROGRAM), blocks: &[(336, &[17, 21])]), Wanted::CbmFiles(&[
        like!(Told, FILE, faults: 2, claimed: 1)
    ]));
];

const CLAIMS: &[Case] = table![
    ("a block of side sectors reads with an error", like!(Sample, holding!(0: RELATIVE), marks: Some(&[(337, 5)])), Wanted::CbmFiles(&[
        like!(Told, RELATIVE_TOLD, faults: 16)
    ]));
    ("a block behind side sectors reads with an error", like!(Sample, holding!(0: RELATIVE), marks: Some(&[(338, 5)])), Wanted::CbmFiles(&[RELATIVE_TOLD]));
    ("side sectors cross a program", holding!(0: RELATIVE, 1: like!(NewCbmEntry, PROGRAM, first: (17, 1))), Wanted::CbmFiles(&[
        like!(Told, RELATIVE_TOLD, faults: 8),
        like!(Told, SHARED, slot: 1)
    ]));
    ("side sectors cross the data of their file", like!(Sample, holding!(0: RELATIVE), blocks: &[(336, &[17, 1])]), Wanted::CbmFiles(&[
        like!(Told, RELATIVE_TOLD, faults: 8)
    ]));
    ("side sectors from 0/0", holding!(0: like!(NewCbmEntry, RELATIVE, side: (0, 0))), Wanted::CbmFiles(&[
        like!(Told, RELATIVE_TOLD, faults: 2, claimed: 1)
    ]));
    ("side sectors that loop", like!(Sample, holding!(0: RELATIVE), blocks: &[(337, &[17, 1])]), Wanted::CbmFiles(&[
        like!(Told, RELATIVE_TOLD, faults: 4)
    ]));
    ("a chain through 18/0", like!(Sample, holding!(0: PROGRAM), blocks: &[(336, &[18, 0]), (357, &[0, 255])]), Wanted::CbmFiles(&[
        like!(Told, SHARED, claimed: 2)
    ]));
    ("a chain from 18/1", holding!(0: like!(NewCbmEntry, PROGRAM, first: (18, 1))), Wanted::CbmFiles(&[SHARED]));
    ("two files from one block", holding!(0: PROGRAM, 1: PROGRAM), Wanted::CbmFiles(&[SHARED, like!(Told, SHARED, slot: 1)]));
    ("deleted and unclosed files claim nothing", holding!(
        0: like!(NewCbmEntry, PROGRAM, type_byte: 0x80),
        1: like!(NewCbmEntry, PROGRAM, type_byte: 0x02),
        2: like!(NewCbmEntry, PROGRAM, type_byte: 0x85),
        3: PROGRAM
    ), Wanted::CbmFiles(&[
        like!(Told, FILE, class: Class::Del),
        like!(Told, FILE, slot: 1, closed: false, faults: 1),
        like!(Told, FILE, slot: 2, class: Class::Other),
        like!(Told, FILE, slot: 3, blocks: &[(336, 1)], claimed: 1)
    ]));
];

const HOSTILE: &[Case] = table![
    ("an image of 00", CBM_00, Wanted::CbmFiles(&[]));
    ("an image of 01", CBM_01, Wanted::CbmFiles(&[
        like!(Told, FILE, count: 16, class: Class::Seq, closed: false, name: &[1; 16], faults: 1, size_field: 257)
    ]));
    ("an image of FF", CBM_FF, Wanted::CbmFiles(&[
        like!(Told, FILE, count: 8, class: Class::Other, locked: true, name: &[0xff; 16], size_field: 65_535)
    ]));
    ("every slot has a deleted file", ALL_DELETED, Wanted::CbmFiles(&[
        like!(Told, FILE, count: 5_464, class: Class::Del, name: &[0; 16])
    ]));
    ("every slot has a program of all blocks", ALL_PROGRAMS, Wanted::CbmFiles(&[
        like!(Told, FILE, count: 5_464, name: &[0; 16], faults: 12, claimed: 683)
    ]));
];

/// Whether a file of these blocks has this description, except for its slot.
fn is_told(file: &CbmFile, told: &Told, blocks: &[u16]) -> bool {
    file.class == told.class
        && file.locked == told.locked
        && file.closed == told.closed
        && file.name == padded::<16>(told.name, 0xa0)
        && file.faults == told.faults
        && file.last == told.last
        && file.size_field == told.size_field
        && file.claimed == told.claimed
        && file.blocks.as_slice() == blocks
}

/// Whether files in slots that follow one another, from the first on, have this description.
fn are_told(alloc: Global, files: &[CbmFile], told: &Told) -> Result<bool, NoMemory> {
    let blocks = units_of(alloc, told.blocks)?;
    for (slot, file) in (told.slot..).zip(files) {
        if file.slot != slot || !is_told(file, told, blocks.as_slice()) {
            return Ok(false);
        }
    }
    Ok(true)
}

/// Whether the files of a 1541 disk have these descriptions, each of them.
pub(super) fn are_files(
    alloc: Global,
    image: &Image<'_>,
    wanted: &[Told],
) -> Result<bool, NoMemory> {
    let Some(disk) = CbmDisk::of(image) else {
        return Ok(false);
    };
    let found = files(alloc, &disk)?;
    let mut rest = found.as_slice();
    for told in wanted {
        if rest.len() < told.count {
            return Ok(false);
        }
        let (front, others) = rest.split_at(told.count);
        if !are_told(alloc, front, told)? {
            return Ok(false);
        }
        rest = others;
    }
    Ok(rest.is_empty())
}

#[test]
fn files_of_1541_disks_are_told(rt: HostRuntime) {
    assert_cases(&rt, rt.alloc(), FILES);
}

#[test]
fn files_claim_their_blocks(rt: HostRuntime) {
    assert_cases(&rt, rt.alloc(), CLAIMS);
}

#[test]
fn files_of_hostile_images_are_told(rt: HostRuntime) {
    assert_cases(&rt, rt.alloc(), HOSTILE);
}
