//! What desk says of a whole image: how the block map of a 1541 disk differs from the blocks in use, and a report.

use super::cases::{Case, Wanted, assert_cases};
use super::sample::{
    ALL_DELETED, ALL_PROGRAMS, BLANK, CBM_00, CBM_01, CBM_FF, CPM_00, CPM_01, CPM_FF, FORMATTED,
    FULL, HELLO, LOOPED, MARKED, MIXED, NO_END, ONE_PROGRAM, Sample,
};
use rd_cbm::block_map;
use rd_samples::cbm::{DIRECTORY, NewCbmEntry, PROGRAM};
use rd_samples::{like, table};
use rd_volume::{CbmDisk, End, Image, MapReport, NoMemory, directory_end, report};
use std::alloc::Global;

/// A disk of whose first tracks one has a wrong count, and the other a block that is not free.
const COUNTED: Sample =
    like!(Sample, FORMATTED, blocks: &[(357, &[18, 1, 0x41, 0, 0x14, 0xff, 0xff, 0x1f, 0x14, 0xfe, 0xff, 0x1f])]);

pub(super) const MAPS: &[Case] = table![
    ("an empty disk has an exact map", FORMATTED, Wanted::Map((0, 0, 0)));
    ("one program", ONE_PROGRAM, Wanted::Map((0, 2, 0)));
    ("one program with error bytes", like!(Sample, MARKED, marks: Some(&[(336, 5), (357, 5), (682, 5)])), Wanted::Map((0, 2, 0)));
    ("files of other types", MIXED, Wanted::Map((0, 2, 0)));
    ("a full disk", FULL, Wanted::Map((0, 681, 0)));
    ("counts are compared track by track", COUNTED, Wanted::Map((1, 0, 1)));
    ("an image of 00", CBM_00, Wanted::Map((0, 0, 681)));
    ("an image of 01", CBM_01, Wanted::Map((35, 1, 576)));
    ("an image of FF", CBM_FF, Wanted::Map((35, 2, 0)));
];

/// A disk on which 5,464 programs have all blocks.
const FULL_MAP: Case = (
    "all blocks are in use",
    ALL_PROGRAMS,
    Wanted::Map((4, 12, 0)),
);

fn is_so(map: MapReport, (wrong_counts, claimed_free, unclaimed_used): (u16, u16, u16)) -> bool {
    map.wrong_counts == wrong_counts
        && map.claimed_free == claimed_free
        && map.unclaimed_used == unclaimed_used
}

/// Whether the block map of a 1541 disk has these counts.
pub(super) fn is_map(
    alloc: Global,
    image: &Image<'_>,
    map: (u16, u16, u16),
) -> Result<bool, NoMemory> {
    match CbmDisk::of(image) {
        Some(disk) => Ok(is_so(block_map(alloc, &disk)?, map)),
        None => Ok(false),
    }
}

#[test]
fn block_maps_are_told(rt: HostRuntime) {
    assert_cases(&rt, rt.alloc(), MAPS);
    assert_cases(&rt, rt.alloc(), &[FULL_MAP]);
}

const OTHER_SIZE: Sample =
    like!(Sample, ONE_PROGRAM, entries: &[(DIRECTORY, 0, like!(NewCbmEntry, PROGRAM, size: 3))]);

const DELETED: Sample =
    like!(Sample, FORMATTED, entries: &[(DIRECTORY, 0, like!(NewCbmEntry, PROGRAM, type_byte: 0x80, size: 3))]);

pub(super) const REPORTS: &[Case] = table![
    ("a blank disk", BLANK, Wanted::Report((0, 0, 0, 0), (0, 0, 0), End::Last(0), b""));
    ("one program", ONE_PROGRAM, Wanted::Report((1, 1, 0, 0), (0, 2, 0), End::Last(255), b"MUSEUM"));
    ("one program with error bytes", MARKED, Wanted::Report((1, 1, 0, 0), (0, 2, 0), End::Last(255), b"MUSEUM"));
    ("one program that reads with an error", like!(Sample, MARKED, marks: Some(&[(346, 5)])), Wanted::Report((1, 0, 1, 0), (0, 2, 0), End::Last(255), b"MUSEUM"));
    ("a directory that reads with an error", like!(Sample, MARKED, marks: Some(&[(357, 5), (358, 5)])), Wanted::Report((1, 1, 0, 0), (0, 2, 0), End::Last(255), b"MUSEUM"));
    ("a program that tells another size", OTHER_SIZE, Wanted::Report((1, 1, 0, 1), (0, 2, 0), End::Last(255), b"MUSEUM"));
    ("a deleted file that tells a size", DELETED, Wanted::Report((1, 0, 0, 0), (0, 0, 0), End::Last(255), b"MUSEUM"));
    ("a looped program", LOOPED, Wanted::Report((1, 0, 1, 0), (0, 3, 0), End::Last(255), b"MUSEUM"));
    ("a directory that loops", NO_END, Wanted::Report((0, 0, 0, 0), (0, 0, 0), End::Loop, b"MUSEUM"));
    ("a CP/M file", HELLO, Wanted::Report((1, 1, 0, 0), (0, 0, 0), End::Last(0), b""));
    ("a CP/M image of 00", CPM_00, Wanted::Report((1, 0, 1, 0), (0, 0, 0), End::Last(0), b""));
    ("a CP/M image of 01", CPM_01, Wanted::Report((1, 0, 1, 0), (0, 0, 0), End::Last(0), b""));
    ("a CP/M image of FF", CPM_FF, Wanted::Report((0, 0, 0, 0), (0, 0, 0), End::Last(0), b""));
    ("a 1541 image of 00", CBM_00, Wanted::Report((0, 0, 0, 0), (0, 0, 681), End::Last(0), b"%00%00%00%00%00%00%00%00%00%00%00%00%00%00%00%00"));
    ("a 1541 image of 01", CBM_01, Wanted::Report((16, 0, 16, 0), (35, 1, 576), End::Loop, b"%01%01%01%01%01%01%01%01%01%01%01%01%01%01%01%01"));
    ("a 1541 image of FF", CBM_FF, Wanted::Report((8, 0, 0, 0), (35, 2, 0), End::Off, b"%FF%FF%FF%FF%FF%FF%FF%FF%FF%FF%FF%FF%FF%FF%FF%FF"));
];

/// A disk with as many files as a directory can hold.
const LARGE: Case = (
    "a directory of all blocks",
    ALL_DELETED,
    Wanted::Report(
        (5_464, 0, 0, 0),
        (4, 4, 0),
        End::Loop,
        b"%00%00%00%00%00%00%00%00%00%00%00%00%00%00%00%00",
    ),
);

/// Whether an image is reported so.
pub(super) fn is_report(
    alloc: Global,
    image: &Image<'_>,
    (files, served, faulty, size_differs): (u16, u16, u16, u16),
    map: (u16, u16, u16),
    end: End,
    label: &[u8],
) -> Result<bool, NoMemory> {
    let told = report(alloc, image)?;
    let ends = directory_end(alloc, image)?;
    Ok(
        told.files == files
            && told.served == served
            && told.faulty == faulty
            && told.size_differs == size_differs
            && is_so(told.map, map)
            && told.directory == end
            && ends == end
            && told.label.as_str().as_bytes() == label,
    )
}

#[test]
fn images_are_reported(rt: HostRuntime) {
    assert_cases(&rt, rt.alloc(), REPORTS);
    assert_cases(&rt, rt.alloc(), &[LARGE]);
}
