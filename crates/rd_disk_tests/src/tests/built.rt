//! The bytes of what the builders make, where the manuals have them, and where units lie among them.

use super::cases::{Case, Wanted, assert_cases};
use super::sample::{
    BLANK, CROSSED, FORMATTED, FULL, HELLO, LOOPED, MARKED, MIXED, ONE_PROGRAM, SCATTERED, Sample,
};
use rd_geometry::{CbmDisk, CpmDisk, Geometry, Image};
use rd_samples::{like, table};

const BYTES: &[Case] = table![
    ("the first byte of a blank disk", BLANK, Wanted::Bytes(256_256, 0, b"\xe5"));
    ("the last byte of a blank disk", BLANK, Wanted::Bytes(256_256, 256_255, b"\xe5"));
    ("the first record of a scattered file", SCATTERED, Wanted::Bytes(256_256, 9_088, &[0, 0, 0]));
    ("the second record of a scattered file", SCATTERED, Wanted::Bytes(256_256, 9_856, &[0, 1, 1]));
    ("the last record of a scattered file", SCATTERED, Wanted::Bytes(256_256, 254_336, &[7, 135, 170]));
    ("a formatted disk tells free blocks of track 1", FORMATTED, Wanted::Bytes(174_848, 91_392, b"\x12\x01\x41\x00\x15\xff\xff\x1f"));
    ("a formatted disk tells free blocks of tracks 17 to 19", FORMATTED, Wanted::Bytes(174_848, 91_460, b"\x15\xff\xff\x1f\x11\xfc\xff\x07\x13\xff\xff\x07"));
    ("a formatted disk tells free blocks of tracks 34 and 35, and its name", FORMATTED, Wanted::Bytes(174_848, 91_528, b"\x11\xff\xff\x01\x11\xff\xff\x01MUSEUM\xa0"));
    ("a formatted disk tells its id", FORMATTED, Wanted::Bytes(174_848, 91_552, b"\xa0\xa0RD\x00"));
    ("a formatted disk has an empty directory", FORMATTED, Wanted::Bytes(174_848, 91_648, b"\x00\xff\x00"));
    ("the entry of one program", ONE_PROGRAM, Wanted::Bytes(174_848, 91_648, b"\x00\xff\x82\x11\x00HELLO\xa0"));
    ("the size of one program", ONE_PROGRAM, Wanted::Bytes(174_848, 91_669, b"\x00\x00\x00\x00\x00\x00\x00\x00\x00\x02\x00"));
    ("the first block of one program", ONE_PROGRAM, Wanted::Bytes(174_848, 86_016, b"\x11\x0aAA"));
    ("the last block of one program", ONE_PROGRAM, Wanted::Bytes(174_848, 88_576, b"\x00\x05BCDE\x00"));
    ("a looped program", LOOPED, Wanted::Bytes(174_848, 86_528, b"\x11\x01\x00"));
    ("the entry of the third of crossed programs", CROSSED, Wanted::Bytes(174_848, 91_712, b"\x00\x00\x82\x11\x02C"));
    ("the block that crossed programs share", CROSSED, Wanted::Bytes(174_848, 87_296, b"\x00\x02Z"));
    ("the side sectors of a relative file", MIXED, Wanted::Bytes(174_848, 91_669, b"\x11\x01\x0a"));
    ("a separator", MIXED, Wanted::Bytes(174_848, 91_682, b"\x80\x00\x00-"));
    ("the first block of a full disk", FULL, Wanted::Bytes(174_848, 0, b"\x01\x01\x00"));
    ("the last block of track 1 of a full disk", FULL, Wanted::Bytes(174_848, 5_120, b"\x02\x00"));
    ("the last block of track 17 of a full disk", FULL, Wanted::Bytes(174_848, 91_136, b"\x12\x02"));
    ("the block 18/2 of a full disk", FULL, Wanted::Bytes(174_848, 91_904, b"\x12\x03"));
    ("the last block but one of a full disk", FULL, Wanted::Bytes(174_848, 174_336, b"\x23\x10\x02\xa9"));
    ("the last block of a full disk", FULL, Wanted::Bytes(174_848, 174_592, b"\x00\xff\x02\xaa\xb4"));
    ("the end of an image with error bytes", MARKED, Wanted::Bytes(175_531, 174_847, b"\x00\x01\x01"));
    ("an error byte", like!(Sample, MARKED, marks: Some(&[(346, 5)])), Wanted::Bytes(175_531, 175_193, b"\x01\x05\x01"));
];

/// Whether bytes are as many, and from a place on these.
pub(super) fn has_bytes(image: &[u8], size: usize, place: usize, bytes: &[u8]) -> bool {
    image.len() == size && image.get(place..).unwrap_or_default().starts_with(bytes)
}

#[test]
fn builders_write_what_the_manuals_have(rt: HostRuntime) {
    assert_cases(&rt, rt.alloc(), BYTES);
}

const UNITS: &[Case] = table![
    ("sector 0 of a CP/M disk", HELLO, Wanted::Unit(1_950, 128, 0, 6_656, b"\0HELLO   TXT"));
    ("sector 1 of a CP/M disk", HELLO, Wanted::Unit(1_950, 128, 1, 7_424, b" "));
    ("sector 15 of a CP/M disk", HELLO, Wanted::Unit(1_950, 128, 15, 8_320, b" "));
    ("sector 16 of a CP/M disk", HELLO, Wanted::Unit(1_950, 128, 16, 9_088, b"HELLO FROM CP/M\r\n"));
    ("sector 1,943 of a CP/M disk", HELLO, Wanted::Unit(1_950, 128, 1_943, 254_336, b" "));
    ("sector 1,949 of a CP/M disk", HELLO, Wanted::Unit(1_950, 128, 1_949, 255_616, b" "));
    ("block 0 of a 1541 disk", ONE_PROGRAM, Wanted::Unit(683, 256, 0, 0, b"\0"));
    ("block 336 of a 1541 disk", ONE_PROGRAM, Wanted::Unit(683, 256, 336, 86_016, b"\x11\x0aAA"));
    ("block 346 of a 1541 disk", ONE_PROGRAM, Wanted::Unit(683, 256, 346, 88_576, b"\x00\x05BCDE"));
    ("block 682 of a 1541 disk", ONE_PROGRAM, Wanted::Unit(683, 256, 682, 174_592, b"\0"));
    ("block 346 of a 1541 disk with error bytes", MARKED, Wanted::Unit(683, 256, 346, 88_576, b"\x00\x05BCDE"));
    ("block 682 of a 1541 disk with error bytes", MARKED, Wanted::Unit(683, 256, 682, 174_592, b"\0"));
];

/// Whether a disk has as many units of so many bytes, and one at a place that begins with these bytes.
fn lies_at<'a, G: Geometry<'a>>(
    disk: &G,
    units: (u16, usize),
    unit: u16,
    place: usize,
    bytes: &[u8],
) -> bool {
    if disk.units() != units.0 || disk.unit_len() != units.1 || unit >= disk.units() {
        return false;
    }
    let found = disk.unit(unit);
    disk.place(unit) == place && found.len() == disk.unit_len() && found.starts_with(bytes)
}

/// Whether an image is a disk of one kind, of which that holds.
pub(super) fn has_unit(
    image: &Image<'_>,
    units: (u16, usize),
    unit: u16,
    place: usize,
    bytes: &[u8],
) -> bool {
    match (CpmDisk::of(image), CbmDisk::of(image)) {
        (Some(disk), None) => lies_at(&disk, units, unit, place, bytes),
        (None, Some(disk)) => lies_at(&disk, units, unit, place, bytes),
        _ => false,
    }
}

#[test]
fn units_lie_at_their_places(rt: HostRuntime) {
    assert_cases(&rt, rt.alloc(), UNITS);
}

const MARKS: &[Case] = table![
    ("a block without an error byte", ONE_PROGRAM, Wanted::Mark(682, 1));
    ("the error byte of block 0", like!(Sample, MARKED, bytes: &[(174_848, b"\x02")]), Wanted::Mark(0, 2));
    ("the error byte of block 346", like!(Sample, MARKED, bytes: &[(175_193, b"\x02\x05\x03")]), Wanted::Mark(346, 5));
    ("the error byte of block 682", like!(Sample, MARKED, bytes: &[(175_530, b"\x00")]), Wanted::Mark(682, 0));
];

/// Whether a 1541 disk, of the kind of its image, has this error byte for a block.
pub(super) fn has_mark(image: &Image<'_>, block: u16, mark: u8) -> bool {
    let Some(disk) = CbmDisk::of(image) else {
        return false;
    };
    block < 683 && disk.kind() == image.kind() && disk.mark(block) == mark
}

#[test]
fn blocks_have_error_bytes(rt: HostRuntime) {
    assert_cases(&rt, rt.alloc(), MARKS);
}
