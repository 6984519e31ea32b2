//! What a survey says of an image, and what `find` says of a slot.

ghost use Rattle.std.specs.Prelude.{◌≡◌};
ghost use Rattle.rd_geometry.specs.Images.{kind_of};

use super::cases::{Case, Wanted, assert_cases};
use super::sample::{
    ALL_DELETED, BLANK, Base, CBM_00, CBM_01, CBM_FF, CPM_00, CPM_01, CPM_FF, CROSSED, FORMATTED,
    FULL, HELLO, LOOPED, MARKED, MIXED, NO_END, ONE_PROGRAM, Runs, SCATTERED, Sample, TWO_EXTENTS,
    units_of,
};
use rd_samples::cbm::{NewCbmEntry, PROGRAM, full_file};
use rd_samples::cpm::{FILE, NewEntry, scattered_file};
use rd_samples::{like, table};
use rd_volume::{CbmDisk, CpmDisk, Found, Image, NoMemory, Volume, find, pieces, survey};
use std::alloc::Global;

/// The bytes of a sound file.
#[derive(Clone, Copy)]
pub(super) enum Contents {
    /// The file is not sound, and none are given.
    None,
    /// These, joined.
    Joined(&'static [&'static [u8]]),
    /// So many of the file that `scattered` holds.
    Scattered(usize),
    /// Those of the file that `full` holds.
    Full,
}

/// What must be found about files in slots that follow one another.
#[derive(Clone, Copy)]
pub(super) struct Told {
    /// How many files have this description, and the slot of the first.
    pub(super) count: usize,
    pub(super) slot: u16,
    pub(super) user: Option<u8>,
    pub(super) ty: &'static [u8],
    pub(super) name: &'static [u8],
    pub(super) served: bool,
    pub(super) faults: u8,
    pub(super) size: Option<u32>,
    pub(super) units: Runs,
    pub(super) last_len: u16,
    pub(super) contents: Contents,
}

/// What desk says of the file `FILE` of a CP/M disk, where it is not sound.
pub(super) const CPM_FILE: Told = Told {
    count: 1,
    slot: 0,
    user: Some(0),
    ty: b"",
    name: b"FILE",
    served: true,
    faults: 0,
    size: None,
    units: &[],
    last_len: 0,
    contents: Contents::None,
};

/// What desk says of it, where it is sound and has no records.
const EMPTY: Told = like!(Told, CPM_FILE, size: Some(0), contents: Contents::Joined(&[]));

pub(super) const HELLO_TXT: Told =
    like!(Told, CPM_FILE, ty: b"TXT", name: b"HELLO.TXT", size: Some(128), units: &[(16, 1)], last_len: 128, contents: Contents::Joined(&[b"HELLO FROM CP/M\r\n", &[0x1a; 111]]));

/// An entry of one record, in block 2.
const ONE: NewEntry<'static> = like!(NewEntry, FILE, rc: 1, pointers: b"\x02");

/// An entry of one record, in block 3.
const OTHER: NewEntry<'static> = like!(NewEntry, ONE, pointers: b"\x03");

/// An entry with a count that is too high.
const BAD: NewEntry<'static> = like!(NewEntry, FILE, rc: 129,
    pointers: b"\x02\x03\x04\x05\x06\x07\x08\x09\x0a\x0b\x0c\x0d\x0e\x0f\x10\x11");

pub(super) const OF_CPM: &[Case] = table![
    ("a CP/M file is told and served", HELLO, Wanted::Survey(&[HELLO_TXT]));
    ("a file without records has no pieces", with!(FILE), Wanted::Survey(&[EMPTY]));
    ("names of CP/M files are printed", with!(like!(NewEntry, FILE, name: b"A.B%", extension: b"\xc3")), Wanted::Survey(&[
        like!(Told, EMPTY, name: b"A%2EB%25.C", ty: b"C")
    ]));
    ("a blank disk has no files", BLANK, Wanted::Survey(&[]));
    ("a file of all blocks is told and served", SCATTERED, Wanted::Survey(&[
        like!(Told, CPM_FILE, size: Some(246_784), units: &[(16, 1_928)], last_len: 128, contents: Contents::Scattered(246_784))
    ]));
    ("a full extent may have an empty one after it", TWO_EXTENTS, Wanted::Survey(&[
        like!(Told, CPM_FILE, size: Some(16_384), units: &[(16, 128)], last_len: 128, contents: Contents::Scattered(16_384))
    ]));
    ("one sound file stands beside three faulty ones", with!(
        like!(NewEntry, FILE, name: b"H", rc: 9, pointers: b"\x02\x00"),
        like!(NewEntry, ONE, name: b"O", pointers: b"\xf3"),
        like!(NewEntry, ONE, name: b"X", pointers: b"\x01"),
        like!(NewEntry, ONE, name: b"S", pointers: b"\x04")
    ), Wanted::Survey(&[
        like!(Told, CPM_FILE, name: b"H", faults: 16),
        like!(Told, CPM_FILE, slot: 1, name: b"O", faults: 32),
        like!(Told, CPM_FILE, slot: 2, name: b"X", faults: 64),
        like!(Told, CPM_FILE, slot: 3, name: b"S", size: Some(128), units: &[(32, 1)], last_len: 128, contents: Contents::Joined(&[&[0xe5; 128]]))
    ]));
    ("bad-count", with!(BAD), Wanted::Survey(&[like!(Told, CPM_FILE, faults: 1)]));
    ("duplicate", with!(ONE, OTHER), Wanted::Survey(&[like!(Told, CPM_FILE, faults: 2)]));
    ("gap", with!(like!(NewEntry, ONE, ex: 2)), Wanted::Survey(&[like!(Told, CPM_FILE, faults: 4)]));
    ("short", with!(like!(NewEntry, ONE, rc: 5), like!(NewEntry, OTHER, ex: 1)), Wanted::Survey(&[like!(Told, CPM_FILE, faults: 8)]));
    ("a CP/M image of 00", CPM_00, Wanted::Survey(&[
        like!(Told, CPM_FILE, ty: b"%00%00%00", name: b"%00%00%00%00%00%00%00%00.%00%00%00", faults: 2)
    ]));
    ("a CP/M image of 01", CPM_01, Wanted::Survey(&[
        like!(Told, CPM_FILE, user: Some(1), ty: b"%01%01%01", name: b"%01%01%01%01%01%01%01%01.%01%01%01", faults: 70)
    ]));
    ("a CP/M image of FF", CPM_FF, Wanted::Survey(&[]));
];

#[test]
fn cpm_files_are_surveyed(rt: HostRuntime) {
    assert_cases(&rt, rt.alloc(), OF_CPM);
}

/// What desk says of the program `FILE` of a 1541 disk, where it is not sound.
pub(super) const CBM_FILE: Told = like!(Told, CPM_FILE, user: None, ty: b"PRG");

/// What desk says of the one program `HELLO`.
pub(super) const HELLO_TOLD: Told =
    like!(Told, CBM_FILE, name: b"HELLO", size: Some(258), units: &[(336, 1), (346, 1)], last_len: 4, contents: Contents::Joined(&[&[b'A'; 254], b"BCDE"]));

/// What desk says of the crossed programs.
const A: Told = like!(Told, CBM_FILE, name: b"A", faults: 8);

const B: Told = like!(Told, A, slot: 1, name: b"B");

const C: Told =
    like!(Told, CBM_FILE, slot: 2, name: b"C", size: Some(2), units: &[(338, 1)], last_len: 2, contents: Contents::Joined(&[b"XY"]));

/// What desk says of a deleted file whose name is of zeros.
const DELETED: Told =
    like!(Told, CBM_FILE, ty: b"DEL", name: b"%00%00%00%00%00%00%00%00%00%00%00%00%00%00%00%00", served: false);

pub(super) const OF_CBM: &[Case] = table![
    ("a 1541 file is told and served", ONE_PROGRAM, Wanted::Survey(&[HELLO_TOLD]));
    ("a last block may have no bytes", like!(Sample, ONE_PROGRAM, blocks: &[(346, &[0, 1])]), Wanted::Survey(&[
        like!(Told, HELLO_TOLD, size: Some(254), last_len: 0, contents: Contents::Joined(&[&[b'A'; 254]]))
    ]));
    ("a block of a file reads with an error, of another none", like!(Sample, CROSSED, marks: Some(&[(336, 5)])), Wanted::Survey(&[
        like!(Told, A, faults: 24),
        B,
        C
    ]));
    ("names of 1541 files are printed", like!(Sample, FORMATTED, entries: &[(358, 0, like!(NewCbmEntry, PROGRAM, name: b"HI\xa0\""))]), Wanted::Survey(&[
        like!(Told, CBM_FILE, name: b"HI%A0\"", size: Some(0), units: &[(336, 1)], contents: Contents::Joined(&[]))
    ]));
    ("files of other types", MIXED, Wanted::Survey(&[
        like!(Told, CBM_FILE, ty: b"REL", name: b"DATA", served: false),
        like!(Told, CBM_FILE, slot: 1, ty: b"DEL", name: b"--------", served: false),
        like!(Told, CBM_FILE, slot: 2, name: b"LOST", faults: 1)
    ]));
    ("programs that share a block are told", CROSSED, Wanted::Survey(&[A, B, C]));
    ("a program of all blocks is told and served", FULL, Wanted::Survey(&[
        like!(Told, CBM_FILE, name: b"LONG", size: Some(172_974), units: &[(0, 357), (359, 324)], last_len: 254, contents: Contents::Full)
    ]));
    ("a chain that loops has no size", LOOPED, Wanted::Survey(&[like!(Told, CBM_FILE, name: b"LOOP", faults: 4)]));
    ("a directory that loops has no files", NO_END, Wanted::Survey(&[]));
    ("a 1541 image of 00", CBM_00, Wanted::Survey(&[]));
    ("a 1541 image of 01", CBM_01, Wanted::Survey(&[
        like!(Told, CBM_FILE, count: 16, ty: b"SEQ", name: b"%01%01%01%01%01%01%01%01%01%01%01%01%01%01%01%01", faults: 1)
    ]));
    ("a 1541 image of FF", CBM_FF, Wanted::Survey(&[
        like!(Told, CBM_FILE, count: 8, ty: b"OTHER", name: b"%FF%FF%FF%FF%FF%FF%FF%FF%FF%FF%FF%FF%FF%FF%FF%FF", served: false)
    ]));
];

/// Disks with as many files as a directory can hold, or almost.
const LARGE: &[Case] = table![
    ("a directory of all blocks", ALL_DELETED, Wanted::Survey(&[like!(Told, DELETED, count: 5_464)]));
    ("a directory of all blocks with a free slot", like!(Sample, ALL_DELETED, blocks: &[(0, &[1, 1, 0])]), Wanted::Survey(&[
        like!(Told, DELETED, count: 2_600),
        like!(Told, DELETED, count: 2_863, slot: 2_601)
    ]));
];

#[test]
fn files_of_1541_disks_are_surveyed(rt: HostRuntime) {
    assert_cases(&rt, rt.alloc(), OF_CBM);
}

#[test]
fn files_of_large_directories_are_surveyed(rt: HostRuntime) {
    assert_cases(&rt, rt.alloc(), LARGE);
}

/// What desk says of the one program where a block of it reads with an error.
pub(super) const HELLO_UNREAD: Told = like!(Told, CBM_FILE, name: b"HELLO", faults: 16);

/// A sample with these blocks and their error bytes.
macro_rules! marked {
    ($sample:ident, $(($block:literal, $mark:literal)),*) => { like!(Sample, $sample, marks: Some(&[$(($block, $mark)),*])) };
}

const MARKS: &[Case] = table![
    ("error bytes of 1 tell of no error", MARKED, Wanted::Survey(&[HELLO_TOLD]));
    ("a last block without bytes", like!(Sample, MARKED, blocks: &[(346, &[0, 1])]), Wanted::Survey(&[
        like!(Told, HELLO_TOLD, size: Some(254), last_len: 0, contents: Contents::Joined(&[&[b'A'; 254]]))
    ]));
    ("a last block without bytes reads with an error", like!(Sample, marked!(ONE_PROGRAM, (346, 5)), blocks: &[(346, &[0, 1])]), Wanted::Survey(&[HELLO_UNREAD]));
    ("a block of a file reads with an error", marked!(ONE_PROGRAM, (346, 5)), Wanted::Survey(&[HELLO_UNREAD]));
    ("the first block of a file reads with an error", marked!(ONE_PROGRAM, (336, 2)), Wanted::Survey(&[HELLO_UNREAD]));
    ("the greatest error byte", marked!(ONE_PROGRAM, (346, 255)), Wanted::Survey(&[HELLO_UNREAD]));
    ("an error byte of 0 tells of no error", marked!(ONE_PROGRAM, (346, 0)), Wanted::Survey(&[HELLO_TOLD]));
    ("the directory reads with an error", marked!(ONE_PROGRAM, (357, 5), (358, 5)), Wanted::Survey(&[HELLO_TOLD]));
    ("blocks that no file claims read with an error", marked!(ONE_PROGRAM, (335, 5), (337, 5), (345, 5), (347, 5), (682, 5)), Wanted::Survey(&[HELLO_TOLD]));
    ("a block that two files claim reads with an error", marked!(CROSSED, (341, 5)), Wanted::Survey(&[
        like!(Told, A, faults: 24),
        like!(Told, B, faults: 24),
        C
    ]));
    ("the file beside crossed ones reads with an error", marked!(CROSSED, (338, 5)), Wanted::Survey(&[
        A,
        B,
        like!(Told, CBM_FILE, slot: 2, name: b"C", faults: 16)
    ]));
    ("a side sector and the block of a file that was never closed read with an error", marked!(MIXED, (337, 5), (338, 5)), Wanted::Survey(&[
        like!(Told, CBM_FILE, ty: b"REL", name: b"DATA", served: false, faults: 16),
        like!(Told, CBM_FILE, slot: 1, ty: b"DEL", name: b"--------", served: false),
        like!(Told, CBM_FILE, slot: 2, name: b"LOST", faults: 1)
    ]));
    ("a block of a chain that loops reads with an error", marked!(LOOPED, (338, 5)), Wanted::Survey(&[
        like!(Told, CBM_FILE, name: b"LOOP", faults: 20)
    ]));
    ("a file whose block reads with an error is found", marked!(ONE_PROGRAM, (346, 5)), Wanted::File(0, Some(HELLO_UNREAD)));
];

#[test]
fn blocks_that_read_with_an_error_are_told(rt: HostRuntime) {
    assert_cases(&rt, rt.alloc(), MARKS);
}

/// A disk whose entries at slots 0 and 2 are of one file, and at slot 1 of no user.
const DOUBLE: Sample = with!(FILE, like!(NewEntry, FILE, user: 16), FILE);

pub(super) const AT_SLOTS: &[Case] = table![
    ("the one program", ONE_PROGRAM, Wanted::File(0, Some(HELLO_TOLD)));
    ("the one CP/M file", HELLO, Wanted::File(0, Some(HELLO_TXT)));
    ("the first of crossed programs", CROSSED, Wanted::File(0, Some(A)));
    ("the second of crossed programs", CROSSED, Wanted::File(1, Some(B)));
    ("the program beside crossed ones", CROSSED, Wanted::File(2, Some(C)));
    ("slot 3 of a 1541 disk", CROSSED, Wanted::File(3, None));
    ("slot 7 of a 1541 disk", CROSSED, Wanted::File(7, None));
    ("slot 8 of a 1541 disk", CROSSED, Wanted::File(8, None));
    ("slot 5,464 of a 1541 disk", CROSSED, Wanted::File(5_464, None));
    ("slot 65,535 of a 1541 disk", CROSSED, Wanted::File(65_535, None));
    ("a CP/M file at its first slot", DOUBLE, Wanted::File(0, Some(like!(Told, CPM_FILE, faults: 2))));
    ("slot 1 of a CP/M disk, of user 16", DOUBLE, Wanted::File(1, None));
    ("a CP/M file at its second slot", DOUBLE, Wanted::File(2, None));
    ("slot 63 of a CP/M disk", DOUBLE, Wanted::File(63, None));
    ("slot 64 of a CP/M disk", DOUBLE, Wanted::File(64, None));
    ("slot 256 of a CP/M disk", DOUBLE, Wanted::File(256, None));
    ("slot 65,535 of a CP/M disk", DOUBLE, Wanted::File(65_535, None));
];

#[test]
fn files_are_found_by_their_slots(rt: HostRuntime) {
    assert_cases(&rt, rt.alloc(), AT_SLOTS);
}

fn joined(alloc: Global, parts: &[&[u8]]) -> Result<Vec<u8>, NoMemory> {
    let mut bytes = Vec::new(alloc);
    for part in parts {
        bytes.extend_from_slice(*part)?;
    }
    Ok(bytes)
}

/// The bytes of a file, where it is sound.
fn bytes_of(alloc: Global, contents: Contents) -> Result<Option<Vec<u8>>, NoMemory> {
    match contents {
        Contents::None => Ok(None),
        Contents::Joined(parts) => Ok(Some(joined(alloc, parts)?)),
        Contents::Scattered(count) => {
            let mut bytes = scattered_file(alloc)?;
            bytes.truncate(count);
            Ok(Some(bytes))
        }
        Contents::Full => Ok(Some(full_file(alloc)?)),
    }
}

/// The bytes of a file of an image, where it is sound: its pieces joined.
fn pieces_joined(
    alloc: Global,
    image: &Image<'_>,
    file: &Found,
) -> Result<Option<Vec<u8>>, NoMemory> {
    if !file.sound() || !file.fits(image) {
        return Ok(None);
    }
    let mut bytes = Vec::new(alloc);
    for piece in pieces(image, file) {
        bytes.extend_from_slice(piece)?;
    }
    Ok(Some(bytes))
}

/// The bytes of a file of an image, where it is sound, by the pieces that its disk lends.
fn lent_by<'a, V: Volume<'a>>(
    alloc: Global,
    image: &Image<'_>,
    disk: &V,
    file: &Found,
) -> Result<Option<Vec<u8>>, NoMemory>
    requires { kind_of image.now ≡ V.volume_kind disk.now }
{
    if !file.sound() || !file.fits(image) {
        return Ok(None);
    }
    let mut bytes = Vec::new(alloc);
    for i in 0..file.units.as_slice().len() {
        bytes.extend_from_slice(disk.piece(file, i))?;
    }
    Ok(Some(bytes))
}

/// The bytes of a file that the disk of an image of any kind lends, unit by unit; none if the file has a fault or
/// does not fit the image.
fn lent(alloc: Global, image: &Image<'_>, file: &Found) -> Result<Option<Vec<u8>>, NoMemory> {
    if let Some(disk) = CpmDisk::of(image) {
        return lent_by(alloc, image, &disk, file);
    }
    match CbmDisk::of(image) {
        Some(disk) => lent_by(alloc, image, &disk, file),
        None => Ok(None),
    }
}

/// Whether the bytes of a file are these, as the image and as its disk lend them.
fn has_contents(
    alloc: Global,
    image: &Image<'_>,
    file: &Found,
    contents: Contents,
) -> Result<bool, NoMemory> {
    let bytes = bytes_of(alloc, contents)?;
    Ok(pieces_joined(alloc, image, file)? == bytes && lent(alloc, image, file)? == bytes)
}

/// Whether a file of these units has this description, except for its slot.
fn is_told(file: &Found, told: &Told, units: &[u16]) -> bool {
    file.user == told.user
        && file.served_class == told.served
        && file.faults == told.faults
        && file.size == told.size
        && file.last_len == told.last_len
        && file.name.as_str().as_bytes() == told.name
        && file.ty.as_str().as_bytes() == told.ty
        && file.units.as_slice() == units
}

/// Whether the file at a slot has this description.
fn is_file(
    alloc: Global,
    image: &Image<'_>,
    slot: u16,
    file: &Found,
    told: &Told,
) -> Result<bool, NoMemory> {
    let units = units_of(alloc, told.units)?;
    if file.slot != slot || !is_told(file, told, units.as_slice()) {
        return Ok(false);
    }
    has_contents(alloc, image, file, told.contents)
}

/// Whether files in slots that follow one another, from the first on, have this description.
fn are_told(
    alloc: Global,
    image: &Image<'_>,
    files: &[Found],
    told: &Told,
) -> Result<bool, NoMemory> {
    for (slot, file) in (told.slot..).zip(files) {
        if !is_file(alloc, image, slot, file, told)? {
            return Ok(false);
        }
    }
    Ok(true)
}

/// Whether the files of an image have these descriptions, each of them.
pub(super) fn is_survey(
    alloc: Global,
    image: &Image<'_>,
    wanted: &[Told],
) -> Result<bool, NoMemory> {
    let found = survey(alloc, image)?;
    let mut rest = found.as_slice();
    for told in wanted {
        if rest.len() < told.count {
            return Ok(false);
        }
        let (front, others) = rest.split_at(told.count);
        if !are_told(alloc, image, front, told)? {
            return Ok(false);
        }
        rest = others;
    }
    Ok(rest.is_empty())
}

/// Whether the file at a slot has this description; `None` where there is none.
pub(super) fn is_found(
    alloc: Global,
    image: &Image<'_>,
    slot: u16,
    wanted: Option<Told>,
) -> Result<bool, NoMemory> {
    match (find(alloc, image, slot)?, wanted) {
        (Some(file), Some(told)) => is_file(alloc, image, slot, &file, &told),
        (None, None) => Ok(true),
        _ => Ok(false),
    }
}
