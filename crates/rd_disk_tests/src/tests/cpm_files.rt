//! What `rd_cpm::files` says of the files of a CP/M disk.

use super::cases::{Case, Wanted, assert_cases};
use super::sample::{
    BLANK, Base, CPM_00, CPM_01, CPM_FF, HELLO, Runs, SCATTERED, Sample, TWO_EXTENTS, units_of,
};
use rd_cpm::{CpmFile, files};
use rd_geometry::{CpmDisk, Image, NoMemory};
use rd_samples::cpm::{FILE, NewEntry};
use rd_samples::{like, table};
use std::alloc::Global;

const BAD_COUNT: u8 = 1;

const DUPLICATE: u8 = 2;

const GAP: u8 = 4;

const SHORT: u8 = 8;

const HOLE: u8 = 16;

const OFF_DISK: u8 = 32;

const CROSSED: u8 = 64;

/// What must be found about a file.
#[derive(Clone, Copy)]
pub(super) struct Told {
    slot: u8,
    user: u8,
    /// Eight bytes of the name and three of the type.
    name: &'static [u8],
    read_only: bool,
    system: bool,
    faults: u8,
    sectors: Runs,
}

/// What desk says of the file `FILE`, where it has no records.
const EMPTY: Told = Told {
    slot: 0,
    user: 0,
    name: b"FILE       ",
    read_only: false,
    system: false,
    faults: 0,
    sectors: &[],
};

/// What desk says of it, where it has one record in block 2.
const ONE_TOLD: Told = like!(Told, EMPTY, sectors: &[(16, 1)]);

const HELLO_TOLD: Told = like!(Told, ONE_TOLD, name: b"HELLO   TXT");

/// An extent of the file `FILE` with one record in block 2.
const ONE: NewEntry<'static> = like!(NewEntry, FILE, rc: 1, pointers: b"\x02");

/// An entry of the file `FILE` with block 2 and no record.
const CLAIMING: NewEntry<'static> = like!(NewEntry, ONE, rc: 0);

const FILE_A: NewEntry<'static> = like!(NewEntry, ONE, name: b"A", pointers: b"\x04");

const FILE_B: NewEntry<'static> = like!(NewEntry, ONE, name: b"B", pointers: b"\x05");

const FILE_C: NewEntry<'static> = like!(NewEntry, ONE, name: b"C", pointers: b"\x06");

const TOLD_A: Told = like!(Told, EMPTY, name: b"A          ", sectors: &[(32, 1)]);

const TOLD_B: Told = like!(Told, EMPTY, slot: 1, name: b"B          ", sectors: &[(40, 1)]);

const TOLD_C: Told = like!(Told, EMPTY, slot: 2, name: b"C          ", sectors: &[(48, 1)]);

/// A file that has the blocks from 2 to 17.
const SIXTEEN: NewEntry<'static> = like!(NewEntry, FILE, rc: 128,
    pointers: b"\x02\x03\x04\x05\x06\x07\x08\x09\x0a\x0b\x0c\x0d\x0e\x0f\x10\x11");

const SIXTEEN_TOLD: Told = like!(Told, EMPTY, sectors: &[(16, 128)]);

pub(super) const FILES: &[Case] = table![
    ("a blank disk has no files", BLANK, Wanted::CpmFiles(&[]));
    ("one record is one sector", HELLO, Wanted::CpmFiles(&[HELLO_TOLD]));
    ("extents in any slots are joined by number", SCATTERED, Wanted::CpmFiles(&[like!(Told, EMPTY, sectors: &[(16, 1_928)])]));
    ("a full extent may have an empty one after it", TWO_EXTENTS, Wanted::CpmFiles(&[SIXTEEN_TOLD]));
    ("a file may have no records", with!(FILE), Wanted::CpmFiles(&[EMPTY]));
    ("high bits are marks and not names", with!(
        like!(NewEntry, SIXTEEN, name: b"A\xaeB%", extension: b"\xc3"),
        like!(NewEntry, FILE, name: b"A.B%", extension: b"C\xa0", ex: 1),
        like!(NewEntry, FILE, user: 1, name: b"A.B%", extension: b"C")
    ), Wanted::CpmFiles(&[
        like!(Told, SIXTEEN_TOLD, name: b"A.B%    C  ", read_only: true),
        like!(Told, EMPTY, slot: 2, user: 1, name: b"A.B%    C  ")
    ]));
    ("an image of 00", CPM_00, Wanted::CpmFiles(&[like!(Told, EMPTY, name: &[0; 11], faults: DUPLICATE)]));
    ("an image of 01", CPM_01, Wanted::CpmFiles(&[like!(Told, EMPTY, user: 1, name: &[1; 11], faults: DUPLICATE + GAP + CROSSED)]));
    ("an image of FF", CPM_FF, Wanted::CpmFiles(&[]));
];

/// The file `FILE` with these faults.
macro_rules! faulty {
    ($faults:expr) => { Wanted::CpmFiles(&[like!(Told, EMPTY, faults: $faults)]) };
}

const FAULTY: &[Case] = table![
    ("duplicate", with!(ONE, like!(NewEntry, ONE, pointers: b"\x03")), faulty!(DUPLICATE));
    ("gap", with!(like!(NewEntry, ONE, ex: 2)), faulty!(GAP));
    ("short", with!(like!(NewEntry, ONE, rc: 5), like!(NewEntry, ONE, ex: 1, pointers: b"\x03")), faulty!(SHORT));
    ("hole", with!(like!(NewEntry, FILE, rc: 9, pointers: b"\x02\x00")), faulty!(HOLE));
    ("no hole after the last record", with!(like!(NewEntry, FILE, rc: 8, pointers: b"\x02\x00")), Wanted::CpmFiles(&[like!(Told, EMPTY, sectors: &[(16, 8)])]));
    ("off-disk", with!(like!(NewEntry, ONE, pointers: b"\x02\xf3")), faulty!(OFF_DISK));
    ("the last block is on the disk", with!(like!(NewEntry, ONE, pointers: b"\x02\xf2")), Wanted::CpmFiles(&[ONE_TOLD]));
    ("crossed with itself", with!(like!(NewEntry, ONE, pointers: b"\x02\x02")), faulty!(CROSSED));
    ("crossed with the directory", with!(like!(NewEntry, ONE, pointers: b"\x01")), faulty!(CROSSED));
    ("bad-count, gap, hole and crossed", with!(like!(NewEntry, ONE, ex: 1, rc: 129), like!(NewEntry, ONE, ex: 3)), faulty!(BAD_COUNT + GAP + HOLE + CROSSED));
    ("128 records", with!(SIXTEEN), Wanted::CpmFiles(&[SIXTEEN_TOLD]));
    ("129 records", with!(like!(NewEntry, SIXTEEN, rc: 129)), faulty!(BAD_COUNT));
    ("255 records", with!(like!(NewEntry, SIXTEEN, rc: 255)), faulty!(BAD_COUNT));
];

pub(super) const CLAIMS: &[Case] = table![
    ("user 16 claims nothing", with!(ONE, like!(NewEntry, CLAIMING, user: 16)), Wanted::CpmFiles(&[ONE_TOLD]));
    ("user 20 hex claims nothing", with!(ONE, like!(NewEntry, CLAIMING, user: 0x20)), Wanted::CpmFiles(&[ONE_TOLD]));
    ("a free entry claims nothing", with!(ONE, like!(NewEntry, CLAIMING, user: 0xe5)), Wanted::CpmFiles(&[ONE_TOLD]));
    ("user FF hex claims nothing", with!(ONE, like!(NewEntry, CLAIMING, user: 0xff)), Wanted::CpmFiles(&[ONE_TOLD]));
    ("three files of a block each", with!(FILE_A, FILE_B, FILE_C), Wanted::CpmFiles(&[TOLD_A, TOLD_B, TOLD_C]));
    ("the first and the third are crossed", with!(FILE_A, FILE_B, like!(NewEntry, FILE_C, pointers: b"\x04")), Wanted::CpmFiles(&[
        like!(Told, TOLD_A, faults: CROSSED, sectors: &[]),
        TOLD_B,
        like!(Told, TOLD_C, faults: CROSSED, sectors: &[])
    ]));
    ("the second and the third are crossed", with!(FILE_A, like!(NewEntry, FILE_B, pointers: b"\x05\x06"), FILE_C), Wanted::CpmFiles(&[
        TOLD_A,
        like!(Told, TOLD_B, faults: CROSSED, sectors: &[]),
        like!(Told, TOLD_C, faults: CROSSED, sectors: &[])
    ]));
    ("crossed off the disk", with!(like!(NewEntry, FILE_A, pointers: b"\xf3"), FILE_B, like!(NewEntry, FILE_C, pointers: b"\xf3")), Wanted::CpmFiles(&[
        like!(Told, TOLD_A, faults: OFF_DISK + CROSSED, sectors: &[]),
        TOLD_B,
        like!(Told, TOLD_C, faults: OFF_DISK + CROSSED, sectors: &[])
    ]));
    ("a sound file stands beside faulty ones", with!(
        like!(NewEntry, FILE_A, rc: 9, pointers: b"\x02\x00"),
        like!(NewEntry, FILE_B, pointers: b"\xf3"),
        like!(NewEntry, FILE_C, pointers: b"\x01"),
        like!(NewEntry, ONE, name: b"S", pointers: b"\x04")
    ), Wanted::CpmFiles(&[
        like!(Told, TOLD_A, faults: HOLE, sectors: &[]),
        like!(Told, TOLD_B, faults: OFF_DISK, sectors: &[]),
        like!(Told, TOLD_C, faults: CROSSED, sectors: &[]),
        like!(Told, EMPTY, slot: 3, name: b"S          ", sectors: &[(32, 1)])
    ]));
];

/// Whether a file of these sectors is told so.
fn is_told(file: &CpmFile, told: &Told, sectors: &[u16]) -> bool {
    file.slot == told.slot
        && file.user == told.user
        && file.name.as_slice() == told.name
        && file.read_only == told.read_only
        && file.system == told.system
        && file.faults == told.faults
        && file.sectors.as_slice() == sectors
}

/// Whether the files of a CP/M disk have these descriptions, each of them.
pub(super) fn are_files(
    alloc: Global,
    image: &Image<'_>,
    wanted: &[Told],
) -> Result<bool, NoMemory> {
    let Some(disk) = CpmDisk::of(image) else {
        return Ok(false);
    };
    let found = files(alloc, &disk)?;
    for (file, told) in found.iter().zip(wanted) {
        let sectors = units_of(alloc, told.sectors)?;
        if !is_told(file, told, sectors.as_slice()) {
            return Ok(false);
        }
    }
    Ok(found.len() == wanted.len())
}

#[test]
fn files_of_cpm_disks_are_told(rt: HostRuntime) {
    assert_cases(&rt, rt.alloc(), FILES);
}

#[test]
fn one_file_has_the_faults_of_its_entries(rt: HostRuntime) {
    assert_cases(&rt, rt.alloc(), FAULTY);
}

#[test]
fn files_have_what_they_claim(rt: HostRuntime) {
    assert_cases(&rt, rt.alloc(), CLAIMS);
}
