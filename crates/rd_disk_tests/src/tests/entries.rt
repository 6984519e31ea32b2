//! What the readers of a CP/M entry give.

use super::cases::{Case, Wanted, assert_cases};
use super::sample::{BLANK, Base, Sample};
use rd_cpm::entry;
use rd_geometry::{CpmDisk, Image};
use rd_samples::cpm::{FILE, NewEntry};
use rd_samples::{like, table};

/// What the readers of an entry have to give.
#[derive(Clone, Copy)]
pub(super) struct Fields {
    first: u8,
    name: [u8; 11],
    /// EX, S1, S2 and RC.
    bytes: [u8; 4],
    pointers: [u8; 16],
    is_file: bool,
    number: u16,
}

/// What they give of the entry `FILE`.
const FIELDS: Fields = Fields {
    first: 0,
    name: *b"FILE       ",
    bytes: [0; 4],
    pointers: [0; 16],
    is_file: true,
    number: 0,
};

/// What they give of a free entry.
const FREE: Fields = Fields {
    first: 0xe5,
    name: [0xe5; 11],
    bytes: [0xe5; 4],
    pointers: [0xe5; 16],
    is_file: false,
    number: 1_189,
};

/// An entry of all fields.
const LONG: NewEntry<'static> = NewEntry {
    user: 15,
    name: b"LONGNAME",
    extension: b"TYP",
    ex: 0x21,
    s2: 0xc1,
    rc: 77,
    pointers: b"\x02\x03\x04",
};

/// What they give of it.
const LONG_FIELDS: Fields = Fields {
    first: 15,
    name: *b"LONGNAMETYP",
    bytes: [0x21, 0, 0xc1, 77],
    pointers: [2, 3, 4, 0, 0, 0, 0, 0, 0, 0, 0, 0, 0, 0, 0, 0],
    is_file: true,
    number: 33,
};

/// A blank disk with that entry in the last slot.
const AT_63: Sample = like!(Sample, BLANK, base: Base::WithEntry(63, LONG));

const CASES: &[Case] = table![
    ("readers give the fields", AT_63, Wanted::Entry(63, LONG_FIELDS));
    ("the slot before is free", AT_63, Wanted::Entry(62, FREE));
    ("extent 31", with!(like!(NewEntry, FILE, ex: 0x1f)), Wanted::Entry(0, like!(Fields, FIELDS, bytes: [0x1f, 0, 0, 0], number: 31)));
    ("extent 32", with!(like!(NewEntry, FILE, s2: 1)), Wanted::Entry(0, like!(Fields, FIELDS, bytes: [0, 0, 1, 0], number: 32)));
    ("extent 33, with high bits", with!(like!(NewEntry, FILE, ex: 0x21, s2: 0xc1)), Wanted::Entry(0, like!(Fields, FIELDS, bytes: [0x21, 0, 0xc1, 0], number: 33)));
    ("extent 2,047", with!(like!(NewEntry, FILE, ex: 0xff, s2: 0xff)), Wanted::Entry(0, like!(Fields, FIELDS, bytes: [0xff, 0, 0xff, 0], number: 2_047)));
];

/// Whether the readers of the entry at a slot give these fields.
pub(super) fn is_entry(image: &Image<'_>, slot: u8, fields: &Fields) -> bool {
    let Some(disk) = CpmDisk::of(image) else {
        return false;
    };
    if slot >= 64 {
        return false;
    }
    let own = entry(&disk, slot);
    own.first() == fields.first
        && own.name() == fields.name
        && [own.ex(), own.s1(), own.s2(), own.rc()] == fields.bytes
        && own.pointers() == fields.pointers
        && own.is_file() == fields.is_file
        && own.extent_number() == fields.number
}

#[test]
fn readers_give_the_fields(rt: HostRuntime) {
    assert_cases(&rt, rt.alloc(), CASES);
}
