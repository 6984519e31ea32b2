//! Bytes of an image that show in what a survey says or in the bytes of files, and bytes that do not.

use super::cases::{Case, Wanted, assert_cases};
use super::sample::{HELLO, MARKED, ONE_PROGRAM, Sample};
use super::surveys::{CBM_FILE, CPM_FILE, Contents, HELLO_TOLD, HELLO_TXT, HELLO_UNREAD, Told};
use rd_samples::cbm::{NewCbmEntry, PROGRAM};
use rd_samples::{like, table};

/// A sample with bytes that are written from a place on.
macro_rules! changed {
    ($sample:ident, $place:expr, $bytes:expr) => { like!(Sample, $sample, bytes: &[($place, $bytes)]) };
}

const HIDDEN_ON_CPM: &[Case] = table![
    ("system tracks", changed!(HELLO, 0, &[0x5a; 6_656]), Wanted::Survey(&[HELLO_TXT]));
    ("S1 of an entry", changed!(HELLO, 6_669, b"\x5a"), Wanted::Survey(&[HELLO_TXT]));
    ("an entry that is no file's past byte 0", changed!(HELLO, 6_689, &[0x5a; 31]), Wanted::Survey(&[HELLO_TXT]));
    ("an unused entry past byte 0", like!(Sample, HELLO, bytes: &[(6_688, b"\xe5"), (6_689, &[0x5a; 31])]), Wanted::Survey(&[HELLO_TXT]));
    ("a record that the count of its block does not reach", changed!(HELLO, 9_856, &[0x5a; 128]), Wanted::Survey(&[HELLO_TXT]));
    ("the last track, with two whole blocks that no file claims", changed!(HELLO, 252_928, &[0x5a; 3_328]), Wanted::Survey(&[HELLO_TXT]));
];

const NEEDED_ON_CPM: &[Case] = table![
    ("byte 0 of an unused entry", changed!(HELLO, 6_688, b"\x00"), Wanted::Survey(&[HELLO_TXT, like!(Told, CPM_FILE, slot: 1, name: b"", faults: 68)]));
    ("user", changed!(HELLO, 6_656, b"\x01"), Wanted::Survey(&[like!(Told, HELLO_TXT, user: Some(1))]));
    ("name", changed!(HELLO, 6_657, b"J"), Wanted::Survey(&[like!(Told, HELLO_TXT, name: b"JELLO.TXT")]));
    ("type", changed!(HELLO, 6_667, b"S"), Wanted::Survey(&[like!(Told, HELLO_TXT, ty: b"TXS", name: b"HELLO.TXS")]));
    ("EX", changed!(HELLO, 6_668, b"\x01"), Wanted::Survey(&[like!(Told, CPM_FILE, ty: b"TXT", name: b"HELLO.TXT", faults: 4)]));
    ("S2", changed!(HELLO, 6_670, b"\x01"), Wanted::Survey(&[like!(Told, CPM_FILE, ty: b"TXT", name: b"HELLO.TXT", faults: 4)]));
    ("RC", changed!(HELLO, 6_671, b"\x00"), Wanted::Survey(&[
        like!(Told, HELLO_TXT, size: Some(0), units: &[], last_len: 0, contents: Contents::Joined(&[]))
    ]));
    ("a pointer", changed!(HELLO, 6_672, b"\x03"), Wanted::Survey(&[
        like!(Told, HELLO_TXT, units: &[(24, 1)], contents: Contents::Joined(&[&[0x20; 128]]))
    ]));
    ("a record", changed!(HELLO, 9_088, b"J"), Wanted::Survey(&[
        like!(Told, HELLO_TXT, contents: Contents::Joined(&[b"JELLO FROM CP/M\r\n", &[0x1a; 111]]))
    ]));
];

#[test]
fn bytes_of_cpm_disks_show_where_they_are_needed(rt: HostRuntime) {
    assert_cases(&rt, rt.alloc(), HIDDEN_ON_CPM);
    assert_cases(&rt, rt.alloc(), NEEDED_ON_CPM);
}

/// The disk of one program with an entry in the block 18/4, to which no block links.
const UNLINKED: Sample =
    like!(Sample, ONE_PROGRAM, entries: &[(361, 0, like!(NewCbmEntry, PROGRAM, type_byte: 0x80, name: b"GONE"))]);

const HIDDEN_ON_1541: &[Case] = table![
    ("the block map and the name of the disk", changed!(ONE_PROGRAM, 91_392, &[0x5a; 256]), Wanted::Survey(&[HELLO_TOLD]));
    ("bytes 23 to 31 of an entry", changed!(ONE_PROGRAM, 91_671, &[0x5a; 9]), Wanted::Survey(&[HELLO_TOLD]));
    ("bytes 0 and 1 of an entry that is not the first of its block", changed!(ONE_PROGRAM, 91_680, &[0x5a; 2]), Wanted::Survey(&[HELLO_TOLD]));
    ("an unused entry past its type byte", changed!(ONE_PROGRAM, 91_683, &[0x5a; 29]), Wanted::Survey(&[HELLO_TOLD]));
    ("a block that no file claims", changed!(ONE_PROGRAM, 0, &[0x5a; 256]), Wanted::Survey(&[HELLO_TOLD]));
    ("an entry in a block that is not of the directory", UNLINKED, Wanted::Survey(&[HELLO_TOLD]));
    ("the error bytes of the blocks before and behind the file's", changed!(MARKED, 175_183, b"\x05\x01\x05\x05\x05\x05\x05\x05\x05\x05\x05\x01\x05"), Wanted::Survey(&[HELLO_TOLD]));
    ("the error bytes of 18/0 and of the directory", changed!(MARKED, 175_205, b"\x05\x05"), Wanted::Survey(&[HELLO_TOLD]));
    ("the error bytes of all blocks from 18/0 on", changed!(MARKED, 175_205, &[0x5a; 326]), Wanted::Survey(&[HELLO_TOLD]));
    ("a last block past its last byte used", changed!(ONE_PROGRAM, 88_582, &[0x5a; 250]), Wanted::Survey(&[HELLO_TOLD]));
];

const NEEDED_ON_1541: &[Case] = table![
    ("the link of a block of the directory", changed!(UNLINKED, 91_648, b"\x12\x04"), Wanted::Survey(&[
        HELLO_TOLD,
        like!(Told, CBM_FILE, slot: 8, ty: b"DEL", name: b"GONE", served: false)
    ]));
    ("the type byte of an unused entry", changed!(ONE_PROGRAM, 91_682, b"\x80"), Wanted::Survey(&[
        HELLO_TOLD,
        like!(Told, CBM_FILE, slot: 1, ty: b"DEL", name: b"%00%00%00%00%00%00%00%00%00%00%00%00%00%00%00%00", served: false)
    ]));
    ("the type byte of a used entry", changed!(ONE_PROGRAM, 91_650, b"\x81"), Wanted::Survey(&[like!(Told, HELLO_TOLD, ty: b"SEQ")]));
    ("the first block", changed!(ONE_PROGRAM, 91_652, b"\x0a"), Wanted::Survey(&[
        like!(Told, HELLO_TOLD, size: Some(4), units: &[(346, 1)], contents: Contents::Joined(&[b"BCDE"]))
    ]));
    ("the name", changed!(ONE_PROGRAM, 91_653, b"J"), Wanted::Survey(&[like!(Told, HELLO_TOLD, name: b"JELLO")]));
    ("the link of a block that a file claims", changed!(ONE_PROGRAM, 86_016, b"\x00\x02"), Wanted::Survey(&[
        like!(Told, HELLO_TOLD, size: Some(1), units: &[(336, 1)], last_len: 1, contents: Contents::Joined(&[b"A"]))
    ]));
    ("the error byte of a block that a file claims", changed!(MARKED, 175_184, b"\x05"), Wanted::Survey(&[HELLO_UNREAD]));
    ("the last byte used", changed!(ONE_PROGRAM, 88_577, b"\x04"), Wanted::Survey(&[
        like!(Told, HELLO_TOLD, size: Some(257), last_len: 3, contents: Contents::Joined(&[&[b'A'; 254], b"BCD"]))
    ]));
    ("a byte of a block", changed!(ONE_PROGRAM, 86_271, b"B"), Wanted::Survey(&[
        like!(Told, HELLO_TOLD, contents: Contents::Joined(&[&[b'A'; 253], b"BBCDE"]))
    ]));
    ("a byte of the last block", changed!(ONE_PROGRAM, 88_581, b"F"), Wanted::Survey(&[
        like!(Told, HELLO_TOLD, contents: Contents::Joined(&[&[b'A'; 254], b"BCDF"]))
    ]));
];

#[test]
fn bytes_of_1541_disks_show_where_they_are_needed(rt: HostRuntime) {
    assert_cases(&rt, rt.alloc(), HIDDEN_ON_1541);
    assert_cases(&rt, rt.alloc(), NEEDED_ON_1541);
}
