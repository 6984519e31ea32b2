//! What is told of the files of the sample images.

use rd_volume::Found;

/// Units that follow one another: the first, and how many they are.
type Run = (u16, u16);

/// What has to be told of a file.
#[derive(Clone, Copy)]
pub(super) struct Told {
    slot: u16,
    name: &'static str,
    ty: &'static str,
    user: Option<u8>,
    served_class: bool,
    size: Option<u32>,
    faults: u8,
    units: &'static [Run],
    last_len: u16,
}

/// The program at slot 0 of the image with one program.
pub(super) const HELLO: Told = Told {
    slot: 0,
    name: "HELLO",
    ty: "PRG",
    user: None,
    served_class: true,
    size: Some(258),
    faults: 0,
    units: &[(336, 1), (346, 1)],
    last_len: 4,
};

/// A program that is not sound: the one of the image with a loop.
pub(super) const LOOP: Told = Told {
    name: "LOOP",
    size: None,
    faults: 4,
    units: &[],
    last_len: 0,
    ..HELLO
};

/// The file of the CP/M image with one.
pub(super) const HELLO_TXT: Told = Told {
    name: "HELLO.TXT",
    ty: "TXT",
    user: Some(0),
    size: Some(128),
    units: &[(16, 1)],
    last_len: 128,
    ..HELLO
};

/// A relative file.
pub(super) const DATA: Told = Told {
    name: "DATA",
    ty: "REL",
    served_class: false,
    faults: 0,
    ..LOOP
};

/// The separator behind it.
pub(super) const SEPARATOR: Told = Told {
    slot: 1,
    name: "--------",
    ty: "DEL",
    ..DATA
};

/// The program behind that, which was never closed.
pub(super) const LOST: Told = Told {
    slot: 2,
    name: "LOST",
    faults: 1,
    ..LOOP
};

/// What follows the units of a run; `None` where others stand there.
fn behind(units: &[u16], (first, count): Run) -> Option<&[u16]> {
    let mut rest = units;
    for wanted in first..first.saturating_add(count) {
        match rest {
            [unit, others @ ..] if *unit == wanted => rest = others,
            _ => return None,
        }
    }
    Some(rest)
}

fn are_units(units: &[u16], runs: &[Run]) -> bool {
    let mut rest = units;
    for run in runs {
        match behind(rest, *run) {
            Some(others) => rest = others,
            None => return false,
        }
    }
    rest.is_empty()
}

/// Whether a file is called so, and stands at the slot.
fn is_called(file: &Found, told: &Told) -> bool {
    file.slot == told.slot
        && file.name.as_str() == told.name
        && file.ty.as_str() == told.ty
        && file.user == told.user
        && file.served_class == told.served_class
}

/// Whether a file is told so.
pub(super) fn is_told(file: &Found, told: &Told) -> bool {
    is_called(file, told)
        && file.size == told.size
        && file.faults == told.faults
        && file.last_len == told.last_len
        && are_units(file.units.as_slice(), told.units)
}

/// Whether files are told so, each of them and in this order.
pub(super) fn are_told(files: &[Found], wanted: &[Told]) -> bool {
    for (file, told) in files.iter().zip(wanted) {
        if !is_told(file, told) {
            return false;
        }
    }
    files.len() == wanted.len()
}
