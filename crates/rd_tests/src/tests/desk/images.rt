//! Images of disks, and the accessions at which they are put.

use rd_geometry::{Kind, NoMemory};
use rd_samples::cbm::{
    DIRECTORY, NewCbmEntry, PROGRAM, add_marks, formatted, looped, mixed, one_program,
    put_cbm_entry,
};
use rd_samples::cpm::{filled, hello};
use rd_samples::like;
use std::alloc::Global;

/// The bytes of an image, by what is on the disk.
#[derive(Clone, Copy)]
pub(super) enum Picture {
    /// A 1541 disk with the program `HELLO` of 258 bytes.
    Program,
    /// The same without its last byte.
    Cut,
    /// A 1541 disk with the program `LOOP`, whose chain does not end.
    Looped,
    /// A 1541 disk with two empty programs, whose names have a quotation mark and a backslash.
    Quoted,
    /// A CP/M disk with `HELLO.TXT` of one record.
    Hello,
    /// The disk with the program `HELLO` and with error bytes, which tell of no error.
    Marked,
    /// A 1541 disk with a relative file, a separator and a program that was never closed.
    Mixed,
    /// A CP/M disk whose bytes are all 1, with one file of several faults.
    Ones,
}

/// An image to be put.
#[derive(Clone, Copy)]
pub(super) struct NewImage {
    pub(super) acc: u32,
    pub(super) kind: Kind,
    pub(super) deed: u32,
    pub(super) bytes: Picture,
    /// The image whose SHA-256 is given.
    pub(super) digest: Picture,
}

/// The image with the program `HELLO`, at accession 12 under deed 7.
pub(super) const PROGRAM_12: NewImage = NewImage {
    acc: 12,
    kind: Kind::D64,
    deed: 7,
    bytes: Picture::Program,
    digest: Picture::Program,
};

/// The same under deed 8.
pub(super) const PROGRAM_13: NewImage = like!(NewImage, PROGRAM_12, acc: 13, deed: 8);

pub(super) const MARKED_12: NewImage =
    like!(NewImage, PROGRAM_12, kind: Kind::D64e, bytes: Picture::Marked, digest: Picture::Marked);

pub(super) const LOOPED_14: NewImage =
    like!(NewImage, PROGRAM_12, acc: 14, bytes: Picture::Looped, digest: Picture::Looped);

pub(super) const HELLO_15: NewImage =
    like!(NewImage, PROGRAM_12, acc: 15, kind: Kind::Cpm8, bytes: Picture::Hello, digest: Picture::Hello);

pub(super) const MIXED_16: NewImage =
    like!(NewImage, PROGRAM_12, acc: 16, bytes: Picture::Mixed, digest: Picture::Mixed);

pub(super) const QUOTED_18: NewImage =
    like!(NewImage, PROGRAM_12, acc: 18, bytes: Picture::Quoted, digest: Picture::Quoted);

pub(super) const ONES_19: NewImage =
    like!(NewImage, PROGRAM_12, acc: 19, kind: Kind::Cpm8, bytes: Picture::Ones, digest: Picture::Ones);

const QUOTE: NewCbmEntry<'static> = like!(NewCbmEntry, PROGRAM, name: b"HI\xa0\"");

const BACKSLASH: NewCbmEntry<'static> = like!(NewCbmEntry, PROGRAM, name: b"A\\B", first: (17, 1));

fn quoted(alloc: Global) -> Result<Vec<u8>, NoMemory> {
    let mut image = formatted(alloc)?;
    put_cbm_entry(&mut image, DIRECTORY, 0, &QUOTE);
    put_cbm_entry(&mut image, DIRECTORY, 1, &BACKSLASH);
    Ok(image)
}

fn marked(alloc: Global) -> Result<Vec<u8>, NoMemory> {
    let mut image = one_program(alloc)?;
    add_marks(&mut image)?;
    Ok(image)
}

fn cut(alloc: Global) -> Result<Vec<u8>, NoMemory> {
    let mut image = one_program(alloc)?;
    image.truncate(174_847);
    Ok(image)
}

pub(super) fn bytes_of(alloc: Global, picture: Picture) -> Result<Vec<u8>, NoMemory> {
    match picture {
        Picture::Program => one_program(alloc),
        Picture::Cut => cut(alloc),
        Picture::Looped => looped(alloc),
        Picture::Quoted => quoted(alloc),
        Picture::Hello => hello(alloc),
        Picture::Marked => marked(alloc),
        Picture::Mixed => mixed(alloc),
        Picture::Ones => filled(alloc, 1),
    }
}
