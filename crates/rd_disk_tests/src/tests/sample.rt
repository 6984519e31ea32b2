//! Images in words that a table can hold, and lists of units by their runs.

ghost use Rattle.std.specs.Prelude.{◌≡◌, ◌<◌, length, vec_len, IfOk};

use rd_geometry::{CbmDisk, Kind, NoMemory};
use rd_samples::bytes::put;
use rd_samples::cbm::{
    NewCbmEntry, add_marks, crossed, formatted, full, looped, mixed, one_program, put_block,
    put_cbm_entry, put_mark,
};
use rd_samples::cpm::{
    NewEntry, blank, filled, hello, put_entry, scattered, two_extents, with_entries,
};
use rd_samples::like;
use std::alloc::Global;

/// What the builder of that name makes.
#[derive(Clone, Copy)]
pub(super) enum Base {
    Blank,
    Filled(u8),
    Hello,
    Scattered,
    TwoExtents,
    WithEntries(&'static [NewEntry<'static>]),
    WithEntry(u8, NewEntry<'static>),
    Formatted,
    OneProgram,
    Looped,
    Crossed,
    Mixed,
    Full,
    Repeated(u8),
    Circle([u8; 3]),
}

/// An image.
#[derive(Clone, Copy)]
pub(super) struct Sample {
    /// What it is at first.
    pub(super) base: Base,
    /// Entries that are written into it, each at a block and a slot, 0 to 7, of a 1541 disk.
    pub(super) entries: &'static [(u16, u8, NewCbmEntry<'static>)],
    /// Bytes that are then written into it, each from the beginning of a block of a 1541 disk on.
    pub(super) blocks: &'static [(u16, &'static [u8])],
    /// Blocks of a 1541 disk and their error bytes, where the image has error bytes: those of all other
    /// blocks are 1.
    pub(super) marks: Option<&'static [(u16, u8)]>,
    /// Bytes that are last written into it, each from a place on.
    pub(super) bytes: &'static [(usize, &'static [u8])],
}

pub(super) const BLANK: Sample = Sample {
    base: Base::Blank,
    entries: &[],
    blocks: &[],
    marks: None,
    bytes: &[],
};

pub(super) const CPM_00: Sample = like!(Sample, BLANK, base: Base::Filled(0));

pub(super) const CPM_01: Sample = like!(Sample, BLANK, base: Base::Filled(1));

pub(super) const CPM_FF: Sample = like!(Sample, BLANK, base: Base::Filled(0xff));

pub(super) const HELLO: Sample = like!(Sample, BLANK, base: Base::Hello);

pub(super) const SCATTERED: Sample = like!(Sample, BLANK, base: Base::Scattered);

pub(super) const TWO_EXTENTS: Sample = like!(Sample, BLANK, base: Base::TwoExtents);

pub(super) const FORMATTED: Sample = like!(Sample, BLANK, base: Base::Formatted);

pub(super) const ONE_PROGRAM: Sample = like!(Sample, BLANK, base: Base::OneProgram);

pub(super) const LOOPED: Sample = like!(Sample, BLANK, base: Base::Looped);

pub(super) const CROSSED: Sample = like!(Sample, BLANK, base: Base::Crossed);

pub(super) const MIXED: Sample = like!(Sample, BLANK, base: Base::Mixed);

pub(super) const FULL: Sample = like!(Sample, BLANK, base: Base::Full);

pub(super) const CBM_00: Sample = like!(Sample, BLANK, base: Base::Repeated(0));

pub(super) const CBM_01: Sample = like!(Sample, BLANK, base: Base::Repeated(1));

pub(super) const CBM_FF: Sample = like!(Sample, BLANK, base: Base::Repeated(0xff));

/// A directory of all blocks, whose entries are deleted files.
pub(super) const ALL_DELETED: Sample = like!(Sample, BLANK, base: Base::Circle([0x80, 0, 0]));

/// A directory of all blocks, whose entries are programs from 1/0 on.
pub(super) const ALL_PROGRAMS: Sample = like!(Sample, BLANK, base: Base::Circle([0x82, 1, 0]));

/// A 1541 disk whose directory is its own next block.
pub(super) const NO_END: Sample = like!(Sample, FORMATTED, blocks: &[(358, &[18, 1])]);

/// The disk of one program, whose image has error bytes that report no error.
pub(super) const MARKED: Sample = like!(Sample, ONE_PROGRAM, marks: Some(&[]));

/// The kind of an image.
pub(super) fn kind_of(sample: &Sample) -> Kind {
    match sample.base {
        _ if sample.marks.is_some() => Kind::D64e,
        Base::Blank
        | Base::Filled(_)
        | Base::Hello
        | Base::Scattered
        | Base::TwoExtents
        | Base::WithEntries(_)
        | Base::WithEntry(..) => Kind::Cpm8,
        _ => Kind::D64,
    }
}

/// A blank CP/M disk with an entry at a slot, 0 to 63.
fn with_entry(alloc: Global, slot: u8, entry: &NewEntry<'_>) -> Result<Vec<u8>, NoMemory> {
    let mut image = blank(alloc)?;
    if slot < 64 {
        put_entry(&mut image, slot, entry);
    }
    Ok(image)
}

/// A 1541 image whose bytes are all alike.
fn repeated(alloc: Global, byte: u8) -> Result<Vec<u8>, NoMemory>
    ensures { IfOk result (λ image. vec_len image ≡ 174848) }
{
    Ok(vec![in alloc; byte; 174_848]?)
}

/// Writes the same three bytes, from byte 2 on, into each of the eight slots of a block.
fn put_in_slots(image: &mut [u8], block: u16, entry: &[u8; 3])
    requires block { block < 683 }
    requires image { length image.old ≡ 174848 }
    ensures { length image.new ≡ 174848 }
{
    for slot in 0..8 {
        put(image, 256 * block as usize + 32 * slot + 2, entry);
    }
}

/// A 1541 image of zeros whose blocks link to one another in a circle, in order; in each of them there
/// are eight entries with this type byte and this first block.
fn circle(alloc: Global, entry: &[u8; 3]) -> Result<Vec<u8>, NoMemory>
    ensures { IfOk result (λ image. vec_len image ≡ 174848) }
{
    let mut image = repeated(alloc, 0)?;
    for block in 0..683 {
        let (track, sector) = CbmDisk::address((block + 1) % 683);
        put_block(&mut image, block, &[track, sector]);
        put_in_slots(&mut image, block, entry);
    }
    Ok(image)
}

/// What a builder makes.
fn base_of(alloc: Global, base: Base) -> Result<Vec<u8>, NoMemory> {
    match base {
        Base::Blank => blank(alloc),
        Base::Filled(byte) => filled(alloc, byte),
        Base::Hello => hello(alloc),
        Base::Scattered => scattered(alloc),
        Base::TwoExtents => two_extents(alloc),
        Base::WithEntries(entries) => with_entries(alloc, entries),
        Base::WithEntry(slot, entry) => with_entry(alloc, slot, &entry),
        Base::Formatted => formatted(alloc),
        Base::OneProgram => one_program(alloc),
        Base::Looped => looped(alloc),
        Base::Crossed => crossed(alloc),
        Base::Mixed => mixed(alloc),
        Base::Full => full(alloc),
        Base::Repeated(byte) => repeated(alloc, byte),
        Base::Circle(entry) => circle(alloc, &entry),
    }
}

/// Writes entries into a 1541 image, each at a block and a slot.
fn put_entries(image: &mut [u8], entries: &[(u16, u8, NewCbmEntry<'_>)]) {
    for (block, slot, entry) in entries {
        if *slot < 8 {
            put_cbm_entry(image, *block, *slot, entry);
        }
    }
}

/// Writes bytes into a 1541 image, each from the beginning of a block on.
fn put_blocks(image: &mut [u8], blocks: &[(u16, &[u8])]) {
    for (block, bytes) in blocks {
        put_block(image, *block, *bytes);
    }
}

/// Writes bytes into an image, each from a place on.
fn put_bytes(image: &mut [u8], bytes: &[(usize, &[u8])]) {
    for (place, bytes) in bytes {
        put(image, *place, *bytes);
    }
}

/// Adds error bytes to a 1541 image: 1, except for the blocks that are named with theirs.
fn put_marks(image: &mut Vec<u8>, marks: &[(u16, u8)]) -> Result<(), NoMemory> {
    add_marks(image)?;
    for (block, mark) in marks {
        put_mark(image, *block, *mark);
    }
    Ok(())
}

/// The bytes of an image.
pub(super) fn image_of(alloc: Global, sample: &Sample) -> Result<Vec<u8>, NoMemory> {
    let mut image = base_of(alloc, sample.base)?;
    put_entries(&mut image, sample.entries);
    put_blocks(&mut image, sample.blocks);
    if let Some(marks) = sample.marks {
        put_marks(&mut image, marks)?;
    }
    put_bytes(&mut image, sample.bytes);
    Ok(image)
}

/// Runs of units: of each the first unit, and how many there are.
pub(super) type Runs = &'static [(u16, u16)];

/// Adds as many units to a list, from the first on.
fn push_run(units: &mut Vec<u16>, first: u16, count: u16) -> Result<(), NoMemory> {
    for unit in first..first.saturating_add(count) {
        units.push(unit)?;
    }
    Ok(())
}

pub(super) fn units_of(alloc: Global, runs: Runs) -> Result<Vec<u16>, NoMemory> {
    let mut units = Vec::new(alloc);
    for (first, count) in runs {
        push_run(&mut units, *first, *count)?;
    }
    Ok(units)
}
