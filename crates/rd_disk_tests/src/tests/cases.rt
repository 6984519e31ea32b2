//! Cases: an image, and what must be found in it.

use super::built::{has_bytes, has_mark, has_unit};
use super::cbm_directory::{has_entry, is_directory};
use super::chains::{is_chain, leads};
use super::entries::{Fields, is_entry};
use super::reports::{is_map, is_report};
use super::sample::{Runs, Sample, image_of, kind_of};
use super::surveys::{is_found, is_survey};
use super::{cbm_files, cpm_files, surveys};
use rd_cbm::{CbmEntry, Link};
use rd_volume::{End, Image, NoMemory};
use std::alloc::Global;
use std::process::Abort;

/// What must be found in an image.
#[derive(Clone, Copy)]
pub(super) enum Wanted {
    /// How many bytes there are, and bytes from a place on.
    Bytes(usize, usize, &'static [u8]),
    /// How many units the disk has, how many bytes each has, and of one its place and its first bytes.
    Unit(u16, usize, u16, usize, &'static [u8]),
    /// The error byte of a block of a 1541 disk.
    Mark(u16, u8),
    /// What the readers of the entry at a slot of a CP/M disk give.
    Entry(u8, Fields),
    /// The files of a CP/M disk.
    CpmFiles(&'static [cpm_files::Told]),
    /// Where a block leads.
    Link(u16, Link),
    /// The chain from a track and a sector: its blocks, and its end.
    Chain((u8, u8), Runs, End),
    /// The blocks of the directory of a 1541 disk, its end, and how many entries there are.
    Directory(Runs, End, usize),
    /// The entry at a place among those of a 1541 disk.
    CbmEntry(usize, CbmEntry),
    /// The files of a 1541 disk.
    CbmFiles(&'static [cbm_files::Told]),
    /// How many counts of the block map are wrong, blocks in use are free, and blocks not in use are not.
    Map((u16, u16, u16)),
    /// All files.
    Survey(&'static [surveys::Told]),
    /// The file at a slot.
    File(u16, Option<surveys::Told>),
    /// How many files there are, are sound, have a fault, and differ in size; the block map; how the directory ends; and the disk's label.
    Report((u16, u16, u16, u16), (u16, u16, u16), End, &'static [u8]),
}

/// A label, an image, and what must be found in it.
pub(super) type Case = (&'static str, Sample, Wanted);

/// Whether desk says it of an image.
fn is_told_of(alloc: Global, image: &Image<'_>, wanted: Wanted) -> Result<bool, NoMemory> {
    match wanted {
        Wanted::Bytes(size, place, bytes) => Ok(has_bytes(image.bytes(), size, place, bytes)),
        Wanted::Unit(count, size, unit, place, bytes) => {
            Ok(has_unit(image, (count, size), unit, place, bytes))
        }
        Wanted::Mark(block, mark) => Ok(has_mark(image, block, mark)),
        Wanted::Entry(slot, fields) => Ok(is_entry(image, slot, &fields)),
        Wanted::CpmFiles(files) => cpm_files::are_files(alloc, image, files),
        Wanted::Link(block, link) => Ok(leads(image, block, link)),
        Wanted::Chain(start, blocks, end) => is_chain(alloc, image, start, blocks, end),
        Wanted::Directory(blocks, end, count) => is_directory(alloc, image, blocks, end, count),
        Wanted::CbmEntry(place, entry) => has_entry(alloc, image, place, &entry),
        Wanted::CbmFiles(files) => cbm_files::are_files(alloc, image, files),
        Wanted::Map(map) => is_map(alloc, image, map),
        Wanted::Survey(files) => is_survey(alloc, image, files),
        Wanted::File(slot, file) => is_found(alloc, image, slot, file),
        Wanted::Report(files, map, end, label) => is_report(alloc, image, files, map, end, label),
    }
}

/// Whether a case holds.
pub(super) fn holds(alloc: Global, (_, sample, wanted): Case) -> Result<bool, NoMemory> {
    let bytes = image_of(alloc, &sample)?;
    match Image::new(kind_of(&sample), bytes.as_slice()) {
        Ok(image) => is_told_of(alloc, &image, wanted),
        Err(_) => Ok(false),
    }
}

pub(super) fn assert_cases(rt: &impl Abort, alloc: Global, cases: &[Case]) {
    for case in cases {
        assert_eq!(rt; holds(alloc, *case), Ok(true), "{}", case.0);
    }
}
