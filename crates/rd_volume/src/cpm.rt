//! The files of a CP/M disk, in the form that all kinds share.

ghost use Rattle.std.specs.Prelude.{◌≡◌, ◌≢◌, ◌*◌, ◌<◌, ◌≤◌, ◌==◌, All, IfOk, IfSome, None, Some, count_by, length, not, take};
ghost use Rattle.rd_cpm.specs.Contents.{bytes_of_sectors};
ghost use Rattle.rd_geometry.specs.CpmDisks.{cpm_bytes};
ghost use Rattle.rd_geometry.specs.Places.{CPM_UNITS};
ghost use Rattle.rd_volume.specs.CpmFounds.{last_sector_length};
ghost use Rattle.rd_volume.specs.Tells.{TellsCpm, TellsCpmFiles};
ghost use Rattle.rd_volume.specs.Founds.{Fits};
ghost use Rattle.rd_volume.specs.Reports.{IsReport};
ghost use Rattle.rd_volume.specs.Volumes.{IsFoundAt};

use crate::found::Found;
use crate::printed::{cpm_name, cpm_type};
use crate::reports::Report;
use rd_cbm::{End, MapReport};
use rd_cpm::CpmFile;
use rd_geometry::{CpmDisk, Geometry, Kind, NoMemory, Text};
use std::alloc::Global;

/// The counts for a disk without a block map.
const NO_MAP: MapReport = MapReport {
    wrong_counts: 0,
    claimed_free: 0,
    unclaimed_used: 0,
};

/// How many bytes a sector has.
const SECTOR: u16 = 128;

/// Copies sectors to the front of a slice, one after the other: as many as have room there. It gives how many these are.
pub(crate) fn copy_sectors(disk: &CpmDisk<'_>, sectors: &[u16], into: &mut [u8]) -> usize
    requires { All (λ n. n < CPM_UNITS) sectors.now }
    ensures count { result ≤ length sectors.now }
    ensures within { 128 * result ≤ length into.new }
    ensures copied { take (128 * result) into.new ≡ bytes_of_sectors (cpm_bytes disk.now) (take result sectors.now) }
{
    let count = sectors.len().min(into.len() / 128);
    for at in 0..count {
        let start = 128 * at;
        into[start..start + 128].copy_from_slice(disk.unit(sectors[at]));
    }
    count
}

/// The size of a file in bytes, if it has no fault: its sectors are its records.
fn size(file: &CpmFile) -> Option<u32>
    requires { length file.now.sectors ≤ 8192 }
    ensures sound { file.now.faults ≡ 0 → result ≡ Some (128 * length file.now.sectors) }
    ensures faulty { file.now.faults ≢ 0 → result ≡ None }
{
    if file.faults != 0 {
        return None;
    }
    Some(128 * file.sectors.as_slice().len() as u32)
}

/// How many bytes of a file its last sector holds.
fn last_length(file: &CpmFile) -> u16
    ensures { result ≡ last_sector_length file.now.sectors }
{
    match file.sectors.as_slice() {
        [] => 0,
        [_, ..] => SECTOR,
    }
}

/// A file of a CP/M disk, in the form that all kinds share.
fn tell(alloc: Global, file: CpmFile) -> Result<Found, NoMemory>
    requires { length file.sectors ≤ 8192 }
    ensures { IfOk result (TellsCpm file) }
{
    let name = cpm_name(alloc, &file.name)?;
    let ty = cpm_type(alloc, &file.name)?;
    let size = size(&file);
    let last_len = last_length(&file);
    Ok(Found {
        slot: u16::from(file.slot),
        name,
        ty,
        user: Some(file.user),
        served_class: true,
        size,
        faults: file.faults,
        units: file.sectors,
        last_len,
    })
}

/// The files of a CP/M disk, in their order and in the form that all kinds share.
pub(crate) fn tell_files(alloc: Global, files: Vec<CpmFile>) -> Result<Vec<Found>, NoMemory>
    requires { All (λ file. length file.sectors ≤ 8192) files.items }
    ensures { IfOk result (λ founds. TellsCpmFiles files.items founds.items) }
{
    let mut founds = Vec::with_capacity(alloc, files.len())?;
    for file in files {
        founds.push(tell(alloc, file)?)?;
    }
    Ok(founds)
}

/// The file at a slot of a CP/M disk, in the form that all kinds share; `None` if no file has the
/// slot.
pub(crate) fn find(alloc: Global, disk: &CpmDisk, slot: u16) -> Result<Option<Found>, NoMemory>
    ensures file { IfOk result (IsFoundAt Kind.Cpm8 (cpm_bytes disk.now) slot) }
    ensures fits { IfOk result (λ answer. IfSome answer (Fits Kind.Cpm8)) }
{
    let Some(file) = rd_cpm::file(alloc, disk, slot)? else {
        return Ok(None);
    };
    Ok(Some(tell(alloc, file)?))
}

/// How many files have no fault.
fn count_sound(files: &[CpmFile]) -> usize
    ensures { result ≡ count_by (λ file. file.faults == 0) files.now }
{
    files.iter().filter(|file| file.faults == 0).count()
}

/// How many files have a fault.
fn count_faulty(files: &[CpmFile]) -> usize
    ensures { result ≡ count_by (λ file. not (file.faults == 0)) files.now }
{
    files.iter().filter(|file| file.faults != 0).count()
}

/// Counts what a CP/M disk has on it.
pub(crate) fn report(alloc: Global, disk: &CpmDisk) -> Result<Report, NoMemory>
    ensures { IfOk result (IsReport Kind.Cpm8 (cpm_bytes disk.now)) }
{
    let files = rd_cpm::files(alloc, disk)?;
    Ok(Report {
        files: files.len() as u16,
        served: count_sound(files.as_slice()) as u16,
        faulty: count_faulty(files.as_slice()) as u16,
        size_differs: 0,
        map: NO_MAP,
        directory: End::Last(0),
        label: Text::of(String::new(alloc)),
    })
}
