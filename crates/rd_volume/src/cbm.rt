//! The files of a 1541 disk, in the form that all kinds share.

ghost use Rattle.std.specs.Prelude.{◌≡◌, ◌≢◌, ◌*◌, ◌-◌, ◌<◌, ◌≤◌, ◌==◌, All, IfOk, IfSome, None, Some, count_by, flat_map, length, not, take, true};
ghost use Rattle.rd_cbm.specs.BlockMap.{map_of};
ghost use Rattle.rd_geometry.specs.Blocks.{CBM_BLOCKS, CBM_BLOCK_LENGTH};
ghost use Rattle.rd_geometry.specs.CbmDisks.{cbm_bytes, cbm_kind};
ghost use Rattle.rd_volume.specs.Founds.{Fits};
ghost use Rattle.rd_volume.specs.Volumes.{IsFoundAt, body_of};
ghost use Rattle.rd_volume.specs.Reports.{IsDirectoryEnd, IsReport, label_of};
ghost use Rattle.rd_volume.specs.Tallies.{differs_in_size, is_claimant, is_sound};
ghost use Rattle.rd_volume.specs.Tells.{TellsCbm, TellsCbmFiles, is_served, length_of_blocks};

use crate::found::Found;
use crate::printed::{cbm_name, cbm_type};
use crate::reports::Report;
use rd_cbm::{CbmFile, Class, End};
use rd_geometry::{CbmDisk, Geometry, NoMemory, Text};
use std::alloc::Global;

/// How many bytes of a file a block holds: all but the two of its link.
const ROOM: u32 = 254;

/// The bytes of a block in which a file's bytes stand: all but its link.
pub(crate) fn body<'a>(disk: &CbmDisk<'a>, n: u16) -> &'a [u8]
    requires { n < CBM_BLOCKS }
    ensures value { result.now ≡ body_of (cbm_kind disk.now) (cbm_bytes disk.now) n }
    ensures sized { length result.now ≡ 254 }
{
    &disk.unit(n)[2..]
}

/// Copies what blocks hold of a file to the front of a slice, one after the other: of as many blocks as have room there.
/// It gives how many these are.
pub(crate) fn copy_blocks(disk: &CbmDisk<'_>, blocks: &[u16], into: &mut [u8]) -> usize
    requires { All (λ n. n < CBM_BLOCKS) blocks.now }
    ensures count { result ≤ length blocks.now }
    ensures within { 254 * result ≤ length into.new }
    ensures copied { take (254 * result) into.new
        ≡ flat_map (body_of (cbm_kind disk.now) (cbm_bytes disk.now)) (take result blocks.now) }
{
    let count = blocks.len().min(into.len() / 254);
    for at in 0..count {
        let start = 254 * at;
        into[start..start + 254].copy_from_slice(body(disk, blocks[at]));
    }
    count
}

/// Whether desk serves files of a class.
fn serves(class: Class) -> bool
    ensures { result ≡ is_served class }
{
    matches!(class, Class::Seq | Class::Prg | Class::Usr)
}

/// How many bytes of a file its last block holds: from byte 2 to the last one used.
fn last_length(file: &CbmFile) -> u16
    ensures value { result ≡ file.now.last - 1 }
    ensures byte { file.now.last < 256 }
{
    u16::from(file.last.saturating_sub(1))
}

/// How many bytes a chain of blocks has, if its last block holds `last_len` of them.
fn chain_length(blocks: &[u16], last_len: u16) -> u32
    requires { length blocks.now ≤ 683 }
    ensures { result ≡ length_of_blocks blocks.now last_len }
{
    match blocks {
        [] => 0,
        [_, rest @ ..] => ROOM * rest.len() as u32 + u32::from(last_len),
    }
}

/// The size of a file in bytes, if desk serves its class and it has no fault.
fn size(file: &CbmFile) -> Option<u32>
    requires { length file.now.blocks ≤ 683 }
    ensures sound { is_served file.now.class ≡ true → file.now.faults ≡ 0
        → result ≡ Some (length_of_blocks file.now.blocks (file.now.last - 1)) }
    ensures none { (is_served file.now.class ≡ true → file.now.faults ≢ 0) → result ≡ None }
{
    if !serves(file.class) {
        return None;
    }
    if file.faults != 0 {
        return None;
    }
    Some(chain_length(file.blocks.as_slice(), last_length(file)))
}

/// A file of a 1541 disk, in the form that all kinds share.
fn tell(alloc: Global, file: CbmFile) -> Result<Found, NoMemory>
    requires { length file.blocks ≤ 683 }
    ensures { IfOk result (TellsCbm file) }
{
    let name = cbm_name(alloc, &file.name)?;
    let ty = cbm_type(alloc, file.class)?;
    let size = size(&file);
    let last_len = last_length(&file);
    Ok(Found {
        slot: file.slot,
        name,
        ty,
        user: None,
        served_class: serves(file.class),
        size,
        faults: file.faults,
        units: file.blocks,
        last_len,
    })
}

/// The files of a 1541 disk, in their order and in the form that all kinds share.
pub(crate) fn tell_files(alloc: Global, files: Vec<CbmFile>) -> Result<Vec<Found>, NoMemory>
    requires { All (λ file. length file.blocks ≤ 683) files.items }
    ensures { IfOk result (λ founds. TellsCbmFiles files.items founds.items) }
{
    let mut founds = Vec::with_capacity(alloc, files.len())?;
    for file in files {
        founds.push(tell(alloc, file)?)?;
    }
    Ok(founds)
}

/// The file at a slot of a 1541 disk, in the form that all kinds share; `None` if no file has the
/// slot.
pub(crate) fn find(alloc: Global, disk: &CbmDisk, slot: u16) -> Result<Option<Found>, NoMemory>
    ensures file { IfOk result (IsFoundAt (cbm_kind disk.now) (cbm_bytes disk.now) slot) }
    ensures fits { IfOk result (λ answer. IfSome answer (Fits (cbm_kind disk.now))) }
{
    let Some(file) = rd_cbm::file(alloc, disk, slot)? else {
        return Ok(None);
    };
    Ok(Some(tell(alloc, file)?))
}

/// How the walk along the blocks of the directory ends.
pub(crate) fn directory_end(alloc: Global, disk: &CbmDisk) -> Result<End, NoMemory>
    ensures { IfOk result (IsDirectoryEnd (cbm_kind disk.now) (cbm_bytes disk.now)) }
{
    Ok(rd_cbm::chain(alloc, disk, (18, 1))?.end)
}

/// Whether files of a class claim blocks when they are closed.
fn claims(class: Class) -> bool
    ensures { result ≡ is_claimant class }
{
    matches!(class, Class::Seq | Class::Prg | Class::Usr | Class::Rel)
}

/// Whether a file claims blocks, but not as many as its entry states.
fn differs(file: &CbmFile) -> bool
    ensures { result ≡ differs_in_size file.now }
{
    file.closed && claims(file.class) && file.claimed != file.size_field
}

/// Whether desk serves the class of a file and it has no fault.
fn sound(file: &CbmFile) -> bool
    ensures { result ≡ is_sound file.now }
{
    serves(file.class) && file.faults == 0
}

/// How many files are sound.
fn count_sound(files: &[CbmFile]) -> usize
    ensures { result ≡ count_by is_sound files.now }
{
    files.iter().filter(|file| sound(file)).count()
}

/// How many files have a fault.
fn count_faulty(files: &[CbmFile]) -> usize
    ensures { result ≡ count_by (λ file. not (file.faults == 0)) files.now }
{
    files.iter().filter(|file| file.faults != 0).count()
}

/// How many files claim blocks, but not as many as their entry states.
fn count_differing(files: &[CbmFile]) -> usize
    ensures { result ≡ count_by differs_in_size files.now }
{
    files.iter().filter(|file| differs(file)).count()
}

/// The block 18/0, which holds the block map and the disk's name.
fn map_block<'a>(disk: &CbmDisk<'a>) -> &'a [u8]
    ensures value { result.now ≡ map_of (cbm_bytes disk.now) }
    ensures sized { length result.now ≡ CBM_BLOCK_LENGTH }
{
    disk.unit(CbmDisk::index(18, 0).unwrap())
}

/// The printed name of a disk.
fn label(alloc: Global, disk: &CbmDisk) -> Result<Text, NoMemory>
    ensures { IfOk result (λ text. text ≡ label_of (cbm_kind disk.now) (cbm_bytes disk.now)) }
{
    cbm_name(alloc, &map_block(disk)[144..160])
}

/// What a 1541 disk has, counted.
pub(crate) fn report(alloc: Global, disk: &CbmDisk) -> Result<Report, NoMemory>
    ensures { IfOk result (IsReport (cbm_kind disk.now) (cbm_bytes disk.now)) }
{
    let directory = rd_cbm::directory(alloc, disk)?;
    let files = rd_cbm::files(alloc, disk)?;
    let map = rd_cbm::block_map(alloc, disk)?;
    let label = label(alloc, disk)?;
    Ok(Report {
        files: files.len() as u16,
        served: count_sound(files.as_slice()) as u16,
        faulty: count_faulty(files.as_slice()) as u16,
        size_differs: count_differing(files.as_slice()) as u16,
        map,
        directory: directory.end,
        label,
    })
}
