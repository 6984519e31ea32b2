ghost use Rattle.std.specs.Prelude.{◌≡◌, ◌↔◌, ◌<◌, ◌*◌, All, IfOk, IsTrue, length};
ghost use Rattle.rd_geometry.specs.Blocks.{CBM_BLOCKS};
ghost use Rattle.rd_geometry.specs.CbmDisks.{cbm_bytes};
ghost use Rattle.rd_cbm.specs.Entries as entries;
ghost use Rattle.rd_cbm.specs.Entries.{IsLocked, IsServed};
ghost use Rattle.rd_cbm.specs.Files.{IsFileSlot};
ghost use Rattle.rd_cbm.specs.Marked.{AreServedBlocks, AreUses};
ghost use Rattle.rd_cbm.specs.Listing.{AreFiles, Describes};

use crate::chains::{Chain, End};
use crate::claims::{Uses, chains_of, is_closed, uses_of};
use crate::class::Class;
use crate::faults::{count_claimed, faults_of};
use crate::listing::CbmFile;
use crate::slots::{DIRECTORY_START, read_entry};
use crate::walk::chain;
use rd_geometry::{CbmDisk, Items, NoMemory};
use std::alloc::Global;

/// The class of a file, by its type byte.
fn class_of(ty_byte: u8) -> Class
    ensures { result ≡ entries.class_of ty_byte }
{
    match ty_byte % 16 {
        0 => Class::Del,
        1 => Class::Seq,
        2 => Class::Prg,
        3 => Class::Usr,
        4 => Class::Rel,
        _ => Class::Other,
    }
}

/// Whether desk serves files with this type byte: SEQ, PRG or USR.
fn is_served(ty_byte: u8) -> bool
    ensures { IsTrue result ↔ IsServed ty_byte }
{
    ty_byte % 16 >= 1 && ty_byte % 16 <= 3
}

/// Whether a file is locked, by its type byte.
fn is_locked(ty_byte: u8) -> bool
    ensures { IsTrue result ↔ IsLocked ty_byte }
{
    ty_byte & 0x40 != 0
}

/// The blocks of the chain of a sound file, and the position of the last byte used in its last
/// block; for any other file no blocks, and 0.
fn served_blocks(alloc: Global, ty_byte: u8, faults: u8, contents: Chain) -> (Items<u16>, u8)
    ensures { AreServedBlocks ty_byte faults contents result.0 result.1 }
{
    let none = Items::of(Vec::new(alloc));
    if faults != 0 || !is_served(ty_byte) {
        return (none, 0);
    }
    match contents.end {
        End::Last(used) => (contents.blocks, used),
        _ => (none, 0),
    }
}

/// The file at a slot of the directory, from the directory's blocks and the uses of all blocks.
pub(crate) fn file_at(
    alloc: Global,
    disk: &CbmDisk,
    blocks: &[u16],
    uses: &Uses,
    slot: u16,
) -> Result<CbmFile, NoMemory>
    requires on_disk { All (λ block. block < CBM_BLOCKS) blocks.now }
    requires uses { AreUses (cbm_bytes disk.now) blocks.now uses.now.used uses.now.shared }
    requires file { IsFileSlot (cbm_bytes disk.now) blocks.now slot }
    ensures slot { IfOk result (λ file. file.slot ≡ slot) }
    ensures file { IfOk result (Describes (cbm_bytes disk.now) blocks.now) }
{
    let entry = read_entry(disk, blocks, slot);
    let (contents, sides) = chains_of(alloc, disk, &entry)?;
    let faults = faults_of(disk, uses, entry.ty_byte, &contents, &sides);
    let claimed = count_claimed(contents.blocks.as_slice(), sides.blocks.as_slice());
    let (blocks, last) = served_blocks(alloc, entry.ty_byte, faults, contents);
    Ok(CbmFile {
        slot,
        class: class_of(entry.ty_byte),
        locked: is_locked(entry.ty_byte),
        closed: is_closed(entry.ty_byte),
        name: entry.name,
        faults,
        blocks,
        last,
        size_field: entry.size_field,
        claimed,
    })
}

/// Whether the entry at a slot of the directory is used.
pub(crate) fn is_used(disk: &CbmDisk, blocks: &[u16], slot: u16) -> bool
    requires slot { slot < 8 * length blocks.now }
    requires on_disk { All (λ block. block < CBM_BLOCKS) blocks.now }
    ensures { IsTrue result ↔ IsFileSlot (cbm_bytes disk.now) blocks.now slot }
{
    read_entry(disk, blocks, slot).ty_byte != 0
}

/// The files of a disk, by slot: all used entries of its directory.
///
/// Each file comes with its faults and the number of blocks that it claims; a SEQ, PRG or USR file
/// without a fault also comes with the blocks of its chain (1541 User's Guide). It fails only when
/// memory runs out.
pub fn files(alloc: Global, disk: &CbmDisk) -> Result<Vec<CbmFile>, NoMemory>
    ensures { IfOk result (λ files. AreFiles (cbm_bytes disk.now) files.items) }
{
    let directory = chain(alloc, disk, DIRECTORY_START)?;
    let blocks = directory.blocks.as_slice();
    let uses = uses_of(alloc, disk, blocks)?;
    let mut files = Vec::new(alloc);
    let slots = 8 * blocks.len() as u16;
    for slot in 0..slots {
        if !is_used(disk, blocks, slot) {
            continue;
        }
        files.push(file_at(alloc, disk, blocks, &uses, slot)?)?;
    }
    Ok(files)
}
