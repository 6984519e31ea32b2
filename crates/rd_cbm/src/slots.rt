ghost use Rattle.std.specs.Prelude.{◌≡◌, ◌*◌, ◌<◌, ◌≤◌, All, IfOk, length};
ghost use Rattle.rd_geometry.specs.Blocks.{CBM_BLOCKS};
ghost use Rattle.rd_geometry.specs.CbmDisks.{cbm_bytes};
ghost use Rattle.rd_cbm.specs.Listing.{AreEntries, HasFields, IsDirectory};

use crate::chains::Chain;
use crate::entries::{CbmEntry, Directory};
use crate::walk::chain;
use rd_geometry::{CbmDisk, Geometry, Items, NoMemory};
use std::alloc::Global;

/// Where the directory begins, whatever 18/0 links to.
pub(crate) const DIRECTORY_START: (u8, u8) = (18, 1);

/// The fields of the entry at a slot of the directory, from the directory's blocks.
#[tactic(auto, unfolding(crate::specs::Entries::entry_at))]
pub(crate) fn read_entry(disk: &CbmDisk, blocks: &[u16], slot: u16) -> CbmEntry
    requires slot { slot < 8 * length blocks.now }
    requires on_disk { All (λ block. block < CBM_BLOCKS) blocks.now }
    ensures slot { result.slot ≡ slot }
    ensures fields { HasFields (cbm_bytes disk.now) blocks.now result }
{
    let block = disk.unit(blocks[slot as usize / 8]);
    let offset = 32 * (slot as usize % 8);
    let entry = &block[offset..offset + 32];
    let mut name = [0; 16];
    name.copy_from_slice(&entry[5..21]);
    CbmEntry {
        slot,
        ty_byte: entry[2],
        start: (entry[3], entry[4]),
        name,
        side: (entry[21], entry[22]),
        record_len: entry[23],
        size_field: u16::from(entry[30]) + 256 * u16::from(entry[31]),
    }
}

/// The used entries of the directory, by slot, from its blocks.
fn entries_of(alloc: Global, disk: &CbmDisk, blocks: &[u16]) -> Result<Vec<CbmEntry>, NoMemory>
    requires on_disk { All (λ block. block < CBM_BLOCKS) blocks.now }
    requires count { length blocks.now ≤ CBM_BLOCKS }
    ensures { IfOk result (λ entries. AreEntries (cbm_bytes disk.now) blocks.now entries.items) }
{
    let mut entries = Vec::new(alloc);
    let slots = 8 * blocks.len() as u16;
    for slot in 0..slots {
        let entry = read_entry(disk, blocks, slot);
        if entry.ty_byte == 0 {
            continue;
        }
        entries.push(entry)?;
    }
    Ok(entries)
}

/// The directory of a disk: the blocks of the chain of 18/1, how the walk along them ends, and the
/// used entries by slot. Entry `j` of the block at position `i` has slot `8 * i + j` (1541 User's
/// Guide).
///
/// It fails only when memory runs out.
pub fn directory(alloc: Global, disk: &CbmDisk) -> Result<Directory, NoMemory>
    ensures { IfOk result (IsDirectory (cbm_bytes disk.now)) }
{
    let Chain { blocks, end } = chain(alloc, disk, DIRECTORY_START)?;
    let entries = entries_of(alloc, disk, blocks.as_slice())?;
    Ok(Directory {
        entries: Items::of(entries),
        blocks,
        end,
    })
}
