ghost use Rattle.std.specs.Prelude.{IfOk};
ghost use Rattle.rd_geometry.specs.CbmDisks.{cbm_bytes};
ghost use Rattle.rd_cbm.specs.Listing.{IsFileAt};

use crate::catalog::{file_at, is_used};
use crate::claims::uses_of;
use crate::listing::CbmFile;
use crate::slots::DIRECTORY_START;
use crate::walk::chain;
use rd_geometry::{CbmDisk, NoMemory};
use std::alloc::Global;

/// The file at a slot of a disk, as `files` gives it; `None` if no file has the slot (1541 User's
/// Guide). It fails only when memory runs out.
pub fn file(alloc: Global, disk: &CbmDisk, slot: u16) -> Result<Option<CbmFile>, NoMemory>
    ensures { IfOk result (IsFileAt (cbm_bytes disk.now) slot) }
{
    let directory = chain(alloc, disk, DIRECTORY_START)?;
    let blocks = directory.blocks.as_slice();
    if slot as usize >= 8 * blocks.len() {
        return Ok(None);
    }
    if !is_used(disk, blocks, slot) {
        return Ok(None);
    }
    let uses = uses_of(alloc, disk, blocks)?;
    Ok(Some(file_at(alloc, disk, blocks, &uses, slot)?))
}
