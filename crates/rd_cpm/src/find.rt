ghost use Rattle.std.specs.Prelude.{◌≡◌, IfNone, IfOk, IfSome};
ghost use Rattle.rd_geometry.specs.CpmDisks.{cpm_bytes};
ghost use Rattle.rd_cpm.specs.Entries.{entry_of_slot};
ghost use Rattle.rd_cpm.specs.Files.{IsFileSlot};
ghost use Rattle.rd_cpm.specs.Listing.{Describes};

use crate::claims::claims_of;
use crate::directory::SLOTS;
use crate::listing::CpmFile;
use crate::owners::owners_of;
use crate::walk::file_at;
use rd_geometry::{CpmDisk, NoMemory};
use std::alloc::Global;

/// The file at a slot of a disk, as `files` gives it; `None` if no file has the slot (CP/M 2.2
/// Interface Guide). It fails only when memory runs out.
pub fn file(alloc: Global, disk: &CpmDisk, slot: u16) -> Result<Option<CpmFile>, NoMemory>
    ensures slot { IfOk result (λ answer. IfSome answer (λ file. file.slot ≡ slot)) }
    ensures file { IfOk result (λ answer. IfSome answer (Describes (cpm_bytes disk.now))) }
    ensures none { IfOk result (λ answer. IfNone answer (¬ IsFileSlot (entry_of_slot (cpm_bytes disk.now)) slot)) }
{
    if slot >= u16::from(SLOTS) {
        return Ok(None);
    }
    let owners = owners_of(disk);
    let slot = slot as u8;
    if owners[slot as usize] != slot {
        return Ok(None);
    }
    let claims = claims_of(disk);
    Ok(Some(file_at(alloc, disk, &owners, &claims, slot)?))
}
