ghost use Rattle.std.specs.Prelude.{◌<◌, IfOk};
ghost use Rattle.rd_geometry.specs.CpmDisks.{cpm_bytes};
ghost use Rattle.rd_cpm.specs.Entries.{entry_of_slot};
ghost use Rattle.rd_cpm.specs.Files.{IsFileSlot};
ghost use Rattle.rd_cpm.specs.Owners.{AreOwners};
ghost use Rattle.rd_cpm.specs.Gathered.{AreGathered};

use crate::directory::{SLOTS, entry};
use crate::fields::Entry;
use rd_geometry::{CpmDisk, NoMemory};
use std::alloc::Global;

/// The entries of the file of slot `file`, by slot, from the owners of all slots.
pub(crate) fn gather<'a>(
    alloc: Global,
    disk: &CpmDisk<'a>,
    owners: &[u8; 64],
    file: u8,
) -> Result<Vec<Entry<'a>>, NoMemory>
    requires owners { AreOwners (entry_of_slot (cpm_bytes disk.now)) 64 owners.now }
    requires file { IsFileSlot (entry_of_slot (cpm_bytes disk.now)) file }
    ensures { IfOk result (λ entries. AreGathered (entry_of_slot (cpm_bytes disk.now)) file entries.items) }
{
    let mut entries = Vec::new(alloc);
    for slot in file..SLOTS {
        if owners[slot as usize] != file {
            continue;
        }
        entries.push(entry(disk, slot))?;
    }
    Ok(entries)
}
