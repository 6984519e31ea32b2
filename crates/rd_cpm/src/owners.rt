ghost use Rattle.std.specs.Prelude.{◌<◌};
ghost use Rattle.rd_geometry.specs.CpmDisks.{cpm_bytes};
ghost use Rattle.rd_cpm.specs.Entries.{entry_of_slot};
ghost use Rattle.rd_cpm.specs.Owners.{IsOwner, AreOwners};

use crate::directory::{SLOTS, entry};
use rd_geometry::CpmDisk;

/// The owner of a slot whose entry belongs to no file.
const NO_FILE: u8 = SLOTS;

/// The owner of `slot`: the slot of the file that its entry belongs to, or 64 if it belongs to
/// none. It searches the file slots before it.
pub(crate) fn owner_of(disk: &CpmDisk, owners: &[u8; 64], slot: u8) -> u8
    requires slot { slot < 64 }
    requires before { AreOwners (entry_of_slot (cpm_bytes disk.now)) slot owners.now }
    ensures { IsOwner (entry_of_slot (cpm_bytes disk.now)) slot result }
{
    let own = entry(disk, slot);
    if !own.is_file() {
        return NO_FILE;
    }
    for earlier in 0..slot {
        if owners[earlier as usize] == earlier && own.is_same_file(&entry(disk, earlier)) {
            return earlier;
        }
    }
    slot
}

/// The owner of each slot: the slot of its file, or 64 if its entry belongs to no file.
pub(crate) fn owners_of(disk: &CpmDisk) -> [u8; 64]
    ensures { AreOwners (entry_of_slot (cpm_bytes disk.now)) 64 result }
{
    let mut owners = [NO_FILE; 64];
    for slot in 0..SLOTS {
        owners[slot as usize] = owner_of(disk, &owners, slot);
    }
    owners
}
