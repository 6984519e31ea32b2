ghost use Rattle.std.specs.Prelude.{◌≡◌, ◌<◌};
ghost use Rattle.rd_geometry.specs.CpmDisks.{cpm_bytes};
ghost use Rattle.rd_cpm.specs.Entries.{entry_of_slot};

use crate::fields::Entry;
use rd_geometry::{CpmDisk, Geometry};

/// How many slots the directory has.
pub(crate) const SLOTS: u8 = 64;

/// How many pointers an entry has.
pub(crate) const POINTERS: u8 = 16;

/// The entry at a slot of the directory, 0 to 63.
#[tactic(auto, unfolding(crate::specs::Entries::entry_of_slot))]
pub fn entry<'a>(disk: &CpmDisk<'a>, slot: u8) -> Entry<'a>
    requires { slot < 64 }
    ensures { result ≡ entry_of_slot (cpm_bytes disk.now) slot }
{
    let sector = disk.unit(u16::from(slot / 4));
    let start = 32 * (slot % 4) as usize;
    Entry::of(&sector[start..start + 32])
}
