ghost use Rattle.std.specs.Prelude.{◌≡◌, ◌<◌, ◌+◌, ◌*◌, true, slice_set};
ghost use Rattle.rd_geometry.specs.CpmDisks.{cpm_bytes};
ghost use Rattle.rd_cpm.specs.Entries.{entry_of_slot, IsOfFile};
ghost use Rattle.rd_cpm.specs.Claimed.{AreClaims, shared_after};

use crate::directory::{POINTERS, SLOTS, entry};
use rd_geometry::CpmDisk;

/// Which blocks the entries of files claim, by block number.
#[derive(Debug, Drop)]
pub(crate) struct Claims {
    /// Whether a pointer claims the block.
    pub(crate) claimed: [bool; 256],
    /// Whether two pointers claim it.
    pub(crate) shared: [bool; 256],
}

impl Claims {
    /// Records one more claim of a block.
    pub(crate) fn add(&mut self, block: u8)
        ensures claimed { self.new.claimed ≡ slice_set self.old.claimed block true }
        ensures shared { self.new.shared ≡ shared_after self.old.claimed self.old.shared block }
    {
        if self.claimed[block as usize] {
            self.shared[block as usize] = true;
        }
        self.claimed[block as usize] = true;
    }

    /// Records the claims of the entry at a slot, which belongs to a file.
    pub(crate) fn add_entry(&mut self, disk: &CpmDisk, slot: u8)
        requires slot { slot < 64 }
        requires file { IsOfFile (entry_of_slot (cpm_bytes disk.now) slot) }
        requires before { AreClaims (entry_of_slot (cpm_bytes disk.now)) (16 * slot) self.old.claimed self.old.shared }
        ensures { AreClaims (entry_of_slot (cpm_bytes disk.now)) (16 * slot + 16) self.new.claimed self.new.shared }
    {
        let pointers = entry(disk, slot).pointers();
        for place in 0..POINTERS {
            let block = pointers[place as usize];
            if block == 0 {
                continue;
            }
            self.add(block);
        }
    }
}

/// The claims of all entries of files.
pub(crate) fn claims_of(disk: &CpmDisk) -> Claims
    ensures { AreClaims (entry_of_slot (cpm_bytes disk.now)) 1024 result.claimed result.shared }
{
    let mut claims = Claims {
        claimed: [false; 256],
        shared: [false; 256],
    };
    for slot in 0..SLOTS {
        if !entry(disk, slot).is_file() {
            continue;
        }
        claims.add_entry(disk, slot);
    }
    claims
}
