ghost use Rattle.std.specs.Prelude.{◌≡◌, ◌<◌, IfOk};
ghost use Rattle.rd_geometry.specs.CpmDisks.{cpm_bytes};
ghost use Rattle.rd_cpm.specs.Entries.{entry_of_slot};
ghost use Rattle.rd_cpm.specs.Files.{IsFileSlot};
ghost use Rattle.rd_cpm.specs.Owners.{AreOwners};
ghost use Rattle.rd_cpm.specs.Claimed.{AreClaims};
ghost use Rattle.rd_cpm.specs.EntryTests.{AreJudged};
ghost use Rattle.rd_cpm.specs.Listing.{Describes, AreFiles};

use crate::claims::{Claims, claims_of};
use crate::directory::{SLOTS, entry};
use crate::faults::faults_of;
use crate::fields::Entry;
use crate::gather::gather;
use crate::listing::CpmFile;
use crate::owners::owners_of;
use crate::sectors::sectors_of;
use rd_geometry::{CpmDisk, Items, NoMemory};
use std::alloc::Global;

/// The faults of a file by bit and, if it has none, its sectors, from all its entries.
fn judge(alloc: Global, claims: &Claims, entries: &[Entry<'_>]) -> Result<(u8, Vec<u16>), NoMemory>
    ensures { IfOk result (λ r. AreJudged claims.now.shared entries.now r.0 r.1.items) }
{
    let faults = faults_of(claims, entries);
    if faults != 0 {
        return Ok((faults, Vec::new(alloc)));
    }
    Ok((0, sectors_of(alloc, entries)?))
}

/// The file of a file slot, from the owners of all slots and the claims of all files.
pub(crate) fn file_at(
    alloc: Global,
    disk: &CpmDisk,
    owners: &[u8; 64],
    claims: &Claims,
    slot: u8,
) -> Result<CpmFile, NoMemory>
    requires owners { AreOwners (entry_of_slot (cpm_bytes disk.now)) 64 owners.now }
    requires claims { AreClaims (entry_of_slot (cpm_bytes disk.now)) 1024 claims.now.claimed claims.now.shared }
    requires file { IsFileSlot (entry_of_slot (cpm_bytes disk.now)) slot }
    ensures slot { IfOk result (λ file. file.slot ≡ slot) }
    ensures file { IfOk result (Describes (cpm_bytes disk.now)) }
{
    let own = entry(disk, slot);
    let name = own.name();
    let entries = gather(alloc, disk, owners, slot)?;
    let (faults, sectors) = judge(alloc, claims, entries.as_slice())?;
    Ok(CpmFile {
        slot,
        user: own.first(),
        name: own.plain_name(),
        read_only: name[8] >= 128,
        system: name[9] >= 128,
        faults,
        sectors: Items::of(sectors),
    })
}

/// The files of a disk, by slot.
///
/// A file is all entries with one user, 0 to 15, and one name, whatever the high bits of the name;
/// its slot is the lowest of theirs. Each file comes with its faults and, if it has none, with the
/// logical sectors of its records in order (CP/M 2.2 Interface Guide). It fails only when memory
/// runs out.
pub fn files(alloc: Global, disk: &CpmDisk) -> Result<Vec<CpmFile>, NoMemory>
    ensures { IfOk result (λ files. AreFiles (cpm_bytes disk.now) files.items) }
{
    let owners = owners_of(disk);
    let claims = claims_of(disk);
    let mut files = Vec::new(alloc);
    for slot in 0..SLOTS {
        if owners[slot as usize] != slot {
            continue;
        }
        files.push(file_at(alloc, disk, &owners, &claims, slot)?)?;
    }
    Ok(files)
}
