ghost use Rattle.std.specs.Prelude.{◌≡◌, ◌≢◌, ◌↔◌, ◌<◌, ◌≤◌, ◌*◌, All, AllPairs, IfOk, IsTrue, false, true, length, replicate, slice_set};
ghost use Rattle.rd_geometry.specs.Blocks.{CBM_BLOCKS, index_of};
ghost use Rattle.rd_geometry.specs.CbmDisks.{cbm_bytes};
ghost use Rattle.rd_cbm.specs.Entries.{ClaimsBy, Data, IsClosed, Side};
ghost use Rattle.rd_cbm.specs.Files.{AreDirectoryBlocks};
ghost use Rattle.rd_cbm.specs.Marked.{AreAdded, AreUses, IsClaimChain, shared_after};

use crate::chains::{Chain, End};
use crate::entries::CbmEntry;
use crate::slots::read_entry;
use crate::walk::{BLOCKS, chain};
use rd_geometry::{CbmDisk, Items, NoMemory};
use std::alloc::Global;

/// The index of 18/0, which holds the block map.
pub(crate) const MAP_BLOCK: u16 = 357;

/// Whether a file is closed, by its type byte.
pub(crate) fn is_closed(ty_byte: u8) -> bool
    ensures { IsTrue result ↔ IsClosed ty_byte }
{
    ty_byte & 0x80 != 0
}

/// Whether a file claims the blocks of its data chain: a closed SEQ, PRG, USR or REL file does.
fn claims_data(ty_byte: u8) -> bool
    ensures { IsTrue result ↔ ClaimsBy ty_byte Data }
{
    is_closed(ty_byte) && ty_byte % 16 >= 1 && ty_byte % 16 <= 4
}

/// Whether a file claims the blocks of its side sectors: a closed REL file does.
fn claims_sides(ty_byte: u8) -> bool
    ensures { IsTrue result ↔ ClaimsBy ty_byte Side }
{
    is_closed(ty_byte) && ty_byte % 16 == 4
}

/// The chain from a start if the file claims it, and otherwise no blocks.
fn claimed_chain(
    alloc: Global,
    disk: &CbmDisk,
    claims: bool,
    start: (u8, u8),
) -> Result<Chain, NoMemory>
    ensures { IfOk result (IsClaimChain (cbm_bytes disk.now) (index_of start.0 start.1) (IsTrue claims)) }
{
    if claims {
        return chain(alloc, disk, start);
    }
    Ok(Chain {
        blocks: Items::of(Vec::new(alloc)),
        end: End::Last(0),
    })
}

/// The chains by which the file of an entry claims blocks: of its data and of its side sectors.
pub(crate) fn chains_of(
    alloc: Global,
    disk: &CbmDisk,
    entry: &CbmEntry,
) -> Result<(Chain, Chain), NoMemory>
    ensures contents { IfOk result (λ r. IsClaimChain (cbm_bytes disk.now) (index_of entry.now.start.0 entry.now.start.1) (ClaimsBy entry.now.ty_byte Data) r.0) }
    ensures sides { IfOk result (λ r. IsClaimChain (cbm_bytes disk.now) (index_of entry.now.side.0 entry.now.side.1) (ClaimsBy entry.now.ty_byte Side) r.1) }
{
    let contents = claimed_chain(alloc, disk, claims_data(entry.ty_byte), entry.start)?;
    let sides = claimed_chain(alloc, disk, claims_sides(entry.ty_byte), entry.side)?;
    Ok((contents, sides))
}

/// Which blocks are in use, by index.
#[derive(Debug, Drop)]
pub(crate) struct Uses {
    /// Whether the block is used.
    pub(crate) used: [bool; BLOCKS],
    /// Whether the block is used twice.
    pub(crate) shared: [bool; BLOCKS],
}

impl Uses {
    /// No block is used.
    pub(crate) fn none() -> Self
        ensures used { result.used ≡ replicate CBM_BLOCKS false }
        ensures shared { result.shared ≡ replicate CBM_BLOCKS false }
    {
        Uses {
            used: [false; BLOCKS],
            shared: [false; BLOCKS],
        }
    }

    /// Records one more use of a block.
    fn add(&mut self, block: u16)
        requires { block < CBM_BLOCKS }
        ensures used { self.new.used ≡ slice_set self.old.used block true }
        ensures shared { self.new.shared ≡ shared_after self.old.used self.old.shared block }
    {
        if self.used[block as usize] {
            self.shared[block as usize] = true;
        }
        self.used[block as usize] = true;
    }

    /// Records one more use of each of these blocks, which are all different.
    pub(crate) fn add_all(&mut self, blocks: &[u16])
        requires on_disk { All (λ block. block < CBM_BLOCKS) blocks.now }
        requires once { AllPairs (λ m n. m ≢ n) blocks.now }
        ensures { AreAdded self.old.used self.old.shared blocks.now self.new.used self.new.shared }
    {
        for block in blocks {
            self.add(*block);
        }
    }
}

/// The uses of all blocks: by 18/0, by the blocks of the directory, and by the chains of each slot
/// that claims blocks.
pub(crate) fn uses_of(alloc: Global, disk: &CbmDisk, blocks: &[u16]) -> Result<Uses, NoMemory>
    requires directory { AreDirectoryBlocks (cbm_bytes disk.now) blocks.now }
    requires on_disk { All (λ block. block < CBM_BLOCKS) blocks.now }
    requires count { length blocks.now ≤ CBM_BLOCKS }
    ensures { IfOk result (λ uses. AreUses (cbm_bytes disk.now) blocks.now uses.used uses.shared) }
{
    let mut uses = Uses::none();
    uses.add_all(&[MAP_BLOCK]);
    uses.add_all(blocks);
    let slots = 8 * blocks.len() as u16;
    for slot in 0..slots {
        let entry = read_entry(disk, blocks, slot);
        let (contents, sides) = chains_of(alloc, disk, &entry)?;
        uses.add_all(contents.blocks.as_slice());
        uses.add_all(sides.blocks.as_slice());
    }
    Ok(uses)
}
