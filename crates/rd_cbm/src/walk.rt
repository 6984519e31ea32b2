ghost use Rattle.std.specs.Prelude.{◌≡◌, ◌<◌, ◌≤◌, ℕ, All, IfOk, IfSome, List, OnOk, Option, Some, [], length};
ghost use Rattle.rd_geometry.specs.Blocks.{CBM_BLOCKS, index_of};
ghost use Rattle.rd_geometry.specs.CbmDisks.{cbm_bytes};
ghost use Rattle.rd_cbm.specs.Links.{link_of};
ghost use Rattle.rd_cbm.specs.Walks as walks;
ghost use Rattle.rd_cbm.specs.Walks.{EndsBy, EndsOnce, IsChain, Loops};

use crate::chains::{Chain, End, Link};
use rd_geometry::{CbmDisk, Geometry, Items, NoMemory};
use std::alloc::Global;

/// How many blocks a disk has.
pub(crate) const BLOCKS: usize = 683;

/// Where block `n`, 0 to 682, of a disk leads: its bytes 0 and 1 (1541 User's Guide).
#[tactic(auto, unfolding(crate::specs::Links::link_of))]
pub fn link(disk: &CbmDisk, n: u16) -> Link
    requires { n < CBM_BLOCKS }
    ensures link { result ≡ link_of (cbm_bytes disk.now) n }
    ensures inside { (next : ℕ) → result ≡ Link.Next next → next < CBM_BLOCKS }
{
    let block = disk.unit(n);
    let (track, sector) = (block[0], block[1]);
    if track == 0 {
        return Link::Last(sector);
    }
    match CbmDisk::index(track, sector) {
        Some(next) => Link::Next(next),
        None => Link::Off,
    }
}

/// Walks along the links from a start, adds each block to `blocks` once, in order, and gives how
/// the walk ends.
fn walk(disk: &CbmDisk, start: Option<u16>, blocks: &mut Vec<u16>) -> Result<End, NoMemory>
    requires start { IfSome start (λ n. n < CBM_BLOCKS) }
    requires none { blocks.old.items ≡ [] }
    ensures end { IfOk result (EndsBy (link_of (cbm_bytes disk.now)) start) }
    ensures blocks { OnOk result (IsChain (link_of (cbm_bytes disk.now)) start blocks.new.items) }
    ensures inside { OnOk result (All (λ n. n < CBM_BLOCKS) blocks.new.items) }
    ensures count { OnOk result (length blocks.new.items ≤ CBM_BLOCKS) }
{
    let Some(mut block) = start else {
        return Ok(End::Off);
    };
    let mut marks = [false; BLOCKS];
    while !marks[block as usize] {
        marks[block as usize] = true;
        blocks.push(block)?;
        match link(disk, block) {
            Link::Last(used) => return Ok(End::Last(used)),
            Link::Off => return Ok(End::Off),
            Link::Next(next) => block = next,
        }
    }
    Ok(End::Loop)
}

/// The chain of a track and a sector: the blocks that the walk along the links from there comes to,
/// at most 683, each once and in order, and how the walk ends. From a start that is not on the disk
/// there are no blocks, and the end is `Off`.
///
/// It fails only when memory runs out.
pub fn chain(alloc: Global, disk: &CbmDisk, start: (u8, u8)) -> Result<Chain, NoMemory>
    ensures blocks { IfOk result (λ chain. IsChain (link_of (cbm_bytes disk.now)) (index_of start.0 start.1) chain.blocks) }
    ensures end { IfOk result (λ chain. EndsBy (link_of (cbm_bytes disk.now)) (index_of start.0 start.1) chain.end) }
    ensures inside { IfOk result (λ chain. All (λ n. n < CBM_BLOCKS) chain.blocks) }
    ensures count { IfOk result (λ chain. length chain.blocks ≤ CBM_BLOCKS) }
{
    let mut blocks = Vec::new(alloc);
    let end = walk(disk, CbmDisk::index(start.0, start.1), &mut blocks)?;
    Ok(Chain {
        blocks: Items::of(blocks),
        end,
    })
}

/// A law, which no code calls: on each image the walk from each start ends in exactly one way,
/// with one last byte if it ends at a last block, and it has a 684th place only if it loops.
pub fn each_walk_ends_once()
    ensures once { (image : List ℕ) (track sector : ℕ) → EndsOnce (link_of image) (index_of track sector) }
    ensures long { (image : List ℕ) (track sector n : ℕ) → walks.at (link_of image) (index_of track sector) CBM_BLOCKS ≡ Some n
        → Loops (link_of image) (index_of track sector) }
{}
