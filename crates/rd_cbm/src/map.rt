ghost use Rattle.std.specs.Prelude.{◌≡◌, ◌↔◌, ◌<◌, ◌≤◌, IfOk, IsBitSet, IsTrue, false, length};
ghost use Rattle.std.specs.List.{slice_index_or};
ghost use Rattle.rd_geometry.specs.Blocks.{CBM_BLOCKS};
ghost use Rattle.rd_geometry.specs.CbmDisks.{cbm_bytes};
ghost use Rattle.rd_cbm.specs.BlockMap as spec;
ghost use Rattle.rd_cbm.specs.BlockMap.{HasWrongCount, IsFreeBlock, IsMarkedFree};
ghost use Rattle.rd_cbm.specs.Counts.{IsCount};
ghost use Rattle.rd_cbm.specs.Listing.{AreCounts};

use crate::claims::{MAP_BLOCK, Uses, uses_of};
use crate::report::MapReport;
use crate::slots::DIRECTORY_START;
use crate::walk::{BLOCKS, chain};
use rd_geometry::{CbmDisk, Geometry, NoMemory};
use std::alloc::Global;

/// The number after that of the last track.
const TRACKS_END: u8 = 36;

/// The most sectors that a track has.
const MOST_SECTORS: u8 = 21;

/// The bytes of 18/0, which holds the block map.
fn map_of<'a>(disk: &CbmDisk<'a>) -> &'a [u8]
    ensures value { result.now ≡ spec.map_of (cbm_bytes disk.now) }
    ensures sized { length result.now ≡ 256 }
{
    disk.unit(MAP_BLOCK)
}

/// Whether a bit, 0 to 7, of a byte is set.
fn is_bit_set(byte: u8, bit: u8) -> bool
    requires { bit < 8 }
    ensures { IsTrue result ↔ IsBitSet byte bit }
{
    (byte >> bit) & 1 == 1
}

/// Whether a track and a sector are on the disk and marked free.
fn is_marked_free(disk: &CbmDisk, track: u8, sector: u8) -> bool
    ensures { IsTrue result ↔ IsMarkedFree (cbm_bytes disk.now) track sector }
{
    let Some(_) = CbmDisk::index(track, sector) else {
        return false;
    };
    let byte = map_of(disk)[4 * track as usize + 1 + sector as usize / 8];
    is_bit_set(byte, sector % 8)
}

/// Whether a block is marked free.
fn is_free_block(disk: &CbmDisk, block: u16) -> bool
    requires { block < CBM_BLOCKS }
    ensures { IsTrue result ↔ IsFreeBlock (cbm_bytes disk.now) block }
{
    let (track, sector) = CbmDisk::address(block);
    is_marked_free(disk, track, sector)
}

/// How many sectors of a track are marked free.
fn count_free(disk: &CbmDisk, track: u8) -> u8
    ensures { IsCount (IsMarkedFree (cbm_bytes disk.now) track) result }
{
    let mut count = 0;
    for sector in 0..MOST_SECTORS {
        if !is_marked_free(disk, track, sector) {
            continue;
        }
        count += 1;
    }
    count
}

/// Whether the free count of a track, 1 to 35, is not the number of its sectors marked free.
fn has_wrong_count(disk: &CbmDisk, track: u8) -> bool
    requires first { 1 ≤ track }
    requires last { track ≤ 35 }
    ensures { IsTrue result ↔ HasWrongCount (cbm_bytes disk.now) track }
{
    let recorded = map_of(disk)[4 * track as usize];
    recorded != count_free(disk, track)
}

/// How many tracks have a wrong free count.
fn count_wrong_counts(disk: &CbmDisk) -> u16
    ensures { IsCount (HasWrongCount (cbm_bytes disk.now)) result }
{
    let mut count = 0;
    for track in 1..TRACKS_END {
        if !has_wrong_count(disk, track) {
            continue;
        }
        count += 1;
    }
    count
}

/// How many used blocks are marked free.
fn count_claimed_free(disk: &CbmDisk, uses: &Uses) -> u16
    ensures { IsCount (λ b. (b < CBM_BLOCKS) × (IsTrue (slice_index_or uses.now.used b false) × IsFreeBlock (cbm_bytes disk.now) b)) result }
{
    let mut count = 0;
    for block in 0..BLOCKS as u16 {
        if !uses.used[block as usize] {
            continue;
        }
        if !is_free_block(disk, block) {
            continue;
        }
        count += 1;
    }
    count
}

/// How many blocks that are not used are not marked free.
fn count_unclaimed_used(disk: &CbmDisk, uses: &Uses) -> u16
    ensures { IsCount (λ b. (b < CBM_BLOCKS) × ((¬ IsTrue (slice_index_or uses.now.used b false)) × (¬ IsFreeBlock (cbm_bytes disk.now) b))) result }
{
    let mut count = 0;
    for block in 0..BLOCKS as u16 {
        if uses.used[block as usize] {
            continue;
        }
        if is_free_block(disk, block) {
            continue;
        }
        count += 1;
    }
    count
}

/// Compares the block map in 18/0 with itself and with the blocks in use: the blocks that files
/// claim, 18/0, and the blocks of the directory (1541 User's Guide).
///
/// It fails only when memory runs out.
pub fn block_map(alloc: Global, disk: &CbmDisk) -> Result<MapReport, NoMemory>
    ensures { IfOk result (AreCounts (cbm_bytes disk.now)) }
{
    let directory = chain(alloc, disk, DIRECTORY_START)?;
    let uses = uses_of(alloc, disk, directory.blocks.as_slice())?;
    Ok(MapReport {
        wrong_counts: count_wrong_counts(disk),
        claimed_free: count_claimed_free(disk, &uses),
        unclaimed_used: count_unclaimed_used(disk, &uses),
    })
}
