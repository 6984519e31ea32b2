ghost use Rattle.std.specs.Prelude.{◌≡◌, ◌≢◌, ◌⊎◌, ◌↔◌, ◌<◌, ◌≤◌, All, AllPairs, Contains, IsTrue, if◌then◌else◌, length};
ghost use Rattle.rd_geometry.specs.Blocks.{CBM_BLOCKS};
ghost use Rattle.rd_geometry.specs.CbmDisks.{cbm_bytes};
ghost use Rattle.rd_cbm.specs.Counts.{IsCount};
ghost use Rattle.rd_cbm.specs.Faults.{IsError};
ghost use Rattle.rd_cbm.specs.Marked.{AreFaultBits, SomeError, SomeShared};

use crate::chains::{Chain, End};
use crate::claims::{Uses, is_closed};
use rd_geometry::CbmDisk;

/// Whether the walk along a chain goes off the disk.
fn goes_off(chain: &Chain) -> bool
    ensures { IsTrue result ↔ (chain.now.end ≡ End.Off) }
{
    matches!(chain.end, End::Off)
}

/// Whether the walk along a chain loops.
fn loops(chain: &Chain) -> bool
    ensures { IsTrue result ↔ (chain.now.end ≡ End.Loop) }
{
    matches!(chain.end, End::Loop)
}

/// Whether the walk along either chain goes off the disk.
fn either_goes_off(contents: &Chain, sides: &Chain) -> bool
    ensures { IsTrue result ↔ ((contents.now.end ≡ End.Off) ⊎ (sides.now.end ≡ End.Off)) }
{
    if goes_off(contents) {
        return true;
    }
    goes_off(sides)
}

/// Whether the walk along either chain loops.
fn either_loops(contents: &Chain, sides: &Chain) -> bool
    ensures { IsTrue result ↔ ((contents.now.end ≡ End.Loop) ⊎ (sides.now.end ≡ End.Loop)) }
{
    if loops(contents) {
        return true;
    }
    loops(sides)
}

/// Whether a block of the list is shared.
fn has_shared(uses: &Uses, blocks: &[u16]) -> bool
    requires { All (λ block. block < CBM_BLOCKS) blocks.now }
    ensures { IsTrue result ↔ SomeShared uses.now.shared blocks.now }
{
    for block in blocks {
        if uses.shared[*block as usize] {
            return true;
        }
    }
    false
}

/// Whether a block of either chain is shared.
fn either_has_shared(uses: &Uses, contents: &Chain, sides: &Chain) -> bool
    requires contents { All (λ block. block < CBM_BLOCKS) contents.now.blocks }
    requires sides { All (λ block. block < CBM_BLOCKS) sides.now.blocks }
    ensures { IsTrue result ↔ (SomeShared uses.now.shared contents.now.blocks ⊎ SomeShared uses.now.shared sides.now.blocks) }
{
    if has_shared(uses, contents.blocks.as_slice()) {
        return true;
    }
    has_shared(uses, sides.blocks.as_slice())
}

/// Whether an error byte reports an error: any but 0 and 1 does.
fn is_error(mark: u8) -> bool
    ensures { IsTrue result ↔ IsError mark }
{
    mark != 0 && mark != 1
}

/// Whether the error byte of a block of the list reports an error.
fn has_error(disk: &CbmDisk, blocks: &[u16]) -> bool
    requires { All (λ block. block < CBM_BLOCKS) blocks.now }
    ensures { IsTrue result ↔ SomeError (cbm_bytes disk.now) blocks.now }
{
    for block in blocks {
        if is_error(disk.mark(*block)) {
            return true;
        }
    }
    false
}

/// Whether the error byte of a block of either chain reports an error.
fn either_has_error(disk: &CbmDisk, contents: &Chain, sides: &Chain) -> bool
    requires contents { All (λ block. block < CBM_BLOCKS) contents.now.blocks }
    requires sides { All (λ block. block < CBM_BLOCKS) sides.now.blocks }
    ensures { IsTrue result ↔ (SomeError (cbm_bytes disk.now) contents.now.blocks
        ⊎ SomeError (cbm_bytes disk.now) sides.now.blocks) }
{
    if has_error(disk, contents.blocks.as_slice()) {
        return true;
    }
    has_error(disk, sides.blocks.as_slice())
}

/// The weight of a bit where it is set.
fn weight(set: bool, weight: u8) -> u8
    ensures { result ≡ (if set then weight else 0) }
{
    if set { weight } else { 0 }
}

/// The faults of a file by bit, from its type byte, its chains, the uses of all blocks and the error
/// bytes of the disk.
pub(crate) fn faults_of(
    disk: &CbmDisk,
    uses: &Uses,
    ty_byte: u8,
    contents: &Chain,
    sides: &Chain,
) -> u8
    requires contents { All (λ block. block < CBM_BLOCKS) contents.now.blocks }
    requires sides { All (λ block. block < CBM_BLOCKS) sides.now.blocks }
    ensures { AreFaultBits (cbm_bytes disk.now) uses.now.shared ty_byte contents.now sides.now result }
{
    weight(!is_closed(ty_byte), 1)
        + weight(either_goes_off(contents, sides), 2)
        + weight(either_loops(contents, sides), 4)
        + weight(either_has_shared(uses, contents, sides), 8)
        + weight(either_has_error(disk, contents, sides), 16)
}

/// How many blocks there are on two chains that both have blocks, each counted once.
fn count_both(contents: &[u16], sides: &[u16]) -> u16
    requires contents_on_disk { All (λ block. block < CBM_BLOCKS) contents.now }
    requires contents_once { AllPairs (λ m n. m ≢ n) contents.now }
    requires sides_on_disk { All (λ block. block < CBM_BLOCKS) sides.now }
    requires sides_once { AllPairs (λ m n. m ≢ n) sides.now }
    requires contents_few { length contents.now ≤ CBM_BLOCKS }
    requires sides_few { length sides.now ≤ CBM_BLOCKS }
    ensures { IsCount (λ block. Contains contents.now block ⊎ Contains sides.now block) result }
{
    let mut own = Uses::none();
    own.add_all(contents);
    let mut count = contents.len() as u16;
    for block in sides {
        if own.used[*block as usize] {
            continue;
        }
        count += 1;
    }
    count
}

/// How many blocks there are on two chains, each counted once.
pub(crate) fn count_claimed(contents: &[u16], sides: &[u16]) -> u16
    requires contents_on_disk { All (λ block. block < CBM_BLOCKS) contents.now }
    requires contents_once { AllPairs (λ m n. m ≢ n) contents.now }
    requires sides_on_disk { All (λ block. block < CBM_BLOCKS) sides.now }
    requires sides_once { AllPairs (λ m n. m ≢ n) sides.now }
    requires contents_few { length contents.now ≤ CBM_BLOCKS }
    requires sides_few { length sides.now ≤ CBM_BLOCKS }
    ensures { IsCount (λ block. Contains contents.now block ⊎ Contains sides.now block) result }
{
    if sides.is_empty() {
        return contents.len() as u16;
    }
    count_both(contents, sides)
}
