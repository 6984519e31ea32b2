ghost use Rattle.std.specs.Prelude.{◌≡◌, ◌↔◌, ◌<◌, ◌+◌, ◌*◌, IsTrue, Any, if◌then◌else◌};
ghost use Rattle.rd_cpm.specs.Entries.{rc_of};
ghost use Rattle.rd_cpm.specs.Gathered.{HasExtent, HasLater, LacksPredecessor, EndsEarly, AreTwice, IsHole, SomePlace, IsOffDiskIn, IsSharedBlock, IsCrossedIn};
ghost use Rattle.rd_cpm.specs.EntryTests.{AreFaultBits};

use crate::claims::Claims;
use crate::fields::Entry;

/// The last block of the disk.
const LAST_BLOCK: u8 = 242;

/// The block of the directory that no pointer may name; its other block is 0, which means none.
const DIRECTORY_BLOCK: u8 = 1;

/// How many records a full extent has.
const FULL: u8 = 128;

/// Whether an entry counts more records than an extent has.
fn has_bad_count(entries: &[Entry<'_>]) -> bool
    ensures { IsTrue result ↔ Any (λ entry. 128 < rc_of entry) entries.now }
{
    entries.iter().any(|own| own.rc() > FULL)
}

/// Whether an entry holds the extent of a number.
fn has_extent(entries: &[Entry<'_>], number: u16) -> bool
    ensures { IsTrue result ↔ HasExtent entries.now number }
{
    entries.iter().any(|own| own.extent_number() == number)
}

/// Whether an entry holds an extent of a higher number.
fn has_later(entries: &[Entry<'_>], number: u16) -> bool
    ensures { IsTrue result ↔ HasLater entries.now number }
{
    entries.iter().any(|own| number < own.extent_number())
}

/// Whether two entries hold the extent of one number.
fn has_duplicate(entries: &[Entry<'_>]) -> bool
    ensures { IsTrue result ↔ AreTwice entries.now }
{
    for (i, own) in entries.iter().enumerate() {
        if has_extent(&entries[..i], own.extent_number()) {
            return true;
        }
    }
    false
}

/// Whether the entry's extent number is above 0 and no entry has the one before it.
fn lacks_predecessor(entries: &[Entry<'_>], own: &Entry<'_>) -> bool
    ensures { IsTrue result ↔ LacksPredecessor entries.now own.now }
{
    match own.extent_number().checked_sub(1) {
        Some(number) => !has_extent(entries, number),
        None => false,
    }
}

/// Whether an extent number above 0 has no predecessor.
fn has_gap(entries: &[Entry<'_>]) -> bool
    ensures { IsTrue result ↔ Any (LacksPredecessor entries.now) entries.now }
{
    entries.iter().any(|own| lacks_predecessor(entries, own))
}

/// Whether the entry's extent is not full and there is a later one.
fn ends_early(entries: &[Entry<'_>], own: &Entry<'_>) -> bool
    ensures { IsTrue result ↔ EndsEarly entries.now own.now }
{
    own.rc() < FULL && has_later(entries, own.extent_number())
}

/// Whether an extent that is not full has a later one after it.
fn is_short(entries: &[Entry<'_>]) -> bool
    ensures { IsTrue result ↔ Any (EndsEarly entries.now) entries.now }
{
    entries.iter().any(|own| ends_early(entries, own))
}

/// Whether the record count of an entry reaches a pointer that is 0.
fn has_hole_in(own: &Entry<'_>) -> bool
    ensures { IsTrue result ↔ SomePlace (IsHole own.now) }
{
    let reached = own.rc().div_ceil(8) as usize;
    own.pointers().iter().take(reached).any(|block| *block == 0)
}

/// Whether the record count of an entry reaches a pointer that is 0.
fn has_hole(entries: &[Entry<'_>]) -> bool
    ensures { IsTrue result ↔ Any (λ entry. SomePlace (IsHole entry)) entries.now }
{
    entries.iter().any(has_hole_in)
}

/// Whether a block is above the disk's last.
fn has_block_off_disk(blocks: &[u8]) -> bool
    ensures { IsTrue result ↔ Any (λ block. 242 < block) blocks.now }
{
    blocks.iter().any(|block| *block > LAST_BLOCK)
}

/// Whether a pointer of an entry is above the disk's last block.
#[tactic(auto, unfolding(crate::specs::Gathered::IsOffDiskIn))]
fn is_off_disk_in(own: &Entry<'_>) -> bool
    ensures { IsTrue result ↔ IsOffDiskIn own.now }
{
    has_block_off_disk(&own.pointers())
}

/// Whether a pointer is above the disk's last block.
fn is_off_disk(entries: &[Entry<'_>]) -> bool
    ensures { IsTrue result ↔ Any IsOffDiskIn entries.now }
{
    entries.iter().any(is_off_disk_in)
}

/// Whether a block belongs to the directory or is claimed twice. A pointer 0 names no block.
fn is_shared(claims: &Claims, block: u8) -> bool
    ensures { IsTrue result ↔ IsSharedBlock claims.now.shared block }
{
    block == DIRECTORY_BLOCK || (block != 0 && claims.shared[block as usize])
}

/// Whether a block of the list belongs to the directory or is claimed twice.
fn has_shared_block(claims: &Claims, blocks: &[u8]) -> bool
    ensures { IsTrue result ↔ Any (IsSharedBlock claims.now.shared) blocks.now }
{
    blocks.iter().any(|block| is_shared(claims, *block))
}

/// Whether a pointer of an entry names a block that belongs to the directory or is claimed twice.
#[tactic(auto, unfolding(crate::specs::Gathered::IsCrossedIn))]
fn is_crossed_in(claims: &Claims, own: &Entry<'_>) -> bool
    ensures { IsTrue result ↔ IsCrossedIn claims.now.shared own.now }
{
    has_shared_block(claims, &own.pointers())
}

/// Whether a pointer of some entry names a block that belongs to the directory or is claimed
/// twice.
fn is_crossed(claims: &Claims, entries: &[Entry<'_>]) -> bool
    ensures { IsTrue result ↔ Any (IsCrossedIn claims.now.shared) entries.now }
{
    entries.iter().any(|own| is_crossed_in(claims, own))
}

/// The weight of a bit if it is set, and 0 otherwise.
fn weight(set: bool, weight: u8) -> u8
    ensures { result ≡ (if set then weight else 0) }
{
    if set { weight } else { 0 }
}

/// The faults of a file by bit, from all its entries and the claims of all files.
pub(crate) fn faults_of(claims: &Claims, entries: &[Entry<'_>]) -> u8
    ensures { AreFaultBits claims.now.shared entries.now result }
{
    weight(has_bad_count(entries), 1)
        + weight(has_duplicate(entries), 2)
        + weight(has_gap(entries), 4)
        + weight(is_short(entries), 8)
        + weight(has_hole(entries), 16)
        + weight(is_off_disk(entries), 32)
        + weight(is_crossed(claims, entries), 64)
}
