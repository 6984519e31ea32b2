//! Where the blocks of a 1541 disk lead, and the chains of them.

use super::cases::{Case, Wanted, assert_cases};
use super::sample::{FORMATTED, FULL, LOOPED, MARKED, ONE_PROGRAM, Runs, Sample, units_of};
use rd_cbm::{End, Link, chain, link};
use rd_geometry::{CbmDisk, Image, NoMemory};
use rd_samples::{like, table};
use std::alloc::Global;

/// A disk with links of each kind.
const LINKED: Sample =
    like!(Sample, ONE_PROGRAM, blocks: &[(0, &[36, 0]), (1, &[17, 21]), (2, &[35, 16]), (3, &[0, 255])]);

/// Links are the first two bytes of a block.
const LINKS: &[Case] = table![
    ("a link to 36/0", LINKED, Wanted::Link(0, Link::Off));
    ("a link to 17/21", LINKED, Wanted::Link(1, Link::Off));
    ("a link to 35/16", LINKED, Wanted::Link(2, Link::Next(682)));
    ("a link to 0/255", LINKED, Wanted::Link(3, Link::Last(255)));
    ("a link to 0/0", LINKED, Wanted::Link(4, Link::Last(0)));
    ("a link to 17/10", LINKED, Wanted::Link(336, Link::Next(346)));
    ("a link to 0/5", LINKED, Wanted::Link(346, Link::Last(5)));
];

/// Whether a block of a 1541 disk leads there.
pub(super) fn leads(image: &Image<'_>, block: u16, leads: Link) -> bool {
    match CbmDisk::of(image) {
        Some(disk) => block < 683 && link(&disk, block) == leads,
        None => false,
    }
}

#[test]
fn blocks_lead_where_their_links_tell(rt: HostRuntime) {
    assert_cases(&rt, rt.alloc(), LINKS);
}

pub(super) const ENDING: &[Case] = table![
    ("a chain ends at track 0", ONE_PROGRAM, Wanted::Chain((17, 0), &[(336, 1), (346, 1)], End::Last(5)));
    ("a last block without bytes", like!(Sample, ONE_PROGRAM, blocks: &[(346, &[0, 1])]), Wanted::Chain((17, 0), &[(336, 1), (346, 1)], End::Last(1)));
    ("a chain of a disk with error bytes", like!(Sample, MARKED, marks: Some(&[(336, 5), (346, 5)])), Wanted::Chain((17, 0), &[(336, 1), (346, 1)], End::Last(5)));
    ("a chain into the last block before the error bytes", like!(Sample, MARKED, blocks: &[(336, &[35, 16]), (682, &[0, 255])]), Wanted::Chain((17, 0), &[(336, 1), (682, 1)], End::Last(255)));
    ("a loop that does not come back to the start", LOOPED, Wanted::Chain((17, 0), &[(336, 3)], End::Loop));
    ("a loop of one block", like!(Sample, LOOPED, blocks: &[(336, &[17, 0])]), Wanted::Chain((17, 0), &[(336, 1)], End::Loop));
    ("a chain from 36/0", FORMATTED, Wanted::Chain((36, 0), &[], End::Off));
    ("a chain from 0/0", FORMATTED, Wanted::Chain((0, 0), &[], End::Off));
    ("a chain from 17/21", FORMATTED, Wanted::Chain((17, 21), &[], End::Off));
    ("a chain that leaves the disk", like!(Sample, FORMATTED, blocks: &[(336, &[17, 5]), (341, &[18, 19])]), Wanted::Chain((17, 0), &[(336, 1), (341, 1)], End::Off));
    ("a chain of all blocks but two", FULL, Wanted::Chain((1, 0), &[(0, 357), (359, 324)], End::Last(255)));
    ("a chain of all blocks ends", like!(Sample, FULL, blocks: &[(356, &[18, 0]), (357, &[18, 1]), (358, &[18, 2])]), Wanted::Chain((1, 0), &[(0, 683)], End::Last(255)));
    ("a chain of all blocks loops", like!(Sample, FULL, blocks: &[(356, &[18, 0]), (357, &[18, 1]), (358, &[18, 2]), (682, &[17, 5])]), Wanted::Chain((1, 0), &[(0, 683)], End::Loop));
];

/// Whether the chain from a track and a sector has these blocks and this end.
pub(super) fn is_chain(
    alloc: Global,
    image: &Image<'_>,
    start: (u8, u8),
    blocks: Runs,
    end: End,
) -> Result<bool, NoMemory> {
    let Some(disk) = CbmDisk::of(image) else {
        return Ok(false);
    };
    let found = chain(alloc, &disk, start)?;
    let blocks = units_of(alloc, blocks)?;
    Ok(found.end == end && found.blocks.as_slice() == blocks.as_slice())
}

#[test]
fn chains_end_or_leave_the_disk_or_loop(rt: HostRuntime) {
    assert_cases(&rt, rt.alloc(), ENDING);
}
