ghost use Rattle.std.specs.Prelude.{◌≡◌, ◌<◌, ◌≤◌, ◌+◌, ◌*◌, ◌/◌, ◌%◌, ℕ, IfOk, OnOk, IfSome, IfNone, Contains, length, take, slice_index};
ghost use Rattle.rd_cpm.specs.Entries.{rc_of, extent_number_of, pointer_of};
ghost use Rattle.rd_cpm.specs.Gathered.{HasExtent};
ghost use Rattle.rd_cpm.specs.EntryTests.{AreInOrder, AreRecords};

use crate::fields::Entry;
use rd_geometry::NoMemory;
use std::alloc::Global;

/// How many numbers an extent can have.
const EXTENTS: u16 = 2048;

/// The entry that holds the extent of a number.
fn find_extent<'e, 'a>(entries: &'e [Entry<'a>], number: u16) -> Option<&'e Entry<'a>>
    ensures found { IfSome result (λ own. Contains entries.entry.now own.now × (extent_number_of own.now ≡ number)) }
    ensures none { IfNone result (¬ HasExtent entries.entry.now number) }
{
    entries.iter().find(|own| own.extent_number() == number)
}

/// Adds the sectors of the records of an entry, in order.
fn add_records(sectors: &mut Vec<u16>, own: &Entry<'_>) -> Result<(), NoMemory>
    requires { rc_of own.now ≤ 128 }
    ensures before { OnOk result (take (length sectors.old.items) sectors.new.items ≡ sectors.old.items) }
    ensures count { OnOk result (length sectors.new.items ≡ length sectors.old.items + rc_of own.now) }
    ensures each { OnOk result ((t : ℕ) → t < rc_of own.now
        → slice_index sectors.new.items (length sectors.old.items + t) ≡ 8 * pointer_of own.now (t / 8) + t % 8) }
{
    let pointers = own.pointers();
    for record in 0..own.rc() {
        let block = pointers[record as usize / 8];
        sectors.push(8 * u16::from(block) + u16::from(record % 8))?;
    }
    Ok(())
}

/// The sectors of a sound file, in the order of its records, from all its entries.
pub(crate) fn sectors_of(alloc: Global, entries: &[Entry<'_>]) -> Result<Vec<u16>, NoMemory>
    requires { AreInOrder entries.now }
    ensures { IfOk result (λ sectors. AreRecords entries.now sectors.items) }
{
    let mut sectors = Vec::new(alloc);
    for number in 0..EXTENTS {
        let Some(own) = find_extent(entries, number) else {
            return Ok(sectors);
        };
        add_records(&mut sectors, own)?;
    }
    Ok(sectors)
}
