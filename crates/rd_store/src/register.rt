//! The register: what the store keeps in memory of each image, which is all but its bytes.

ghost use Rattle.std.specs.Prelude.{◌≡◌, ◌<◌, ◌≤◌, ℕ, [], IfOk, IfErr, None, OnErr, OnOk, drop, length, map, option_map, slice_index_or, take, vec_capacity, vec_len};
ghost use Rattle.std.specs.List.{insert as insert_at};
ghost use Rattle.std.specs.List.Sorted.{IsSearchInRange};
ghost use Rattle.std.specs.Ordering.{nat_cmp};
ghost use Rattle.std.specs.FinMap.{FinMap, get, insert};
ghost use Rattle.rd_store.specs.declared.images.Heading.{Heading as Entry};
ghost use Rattle.rd_holdings.specs.declared.rows.ImageRow.{ImageRow};
ghost use Rattle.rd_store.specs.Register.{HasRoom, IsPlaceIn, entry_for, numbered_accession, accession_of_heading, listed, number_of, register_of};
ghost use Rattle.rd_store.specs.Shown.{heading_of};

use crate::faults::StoreFault;
use crate::images::Heading;
use rd_holdings::Accession;
use std::alloc::Global;

/// All accessions, ascending, each with what is kept of its image: 44 bytes.
#[derive(Drop)]
pub(crate) struct Register {
    /// `None` until room was first made: a new desk has no entries, and takes no memory for them.
    pub(crate) entries: Option<Vec<(u32, Heading)>>,
}

/// Where an accession is among ascending ones, or where it would go.
fn place(entries: &[(u32, Heading)], acc: u32) -> Result<usize, usize>
    ensures bound { IsSearchInRange result (length entries.now) }
    ensures place { (images : FinMap nat_cmp ImageRow) → entries.now ≡ register_of images → IsPlaceIn images acc result }
{
    entries.binary_search_by_key(&acc, |entry| entry.0)
}

/// Where an accession would go among ascending ones, of which it is none.
fn place_for(entries: &[(u32, Heading)], acc: u32) -> usize
    ensures bound { result ≤ length entries.now }
    ensures place { (images : FinMap nat_cmp ImageRow) (image : ImageRow) → entries.now ≡ register_of images → get images acc ≡ None
        → insert_at entries.now result (entry_for (acc, image)) ≡ register_of (insert images acc image) }
{
    match place(entries, acc) {
        Ok(at) => at,
        Err(at) => at,
    }
}

/// The heading of the image at a place of the register, counted from 0: its entry without the accession.
fn heading_in(entries: &[(u32, Heading)], at: usize) -> Heading
    requires { at < length entries.now }
    ensures { (d : ℕ × Entry) → result ≡ (slice_index_or entries.now at d).1 }
{
    entries[at].1
}

/// The accessions alone.
fn numbers_in(alloc: Global, entries: &[(u32, Heading)]) -> Result<Vec<u32>, StoreFault>
    ensures numbers { IfOk result (λ numbers. numbers.items ≡ map number_of entries.now) }
    ensures fault { IfErr result (λ fault. fault ≡ StoreFault.Sql) }
{
    let mut numbers = Vec::new(alloc);
    for entry in entries {
        if numbers.push(entry.0).is_err() {
            return Err(StoreFault::Sql);
        }
    }
    Ok(numbers)
}

/// The kind and the deed of an accession.
pub(crate) fn accession_from(heading: Heading) -> Accession
    ensures { result ≡ accession_of_heading heading }
{
    Accession {
        kind: heading.kind,
        deed: heading.deed,
    }
}

/// The accessions, each with its kind and its deed.
fn numbered_in(
    alloc: Global,
    entries: &[(u32, Heading)],
) -> Result<Vec<(u32, Accession)>, StoreFault>
    ensures numbered { IfOk result (λ numbered. numbered.items ≡ map numbered_accession entries.now) }
    ensures fault { IfErr result (λ fault. fault ≡ StoreFault.Sql) }
{
    let mut numbered = Vec::new(alloc);
    for entry in entries {
        let (acc, heading) = *entry;
        if numbered.push((acc, accession_from(heading))).is_err() {
            return Err(StoreFault::Sql);
        }
    }
    Ok(numbered)
}

impl Register {
    /// A register without accessions.
    pub(crate) fn empty() -> Register
        ensures { listed result ≡ [] }
    {
        Register { entries: None }
    }

    /// The register of these accessions, which ascend.
    pub(crate) fn of(entries: Vec<(u32, Heading)>) -> Register
        ensures { listed result ≡ entries.items }
    {
        Register {
            entries: Some(entries),
        }
    }

    /// The accessions, ascending.
    fn as_slice(&self) -> &[(u32, Heading)]
        ensures { result.now ≡ listed self.now }
    {
        match &self.entries {
            Some(entries) => entries.as_slice(),
            None => &[],
        }
    }

    /// The accessions from a place on, in their order and at most so many.
    pub(crate) fn part(&self, from: usize, most: usize) -> &[(u32, Heading)]
        ensures { result.now ≡ take most (drop from (listed self.now)) }
    {
        let entries = self.as_slice();
        let rest = &entries[from.min(entries.len())..];
        &rest[..most.min(rest.len())]
    }

    /// What is kept of an accession, `None` where it is not there.
    pub(crate) fn find(&self, acc: u32) -> Option<Heading>
        ensures { (images : FinMap nat_cmp ImageRow) → listed self.now ≡ register_of images → result ≡ option_map heading_of (get images acc) }
    {
        let entries = self.as_slice();
        match place(entries, acc) {
            Ok(at) => Some(heading_in(entries, at)),
            Err(_) => None,
        }
    }

    /// All accessions, ascending.
    pub(crate) fn accessions(&self, alloc: Global) -> Result<Vec<u32>, StoreFault>
        ensures numbers { IfOk result (λ numbers. numbers.items ≡ map number_of (listed self.now)) }
        ensures fault { IfErr result (λ fault. fault ≡ StoreFault.Sql) }
    {
        numbers_in(alloc, self.as_slice())
    }

    /// All accessions, ascending, each with its kind and its deed.
    pub(crate) fn numbered(&self, alloc: Global) -> Result<Vec<(u32, Accession)>, StoreFault>
        ensures numbered { IfOk result (λ numbered. numbered.items ≡ map numbered_accession (listed self.now)) }
        ensures fault { IfErr result (λ fault. fault ≡ StoreFault.Sql) }
    {
        numbered_in(alloc, self.as_slice())
    }

    /// Takes the accessions out, with the room that they have.
    fn taken(&mut self, alloc: Global) -> Vec<(u32, Heading)>
        ensures taken { result.items ≡ listed self.old }
        ensures room { HasRoom self.old → vec_len result < vec_capacity result }
    {
        match self.entries.take() {
            Some(entries) => entries,
            None => Vec::new(alloc),
        }
    }

    /// Makes room for one more accession, so that to put it takes no memory. It fails only where there is none.
    pub(crate) fn reserve(&mut self, alloc: Global) -> Result<(), StoreFault>
        ensures same { listed self.new ≡ listed self.old }
        ensures room { OnOk result (HasRoom self.new) }
        ensures full { OnErr result (¬ HasRoom self.old) }
        ensures fault { IfErr result (λ fault. fault ≡ StoreFault.Sql) }
    {
        let mut entries = self.taken(alloc);
        let reserved = entries.reserve(1);
        self.entries = Some(entries);
        match reserved {
            Ok(()) => Ok(()),
            Err(_) => Err(StoreFault::Sql),
        }
    }

    /// Puts an accession that is not there. There is room for it, so this takes no memory and cannot fail.
    pub(crate) fn insert(&mut self, acc: u32, heading: Heading)
        requires room { HasRoom self.old }
        ensures put { (images : FinMap nat_cmp ImageRow) (image : ImageRow) → listed self.old ≡ register_of images → get images acc ≡ None
            → heading ≡ heading_of image → listed self.new ≡ register_of (insert images acc image) }
    {
        let Some(mut entries) = self.entries.take() else {
            return;
        };
        let at = place_for(entries.as_slice(), acc);
        let _inserted = entries.insert(at, (acc, heading));
        self.entries = Some(entries);
    }
}
