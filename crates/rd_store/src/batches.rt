//! Accessions that follow each other, each with its kind, its deed and its files: from the register and the index, without
//! a look at an image.

ghost use Rattle.std.specs.Prelude.{◌≡◌, ◌<◌, ◌-◌, ℕ, T, List, IfOk, IfErr, drop, length, map, slice_index_or, take};
ghost use Rattle.std.specs.List.{AllZip};
ghost use Rattle.std.specs.FinMap.{entries, retain_keys};
ghost use Rattle.std.specs.FinMap.Entries.{is_sorted};
ghost use Rattle.sqlite.specs.Held.{state};
ghost use Rattle.sqlite.specs.Order.{column};
ghost use Rattle.rd_volume.specs.declared.found.Found.{Found as FoundFile};
ghost use Rattle.rd_store.specs.declared.images.Heading.{Heading as Entry};
ghost use Rattle.rd_store.specs.Batched.{IsIndexed, IsIndexedBy, filed_shown, files_at, is_from_to, is_number_below, is_number_up_to};
ghost use Rattle.rd_tables.specs.Connections.{Asks};
ghost use Rattle.rd_store.specs.Held.{HoldsDesk, desk, Reads};
ghost use Rattle.rd_store.specs.Index.{FileAt, file_cmp};
ghost use Rattle.rd_store.specs.Spelled.{index_of};

use crate::faults::StoreFault;
use crate::files::read_files;
use crate::images::Heading;
use crate::read::read_all;
use crate::store::Store;
use rd_geometry::Items;
use rd_holdings::Indexed;
use sqlite::types::{ToSql, ValueRef};
use sqlite::{Alter, Connection, Row};
use std::alloc::Global;

/// The rows of the index for the accessions from one to another, by accession and then by slot. Their last column has
/// the accession.
fn batch_rows<S: Alter>(
    conn: &mut Connection<S>,
    first: u32,
    last: u32,
) -> Result<Vec<Row>, StoreFault>
    requires holds { HoldsDesk (state S.Store conn.old) }
    ensures asks { Asks S.Store conn.old conn.new result StoreFault.Sql (λ rows.
        rows.items ≡ map filed_shown (entries (retain_keys (index_of (state S.Store conn.old).now.trees) (λ at. is_from_to first last at.acc)))) }
    ensures kept { HoldsDesk (state S.Store conn.new) }
{
    let from = first.to_sql();
    let to = last.to_sql();
    read_all(
        conn,
        "SELECT slot, name, ty, user_no, served, size, faults, units, last_len, acc FROM found WHERE acc >= ?1 AND acc <= ?2 ORDER BY acc, slot",
        &[from, to],
    )
}

/// Whether the last column of a row has a number below an accession.
fn is_below(row: &Row, acc: u32) -> bool
    ensures { result ≡ is_number_below acc (column row.now 9) }
{
    match row.get_ref(9) {
        Ok(ValueRef::Int(number)) => number < i64::from(acc),
        _ => false,
    }
}

/// Whether it has such a number, or the accession itself.
fn is_up_to(row: &Row, acc: u32) -> bool
    ensures { result ≡ is_number_up_to acc (column row.now 9) }
{
    match row.get_ref(9) {
        Ok(ValueRef::Int(number)) => number <= i64::from(acc),
        _ => false,
    }
}

/// The rows of an accession, among rows of the index by accession.
fn rows_of(rows: &[Row], acc: u32) -> &[Row]
    ensures { (es : List (FileAt × FoundFile)) → T (is_sorted file_cmp es) → rows.now ≡ map filed_shown es → result.now ≡ map filed_shown (files_at acc es) }
{
    let from = rows.partition_point(
        |row: &Row| -> bool
            ensures { result ≡ is_number_below acc (column row.now 9) }
        { is_below(row, acc) },
    );
    let rest = &rows[from..];
    let to = rest.partition_point(
        |row: &Row| -> bool
            ensures { result ≡ is_number_up_to acc (column row.now 9) }
        { is_up_to(row, acc) },
    );
    &rest[..to]
}

/// An accession, with its files from rows of the index by accession.
fn index_one(alloc: Global, rows: &[Row], entry: &(u32, Heading)) -> Result<Indexed, StoreFault>
    ensures one { IfOk result (IsIndexedBy rows.now entry.now) }
    ensures fault { IfErr result (λ fault. fault ≡ StoreFault.Sql) }
{
    let (acc, heading) = *entry;
    let files = read_files(alloc, rows_of(rows, acc))?;
    Ok(Indexed {
        acc,
        kind: heading.kind,
        deed: heading.deed,
        files: Items::of(files),
    })
}

/// Each of these accessions, with its files from rows of the index by accession.
fn index_each(
    alloc: Global,
    rows: &[Row],
    entries: &[(u32, Heading)],
) -> Result<Vec<Indexed>, StoreFault>
    ensures each { IfOk result (λ batch. AllZip (IsIndexedBy rows.now) entries.now batch.items) }
    ensures fault { IfErr result (λ fault. fault ≡ StoreFault.Sql) }
{
    let mut batch = Vec::new(alloc);
    for entry in entries {
        let one = index_one(alloc, rows, entry)?;
        let Ok(()) = batch.push(one) else {
            return Err(StoreFault::Sql);
        };
    }
    Ok(batch)
}

/// The accession at a place.
fn accession_at(entries: &[(u32, Heading)], at: usize) -> u32
    requires { at < length entries.now }
    ensures { (d : ℕ × Entry) → result ≡ (slice_index_or entries.now at d).0 }
{
    entries[at].0
}

/// The first and the last of ascending accessions. Where there are none, the two numbers mean nothing.
fn bounds(entries: &[(u32, Heading)]) -> (u32, u32)
    ensures { (d : ℕ × Entry) → 0 < length entries.now
        → (result.0 ≡ (slice_index_or entries.now 0 d).0) × (result.1 ≡ (slice_index_or entries.now (length entries.now - 1) d).0) }
{
    if entries.is_empty() {
        return (0, 0);
    }
    (
        accession_at(entries, 0),
        accession_at(entries, entries.len() - 1),
    )
}

impl<S: Alter> Store<S> {
    /// At most `most` accessions, ascending, from the place `from` among all of them, counted from 0: each with its
    /// kind, its deed, and its files as `found` gives them. One query gives all their files, and no image is read.
    ///
    /// It fails with `Sql`.
    pub fn batch(
        &mut self,
        alloc: Global,
        from: usize,
        most: usize,
    ) -> Result<Vec<Indexed>, StoreFault>
        ensures reads { Reads S.Store self.old self.new result (λ batch.
            AllZip IsIndexed (take most (drop from (entries (desk S.Store self.old).images))) batch.items) }
        ensures fault { IfErr result (λ fault. fault ≡ StoreFault.Sql) }
    {
        // The index answers before the register is used: that shows that the connection is open, and so that the register
        // is that of the desk.
        let entries = self.register.part(from, most);
        let (first, last) = bounds(entries);
        let rows = batch_rows(&mut self.conn, first, last)?;
        index_each(alloc, &rows, entries)
    }
}
