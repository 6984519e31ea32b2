ghost use Rattle.std.specs.Prelude.{◌≡◌, IfOk, IfErr, IsSome, None, is_some, map, false};
ghost use Rattle.std.specs.FinMap.{get, entries};
ghost use Rattle.sqlite.specs.Held.{state};
ghost use Rattle.rd_tables.specs.Connections.{IsOpen, Moves};
ghost use Rattle.rd_store.specs.Held.{Changes, HoldsDesk, IsOf, desk, Reads};
ghost use Rattle.rd_holdings.specs.Lawful.{IsDeed};
ghost use Rattle.rd_store.specs.Shown.{deed_shown};
ghost use Rattle.rd_store.specs.Spelled.{deed_spelling};
ghost use Rattle.rd_holdings.specs.State.{with_deed};
ghost use Rattle.std.specs.Option.{option_to_list};

use crate::decode::{day_at, number_at, text_at};
use crate::faults::StoreFault;
use crate::store::Store;
use rd_geometry::Text;
use rd_holdings::DeedRow;
use sqlite::types::ToSql;
use sqlite::{Alter, Connection, Error, Row, Transaction, params};
use std::alloc::Global;

/// The deed that a row shows.
fn read_deed(row: &Row) -> Result<DeedRow, StoreFault>
    ensures deed { IfOk result (λ read. (deed : DeedRow) → row.now ≡ deed_shown deed → read ≡ deed) }
    ensures fault { IfErr result (λ fault. fault ≡ StoreFault.Sql) }
{
    let donor = Text::of(text_at(row, 0)?);
    let signed = day_at(row, 1)?;
    Ok(DeedRow { donor, signed })
}

/// The deed that a row shows, with its number.
fn read_numbered(row: &Row) -> Result<(u32, DeedRow), StoreFault>
    ensures entry { IfOk result (λ entry. entry ≡ deed_spelling.entry row.now) }
    ensures fault { IfErr result (λ fault. fault ≡ StoreFault.Sql) }
{
    let num = number_at(row, 0)?;
    let donor = Text::of(text_at(row, 1)?);
    let signed = day_at(row, 2)?;
    Ok((num, DeedRow { donor, signed }))
}

/// The deeds that rows show, with their numbers.
fn read_deeds(alloc: Global, rows: &[Row]) -> Result<Vec<(u32, DeedRow)>, StoreFault>
    ensures entries { IfOk result (λ deeds. deeds.items ≡ map deed_spelling.entry rows.now) }
    ensures fault { IfErr result (λ fault. fault ≡ StoreFault.Sql) }
{
    let mut deeds = Vec::new(alloc);
    for row in rows {
        let entry = read_numbered(row)?;
        if deeds.push(entry).is_err() {
            return Err(StoreFault::Sql);
        }
    }
    Ok(deeds)
}

/// Writes a deed in place of the one with its number.
fn update_deed<S: Alter>(
    conn: &mut Connection<S>,
    num: u32,
    donor: &str,
    signed: i32,
) -> Result<usize, Error>
    requires mode { conn.old.in_transaction ≡ false }
    requires holds { HoldsDesk (state S.Store conn.old) }
    requires deed { IsDeed num (record { donor = donor.now; signed = signed }) }
    requires stands { IsOpen S.Store conn.old → IsSome (get (desk S.Store conn.old).deeds num) }
    ensures kept { HoldsDesk (state S.Store conn.new) }
    ensures changes { Changes S.Store conn.old conn.new
        (with_deed num (record { donor = donor.now; signed = signed }) (desk S.Store conn.old)) result }
{
    conn.execute(
        "UPDATE deed SET donor = ?2, signed = ?3 WHERE num = ?1",
        params![num, donor, signed],
    )
}

/// Puts a deed where none stands.
fn insert_deed<S: Alter>(
    conn: &mut Connection<S>,
    num: u32,
    donor: &str,
    signed: i32,
) -> Result<usize, Error>
    requires mode { conn.old.in_transaction ≡ false }
    requires holds { HoldsDesk (state S.Store conn.old) }
    requires deed { IsDeed num (record { donor = donor.now; signed = signed }) }
    requires free { IsOpen S.Store conn.old → get (desk S.Store conn.old).deeds num ≡ None }
    ensures kept { HoldsDesk (state S.Store conn.new) }
    ensures changes { Changes S.Store conn.old conn.new
        (with_deed num (record { donor = donor.now; signed = signed }) (desk S.Store conn.old)) result }
{
    conn.execute(
        "INSERT INTO deed (num, donor, signed) VALUES (?1, ?2, ?3)",
        params![num, donor, signed],
    )
}

/// Puts a deed where none stands, inside a transaction.
pub(crate) fn insert_deed_in<S: Alter>(
    tx: &mut Transaction<'_, S>,
    num: u32,
    donor: &str,
    signed: i32,
) -> Result<usize, Error>
    ensures same_reference { tx.new.conn.ghost_name ≡ tx.old.conn.ghost_name }
    ensures moves { (before : _) → get before.deeds num ≡ None → Moves S.Store tx.old.conn.now tx.new.conn.now
        (IsOf before) (IsOf (with_deed num (record { donor = donor.now; signed = signed }) before)) result }
{
    tx.execute(
        "INSERT INTO deed (num, donor, signed) VALUES (?1, ?2, ?3)",
        params![num, donor, signed],
    )
}

/// Puts a deed, in place of the one with its number if it `stands`. An UPDATE keeps the number, so that no foreign
/// key of an image is looked at; REPLACE deletes the row first, which checks these keys.
fn write_deed<S: Alter>(
    conn: &mut Connection<S>,
    stands: bool,
    num: u32,
    donor: &str,
    signed: i32,
) -> Result<usize, Error>
    requires mode { conn.old.in_transaction ≡ false }
    requires holds { HoldsDesk (state S.Store conn.old) }
    requires deed { IsDeed num (record { donor = donor.now; signed = signed }) }
    requires stands { IsOpen S.Store conn.old → stands ≡ is_some (get (desk S.Store conn.old).deeds num) }
    ensures kept { HoldsDesk (state S.Store conn.new) }
    ensures changes { Changes S.Store conn.old conn.new
        (with_deed num (record { donor = donor.now; signed = signed }) (desk S.Store conn.old)) result }
{
    if stands {
        update_deed(conn, num, donor, signed)
    } else {
        insert_deed(conn, num, donor, signed)
    }
}

impl<S: Alter> Store<S> {
    /// The rows for the deed with a number.
    fn deed_rows(&mut self, num: u32) -> Result<Vec<Row>, StoreFault>
        ensures reads { Reads S.Store self.old self.new result (λ rows.
            rows.items ≡ map deed_shown (option_to_list (get (desk S.Store self.old).deeds num))) }
        ensures fault { IfErr result (λ fault. fault ≡ StoreFault.Sql) }
    {
        let key = num.to_sql();
        self.query("SELECT donor, signed FROM deed WHERE num = ?1", &[key])
    }

    /// The deed with a number, 1 to 999,999; `None` where there is none.
    ///
    /// It fails with `Sql`.
    pub fn deed(&mut self, num: u32) -> Result<Option<DeedRow>, StoreFault>
        ensures reads { Reads S.Store self.old self.new result (λ found.
            found ≡ get (desk S.Store self.old).deeds num) }
        ensures fault { IfErr result (λ fault. fault ≡ StoreFault.Sql) }
    {
        let rows = self.deed_rows(num)?;
        match rows.first() {
            Some(row) => Ok(Some(read_deed(row)?)),
            None => Ok(None),
        }
    }

    /// The rows for all deeds, by number.
    pub(crate) fn numbered_rows(&mut self) -> Result<Vec<Row>, StoreFault>
        ensures reads { Reads S.Store self.old self.new result (λ rows.
            rows.items ≡ map deed_spelling.columns (entries (desk S.Store self.old).deeds)) }
        ensures fault { IfErr result (λ fault. fault ≡ StoreFault.Sql) }
    {
        self.query("SELECT num, donor, signed FROM deed ORDER BY num", &[])
    }

    /// All deeds, by number. It is one query.
    ///
    /// It fails with `Sql`.
    pub fn deeds(&mut self, alloc: Global) -> Result<Vec<(u32, DeedRow)>, StoreFault>
        ensures reads { Reads S.Store self.old self.new result (λ deeds.
            deeds.items ≡ entries (desk S.Store self.old).deeds) }
        ensures fault { IfErr result (λ fault. fault ≡ StoreFault.Sql) }
    {
        let rows = self.numbered_rows()?;
        read_deeds(alloc, &rows)
    }

    /// Puts a deed, in place of the one with its number, if there is one. The number is 1 to 999,999, the donor
    /// a text of 1 to 1,000 bytes, none below 20 hex (`is_donor`), and the day on which they signed, counted
    /// from 1970-01-01, is of the years 1 to 9999.
    ///
    /// It fails with `Sql`.
    pub fn put_deed(&mut self, num: u32, donor: &str, signed: i32) -> Result<(), StoreFault>
        requires deed { IsDeed num (record { donor = donor.now; signed = signed }) }
        ensures changes { Changes S.Store self.old self.new
            (with_deed num (record { donor = donor.now; signed = signed }) (desk S.Store self.old)) result }
        ensures fault { IfErr result (λ fault. fault ≡ StoreFault.Sql) }
    {
        let found = self.deed(num)?;
        self.outside_transaction()?;
        match write_deed(&mut self.conn, found.is_some(), num, donor, signed) {
            Ok(_) => Ok(()),
            Err(_) => Err(StoreFault::Sql),
        }
    }
}
