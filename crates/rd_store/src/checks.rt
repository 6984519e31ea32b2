ghost use Rattle.std.specs.Prelude.{◌≡◌, false, IsSome, MatchBool, None, IfErr, IfOk, option_map, slice_get, ◌≢◌, map, take};
ghost use Rattle.std.specs.FinMap.{get, entries, retain_keys};
ghost use Rattle.sqlite.specs.Held.{state};
ghost use Rattle.rd_policy.specs.Days.{IsDay};
ghost use Rattle.rd_store.specs.Copied.{numbered_check};
ghost use Rattle.rd_tables.specs.Connections.{IsOpen, Moves};
ghost use Rattle.rd_store.specs.Held.{Changes, HoldsDesk, IsOf, desk, Judges, Reads};
ghost use Rattle.rd_store.specs.Latest.{HasCheckAfter, HasNoCheckAfter, checks_after, finding_in, check_shown, checkup_shown, is_of};
ghost use Rattle.rd_store.specs.Spelled.{check_spelling};
ghost use Rattle.rd_holdings.specs.State.{with_check, without_check};
ghost use Rattle.std.specs.Option.{option_to_list};
ghost use Rattle.rd_holdings.specs.Findings.{last_of, latest};

use crate::codes;
use crate::decode::{day_at, number_at, outcome};
use crate::faults::StoreFault;
use crate::store::Store;
use rd_holdings::{Finding, Outcome};
use sqlite::types::ToSql;
use sqlite::{Alter, Connection, Error, Row, Transaction, params};
use std::alloc::Global;

/// The day and the outcome of the check that a row shows.
fn read_finding(row: &Row) -> Result<Finding, StoreFault>
    ensures finding { IfOk result (λ finding. finding ≡ finding_in row.now) }
    ensures fault { IfErr result (λ fault. fault ≡ StoreFault.Sql) }
{
    let day = day_at(row, 0)?;
    let outcome = outcome(number_at(row, 1)?);
    Ok(Finding { day, outcome })
}

/// What the first of some rows shows, `None` where there are none.
fn first_finding(rows: &[Row]) -> Result<Option<Finding>, StoreFault>
    ensures finding { IfOk result (λ found. found ≡ option_map finding_in (slice_get rows.now 0)) }
    ensures fault { IfErr result (λ fault. fault ≡ StoreFault.Sql) }
{
    match rows.first() {
        Some(row) => Ok(Some(read_finding(row)?)),
        None => Ok(None),
    }
}

/// Removes the finding of a check of an accession on a day, inside a transaction.
fn delete_check<S: Alter>(tx: &mut Transaction<'_, S>, acc: u32, day: i32) -> Result<usize, Error>
    ensures same_reference { tx.new.conn.ghost_name ≡ tx.old.conn.ghost_name }
    ensures moves { (before : _) → Moves S.Store tx.old.conn.now tx.new.conn.now
        (IsOf before) (IsOf (without_check acc day before)) result }
{
    tx.execute(
        "DELETE FROM checked WHERE acc = ?1 AND day = ?2",
        params![acc, day],
    )
}

/// Puts the finding of a check of an accession on a day that has none, inside a transaction.
pub(crate) fn insert_check<S: Alter>(
    tx: &mut Transaction<'_, S>,
    acc: u32,
    day: i32,
    outcome: Outcome,
) -> Result<usize, Error>
    ensures same_reference { tx.new.conn.ghost_name ≡ tx.old.conn.ghost_name }
    ensures moves { (before : _) → get before.checks (record { acc = acc; day = day }) ≡ None → Moves S.Store tx.old.conn.now tx.new.conn.now
        (IsOf before) (IsOf (with_check acc day outcome before)) result }
{
    let code = codes::of_outcome(outcome);
    tx.execute(
        "INSERT INTO checked (acc, day, outcome) VALUES (?1, ?2, ?3)",
        params![acc, day, code],
    )
}

/// Puts the finding of a check of an accession that stands, in place of the finding of that day, if there is one.
fn write_check<S: Alter>(
    conn: &mut Connection<S>,
    acc: u32,
    day: i32,
    outcome: Outcome,
) -> Result<(), Error>
    requires mode { conn.old.in_transaction ≡ false }
    requires holds { HoldsDesk (state S.Store conn.old) }
    requires day { IsDay day }
    requires stands { IsOpen S.Store conn.old → IsSome (get (desk S.Store conn.old).images acc) }
    ensures kept { HoldsDesk (state S.Store conn.new) }
    ensures changes { Changes S.Store conn.old conn.new (with_check acc day outcome (desk S.Store conn.old)) result }
{
    let mut tx = conn.transaction();
    delete_check(&mut tx, acc, day)?;
    insert_check(&mut tx, acc, day, outcome)?;
    tx.commit()
}

/// The check that a row shows, with its accession.
fn read_check(row: &Row) -> Result<(u32, Finding), StoreFault>
    ensures check { IfOk result (λ check. check ≡ numbered_check (check_spelling.entry row.now)) }
    ensures fault { IfErr result (λ fault. fault ≡ StoreFault.Sql) }
{
    let acc = number_at(row, 0)?;
    let day = day_at(row, 1)?;
    let outcome = outcome(number_at(row, 2)?);
    Ok((acc, Finding { day, outcome }))
}

/// The checks that rows show, each with its accession.
fn read_checks(alloc: Global, rows: &[Row]) -> Result<Vec<(u32, Finding)>, StoreFault>
    ensures checks { IfOk result (λ checks. checks.items ≡ map (λ row. numbered_check (check_spelling.entry row)) rows.now) }
    ensures fault { IfErr result (λ fault. fault ≡ StoreFault.Sql) }
{
    let mut checks = Vec::new(alloc);
    for row in rows {
        let check = read_check(row)?;
        if checks.push(check).is_err() {
            return Err(StoreFault::Sql);
        }
    }
    Ok(checks)
}

impl<S: Alter> Store<S> {
    /// The rows for all checks, by accession and day.
    pub(crate) fn check_rows(&mut self) -> Result<Vec<Row>, StoreFault>
        ensures reads { Reads S.Store self.old self.new result (λ rows.
            rows.items ≡ map check_spelling.columns (entries (desk S.Store self.old).checks)) }
        ensures fault { IfErr result (λ fault. fault ≡ StoreFault.Sql) }
    {
        self.query(
            "SELECT acc, day, outcome FROM checked ORDER BY acc, day",
            &[],
        )
    }

    /// All checks, by accession and day, each with its accession. It is one query.
    ///
    /// It fails with `Sql`.
    pub(crate) fn checks(&mut self, alloc: Global) -> Result<Vec<(u32, Finding)>, StoreFault>
        ensures reads { Reads S.Store self.old self.new result (λ checks.
            checks.items ≡ map numbered_check (entries (desk S.Store self.old).checks)) }
        ensures fault { IfErr result (λ fault. fault ≡ StoreFault.Sql) }
    {
        let rows = self.check_rows()?;
        read_checks(alloc, &rows)
    }

    /// The row for the latest check of an accession; none where there was no check.
    ///
    /// It fails with `Sql`.
    fn latest_rows(&mut self, acc: u32) -> Result<Vec<Row>, StoreFault>
        ensures reads { Reads S.Store self.old self.new result (λ rows.
            rows.items ≡ map check_shown (option_to_list (last_of (entries (retain_keys (desk S.Store self.old).checks (is_of acc)))))) }
        ensures fault { IfErr result (λ fault. fault ≡ StoreFault.Sql) }
    {
        let key = acc.to_sql();
        self.query(
            "SELECT day, outcome FROM checked WHERE acc = ?1 ORDER BY day DESC LIMIT 1",
            &[key],
        )
    }

    /// What the latest check of an accession, 1 to 999,999, found, and on which day; `None` where there was none. It
    /// is one query, for one row.
    ///
    /// It fails with `Sql`.
    pub fn latest_check(&mut self, acc: u32) -> Result<Option<Finding>, StoreFault>
        ensures reads { Reads S.Store self.old self.new result (λ found.
            found ≡ latest (desk S.Store self.old) acc) }
        ensures fault { IfErr result (λ fault. fault ≡ StoreFault.Sql) }
    {
        let rows = self.latest_rows(acc)?;
        first_finding(&rows)
    }

    /// The row for the first check of a later day than this one, with its accession and its day; none where there is
    /// no such check.
    ///
    /// It fails with `Sql`.
    fn later_rows(&mut self, day: i32) -> Result<Vec<Row>, StoreFault>
        ensures reads { Reads S.Store self.old self.new result (λ rows.
            rows.items ≡ map checkup_shown (take 1 (checks_after day (desk S.Store self.old)))) }
        ensures fault { IfErr result (λ fault. fault ≡ StoreFault.Sql) }
    {
        let from = day.to_sql();
        self.query(
            "SELECT acc, day FROM checked WHERE day > ?1 ORDER BY acc, day LIMIT 1",
            &[from],
        )
    }

    /// Whether a check of a later day than this one, counted from 1970-01-01, is recorded; the day may be any number. It
    /// is one query, for one row.
    ///
    /// It fails with `Sql`.
    pub fn has_check_after(&mut self, day: i32) -> Result<bool, StoreFault>
        ensures reads { Reads S.Store self.old self.new result (λ found. MatchBool found
            (HasCheckAfter day (desk S.Store self.old)) (HasNoCheckAfter day (desk S.Store self.old))) }
        ensures fault { IfErr result (λ fault. fault ≡ StoreFault.Sql) }
    {
        let rows = self.later_rows(day)?;
        Ok(!rows.is_empty())
    }

    /// Puts the finding of a check of an accession, 1 to 999,999, on a day of the years 1 to 9999
    /// (`is_day`), counted from 1970-01-01, in place of the finding of that day, if there is one.
    ///
    /// It fails with `Missing` where there is no such accession, and with `Sql`.
    pub fn put_check(&mut self, acc: u32, day: i32, outcome: Outcome) -> Result<(), StoreFault>
        requires day { IsDay day }
        ensures changes { Changes S.Store self.old self.new (with_check acc day outcome (desk S.Store self.old)) result }
        ensures judges { Judges S.Store self.new result (IsSome (get (desk S.Store self.old).images acc)) ⊥ }
        ensures fault { IfErr result (λ fault. fault ≢ StoreFault.Conflict) }
    {
        if !self.stands(acc)? {
            return Err(StoreFault::Missing);
        }
        self.outside_transaction()?;
        match write_check(&mut self.conn, acc, day, outcome) {
            Ok(()) => Ok(()),
            Err(_) => Err(StoreFault::Sql),
        }
    }
}
