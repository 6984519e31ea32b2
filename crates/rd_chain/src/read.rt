ghost use Rattle.std.specs.Prelude.{◌≡◌, ◌∷◌, ◌++◌, [], IfErr, IfOk, IsTrue, MatchOption, OnOk, map};
ghost use Rattle.sqlite.specs.Effect.{IsDatabase};
ghost use Rattle.sqlite.specs.Held.{state};
ghost use Rattle.sqlite.specs.Order.{column};
ghost use Rattle.sqlite.specs.State.{Shown};
ghost use Rattle.sqlite.specs.Values.{bound};
ghost use Rattle.sqlite_value.specs.Order.{bytes};
ghost use Rattle.rd_tables.specs.Connections.{Asks, IsReadable, RestsOver};
ghost use Rattle.rd_chain.specs.Inside.{AreAllRows, AreLaterRows, AreRowsOfLines, IsNextRow, JudgesRows, end_of, lines_in, next_end, shown};
ghost use Rattle.rd_chain.specs.Rows.{history_schema, row_of};

use crate::faults::{ChainFault, OpenFault};
use crate::sum::{End, MOST_LINES};
use sqlite::types::{ToSql, ValueRef};
use sqlite::{Alter, Connection, Row};
use std::alloc::Global;

/// A line of a chain, with its number and its sum.
#[derive(Debug, Drop)]
pub struct SummedLine {
    /// Its number, from 1 on.
    pub number: u32,
    /// The line, as bytes: a file may hold a text that is not UTF-8.
    pub line: Vec<u8>,
    /// The SHA-256 of the sum before it, followed by the line.
    pub sum: [u8; 32],
}

/// All rows that a query shows, over the table that stands.
fn read_rows<S: Alter>(
    conn: &mut Connection<S>,
    sql: &str,
    params: &[ValueRef<'_>],
) -> Result<Vec<Row>, ChainFault>
    requires readable { IsTrue (state S.Store conn.old).is_open → IsReadable sql.now (state S.Store conn.old) }
    ensures asks { Asks S.Store conn.old conn.new result ChainFault.Sql (λ rows.
        Shown sql.now (bound params.now) (state S.Store conn.old) (state S.Store conn.new) rows.items) }
{
    match conn.query_all(sql, params) {
        Ok(rows) => Ok(rows),
        Err(_) => Err(ChainFault::Sql),
    }
}

/// All rows of the table, by number.
fn all_rows<S: Alter>(conn: &mut Connection<S>) -> Result<Vec<Row>, ChainFault>
    requires rests { IsTrue (state S.Store conn.old).is_open → RestsOver history_schema (state S.Store conn.old) }
    ensures asks { Asks S.Store conn.old conn.new result ChainFault.Sql (λ rows.
        AreAllRows (state S.Store conn.old).now.trees rows.items) }
{
    read_rows(conn, "SELECT seq, line, sum FROM history ORDER BY seq", &[])
}

/// The rows of the first lines after a number, 200 at most.
pub(crate) fn later_rows<S: Alter>(
    conn: &mut Connection<S>,
    after: u32,
) -> Result<Vec<Row>, ChainFault>
    requires rests { IsTrue (state S.Store conn.old).is_open → RestsOver history_schema (state S.Store conn.old) }
    ensures asks { Asks S.Store conn.old conn.new result ChainFault.Sql (λ rows.
        AreLaterRows after (state S.Store conn.old).now.trees rows.items) }
{
    let key = after.to_sql();
    read_rows(
        conn,
        "SELECT seq, line, sum FROM history WHERE seq > ?1 ORDER BY seq LIMIT 200",
        &[key],
    )
}

/// Where the lines end with the next one, if this is its row: it has the next number, a text, and the sum of it.
fn end_after(end: &End, row: &Row) -> Option<End>
    ensures { MatchOption result (¬ IsNextRow end.now row.now) (λ next. IsNextRow end.now row.now × (next ≡ next_end end.now (bytes (column row.now 1)))) }
{
    let Ok(ValueRef::Int(number)) = row.get_ref(0) else {
        return None;
    };
    let Ok(ValueRef::Text(line)) = row.get_ref(1) else {
        return None;
    };
    let Ok(ValueRef::Blob(sum)) = row.get_ref(2) else {
        return None;
    };
    if end.number >= MOST_LINES {
        return None;
    }
    let next = end.next(line);
    if number == i64::from(next.number) && sum == next.sum.as_slice() {
        Some(next)
    } else {
        None
    }
}

/// Where the lines end whose rows these are, if they are the rows of lines: numbers from 1 without a gap, at most
/// 999,999,999, and each sum over the one before and the line.
fn end_of_rows(rows: &[Row]) -> Option<End>
    ensures { MatchOption result (¬ AreRowsOfLines rows.now) (λ end. AreRowsOfLines rows.now × (end ≡ end_of (lines_in rows.now))) }
{
    let mut end = End::start();
    for row in rows {
        end = end_after(&end, row)?;
    }
    Some(end)
}

/// Where the lines of a chain end, if the rows of its table are those of lines.
pub(crate) fn judge<S: Alter>(conn: &mut Connection<S>) -> Result<End, OpenFault>
    requires rests { IsTrue (state S.Store conn.old).is_open → RestsOver history_schema (state S.Store conn.old) }
    requires sound { IsTrue (state S.Store conn.old).is_open → IsDatabase (state S.Store conn.old).now }
    ensures judges { JudgesRows S.Store conn.old conn.new result }
{
    let Ok(rows) = all_rows(conn) else {
        return Err(OpenFault::Sql);
    };
    match end_of_rows(&rows) {
        Some(end) => Ok(end),
        None => Err(OpenFault::Broken),
    }
}

/// The line of a row.
fn summed_line(alloc: Global, row: &Row) -> Result<SummedLine, ChainFault>
    ensures columns { IfOk result (λ line. shown row.now ≡ row_of line) }
    ensures fault { IfErr result (λ fault. fault ≡ ChainFault.Sql) }
{
    let Ok(ValueRef::Int(number)) = row.get_ref(0) else {
        return Err(ChainFault::Sql);
    };
    let Ok(ValueRef::Text(line)) = row.get_ref(1) else {
        return Err(ChainFault::Sql);
    };
    let Ok(ValueRef::Blob(sum)) = row.get_ref(2) else {
        return Err(ChainFault::Sql);
    };
    let number = u32::try_from(number).map_err(|_| ChainFault::Sql)?;
    let line = Vec::from_slice(alloc, line).map_err(|_| ChainFault::Sql)?;
    let sum = <[u8; 32]>::try_from(sum).map_err(|_| ChainFault::Sql)?;
    Ok(SummedLine { number, line, sum })
}

/// Puts a line after the others.
fn put_last(lines: &mut Vec<SummedLine>, line: SummedLine) -> Result<(), ChainFault>
    ensures items { OnOk result (lines.new.items ≡ lines.old.items ++ line ∷ []) }
    ensures fault { IfErr result (λ fault. fault ≡ ChainFault.Sql) }
{
    match lines.push(line) {
        Ok(()) => Ok(()),
        Err(_) => Err(ChainFault::Sql),
    }
}

/// The lines of rows.
pub(crate) fn summed_lines(alloc: Global, rows: &[Row]) -> Result<Vec<SummedLine>, ChainFault>
    ensures columns { IfOk result (λ lines. map row_of lines.items ≡ map shown rows.now) }
    ensures fault { IfErr result (λ fault. fault ≡ ChainFault.Sql) }
{
    let mut lines = Vec::new(alloc);
    for row in rows {
        let line = summed_line(alloc, row)?;
        put_last(&mut lines, line)?;
    }
    Ok(lines)
}
