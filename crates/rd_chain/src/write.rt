ghost use Rattle.std.specs.Prelude.{◌≡◌, ◌∷◌, ◌++◌, ◌+◌, ◌<◌, ◌≤◌, [], false, length, map, IfOk};
ghost use Rattle.sqlite.specs.Held.{state};
ghost use Rattle.rd_tables.specs.Connections.{IsOpen, Moves, RestsIn, Turns};
ghost use Rattle.rd_chain.specs.Held.{Appends, HoldsChain};
ghost use Rattle.rd_chain.specs.Inside.{EndsAt, IsEmpty, IsEndOf, end_with, next_end};
ghost use Rattle.rd_chain.specs.Rows.{IsChainOf, MOST_LINES};

use crate::sum::End;
use sqlite::{Alter, Connection, Error, Transaction, params};

/// Makes the table, inside a transaction.
fn make_table<S: Alter>(tx: &mut Transaction<'_, S>) -> Result<usize, Error>
    ensures same_reference { tx.new.conn.ghost_name ≡ tx.old.conn.ghost_name }
    ensures moves { Moves S.Store tx.old.conn.now tx.new.conn.now IsEmpty (IsChainOf []) result }
{
    tx.execute(
        "CREATE TABLE history (seq INTEGER PRIMARY KEY, line TEXT NOT NULL, sum BLOB NOT NULL) STRICT",
        &[],
    )
}

/// Makes the table in an empty database.
pub(crate) fn write_table<S: Alter>(conn: &mut Connection<S>) -> Result<(), Error>
    requires mode { conn.old.in_transaction ≡ false }
    requires start { IsOpen S.Store conn.old → RestsIn IsEmpty (state S.Store conn.old) }
    ensures turns { Turns S.Store conn.old conn.new (IsChainOf []) result }
{
    let mut tx = conn.transaction();
    make_table(&mut tx)?;
    tx.commit()
}

/// Puts a line at the end, inside a transaction, and says where the lines end then.
fn insert_line<S: Alter>(tx: &mut Transaction<'_, S>, end: &End, line: &str) -> Result<End, Error>
    requires few { end.now.number < MOST_LINES }
    ensures same_reference { tx.new.conn.ghost_name ≡ tx.old.conn.ghost_name }
    ensures next { IfOk result (λ next. next ≡ next_end end.now line.now) }
    ensures moves { (before : _) → Moves S.Store tx.old.conn.now tx.new.conn.now
        (EndsAt end.now before) (EndsAt (next_end end.now line.now) (before ++ line.now ∷ [])) result }
{
    let next = end.next(line.as_bytes());
    let sum = next.sum.as_slice();
    tx.execute(
        "INSERT INTO history (seq, line, sum) VALUES (?1, ?2, ?3)",
        params![next.number, line, sum],
    )?;
    Ok(next)
}

/// Puts lines at the end, inside a transaction, and says where the lines end then.
fn insert_lines<S: Alter>(
    tx: &mut Transaction<'_, S>,
    end: &End,
    lines: &[&str],
) -> Result<End, Error>
    requires few { end.now.number + length lines.now ≤ MOST_LINES }
    ensures same_reference { tx.new.conn.ghost_name ≡ tx.old.conn.ghost_name }
    ensures last { IfOk result (λ last. last ≡ end_with end.now (map (λ line. line.now) lines.now)) }
    ensures moves { (before : _) → Moves S.Store tx.old.conn.now tx.new.conn.now
        (EndsAt end.now before) (EndsAt (end_with end.now (map (λ line. line.now) lines.now)) (before ++ map (λ line. line.now) lines.now)) result }
{
    let mut last = *end;
    for line in lines {
        last = insert_line(tx, &last, line)?;
    }
    Ok(last)
}

/// Puts lines at the end, in one transaction, and says where they end then.
pub(crate) fn write_lines<S: Alter>(
    conn: &mut Connection<S>,
    end: &End,
    lines: &[&str],
) -> Result<End, Error>
    requires mode { conn.old.in_transaction ≡ false }
    requires holds { HoldsChain (state S.Store conn.old) }
    requires end { IsEndOf S.Store conn.old end.now }
    requires few { end.now.number + length lines.now ≤ MOST_LINES }
    ensures kept { HoldsChain (state S.Store conn.new) }
    ensures appends { Appends S.Store conn.old conn.new (map (λ line. line.now) lines.now) result }
    ensures last { IfOk result (λ last. IsEndOf S.Store conn.new last) }
{
    let mut tx = conn.transaction();
    let last = insert_lines(&mut tx, end, lines)?;
    tx.commit()?;
    Ok(last)
}
