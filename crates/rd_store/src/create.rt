ghost use Rattle.std.specs.Prelude.{◌≡◌, ◌<◌, ◌≤◌, ◌+◌, [], false, get_or};
ghost use Rattle.sqlite.specs.Held.{state};
ghost use Rattle.rd_tables.specs.Statements.{create_texts};
ghost use Rattle.rd_tables.specs.Connections.{IsOpen, Moves, RestsIn, Turns};
ghost use Rattle.rd_store.specs.Created.{HasFirstTables, empty_desk, new_desk};
ghost use Rattle.rd_store.specs.Held.{IsOf};

use crate::keys::insert_key;
use rd_policy::Audience;
use sqlite::{Alter, Connection, Error, Transaction};

/// The text that declares a table, in the order in which they are made.
pub(crate) fn create_text(at: usize) -> &'static str
    requires { at < 8 }
    ensures { result.now ≡ get_or create_texts at [] }
{
    match at {
        0 =>
            "CREATE TABLE desk (id INTEGER PRIMARY KEY CHECK (id = 1), version INTEGER NOT NULL) STRICT",
        1 =>
            "CREATE TABLE deed (num INTEGER PRIMARY KEY, donor TEXT NOT NULL, signed INTEGER NOT NULL) STRICT",
        2 =>
            "CREATE TABLE image (acc INTEGER PRIMARY KEY, kind INTEGER NOT NULL CHECK (kind BETWEEN 0 AND 1), deed INTEGER NOT NULL REFERENCES deed (num), digest BLOB NOT NULL, bytes BLOB NOT NULL) STRICT",
        3 =>
            "CREATE TABLE rule (band INTEGER NOT NULL CHECK (band BETWEEN 0 AND 1), scope INTEGER NOT NULL, rank INTEGER NOT NULL, audiences INTEGER NOT NULL CHECK (audiences BETWEEN 1 AND 7), day_from INTEGER, day_until INTEGER, how INTEGER NOT NULL CHECK (how BETWEEN 0 AND 4), number INTEGER NOT NULL, word TEXT NOT NULL, effect INTEGER NOT NULL CHECK (effect BETWEEN 0 AND 2), PRIMARY KEY (band, scope, rank)) STRICT",
        4 =>
            "CREATE TABLE badge (digest BLOB NOT NULL PRIMARY KEY, audience INTEGER NOT NULL CHECK (audience BETWEEN 1 AND 2)) STRICT",
        5 =>
            "CREATE TABLE checked (acc INTEGER NOT NULL, day INTEGER NOT NULL, outcome INTEGER NOT NULL CHECK (outcome BETWEEN 0 AND 1), PRIMARY KEY (acc, day)) STRICT",
        6 =>
            "CREATE TABLE found (acc INTEGER NOT NULL, slot INTEGER NOT NULL, name TEXT NOT NULL, ty TEXT NOT NULL, user_no INTEGER, served INTEGER NOT NULL CHECK (served BETWEEN 0 AND 1), size INTEGER, faults INTEGER NOT NULL CHECK (faults BETWEEN 0 AND 127), units BLOB NOT NULL, last_len INTEGER NOT NULL, PRIMARY KEY (acc, slot)) STRICT",
        _ => "CREATE TABLE marks (acc INTEGER PRIMARY KEY, bytes BLOB NOT NULL) STRICT",
    }
}

/// Makes one of the eight tables: that at place `at`, 0 to 7, in the order in which they are made.
fn make_table<S: Alter>(tx: &mut Transaction<'_, S>, at: usize) -> Result<usize, Error>
    requires { at < 8 }
    ensures same_reference { tx.new.conn.ghost_name ≡ tx.old.conn.ghost_name }
    ensures moves { Moves S.Store tx.old.conn.now tx.new.conn.now (HasFirstTables at) (HasFirstTables (at + 1)) result }
{
    tx.execute(create_text(at), &[])
}

/// Makes the first `count` tables.
pub(crate) fn make_tables<S: Alter>(tx: &mut Transaction<'_, S>, count: usize) -> Result<(), Error>
    requires { count ≤ 8 }
    ensures same_reference { tx.new.conn.ghost_name ≡ tx.old.conn.ghost_name }
    ensures moves { Moves S.Store tx.old.conn.now tx.new.conn.now (HasFirstTables 0) (HasFirstTables count) result }
{
    for at in 0..count {
        make_table(tx, at)?;
    }
    Ok(())
}

/// Writes the version of the tables.
fn insert_version<S: Alter>(tx: &mut Transaction<'_, S>) -> Result<usize, Error>
    ensures same_reference { tx.new.conn.ghost_name ≡ tx.old.conn.ghost_name }
    ensures moves { Moves S.Store tx.old.conn.now tx.new.conn.now (HasFirstTables 8) (IsOf empty_desk) result }
{
    tx.execute("INSERT INTO desk (id, version) VALUES (1, 2)", &[])
}

/// Makes the tables of a desk that holds nothing.
pub(crate) fn make_empty<S: Alter>(tx: &mut Transaction<'_, S>) -> Result<usize, Error>
    ensures same_reference { tx.new.conn.ghost_name ≡ tx.old.conn.ghost_name }
    ensures moves { Moves S.Store tx.old.conn.now tx.new.conn.now (HasFirstTables 0) (IsOf empty_desk) result }
{
    make_tables(tx, 8)?;
    insert_version(tx)
}

/// Makes a new desk in a blank database.
fn fill<S: Alter>(tx: &mut Transaction<'_, S>, staff: &[u8; 32]) -> Result<(), Error>
    ensures same_reference { tx.new.conn.ghost_name ≡ tx.old.conn.ghost_name }
    ensures moves { Moves S.Store tx.old.conn.now tx.new.conn.now (HasFirstTables 0) (IsOf (new_desk staff.now)) result }
{
    make_empty(tx)?;
    insert_key(tx, staff, Audience::Staff)?;
    Ok(())
}

/// Makes a new desk in a blank database, in one transaction.
pub(crate) fn write_desk<S: Alter>(conn: &mut Connection<S>, staff: &[u8; 32]) -> Result<(), Error>
    requires mode { conn.old.in_transaction ≡ false }
    requires start { IsOpen S.Store conn.old → RestsIn (HasFirstTables 0) (state S.Store conn.old) }
    ensures turns { Turns S.Store conn.old conn.new (IsOf (new_desk staff.now)) result }
{
    let mut tx = conn.transaction();
    fill(&mut tx, staff)?;
    tx.commit()
}

/// Makes the tables of version 1 in a blank database, in one transaction.
pub(crate) fn make_first_tables<S: Alter>(conn: &mut Connection<S>) -> Result<(), Error>
    requires mode { conn.old.in_transaction ≡ false }
    requires start { IsOpen S.Store conn.old → RestsIn (HasFirstTables 0) (state S.Store conn.old) }
    ensures turns { Turns S.Store conn.old conn.new (HasFirstTables 7) result }
{
    let mut tx = conn.transaction();
    make_tables(&mut tx, 7)?;
    tx.commit()
}
