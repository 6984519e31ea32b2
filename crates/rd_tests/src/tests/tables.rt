//! What the tables behind a desk hold, in words.

use sqlite::{Connection, Error, MemStore};
use std::alloc::Global;
use std::test::Fail;

/// Asks for all rows of the table `desk`.
const DESK: &str = "SELECT id, version FROM desk";

/// Asks for all rows of the other tables of version 1; of an image for the number of its bytes.
const FIRST: &[&str] = &[
    "SELECT num, donor, signed FROM deed ORDER BY num",
    "SELECT acc, kind, deed, digest, length(bytes) FROM image ORDER BY acc",
    "SELECT * FROM rule ORDER BY band, scope, rank",
    "SELECT digest, audience FROM badge ORDER BY digest",
    "SELECT acc, day, outcome FROM checked ORDER BY acc, day",
    "SELECT * FROM found ORDER BY acc, slot",
];

/// Asks for all rows of the table that version 1 does not have.
const MARKS: &str = "SELECT acc, bytes FROM marks ORDER BY acc";

/// Asks for the names of tables and indexes.
const NAMES: &str = "SELECT name FROM sqlite_master ORDER BY name";

/// Asks how many tables `desk` stand.
const DESKS: &str = "SELECT count(*) FROM sqlite_master WHERE name = 'desk'";

/// The number that a question gives.
pub(super) fn number(conn: &mut Connection<MemStore>, sql: &str) -> Result<i64, Error> {
    conn.query_row(sql, &[])?.get(0)
}

/// The rows that a question gives, in words.
fn words_of(alloc: Global, conn: &mut Connection<MemStore>, sql: &str) -> Result<String, Fail> {
    let rows = conn.query_all(sql, &[])?;
    Ok(format!(in alloc; "{rows:?}\n")?)
}

/// The rows of the tables of version 1 but `desk`, in words.
fn first_of(alloc: Global, conn: &mut Connection<MemStore>) -> Result<String, Fail> {
    let mut told = String::new(alloc);
    for sql in FIRST {
        told.push_str(words_of(alloc, conn, *sql)?.as_str())?;
    }
    Ok(told)
}

/// The rows of all tables but `desk`, in words.
pub(super) fn others_of(alloc: Global, conn: &mut Connection<MemStore>) -> Result<String, Fail> {
    let mut told = first_of(alloc, conn)?;
    told.push_str(words_of(alloc, conn, MARKS)?.as_str())?;
    Ok(told)
}

/// The rows of all tables, in words.
pub(super) fn tables_of(alloc: Global, conn: &mut Connection<MemStore>) -> Result<String, Fail> {
    let mut told = words_of(alloc, conn, DESK)?;
    told.push_str(others_of(alloc, conn)?.as_str())?;
    Ok(told)
}

/// The names of the tables and indexes of a database of version 1, and the rows of all its tables, in words. The
/// table `desk` may be gone.
pub(super) fn first_tables_of(
    alloc: Global,
    conn: &mut Connection<MemStore>,
) -> Result<String, Fail> {
    let mut told = words_of(alloc, conn, NAMES)?;
    if number(conn, DESKS)? == 1 {
        told.push_str(words_of(alloc, conn, DESK)?.as_str())?;
    }
    told.push_str(first_of(alloc, conn)?.as_str())?;
    Ok(told)
}
