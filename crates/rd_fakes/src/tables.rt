//! What tables hold, as text.

use crate::escapes::escaped;
use crate::tally::Tally;
use anyhow::{Result, bail};
use sha2::{Digest, Sha256};
use sqlite::types::ValueRef;
use sqlite::{Alter, Connection, Error, Row};
use std::alloc::Global;
use std::hash::{DefaultHasher, Hasher};

/// Asks for all rows of all tables of a desk, and how all tables are declared.
const TABLES: &[&str] = &[
    "SELECT name, sql FROM sqlite_master ORDER BY name",
    "SELECT id, version FROM desk",
    "SELECT num, donor, signed FROM deed ORDER BY num",
    "SELECT acc, kind, deed, digest, bytes FROM image ORDER BY acc",
    "SELECT * FROM rule ORDER BY band, scope, rank",
    "SELECT digest, audience FROM badge ORDER BY digest",
    "SELECT acc, day, outcome FROM checked ORDER BY acc, day",
    "SELECT * FROM found ORDER BY acc, slot",
    "SELECT acc, bytes FROM marks ORDER BY acc",
];

fn rows_of<S: Alter>(conn: &mut Connection<S>, sql: &str) -> Result<Vec<Row>, Error> {
    conn.query_all(sql, &[])
}

/// Bytes longer than this appear as a digest.
const LONGEST: usize = 1_000;

/// Which digest stands for many bytes.
#[derive(Clone, Copy)]
enum Digests {
    /// The SHA-256, for texts that are read.
    Sha256,
    /// The hash of the standard library, which takes less time, for texts that are compared. They are
    /// printed where a comparison fails.
    Quick,
}

/// The hash of the standard library.
fn quick_digest(bytes: &[u8]) -> u64 {
    let mut hasher = DefaultHasher::new();
    hasher.write(bytes);
    hasher.finish()
}

/// Adds the number of many bytes, and their digest.
fn add_digest(alloc: Global, text: &mut String, bytes: &[u8], digests: Digests) -> Result<()> {
    let count = bytes.len();
    match digests {
        Digests::Sha256 => {
            let digits = hex::encode(alloc, Sha256::digest(bytes))?;
            write!(text, "{count} bytes with the SHA-256 {digits}")?;
        }
        Digests::Quick => {
            let digest = quick_digest(bytes);
            write!(text, "{count} bytes with the hash {digest}")?;
        }
    }
    Ok(())
}

/// Adds bytes as SQL writes them or, if there are many, their number and their digest.
fn add_blob(alloc: Global, text: &mut String, bytes: &[u8], digests: Digests) -> Result<()> {
    if bytes.len() > LONGEST {
        return add_digest(alloc, text, bytes, digests);
    }
    let digits = hex::encode(alloc, bytes)?;
    write!(text, "x'{digits}'")?;
    Ok(())
}

/// Adds a value: a number by its digits, a text as it is, bytes as above, and `NULL`.
fn add_value(
    alloc: Global,
    text: &mut String,
    value: ValueRef<'_>,
    digests: Digests,
) -> Result<()> {
    match value {
        ValueRef::Null => text.push_str("NULL")?,
        ValueRef::Int(number) => write!(text, "{number}")?,
        ValueRef::Real(number) => write!(text, "{number}")?,
        ValueRef::Text(bytes) => text.push_str(escaped(alloc, bytes)?.as_str())?,
        ValueRef::Blob(bytes) => add_blob(alloc, text, bytes, digests)?,
    }
    Ok(())
}

/// Adds a row: its values, with a bar between them.
fn add_row(alloc: Global, text: &mut String, row: &Row, digests: Digests) -> Result<()> {
    for at in 0..row.column_count() {
        if at > 0 {
            text.push('|')?;
        }
        add_value(alloc, text, row.get_ref(at)?, digests)?;
    }
    Ok(text.push('\n')?)
}

/// The rows that a question in SQL gives, each ended by a line feed, with digests of one kind.
fn answer_with<S: Alter>(
    alloc: Global,
    conn: &mut Connection<S>,
    sql: &str,
    digests: Digests,
) -> Result<String> {
    let mut text = String::new(alloc);
    for row in &rows_of(conn, sql)? {
        add_row(alloc, &mut text, row, digests)?;
    }
    Ok(text)
}

/// The rows that a question in SQL gives, each ended by a line feed.
pub fn answer_of<S: Alter>(alloc: Global, conn: &mut Connection<S>, sql: &str) -> Result<String> {
    answer_with(alloc, conn, sql, Digests::Sha256)
}

/// The rows of all tables of a desk, as text that is to be compared, and printed where the comparison
/// fails. A missing table gives `no table`.
pub fn contents_of<S: Alter>(alloc: Global, conn: &mut Connection<S>) -> Result<String> {
    let mut text = String::new(alloc);
    for sql in TABLES {
        match answer_with(alloc, conn, *sql, Digests::Quick) {
            Ok(rows) => text.push_str(rows.as_str())?,
            Err(_) => text.push_str("no table\n")?,
        }
        text.push_str("--\n")?;
    }
    Ok(text)
}

/// What tables held, kept to compare it later.
#[derive(Default, Drop)]
pub struct KeptTables {
    contents: Option<String>,
}

impl KeptTables {
    /// Keeps what tables hold, or compares it with what it has kept, by the text of a line
    /// `tables`.
    pub fn play(
        &mut self,
        rt: &HostRuntime,
        (place, word): (&str, &str),
        contents: String,
        tally: &mut Tally,
    ) -> Result<()> {
        if word == "kept" {
            self.contents = Some(contents);
            return Ok(());
        }
        let case = (place, "tables");
        match (word, &self.contents) {
            ("same", Some(kept)) => tally.judge(rt, case, kept.as_bytes(), contents.as_bytes()),
            ("changed", Some(kept)) => {
                tally.judge_other(rt, case, kept.as_bytes(), contents.as_bytes())
            }
            _ => bail!("no such tables, or none are kept"),
        }
    }
}
