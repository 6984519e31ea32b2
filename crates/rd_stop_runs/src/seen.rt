//! What a database holds when it is opened again.

use crate::desk::words_of_open;
use crate::drive::Sort;
use crate::files::{Pair, connect};
use anyhow::Result;
use rd_fakes::desk::{create, into_connection, migrate};
use rd_fakes::tables::{answer_of, contents_of};
use rd_store::{OpenFault, Store};
use sqlite::{Alter, Connection, Error};
use std::alloc::{AllocError, Global};

/// The number from which a database that is opened again makes the salts of its log.
const SALT: u64 = 4;

/// What a database holds.
#[derive(Drop)]
pub(crate) struct Seen {
    /// The version of the desk, and the rows that answer a question in SQL, each line ended by a
    /// line feed; or why no desk opens, or why it does not say what it holds.
    pub(crate) short: String,
    /// What the tables hold once the desk has the newest version.
    tables: String,
}

fn number<S: Alter>(conn: &mut Connection<S>, sql: &str) -> Result<i64, Error> {
    conn.query_row(sql, &[])?.get(0)
}

/// What stands where no desk is: an empty database, in which one can be made, or something else.
fn without_desk<S: Alter + Drop>(mut conn: Connection<S>) -> &'static str {
    if !matches!(
        number(&mut conn, "SELECT count(*) FROM sqlite_master"),
        Ok(0)
    ) {
        return "not-a-desk";
    }
    if create(conn).is_ok() {
        "empty"
    } else {
        "empty, but no desk is made there"
    }
}

/// Why no desk opens, in words.
fn reason<S: Alter + Drop>(fault: OpenFault, conn: Connection<S>) -> &'static str {
    match fault {
        OpenFault::NotADesk => without_desk(conn),
        OpenFault::Version | OpenFault::Inconsistent | OpenFault::Sql => words_of_open(fault),
    }
}

impl Seen {
    /// Nothing, for this reason.
    fn without(alloc: Global, reason: &str) -> Result<Seen, AllocError> {
        Ok(Seen {
            short: format!(in alloc; "{reason}\n")?,
            tables: String::new(alloc),
        })
    }

    /// A desk that had this version before it opened, with the rows that answer a question and what
    /// its tables hold.
    fn whole(
        alloc: Global,
        version: i64,
        answer: &str,
        tables: String,
    ) -> Result<Seen, AllocError> {
        if tables.as_str().contains("no table\n") {
            return Seen::without(alloc, "a table is missing");
        }
        Ok(Seen {
            short: format!(in alloc; "version {version}\n{answer}")?,
            tables,
        })
    }

    /// The rows of a desk that had this version before it opened.
    fn rows<S: Alter>(
        alloc: Global,
        version: i64,
        conn: &mut Connection<S>,
        question: &str,
    ) -> Result<Seen> {
        match answer_of(alloc, conn, question) {
            Ok(answer) => {
                let tables = contents_of(alloc, conn)?;
                Ok(Seen::whole(alloc, version, answer.as_str(), tables)?)
            }
            Err(_) => Ok(Seen::without(alloc, "no answer")?),
        }
    }

    /// An open desk, and the version that it had before it opened.
    fn desk<S: Alter + Drop>(
        alloc: Global,
        version: Option<i64>,
        store: Store<S>,
        question: &str,
    ) -> Result<Seen> {
        let mut conn = into_connection(store);
        match version {
            Some(version) => Seen::rows(alloc, version, &mut conn, question),
            None => Ok(Seen::without(alloc, "no version")?),
        }
    }

    /// What a database holds that this program connects to.
    fn migrated<S: Alter + Drop>(
        alloc: Global,
        mut conn: Connection<S>,
        question: &str,
    ) -> Result<Seen> {
        let version = number(&mut conn, "SELECT version FROM desk").ok();
        match migrate(alloc, conn) {
            Ok(store) => Seen::desk(alloc, version, store, question),
            Err((fault, conn)) => Ok(Seen::without(alloc, reason(fault, conn))?),
        }
    }

    /// Nothing, since there is no connection.
    fn unconnected(alloc: Global, error: Error) -> Result<Seen> {
        let reason = format!(in alloc; "no database: {error}")?;
        Ok(Seen::without(alloc, reason.as_str())?)
    }

    /// What the database in two files of a sort holds.
    pub(crate) fn of(alloc: Global, pair: &Pair, sort: Sort, question: &str) -> Result<Seen> {
        let files = pair.files(alloc, sort, None)?;
        match connect(alloc, files, pair.options(SALT), false) {
            Ok(conn) => Seen::migrated(alloc, conn, question),
            Err((error, _)) => Seen::unconnected(alloc, error),
        }
    }

    /// Whether both are the same.
    pub(crate) fn is_same(&self, other: &Seen) -> bool {
        self.short.as_str() == other.short.as_str() && self.has_tables_of(other)
    }

    /// Whether the tables of both hold the same.
    pub(crate) fn has_tables_of(&self, other: &Seen) -> bool {
        self.tables.as_str() == other.tables.as_str()
    }

    /// The first line of the tables that those of another do not have; empty where there is none.
    pub(crate) fn line_beyond(&self, other: &Seen) -> &str {
        line_beyond(self.tables.as_str(), other.tables.as_str())
    }
}

/// The first line of a text that another does not have; empty where there is none.
fn line_beyond<'a>(text: &'a str, other: &str) -> &'a str {
    for line in text.lines() {
        if !other.contains(line) {
            return line;
        }
    }
    ""
}
