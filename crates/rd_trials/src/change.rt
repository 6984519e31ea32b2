//! Changes of the tables of a desk by SQL, and SQL questions about them.

use crate::image::build_with;
use anyhow::{Result, bail};
use rd_fakes::tables::answer_of;
use rd_fakes::tally::Tally;
use sqlite::types::ValueRef;
use sqlite::{Connection, Error, MemStore};
use std::alloc::Global;

/// What a statement must do.
#[derive(Clone, Copy, PartialEq, Eq)]
pub(crate) enum Effect {
    /// It changes rows.
    Rows,
    /// It changes none.
    Idle,
    /// SQL refuses it.
    Refused,
}

impl Effect {
    /// The word for it in a line of a trial.
    fn word(self) -> &'static str {
        match self {
            Effect::Rows => "sql",
            Effect::Idle => "sql-idle",
            Effect::Refused => "sql-refused",
        }
    }

    /// The effect for the word of a line.
    pub(crate) fn of(word: &str) -> Effect {
        match word {
            "sql-idle" => Effect::Idle,
            "sql-refused" => Effect::Refused,
            _ => Effect::Rows,
        }
    }
}

/// A statement, its place, what it must do, and the bytes that stand for `?1` in it.
#[derive(Drop)]
pub(crate) struct Change<'a> {
    pub(crate) place: &'a str,
    statement: &'a str,
    wanted: Effect,
    value: Vec<u8>,
    has_value: bool,
}

impl<'a> Change<'a> {
    /// The change by a statement at a place of a trial, without bytes for `?1`.
    pub(crate) fn new(
        alloc: Global,
        place: &'a str,
        wanted: Effect,
        statement: &'a str,
    ) -> Change<'a> {
        Change {
            place,
            statement,
            wanted,
            value: Vec::new(alloc),
            has_value: false,
        }
    }

    /// Reads a line about the bytes for `?1`: its first word, and the text after it.
    pub(crate) fn read(&mut self, rt: &HostRuntime, word: &str, text: &str) -> Result<()> {
        self.has_value = true;
        build_with(rt, &mut self.value, word, text)
    }

    /// Changes tables. A statement that SQL must refuse is a case; if any other statement does not
    /// do what it must, the trial ends.
    pub(crate) fn play(
        &self,
        rt: &HostRuntime,
        conn: &mut Connection<MemStore>,
        tally: &mut Tally,
    ) -> Result<()> {
        let (wanted, came) = (self.wanted.word(), self.run(conn).word());
        if self.wanted == Effect::Refused {
            let case = (self.place, self.statement);
            return tally.judge(rt, case, wanted.as_bytes(), came.as_bytes());
        }
        if wanted != came {
            bail!("it is no {wanted}, but a {came}");
        }
        Ok(())
    }

    /// Runs the statement, and gives what it did.
    fn run(&self, conn: &mut Connection<MemStore>) -> Effect {
        let changed = if self.has_value {
            execute_with(conn, self.statement, self.value.as_slice())
        } else {
            execute(conn, self.statement)
        };
        match changed {
            Ok(0) => Effect::Idle,
            Ok(_) => Effect::Rows,
            Err(_) => Effect::Refused,
        }
    }
}

fn execute(conn: &mut Connection<MemStore>, sql: &str) -> Result<usize, Error> {
    conn.execute(sql, &[])
}

fn execute_with(conn: &mut Connection<MemStore>, sql: &str, value: &[u8]) -> Result<usize, Error> {
    conn.execute(sql, &[ValueRef::Blob(value)])
}

/// A question in SQL, its place, and the rows that it must give, each ended by a line feed.
#[derive(Drop)]
pub(crate) struct Question<'a> {
    pub(crate) place: &'a str,
    statement: &'a str,
    rows: String,
}

impl<'a> Question<'a> {
    /// The question that a statement at a place of a trial asks, without rows yet.
    pub(crate) fn new(alloc: Global, place: &'a str, statement: &'a str) -> Question<'a> {
        Question {
            place,
            statement,
            rows: String::new(alloc),
        }
    }

    /// Asks tables for the rows.
    pub(crate) fn play(
        &self,
        rt: &HostRuntime,
        conn: &mut Connection<MemStore>,
        tally: &mut Tally,
    ) -> Result<()> {
        let answer = answer_of(rt.alloc(), conn, self.statement)?;
        let case = (self.place, self.statement);
        tally.judge(rt, case, self.rows.as_bytes(), answer.as_bytes())
    }

    /// Reads a line: its first word, and the text after it.
    pub(crate) fn read(&mut self, word: &str, text: &str) -> Result<()> {
        if word != "row" {
            bail!("no such word");
        }
        self.rows.push_str(text)?;
        Ok(self.rows.push('\n')?)
    }
}
