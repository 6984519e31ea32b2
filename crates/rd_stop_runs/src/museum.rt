//! A machine whose store is a database on two files in memory, and commands of the program on it.

ghost use Rattle.std.specs.Prelude.{Some};
ghost use Rattle.rd_samples.specs.declared.days.TheConstants.{AFTER};

use crate::commands::{Sample, bytes_of};
use anyhow::{Result, bail};
use rd_fakes::wire::new_door;
use rd_machines::{Museum, STORE, Supply};
use rd_program::{MachineFault, Remembered, Why, run};
use rd_samples::days::AFTER;
use rd_samples::keys::STAFF_KEY;
use sqlite::{Alter, Connection};
use std::alloc::{AllocError, Global};

/// The words of an import.
const IMPORT: &[&str] = &[
    "import",
    "--store",
    STORE,
    "--key",
    STAFF_KEY,
    "--sheet",
    "images.csv",
];

/// The words that put a key of the staff, for whom no other key is asked.
const STAFF_KEY_COMMAND: &[&str] = &["staff-key", "--store", STORE, "--key", "spare"];

/// The accession of the first row of the sheet.
const FIRST_ACC: usize = 21;

/// The accession of a row of the sheet, counted from 0.
pub(crate) fn accession_of(row: usize) -> usize {
    FIRST_ACC.saturating_add(row)
}

/// What the machine gives beside its store: a sheet of some rows, and the one image that all rows name.
#[derive(Drop)]
struct Given {
    rows: usize,
}

/// A sheet of some rows, each with an accession of its own.
fn sheet(alloc: Global, rows: usize) -> Result<String, AllocError> {
    let mut text = String::from_str(alloc, "accession,kind,deed,sha256,file\n")?;
    for row in 0..rows {
        let acc = accession_of(row);
        write!(
            text,
            "{acc},d64,7,ee352834e06f2b572e65490eb845939724cc38542aed18acdf81eded76912afb,hello.d64\n"
        )?;
    }
    Ok(text)
}

impl Supply for Given {
    ghost clock = { λ _. Some AFTER };

    fn image(&self, alloc: Global, _path: &str) -> Result<Vec<u8>, MachineFault> {
        bytes_of(alloc, Sample::Program).map_err(|_| MachineFault::NoMemory)
    }

    fn sheet(&self, alloc: Global, _path: &str) -> Result<Vec<u8>, MachineFault> {
        match sheet(alloc, self.rows) {
            Ok(text) => Ok(text.into_bytes()),
            Err(_) => Err(MachineFault::NoMemory),
        }
    }

    fn now(&mut self) -> Result<i64, MachineFault> {
        Ok(AFTER)
    }
}

/// The status of a command, and what it wrote to both outputs.
#[derive(Drop)]
pub(crate) struct Written {
    pub(crate) status: u8,
    pub(crate) output: Vec<u8>,
    pub(crate) errors: Vec<u8>,
}

/// Has a machine carry out a command.
fn written_on<S: Alter + Drop>(
    alloc: Global,
    words: &[&str],
    museum: &mut Museum<Given, S>,
) -> Written {
    let mut output = Vec::new(alloc);
    let mut errors = Vec::new(alloc);
    let status = run(
        alloc,
        words,
        &mut [].as_slice(),
        &mut output,
        &mut errors,
        museum,
        &mut { Why::UNKNOWN },
    );
    Written {
        status,
        output,
        errors,
    }
}

/// Imports a sheet of some rows into the store of a connection, or puts a key of the staff, and gives the connection back.
pub(crate) fn run_command<S: Alter + Drop>(
    alloc: Global,
    rows: Option<usize>,
    conn: Connection<S>,
) -> Result<(Written, Connection<S>)> {
    let (words, rows) = match rows {
        Some(rows) => (IMPORT, rows),
        None => (STAFF_KEY_COMMAND, 0),
    };
    let door = new_door(alloc, Vec::new(alloc))?;
    let mut museum = Museum {
        conn: Some(conn),
        fresh: None,
        door,
        limits: None,
        supply: Given { rows },
        remembered: Remembered::new(alloc),
    };
    let written = written_on(alloc, words, &mut museum);
    match museum.conn.take() {
        Some(conn) => Ok((written, conn)),
        None => bail!("the program did not give the store back"),
    }
}
