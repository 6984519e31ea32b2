//! Carries out what a run does, and closes the files.

use crate::bases::standing_store;
use crate::commands::Command;
use crate::copies::copy;
use crate::desk::{desk_of, status_of, words_of_create, words_of_open};
use crate::files::{Drives, FilesStore, Pair, close, connect, into_files, options, pages_of};
use crate::museum::{Written, accession_of, run_command};
use crate::runs::{Action, Run};
use anyhow::{Result, bail};
use rd_desk::Desk;
use rd_fakes::desk::{create, into_connection, into_store, migrate};
use rd_store::{CreateFault, OpenFault, Store};
use sqlite::{Alter, Connection, Error, Options};
use std::alloc::{AllocError, Global};

/// The number from which a run makes the salts of its log.
const SALT: u64 = 3;

/// How many pages have room in memory beside those that the files hold before a run.
const MORE_PAGES: usize = 16;

/// What a command writes where its store fails.
const STORE_LINE: &str = "desk: store\n";

/// How a run ends.
#[derive(Clone, Copy, PartialEq, Eq)]
pub(crate) enum Ending {
    /// It reports all as done.
    Done,
    /// It reports that the store is unavailable.
    Unavailable,
    /// It reports something else.
    Other,
}

/// What a run reports: how it ends, how many changes are done, and its words for the ending.
#[derive(Drop)]
pub(crate) struct Report {
    pub(crate) ending: Ending,
    pub(crate) changes: usize,
    pub(crate) words: String,
}

/// A run that has ended: what it reports, and the files.
#[derive(Drop)]
pub(crate) struct Ran {
    pub(crate) report: Report,
    pub(crate) files: Drives,
}

/// A connection on which a run has ended, and what the run reports.
#[derive(Drop)]
struct Acted<S: Alter> {
    report: Report,
    conn: Connection<S>,
}

/// What a run reports that ended on a connection, and the connection.
fn ended<S: Alter + Drop>(
    alloc: Global,
    ending: Ending,
    changes: usize,
    words: &str,
    conn: Connection<S>,
) -> Result<Acted<S>> {
    let words = String::from_str(alloc, words)?;
    let report = Report {
        ending,
        changes,
        words,
    };
    Ok(Acted { report, conn })
}

/// How a run ends that asks for a desk and gets none: as it must if one stands there before.
fn not_created(fault: CreateFault, stands: bool) -> Ending {
    match fault {
        CreateFault::Sql => Ending::Unavailable,
        CreateFault::Exists if stands => Ending::Done,
        CreateFault::Exists => Ending::Other,
    }
}

/// What a run reports that asked for a desk, and got it or not. It must get one unless one stands there before.
fn created<S: Alter + Drop>(
    alloc: Global,
    made: Result<Store<S>, (CreateFault, Connection<S>)>,
    stands: bool,
) -> Result<Acted<S>> {
    match made {
        Ok(store) => {
            let ending = if stands { Ending::Other } else { Ending::Done };
            ended(alloc, ending, 1, "done", into_connection(store))
        }
        Err((fault, conn)) => {
            let (ending, words) = (not_created(fault, stands), words_of_create(fault));
            ended(alloc, ending, 0, words, conn)
        }
    }
}

/// Copies a desk from other files, at which nothing stops.
fn run_copy(
    alloc: Global,
    source: &Pair,
    conn: Connection<FilesStore>,
    stands: bool,
) -> Result<Acted<FilesStore>> {
    let mut from = standing_store(alloc, source)?;
    created(alloc, copy(alloc, &mut from, conn), stands)
}

/// What a run reports where the desk does not open.
fn closed<S: Alter + Drop>(
    alloc: Global,
    fault: OpenFault,
    conn: Connection<S>,
) -> Result<Acted<S>> {
    let ending = match fault {
        OpenFault::Sql => Ending::Unavailable,
        OpenFault::NotADesk | OpenFault::Version | OpenFault::Inconsistent => Ending::Other,
    };
    ended(alloc, ending, 0, words_of_open(fault), conn)
}

/// Brings a desk to the newest version.
fn run_migrate<S: Alter + Drop>(alloc: Global, conn: Connection<S>) -> Result<Acted<S>> {
    match migrate(alloc, conn) {
        Ok(store) => ended(alloc, Ending::Done, 1, "done", into_connection(store)),
        Err((fault, conn)) => closed(alloc, fault, conn),
    }
}

/// Gives a desk commands up to the first that it does not carry out. Gives how many it carries out,
/// and the last status.
fn give_in_turn<S: Alter + Drop>(
    alloc: Global,
    desk: &mut Desk<S>,
    commands: &[Command],
) -> Result<(usize, u16)> {
    let mut done = 0usize;
    for command in commands {
        let status = status_of(alloc, desk, *command)?;
        if status != 200 {
            return Ok((done, status));
        }
        done = done.saturating_add(1);
    }
    Ok((done, 200))
}

/// What a run reports after so many commands, the last of which had this status. All of them may count as one change.
fn answered(alloc: Global, done: usize, status: u16, is_one: bool) -> Result<Report> {
    let ending = match status {
        200 => Ending::Done,
        503 => Ending::Unavailable,
        _ => Ending::Other,
    };
    let words = format!(in alloc; "status {status}")?;
    let changes = match ending {
        _ if !is_one => done,
        Ending::Done => 1,
        Ending::Unavailable | Ending::Other => 0,
    };
    Ok(Report {
        ending,
        changes,
        words,
    })
}

/// Gives the desk of a store commands.
fn run_on_store<S: Alter + Drop>(
    alloc: Global,
    store: Store<S>,
    commands: &[Command],
    is_one: bool,
) -> Result<Acted<S>> {
    let mut desk = desk_of(store)?;
    let (done, status) = give_in_turn(alloc, &mut desk, commands)?;
    let report = answered(alloc, done, status, is_one)?;
    let conn = into_connection(into_store(desk));
    Ok(Acted { report, conn })
}

/// Opens a desk, and gives it commands.
fn run_commands<S: Alter + Drop>(
    alloc: Global,
    conn: Connection<S>,
    commands: &[Command],
    is_one: bool,
) -> Result<Acted<S>> {
    match migrate(alloc, conn) {
        Ok(store) => run_on_store(alloc, store, commands, is_one),
        Err((fault, conn)) => closed(alloc, fault, conn),
    }
}

/// The line that tells of a change: of a row of the sheet, or of the only change.
fn done_line(alloc: Global, row: Option<usize>) -> Result<String, AllocError> {
    match row {
        Some(row) => {
            let acc = accession_of(row);
            format!(in alloc; "{acc} done")
        }
        None => String::from_str(alloc, "done"),
    }
}

/// How many changes a command reports as done; `None` if its lines are not those of the first changes, in their order.
fn changes_told(alloc: Global, text: &str, has_sheet: bool) -> Result<Option<usize>, AllocError> {
    if !matches!(text.as_bytes(), [] | [.., b'\n']) {
        return Ok(None);
    }
    let mut changes = 0usize;
    for line in text.lines() {
        let wanted = done_line(alloc, if has_sheet { Some(changes) } else { None })?;
        if line != wanted.as_str() {
            return Ok(None);
        }
        changes = changes.saturating_add(1);
    }
    Ok(Some(changes))
}

/// How a run ends after a command with this status that wrote these errors.
fn ending_of(status: u8, errors: &str) -> Ending {
    if status == 0 && errors.is_empty() {
        Ending::Done
    } else if status == 3 && errors == STORE_LINE {
        Ending::Unavailable
    } else {
        Ending::Other
    }
}

/// A text that a command wrote.
fn text_of(written: &Vec<u8>) -> Result<&str> {
    match str::from_utf8(written.as_slice()) {
        Ok(text) => Ok(text),
        Err(_) => bail!("an output is no text"),
    }
}

/// What a run reports after a command that imports a sheet, or makes one change and then says so.
fn report_of(alloc: Global, written: &Written, has_sheet: bool) -> Result<Report> {
    let status = written.status;
    let output = text_of(&written.output)?;
    let errors = text_of(&written.errors)?;
    let words = format!(in alloc; "status {status} {errors}")?;
    let told = changes_told(alloc, output, has_sheet)?;
    let ending = match told {
        Some(changes) if has_sheet || (changes == 1 && status == 0) => ending_of(status, errors),
        Some(0) if status != 0 => ending_of(status, errors),
        _ => Ending::Other,
    };
    let changes = if has_sheet || ending == Ending::Done {
        told.unwrap_or(0)
    } else {
        0
    };
    Ok(Report {
        ending,
        changes,
        words,
    })
}

/// Has the program import a sheet of some rows, or put a key of the staff.
fn run_program<S: Alter + Drop>(
    alloc: Global,
    conn: Connection<S>,
    rows: Option<usize>,
) -> Result<Acted<S>> {
    let (written, conn) = run_command(alloc, rows, conn)?;
    let report = report_of(alloc, &written, rows.is_some())?;
    Ok(Acted { report, conn })
}

/// Does what an action says. The source is what it copies a desk from, if it copies one.
fn act(
    alloc: Global,
    action: Action,
    source: &Pair,
    conn: Connection<FilesStore>,
) -> Result<Acted<FilesStore>> {
    match action {
        Action::Create | Action::CreateWithSums => created(alloc, create(conn), false),
        Action::CreateSecond => created(alloc, create(conn), true),
        Action::Copy => run_copy(alloc, source, conn, false),
        Action::CopyToDesk => run_copy(alloc, source, conn, true),
        Action::Migrate => run_migrate(alloc, conn),
        Action::Ask(commands) => run_commands(alloc, conn, commands, false),
        Action::AskAsOne(commands) => run_commands(alloc, conn, commands, true),
        Action::Import(rows) => run_program(alloc, conn, Some(rows)),
        Action::PutStaffKey => run_program(alloc, conn, None),
    }
}

/// What a run reports that gets no connection, and the files.
fn unconnected(alloc: Global, error: Error, files: Drives) -> Result<Ran> {
    let words = format!(in alloc; "no database: {error}")?;
    let report = Report {
        ending: Ending::Unavailable,
        changes: 0,
        words,
    };
    Ok(Ran { report, files })
}

/// Connects to the database in two files, does what an action of a run says, and closes the files if the run does. The
/// source is what it copies a desk from, if it copies one. The pages that the files hold have room in memory, and a few
/// more: making room takes time.
pub(crate) fn carry_out(
    alloc: Global,
    run: &Run,
    action: Action,
    source: &Pair,
    files: Drives,
) -> Result<Ran> {
    let how = Options {
        cache_pages: pages_of(&files).saturating_add(MORE_PAGES),
        ..options(SALT, run.frames)
    };
    match connect(alloc, files, how, action.asks_sums()) {
        Ok(conn) => {
            let Acted { report, conn } = act(alloc, action, source, conn)?;
            let files = if run.is_closed {
                close(conn)
            } else {
                into_files(conn)
            };
            Ok(Ran { report, files })
        }
        Err((error, files)) => unconnected(alloc, error, files),
    }
}
