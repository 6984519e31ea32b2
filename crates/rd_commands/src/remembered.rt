//! What a machine remembers of a run, for an explanation: what the system said last, and the rows of a sheet that were not
//! done. It stands in cells, so that a machine stays as it was where it remembers something more.

ghost use Rattle.std.specs.Prelude.{◌≡◌, ◌<◌, ◌≤◌, IfSome};
ghost use Rattle.rd_geometry.specs.Places.{CPM_SIZE};
ghost use Rattle.rd_explanations.specs.declared.line.Line.TheVariants.{RowSize, RowTooLong};
ghost use Rattle.rd_commands.specs.Explaining.{IsFitOf, IsLineOf, IsNextLine};

use rd_explanations::{Column, Line, Reason, Said, kind_that_fits};
use rd_volume::Kind;
use std::alloc::Global;
use std::cell::RefCell;
use std::mem;

/// The most rows that have lines of their own.
const MOST_ROWS: u32 = 1_000;

/// What the system said when a machine last did not give something.
#[derive(Debug, Drop)]
pub struct SystemFault {
    /// The path, or the place, that it was asked for.
    pub path: String,
    /// The system's word.
    pub said: Said,
}

/// Why a row of a sheet was not done.
#[derive(Clone, Copy, Debug)]
pub enum RowNote<'a> {
    /// The field of this column is missing or badly written.
    Bad(Column),
    /// The desk does not take in the image of this accession, and why.
    Refused(u32, Reason),
    /// The file of the image has another size than an image of its kind.
    Size {
        /// The path of the file.
        file: &'a str,
        /// How many bytes it has; one more than the largest image if it has more.
        found: usize,
        /// The kind that the row names.
        kind: Kind,
    },
    /// The file of the image cannot be read.
    Unread,
}

/// The line that says how many bytes the file of a row has.
fn size_line(row: u64, path: String, found: usize, kind: Kind) -> Line
    ensures size { found ≤ CPM_SIZE → result ≡ RowSize row path found kind }
    ensures too_long { CPM_SIZE < found → result ≡ RowTooLong row path kind }
{
    if found > Kind::largest_size() {
        return Line::RowTooLong { row, path, kind };
    }
    Line::RowSize {
        row,
        path,
        found,
        kind,
    }
}

/// The line that says what to do about a row whose file has so many bytes.
fn fit_line(row: u64, found: usize) -> Line
    ensures { IsFitOf row found result }
{
    match kind_that_fits(found) {
        Some(kind) => Line::RowFits { row, kind },
        None => Line::RowFitsNone { row },
    }
}

/// The second line of a row, if it has one: what to do about the size of its file.
fn next_line(row: u64, note: RowNote) -> Option<Line>
    ensures { IsNextLine row note.entry result }
{
    match note {
        RowNote::Size { found, .. } => Some(fit_line(row, found)),
        _ => None,
    }
}

/// What a machine remembers.
#[derive(Drop)]
pub struct Remembered {
    alloc: Global,
    fault: RefCell<Option<SystemFault>>,
    rows: RefCell<Vec<Line>>,
    /// How many rows more may have lines.
    places: RefCell<u32>,
    /// How many rows there were beside those that have lines.
    more: RefCell<u64>,
}

impl Remembered {
    /// Nothing yet. It takes no memory.
    pub fn new(alloc: Global) -> Remembered {
        Remembered {
            alloc,
            fault: RefCell::new(None),
            rows: RefCell::new(Vec::new(alloc)),
            places: RefCell::new(MOST_ROWS),
            more: RefCell::new(0),
        }
    }

    /// Remembers what the system said of a path, in the place of what it said before. Where memory runs out, it forgets
    /// that alone.
    pub fn keep(&self, path: &str, said: Said) {
        let fault = match String::from_str(self.alloc, path) {
            Ok(path) => Some(SystemFault { path, said }),
            Err(_) => None,
        };
        if let Ok(mut kept) = self.fault.try_borrow_mut() {
            *kept = fault;
        }
    }

    /// Takes out what the system said last.
    pub fn last_fault(&self) -> Option<SystemFault> {
        self.fault.try_borrow_mut().ok()?.take()
    }

    /// Remembers why a row was not done; a file that cannot be read with what the system said of it last.
    pub fn note_row(&self, row: u64, note: RowNote) {
        match self.line_of(row, note) {
            Some(line) => self.push(line, next_line(row, note)),
            None => self.count(),
        }
    }

    /// The line of a row; `None` if the system said nothing of its file, or memory runs out.
    fn line_of(&self, row: u64, note: RowNote) -> Option<Line>
        ensures { IfSome result (IsLineOf row note.entry) }
    {
        match note {
            RowNote::Bad(column) => Some(Line::Field { row, column }),
            RowNote::Refused(acc, reason) => Some(Line::Row { row, acc, reason }),
            RowNote::Size { file, found, kind } => {
                let path = String::from_str(self.alloc, file).ok()?;
                Some(size_line(row, path, found, kind))
            }
            RowNote::Unread => {
                let SystemFault { path, said } = self.last_fault()?;
                Some(Line::Unread { row, path, said })
            }
        }
    }

    /// Whether one row more may have lines: it takes one of 1,000 places.
    fn takes_place(&self) -> bool {
        let Ok(mut places) = self.places.try_borrow_mut() else {
            return false;
        };
        if *places == 0 {
            return false;
        }
        *places -= 1;
        true
    }

    /// Adds the lines of a row, or counts the row where 1,000 have lines, or memory runs out. Where it runs out for the
    /// second line, that one is left out.
    fn push(&self, line: Line, next: Option<Line>) {
        let Ok(mut rows) = self.rows.try_borrow_mut() else {
            return;
        };
        if !self.takes_place() || rows.push(line).is_err() {
            self.count();
            return;
        }
        if let Some(next) = next {
            let _ = rows.push(next);
        }
    }

    /// Counts a row that has no line.
    fn count(&self) {
        if let Ok(mut more) = self.more.try_borrow_mut() {
            if *more < u64::MAX {
                *more += 1;
            }
        }
    }

    /// Takes out the lines of the rows, in their order, and, if there were more, a last one that says how many.
    pub fn noted_rows(&self) -> Vec<Line> {
        let Ok(mut rows) = self.rows.try_borrow_mut() else {
            return Vec::new(self.alloc);
        };
        let mut lines = mem::replace(&mut *rows, Vec::new(self.alloc));
        if let Ok(more) = self.more.try_borrow_mut() {
            if *more > 0 {
                let _ = lines.push(Line::More(*more));
            }
        }
        lines
    }
}
