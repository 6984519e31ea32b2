//! A line of an explanation.

ghost use Rattle.std.specs.Prelude.{Some};

use crate::fault::Fault;
use crate::said::Said;
use crate::words::{Advice, Column, Reason, Unusable};
use rd_geometry::Kind;
use std::fmt;

/// How many bytes the images of a kind have, printed after the kind.
#[derive(Clone, Copy, Debug)]
struct Wanted(Kind);

impl fmt::Display for Wanted {
    ghost use Rattle.rd_explanations.specs.Lines.{wanted_text};

    ghost output = { λ shown. Some (wanted_text shown.0) };

    fn fmt<W: fmt::Write>(&self, f: &mut fmt::Formatter<W>) -> fmt::Result {
        let word = self.0.word();
        let wanted = self.0.size();
        write!(f, "{word} has {wanted}")
    }
}

/// One line of an explanation.
#[derive(Debug, Drop)]
pub enum Line {
    /// What the system says of a path.
    Path {
        /// The path, as the command has it.
        path: String,
        /// The system's word.
        said: Said,
    },
    /// A file has so many bytes, and an image of its kind has another number.
    Size {
        /// The path of the file.
        path: String,
        /// How many bytes it has.
        found: usize,
        /// The kind that the command names.
        kind: Kind,
    },
    /// A file has more bytes than an image of its kind, and was read no further.
    TooLong {
        /// The path of the file.
        path: String,
        /// The kind that the command names.
        kind: Kind,
    },
    /// A file has another number of bytes than an image of its kind, and nobody has counted them.
    OtherSize {
        /// The path of the file.
        path: String,
        /// The kind that the command names.
        kind: Kind,
    },
    /// An image of this kind has as many bytes as the file.
    Fits(Kind),
    /// A file that the words name gives no key or no zone.
    Operand {
        /// The path of the file.
        path: String,
        /// Why it gives none.
        unusable: Unusable,
    },
    /// A fault of the file that the command names.
    Fault(Fault),
    /// A field of a sheet is missing or badly written.
    Field {
        /// The number of the row, from 1 for the one after the names.
        row: u64,
        /// The column.
        column: Column,
    },
    /// A row of a sheet has another number of fields than there are columns.
    Length {
        /// The number of the row.
        row: u64,
    },
    /// The file of a row cannot be read.
    Unread {
        /// The number of the row.
        row: u64,
        /// The path of the file.
        path: String,
        /// The system's word.
        said: Said,
    },
    /// The file of a row has so many bytes, and an image of its kind has another number.
    RowSize {
        /// The number of the row.
        row: u64,
        /// The path of the file.
        path: String,
        /// How many bytes it has.
        found: usize,
        /// The kind that the row names.
        kind: Kind,
    },
    /// The file of a row has more bytes than an image of its kind, and was read no further.
    RowTooLong {
        /// The number of the row.
        row: u64,
        /// The path of the file.
        path: String,
        /// The kind that the row names.
        kind: Kind,
    },
    /// An image of this kind has as many bytes as the file of a row.
    RowFits {
        /// The number of the row.
        row: u64,
        /// The kind.
        kind: Kind,
    },
    /// The file of a row has the size of no kind.
    RowFitsNone {
        /// The number of the row.
        row: u64,
    },
    /// The desk refuses the image of a row.
    Row {
        /// The number of the row.
        row: u64,
        /// The accession.
        acc: u32,
        /// Why.
        reason: Reason,
    },
    /// So many more rows are not explained.
    More(u64),
    /// How to put a deed of this number.
    PutDeed(u32),
    /// What to do next.
    Next(Advice),
}

impl fmt::Display for Line {
    ghost use Rattle.rd_explanations.specs.Lines.{line_text};

    ghost output = { λ line. Some (line_text line) };

    fn fmt<W: fmt::Write>(&self, f: &mut fmt::Formatter<W>) -> fmt::Result {
        match self {
            Line::Path { path, said } => write!(f, "{path}: {said}"),
            Line::Size { path, found, kind } => {
                let wanted = Wanted(*kind);
                write!(
                    f,
                    "{path} has {found} bytes, and an image of the kind {wanted}."
                )
            }
            Line::TooLong { path, kind } => {
                let wanted = Wanted(*kind);
                write!(
                    f,
                    "{path} has more bytes than an image of its kind: {wanted}."
                )
            }
            Line::OtherSize { path, kind } => {
                let wanted = Wanted(*kind);
                write!(
                    f,
                    "{path} has another number of bytes than an image of its kind: {wanted}."
                )
            }
            Line::Fits(kind) => {
                let word = kind.word();
                write!(
                    f,
                    "An image of the kind {word} has as many bytes as this file: is it one?"
                )
            }
            Line::Operand { path, unusable } => write!(f, "{path}: {unusable}"),
            Line::Fault(fault) => {
                let word = fault.word();
                write!(f, "{word}: {fault}")
            }
            Line::Field { row, column } => write!(
                f,
                "Row {row}, column {column}: missing or badly written."
            ),
            Line::Length { row } => write!(f, "Row {row} has another number of fields than five."),
            Line::Unread { row, path, said } => write!(f, "Row {row}: {path}: {said}"),
            Line::RowSize {
                row,
                path,
                found,
                kind,
            } => {
                let wanted = Wanted(*kind);
                write!(
                    f,
                    "Row {row}: {path} has {found} bytes, and an image of the kind {wanted}."
                )
            }
            Line::RowTooLong { row, path, kind } => {
                let wanted = Wanted(*kind);
                write!(
                    f,
                    "Row {row}: {path} has more bytes than an image of its kind: {wanted}."
                )
            }
            Line::RowFits { row, kind } => {
                let word = kind.word();
                write!(
                    f,
                    "Row {row}: an image of the kind {word} has as many bytes: write {word} in the row, if it is one."
                )
            }
            Line::RowFitsNone { row } => write!(
                f,
                "Row {row}: no kind of disk has images of this size: copy the disk again."
            ),
            Line::Row { row, acc, reason } => write!(f, "Row {row}, accession {acc}: {reason}"),
            Line::More(count) => write!(f, "And {count} more rows."),
            Line::PutDeed(deed) => write!(
                f,
                "If the deed is new, start desk serve, put the deed there, end desk serve, and import again: curl -X PUT -H 'Desk-Key: KEY' http://127.0.0.1:8041/deeds/{deed} -d '{{\"donor\":\"NAME\",\"signed\":\"YYYY-MM-DD\"}}'"
            ),
            Line::Next(advice) => write!(f, "{advice}"),
        }
    }
}
