//! What is asked of a desk, and what it has to answer.

use super::requests::Ask;
use crate::tests::keys::Key;
use crate::tests::{Texts, repeated};
use rd_desk::{Form, Reply};
use rd_geometry::NoMemory;
use std::alloc::Global;

/// A reply that is wanted.
#[derive(Clone, Copy)]
pub(super) enum Wanted {
    /// A status, and a text as JSON.
    Json(u16, &'static str),
    /// The bytes of a file: these texts, each so many times.
    File(Texts),
    /// A table as CSV: these lines, each ended by a line feed.
    Table(&'static [&'static str]),
}

/// Who asks, by the desk key, at which moment, for what, and the reply that is wanted.
pub(super) type Visit = (Key, i64, Ask, Wanted);

pub(super) const DONE: Wanted = Wanted::Json(200, r#"{"done":true}"#);

pub(super) const UNKNOWN_KEY: Wanted = Wanted::Json(401, r#"{"error":"unknown-key","rule":"K0"}"#);

pub(super) const STAFF_ONLY: Wanted = Wanted::Json(403, r#"{"error":"staff-only","rule":"S0"}"#);

pub(super) const BAD_BODY: Wanted = Wanted::Json(400, r#"{"error":"bad-body"}"#);

pub(super) const NO_ACCESSION: Wanted = Wanted::Json(404, r#"{"error":"no-accession"}"#);

pub(super) const NO_FILE: Wanted = Wanted::Json(404, r#"{"error":"no-file"}"#);

/// Where memory or the store fails.
pub(super) const UNAVAILABLE: Wanted = Wanted::Json(503, r#"{"error":"unavailable"}"#);

/// Where no rule matches.
pub(super) const NO_RULE: Wanted = Wanted::Json(403, r#"{"error":"denied","rule":"D0"}"#);

/// Where deed 7 is closed to all but the staff.
pub(super) const UNTIL_2030: Wanted = Wanted::Json(403, r#"{"error":"denied","rule":"R7.10"}"#);

/// Where accession 12 is taken down.
pub(super) const TAKEN_DOWN: Wanted = Wanted::Json(403, r#"{"error":"denied","rule":"T12.1"}"#);

/// The bytes of the program `HELLO`.
pub(super) const HELLO: Wanted = Wanted::File(&[("A", 254), ("BCDE", 1)]);

pub(super) const NO_IMAGES: Wanted = Wanted::Json(200, r#"{"images":[]}"#);

/// Accession 12 alone, with its one file.
pub(super) const ONE_IMAGE: Wanted = Wanted::Json(
    200,
    r#"{"images":[{"accession":12,"deed":7,"files":1,"kind":"d64"}]}"#,
);

/// Accession 12, of which no file is listed.
pub(super) const NONE_OF_12: Wanted = Wanted::Json(
    200,
    r#"{"accession":12,"deed":7,"files":[],"kind":"d64"}"#,
);

/// Accession 12 with its file, which deed 7 lets read.
pub(super) const ALL_OF_12: Wanted = Wanted::Json(
    200,
    r#"{"accession":12,"deed":7,"files":[{"effect":"read","faults":[],"name":"HELLO","rule":"R7.20","size":258,"slot":0,"type":"PRG","user":null}],"kind":"d64"}"#,
);

/// The survey of accession 12, which the deed of A. Curator covers.
pub(super) const SURVEY_OF_12: Wanted = Wanted::Json(
    200,
    r#"{"accession":12,"deed":7,"directory":"end","donor":"A. Curator","faulty":0,"files":1,"kind":"d64","label":"MUSEUM","map":{"claimed_free":2,"unclaimed_used":0,"wrong_counts":0},"served":1,"signed":"2019-05-04","size_differs":0}"#,
);

/// Where a check finds an image as it was given.
pub(super) const SOUND: Wanted = Wanted::Json(200, r#"{"outcome":"sound"}"#);

/// The first line of a catalogue.
pub(super) const COLUMNS: &str = "accession,deed,kind,slot,user,name,type,size,faults,rule,effect";

/// A catalogue in which no file is.
pub(super) const NO_FILES: Wanted = Wanted::Table(&[COLUMNS]);

/// The line of the file of accession 12, which deed 7 lets read.
pub(super) const LINE_12: &str = "12,7,d64,0,,HELLO,PRG,258,,R7.20,read";

/// A catalogue of that file alone.
pub(super) const FILE_OF_12: Wanted = Wanted::Table(&[COLUMNS, LINE_12]);

/// A reply: its status, its form, the length that it tells of its body, and the body.
pub(super) type Told = (u16, Form, usize, String);

/// The bytes of the body of a reply.
fn sent(alloc: Global, reply: &Reply) -> Result<Vec<u8>, NoMemory> {
    let mut bytes = Vec::new(alloc);
    for piece in reply.body.pieces() {
        bytes.extend_from_slice(piece)?;
    }
    Ok(bytes)
}

/// A reply, whose body is text.
pub(super) fn told(alloc: Global, reply: &Reply) -> Result<Told, NoMemory> {
    let bytes = sent(alloc, reply)?;
    let text = String::from_utf8_lossy(alloc, bytes.as_slice())?;
    Ok((reply.status, reply.form, reply.body.len(), text))
}

/// Lines, each ended by a line feed.
fn ended(alloc: Global, lines: &[&str]) -> Result<String, NoMemory> {
    let mut text = String::new(alloc);
    for line in lines {
        text.push_str(*line)?;
        text.push_str("\n")?;
    }
    Ok(text)
}

pub(super) fn wanted_of(alloc: Global, wanted: Wanted) -> Result<Told, NoMemory> {
    let (status, form, text) = match wanted {
        Wanted::Json(status, text) => (status, Form::Json, String::from_str(alloc, text)?),
        Wanted::File(parts) => (200, Form::Octets, repeated(alloc, parts)?),
        Wanted::Table(lines) => (200, Form::Csv, ended(alloc, lines)?),
    };
    Ok((status, form, text.len(), text))
}
