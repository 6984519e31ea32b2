//! Cases: visits of a desk, and what has to go out at each.

use super::doors::{out_of, run};
use crate::tests::desks::new_desk;
use crate::tests::keys::{Key, STAFF};
use crate::tests::{Texts, repeated};
use rd_fakes::desk::Memory;
use rd_fakes::wire::door_of;
use rd_geometry::NoMemory;
use rd_http::{Ended, MemoryDoor, Served};
use rd_samples::cbm::one_program;
use rd_samples::cpm::two_extents;
use rd_samples::days::AFTER;
use rd_samples::table;
use std::alloc::Global;
use std::process::Abort;
use std::test::Fail;

/// An image, by what is on the disk.
#[derive(Clone, Copy)]
pub(super) enum Picture {
    /// A 1541 disk with the program `HELLO` of 258 bytes.
    Program,
    /// A CP/M disk with `FILE` of 128 records, each of other bytes.
    Extent,
}

/// The bytes that come.
#[derive(Clone, Copy)]
pub(super) enum Came {
    Text(&'static str),
    /// A request: its method and its path, the desk key, and the body.
    Asked(&'static str, Key, &'static str),
    /// A request of the staff: its method and its path, and the image that is its body.
    Image(&'static str, Picture),
}

/// The bytes that have to go out.
#[derive(Clone, Copy)]
pub(super) enum Wanted {
    /// A reply in JSON: its status, the line that only this status has, and its body.
    Json(&'static str, &'static str, &'static str),
    Texts(Texts),
}

/// A visit: its name, its moment, what comes, and what has to go out.
pub(super) type Visit = (&'static str, i64, Came, Wanted);

pub(super) const DONE: Wanted = reply!("200 OK", r#"{"done":true}"#);

pub(super) const BAD_HEAD: Wanted = reply!("400 Bad Request", r#"{"error":"bad-head"}"#);

pub(super) const FRAMING: Wanted = reply!("400 Bad Request", r#"{"error":"framing"}"#);

pub(super) const BAD_BODY: Wanted = reply!("400 Bad Request", r#"{"error":"bad-body"}"#);

pub(super) const NO_ROUTE: Wanted = reply!("404 Not Found", r#"{"error":"no-route"}"#);

pub(super) const NO_ACCESSION: Wanted = reply!("404 Not Found", r#"{"error":"no-accession"}"#);

pub(super) const NO_DEED: Wanted = reply!("404 Not Found", r#"{"error":"no-deed"}"#);

/// Where memory or the store fails.
pub(super) const UNAVAILABLE: Wanted = reply!(
    "503 Service Unavailable",
    r#"{"error":"unavailable"}"#
);

/// Accession 12 with its file, which deed 7 lets read.
pub(super) const ALL_OF_12: Wanted = reply!(
    "200 OK",
    r#"{"accession":12,"deed":7,"files":[{"effect":"read","faults":[],"name":"HELLO","rule":"R7.20","size":258,"slot":0,"type":"PRG","user":null}],"kind":"d64"}"#
);

/// What the image of accession 12 has on it.
pub(super) const SURVEY_OF_12: Wanted = reply!(
    "200 OK",
    r#"{"accession":12,"deed":7,"directory":"end","donor":"A. Curator","faulty":0,"files":1,"kind":"d64","label":"MUSEUM","map":{"claimed_free":2,"unclaimed_used":0,"wrong_counts":0},"served":1,"signed":"2019-05-04","size_differs":0}"#
);

/// Where an image is as it was put.
pub(super) const SOUND: Wanted = reply!("200 OK", r#"{"outcome":"sound"}"#);

/// The table of all files, where that of accession 12 is listed.
pub(super) const ROW_OF_12: Wanted = catalogue!("102", "12,7,d64,0,,HELLO,PRG,258,,R7.20,read\n");

/// The bytes of the program `HELLO`.
pub(super) const HELLO: Wanted = Wanted::Texts(&[
    (
        "HTTP/1.1 200 OK\r\nContent-Type: application/octet-stream\r\nContent-Length: 258\r\nConnection: close\r\n\r\n",
        1,
    ),
    ("A", 254),
    ("BCDE", 1),
]);

/// A request for the program `HELLO`.
pub(super) const FOR_HELLO: Came = Came::Text(
    "GET /images/12/files/0 HTTP/1.1\r\nHost: desk\r\n\r\n",
);

/// A disk with a file of 16,384 bytes is taken in.
pub(super) const LONG: &[Visit] = table![
    ("image 15", AFTER, Came::Image("PUT /accessions/15/cpm8/7/7a7b9c0cedb0e0e6f3a5eb46bfc5b7a95909e17fc784e4652e498d4ad0eea2cb", Picture::Extent), DONE);
];

/// A request for that file.
pub(super) const FOR_LONG: Came = Came::Text("GET /images/15/files/0 HTTP/1.1\r\n\r\n");

/// Where deed 7 is closed to all but the staff.
pub(super) const CLOSED: Wanted = Wanted::Texts(&[(
    "HTTP/1.1 403 Forbidden\r\nContent-Type: application/json\r\nContent-Length: 33\r\nConnection: close\r\n\r\n{\"error\":\"denied\",\"rule\":\"R7.10\"}",
    1,
)]);

/// Where accession 12 is taken down.
pub(super) const TAKEN_DOWN: Wanted = reply!(
    "403 Forbidden",
    r#"{"error":"denied","rule":"T12.1"}"#
);

/// Where no rule matches.
pub(super) const NO_RULE: Wanted = reply!("403 Forbidden", r#"{"error":"denied","rule":"D0"}"#);

/// What a desk is given: a key for the reading room, two deeds, two rules of the first and an image.
pub(super) const GIVEN: &[Visit] = table![
    ("key", AFTER, Came::Asked("PUT /badges/2cf24dba5fb0a30e26e83b2ac5b9e29e1b161e5c1fa7425e73043362938b9824", STAFF, r#"{"audience":"room"}"#), DONE);
    ("deed 7", AFTER, Came::Asked("PUT /deeds/7", STAFF, r#"{"donor":"A. Curator","signed":"2019-05-04"}"#), DONE);
    ("deed 8", AFTER, Came::Asked("PUT /deeds/8", STAFF, r#"{"donor":"B. Donor","signed":"2020-02-29"}"#), DONE);
    ("rule 10", AFTER, Came::Asked("PUT /deeds/7/rules/10", STAFF, r#"{"audiences":["public","room"],"until":"2030-01-01","select":{"all":true},"effect":"deny"}"#), DONE);
    ("rule 20", AFTER, Came::Asked("PUT /deeds/7/rules/20", STAFF, r#"{"audiences":["public","room","staff"],"effect":"read","select":{"all":true}}"#), DONE);
    ("image 12", AFTER, Came::Image("PUT /accessions/12/d64/7/ee352834e06f2b572e65490eb845939724cc38542aed18acdf81eded76912afb", Picture::Program), DONE);
];

fn image_of(alloc: Global, picture: Picture) -> Result<Vec<u8>, NoMemory> {
    match picture {
        Picture::Program => one_program(alloc),
        Picture::Extent => two_extents(alloc),
    }
}

/// A request: its method and its path, the desk key, and the body.
fn request(alloc: Global, line: &str, key: Key, body: &[u8]) -> Result<Vec<u8>, NoMemory> {
    let length = body.len();
    let mut head = format!(in alloc; "{line} HTTP/1.1\r\nContent-Length: {length}\r\n")?;
    if let Some(key) = key {
        write!(head, "Desk-Key: {key}\r\n")?;
    }
    head.push_str("\r\n")?;
    let mut bytes = head.into_bytes();
    bytes.extend_from_slice(body)?;
    Ok(bytes)
}

pub(super) fn bytes_of(alloc: Global, came: Came) -> Result<Vec<u8>, NoMemory> {
    Ok(match came {
        Came::Text(text) => Vec::from_slice(alloc, text.as_bytes())?,
        Came::Asked(line, key, body) => request(alloc, line, key, body.as_bytes())?,
        Came::Image(line, image) => {
            let image = image_of(alloc, image)?;
            request(alloc, line, STAFF, image.as_slice())?
        }
    })
}

fn json_reply(alloc: Global, status: &str, line: &str, body: &str) -> Result<String, NoMemory> {
    let length = body.len();
    Ok(format!(in alloc;
        "HTTP/1.1 {status}\r\nContent-Type: application/json\r\nContent-Length: {length}\r\nConnection: close\r\n{line}\r\n{body}"
    )?)
}

pub(super) fn text_of(alloc: Global, wanted: Wanted) -> Result<String, NoMemory> {
    match wanted {
        Wanted::Json(status, line, body) => json_reply(alloc, status, line, body),
        Wanted::Texts(texts) => repeated(alloc, texts),
    }
}

const ONE: Served = served!(1, 0, 0, Count);

/// What goes out, as text, in a run of one visit at which these bytes come.
pub(super) fn reply_to(
    rt: &impl Abort,
    alloc: Global,
    desk: &mut Memory,
    label: &str,
    (seconds, came): (i64, Vec<u8>),
) -> Result<String, Fail> {
    let mut door = door_of(alloc, seconds, came)?;
    assert_eq!(rt; run(alloc, &mut door, desk, 1), ONE, "{label}");
    Ok(out_of(alloc, &door, 0)?)
}

/// All visits, in turn, get what has to go out.
pub(super) fn assert_visits(
    rt: &impl Abort,
    alloc: Global,
    desk: &mut Memory,
    visits: &[Visit],
) -> Result<(), Fail> {
    for (label, seconds, came, wanted) in visits {
        let bytes = bytes_of(alloc, *came)?;
        let out = reply_to(rt, alloc, desk, label, (*seconds, bytes))?;
        assert_eq!(rt; out, text_of(alloc, *wanted)?, "{label}");
    }
    Ok(())
}

/// A desk that is given a key for the reading room, two deeds, two rules of the first and an image under it.
pub(super) fn filled_desk(rt: &impl Abort, alloc: Global) -> Result<Memory, Fail> {
    let mut desk = new_desk(alloc)?;
    assert_visits(rt, alloc, &mut desk, GIVEN)?;
    Ok(desk)
}
