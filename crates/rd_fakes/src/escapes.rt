//! Bytes written as text.

use anyhow::{Context, Result, bail};
use std::alloc::{AllocError, Global};

/// How far the reading of an escape has come.
#[derive(Clone, Copy)]
enum Place {
    Plain,
    Escape,
    High,
    Low(u8),
}

/// The number that a hexadecimal digit stands for.
fn digit_of(byte: u8) -> Option<u8> {
    match byte {
        b'0'..=b'9' => Some(byte - b'0'),
        b'a'..=b'f' => Some(byte - b'a' + 10),
        _ => None,
    }
}

/// Reads one byte of a text, and gives the byte that ends there.
fn step(place: Place, byte: u8) -> Option<(Place, Option<u8>)> {
    match (place, byte) {
        (Place::Plain, b'\\') => Some((Place::Escape, None)),
        (Place::Plain, _) => Some((Place::Plain, Some(byte))),
        (Place::Escape, b'r') => Some((Place::Plain, Some(b'\r'))),
        (Place::Escape, b'n') => Some((Place::Plain, Some(b'\n'))),
        (Place::Escape, b't') => Some((Place::Plain, Some(b'\t'))),
        (Place::Escape, b'\\') => Some((Place::Plain, Some(b'\\'))),
        (Place::Escape, b'x') => Some((Place::High, None)),
        (Place::Escape, _) => None,
        (Place::High, _) => Some((Place::Low(digit_of(byte)?), None)),
        (Place::Low(high), _) => Some((Place::Plain, Some(high << 4 | digit_of(byte)?))),
    }
}

/// Adds the bytes that a text stands for: `\r`, `\n`, `\t` and `\\` are one byte each, and so is `\x` with two
/// hexadecimal digits in small letters.
pub fn add_bytes(bytes: &mut Vec<u8>, text: &str) -> Result<()> {
    let mut place = Place::Plain;
    for byte in text.bytes() {
        let (next, ended) = step(place, byte).context("no such escape")?;
        place = next;
        if let Some(ended) = ended {
            bytes.push(ended)?;
        }
    }
    match place {
        Place::Plain => Ok(()),
        _ => bail!("an escape is cut"),
    }
}

/// The bytes that a text stands for.
pub fn bytes_of(alloc: Global, text: &str) -> Result<Vec<u8>> {
    let mut bytes = Vec::new(alloc);
    add_bytes(&mut bytes, text)?;
    Ok(bytes)
}

/// A text that stands for these bytes. It writes a blank at the end as `\x20`.
pub(crate) fn escaped(alloc: Global, bytes: &[u8]) -> Result<String, AllocError> {
    let mut text = String::new(alloc);
    let (bytes, end) = match bytes {
        [rest @ .., b' '] => (rest, "\\x20"),
        _ => (bytes, ""),
    };
    for byte in bytes {
        match *byte {
            b'\r' => text.push_str("\\r")?,
            b'\n' => text.push_str("\\n")?,
            b'\t' => text.push_str("\\t")?,
            b'\\' => text.push_str("\\\\")?,
            b' '..=b'~' => text.push(char::from(*byte))?,
            _ => write!(text, "\\x{byte:02x}")?,
        }
    }
    text.push_str(end)?;
    Ok(text)
}
