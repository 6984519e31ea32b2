//! An explanation, as bytes.

ghost use Rattle.std.specs.Prelude.{◌≡◌, ◌++◌, IfOk, OnOk, flat_map, map};
ghost use Rattle.rd_explanations.specs.Explained as spec;
ghost use Rattle.rd_explanations.specs.Explained.{AreLines, shown_line};

use crate::line::Line;
use rd_geometry::NoMemory;
use std::alloc::{AllocError, Global};

/// A byte as a line shows it: a question mark for a control byte of ASCII, and any other as it is.
fn shown_byte(byte: u8) -> u8
    ensures { result ≡ spec.shown_byte byte }
{
    if byte < b' ' || byte == 127 {
        b'?'
    } else {
        byte
    }
}

/// Adds bytes as a line shows them.
fn push_shown(bytes: &mut Vec<u8>, body: &[u8]) -> Result<(), AllocError>
    ensures { OnOk result (bytes.new.items ≡ bytes.old.items ++ map spec.shown_byte body.now) }
{
    for byte in body {
        bytes.push(shown_byte(*byte))?;
    }
    Ok(())
}

/// Adds a line: two blanks, what it says, and a line feed.
fn push_line(alloc: Global, bytes: &mut Vec<u8>, line: &Line) -> Result<(), AllocError>
    ensures { OnOk result (bytes.new.items ≡ bytes.old.items ++ shown_line line.now) }
{
    let body = format!(in alloc; "{line}")?;
    bytes.extend_from_slice(b"  ")?;
    push_shown(bytes, body.as_bytes())?;
    bytes.extend_from_slice(b"\n")
}

/// The lines of an explanation, in their order. Whatever a path holds, each of them is one line: two blanks, bytes of
/// which none is a control byte of ASCII, and a line feed. A path in UTF-8 may still hold characters beyond ASCII that some
/// terminals obey. It fails only when memory runs out.
pub fn explained(alloc: Global, lines: &[Line]) -> Result<Vec<u8>, NoMemory>
    ensures text { IfOk result (λ bytes. bytes.items ≡ flat_map shown_line lines.now) }
    ensures lines { IfOk result (λ bytes. AreLines bytes.items) }
{
    let mut bytes = Vec::new(alloc);
    for line in lines {
        push_line(alloc, &mut bytes, line)?;
    }
    Ok(bytes)
}
