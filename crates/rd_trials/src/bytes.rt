//! Builds bytes line by line.

use anyhow::{Context, Result, bail};
use rd_fakes::escapes::{add_bytes, bytes_of};
use std::alloc::{AllocError, Global};

/// A number, and the text after it.
fn number_and_text(text: &str) -> Result<(usize, &str)> {
    let (number, rest) = text.split_once(' ').context("no number before a text")?;
    Ok((number.parse()?, rest))
}

/// Adds bytes so many times.
fn add_times(
    alloc: Global,
    bytes: &mut Vec<u8>,
    unit: &[u8],
    count: usize,
) -> Result<(), AllocError> {
    if let [byte] = unit {
        return bytes.extend_from_slice(vec![in alloc; *byte; count]?.as_slice());
    }
    for _ in 0..count {
        bytes.extend_from_slice(unit)?;
    }
    Ok(())
}

/// Adds a text so many times.
fn fill(alloc: Global, bytes: &mut Vec<u8>, text: &str) -> Result<()> {
    let (count, text) = number_and_text(text)?;
    let unit = bytes_of(alloc, text)?;
    Ok(add_times(alloc, bytes, unit.as_slice(), count)?)
}

/// Writes these bytes over others, from a place on.
fn write_at(bytes: &mut [u8], place: usize, unit: &[u8]) -> Result<()> {
    if place > bytes.len() || unit.len() > bytes.len() - place {
        bail!("past the end");
    }
    bytes[place..place + unit.len()].copy_from_slice(unit);
    Ok(())
}

/// Writes a text over a place: the place and the text. Or over places at equal steps: the first place, the step, the count
/// and the text.
fn write_over(alloc: Global, bytes: &mut Vec<u8>, text: &str, is_each: bool) -> Result<()> {
    let (first, text) = number_and_text(text)?;
    let (step, text) = if is_each {
        number_and_text(text)?
    } else {
        (0, text)
    };
    let (count, text) = if is_each {
        number_and_text(text)?
    } else {
        (1, text)
    };
    let unit = bytes_of(alloc, text)?;
    let mut place = first;
    for _ in 0..count {
        write_at(bytes.as_mut_slice(), place, unit.as_slice())?;
        place = place.saturating_add(step);
    }
    Ok(())
}

/// Keeps only so many bytes.
fn cut(bytes: &mut Vec<u8>, text: &str) -> Result<()> {
    let length = text.parse::<usize>()?;
    if length > bytes.len() {
        bail!("past the end");
    }
    bytes.truncate(length);
    Ok(())
}

/// Builds bytes by a line: its word, and the text after it.
pub(crate) fn build(alloc: Global, bytes: &mut Vec<u8>, word: &str, text: &str) -> Result<()> {
    match word {
        "send" => add_bytes(bytes, text),
        "fill" => fill(alloc, bytes, text),
        "over" => write_over(alloc, bytes, text, false),
        "over-each" => write_over(alloc, bytes, text, true),
        "cut" => cut(bytes, text),
        _ => bail!("no such word"),
    }
}

/// Adds bytes that must go out, by a line: its word, `out` or `out-fill`, and the text after it.
pub(crate) fn add_out(alloc: Global, bytes: &mut Vec<u8>, word: &str, text: &str) -> Result<()> {
    match word {
        "out" => add_bytes(bytes, text),
        _ => fill(alloc, bytes, text),
    }
}
