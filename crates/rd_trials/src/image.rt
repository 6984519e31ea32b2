//! Sample images, built from files of text.

use crate::bytes::build;
use crate::script::parts_of;
use anyhow::{Context, Result, bail};
use sha2::{Digest, Sha256};
use std::fs;

/// How many images at most stand behind an image, each beginning with the next.
const MOST_BASES: usize = 8;

/// The image that a text begins with, if its first line names one, and its other lines.
fn base_of(text: &str) -> (Option<&str>, &str) {
    match text.strip_prefix("image ") {
        None => (None, text),
        Some(rest) => {
            let (name, lines) = rest.split_once('\n').unwrap_or((rest, ""));
            (Some(name), lines)
        }
    }
}

/// The texts of an image and of those it begins with, each before the one that it begins with.
fn texts_of(rt: &HostRuntime, name: &str) -> Result<Vec<String>> {
    let mut texts = Vec::new(rt.alloc());
    let mut next = Some(String::from_str(rt.alloc(), name)?);
    for _ in 0..MOST_BASES {
        let Some(name) = next else {
            return Ok(texts);
        };
        let text = fs::read_to_string(rt, name.as_str()).context(format_args!("{name}"))?;
        next = match base_of(text.as_str()) {
            (Some(base), _) => Some(String::from_str(rt.alloc(), base)?),
            (None, _) => None,
        };
        texts.push(text)?;
    }
    bail!("{name}: too many images, each of which begins with another")
}

/// Adds what the lines of a text build.
fn add_lines(rt: &HostRuntime, bytes: &mut Vec<u8>, text: &str) -> Result<()> {
    let (_, lines) = base_of(text);
    for line in lines.lines() {
        let (word, rest) = parts_of(line);
        if !matches!(word, "" | "#") {
            build(rt.alloc(), bytes, word, rest).context(format_args!("{line}"))?;
        }
    }
    Ok(())
}

/// The image that a file of this name builds.
pub(crate) fn image_of(rt: &HostRuntime, name: &str) -> Result<Vec<u8>> {
    let texts = texts_of(rt, name)?;
    let mut bytes = Vec::new(rt.alloc());
    for text in texts.iter().rev() {
        add_lines(rt, &mut bytes, text.as_str()).context(format_args!("{name}"))?;
    }
    Ok(bytes)
}

/// Builds bytes by a line, which may add an image: its word, and the text after it.
pub(crate) fn build_with(
    rt: &HostRuntime,
    bytes: &mut Vec<u8>,
    word: &str,
    text: &str,
) -> Result<()> {
    match word {
        "image" => Ok(bytes.extend_from_slice(image_of(rt, text)?.as_slice())?),
        _ => build(rt.alloc(), bytes, word, text),
    }
}

/// The SHA-256 of some bytes, as its 64 digits.
pub(crate) fn digest_of(rt: &HostRuntime, bytes: &[u8]) -> Result<String> {
    Ok(hex::encode(rt.alloc(), Sha256::digest(bytes))?)
}
