//! The lines of a trial.

use crate::repeats::repeated;
use anyhow::{Context, Result};
use std::alloc::{AllocError, Global};
use std::fs;

/// A line: its place, as a file and a number, and its text.
#[derive(Drop)]
pub(crate) struct Line {
    pub(crate) place: String,
    pub(crate) text: String,
}

impl Line {
    pub(crate) fn copy(&self) -> Result<Line, AllocError> {
        Ok(Line {
            place: self.place.clone()?,
            text: self.text.clone()?,
        })
    }
}

/// The first word of a line, and the text after it.
pub(crate) fn parts_of(line: &str) -> (&str, &str) {
    line.split_once(' ').unwrap_or((line, ""))
}

fn new_line(alloc: Global, file: &str, number: usize, text: &str) -> Result<Line, AllocError> {
    Ok(Line {
        place: format!(in alloc; "{file}:{number}")?,
        text: String::from_str(alloc, text)?,
    })
}

/// The lines of a file, without empty ones and notes.
fn lines_of(rt: &HostRuntime, file: &str) -> Result<Vec<Line>> {
    let text = fs::read_to_string(rt, file).context(format_args!("{file}"))?;
    let mut lines = Vec::new(rt.alloc());
    let mut number = 0usize;
    for line in text.lines() {
        number = number.saturating_add(1);
        if !matches!(parts_of(line).0, "" | "#") {
            lines.push(new_line(rt.alloc(), file, number, line)?)?;
        }
    }
    Ok(lines)
}

fn add_copies(lines: &mut Vec<Line>, more: &[Line]) -> Result<(), AllocError> {
    for line in more {
        lines.push(line.copy()?)?;
    }
    Ok(())
}

/// Adds a line of a trial, with the lines of the file that it plays in its place: once after a line `play`; after a line
/// `given`, there and after each line `anew`.
fn add_played(
    rt: &HostRuntime,
    all: &mut Vec<Line>,
    given: &mut Vec<Line>,
    line: &Line,
) -> Result<()> {
    match parts_of(line.text.as_str()) {
        ("play", file) => add_copies(all, &lines_of(rt, file)?)?,
        ("given", file) => {
            *given = lines_of(rt, file)?;
            add_copies(all, given)?;
        }
        ("anew", _) => {
            all.push(line.copy()?)?;
            add_copies(all, given)?;
        }
        _ => all.push(line.copy()?)?,
    }
    Ok(())
}

/// The lines of a trial in the order of play.
pub(crate) fn script_of(rt: &HostRuntime, file: &str) -> Result<Vec<Line>> {
    let mut all = Vec::new(rt.alloc());
    let mut given = Vec::new(rt.alloc());
    for line in &lines_of(rt, file)? {
        add_played(rt, &mut all, &mut given, line).context(format_args!("{}", line.place))?;
    }
    repeated(rt.alloc(), &all)
}
