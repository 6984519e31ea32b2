//! Repeated lines of a trial.

use crate::script::{Line, parts_of};
use anyhow::{Context, Result, bail};
use std::alloc::{AllocError, Global};

/// Repeated lines, with each of these values in place of a name, and with the next number in place
/// of the name and `+1`.
#[derive(Drop)]
struct Block<'a> {
    /// Where it begins.
    place: &'a str,
    name: &'a str,
    values: Vec<String>,
    lines: Vec<&'a Line>,
}

/// The numbers from one up to another, all of them or by a step.
fn numbers_of(alloc: Global, text: &str) -> Result<Vec<String>> {
    let (first, rest) = text.split_once(' ').context("no two numbers")?;
    let (last, step) = rest.split_once(' ').unwrap_or((rest, "1"));
    let first = first.parse::<u32>()?;
    let step = step.parse::<u32>()?;
    let span = last
        .parse::<u32>()?
        .checked_sub(first)
        .context("no number")?;
    let steps = span.checked_div(step).context("a step of 0")?;
    let mut numbers = Vec::new(alloc);
    for n in 0..=steps {
        let number = first.saturating_add(n.saturating_mul(step));
        numbers.push(number.to_string(alloc)?)?;
    }
    Ok(numbers)
}

/// The words of a text, separated by blanks.
fn words_of(alloc: Global, text: &str) -> Result<Vec<String>> {
    let mut words = Vec::new(alloc);
    for word in text.split(' ') {
        words.push(String::from_str(alloc, word)?)?;
    }
    Ok(words)
}

/// A text with a value in place of a name, and what stands behind it, in braces.
fn with_value(
    alloc: Global,
    text: &str,
    (name, more): (&str, &str),
    value: &str,
) -> Result<String, AllocError> {
    let mark = format!(in alloc; "{{{name}{more}}}")?;
    text.replace(alloc, mark.as_str(), value)
}

impl<'a> Block<'a> {
    fn new(alloc: Global, place: &'a str, word: &str, text: &'a str) -> Result<Block<'a>> {
        let (name, values) = text.split_once(' ').context("no values")?;
        let values = match word {
            "for" => numbers_of(alloc, values)?,
            _ => words_of(alloc, values)?,
        };
        Ok(Block {
            place,
            name,
            values,
            lines: Vec::new(alloc),
        })
    }

    /// A line of the block with one value.
    fn line_with(&self, alloc: Global, line: &Line, value: &str) -> Result<Line, AllocError> {
        let mut text = with_value(alloc, line.text.as_str(), (self.name, ""), value)?;
        if let Ok(number) = value.parse::<u32>() {
            let next = number.saturating_add(1).to_string(alloc)?;
            text = with_value(alloc, text.as_str(), (self.name, "+1"), next.as_str())?;
        }
        Ok(Line {
            place: line.place.clone()?,
            text,
        })
    }

    /// Adds the lines of the block with one value.
    fn add_with(&self, alloc: Global, all: &mut Vec<Line>, value: &str) -> Result<(), AllocError> {
        for line in &self.lines {
            all.push(self.line_with(alloc, *line, value)?)?;
        }
        Ok(())
    }

    /// Adds the lines of the block with each value.
    fn add_to(&self, alloc: Global, all: &mut Vec<Line>) -> Result<(), AllocError> {
        for value in &self.values {
            self.add_with(alloc, all, value.as_str())?;
        }
        Ok(())
    }
}

/// Takes one more line, and gives the block that the line is in or begins.
fn taken<'a>(
    alloc: Global,
    all: &mut Vec<Line>,
    block: Option<Block<'a>>,
    line: &'a Line,
) -> Result<Option<Block<'a>>> {
    let (word, text) = parts_of(line.text.as_str());
    match (word, block) {
        ("for" | "each", None) => Ok(Some(Block::new(alloc, line.place.as_str(), word, text)?)),
        ("for" | "each", Some(_)) => bail!("a block in a block"),
        ("end", Some(block)) => {
            block.add_to(alloc, all)?;
            Ok(None)
        }
        ("end", None) => bail!("no block begins before"),
        (_, Some(mut block)) => {
            block.lines.push(line)?;
            Ok(Some(block))
        }
        (_, None) => {
            all.push(line.copy()?)?;
            Ok(None)
        }
    }
}

/// The lines, with each block between `for` or `each` and `end` repeated as often as it says.
pub(crate) fn repeated(alloc: Global, lines: &[Line]) -> Result<Vec<Line>> {
    let mut all = Vec::new(alloc);
    let mut block = None;
    for line in lines {
        let place = line.place.as_str();
        block = taken(alloc, &mut all, block, line).context(format_args!("{place}"))?;
    }
    match block {
        None => Ok(all),
        Some(block) => bail!("{}: no end", block.place),
    }
}
