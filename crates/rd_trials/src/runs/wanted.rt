//! What a run must leave.

use super::machine::{add_limits, told_place};
use crate::bytes::add_out;
use anyhow::{Result, bail};
use rd_fakes::escapes::add_bytes;
use rd_fakes::tally::Tally;
use rd_http::TimeLimits;
use rd_program::Place;
use std::alloc::{AllocError, Global};
use std::time::Duration;

/// What a run left.
#[derive(Drop)]
pub(crate) struct Ran {
    pub(crate) status: u8,
    pub(crate) output: Vec<u8>,
    pub(crate) errors: Vec<u8>,
    /// The place that the program asked the machine for, and how long a visitor may take there if that is not as usual.
    pub(crate) place: Option<String>,
    /// How many files it made.
    pub(crate) made: usize,
    /// Whether the machine has its store back.
    pub(crate) is_released: bool,
}

/// What a run must leave: its status, what it writes to its output and its errors, and the place
/// that it asks for.
#[derive(Drop)]
pub(crate) struct Wanted<'a> {
    status: u8,
    output: Vec<u8>,
    errors: Vec<u8>,
    place: Option<String>,
    /// How many files it must make.
    pub(crate) made: usize,
    /// Texts that the output must have. If there are any, the rest of the output is not compared.
    parts: Vec<&'a str>,
    /// Whether the run must write something to its errors, whatever it is.
    is_mistake: bool,
}

/// The report of a run that leaves this.
fn outcome_of(
    alloc: Global,
    status: u8,
    output: &[u8],
    errors: &[u8],
    (place, made): (Option<&str>, usize),
) -> Result<Vec<u8>, AllocError> {
    let mut text = format!(in alloc; "[status {status}")?;
    if let Some(place) = place {
        write!(text, ", {place}")?;
    }
    if made != 0 {
        write!(text, ", makes {made}")?;
    }
    text.push_str("] ")?;
    let mut told = text.into_bytes();
    told.extend_from_slice(output)?;
    if !errors.is_empty() {
        told.extend_from_slice(b" [told] ")?;
        told.extend_from_slice(errors)?;
    }
    Ok(told)
}

/// How long a visitor may take, from three numbers of seconds.
fn limits_of(text: &str) -> Result<TimeLimits> {
    let mut parts = text.split(' ');
    match (parts.next(), parts.next(), parts.next(), parts.next()) {
        (Some(request), Some(write), Some(reply), None) => Ok(TimeLimits {
            request: Duration::from_secs(request.parse()?),
            write: Duration::from_secs(write.parse()?),
            reply: Duration::from_secs(reply.parse()?),
        }),
        _ => bail!("limits are three numbers"),
    }
}

impl<'a> Wanted<'a> {
    /// What a run must leave whose other lines come later, or one of words that are no command.
    pub(crate) fn new(alloc: Global, is_mistake: bool) -> Wanted<'a> {
        Wanted {
            status: if is_mistake { 2 } else { 0 },
            output: Vec::new(alloc),
            errors: Vec::new(alloc),
            place: None,
            made: 0,
            parts: Vec::new(alloc),
            is_mistake,
        }
    }

    /// Reads a line: its first word, and the text after it.
    pub(crate) fn read(&mut self, alloc: Global, word: &str, text: &'a str) -> Result<()> {
        match word {
            "status" => self.status = text.parse()?,
            "port" => self.place = Some(told_place(alloc, Place::Port(text.parse()?))?),
            "socket" => self.place = Some(told_place(alloc, Place::Socket(text))?),
            "limits" => self.add_limits(text)?,
            "part" => self.parts.push(text)?,
            "errors" => add_bytes(&mut self.errors, text)?,
            _ => add_out(alloc, &mut self.output, word, text)?,
        }
        Ok(())
    }

    /// Adds how many seconds a visitor may take, after the line of a place.
    fn add_limits(&mut self, text: &str) -> Result<()> {
        match &mut self.place {
            Some(place) => Ok(add_limits(place, limits_of(text)?)?),
            None => bail!("limits without a place"),
        }
    }

    /// The expected report of the run.
    fn outcome(&self, alloc: Global) -> Result<Vec<u8>, AllocError> {
        let errors = if self.is_mistake {
            b"a mistake".as_slice()
        } else {
            self.errors.as_slice()
        };
        outcome_of(
            alloc,
            self.status,
            self.output.as_slice(),
            errors,
            (self.place.as_deref(), self.made),
        )
    }

    /// The report of the run, as far as it is compared.
    fn outcome_of(&self, alloc: Global, ran: &Ran) -> Result<Vec<u8>, AllocError> {
        let output = if self.parts.is_empty() {
            ran.output.as_slice()
        } else {
            &[]
        };
        let errors = if self.is_mistake && !ran.errors.is_empty() {
            b"a mistake".as_slice()
        } else {
            ran.errors.as_slice()
        };
        let mut told = outcome_of(
            alloc,
            ran.status,
            output,
            errors,
            (ran.place.as_deref(), ran.made),
        )?;
        if !ran.is_released {
            told.extend_from_slice(b" [the store is kept]")?;
        }
        Ok(told)
    }

    /// Compares it with what a run left. Each text that the output must have is a further case.
    pub(crate) fn judge(
        &self,
        rt: &HostRuntime,
        case: (&str, &str),
        ran: &Ran,
        tally: &mut Tally,
    ) -> Result<()> {
        let wanted = self.outcome(rt.alloc())?;
        let came = self.outcome_of(rt.alloc(), ran)?;
        tally.judge(rt, case, wanted.as_slice(), came.as_slice())?;
        let output = String::from_utf8_lossy(rt.alloc(), ran.output.as_slice())?;
        for part in &self.parts {
            let came = if output.as_str().contains(*part) {
                *part
            } else {
                output.as_str()
            };
            tally.judge(rt, case, part.as_bytes(), came.as_bytes())?;
        }
        Ok(())
    }
}
