//! Visits as a trial describes them.

use crate::bytes::add_out;
use crate::image::build_with;
use crate::message::Message;
use anyhow::{Context, Result, bail};
use rd_fakes::wire::{Plan, WHOLE};
use rd_http::WireFault;
use std::alloc::{AllocError, Global};

/// How a reply must compare with that of the first visit in the file that is `alike` a name.
#[derive(Clone, Copy)]
pub(crate) struct Likeness<'a> {
    pub(crate) name: &'a str,
    pub(crate) is_alike: bool,
}

/// A visit: its name and place, what comes, what must go out (if the trial says so), over which
/// connection, and how it ends.
#[derive(Drop)]
pub(crate) struct Visit<'a> {
    pub(crate) place: &'a str,
    pub(crate) name: &'a str,
    pub(crate) came: Message<'a>,
    reply: Message<'a>,
    pub(crate) likeness: Option<Likeness<'a>>,
    /// How many bytes of the reply go out, if not all do.
    front: Option<usize>,
    pub(crate) plan: Plan,
    ending: Result<(), WireFault>,
}

/// The word for how a visit ends.
fn word_of(ending: Result<(), WireFault>) -> &'static str {
    match ending {
        Ok(()) => "well",
        Err(WireFault::Read) => "read",
        Err(WireFault::Write) => "write",
        Err(WireFault::Clock) => "clock",
    }
}

/// The fault with which a visit ends, by its word.
fn fault_of(word: &str) -> Result<WireFault> {
    match word {
        "read" => Ok(WireFault::Read),
        "write" => Ok(WireFault::Write),
        "clock" => Ok(WireFault::Clock),
        _ => bail!("no such fault"),
    }
}

/// The report of a visit that ends so, with these bytes going out.
pub(crate) fn outcome_of(
    alloc: Global,
    ending: Result<(), WireFault>,
    out: &[u8],
) -> Result<Vec<u8>, AllocError> {
    let word = word_of(ending);
    let mut told = format!(in alloc; "[{word}]")?.into_bytes();
    if !out.is_empty() {
        told.push(b' ')?;
        told.extend_from_slice(out)?;
    }
    Ok(told)
}

/// Two numbers.
fn numbers_of(text: &str) -> Result<(usize, usize)> {
    let (one, other) = text.split_once(' ').context("no two numbers")?;
    Ok((one.parse()?, other.parse()?))
}

impl<'a> Visit<'a> {
    pub(crate) fn new(alloc: Global, place: &'a str, name: &'a str) -> Visit<'a> {
        Visit {
            place,
            name,
            came: Message::new(alloc),
            reply: Message::new(alloc),
            likeness: None,
            front: None,
            plan: WHOLE,
            ending: Ok(()),
        }
    }

    /// What the visit must give; `None` if the trial does not say.
    pub(crate) fn told(&self, alloc: Global) -> Result<Option<Vec<u8>>, AllocError> {
        if self.reply.is_empty() && self.ending.is_ok() {
            return Ok(None);
        }
        let mut out = self.reply.reply(alloc)?;
        if let Some(front) = self.front {
            out.truncate(front);
        }
        Ok(Some(outcome_of(alloc, self.ending, out.as_slice())?))
    }

    /// Reads a line: its first word, and the text after it.
    pub(crate) fn read(&mut self, rt: &HostRuntime, word: &str, text: &'a str) -> Result<()> {
        match word {
            "ask" | "key" | "body" => Ok(self.came.read_request(word, text)?),
            "json" | "csv" | "octets" | "field" => Ok(self.reply.read_head(word, text)?),
            "out" | "out-fill" => add_out(rt.alloc(), &mut self.reply.body, word, text),
            "alike" | "unlike" => {
                let is_alike = word == "alike";
                self.likeness = Some(Likeness {
                    name: text,
                    is_alike,
                });
                Ok(())
            }
            "reads" | "writes" | "takes" | "ends" | "front" => self.read_plan(word, text),
            _ => build_with(rt, &mut self.came.body, word, text),
        }
    }

    /// Reads a line about the connection.
    fn read_plan(&mut self, word: &str, text: &str) -> Result<()> {
        match word {
            "reads" => {
                let (most, reads) = numbers_of(text)?;
                self.plan.most_given = most;
                self.plan.reads = reads;
            }
            "writes" => {
                let (most, writes) = numbers_of(text)?;
                self.plan.most_taken = most;
                self.plan.writes = writes;
            }
            "takes" => self.plan.room = text.parse()?,
            "ends" => self.ending = Err(fault_of(text)?),
            _ => self.front = Some(text.parse()?),
        }
        Ok(())
    }
}
