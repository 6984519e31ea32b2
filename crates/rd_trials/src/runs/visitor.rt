//! Visitors at the door of the machine.

use crate::bytes::add_out;
use crate::image::build_with;
use crate::message::Message;
use anyhow::{Context, Result, bail};
use rd_geometry::Items;
use rd_http::MemoryDoor;
use std::alloc::{AllocError, Global};

/// How a visit must end.
#[derive(Clone, Copy, PartialEq, Eq)]
enum Ending {
    /// With a reply, which lines describe.
    Reply,
    /// The door admits it, and no byte goes out.
    Nothing,
    /// The door does not admit it.
    Waits,
}

/// A visit: its name, its place and its moment, what comes, and how it must end.
#[derive(Drop)]
pub(crate) struct Visitor<'a> {
    pub(crate) place: &'a str,
    pub(crate) name: &'a str,
    seconds: Option<i64>,
    came: Message<'a>,
    reply: Message<'a>,
    ending: Ending,
}

impl<'a> Visitor<'a> {
    pub(crate) fn new(
        alloc: Global,
        place: &'a str,
        name: &'a str,
        seconds: Option<i64>,
    ) -> Visitor<'a> {
        Visitor {
            place,
            name,
            seconds,
            came: Message::new(alloc),
            reply: Message::new(alloc),
            ending: Ending::Reply,
        }
    }

    /// Reads a line: its first word, and the text after it.
    pub(crate) fn read(&mut self, rt: &HostRuntime, word: &str, text: &'a str) -> Result<()> {
        match word {
            "ask" | "key" | "body" => Ok(self.came.read_request(word, text)?),
            "json" | "csv" | "octets" | "field" => Ok(self.reply.read_head(word, text)?),
            "out" | "out-fill" => add_out(rt.alloc(), &mut self.reply.body, word, text),
            "nothing" => {
                self.ending = Ending::Nothing;
                Ok(())
            }
            "waits" => {
                self.ending = Ending::Waits;
                Ok(())
            }
            _ => build_with(rt, &mut self.came.body, word, text),
        }
    }

    /// The moment of the visit and the bytes that come.
    pub(crate) fn coming(&self, rt: &HostRuntime) -> Result<(i64, Items<u8>)> {
        let seconds = self.seconds.context("no moment")?;
        Ok((seconds, Items::of(self.came.request(rt)?)))
    }

    /// What the visit must give.
    pub(crate) fn wanted(&self, alloc: Global) -> Result<Vec<u8>> {
        if self.ending == Ending::Reply && self.reply.is_empty() {
            bail!("no reply is told");
        }
        if self.ending != Ending::Reply && !self.reply.is_empty() {
            bail!("a reply is told where none goes out");
        }
        match self.ending {
            Ending::Waits => Ok(outcome_of(alloc, None)?),
            _ => {
                let out = self.reply.reply(alloc)?;
                Ok(outcome_of(alloc, Some(out.as_slice()))?)
            }
        }
    }
}

/// The report of a visit at which these bytes went out; `out` is `None` for a visit that the door
/// did not admit.
fn outcome_of(alloc: Global, out: Option<&[u8]>) -> Result<Vec<u8>, AllocError> {
    let Some(out) = out else {
        return Vec::from_slice(alloc, b"[waits]");
    };
    let mut told = Vec::from_slice(alloc, b"[admitted] ")?;
    told.extend_from_slice(out)?;
    Ok(told)
}

/// The outcome of the visit with this number at a door. Visits are counted from 0.
pub(crate) fn outcome_at(
    alloc: Global,
    door: &MemoryDoor,
    number: usize,
) -> Result<Vec<u8>, AllocError> {
    match door.visits().get(number) {
        Some(visit) => outcome_of(alloc, Some(visit.out())),
        None => outcome_of(alloc, None),
    }
}
