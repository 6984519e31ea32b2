//! Runs as a trial describes them.

use super::machine::{Lack, Museum};
use super::visitor::{Visitor, outcome_at};
use super::wanted::{Ran, Wanted};
use crate::image::build_with;
use anyhow::{Context, Result, bail};
use rd_fakes::escapes::bytes_of;
use rd_fakes::stream::Narrow;
use rd_fakes::tally::Tally;
use rd_fakes::wire::new_door;
use rd_http::MemoryDoor;
use rd_program::{MachineFault, Remembered, Why, explain, run};
use std::alloc::{AllocError, Global};
use std::mem;

/// A file that a run must make: its path and its bytes.
#[derive(Drop)]
struct Making<'a> {
    path: &'a str,
    bytes: Vec<u8>,
}

/// A run: its name and its place, the words, the standard input, how much the output takes, what
/// the machine does not give, the visits, and what the run must leave.
#[derive(Drop)]
pub(crate) struct Run<'a> {
    pub(crate) place: &'a str,
    name: &'a str,
    words: Vec<String>,
    input: Vec<u8>,
    /// How many bytes the output takes, and how many flushes.
    room: usize,
    flushes: usize,
    lacks: Vec<Lack>,
    /// What the clock of the machine shows.
    clock: Option<i64>,
    pub(crate) visitors: Vec<Visitor<'a>>,
    /// The files that it must make; it may make no other.
    makings: Vec<Making<'a>>,
    wanted: Wanted<'a>,
}

/// A word of a command; `''` is the empty word.
fn word_of(alloc: Global, text: &str) -> Result<String> {
    match text {
        "" => bail!("a blank too many: the empty word is ''"),
        "''" => Ok(String::new(alloc)),
        _ => match String::from_utf8(bytes_of(alloc, text)?) {
            Ok(word) => Ok(word),
            Err(_) => bail!("a word that is no text"),
        },
    }
}

/// The words of a command, separated by blanks.
pub(crate) fn words_of(alloc: Global, text: &str) -> Result<Vec<String>> {
    let mut words = Vec::new(alloc);
    if !text.is_empty() {
        for part in text.split(' ') {
            words.push(word_of(alloc, part)?)?;
        }
    }
    Ok(words)
}

fn slices_of(alloc: Global, words: &[String]) -> Result<Vec<&str>, AllocError> {
    words.iter().map(|word| word.as_str()).collect(alloc)
}

/// Runs the program on a machine, and has it explain itself, without a clause, so that a proof does not carry what the
/// run says.
fn run_program(
    alloc: Global,
    words: &[&str],
    mut input: &[u8],
    (output, errors): (&mut Narrow, &mut Vec<u8>),
    museum: &mut Museum,
) -> u8 {
    let mut why = Why::UNKNOWN;
    let status = run(alloc, words, &mut input, output, errors, museum, &mut why);
    explain(alloc, &why, museum, errors);
    status
}

/// A door through which these visitors come.
fn door_of(rt: &HostRuntime, visitors: &[Visitor<'_>]) -> Result<MemoryDoor> {
    let mut to_come = Vec::new(rt.alloc());
    for visitor in visitors {
        let coming = visitor
            .coming(rt)
            .context(format_args!("{}", visitor.place))?;
        to_come.push(coming)?;
    }
    Ok(new_door(rt.alloc(), to_come)?)
}

impl<'a> Run<'a> {
    /// A run of words that must leave this, with nothing else set.
    pub(crate) fn new(
        alloc: Global,
        (place, name): (&'a str, &'a str),
        clock: Option<i64>,
        words: Vec<String>,
        wanted: Wanted<'a>,
    ) -> Run<'a> {
        Run {
            place,
            name,
            words,
            input: Vec::new(alloc),
            room: usize::MAX,
            flushes: usize::MAX,
            lacks: Vec::new(alloc),
            clock,
            visitors: Vec::new(alloc),
            makings: Vec::new(alloc),
            wanted,
        }
    }

    /// Reads a line: its first word, and the text after it. After a visit has begun, the line is
    /// about the last visit.
    pub(crate) fn read(&mut self, rt: &HostRuntime, word: &str, text: &'a str) -> Result<()> {
        if let Some(visitor) = self.visitors.last_mut() {
            return visitor.read(rt, word, text);
        }
        if word == "makes" {
            return self.add_making(rt.alloc(), text);
        }
        if let Some(making) = self.makings.last_mut() {
            return build_with(rt, &mut making.bytes, word, text);
        }
        match word {
            "words" => self.words = words_of(rt.alloc(), text)?,
            "room" => self.room = text.parse()?,
            "flushes" => self.flushes = text.parse()?,
            "fails" => self.add_lack(rt.alloc(), text, MachineFault::Failed)?,
            "no-memory" => self.add_lack(rt.alloc(), text, MachineFault::NoMemory)?,
            "status" | "out" | "out-fill" | "errors" | "port" | "socket" | "limits" | "part" => {
                self.wanted.read(rt.alloc(), word, text)?
            }
            _ => build_with(rt, &mut self.input, word, text)?,
        }
        Ok(())
    }

    /// Begins one more file that the run must make; the lines after it build its bytes.
    fn add_making(&mut self, alloc: Global, path: &'a str) -> Result<()> {
        self.wanted.made = self.wanted.made.saturating_add(1);
        let bytes = Vec::new(alloc);
        Ok(self.makings.push(Making { path, bytes })?)
    }

    /// Adds what the machine does not give: the store, a new one, one with sums, the clock, the door, or the file at a path.
    fn add_lack(&mut self, alloc: Global, what: &str, fault: MachineFault) -> Result<()> {
        if !matches!(what, "store" | "new" | "sums" | "clock" | "door")
            && !what.contains('.')
            && !what.contains('/')
        {
            bail!("the machine has no such thing");
        }
        let what = String::from_str(alloc, what)?;
        Ok(self.lacks.push(Lack { what, fault })?)
    }

    /// Makes the machine ready for the run, as one that remembers no other run.
    fn prepare(&mut self, rt: &HostRuntime, museum: &mut Museum) -> Result<()> {
        mem::swap(&mut museum.supply.lacks, &mut self.lacks);
        museum.supply.set_clock(self.clock);
        museum.door = door_of(rt, self.visitors.as_slice())?;
        museum.supply.place = None;
        museum.supply.made = 0;
        museum.remembered = Remembered::new(rt.alloc());
        Ok(())
    }

    /// Runs the program on a machine.
    fn ran(&self, alloc: Global, museum: &mut Museum) -> Result<Ran> {
        let words = slices_of(alloc, self.words.as_slice())?;
        let mut output = Narrow::new(alloc);
        output.room = self.room;
        output.flushes = self.flushes;
        let mut errors = Vec::new(alloc);
        let status = run_program(
            alloc,
            words.as_slice(),
            self.input.as_slice(),
            (&mut output, &mut errors),
            museum,
        );
        Ok(Ran {
            status,
            output: output.taken,
            errors,
            place: museum.supply.place.take(),
            made: museum.supply.made,
            is_released: museum.conn.is_some(),
        })
    }

    /// Compares the outcome of each visit with the expected one.
    fn judge_visits(&self, rt: &HostRuntime, museum: &Museum, tally: &mut Tally) -> Result<()> {
        let mut number = 0usize;
        for visitor in &self.visitors {
            let case = (visitor.place, visitor.name);
            let wanted = visitor
                .wanted(rt.alloc())
                .context(format_args!("{}", visitor.place))?;
            let came = outcome_at(rt.alloc(), &museum.door, number)?;
            tally.judge(rt, case, wanted.as_slice(), came.as_slice())?;
            number = number.saturating_add(1);
        }
        Ok(())
    }

    /// Compares each file that the run must make with the one that is there.
    fn judge_makings(&self, rt: &HostRuntime, museum: &Museum, tally: &mut Tally) -> Result<()> {
        for making in &self.makings {
            let came = museum.supply.made_at(making.path).unwrap_or(b"no file");
            tally.judge(rt, (self.place, self.name), making.bytes.as_slice(), came)?;
        }
        Ok(())
    }

    /// Plays the run on a machine. The run is a case, and so is each of its visits and each file that it must make.
    pub(crate) fn play(
        &mut self,
        rt: &HostRuntime,
        museum: &mut Museum,
        tally: &mut Tally,
    ) -> Result<()> {
        self.prepare(rt, museum)?;
        let ran = self.ran(rt.alloc(), museum)?;
        self.wanted.judge(rt, (self.place, self.name), &ran, tally)?;
        self.judge_makings(rt, museum, tally)?;
        self.judge_visits(rt, museum, tally)
    }
}
