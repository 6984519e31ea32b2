//! Trials of the program, played line by line.

use super::machine::{File, Museum, new_museum};
use super::run::{Run, words_of};
use super::visitor::Visitor;
use super::wanted::Wanted;
use crate::change::{Change, Effect, Question};
use crate::image::build_with;
use crate::script::{Line, parts_of};
use anyhow::{Context, Result, bail};
use rd_fakes::tables::{KeptTables, contents_of};
use rd_fakes::tally::Tally;
use sqlite::{Connection, MemStore};
use std::alloc::Global;
use std::mem;

/// A part of a trial that takes more than one line.
#[derive(Drop)]
enum Item<'a> {
    Nothing,
    Run(Run<'a>),
    File(File),
    Change(Change<'a>),
    Question(Question<'a>),
}

/// A trial in play.
#[derive(Drop)]
struct Player<'a> {
    tally: Tally,
    museum: Museum,
    /// The moment of visits, which the clock shows.
    seconds: Option<i64>,
    item: Item<'a>,
    contents: KeptTables,
}

/// Whether a line with this word ends what the lines before it began.
fn is_first(word: &str) -> bool {
    matches!(
        word,
        "run"
            | "no-command"
            | "file"
            | "folder"
            | "sql"
            | "sql-idle"
            | "sql-refused"
            | "query"
            | "tables"
            | "anew"
            | "swap"
    )
}

/// The store of a machine.
fn store_of(museum: &mut Museum) -> Result<&mut Connection<MemStore>> {
    match &mut museum.conn {
        Some(conn) => Ok(conn),
        None => bail!("no store"),
    }
}

impl<'a> Player<'a> {
    fn new(rt: &HostRuntime) -> Result<Player<'a>> {
        Ok(Player {
            tally: Tally::default(),
            museum: new_museum(rt.alloc())?,
            seconds: None,
            item: Item::Nothing,
            contents: KeptTables::default(),
        })
    }

    fn play(&mut self, rt: &HostRuntime, line: &'a Line) -> Result<()> {
        let place = line.place.as_str();
        let (word, text) = parts_of(line.text.as_str());
        let played = if is_first(word) {
            self.finish(rt)?;
            self.begin(rt, place, word, text)
        } else {
            self.read(rt, place, word, text)
        };
        played.context(format_args!("{place}: {word}"))
    }

    /// Reads a line about what has begun, or the moment.
    fn read(
        &mut self,
        rt: &HostRuntime,
        place: &'a str,
        word: &'a str,
        text: &'a str,
    ) -> Result<()> {
        if word == "at" {
            self.seconds = Some(text.parse()?);
            return Ok(());
        }
        match &mut self.item {
            Item::Run(run) if word == "visit" => {
                let visitor = Visitor::new(rt.alloc(), place, text, self.seconds);
                Ok(run.visitors.push(visitor)?)
            }
            Item::Run(run) => run.read(rt, word, text),
            Item::File(file) => build_with(rt, &mut file.bytes, word, text),
            Item::Change(change) => change.read(rt, word, text),
            Item::Question(question) => question.read(word, text),
            Item::Nothing => bail!("no such word"),
        }
    }

    /// Begins what a line says, or does it.
    fn begin(
        &mut self,
        rt: &HostRuntime,
        place: &'a str,
        word: &'a str,
        text: &'a str,
    ) -> Result<()> {
        match word {
            "run" => self.begin_run(rt.alloc(), (place, text), Vec::new(rt.alloc()), false),
            "no-command" => {
                let words = words_of(rt.alloc(), text)?;
                self.begin_run(rt.alloc(), (place, text), words, true)
            }
            "file" => self.item = Item::File(File::new(rt.alloc(), text)?),
            "folder" => self.museum.supply.add_folder(text)?,
            "query" => self.item = Item::Question(Question::new(rt.alloc(), place, text)),
            "anew" => self.museum = new_museum(rt.alloc())?,
            "swap" => mem::swap(&mut self.museum.conn, &mut self.museum.fresh),
            "tables" => self.compare(rt, place, text)?,
            _ => self.item = Item::Change(Change::new(rt.alloc(), place, Effect::of(word), text)),
        }
        Ok(())
    }

    /// Begins a run of words that come later, or one of words that are no command.
    fn begin_run(
        &mut self,
        alloc: Global,
        case: (&'a str, &'a str),
        words: Vec<String>,
        is_mistake: bool,
    ) {
        let wanted = Wanted::new(alloc, is_mistake);
        self.item = Item::Run(Run::new(alloc, case, self.seconds, words, wanted));
    }

    /// Does what the lines up to here say.
    fn finish(&mut self, rt: &HostRuntime) -> Result<()> {
        match mem::replace(&mut self.item, Item::Nothing) {
            Item::Nothing => Ok(()),
            Item::Run(mut run) => run
                .play(rt, &mut self.museum, &mut self.tally)
                .context(run.place),
            Item::File(file) => Ok(self.museum.supply.files.push(file)?),
            Item::Change(change) => {
                let conn = store_of(&mut self.museum).context(change.place)?;
                change.play(rt, conn, &mut self.tally).context(change.place)
            }
            Item::Question(question) => {
                let conn = store_of(&mut self.museum).context(question.place)?;
                question
                    .play(rt, conn, &mut self.tally)
                    .context(question.place)
            }
        }
    }

    /// Keeps what the tables of the store hold, or compares it with what it has kept.
    fn compare(&mut self, rt: &HostRuntime, place: &'a str, word: &'a str) -> Result<()> {
        let contents = contents_of(rt.alloc(), store_of(&mut self.museum)?)?;
        self.contents
            .play(rt, (place, word), contents, &mut self.tally)
    }
}

/// Plays a trial, and adds its cases.
pub(crate) fn play(rt: &HostRuntime, lines: &[Line], tally: &mut Tally) -> Result<()> {
    let mut player = Player::new(rt)?;
    for line in lines {
        player.play(rt, line)?;
    }
    player.finish(rt)?;
    tally.add(&player.tally);
    Ok(())
}
