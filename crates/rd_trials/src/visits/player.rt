//! Trials of a desk, played line by line.

use super::desk::{
    Opener, Opening, Stage, new_desk, open, visit as make_visit, visit_in_memory, with_zone,
};
use super::visit::{Likeness, Visit, outcome_of};
use crate::change::{Change, Effect, Question};
use crate::script::{Line, parts_of};
use anyhow::{Context, Result, bail};
use rd_fakes::desk::new_connection;
use rd_fakes::tables::{KeptTables, contents_of};
use rd_fakes::tally::Tally;
use rd_fakes::wire::WHOLE;
use rd_policy::Zone;
use rd_samples::days::CENTRAL;
use rd_store::OpenFault;
use sqlite::{Connection, MemStore};
use std::mem;

/// A part of a trial that takes more than one line.
#[derive(Drop)]
enum Item<'a> {
    Nothing,
    Visit(Visit<'a>),
    Change(Change<'a>),
    Question(Question<'a>),
}

/// The reply of the first visit that is `alike` a name.
#[derive(Drop)]
struct Kept<'a> {
    name: &'a str,
    outcome: Vec<u8>,
}

/// A trial in play.
#[derive(Drop)]
struct Player<'a> {
    tally: Tally,
    zone: Zone,
    stage: Stage,
    /// The moment of the visits.
    seconds: Option<i64>,
    item: Item<'a>,
    replies: Vec<Kept<'a>>,
    /// What the tables held, kept to compare it later.
    contents: KeptTables,
}

/// How tables open, by a word.
fn word_of(opening: Opening) -> &'static str {
    match opening {
        Opening::Well => "well",
        Opening::Inside => "transaction",
        Opening::Fault(OpenFault::NotADesk) => "not-a-desk",
        Opening::Fault(OpenFault::Version) => "version",
        Opening::Fault(OpenFault::Inconsistent) => "inconsistent",
        Opening::Fault(OpenFault::Sql) => "sql",
    }
}

/// What the contents of the tables of version 1 have, and those of no other.
const FIRST_VERSION: &str = "\n--\n1|1\n--\n";

/// Whether a word says how tables open.
fn is_opening(word: &str) -> bool {
    matches!(
        word,
        "well" | "not-a-desk" | "version" | "inconsistent" | "sql"
    )
}

fn zone_of(text: &str) -> Result<Zone> {
    match Zone::read(text) {
        Ok(zone) => Ok(zone),
        Err(_) => bail!("no zone"),
    }
}

/// Whether a line with this word ends what the lines before it began.
fn is_first(word: &str) -> bool {
    matches!(
        word,
        "visit"
            | "sql"
            | "sql-idle"
            | "sql-refused"
            | "query"
            | "at"
            | "zone"
            | "anew"
            | "empty"
            | "opens"
            | "migrates"
            | "tables"
    )
}

impl<'a> Player<'a> {
    fn new(rt: &HostRuntime) -> Result<Player<'a>> {
        let zone = zone_of(CENTRAL)?;
        Ok(Player {
            tally: Tally::default(),
            zone,
            stage: Stage::Open(new_desk(rt.alloc(), zone)?),
            seconds: None,
            item: Item::Nothing,
            replies: Vec::new(rt.alloc()),
            contents: KeptTables::default(),
        })
    }

    fn play(&mut self, rt: &HostRuntime, line: &'a Line) -> Result<()> {
        let place = line.place.as_str();
        let (word, text) = parts_of(line.text.as_str());
        let played = if is_first(word) {
            self.finish(rt)?;
            self.begin(rt, place, word, text)
        } else {
            self.read(rt, word, text)
        };
        played.context(format_args!("{place}: {word}"))
    }

    /// Reads a line about what has begun.
    fn read(&mut self, rt: &HostRuntime, word: &str, text: &'a str) -> Result<()> {
        match &mut self.item {
            Item::Visit(visit) => visit.read(rt, word, text),
            Item::Change(change) => change.read(rt, word, text),
            Item::Question(question) => question.read(word, text),
            Item::Nothing => bail!("no such word"),
        }
    }

    /// Begins what a line says, or does it.
    fn begin(
        &mut self,
        rt: &HostRuntime,
        place: &'a str,
        word: &'a str,
        text: &'a str,
    ) -> Result<()> {
        match word {
            "visit" => self.item = Item::Visit(Visit::new(rt.alloc(), place, text)),
            "query" => self.item = Item::Question(Question::new(rt.alloc(), place, text)),
            "at" => self.seconds = Some(text.parse()?),
            "zone" => self.set_zone(zone_of(text)?),
            "anew" => self.stage_new(rt)?,
            "empty" => self.stage = Stage::Tables(new_connection(rt.alloc())?),
            "opens" => self.open_twice(rt, (place, word), text, Opener::Open)?,
            "migrates" => self.open_twice(rt, (place, word), text, Opener::Migrate)?,
            "tables" => self.compare(rt, place, text)?,
            _ => self.item = Item::Change(Change::new(rt.alloc(), place, Effect::of(word), text)),
        }
        Ok(())
    }

    /// Does what the lines up to here say.
    fn finish(&mut self, rt: &HostRuntime) -> Result<()> {
        match mem::replace(&mut self.item, Item::Nothing) {
            Item::Nothing => Ok(()),
            Item::Visit(visit) => self.visit(rt, &visit).context(visit.place),
            Item::Change(change) => self.change(rt, &change).context(change.place),
            Item::Question(question) => self.ask(rt, &question).context(question.place),
        }
    }

    fn set_zone(&mut self, zone: Zone) {
        self.zone = zone;
        self.stage = match mem::replace(&mut self.stage, Stage::Bare) {
            Stage::Open(desk) => Stage::Open(with_zone(desk, zone)),
            stage => stage,
        };
    }

    /// Takes a new desk, with the clocks of central Europe.
    fn stage_new(&mut self, rt: &HostRuntime) -> Result<()> {
        self.zone = zone_of(CENTRAL)?;
        self.stage = Stage::Open(new_desk(rt.alloc(), self.zone)?);
        Ok(())
    }

    /// Takes the tables out.
    fn take_tables(&mut self) -> Result<Connection<MemStore>> {
        match mem::replace(&mut self.stage, Stage::Bare).into_tables() {
            Some(conn) => Ok(conn),
            None => bail!("no tables"),
        }
    }

    fn visit(&mut self, rt: &HostRuntime, visit: &Visit<'a>) -> Result<()> {
        let seconds = self.seconds.context("no moment")?;
        let came = visit.came.request(rt)?;
        let (ending, out) = match &mut self.stage {
            Stage::Open(desk) if visit.plan == WHOLE => {
                visit_in_memory(rt.alloc(), desk, seconds, came.as_slice())?
            }
            Stage::Open(desk) => {
                make_visit(rt.alloc(), desk, seconds, came.as_slice(), visit.plan)
            }
            _ => bail!("no desk is open"),
        };
        let outcome = outcome_of(rt.alloc(), ending, out.as_slice())?;
        let told = visit.told(rt.alloc())?;
        if let Some(wanted) = &told {
            let case = (visit.place, visit.name);
            self.tally
                .judge(rt, case, wanted.as_slice(), outcome.as_slice())?;
        }
        match visit.likeness {
            Some(likeness) => self.judge_likeness(rt, visit, likeness, outcome),
            None if told.is_none() => bail!("no reply is told"),
            None => Ok(()),
        }
    }

    /// Compares the outcome of a visit with the first one that is `alike` this name, or keeps it as the first. It must be
    /// the same, or another.
    fn judge_likeness(
        &mut self,
        rt: &HostRuntime,
        visit: &Visit<'a>,
        likeness: Likeness<'a>,
        outcome: Vec<u8>,
    ) -> Result<()> {
        let Likeness { name, is_alike } = likeness;
        let case = (visit.place, visit.name);
        match self.replies.iter().find(|kept| kept.name == name) {
            Some(kept) if is_alike => {
                let wanted = kept.outcome.as_slice();
                self.tally.judge(rt, case, wanted, outcome.as_slice())
            }
            Some(kept) => {
                let other = kept.outcome.as_slice();
                self.tally.judge_other(rt, case, other, outcome.as_slice())
            }
            None if is_alike => Ok(self.replies.push(Kept { name, outcome })?),
            None => bail!("no visit is alike {name}"),
        }
    }

    /// Changes the tables.
    fn change(&mut self, rt: &HostRuntime, change: &Change<'a>) -> Result<()> {
        let mut conn = self.take_tables()?;
        let played = change.play(rt, &mut conn, &mut self.tally);
        self.stage = Stage::Tables(conn);
        played
    }

    /// Asks the tables for rows.
    fn ask(&mut self, rt: &HostRuntime, question: &Question<'a>) -> Result<()> {
        let mut conn = self.take_tables()?;
        let played = question.play(rt, &mut conn, &mut self.tally);
        self.stage = Stage::Tables(conn);
        played
    }

    /// What the tables hold.
    fn contents(&mut self, rt: &HostRuntime) -> Result<String> {
        let mut conn = self.take_tables()?;
        let contents = contents_of(rt.alloc(), &mut conn);
        self.stage = Stage::Tables(conn);
        contents
    }

    /// Opens the desk that the tables hold, and gives the word for how that ends.
    fn open(&mut self, rt: &HostRuntime, opener: Opener) -> Result<&'static str> {
        let (stage, opening) = open(rt.alloc(), self.take_tables()?, self.zone, opener);
        self.stage = stage;
        Ok(word_of(opening))
    }

    /// Opens the desk that the tables hold, twice: the second opening has to end as the first, and the tables have to
    /// stay as they are, but where the first brings them from version 1 to version 2. A desk that opens well stays
    /// open.
    fn open_twice(
        &mut self,
        rt: &HostRuntime,
        case: (&'a str, &'a str),
        wanted: &'a str,
        opener: Opener,
    ) -> Result<()> {
        if !is_opening(wanted) {
            bail!("no such opening");
        }
        let before = self.contents(rt)?;
        let first = self.open(rt, opener)?;
        let migrated = opener == Opener::Migrate
            && first == "well"
            && before.as_str().contains(FIRST_VERSION);
        let kept = if migrated { self.contents(rt)? } else { before };
        let second = self.open(rt, opener)?;
        let last = self.contents(rt)?;
        let came = if first != second {
            "otherwise the second time"
        } else if kept != last {
            "with other tables"
        } else if first == "well" {
            self.open(rt, opener)?
        } else {
            first
        };
        self.tally
            .judge(rt, case, wanted.as_bytes(), came.as_bytes())
    }

    /// Keeps what the tables hold, or compares it with what it has kept.
    fn compare(&mut self, rt: &HostRuntime, place: &'a str, word: &'a str) -> Result<()> {
        let contents = self.contents(rt)?;
        self.contents
            .play(rt, (place, word), contents, &mut self.tally)
    }
}

/// Plays a trial, and adds its cases.
pub(crate) fn play(rt: &HostRuntime, lines: &[Line], tally: &mut Tally) -> Result<()> {
    let mut player = Player::new(rt)?;
    for line in lines {
        player.play(rt, line)?;
    }
    player.finish(rt)?;
    tally.add(&player.tally);
    Ok(())
}
