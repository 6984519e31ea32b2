//! Runs whose files stop at each of their calls, one file after the other.

use crate::drive::Sort;
use crate::files::{File, Pair, Stop, are_untouched, syncs_of};
use crate::leavings::{Kept, Left, leavings};
use crate::outcomes::{Counts, Outcome, Stopped, outcome_of};
use crate::running::{Ending, Ran, carry_out};
use crate::runs::{Run, Stops, Wanted};
use crate::seen::Seen;
use anyhow::{Context, Result, bail, ensure};
use rand_core::Rng;
use rand_pcg::Pcg32;
use std::alloc::Global;

/// A run on files of a sort, and the files from which it starts.
#[derive(Clone, Copy)]
pub(crate) struct Start<'a> {
    pub(crate) run: &'a Run,
    pub(crate) sort: Sort,
    pub(crate) base: &'a Pair,
    /// The files from which it copies a desk, if it copies one.
    pub(crate) source: &'a Pair,
}

impl Start<'_> {
    /// What a database of the run holds.
    fn seen(&self, alloc: Global, pair: &Pair) -> Result<Seen> {
        Seen::of(alloc, pair, self.sort, self.run.question)
    }

    /// What the database of the run holds in two files.
    fn opened(&self, alloc: Global, pair: Pair) -> Result<Opened> {
        let seen = self.seen(alloc, &pair)?;
        Ok(Opened { pair, seen })
    }

    /// The run under a stop.
    fn stopped(&self, alloc: Global, stop: Stop) -> Result<Ran> {
        let files = self.base.files(alloc, self.sort, Some(stop))?;
        carry_out(alloc, self.run, self.run.action, self.source, files)
    }

    /// The run with its first changes alone, and without a stop. Fails where it does not report that it is done with them.
    fn ran(&self, alloc: Global, changes: usize) -> Result<Ran> {
        let files = self.base.files(alloc, self.sort, None)?;
        let action = self.run.action.first(changes);
        let ran = carry_out(alloc, self.run, action, self.source, files)?;
        let report = &ran.report;
        let is_done = report.ending == Ending::Done && report.changes == changes;
        ensure!(is_done, "it is not done: {}", report.words);
        Ok(ran)
    }

    /// What the run needs without a stop. Fails where the database has no sums that asks for them.
    fn needed(&self, alloc: Global) -> Result<Needed> {
        let ran = self.ran(alloc, self.run.action.changes())?;
        let has_sums = Pair::kept(&ran.files)?.has_sums();
        ensure!(
            has_sums || !self.run.action.asks_sums(),
            "the pages have no sums"
        );
        Ok(Needed {
            db: File::Database.calls(&ran.files),
            log: File::Log.calls(&ran.files),
            syncs: syncs_of(&ran.files),
        })
    }
}

/// Fails where the change that syncs least does not sync as often as it must. After each change the
/// files have synced so often.
fn check_syncs(run: &Run, syncs: &[u64]) -> Result<()> {
    let Some(wanted) = run.least_syncs else {
        return Ok(());
    };
    let mut least = u64::MAX;
    let mut last = 0u64;
    for count in syncs {
        least = least.min(count.saturating_sub(last));
        last = *count;
    }
    ensure!(least == wanted, "a change syncs {least} times");
    Ok(())
}

/// Adds what the database holds after each change of a run, and how often the files have synced then.
fn add_states(
    alloc: Global,
    start: &Start<'_>,
    states: &mut Vec<Seen>,
    syncs: &mut Vec<u64>,
) -> Result<()> {
    for changes in 1..=start.run.action.changes() {
        let ran = start.ran(alloc, changes)?;
        let kept = Pair::kept(&ran.files)?;
        states.push(start.seen(alloc, &kept)?)?;
        syncs.push(syncs_of(&ran.files))?;
    }
    Ok(())
}

/// What the database holds before a run, and after each of its changes. Fails where the change that syncs least does not
/// sync as often as it must.
fn states_of(alloc: Global, start: &Start<'_>) -> Result<Vec<Seen>> {
    let mut states = Vec::new(alloc);
    states.push(start.seen(alloc, start.base)?)?;
    let mut syncs = Vec::new(alloc);
    add_states(alloc, start, &mut states, &mut syncs)?;
    check_syncs(start.run, syncs.as_slice())?;
    Ok(states)
}

/// Fails where a run does not begin or end with what it must, or where both are not told apart.
fn check_ends(run: &Run, states: &[Seen]) -> Result<()> {
    let (Some(first), Some(last)) = (states.first(), states.last()) else {
        bail!("no states");
    };
    let (before, after) = (first.short.as_str(), last.short.as_str());
    ensure!(before == run.before, "before: {before}");
    ensure!(after == run.after, "after: {after}");
    let is_right = first.has_tables_of(last) == run.has_same_tables();
    ensure!(is_right, "the tables are not as they must be");
    Ok(())
}

/// What a crash left, and what the database holds there.
#[derive(Drop)]
struct Opened {
    pair: Pair,
    seen: Seen,
}

/// How many calls of each file a run without a stop needs, and how often both sync.
#[derive(Clone, Copy)]
struct Needed {
    db: u64,
    log: u64,
    syncs: u64,
}

impl Needed {
    /// How many stops there are: each file stops after 0, 1, 2 and more of its calls, up to as many as
    /// the run needs. After so many it stops no more, so that a crash comes after a whole run, too.
    fn stops(self) -> u64 {
        self.db.saturating_add(self.log).saturating_add(2)
    }

    /// The stop with a number, counted from 0: first those of the database file, then those of the
    /// log.
    fn stop(self, number: u64) -> Stop {
        match number.checked_sub(self.db.saturating_add(1)) {
            None => Stop {
                file: File::Database,
                calls: number,
            },
            Some(calls) => Stop {
                file: File::Log,
                calls,
            },
        }
    }

    /// A drawn one of all stops.
    fn drawn_stop(self, draws: &mut Pcg32) -> Stop {
        let drawn = u64::from(draws.next_u32());
        let stops = self.stops();
        self.stop(if stops == 0 { 0 } else { drawn % stops })
    }
}

/// A run that is played.
#[derive(Drop)]
struct Player<'a> {
    start: Start<'a>,
    draws: Pcg32,
    /// What the database holds before the run, and after each of its changes.
    states: Vec<Seen>,
    /// What the last crash left that kept nothing.
    lost: Opened,
    counts: Counts,
}

impl<'a> Player<'a> {
    fn new(alloc: Global, start: Start<'a>, draws: Pcg32) -> Result<Player<'a>> {
        let states = states_of(alloc, &start)?;
        check_ends(start.run, states.as_slice())?;
        let lost = start.opened(alloc, Pair::empty(alloc))?;
        Ok(Player {
            start,
            draws,
            states,
            lost,
            counts: Counts::default(),
        })
    }

    /// The outcome where a crash after a run kept this, and the database then holds that.
    fn judged(
        &self,
        rt: &HostRuntime,
        stopped: &Stopped<'_>,
        kept: Kept,
        seen: &Seen,
    ) -> Result<Outcome> {
        let states = self.states.as_slice();
        let outcome = outcome_of(&stopped.ran.report, states, seen);
        if outcome == Outcome::Wrong && self.start.run.wanted == Wanted::Right {
            stopped.print_wrong(rt, kept, states, seen)?;
        }
        Ok(outcome)
    }

    /// Opens the database where a crash kept nothing and left this, unless the crash before left the
    /// same.
    fn open_lost(&mut self, alloc: Global, pair: &Pair) -> Result<()> {
        if !self.lost.pair.is_same(pair) {
            self.lost = self.start.opened(alloc, pair.copy()?)?;
        }
        Ok(())
    }

    /// The outcome where a crash after a run left this.
    fn outcome(&mut self, rt: &HostRuntime, stopped: &Stopped<'_>, left: &Left) -> Result<Outcome> {
        if left.kept == Kept::Nothing {
            self.open_lost(rt.alloc(), &left.pair)?;
            return self.judged(rt, stopped, left.kept, &self.lost.seen);
        }
        let seen = self.start.seen(rt.alloc(), &left.pair)?;
        self.judged(rt, stopped, left.kept, &seen)
    }

    /// Judges each thing that a crash may leave after a run.
    fn judge_each(&mut self, rt: &HostRuntime, stopped: &Stopped<'_>, all: &[Left]) -> Result<()> {
        for left in all {
            let outcome = self.outcome(rt, stopped, left)?;
            self.counts.count(left.kept, outcome);
        }
        Ok(())
    }

    /// Judges how a run under a stop went, and each thing that a crash may leave then. Of files that the run left as they
    /// were it leaves what the database holds before it.
    fn judge(&mut self, rt: &HostRuntime, stopped: &Stopped<'_>) -> Result<()> {
        if let Some(fault) = stopped.fault() {
            stopped.print_fault(rt, fault)?;
            self.counts.faults = self.counts.faults.saturating_add(1);
        }
        if are_untouched(&stopped.ran.files) {
            let before = self.states.first().context("no states")?;
            let outcome = self.judged(rt, stopped, Kept::Nothing, before)?;
            self.counts.count(Kept::Nothing, outcome);
            return Ok(());
        }
        let all = leavings(rt.alloc(), &stopped.ran.files, &mut self.draws)?;
        self.judge_each(rt, stopped, all.as_slice())
    }

    /// Plays the run with a stop of a file.
    fn stop_at(&mut self, rt: &HostRuntime, stop: Stop) -> Result<()> {
        let run = self.start.run;
        let ran = self.start.stopped(rt.alloc(), stop)?;
        self.judge(rt, &Stopped { run, stop, ran })
    }

    /// Plays the run with the stops that it asks for: each one; or so many that are drawn, and at last each file in turn as
    /// one that stops no more.
    fn stop_all(&mut self, rt: &HostRuntime, needed: Needed) -> Result<()> {
        let stops = self.start.run.stops;
        for number in 0..stops.count(needed.stops()) {
            let stop = match stops {
                Stops::Each => needed.stop(number),
                Stops::Drawn(_) => needed.drawn_stop(&mut self.draws),
            };
            self.stop_at(rt, stop)?;
        }
        if matches!(stops, Stops::Each) {
            return Ok(());
        }
        self.stop_at(rt, needed.stop(needed.db))?;
        self.stop_at(rt, needed.stop(needed.stops().saturating_sub(1)))
    }

    /// Prints the line of the run, which without a stop needs so much.
    fn print(&self, rt: &HostRuntime, needed: Needed) -> Result<()> {
        let Needed { db, log, syncs } = needed;
        let (name, sort) = (self.start.run.name, self.start.sort.words());
        let changes = self.start.run.action.changes();
        let stops = self.start.run.stops.words(rt.alloc())?;
        let counts = self.counts;
        let (before, after, wrong) = (counts.before, counts.after, counts.wrong);
        println!(rt;
            "{name}, {sort}: {stops} of {db} calls of the database file and {log} of the log; the desk before {before} times, after {after}, neither {wrong}; {syncs} syncs for {changes} changes"
        )?;
        Ok(())
    }

    /// Fails where one of the outcomes that must come never came.
    fn check_outcomes(&self) -> Result<()> {
        let changes = self.start.run.action.changes();
        let Counts {
            before,
            after,
            parts,
            ..
        } = self.counts;
        ensure!(
            parts > 0,
            "no part of the changes differs from all and nothing"
        );
        ensure!(before > 0, "the desk before never came");
        ensure!(after > 0 || changes == 0, "the desk after never came");
        Ok(())
    }

    /// Plays the run with its stops, and prints a line. Gives whether what came is what was wanted. A stop that is not as it
    /// must be is never wanted.
    fn play(&mut self, rt: &HostRuntime) -> Result<bool> {
        let needed = self.start.needed(rt.alloc())?;
        self.stop_all(rt, needed)?;
        self.print(rt, needed)?;
        self.check_outcomes()?;
        let is_wrong = self.counts.wrong > 0;
        Ok(self.counts.faults == 0 && is_wrong == (self.start.run.wanted == Wanted::Wrong))
    }
}

/// Plays a run. Gives whether what came is what was wanted. An error names the run.
pub(crate) fn play_on(rt: &HostRuntime, start: Start<'_>, draws: Pcg32) -> Result<bool> {
    let mut player = Player::new(rt.alloc(), start, draws).context(start.run.name)?;
    player.play(rt).context(start.run.name)
}
