//! What must come after a stop, and what came.

use crate::files::Stop;
use crate::leavings::Kept;
use crate::running::{Ending, Ran, Report};
use crate::runs::Run;
use crate::seen::Seen;
use anyhow::{Context, Result};
use rd_fakes::tally::Tally;
use std::alloc::{AllocError, Global};

/// What opening again finds: the desk before the change that was under way, the one after it, or
/// something else.
#[derive(Clone, Copy, PartialEq, Eq)]
pub(crate) enum Outcome {
    Before,
    After,
    Wrong,
}

/// How often each outcome came.
#[derive(Clone, Copy, Default)]
pub(crate) struct Counts {
    pub(crate) before: u64,
    pub(crate) after: u64,
    pub(crate) wrong: u64,
    /// How many of these were seen where a part of the changes was kept.
    pub(crate) parts: u64,
    /// How many stops were not as they must be.
    pub(crate) faults: u64,
}

impl Counts {
    /// Counts what came where a crash kept this.
    pub(crate) fn count(&mut self, kept: Kept, outcome: Outcome) {
        match outcome {
            Outcome::Before => self.before = self.before.saturating_add(1),
            Outcome::After => self.after = self.after.saturating_add(1),
            Outcome::Wrong => self.wrong = self.wrong.saturating_add(1),
        }
        if matches!(kept, Kept::Part(_)) {
            self.parts = self.parts.saturating_add(1);
        }
    }
}

/// A run that has ended under a stop.
#[derive(Drop)]
pub(crate) struct Stopped<'a> {
    pub(crate) run: &'a Run,
    pub(crate) stop: Stop,
    pub(crate) ran: Ran,
}

/// What a report says of its ending.
fn words_of(ending: Ending) -> &'static str {
    match ending {
        Ending::Done => "done",
        Ending::Unavailable => "unavailable",
        Ending::Other => "ended in another way",
    }
}

/// Whether these are the states after so many changes.
fn is_after(states: &[Seen], changes: usize, seen: &Seen) -> bool {
    match states.get(changes) {
        Some(state) => state.is_same(seen),
        None => false,
    }
}

/// The outcome where a run reports this, and the database then holds that. States are those before
/// the run and after each of its changes.
pub(crate) fn outcome_of(report: &Report, states: &[Seen], seen: &Seen) -> Outcome {
    let is_done = report.ending == Ending::Done;
    if is_after(states, report.changes, seen) {
        if is_done {
            Outcome::After
        } else {
            Outcome::Before
        }
    } else if !is_done && is_after(states, report.changes.saturating_add(1), seen) {
        Outcome::After
    } else {
        Outcome::Wrong
    }
}

impl Stopped<'_> {
    /// What is wrong in how the run went; `None` where nothing is.
    pub(crate) fn fault(&self) -> Option<&'static str> {
        let report = &self.ran.report;
        let calls = self.stop.file.calls(&self.ran.files);
        let is_done = report.ending == Ending::Done;
        if calls != self.stop.calls {
            Some("the file stops at another call")
        } else if report.ending == Ending::Other {
            Some("the run ends in another way")
        } else if is_done && report.changes != self.run.action.changes() {
            Some("the run is done, but not with all changes")
        } else {
            None
        }
    }

    /// Where the run stopped, what a crash left then, and what the run reports.
    fn name(&self, alloc: Global, left: &str) -> Result<String, AllocError> {
        let (file, calls) = (self.stop.file.name(), self.stop.calls);
        let report = &self.ran.report;
        let (changes, all) = (report.changes, self.run.action.changes());
        let (ending, words) = (words_of(report.ending), report.words.as_str());
        Ok(format!(in alloc;
            "{file} after {calls} calls, {left}: {ending}, {changes} of {all} changes reported, {words}"
        )?)
    }

    /// Prints what must come after the stop, and what came.
    fn print(&self, rt: &HostRuntime, left: &str, wanted: &str, came: &str) -> Result<()> {
        let name = self.name(rt.alloc(), left)?;
        let case = (self.run.name, name.as_str());
        let mut tally = Tally::default();
        tally.judge(rt, case, wanted.as_bytes(), came.as_bytes())
    }

    /// Prints how the run went, which is wrong.
    pub(crate) fn print_fault(&self, rt: &HostRuntime, fault: &str) -> Result<()> {
        self.print(rt, "the run", "a run that stops there", fault)
    }

    /// What the database must hold.
    fn wanted(&self, alloc: Global, states: &[Seen]) -> Result<String> {
        let report = &self.ran.report;
        let before = states.get(report.changes).context("no such state")?;
        match states.get(report.changes.saturating_add(1)) {
            Some(after) if report.ending != Ending::Done => {
                let (before, after) = (before.short.as_str(), after.short.as_str());
                Ok(format!(in alloc; "{before}or {after}")?)
            }
            _ => Ok(before.short.clone()?),
        }
    }

    /// What the database holds, with the first line of the tables that was not there before, and the
    /// first one that was there and is not.
    fn came(&self, alloc: Global, states: &[Seen], seen: &Seen) -> Result<String> {
        let before = states
            .get(self.ran.report.changes)
            .context("no such state")?;
        let short = seen.short.as_str();
        let (more, less) = (seen.line_beyond(before), before.line_beyond(seen));
        Ok(format!(in alloc; "{short}more: {more}\nless: {less}\n")?)
    }

    /// Prints what the database must hold, and what it holds.
    pub(crate) fn print_wrong(
        &self,
        rt: &HostRuntime,
        kept: Kept,
        states: &[Seen],
        seen: &Seen,
    ) -> Result<()> {
        let left = kept.words(rt.alloc())?;
        let wanted = self.wanted(rt.alloc(), states)?;
        let came = self.came(rt.alloc(), states, seen)?;
        self.print(rt, left.as_str(), wanted.as_str(), came.as_str())
    }
}
