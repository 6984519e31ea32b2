//! Plays trials: texts that describe visits of a desk in memory and changes of its tables, or runs of the program
//! on a machine in memory, and what each must give.
//!
//! A call fails when memory runs out, when it cannot read a file or write the output, and when a line is not as
//! `docs/TRIALS.md` says.
#![tactic(auto)]

mod bytes;
mod change;
mod image;
mod message;
mod repeats;
mod runs;
mod script;
mod visits;

use anyhow::Result;
use rd_fakes::tally::Tally;
use script::{Line, parts_of, script_of};
use std::env;
use std::process::ExitCode;

/// Whether a trial is one of the program: it has a run.
fn has_run(lines: &[Line]) -> bool {
    lines.iter().any(|line| matches!(parts_of(line.text.as_str()).0, "run" | "no-command"))
}

/// Plays the trial of a file, and adds its cases.
fn play_file(rt: &HostRuntime, file: &str, tally: &mut Tally) -> Result<()> {
    let lines = script_of(rt, file)?;
    if has_run(&lines) {
        runs::play(rt, &lines, tally)
    } else {
        visits::play(rt, &lines, tally)
    }
}

/// Plays the trials of the files that the arguments name.
fn play_all(rt: &HostRuntime) -> Result<Tally> {
    let mut tally = Tally::default();
    for name in env::args(rt)?.skip(1) {
        play_file(rt, name.as_str(), &mut tally)?;
    }
    Ok(tally)
}

/// Writes how many cases hold. The status is 1 if any does not.
fn main(rt: HostRuntime) -> Result<ExitCode> {
    play_all(&rt)?.tell(&rt)
}
