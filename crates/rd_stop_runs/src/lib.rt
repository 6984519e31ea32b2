//! Runs whose files stop: the two files of a desk's database at each of their calls, one file after
//! the other, or at calls that are drawn. The file that stops refuses all calls from then on; the other
//! goes on until the run has ended with its error. In the end neither file stops. Then a crash loses
//! what was not synced, or a part of it, and the database is opened again: it must hold the desk after
//! the last change that was reported as done, or the one after the next change. Where a stop leaves the
//! files as they were, what is judged so is what the database holds before the run.
//!
//! Two programs play them: `rd_stops` and `rd_stops_drawn`. The argument of each is the seed of all
//! draws.
#![tactic(auto)]

mod bases;
mod bytes;
mod commands;
mod copies;
mod desk;
mod drive;
mod files;
mod leavings;
mod museum;
mod outcomes;
mod player;
mod running;
mod runs;
mod seen;
mod steps;

use anyhow::{Context, Result};
use bases::files_of;
use files::Pair;
use player::{Start, play_on};
use rand_pcg::Pcg32;
use runs::{MORE_RUNS, RUNS, Run};
use std::env;
use std::process::ExitCode;

/// The seed of all draws: the argument.
fn seed(rt: &HostRuntime) -> Result<u64> {
    let seed = env::args(rt)?.skip(1).next().context("no seed is given")?;
    Ok(seed.parse()?)
}

/// Plays a run from the files of its base, on files of each of its sorts. Gives whether what came is
/// what was wanted. Each time has draws of its own.
fn play(rt: &HostRuntime, run: &Run, base: &Pair, source: &Pair, seed: u64) -> Result<bool> {
    let mut is_right = true;
    for (number, sort) in run.sorts.iter().enumerate() {
        let draws = Pcg32::new(seed, number as u64);
        let sort = *sort;
        let start = Start {
            run,
            sort,
            base,
            source,
        };
        if !play_on(rt, start, draws)? {
            is_right = false;
        }
    }
    Ok(is_right)
}

/// Plays runs, each from the files of its base and with draws of its own, by its number. Gives whether what came is what
/// was wanted.
fn play_all(rt: &HostRuntime, runs: &[Run], seed: u64) -> Result<bool> {
    let mut is_right = true;
    for (number, run) in runs.iter().enumerate() {
        let base = files_of(rt.alloc(), run.base).context(run.name)?;
        let source = files_of(rt.alloc(), run.source).context(run.name)?;
        if !play(rt, run, &base, &source, seed.wrapping_add(number as u64))? {
            is_right = false;
        }
    }
    Ok(is_right)
}

/// Prints the seed, and plays runs. The status is 0 where what came is what was wanted, else 1.
fn play_with_seed(rt: &HostRuntime, runs: &[Run]) -> Result<ExitCode> {
    let seed = seed(rt)?;
    println!(rt; "seed {seed}")?;
    Ok(if play_all(rt, runs, seed)? {
        ExitCode::SUCCESS
    } else {
        ExitCode::FAILURE
    })
}

/// Plays the runs of the first program. Prints the seed, and a line for each run and each sort of files.
/// Where something else came than what was wanted, the status is 1. It fails if no seed is given, if memory
/// runs out, and if it cannot write its output.
pub fn play_each(rt: &HostRuntime) -> Result<ExitCode> {
    play_with_seed(rt, RUNS)
}

/// Plays the run whose stops are drawn, and the copies. It prints and fails as `play_each` does.
pub fn play_more(rt: &HostRuntime) -> Result<ExitCode> {
    play_with_seed(rt, MORE_RUNS)
}
