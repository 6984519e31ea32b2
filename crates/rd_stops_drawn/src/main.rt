//! Stops the two files of a desk's database at calls that are drawn, and those of a copy at each of their calls:
//! `rd_stop_runs` says how. The argument is the seed of all draws.
#![tactic(auto)]

use anyhow::Result;
use std::process::ExitCode;

/// Plays the run whose stops are drawn, and the copies.
fn main(rt: HostRuntime) -> Result<ExitCode> {
    rd_stop_runs::play_more(&rt)
}
