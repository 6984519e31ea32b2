//! Stops the two files of a desk's database at each of their calls: `rd_stop_runs` says how. The argument
//! is the seed of all draws.
#![tactic(auto)]

use anyhow::Result;
use std::process::ExitCode;

/// Plays the runs that stop at each call, but for the copies.
fn main(rt: HostRuntime) -> Result<ExitCode> {
    rd_stop_runs::play_each(&rt)
}
