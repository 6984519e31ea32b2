//! The program `desk`: it reads files from disk images, and serves those of a museum over HTTP.
#![tactic(auto)]

#[cfg(test)]
mod tests;

use std::process::ExitCode;

fn main(rt: HostRuntime) -> ExitCode {
    rd_host::start(&rt)
}
