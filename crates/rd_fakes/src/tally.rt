//! Counts how many cases hold, and reports each one that does not.

use crate::escapes::escaped;
use anyhow::Result;
use std::process::ExitCode;

/// How many cases hold, and how many do not.
#[derive(Default, Drop)]
pub struct Tally {
    held: u64,
    lost: u64,
}

impl Tally {
    fn count(&mut self, holds: bool) {
        if holds {
            self.held = self.held.saturating_add(1);
        } else {
            self.lost = self.lost.saturating_add(1);
        }
    }

    /// Adds the cases of another.
    pub fn add(&mut self, other: &Tally) {
        self.held = self.held.saturating_add(other.held);
        self.lost = self.lost.saturating_add(other.lost);
    }

    /// Counts a case, which holds if what came is what was expected. If not, it reports the case's
    /// place, its name and both texts.
    pub fn judge(
        &mut self,
        rt: &HostRuntime,
        (place, name): (&str, &str),
        wanted: &[u8],
        came: &[u8],
    ) -> Result<()> {
        let holds = wanted == came;
        self.count(holds);
        if !holds {
            let wanted = escaped(rt.alloc(), wanted)?;
            let came = escaped(rt.alloc(), came)?;
            println!(rt; "{place}: does not hold: {name}\n  wanted: {wanted}\n  came:   {came}")?;
        }
        Ok(())
    }

    /// Counts a case, which holds if what came is not this.
    pub fn judge_other(
        &mut self,
        rt: &HostRuntime,
        (place, name): (&str, &str),
        unwanted: &[u8],
        came: &[u8],
    ) -> Result<()> {
        let holds = unwanted != came;
        self.count(holds);
        if !holds {
            let came = escaped(rt.alloc(), came)?;
            println!(rt; "{place}: does not hold: {name}\n  wanted: another\n  came:   {came}")?;
        }
        Ok(())
    }

    /// Writes how many cases hold, and how many do not. The status is 1 if any does not.
    pub fn tell(&self, rt: &HostRuntime) -> Result<ExitCode> {
        let (held, lost) = (self.held, self.lost);
        println!(rt; "{held} cases hold")?;
        if lost == 0 {
            return Ok(ExitCode::SUCCESS);
        }
        println!(rt; "{lost} do not")?;
        Ok(ExitCode::FAILURE)
    }
}
