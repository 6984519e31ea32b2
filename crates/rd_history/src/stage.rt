//! How far a history has come, line by line.

ghost use Rattle.std.specs.Prelude.{◌≡◌, ◌≢◌, ◌<◌, IfErr, IfOk, MatchOption, map};
ghost use Rattle.rd_history.specs.Stages.{Arrives, Follows, Leads, Steps, text_of};

use crate::entry::{Change, LAST_NUMBER};
use crate::reading::read_line;
use rd_chain::{OpenFault, SummedLine};
use std::alloc::Global;

/// How far a history has come.
#[derive(Clone, Copy, Debug)]
pub(crate) struct Stage {
    /// The number of the last entry, 0 before the first.
    pub number: u32,
    /// How many entries of a base are to come.
    pub to_come: u32,
    /// Whether the last entry is a change alone, that nothing has taken back.
    pub ends_in_change: bool,
}

impl Stage {
    ghost use Rattle.rd_history.specs.Stages.{START};

    /// Before the first entry.
    pub const START: Stage = Stage {
        number: 0,
        to_come: 0,
        ends_in_change: false,
    };

    /// The stage with an entry more that changes this; `None` where it cannot come next.
    pub fn with(self, change: &Change) -> Option<Stage>
        requires { self.number < LAST_NUMBER }
        ensures { MatchOption result ((next : _) → ¬ Leads change.now self next) (Steps change.now self) }
    {
        let number = self.number + 1;
        let (to_come, ends_in_change) = match change {
            Change::Begin(count) if self.to_come == 0 => (*count, false),
            Change::Void(_) if self.ends_in_change => (0, false),
            Change::Begin(_) | Change::Void(_) => return None,
            _ if self.to_come == 0 => (0, true),
            Change::DropRule { .. } | Change::DropKey { .. } => return None,
            _ => (self.to_come - 1, false),
        };
        Some(Stage {
            number,
            to_come,
            ends_in_change,
        })
    }

    /// The stage with a line more. It fails with `Broken` if the line is not that of the next entry, and with `Sql`
    /// when memory runs out.
    fn with_line(self, alloc: Global, line: &[u8]) -> Result<Stage, OpenFault>
        ensures ok { IfOk result (Follows line.now self) }
        ensures broken { IfErr result (λ fault. fault ≡ OpenFault.Broken → (next : _) → ¬ Follows line.now self next) }
        ensures named { IfErr result (λ fault. fault ≢ OpenFault.NotAChain) }
    {
        let Ok(text) = str::from_utf8(line) else {
            return Err(OpenFault::Broken);
        };
        let Ok(read) = read_line(alloc, text) else {
            return Err(OpenFault::Sql);
        };
        let Some(entry) = read else {
            return Err(OpenFault::Broken);
        };
        if self.number >= LAST_NUMBER || entry.number != self.number + 1 {
            return Err(OpenFault::Broken);
        }
        match self.with(&entry.change) {
            Some(next) => Ok(next),
            None => Err(OpenFault::Broken),
        }
    }

    /// The stage with these lines more. It fails as `with_line` does.
    pub fn with_lines(self, alloc: Global, lines: &[SummedLine]) -> Result<Stage, OpenFault>
        ensures ok { IfOk result (Arrives self (map text_of lines.now)) }
        ensures broken { IfErr result (λ fault. fault ≡ OpenFault.Broken → (end : _) → ¬ Arrives self (map text_of lines.now) end) }
        ensures named { IfErr result (λ fault. fault ≢ OpenFault.NotAChain) }
    {
        let mut stage = self;
        for line in lines {
            stage = stage.with_line(alloc, &line.line)?;
        }
        Ok(stage)
    }
}
