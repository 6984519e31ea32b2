//! What the entries of a history ask in effect, up to a cut.

ghost use Rattle.std.specs.Prelude.{◌≡◌, ◌↔◌, false, IfErr, IfOk, IsTrue};
ghost use Rattle.rd_tables.specs.Connections.{IsClean, IsOpen, LeavesOpen};
ghost use Rattle.rd_chain.specs.Held.{Keeps, lines};
ghost use Rattle.rd_history.specs.Histories.{AreLinesOf};
ghost use Rattle.rd_history.specs.Replayed.{IsCutOf};
ghost use Rattle.rd_history.specs.Replaying.{Makes, MayEndBefore, Reads, Takes};

use crate::entry::{Change, LAST_NUMBER};
use crate::history::{History, entry_in};
use crate::stage::Stage;
use rd_chain::{ChainFault, SummedLine};
use sqlite::Alter;
use std::alloc::Global;

/// The first entries of a history, and what they ask in effect.
#[derive(Debug, Drop)]
pub struct Cut {
    /// How many entries it has, which is the number of the last.
    pub last: u32,
    /// What they ask, from the last base on, without what was taken back.
    pub changes: Vec<Change>,
}

/// How far a history was read in search of a cut.
#[derive(Drop)]
struct Replay {
    /// How far its entries have come.
    stage: Stage,
    /// What they ask in effect.
    changes: Vec<Change>,
    /// Whether these are the cut.
    is_cut: bool,
}

/// What changes ask in effect with one more behind them. It fails with `Sql` where one is taken back and there is none,
/// or memory runs out.
fn with_change(
    alloc: Global,
    changes: Vec<Change>,
    change: Change,
) -> Result<Vec<Change>, ChainFault>
    ensures makes { IfOk result (λ all. Makes change changes.items all.items) }
    ensures failed { IfErr result (λ fault. fault ≡ ChainFault.Sql) }
{
    let mut all = changes;
    match change {
        Change::Begin(_) => Ok(Vec::new(alloc)),
        Change::Void(_) => match all.pop() {
            Some(_) => Ok(all),
            None => Err(ChainFault::Sql),
        },
        asked => match all.push(asked) {
            Ok(()) => Ok(all),
            Err(_) => Err(ChainFault::Sql),
        },
    }
}

impl Replay {
    /// Whether the cut through a number ends here, where this change comes next.
    fn ends_before(&self, number: u32, change: &Change) -> bool
        ensures { IsTrue result ↔ MayEndBefore number self.now.stage change.now }
    {
        self.stage.number >= number && self.stage.to_come == 0 && !matches!(change, Change::Void(_))
    }

    /// One change more. It fails with `Sql` where it cannot come next, or memory runs out.
    fn with(self, alloc: Global, change: Change) -> Result<Replay, ChainFault>
        ensures takes { IfOk result (Takes change self) }
        ensures failed { IfErr result (λ fault. fault ≡ ChainFault.Sql) }
    {
        let Replay { stage, changes, .. } = self;
        if stage.number >= LAST_NUMBER {
            return Err(ChainFault::Sql);
        }
        let Some(stage) = stage.with(&change) else {
            return Err(ChainFault::Sql);
        };
        let changes = with_change(alloc, changes, change)?;
        Ok(Replay {
            stage,
            changes,
            is_cut: false,
        })
    }

    /// What was read, as the cut.
    fn into_cut(self) -> Cut
        ensures { result ≡ record { last = self.stage.number; changes = self.changes } }
    {
        let Replay { stage, changes, .. } = self;
        Cut {
            last: stage.number,
            changes,
        }
    }

    /// The lines of a page more, as far as the cut goes.
    fn with_lines(
        self,
        alloc: Global,
        number: u32,
        lines: &[SummedLine],
    ) -> Result<Replay, ChainFault>
        requires { self.is_cut ≡ false }
        ensures reads { IfOk result (Reads number lines.now self) }
        ensures failed { IfErr result (λ fault. fault ≡ ChainFault.Sql) }
    {
        let mut replay = self;
        for line in lines {
            let Ok(entry) = entry_in(alloc, line) else {
                return Err(ChainFault::Sql);
            };
            if replay.ends_before(number, &entry.change) {
                replay.is_cut = true;
                return Ok(replay);
            }
            replay = replay.with(alloc, entry.change)?;
        }
        Ok(replay)
    }
}

impl<S: Alter> History<S> {
    /// The entries through a number, and what they ask in effect: the fewest that are at least so many and end neither
    /// within a base nor before an entry that takes the last of them back; or all, where the history has fewer. It changes
    /// nothing.
    ///
    /// It fails with `Sql` if the database fails, or if memory runs out.
    pub fn changes_through(&mut self, alloc: Global, number: u32) -> Result<Cut, ChainFault>
        ensures keeps { Keeps S.Store self.old self.new }
        ensures cut { IsOpen S.Store self.new → IfOk result (λ cut. (entries : _) → AreLinesOf entries (lines S.Store self.old) → IsCutOf number entries cut) }
        ensures failed { IfErr result (λ fault. fault ≡ ChainFault.Sql) }
        ensures ends_open { (IsClean S.Store self.old → IsOpen S.Store self.old) → LeavesOpen S.Store self.new result }
    {
        let last = self.last();
        let mut replay = Replay {
            stage: Stage::START,
            changes: Vec::new(alloc),
            is_cut: false,
        };
        while replay.stage.number < last {
            let page = self.lines_after(alloc, replay.stage.number)?;
            let before = replay.stage.number;
            replay = replay.with_lines(alloc, number, &page)?;
            if replay.is_cut {
                return Ok(replay.into_cut());
            }
            if replay.stage.number <= before {
                // A connection that a fault has shut may tell no lines.
                return Err(ChainFault::Sql);
            }
        }
        Ok(replay.into_cut())
    }
}
