//! A history in a file: a chain of lines, each of them that of an entry.

ghost use Rattle.std.specs.Prelude.{◌≡◌, ◌≢◌, ◌↔◌, ◌+◌, ◌∷◌, [], false, Err, IfErr, IfOk, IsTrue, MatchOption, OnOk, length};
ghost use Rattle.sqlite.specs.Held.{Held, state};
ghost use Rattle.rd_tables.specs.Connections.{IsClean, IsOpen, LeavesOpen};
ghost use Rattle.rd_chain.specs.Held.{Appends, HoldsChain, IsAtRest, IsCreated, IsFullFor, IsNotCreated, IsNotOpened, IsOpened, Keeps, ReadsAfter, lines};
ghost use Rattle.rd_history.specs.Entries.{HasDigests, IsEntry};
ghost use Rattle.rd_history.specs.Histories.{AreNumbered, HoldsHistory, IsHistory, MayBeTakenBack, IsAsked, MayCome, base_entries, base_lines, line_at};
ghost use Rattle.rd_history.specs.Left.{LeavesHistory};
ghost use Rattle.rd_history.specs.Reading.{IsLineOf};
ghost use Rattle.rd_history.specs.Settled.{EndIn};
ghost use Rattle.rd_history.specs.Stages.{EndsSo};

use crate::entry::{Change, Entry, LAST_NUMBER};
use crate::reading::read_line;
use crate::settling::Unsettled;
use crate::stage::Stage;
use crate::{base, writing};
use rd_chain::{Chain, ChainFault, CreateFault, OpenFault, Refused, SummedLine};
use sqlite::{Alter, Connection};
use std::alloc::Global;
use std::marker::Model;

/// A history over a connection: a chain whose lines are those of entries. In memory it keeps whether the last of them
/// is a change alone, that nothing has taken back.
#[derive(Drop)]
pub struct History<S: Alter> {
    chain: Chain<S>,
    ends_in_change: bool,
}

impl<S: Alter> Model for History<S> {
    ghost use Rattle.sqlite.specs.Held.{Held, held_code};
    ghost use Rattle.rd_tables.specs.Connections.{IsOpen};
    ghost use Rattle.rd_chain.specs.Held.{lines};
    ghost use Rattle.rd_history.specs.Stages.{EndsSo};

    ghost Value = { Held S };

    ghost coded = { held_code S.code };

    ghost view = { λ history. history.chain };

    ghost invariant = { λ history. IsOpen S.Store history.chain → EndsSo history.ends_in_change (lines S.Store history.chain) };
}

/// Reads all lines, and says whether the last of them is that of a change alone, that nothing has taken back.
///
/// It fails with `Broken` if they are not those of a history, and with `Sql` if the database fails, or if memory runs
/// out.
fn judge<S: Alter>(alloc: Global, chain: &mut Chain<S>) -> Result<bool, OpenFault>
    ensures keeps { Keeps S.Store chain.old chain.new }
    ensures ok { IsOpen S.Store chain.new → IfOk result (λ ends. EndsSo ends (lines S.Store chain.old)) }
    ensures broken { IsOpen S.Store chain.new → IfErr result (λ fault. fault ≡ OpenFault.Broken → ¬ IsHistory (lines S.Store chain.old)) }
    ensures named { IfErr result (λ fault. fault ≢ OpenFault.NotAChain) }
    ensures ends_open { (IsClean S.Store chain.old → IsOpen S.Store chain.old) → result ≢ Err OpenFault.Sql → IsClean S.Store chain.new → IsOpen S.Store chain.new }
{
    let last = chain.last();
    let mut stage = Stage::START;
    while stage.number < last {
        let Ok(page) = chain.lines_after(alloc, stage.number) else {
            return Err(OpenFault::Sql);
        };
        let before = stage.number;
        stage = stage.with_lines(alloc, &page)?;
        if stage.number <= before {
            // A connection that a fault has shut may tell no lines.
            return Err(OpenFault::Sql);
        }
    }
    if stage.to_come > 0 {
        return Err(OpenFault::Broken);
    }
    Ok(stage.ends_in_change)
}

/// The entry of a line that was read; `Sql` where it is the line of none, or memory runs out.
pub(crate) fn entry_in(alloc: Global, line: &SummedLine) -> Result<Entry, ChainFault>
    ensures { IfOk result (IsLineOf line.now.line.items) }
{
    let Ok(text) = str::from_utf8(&line.line) else {
        return Err(ChainFault::Sql);
    };
    match read_line(alloc, text) {
        Ok(Some(entry)) => Ok(entry),
        Ok(None) | Err(_) => Err(ChainFault::Sql),
    }
}

impl<S: Alter> History<S> {
    /// Makes a history without entries in a database without tables. The connection is outside a transaction. It fails as
    /// `Chain::create` does.
    pub fn create(conn: Connection<S>) -> Result<History<S>, Refused<CreateFault, S>>
        requires outside { conn.in_transaction ≡ false }
        ensures created { IfOk result (λ history. IsCreated S.Store conn history) }
        ensures refused { IfErr result (λ refused. IsNotCreated S.Store conn refused.conn refused.fault) }
    {
        match Chain::create(conn) {
            Ok(chain) => Ok(History {
                chain,
                ends_in_change: false,
            }),
            Err(refused) => Err(refused),
        }
    }

    /// Opens the history that a database holds. The connection is outside a transaction.
    ///
    /// It fails as `Chain::open` does, and with `Broken` also where the lines of the chain are not those of a history.
    pub fn open(alloc: Global, conn: Connection<S>) -> Result<History<S>, Refused<OpenFault, S>>
        requires outside { conn.in_transaction ≡ false }
        ensures opened { IfOk result (λ history. IsOpened S.Store HoldsHistory conn history) }
        ensures refused { IfErr result (λ refused. IsNotOpened S.Store HoldsHistory conn refused.conn refused.fault) }
    {
        let mut chain = match Chain::open(conn) {
            Ok(chain) => chain,
            Err(refused) => return Err(refused),
        };
        match judge(alloc, &mut chain) {
            Ok(ends_in_change) => {
                // Whatever was read, a crash leaves these lines.
                chain.between_calls();
                Ok(History {
                    chain,
                    ends_in_change,
                })
            }
            Err(fault) => Err(Refused {
                fault,
                conn: chain.into_connection(),
            }),
        }
    }

    /// How many entries there are, which is the number of the last. It is answered from memory.
    pub fn last(&self) -> u32
        ensures { IsOpen S.Store self.now → result ≡ length (lines S.Store self.now) }
    {
        self.chain.last()
    }

    /// Whether the last entry may be taken back: it is a change alone, and nothing has taken it back. It is answered from
    /// memory.
    pub fn ends_in_change(&self) -> bool
        ensures { IsOpen S.Store self.now → IsTrue result ↔ MayBeTakenBack (lines S.Store self.now) }
    {
        self.ends_in_change
    }

    /// The lines after a number, of more than 200 the first 200, as the chain reads them.
    pub(crate) fn lines_after(
        &mut self,
        alloc: Global,
        number: u32,
    ) -> Result<Vec<SummedLine>, ChainFault>
        ensures { ReadsAfter S.Store self.old self.new number result }
    {
        self.chain.lines_after(alloc, number)
    }

    /// The last entry; `None` where there is none. It changes nothing.
    ///
    /// It fails with `Sql` if the database fails, or if memory runs out.
    pub fn last_entry(&mut self, alloc: Global) -> Result<Option<Entry>, ChainFault>
        ensures keeps { Keeps S.Store self.old self.new }
        ensures last { IsOpen S.Store self.new → IfOk result (λ found.
            MatchOption found (lines S.Store self.old ≡ []) (EndIn (lines S.Store self.old))) }
        ensures ends_open { LeavesOpen S.Store self.new result }
    {
        let last = self.chain.last();
        let page = match self.chain.lines_after(alloc, last.saturating_sub(1)) {
            Ok(page) => page,
            Err(fault) => return Err(fault),
        };
        match page.first() {
            Some(line) => match entry_in(alloc, line) {
                Ok(entry) => Ok(Some(entry)),
                Err(fault) => Err(fault),
            },
            None => Ok(None),
        }
    }

    /// Puts an entry at the end, with the next number in place of its own, which may be any within the limits. After `Ok`
    /// it is durable. What a request asks may always come (`changes_may_come`), and then be taken back. A base of
    /// things cannot be put, as its first entry alone makes no history.
    ///
    /// It fails with `Full` where there are 999,999,999 entries, and with `Sql` if the database fails, or if memory
    /// runs out.
    pub fn append(&mut self, alloc: Global, entry: Entry) -> Result<(), ChainFault>
        requires fits { IsEntry entry }
        requires digests { HasDigests entry }
        requires comes { IsOpen S.Store self.old → MayCome entry.change (lines S.Store self.old) }
        ensures appends { Appends S.Store self.old self.new (line_at (length (lines S.Store self.old) + 1) entry ∷ []) result }
        ensures full { IsFullFor S.Store self.old self.new 1 result }
        ensures back { IsOpen S.Store self.new → OnOk result (IsAsked entry.change → MayBeTakenBack (lines S.Store self.new)) }
        ensures crash { IsOpen S.Store self.old → IsClean S.Store self.new → LeavesHistory S.Store self.new }
    {
        // If it fails below, a crash leaves the lines as they are here.
        self.chain.between_calls();
        let last = self.chain.last();
        if last >= LAST_NUMBER {
            return Err(ChainFault::Full);
        }
        let entry = Entry {
            number: last + 1,
            ..entry
        };
        let Ok(line) = writing::line(alloc, &entry) else {
            return Err(ChainFault::Sql);
        };
        let ends_in_change = entry.change.is_asked();
        match self.chain.append(line.as_str()) {
            Ok(()) => {
                self.ends_in_change = ends_in_change;
                Ok(())
            }
            Err(fault) => Err(fault),
        }
    }

    /// Puts a base at the end, in one transaction: that what stood before counts no more, and these changes, which tell
    /// what stands now. After `Ok` all of it is durable.
    ///
    /// It fails with `Unsettled` where a base may not list one of the changes, a value is outside the limits of an entry,
    /// there would be more than 999,999,999 entries, the database fails, or memory runs out.
    pub(crate) fn append_base(
        &mut self,
        alloc: Global,
        moment: i64,
        note: &str,
        listed: Vec<Change>,
    ) -> Result<(), Unsettled>
        ensures appends { Appends S.Store self.old self.new (base_lines moment note.now (length (lines S.Store self.old) + 1) listed.items) result }
        ensures numbered { IsOpen S.Store self.new → OnOk result (AreNumbered (length (lines S.Store self.old) + 1)
            (base_entries moment note.now (length (lines S.Store self.old) + 1) (Change.Begin (length listed.items) ∷ listed.items))) }
    {
        // If it fails below, a crash leaves the lines as they are here.
        self.chain.between_calls();
        let Some(number) = self.chain.last().checked_add(1) else {
            return Err(Unsettled);
        };
        let lines = base::lines(alloc, moment, note, number, listed)?;
        let mut texts = Vec::new(alloc);
        for line in &lines {
            let Ok(()) = texts.push(line.as_str()) else {
                return Err(Unsettled);
            };
        }
        self.chain.append_all(&texts)?;
        self.ends_in_change = false;
        Ok(())
    }

    /// Gives the connection back, with the lines in its database.
    pub fn into_connection(self) -> Connection<S>
        ensures same { result ≡ self }
        ensures holds { HoldsChain (state S.Store result) }
    {
        let History {
            chain,
            ends_in_change: _,
        } = self;
        chain.into_connection()
    }

    /// Does nothing. Its contract says what holds between two calls: while the connection is open, its database is the
    /// chain of its lines, these are a history, and a crash leaves them and nothing else.
    pub fn between_calls(&self)
        ensures rest { IsAtRest S.Store self.now }
        ensures history { IsOpen S.Store self.now → IsHistory (lines S.Store self.now) }
    {
        self.chain.between_calls();
    }
}
