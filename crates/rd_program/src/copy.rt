//! Copies the desk in the file of a store to a new file.

ghost use Rattle.std.specs.Prelude.{◌≡◌, IfErr, IsTrue, OnOk, false};
ghost use Rattle.rd_store.specs.Copied.{IsCopied};
ghost use Rattle.rd_commands.specs.RefusalLines.{whole};
ghost use Rattle.rd_program.specs.Does.{DoesCopy};
ghost use Rattle.rd_program.specs.Copying.{IfAll, IsCopyRefusal, LeavesCopy, LeavesTarget};
ghost use Rattle.rd_program.specs.Copying.{MakesCopy, NotCopied, OpensDesk, RefusesCopy};
ghost use Rattle.rd_program.specs.Doors.{Asks, AsksThen};
ghost use Rattle.rd_program.specs.Inits.{IsInitRefusal};
ghost use Rattle.rd_program.specs.Leaves.{GivesBack, HasBoth, IfBoth, IsSame, Leaves};
ghost use Rattle.rd_program.specs.Leaves.{LeavesDesk, LeavesStore, NamesOpening, OnEnded};
ghost use Rattle.rd_program.specs.Showing.{EndsWith};
ghost use Rattle.rd_program.specs.World.{CopiesStore, OpensNewStore};
ghost use Rattle.rd_program.specs.World.Wanted.{NewAt, StoreAt};

use crate::faults::not_made;
use crate::machine::Machine;
use crate::open_desk::open_store;
use rd_commands::{CopyAsk, Refusal, write_whole};
use rd_store::{Refused, Store};
use sqlite::{Alter, Connection};
use std::alloc::Global;
use std::io::Write;

/// Makes a store's desk over another connection, which it gives back. It fails with `Exists` and `Store`.
fn copy_desk<S: Alter + Drop>(
    alloc: Global,
    from: &mut Store<S>,
    conn: Connection<S>,
) -> (Result<(), Refusal>, Connection<S>)
    requires outside { conn.in_transaction ≡ false }
    ensures leaves { LeavesDesk S.Store IsSame from.old from.new }
    ensures copied { OnOk result.0 (IsCopied S.Store from.old from.new conn result.1) }
    ensures not_copied { IfErr result.0 (NotCopied S.Store from.old from.new conn result.1) }
{
    match from.copy(alloc, conn) {
        Ok(store) => (Ok(()), store.into_connection()),
        Err(Refused { fault, conn }) => (Err(not_made(fault)), conn),
    }
}

/// Makes the desk of a store in a new file, with sums or without. It fails with `Exists` where something is
/// at the path already, with `Store`, and with `NoMemory`.
fn copy_to<M: Machine>(
    alloc: Global,
    from: &mut Store<M::Disk>,
    target: &str,
    has_sums: bool,
    machine: &mut M,
) -> Result<(), Refusal>
    ensures leaves { LeavesDesk M.Disk.Store IsSame from.old from.new }
    ensures copied { OnOk result (HasBoth (M.seen machine.old).shows ((M.seen machine.old).fresh target.now)
        (M.seen machine.new).made × IfBoth ((M.seen machine.old).fresh target.now) (M.seen machine.new).made
        (IsCopied M.Disk.Store from.old from.new)) }
    ensures not_copied { IfErr result (LeavesTarget M.Disk.Store from.old from.new (M.seen machine.old).made
        ((M.seen machine.old).fresh target.now) (M.seen machine.new).made) }
    ensures refused { IfErr result IsInitRefusal }
    ensures back_new { GivesBack (M.seen machine.old).shows (M.seen machine.old).made
        (M.seen machine.new).made }
    ensures asked { Asks (M.seen machine.old).wanted (NewAt target.now has_sums) (M.seen machine.new).wanted }
    ensures frame { OpensNewStore (M.seen machine.old) (M.seen machine.new) }
{
    let found = match machine.connect_new(target, has_sums) {
        Ok(found) => found,
        Err(fault) => return Err(fault.or(Refusal::Store)),
    };
    let Some(conn) = found else {
        return Err(Refusal::Exists);
    };
    let (copied, conn) = copy_desk(alloc, from, conn);
    machine.release_new(&mut Some(conn));
    copied
}

/// Makes the desk in the file of a store in a new file. It fails as `open_store` does, with `Exists` where
/// something is at the path of the new file, with `Store` when it cannot copy the desk, and with `NoMemory`.
fn copy_store<M: Machine>(alloc: Global, ask: CopyAsk, machine: &mut M) -> Result<(), Refusal>
    ensures copied { OnOk result (HasBoth (M.seen machine.old).shows ((M.seen machine.old).fresh
        ask.entry.target.now) (M.seen machine.new).made × IfAll ((M.seen machine.old).stands
        ask.entry.store.now) (M.seen machine.new).left ((M.seen machine.old).fresh ask.entry.target.now)
        (M.seen machine.new).made (MakesCopy M.Disk.Store)) }
    ensures not_copied { IfErr result (LeavesCopy M.Disk.Store
        ((M.seen machine.old).stands ask.entry.store.now) (M.seen machine.new).left (M.seen machine.old).made
        ((M.seen machine.old).fresh ask.entry.target.now) (M.seen machine.new).made) }
    ensures leaves { Leaves (M.seen machine.old).left ((M.seen machine.old).stands ask.entry.store.now)
        (M.seen machine.new).left (LeavesStore M.Disk.Store IsSame) }
    ensures opens { IfErr result (NamesOpening M.Disk.Store ((M.seen machine.old).stands ask.entry.store.now)
        (M.seen machine.new).left) }
    ensures refused { IfErr result IsCopyRefusal }
    ensures back { GivesBack (M.seen machine.old).shows (M.seen machine.old).left (M.seen machine.new).left }
    ensures back_new { GivesBack (M.seen machine.old).shows (M.seen machine.old).made
        (M.seen machine.new).made }
    ensures there { OnEnded result (HasBoth (M.seen machine.old).shows
        ((M.seen machine.old).stands ask.entry.store.now) (M.seen machine.new).left) }
    ensures asked { AsksThen (M.seen machine.old).wanted (StoreAt ask.entry.store.now false false)
        (NewAt ask.entry.target.now ask.entry.has_sums) (M.seen machine.new).wanted
        (EndsWith ((M.seen machine.old).stands ask.entry.store.now) (M.seen machine.new).left
        (OpensDesk M.Disk.Store)) }
    ensures frame { CopiesStore (M.seen machine.old) (M.seen machine.new) }
{
    let mut store = open_store(alloc, ask.store, machine)?;
    let copied = copy_to(alloc, &mut store, ask.target, ask.has_sums, machine);
    machine.release(&mut Some(store.into_connection()));
    copied
}

/// Makes the desk in the file of a store in a new file, says that it is done, and flushes the output. What
/// was written is compared with what was read before that. It asks for no key of the staff. It fails as
/// `copy_store` does, and with `Device` when a write or the flush fails; the copy stands then.
pub(crate) fn copy<W: Write, M: Machine>(
    alloc: Global,
    ask: CopyAsk,
    output: &mut W,
    machine: &mut M,
) -> Result<(), Refusal>
    ensures does { DoesCopy M.Disk.Store (M.seen machine.old) (M.seen machine.new) (W.contents output.old)
        (W.contents output.new) ask.entry (whole result) }
    ensures refused { IfErr result
        (λ refusal. RefusesCopy refusal (W.contents output.old) (W.contents output.new)) }
    ensures flushed { OnOk result (IsTrue (M.flushed (W.contents output.new))) }
    ensures back { GivesBack (M.seen machine.old).shows (M.seen machine.old).left (M.seen machine.new).left }
{
    copy_store(alloc, ask, machine)?;
    write_whole::<M, W>(output, b"done\n")
}
