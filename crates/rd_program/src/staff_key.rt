//! Puts a key of the staff in a desk that stands, for whoever may write the file of its store.

ghost use Rattle.std.specs.Prelude.{◌≡◌, IfErr, IsTrue, OnOk};
ghost use Rattle.sha2.specs.Sha256.{sha256};
ghost use Rattle.rd_holdings.specs.State.{with_key};
ghost use Rattle.rd_store.specs.Held.{Changes, desk};
ghost use Rattle.rd_commands.specs.RefusalLines.{whole};
ghost use Rattle.rd_program.specs.Does.{DoesStaffKey};
ghost use Rattle.rd_program.specs.Doors.{AsksPath};
ghost use Rattle.rd_program.specs.Leaves.{GivesBack, HasBoth, NamesOpening, OnEnded};
ghost use Rattle.rd_program.specs.Serving.{IsOpenRefusal};
ghost use Rattle.rd_program.specs.Showing.{EndsWith};
ghost use Rattle.rd_program.specs.World.{OpensStore};
ghost use Rattle.rd_program.specs.StaffKeys.{LeavesStaffKey, PutsStaff, RefusesStaffKey};

use crate::machine::Machine;
use crate::open_desk::open_store;
use rd_commands::{Refusal, StaffKeyAsk, write_whole};
use rd_policy::Audience;
use rd_store::Store;
use sha2::{Digest, Sha256};
use sqlite::Alter;
use std::alloc::Global;
use std::io::Write;

/// Puts a desk key by its digest, its SHA-256, as one of the staff. It fails with `Store`.
fn put_digest<S: Alter>(store: &mut Store<S>, digest: &[u8; 32]) -> Result<(), Refusal>
    ensures changes { Changes S.Store store.old store.new
        (with_key digest.now Audience.Staff (desk S.Store store.old)) result }
    ensures refused { IfErr result (λ refusal. refusal ≡ Refusal.Store) }
{
    match store.put_key(digest, Audience::Staff) {
        Ok(()) => Ok(()),
        Err(_) => Err(Refusal::Store),
    }
}

/// Puts a desk key as one of the staff. It fails with `Store`.
fn put_staff<S: Alter>(store: &mut Store<S>, key: &[u8]) -> Result<(), Refusal>
    ensures changes { Changes S.Store store.old store.new
        (with_key (sha256 key.now) Audience.Staff (desk S.Store store.old)) result }
    ensures refused { IfErr result (λ refusal. refusal ≡ Refusal.Store) }
{
    put_digest(store, &Sha256::digest(key))
}

/// Puts a key of the staff in the desk in the file of a store. It fails as `open_store` and `put_staff` do.
fn put_in_store<M: Machine>(alloc: Global, ask: StaffKeyAsk, machine: &mut M) -> Result<(), Refusal>
    ensures put { OnOk result (EndsWith ((M.seen machine.old).stands ask.entry.store.now)
        (M.seen machine.new).left (PutsStaff M.Disk.Store (sha256 ask.entry.key.now))) }
    ensures left { IfErr result (LeavesStaffKey M.Disk.Store (M.seen machine.old).left ((M.seen
        machine.old).stands ask.entry.store.now) (M.seen machine.new).left (sha256 ask.entry.key.now)) }
    ensures opens { IfErr result (NamesOpening M.Disk.Store ((M.seen machine.old).stands ask.entry.store.now)
        (M.seen machine.new).left) }
    ensures refused { IfErr result IsOpenRefusal }
    ensures back { GivesBack (M.seen machine.old).shows (M.seen machine.old).left (M.seen machine.new).left }
    ensures there { OnEnded result (HasBoth (M.seen machine.old).shows
        ((M.seen machine.old).stands ask.entry.store.now) (M.seen machine.new).left) }
    ensures asked { AsksPath (M.seen machine.old).wanted ask.entry.store.now (M.seen machine.new).wanted }
    ensures frame { OpensStore (M.seen machine.old) (M.seen machine.new) }
{
    let mut store = open_store(alloc, ask.store, machine)?;
    let put = put_staff(&mut store, ask.key);
    machine.release(&mut Some(store.into_connection()));
    put
}

/// Puts a key of the staff in the desk of a store's file, says that it is done, and flushes. It asks for no
/// staff key. It fails as `put_in_store` does, and with `Device` if a write or flush fails; the key stays.
pub(crate) fn staff_key<W: Write, M: Machine>(
    alloc: Global,
    ask: StaffKeyAsk,
    output: &mut W,
    machine: &mut M,
) -> Result<(), Refusal>
    ensures does { DoesStaffKey M.Disk.Store (M.seen machine.old) (M.seen machine.new) (W.contents output.old)
        (W.contents output.new) ask.entry (whole result) }
    ensures refused { IfErr result
        (λ refusal. RefusesStaffKey refusal (W.contents output.old) (W.contents output.new)) }
    ensures flushed { OnOk result (IsTrue (M.flushed (W.contents output.new))) }
    ensures back { GivesBack (M.seen machine.old).shows (M.seen machine.old).left (M.seen machine.new).left }
{
    put_in_store(alloc, ask, machine)?;
    write_whole::<M, W>(output, b"done\n")
}
