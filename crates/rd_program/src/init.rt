ghost use Rattle.std.specs.Prelude.{◌≡◌, IfErr, IsTrue, OnOk, false, true};
ghost use Rattle.sha2.specs.Sha256.{sha256};
ghost use Rattle.rd_store.specs.Created.{IsCreated};
ghost use Rattle.rd_commands.specs.RefusalLines.{whole};
ghost use Rattle.rd_program.specs.Does.{DoesInit};
ghost use Rattle.rd_program.specs.Doors.{Asks};
ghost use Rattle.rd_program.specs.Leaves.{GivesBack, HasBoth, OnEnded};
ghost use Rattle.rd_program.specs.World.{OpensStore};
ghost use Rattle.rd_program.specs.World.Wanted.{StoreAt};
ghost use Rattle.rd_program.specs.Inits.{IsInitRefusal, LeavesInit, MakesDesk, NotMade, RefusesInit};

use crate::faults::not_made;
use crate::machine::Machine;
use rd_commands::{InitAsk, Refusal, write_whole};
use rd_store::{Refused, Store};
use sha2::{Digest, Sha256};
use sqlite::{Alter, Connection};
use std::io::Write;

/// Makes a desk over a connection, which it gives back, with a staff key. It fails with `Exists` and `Store`.
fn make<S: Alter + Drop>(conn: Connection<S>, key: &[u8]) -> (Result<(), Refusal>, Connection<S>)
    requires outside { conn.in_transaction ≡ false }
    ensures made { OnOk result.0 (IsCreated S.Store conn result.1 (sha256 key.now)) }
    ensures not_made { IfErr result.0 (NotMade S.Store conn result.1 (sha256 key.now)) }
{
    match Store::create(conn, &Sha256::digest(key)) {
        Ok(store) => (Ok(()), store.into_connection()),
        Err(Refused { fault, conn }) => (Err(not_made(fault)), conn),
    }
}

/// Makes a desk in the file of a store, with one staff key, and with sums if the words say so and the file is
/// new. It fails with `Exists`, with `Store`, and with `NoMemory`.
fn make_desk<M: Machine>(ask: InitAsk, machine: &mut M) -> Result<(), Refusal>
    ensures made { OnOk result (MakesDesk M.Disk.Store ((M.seen machine.old).stands ask.entry.store.now)
        (M.seen machine.new).left (sha256 ask.entry.key.now)) }
    ensures left { IfErr result (LeavesInit M.Disk.Store (M.seen machine.old).left ((M.seen
        machine.old).stands ask.entry.store.now) (M.seen machine.new).left (sha256 ask.entry.key.now)) }
    ensures refused { IfErr result IsInitRefusal }
    ensures back { GivesBack (M.seen machine.old).shows (M.seen machine.old).left (M.seen machine.new).left }
    ensures there { OnEnded result (HasBoth (M.seen machine.old).shows
        ((M.seen machine.old).stands ask.entry.store.now) (M.seen machine.new).left) }
    ensures asked { Asks (M.seen machine.old).wanted (StoreAt ask.entry.store.now true ask.entry.has_sums)
        (M.seen machine.new).wanted }
    ensures frame { OpensStore (M.seen machine.old) (M.seen machine.new) }
{
    let conn = match machine.connect(ask.store, true, ask.has_sums) {
        Ok(conn) => conn,
        Err(fault) => return Err(fault.or(Refusal::Store)),
    };
    let (made, conn) = make(conn, ask.key);
    machine.release(&mut Some(conn));
    made
}

/// Makes a desk in the file of a store, with one staff key, says that it is done, and flushes the output. It
/// fails as `make_desk` does, with `Exists` where a desk is, and with `Device` if a write or flush fails.
pub(crate) fn init<W: Write, M: Machine>(
    ask: InitAsk,
    output: &mut W,
    machine: &mut M,
) -> Result<(), Refusal>
    ensures does { DoesInit M.Disk.Store (M.seen machine.old) (M.seen machine.new) (W.contents output.old)
        (W.contents output.new) ask.entry (whole result) }
    ensures refused { IfErr result
        (λ refusal. RefusesInit refusal (W.contents output.old) (W.contents output.new)) }
    ensures flushed { OnOk result (IsTrue (M.flushed (W.contents output.new))) }
    ensures back { GivesBack (M.seen machine.old).shows (M.seen machine.old).left (M.seen machine.new).left }
{
    make_desk(ask, machine)?;
    write_whole::<M, W>(output, b"done\n")
}
