ghost use Rattle.std.specs.Prelude.{◌↔◌, ◌≡◌, Err, None, Ok, Some, false};
ghost use Rattle.std.specs.Prelude.{IfErr, IfNone, IfOk, IfSome, IsTrue, OnErr, OnOk};
ghost use Rattle.sqlite.specs.declared.error.Error.TheVariants.{SqliteFailure};
ghost use Rattle.sqlite.specs.declared.error.ErrorCode.TheVariants as code;
ghost use Rattle.std.specs.Borrow.{sem};
ghost use Rattle.rd_commands.specs.Serving.{place_of};
ghost use Rattle.rd_program.specs.Doors.{Asks, LendsDoor};
ghost use Rattle.rd_program.specs.Extracting.{IsTaken, MakesNext};
ghost use Rattle.rd_program.specs.Leaves.{LeavesNone};
ghost use Rattle.rd_program.specs.World.{ChangesClock, ChangesFolders, OpensNewStore};
ghost use Rattle.rd_program.specs.World.{OpensStore, TakesBack, TakesBackNew, World};
ghost use Rattle.rd_program.specs.World.Wanted.{NewAt, StoreAt};

use rd_commands::{Files, MachineFault, Place};
use rd_http::{Door, TimeLimits};
use sqlite::{Alter, Connection, Error, ErrorCode};
use std::alloc::Global;

/// Why a connection was not made, from the fault of the database.
pub fn connect_fault(error: Error) -> MachineFault
    ensures { (result ≡ MachineFault.NoMemory) ↔ (error ≡ SqliteFailure code.OutOfMemory) }
{
    match error {
        Error::SqliteFailure(ErrorCode::OutOfMemory) => MachineFault::NoMemory,
        _ => MachineFault::Failed,
    }
}

/// Why a machine does not make a file.
#[derive(Clone, Copy, PartialEq, Eq, Debug)]
pub enum WriteFault {
    /// There is something of that name.
    Exists,
    /// The file cannot be made, or not whole.
    Failed,
    /// Memory ran out.
    NoMemory,
}

/// What the program asks of the machine that it runs on.
pub trait Machine: Files {
    /// What keeps the bytes of a database.
    type Disk: Alter + Drop;

    /// Where visits come from.
    type Door: Door;

    /// What it shows of itself: the moment that its clock shows next, in seconds since 1970-01-01T00:00:00
    /// UTC, only if the clock does not fail; and, if it shows its connections, how long visitors may take at
    /// the door that it lent last, `None` while it has lent none.
    ghost seen: { Self → World Self.Disk Self.Door };

    /// Whether nothing is at a path whose folder is there. It leaves the machine as it was.
    fn is_missing(&mut self, _path: &str) -> bool
        ensures missing { IsTrue result → (seen self.old).stands _path.now ≡ None }
        ensures same { self.new ≡ self.old }
    {
        false
    }

    /// Whether an ordinary file is at a path, which gives its bytes once more when it is read again; a pipe
    /// does not, and may make its reader wait. A machine need not have other files.
    fn is_ordinary(&self, _path: &str) -> bool {
        true
    }

    /// A connection to the database in the file at a path, outside a transaction. If there is no file, it
    /// makes one where it is to, with a sum at the end of each page or without, and otherwise nothing. It
    /// fails if it cannot open the file, has none and makes none, or finds no sound database in it.
    fn connect(
        &mut self,
        path: &str,
        makes: bool,
        new_has_sums: bool,
    ) -> Result<Connection<Self::Disk>, MachineFault>
        ensures outside { IfOk result (λ conn. conn.in_transaction ≡ false) }
        ensures stands { IfOk result (λ conn. IfSome ((seen self.old).stands path.now) (λ one. conn ≡ one)) }
        ensures there { IfOk result
            (λ conn. IsTrue (seen self.old).shows → (seen self.old).stands path.now ≡ Some conn) }
        ensures none { IfErr result (λ _. LeavesNone (seen self.old).left (seen self.new).left) }
        ensures kept { IfErr result
            (λ _. IsTrue (seen self.old).shows → (seen self.new).left ≡ (seen self.old).left) }
        ensures still_stands { IfErr result
            (λ _. (seen self.new).stands path.now ≡ (seen self.old).stands path.now) }
        ensures asked { Asks (seen self.old).wanted (StoreAt path.now makes new_has_sums)
            (seen self.new).wanted }
        ensures frame { OpensStore (seen self.old) (seen self.new) };

    /// Takes a connection back at the end of a command.
    fn release(&mut self, conn: &mut Option<Connection<Self::Disk>>)
        ensures left { IfSome (seen self.new).left (λ held. conn.old ≡ Some held) }
        ensures back { IsTrue (seen self.old).shows → (seen self.new).left ≡ conn.old }
        ensures frame { TakesBack (seen self.old) (seen self.new) };

    /// A connection to a database in a new file at a path, outside a transaction, with a sum at the end of
    /// each page or without; `None` where something is at the path already, to which nothing is done. It may
    /// be asked for while a connection to a store is out. It fails when it cannot make the file.
    fn connect_new(
        &mut self,
        path: &str,
        has_sums: bool,
    ) -> Result<Option<Connection<Self::Disk>>, MachineFault>
        ensures outside { IfOk result (λ found. IfSome found (λ conn. conn.in_transaction ≡ false)) }
        ensures fresh { IfOk result
            (λ found. IfSome found (λ conn. IfSome ((seen self.old).fresh path.now) (λ held. conn ≡ held))) }
        ensures there { IfOk result (λ found. IfSome found (λ conn.
            IsTrue (seen self.old).shows → (seen self.old).fresh path.now ≡ Some conn)) }
        ensures none { IfOk result (λ found. IfNone found ((seen self.new).made ≡ (seen self.old).made)) }
        ensures kept { IfErr result (λ _. (seen self.new).made ≡ (seen self.old).made) }
        ensures asked { Asks (seen self.old).wanted (NewAt path.now has_sums) (seen self.new).wanted }
        ensures frame { OpensNewStore (seen self.old) (seen self.new) };

    /// Takes the connection to a new store back.
    fn release_new(&mut self, conn: &mut Option<Connection<Self::Disk>>)
        ensures made { IfSome (seen self.new).made (λ held. conn.old ≡ Some held) }
        ensures back { IsTrue (seen self.old).shows → (seen self.new).made ≡ conn.old }
        ensures frame { TakesBackNew (seen self.old) (seen self.new) };

    /// Makes a file with these bytes under a name in a folder that is there. It writes over nothing. It fails
    /// with `Exists` when there is something of that name, and then makes nothing; with `Failed` when the
    /// file cannot be made, or not whole, and a front part of it may stay then; and with `NoMemory`.
    fn write_new(
        &mut self,
        alloc: Global,
        folder: &str,
        name: &str,
        bytes: &[u8],
    ) -> Result<(), WriteFault>
        ensures made { OnOk result (MakesNext (seen self.old).written (seen self.new).written
            (record { folder = folder.now; name = name.now; bytes = bytes.now })) }
        ensures none { OnErr result ((seen self.new).written ≡ (seen self.old).written) }
        ensures over_nothing { result ≡ Err WriteFault.Exists → self.new ≡ self.old }
        ensures taken { result ≡ Err WriteFault.Exists → IsTaken (seen self.new).written folder.now name.now }
        ensures frame { ChangesFolders (seen self.old) (seen self.new) };

    /// The seconds since 1970-01-01T00:00:00 UTC. It fails when the clock fails, and shows no moment then.
    fn now(&mut self) -> Result<i64, MachineFault>
        ensures shown { IfOk result (λ seconds. IfSome (seen self.old).clock (λ moment. seconds ≡ moment)) }
        ensures sure { IfSome (seen self.old).clock (λ moment. result ≡ Ok moment) }
        ensures frame { ChangesClock (seen self.old) (seen self.new) };

    /// Lends the door, which it keeps, for visits at a place, and gives its visitors these limits. A machine
    /// need not have sockets; visitors in memory take no time. It fails if it cannot open the place.
    fn listen(&mut self, place: Place, limits: TimeLimits) -> Result<&mut Self::Door, MachineFault>
        ensures* lends { sem 𝓛
            (LendsDoor Self.row Self.Door.row seen (place_of place.entry) limits self.entry result) }
        ensures lent { IfOk result
            (λ lent. IfSome ((seen self.old).doors (place_of place.entry)) (λ shown. lent.now ≡ shown)) };

    /// The files and sheets that it shows are those that it gives.
    ghost gives: { (machine : Self) → ((seen machine).files ≡ Self.file_bytes machine)
        × ((seen machine).sheets ≡ Self.sheet_bytes machine) };
}

/// The bytes of the file at a path, which are those that the machine shows. It leaves the machine as it was.
pub(crate) fn file_at<M: Machine>(
    alloc: Global,
    path: &str,
    machine: &mut M,
) -> Result<Vec<u8>, MachineFault>
    ensures bytes { IfOk result
        (λ bytes. IfSome ((M.seen machine.old).files path.now) (λ shown. bytes.items ≡ shown)) }
    ensures same { machine.new ≡ machine.old }
{
    machine.read_file(alloc, path)
}

/// The bytes of the sheet at a path, in the same way.
pub(crate) fn sheet_at<M: Machine>(
    alloc: Global,
    path: &str,
    machine: &mut M,
) -> Result<Vec<u8>, MachineFault>
    ensures bytes { IfOk result
        (λ bytes. IfSome ((M.seen machine.old).sheets path.now) (λ shown. bytes.items ≡ shown)) }
    ensures same { machine.new ≡ machine.old }
{
    machine.read_sheet(alloc, path)
}
