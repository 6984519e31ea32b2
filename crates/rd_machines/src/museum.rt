//! A machine with one store, which stays between runs.

ghost use Rattle.std.specs.Prelude.{◌≡◌, Err, IfOk, IfSome, None, Ok, Option, Some, refl, true, ℤ};

use rd_http::{MemoryDoor, TimeLimits};
use rd_program::{
    Files, Line, Machine, MachineFault, Place, Remembered, RowNote, Said, SystemFault, WriteFault,
};
use sqlite::{Alter, Connection, MemStore};
use std::alloc::{AllocError, Global};
use std::io::Write;

/// The path of the store of a museum.
pub const STORE: &str = "museum.sqlite";

/// The path at which a museum makes a new store.
pub const NEW_STORE: &str = "new.sqlite";

/// What a museum gives beside its store and its door.
pub trait Supply {
    /// The moment that its clock shows next, if it shows it; then the clock does not fail.
    ghost clock: { Self → Option ℤ };

    /// The bytes of the file of an image.
    fn image(&self, alloc: Global, path: &str) -> Result<Vec<u8>, MachineFault>;

    fn sheet(&self, alloc: Global, path: &str) -> Result<Vec<u8>, MachineFault>;

    /// It fails when the machine does not give its store, or makes none with sums where they are asked for.
    fn check_store(&self, _new_has_sums: bool) -> Result<(), MachineFault> {
        Ok(())
    }

    /// It fails when the machine makes no new store, or none with sums where they are asked for.
    fn check_new_store(&self, _has_sums: bool) -> Result<(), MachineFault> {
        Ok(())
    }

    /// It fails when the machine does not give its door at a place, or not with these limits for its visitors.
    fn check_door(&mut self, _place: Place, _limits: TimeLimits) -> Result<(), MachineFault> {
        Ok(())
    }

    /// Takes a new file into a folder; it has none, unless it says otherwise.
    ///
    /// It fails with `Exists` where there is a file of that name, with `Failed`, and with `NoMemory`.
    fn take(
        &mut self,
        _alloc: Global,
        _folder: &str,
        _name: &str,
        _bytes: &[u8],
    ) -> Result<(), WriteFault>
        ensures clock { clock self.new ≡ clock self.old }
        ensures over_nothing { result ≡ Err WriteFault.Exists → self.new ≡ self.old }
    {
        Err(WriteFault::Failed)
    }

    /// The moment, in seconds since 1970-01-01T00:00:00 UTC.
    ///
    /// It fails when the clock fails, which then shows no moment.
    fn now(&mut self) -> Result<i64, MachineFault>
        ensures shown { IfOk result (λ seconds. IfSome (clock self.old) (λ moment. seconds ≡ moment)) }
        ensures sure { IfSome (clock self.old) (λ moment. result ≡ Ok moment) };
}

/// A machine with one store, with a door, and with what is supplied. The store is in memory unless a type says
/// otherwise.
#[derive(Drop)]
pub struct Museum<P: Supply + Drop, S: Alter + Drop = MemStore> {
    /// The store; `None` while a command has it.
    pub conn: Option<Connection<S>>,
    /// The database in which a new store is made; `None` while a command has it, and where no new file can be made.
    pub fresh: Option<Connection<S>>,
    pub door: MemoryDoor,
    /// The limits that visitors were given when it lent its door last.
    pub limits: Option<TimeLimits>,
    pub supply: P,
    /// What it remembers for an explanation: of each file that it does not give, that there is none.
    pub remembered: Remembered,
}

impl<P: Supply + Drop, S: Alter + Drop> Museum<P, S> {
    /// Remembers that there is no file at a path, where it was not given and memory is no reason.
    fn remember(&self, path: &str, given: &Result<Vec<u8>, MachineFault>) {
        if let Err(MachineFault::Failed) = given {
            self.remembered.keep(path, Said::Missing);
        }
    }

    /// Remembers that there is a file of a name in a folder, or no such folder, where a new one was not taken and memory is
    /// no reason.
    fn remember_new(
        &self,
        alloc: Global,
        folder: &str,
        name: &str,
        taken: &Result<(), WriteFault>,
    ) {
        let said = match taken {
            Err(WriteFault::Exists) => Said::Standing,
            Err(WriteFault::Failed) => Said::Missing,
            _ => return,
        };
        if let Ok(path) = path_in(alloc, folder, name) {
            self.remembered.keep(path.as_str(), said);
        }
    }
}

/// The path of a name in a folder. It fails when memory runs out.
fn path_in(alloc: Global, folder: &str, name: &str) -> Result<String, AllocError> {
    let mut path = String::from_str(alloc, folder)?;
    path.push_str("/")?;
    path.push_str(name)?;
    Ok(path)
}

impl<P: Supply + Drop, S: Alter + Drop> Files for Museum<P, S> {
    ghost file_bytes = { λ _ _. None };

    ghost sheet_bytes = { λ _ _. None };

    fn flush<W: Write>(output: &mut W) -> Result<(), MachineFault> {
        match output.flush() {
            Ok(()) => Ok(()),
            Err(_) => Err(MachineFault::Failed),
        }
    }

    fn read_file(&mut self, alloc: Global, path: &str) -> Result<Vec<u8>, MachineFault> {
        let given = self.supply.image(alloc, path);
        self.remember(path, &given);
        given
    }

    fn read_sheet(&mut self, alloc: Global, path: &str) -> Result<Vec<u8>, MachineFault> {
        let given = self.supply.sheet(alloc, path);
        self.remember(path, &given);
        given
    }

    fn last_fault(&self) -> Option<SystemFault> {
        self.remembered.last_fault()
    }

    fn note_row(&self, row: u64, note: RowNote) {
        self.remembered.note_row(row, note);
    }

    fn noted_rows(&self, _alloc: Global) -> Vec<Line> {
        self.remembered.noted_rows()
    }
}

impl<P: Supply + Drop, S: Alter + Drop> Machine for Museum<P, S> {
    type Disk = S;

    type Door = MemoryDoor;

    ghost seen = { λ machine. record {
      shows = true;
      clock = P.clock machine.supply;
      files = λ _. None;
      sheets = λ _. None;
      stands = λ _. machine.conn;
      left = machine.conn;
      fresh = λ _. machine.fresh;
      made = machine.fresh;
      wanted = None;
      doors = λ _. Some machine.door;
      limits = machine.limits;
      written = None;
    } };

    /// It also fails at a path without a store, and if the store has not come back, or is inside a
    /// transaction.
    fn connect(
        &mut self,
        path: &str,
        _makes: bool,
        new_has_sums: bool,
    ) -> Result<Connection<S>, MachineFault> {
        self.supply.check_store(new_has_sums)?;
        if path != STORE {
            return Err(MachineFault::Failed);
        }
        let Some(conn) = self.conn.take() else {
            return Err(MachineFault::Failed);
        };
        if conn.is_autocommit() {
            return Ok(conn);
        }
        self.conn = Some(conn);
        Err(MachineFault::Failed)
    }

    /// It makes a file only where its supply takes it in.
    fn write_new(
        &mut self,
        alloc: Global,
        folder: &str,
        name: &str,
        bytes: &[u8],
    ) -> Result<(), WriteFault> {
        let taken = self.supply.take(alloc, folder, name, bytes);
        self.remember_new(alloc, folder, name, &taken);
        taken
    }

    /// It closes nothing: the one that runs the program does.
    fn release(&mut self, conn: &mut Option<Connection<S>>) {
        self.conn = conn.take();
    }

    /// The path of the store is taken. It also fails at a path other than `NEW_STORE`, and if the database has not come back,
    /// or is inside a transaction. What stands in the database is for the command to find out.
    fn connect_new(
        &mut self,
        path: &str,
        has_sums: bool,
    ) -> Result<Option<Connection<S>>, MachineFault> {
        self.supply.check_new_store(has_sums)?;
        if path == STORE {
            self.remembered.keep(path, Said::Standing);
            return Ok(None);
        }
        if path != NEW_STORE {
            return Err(MachineFault::Failed);
        }
        let Some(conn) = self.fresh.take() else {
            return Err(MachineFault::Failed);
        };
        if conn.is_autocommit() {
            return Ok(Some(conn));
        }
        self.fresh = Some(conn);
        Err(MachineFault::Failed)
    }

    /// It closes nothing: the one that runs the program does.
    fn release_new(&mut self, conn: &mut Option<Connection<S>>) {
        self.fresh = conn.take();
    }

    fn now(&mut self) -> Result<i64, MachineFault> {
        self.supply.now()
    }

    fn listen(
        &mut self,
        place: Place,
        limits: TimeLimits,
    ) -> Result<&mut MemoryDoor, MachineFault> {
        self.supply.check_door(place, limits)?;
        self.limits = Some(limits);
        Ok(&mut self.door)
    }

    ghost gives = { λ _. (refl, refl) };
}
