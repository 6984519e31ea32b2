//! A machine without anything.

ghost use Rattle.std.specs.Prelude.{None, refl};
ghost use Rattle.rd_program.specs.World.{nothing_shown};

use rd_http::{MemoryDoor, TimeLimits};
use rd_program::{Files, Machine, MachineFault, Place, WriteFault};
use sqlite::{Connection, MemStore};
use std::alloc::Global;
use std::io::Write;

/// A machine with no file, no store, no clock and no door.
#[derive(Drop)]
pub struct Bare;

impl Files for Bare {
    ghost file_bytes = { λ _ _. None };

    ghost sheet_bytes = { λ _ _. None };

    fn flush<W: Write>(output: &mut W) -> Result<(), MachineFault> {
        match output.flush() {
            Ok(()) => Ok(()),
            Err(_) => Err(MachineFault::Failed),
        }
    }

    fn read_file(&mut self, _alloc: Global, _path: &str) -> Result<Vec<u8>, MachineFault> {
        Err(MachineFault::Failed)
    }

    fn read_sheet(&mut self, _alloc: Global, _path: &str) -> Result<Vec<u8>, MachineFault> {
        Err(MachineFault::Failed)
    }
}

impl Machine for Bare {
    type Disk = MemStore;

    type Door = MemoryDoor;

    ghost seen = { λ _. nothing_shown };

    fn connect(
        &mut self,
        _path: &str,
        _makes: bool,
        _new_has_sums: bool,
    ) -> Result<Connection<MemStore>, MachineFault> {
        Err(MachineFault::Failed)
    }

    fn write_new(
        &mut self,
        _alloc: Global,
        _folder: &str,
        _name: &str,
        _bytes: &[u8],
    ) -> Result<(), WriteFault> {
        Err(WriteFault::Failed)
    }

    fn release(&mut self, _conn: &mut Option<Connection<MemStore>>) {}

    fn connect_new(
        &mut self,
        _path: &str,
        _has_sums: bool,
    ) -> Result<Option<Connection<MemStore>>, MachineFault> {
        Err(MachineFault::Failed)
    }

    fn release_new(&mut self, _conn: &mut Option<Connection<MemStore>>) {}

    fn now(&mut self) -> Result<i64, MachineFault> {
        Err(MachineFault::Failed)
    }

    fn listen(
        &mut self,
        _place: Place,
        _limits: TimeLimits,
    ) -> Result<&mut MemoryDoor, MachineFault> {
        Err(MachineFault::Failed)
    }

    ghost gives = { λ _. (refl, refl) };
}
