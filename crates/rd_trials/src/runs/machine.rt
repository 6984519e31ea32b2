//! A machine in memory.

ghost use Rattle.std.specs.Result.{result_ok};

use anyhow::Result;
use rd_fakes::desk::new_connection;
use rd_fakes::wire::new_door;
use rd_geometry::{Kind, NoMemory};
use rd_http::TimeLimits;
use rd_machines::Supply;
use rd_program::{MachineFault, Place, Remembered, WriteFault};
use std::alloc::{AllocError, Global};

/// A file of the machine: its path and its bytes.
#[derive(Drop)]
pub(crate) struct File {
    path: String,
    pub(crate) bytes: Vec<u8>,
}

impl File {
    pub(crate) fn new(alloc: Global, path: &str) -> Result<File> {
        Ok(File {
            path: String::from_str(alloc, path)?,
            bytes: Vec::new(alloc),
        })
    }
}

/// What the machine does not give, and why: the `store`, a `new` one, `sums` for one with sums, the `door`, the `clock`, or
/// the file at a path.
#[derive(Drop)]
pub(crate) struct Lack {
    pub(crate) what: String,
    pub(crate) fault: MachineFault,
}

/// What the machine gives beside its store and its door.
#[derive(Drop)]
pub(crate) struct Given {
    alloc: Global,
    /// If there are several at a path, the last one counts.
    pub(crate) files: Vec<File>,
    /// The folders that files can be made in.
    folders: Vec<String>,
    /// How many files were made in the last run.
    pub(crate) made: usize,
    pub(crate) lacks: Vec<Lack>,
    /// What the clock shows, or why it shows nothing.
    clock: Result<i64, MachineFault>,
    /// The last place that the program asked for, and how long a visitor may take there if that is not as usual, as the
    /// report of a run has them.
    pub(crate) place: Option<String>,
}

/// A place as the report of a run has it.
pub(crate) fn told_place(alloc: Global, place: Place) -> Result<String, AllocError> {
    Ok(match place {
        Place::Port(port) => format!(in alloc; "port {port}")?,
        Place::Socket(path) => format!(in alloc; "socket {path}")?,
    })
}

/// Adds to the report of a place how many seconds a visitor may take there, if that is not as usual.
pub(crate) fn add_limits(told: &mut String, limits: TimeLimits) -> Result<(), AllocError> {
    if limits == TimeLimits::usual() {
        return Ok(());
    }
    let (request, write, reply) = (
        limits.request.as_secs(),
        limits.write.as_secs(),
        limits.reply.as_secs(),
    );
    write!(told, ", limits {request} {write} {reply}")?;
    Ok(())
}

/// The report of a place, and of how long a visitor may take there.
fn told_door(alloc: Global, place: Place, limits: TimeLimits) -> Result<String, AllocError> {
    let mut told = told_place(alloc, place)?;
    add_limits(&mut told, limits)?;
    Ok(told)
}

pub(crate) type Museum = rd_machines::Museum<Given>;

/// A machine whose store is an empty database, as is the one for a new store, and which has no file.
pub(crate) fn new_museum(alloc: Global) -> Result<Museum, NoMemory> {
    let supply = Given {
        alloc,
        files: Vec::new(alloc),
        folders: Vec::new(alloc),
        made: 0,
        lacks: Vec::new(alloc),
        clock: Err(MachineFault::Failed),
        place: None,
    };
    Ok(Museum {
        conn: Some(new_connection(alloc)?),
        fresh: Some(new_connection(alloc)?),
        door: new_door(alloc, Vec::new(alloc))?,
        limits: None,
        supply,
        remembered: Remembered::new(alloc),
    })
}

/// The front of a file: at most one byte more than the largest image has.
fn front_of(bytes: &[u8]) -> &[u8] {
    let count = bytes.len().min(Kind::largest_size() + 1);
    &bytes[..count]
}

impl Given {
    /// Has a folder from now on.
    pub(crate) fn add_folder(&mut self, path: &str) -> Result<()> {
        let path = String::from_str(self.alloc, path)?;
        Ok(self.folders.push(path)?)
    }

    /// The bytes of the file at a path; `None` if there is none.
    pub(crate) fn made_at(&self, path: &str) -> Option<&[u8]> {
        let file = self.files.iter().find(|file| file.path.as_str() == path)?;
        Some(file.bytes.as_slice())
    }

    /// Sets what the clock shows from now on; `None` if it shows nothing. It shows nothing either if the machine does not give
    /// it.
    pub(crate) fn set_clock(&mut self, shown: Option<i64>) {
        self.clock = match self.given("clock") {
            Ok(()) => shown.ok_or(MachineFault::Failed),
            Err(fault) => Err(fault),
        };
    }

    /// It fails when the machine does not give something.
    fn given(&self, what: &str) -> Result<(), MachineFault> {
        match self.lacks.iter().find(|lack| lack.what.as_str() == what) {
            Some(lack) => Err(lack.fault),
            None => Ok(()),
        }
    }

    /// The bytes of the file at a path.
    fn bytes_at(&self, path: &str) -> Result<&[u8], MachineFault> {
        self.given(path)?;
        let mut found = Err(MachineFault::Failed);
        for file in &self.files {
            if file.path.as_str() == path {
                found = Ok(file.bytes.as_slice());
            }
        }
        found
    }
}

/// A file of a folder, with these bytes.
fn new_file(alloc: Global, folder: &str, name: &str, bytes: &[u8]) -> Result<File, AllocError> {
    Ok(File {
        path: format!(in alloc; "{folder}/{name}")?,
        bytes: Vec::from_slice(alloc, bytes)?,
    })
}

fn copied(alloc: Global, bytes: &[u8]) -> Result<Vec<u8>, MachineFault> {
    Vec::from_slice(alloc, bytes).map_err(|_| MachineFault::NoMemory)
}

impl Supply for Given {
    ghost clock = { λ given. result_ok given.clock };

    fn image(&self, alloc: Global, path: &str) -> Result<Vec<u8>, MachineFault> {
        copied(alloc, front_of(self.bytes_at(path)?))
    }

    fn sheet(&self, alloc: Global, path: &str) -> Result<Vec<u8>, MachineFault> {
        copied(alloc, self.bytes_at(path)?)
    }

    fn check_store(&self, new_has_sums: bool) -> Result<(), MachineFault> {
        self.given("store")?;
        if new_has_sums {
            self.given("sums")?;
        }
        Ok(())
    }

    fn check_new_store(&self, has_sums: bool) -> Result<(), MachineFault> {
        self.given("new")?;
        if has_sums {
            self.given("sums")?;
        }
        Ok(())
    }

    /// Notes the place, and how long a visitor may take there.
    ///
    /// It also fails when memory runs out.
    fn check_door(&mut self, place: Place, limits: TimeLimits) -> Result<(), MachineFault> {
        let told = told_door(self.alloc, place, limits).map_err(|_| MachineFault::NoMemory)?;
        self.place = Some(told);
        self.given("door")
    }

    /// It also fails where there is no such folder, and where the trial says so of the path.
    fn take(
        &mut self,
        alloc: Global,
        folder: &str,
        name: &str,
        bytes: &[u8],
    ) -> Result<(), WriteFault> {
        let file = new_file(alloc, folder, name, bytes).map_err(|_| WriteFault::NoMemory)?;
        if self.made_at(file.path.as_str()).is_some() {
            return Err(WriteFault::Exists);
        }
        match self.given(file.path.as_str()) {
            Ok(()) => {}
            Err(MachineFault::NoMemory) => return Err(WriteFault::NoMemory),
            Err(MachineFault::Failed) => return Err(WriteFault::Failed),
        }
        if !self.folders.iter().any(|there| there.as_str() == folder) {
            return Err(WriteFault::Failed);
        }
        if self.files.push(file).is_err() {
            return Err(WriteFault::NoMemory);
        }
        self.made = self.made.saturating_add(1);
        Ok(())
    }

    fn now(&mut self) -> Result<i64, MachineFault> {
        match self.clock {
            Ok(seconds) => Ok(seconds),
            Err(fault) => Err(fault),
        }
    }
}
