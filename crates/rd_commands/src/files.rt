//! The files of a machine, and why it does not give one.

ghost use Rattle.std.specs.Io.KnownBytes.{Keeps};
ghost use Rattle.std.specs.Prelude.{◌↔◌, ◌≡◌, Bool, IfOk, IfSome, IsTrue, List, OnOk, Option, true, ℕ};
ghost use Rattle.std.specs.IoError.{error_kind};
ghost use Rattle.std.specs.declared.io.ErrorKind.TheVariants.{OutOfMemory};
ghost use Rattle.rd_commands.specs.Refusals.{refusal_for};
ghost use Rattle.rd_commands.specs.declared.files.MachineFault.TheVariants as machine_fault;
ghost use Rattle.rd_commands.specs.declared.refusal.Refusal.TheVariants as refusal;

use crate::refusal::Refusal;
use crate::remembered::{RowNote, SystemFault};
use rd_explanations::Line;
use std::alloc::Global;
use std::io::{self, ErrorKind, Write};

/// Why the machine does not give what the program asks it for.
#[derive(Clone, Copy, Debug, PartialEq, Eq)]
pub enum MachineFault {
    /// It could not be opened or read.
    Failed,
    /// Memory ran out.
    NoMemory,
}

impl MachineFault {
    /// The refusal that the program ends with: `NoMemory` if memory ran out, and otherwise
    /// `failed`.
    pub fn or(self, failed: Refusal) -> Refusal
        ensures { result ≡ refusal_for failed self }
    {
        match self {
            MachineFault::Failed => failed,
            MachineFault::NoMemory => Refusal::NoMemory,
        }
    }
}

impl From<io::Error> for MachineFault {
    ghost from_gives = { λ error fault. (fault ≡ machine_fault.NoMemory)
        ↔ (error_kind error ≡ OutOfMemory) };

    fn from(error: io::Error) -> MachineFault {
        match error.kind() {
            ErrorKind::OutOfMemory => MachineFault::NoMemory,
            _ => MachineFault::Failed,
        }
    }
}

impl From<Refusal> for MachineFault {
    ghost from_gives = { λ refused fault. (fault ≡ machine_fault.NoMemory)
        ↔ (refused ≡ refusal.NoMemory) };

    fn from(refusal: Refusal) -> MachineFault {
        match refusal {
            Refusal::NoMemory => MachineFault::NoMemory,
            _ => MachineFault::Failed,
        }
    }
}

/// What a command that reads images asks of the machine that it runs on.
pub trait Files {
    /// The bytes that it gives of the file at a path, if the machine shows them.
    ghost file_bytes: { Self → List ℕ → Option (List ℕ) };

    /// The bytes that it gives of the sheet at a path, if the machine shows them.
    ghost sheet_bytes: { Self → List ℕ → Option (List ℕ) };

    /// Whether all that an output with these bytes has taken was flushed, as far as the machine shows it.
    ghost flushed: { Option (List ℕ) → Bool } = { λ _. true };

    /// Flushes an output, and changes nothing of its bytes.
    ///
    /// It fails when the flush fails.
    fn flush<W: Write>(output: &mut W) -> Result<(), MachineFault>
        ensures bytes { Keeps (W.contents output.old) (W.contents output.new) }
        ensures flushed { OnOk result (IsTrue (flushed (W.contents output.new))) };

    /// The bytes of the file at a path. For a file that is larger than any image, the front is
    /// enough: one byte more than the largest image has. It leaves the machine as it was.
    fn read_file(&mut self, alloc: Global, path: &str) -> Result<Vec<u8>, MachineFault>
        ensures bytes { IfOk result (λ bytes. IfSome (file_bytes self.old path.now) (λ shown. bytes.items ≡ shown)) }
        ensures same { self.new ≡ self.old };

    /// All bytes of the sheet at a path, at most 67,108,864 (64 MiB). It leaves the machine as it was.
    ///
    /// It fails when the sheet has more, and reads at most one byte more than that.
    fn read_sheet(&mut self, alloc: Global, path: &str) -> Result<Vec<u8>, MachineFault>
        ensures bytes { IfOk result (λ bytes. IfSome (sheet_bytes self.old path.now) (λ shown. bytes.items ≡ shown)) }
        ensures same { self.new ≡ self.old };

    /// Takes out what the system said when the machine last did not give something; `None` if it does not remember.
    fn last_fault(&self) -> Option<SystemFault> {
        None
    }

    /// Remembers why a row of a sheet was not done, if it remembers such things.
    fn note_row(&self, _row: u64, _note: RowNote) {}

    /// Takes out the lines of these rows, in their order.
    fn noted_rows(&self, alloc: Global) -> Vec<Line> {
        Vec::new(alloc)
    }
}
