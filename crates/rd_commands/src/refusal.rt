ghost use Rattle.std.specs.Prelude.{◌≡◌};
ghost use Rattle.rd_commands.specs.Refusals.{name_of, status_of};
ghost use Rattle.rd_commands.specs.declared.refusal.Refusal.TheVariants as refusal;

use rd_volume::{Kind, NoMemory, WrongSize};
use std::alloc::AllocError;

/// Why a command ends without doing what its words ask for.
#[derive(Clone, Copy, Debug, PartialEq, Eq)]
pub enum Refusal {
    /// The words are no command.
    Usage,
    /// A read or a write failed, or a file could not be opened.
    Device,
    /// Memory ran out.
    NoMemory,
    /// The image does not have as many bytes as one of its kind.
    WrongSize,
    /// No file of the image has the slot.
    NoFile,
    /// The file is listed, but desk does not serve files of its class.
    ListedOnly,
    /// The file, of an image of a kind, has these faults, by bit.
    Faulty(Kind, u8),
    /// The store already has a desk, or another table named `desk`.
    Exists,
    /// The store has no desk.
    NotADesk,
    /// The store holds a desk of another version.
    Version,
    /// The rows of the store are not those of a desk.
    Inconsistent,
    /// The store could not be opened, or failed.
    Store,
    /// The clock failed, or a moment has no day.
    Clock,
    /// A sheet has another header, or a row of another length.
    BadSheet,
    /// The desk does not know the caller's desk key.
    UnknownKey,
    /// Only the staff may do this, and the caller is not staff.
    StaffOnly,
    /// There is no image at the accession.
    NoAccession,
}

impl Refusal {
    /// The name that the program prints, with the label of the rule if a rule is the reason.
    pub fn name(self) -> &'static str
        ensures { result.now ≡ name_of self }
    {
        match self {
            Refusal::Usage => "usage",
            Refusal::Device => "device",
            Refusal::NoMemory => "no-memory",
            Refusal::WrongSize => "wrong-size",
            Refusal::NoFile => "no-file",
            Refusal::ListedOnly => "listed-only",
            Refusal::Faulty(_, _) => "faulty",
            Refusal::Exists => "exists",
            Refusal::NotADesk => "not-a-desk",
            Refusal::Version => "version",
            Refusal::Inconsistent => "inconsistent",
            Refusal::Store => "store",
            Refusal::Clock => "clock",
            Refusal::BadSheet => "bad-sheet",
            Refusal::UnknownKey => "unknown-key K0",
            Refusal::StaffOnly => "staff-only S0",
            Refusal::NoAccession => "no-accession",
        }
    }

    /// The exit status, 1 to 3.
    pub fn status(self) -> u8
        ensures { result ≡ status_of self }
    {
        match self {
            Refusal::WrongSize | Refusal::NoFile => 1,
            Refusal::ListedOnly | Refusal::Faulty(_, _) => 1,
            Refusal::Exists | Refusal::BadSheet => 1,
            Refusal::UnknownKey | Refusal::StaffOnly | Refusal::NoAccession => 1,
            Refusal::Usage => 2,
            Refusal::Device | Refusal::NoMemory | Refusal::Clock => 3,
            Refusal::NotADesk | Refusal::Version => 3,
            Refusal::Inconsistent | Refusal::Store => 3,
        }
    }
}

impl From<AllocError> for Refusal {
    ghost from_gives = { λ _ refused. refused ≡ refusal.NoMemory };

    fn from(_error: AllocError) -> Refusal {
        Refusal::NoMemory
    }
}

impl From<NoMemory> for Refusal {
    ghost from_gives = { λ _ refused. refused ≡ refusal.NoMemory };

    fn from(_error: NoMemory) -> Refusal {
        Refusal::NoMemory
    }
}

impl From<WrongSize> for Refusal {
    ghost from_gives = { λ _ refused. refused ≡ refusal.WrongSize };

    fn from(_error: WrongSize) -> Refusal {
        Refusal::WrongSize
    }
}
