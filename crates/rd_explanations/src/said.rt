//! What a system says of a call that it does not carry out.

ghost use Rattle.std.specs.Prelude.{◌≡◌, Some};
ghost use Rattle.rd_explanations.specs.Words.{said_of};

use std::fmt;
use std::io::ErrorKind;

/// Why the system did not do what it was asked for.
#[derive(Clone, Copy, Debug, PartialEq, Eq)]
pub enum Said {
    /// Nothing is at the path.
    Missing,
    /// The system does not allow it.
    Denied,
    /// A folder is at the path, and no file.
    Folder,
    /// A part of the path is a file, and no folder.
    NoFolder,
    /// The folder is not there in which the command is to make something.
    NoRoom,
    /// Something is at the path already.
    Standing,
    /// The disk is full.
    Full,
    /// Nobody reads what is written.
    Closed,
    /// Another program uses the place.
    Taken,
    /// The file has more bytes than it may have, or is of another sort.
    Unfit,
    /// The file is no database, and so no store.
    NoStore,
    /// It failed, and the system's word says no more.
    Failed,
}

impl Said {
    /// What the system says by a kind of error.
    pub fn of(kind: ErrorKind) -> Said
        ensures { result ≡ said_of kind }
    {
        match kind {
            ErrorKind::NotFound => Said::Missing,
            ErrorKind::PermissionDenied => Said::Denied,
            ErrorKind::IsADirectory => Said::Folder,
            ErrorKind::NotADirectory => Said::NoFolder,
            ErrorKind::AlreadyExists => Said::Standing,
            ErrorKind::StorageFull | ErrorKind::QuotaExceeded => Said::Full,
            ErrorKind::BrokenPipe => Said::Closed,
            ErrorKind::AddrInUse => Said::Taken,
            ErrorKind::InvalidData | ErrorKind::FileTooLarge => Said::Unfit,
            _ => Said::Failed,
        }
    }
}

impl fmt::Display for Said {
    ghost use Rattle.rd_explanations.specs.Words.{said_text};

    ghost output = { λ said. Some (said_text said) };

    fn fmt<W: fmt::Write>(&self, f: &mut fmt::Formatter<W>) -> fmt::Result {
        match self {
            Said::Missing => write!(f, "there is no such file"),
            Said::Denied => write!(f, "the system does not allow it"),
            Said::Folder => write!(f, "it is a folder"),
            Said::NoFolder => write!(f, "a part of the path is no folder"),
            Said::NoRoom => write!(f, "the folder for it is not there"),
            Said::Standing => write!(f, "there is one already"),
            Said::Full => write!(f, "the disk is full"),
            Said::Closed => write!(f, "nobody reads what is written there"),
            Said::Taken => write!(f, "another program uses it"),
            Said::Unfit => write!(f, "it is no file of the right sort"),
            Said::NoStore => write!(f, "it is no store of a desk"),
            Said::Failed => write!(f, "the system failed, and says no more"),
        }
    }
}
