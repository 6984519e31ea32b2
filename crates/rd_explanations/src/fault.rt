//! The faults of a file on a disk, in plain words.

ghost use Rattle.std.specs.Prelude.{◌≡◌, ◌≢◌, IfNone, IfSome, Some};
ghost use Rattle.rd_explanations.specs.Faults.{fault_word};

use std::fmt;

/// A fault of a file, of a CP/M disk or of one of the 1541.
#[derive(Clone, Copy, Debug, PartialEq, Eq)]
pub enum Fault {
    /// An entry counts more than 128 records.
    BadCount,
    /// Two entries have one number.
    Duplicate,
    /// The entry before another is not there.
    Gap,
    /// An entry that is not full is not the last.
    Short,
    /// A pointer that the entry reaches is 0.
    Hole,
    /// A pointer or a link leads off the disk.
    OffDisk,
    /// A block is claimed twice, or is one of the directory or of the map.
    Crossed,
    /// The entry is not closed.
    NotClosed,
    /// A chain of blocks comes back to one of its own.
    Loop,
    /// The error byte of a block tells an error.
    ReadError,
}

impl Fault {
    /// The word with which a refusal names it.
    pub fn word(self) -> &'static str
        ensures { result.now ≡ fault_word self }
    {
        match self {
            Fault::BadCount => "bad-count",
            Fault::Duplicate => "duplicate",
            Fault::Gap => "gap",
            Fault::Short => "short",
            Fault::Hole => "hole",
            Fault::OffDisk => "off-disk",
            Fault::Crossed => "crossed",
            Fault::NotClosed => "not-closed",
            Fault::Loop => "loop",
            Fault::ReadError => "read-error",
        }
    }

    /// The fault that has this word, `None` if none has it.
    pub fn from_word(word: &str) -> Option<Fault>
        ensures found { IfSome result (λ fault. word.now ≡ fault_word fault) }
        ensures none { IfNone result ((fault : Fault) → word.now ≢ fault_word fault) }
    {
        for fault in [
            Fault::BadCount,
            Fault::Duplicate,
            Fault::Gap,
            Fault::Short,
            Fault::Hole,
            Fault::OffDisk,
            Fault::Crossed,
            Fault::NotClosed,
            Fault::Loop,
            Fault::ReadError,
        ] {
            if fault.word() == word {
                return Some(fault);
            }
        }
        None
    }
}

impl fmt::Display for Fault {
    ghost use Rattle.rd_explanations.specs.Faults.{fault_text};

    ghost output = { λ fault. Some (fault_text fault) };

    fn fmt<W: fmt::Write>(&self, f: &mut fmt::Formatter<W>) -> fmt::Result {
        match self {
            Fault::BadCount => write!(
                f,
                "the directory gives a part of this file more than 128 records, and a part has at most 128."
            ),
            Fault::Duplicate => write!(f, "two parts of this file have the same number."),
            Fault::Gap => write!(
                f,
                "a part of this file is missing, and a later one is there."
            ),
            Fault::Short => write!(
                f,
                "a part of this file is not full, and a later one is there."
            ),
            Fault::Hole => write!(f, "the directory leaves out a block that this file needs."),
            Fault::OffDisk => write!(f, "this file names a block that its disk does not have."),
            Fault::Crossed => write!(
                f,
                "a block of this file is also another file's, comes twice in it, or is one that the disk keeps for itself."
            ),
            Fault::NotClosed => write!(f, "the drive has not finished this file."),
            Fault::Loop => write!(
                f,
                "the blocks of this file lead back to one of its own, so it has no end."
            ),
            Fault::ReadError => write!(
                f,
                "the drive could not read a block of this file when the disk was copied."
            ),
        }
    }
}
