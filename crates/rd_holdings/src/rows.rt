ghost use Rattle.std.specs.Prelude.{◌≡◌};

use rd_geometry::{Items, Kind, Text};
use rd_volume::Found;

/// A deed.
#[derive(Debug, Drop)]
pub struct DeedRow {
    /// Who gave the disks: 1 to 1,000 bytes, none below 20 hex.
    pub donor: Text,
    /// The day on which it was signed, of the years 1 to 9999, counted from 1970-01-01.
    pub signed: i32,
}

/// An accession without its image.
#[derive(Clone, Copy, Debug, PartialEq, Eq)]
pub struct Accession {
    /// The kind of its disk image.
    pub kind: Kind,
    /// The number of its deed, 1 to 999,999.
    pub deed: u32,
}

/// An accession: an image as it was given.
#[derive(Debug, Drop)]
pub struct ImageRow {
    /// The kind of disk image.
    pub kind: Kind,
    /// The number of its deed, 1 to 999,999.
    pub deed: u32,
    /// The SHA-256 that was given for its bytes.
    pub digest: [u8; 32],
    /// Its bytes, as many as its kind has.
    pub bytes: Items<u8>,
}

/// An accession with its files.
#[derive(Debug, Drop)]
pub struct Indexed {
    /// Its number, 1 to 999,999.
    pub acc: u32,
    /// The kind of its disk image.
    pub kind: Kind,
    /// The number of its deed, 1 to 999,999.
    pub deed: u32,
    /// Its files, by slot.
    pub files: Items<Found>,
}

/// What a check of an image found.
#[derive(Clone, Copy, Debug, PartialEq, Eq, Hash)]
pub enum Outcome {
    /// The SHA-256 of its bytes is the one that was given.
    Sound,
    /// It is another.
    Changed,
}

impl Outcome {
    ghost use Rattle.rd_holdings.specs.Findings.{outcome_word};

    /// The word for this outcome.
    pub fn word(self) -> &'static str
        ensures { result.now ≡ outcome_word self }
    {
        match self {
            Outcome::Sound => "sound",
            Outcome::Changed => "changed",
        }
    }
}

/// What a check found, and when.
#[derive(Clone, Copy)]
pub struct Finding {
    /// The day of the check, counted from 1970-01-01.
    pub day: i32,
    /// What it found.
    pub outcome: Outcome,
}
