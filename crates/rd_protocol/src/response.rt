use crate::body::Body;
use crate::contents::Contents;
use crate::refusal::Refusal;
use rd_geometry::{Items, Kind, Text};
use rd_holdings::{Finding, Outcome};
use rd_policy::{Audience, Rule, Verdict};
use rd_volume::{Found, Report};

/// The reply to a request.
#[derive(Drop)]
pub struct Reply {
    /// The HTTP status.
    pub status: u16,
    /// What the body is.
    pub form: Form,
    /// The body.
    pub body: Body,
}

/// What a body is.
#[derive(Clone, Copy, Debug, PartialEq, Eq)]
pub enum Form {
    /// A text of JSON.
    Json,
    /// A table as CSV.
    Csv,
    /// The bytes of a file.
    Octets,
}

/// What a reply says, before it is written.
#[derive(Drop)]
pub enum Response {
    /// The request is refused.
    Refused(Refusal),
    /// The command is done.
    Done,
    /// The accessions with files that the caller may see, by ascending number.
    Images(Items<ImageLine>),
    /// The files of an accession that the caller may see.
    Listed(Listing),
    /// The contents of a file.
    File(Contents),
    /// All accessions by ascending number, each with the files that the caller may see.
    Catalogue(Items<Listing>),
    /// What an image has on it, and the deed by which it came.
    Surveyed(Survey),
    /// What a check of an image found, which the desk has recorded.
    Checked(Outcome),
    /// All deeds by ascending number, each with its rules.
    Deeds(Items<DeedLine>),
    /// All accessions that have takedowns, by ascending number.
    Takedowns(Items<TakedownLine>),
    /// All desk keys, by digest.
    Keys(Items<KeyLine>),
    /// All accessions by ascending number, each with its latest check.
    Checks(Items<CheckLine>),
    /// The day of the request, of the years 1 to 9999, counted from 1970-01-01.
    Today(i32),
    /// All accessions by ascending number, each with the verdicts on its files.
    Verdicts(Items<Verdicts>),
    /// The files whose effect for an audience would be another, by accession, slot and audience.
    Rehearsed(Items<Difference>),
}

/// An accession with files that the caller may see.
#[derive(Drop)]
pub struct ImageLine {
    /// Its number, 1 to 999,999.
    pub accession: u32,
    /// The number of its deed, 1 to 999,999.
    pub deed: u32,
    /// The kind of its image.
    pub kind: Kind,
    /// How many of its files the caller may see, at least one.
    pub files: usize,
}

/// An accession, and the files of it that the caller may see.
#[derive(Drop)]
pub struct Listing {
    /// Its number, 1 to 999,999.
    pub accession: u32,
    /// The number of its deed, 1 to 999,999.
    pub deed: u32,
    /// The kind of its image.
    pub kind: Kind,
    /// The files, by ascending slot.
    pub files: Items<Line>,
}

/// An accession: what its image has on it, and the deed by which it came.
#[derive(Drop)]
pub struct Survey {
    /// Its number, 1 to 999,999.
    pub accession: u32,
    /// The number of its deed, 1 to 999,999.
    pub deed: u32,
    /// Who gave the disks.
    pub donor: Text,
    /// The date on which the deed was signed, as in 2019-05-04.
    pub signed: Text,
    /// The kind of its image.
    pub kind: Kind,
    /// The counts of what the image has on it.
    pub report: Report,
}

/// A deed, with its rules and the count of accessions under it.
#[derive(Drop)]
pub struct DeedLine {
    /// Its number, 1 to 999,999.
    pub deed: u32,
    /// Who gave the disks.
    pub donor: Text,
    /// The day on which it was signed, counted from 1970-01-01.
    pub signed: i32,
    /// How many accessions came by it.
    pub accessions: usize,
    /// Its rules, by rank.
    pub rules: Items<Rule>,
}

/// An accession with takedowns.
#[derive(Drop)]
pub struct TakedownLine {
    /// Its number, 1 to 999,999.
    pub accession: u32,
    /// Its takedowns, by rank.
    pub rules: Items<Rule>,
}

/// A desk key.
#[derive(Clone, Copy)]
pub struct KeyLine {
    /// The SHA-256 of the key.
    pub digest: [u8; 32],
    /// Whose key it is.
    pub audience: Audience,
}

/// An accession with its latest check.
#[derive(Clone, Copy)]
pub struct CheckLine {
    /// Its number, 1 to 999,999.
    pub accession: u32,
    /// Its latest check, if there was one.
    pub last: Option<Finding>,
}

/// A file, with the verdict of the rules on it for each audience.
#[derive(Drop)]
pub struct FileVerdicts {
    /// The file.
    pub file: Found,
    /// The verdict for the public.
    pub public: Verdict,
    /// The verdict for the reading room.
    pub room: Verdict,
    /// The verdict for the staff.
    pub staff: Verdict,
}

/// An accession, with the verdicts on each of its files.
#[derive(Drop)]
pub struct Verdicts {
    /// Its number, 1 to 999,999.
    pub accession: u32,
    /// The number of its deed, 1 to 999,999.
    pub deed: u32,
    /// The kind of its image.
    pub kind: Kind,
    /// All its files, by ascending slot.
    pub files: Items<FileVerdicts>,
}

/// A file whose effect for an audience would be another.
#[derive(Drop)]
pub struct Difference {
    /// The number of its accession, 1 to 999,999.
    pub accession: u32,
    /// Its slot.
    pub slot: u16,
    /// Its name.
    pub name: Text,
    /// The audience.
    pub audience: Audience,
    /// The verdict of the rules that stand.
    pub before: Verdict,
    /// The verdict of the rules that would stand.
    pub after: Verdict,
}

/// A file that the caller may see.
#[derive(Drop)]
pub struct Line {
    /// The file.
    pub file: Found,
    /// What the rules say of it.
    pub verdict: Verdict,
}
