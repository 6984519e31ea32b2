ghost use Rattle.std.specs.Prelude.{◌↔◌, IsTrue};

use rd_geometry::{Items, Kind, Text};
use rd_holdings::is_donor;
use rd_policy::{Audience, Band, LAST_SLOT, Rule, is_day, is_rank, is_scope};

/// A request: what the caller asks, and who they are.
#[derive(Drop)]
pub struct Request {
    /// The SHA-256 of the caller's desk key; `None` if they show none: then they are the public.
    pub badge: Option<[u8; 32]>,
    /// What they ask.
    pub what: What,
}

/// What a caller asks. `Images`, `Listing`, `Bytes` and `Catalogue` are questions, which anyone
/// may ask; all others are for the staff.
#[derive(Drop)]
pub enum What {
    /// Which accessions have files that the caller may see, and how many.
    Images,
    /// Which files of an accession, 1 to 999,999, the caller may see.
    Listing(u32),
    /// The bytes of a file: of an accession, 1 to 999,999, the file at a slot, 0 to 9,999.
    Bytes(u32, u16),
    /// The files of all accessions that the caller may see, as one table.
    Catalogue,
    /// What the image of an accession, 1 to 999,999, has on it, in counts, and the deed by which
    /// it came.
    Survey(u32),
    /// To check whether the image of an accession, 1 to 999,999, still has the SHA-256 given for
    /// it, and to record the finding under the day.
    Check(u32),
    /// All deeds, each with its rules and the count of accessions under it.
    Deeds,
    /// All accessions that have takedowns, each with these.
    Takedowns,
    /// All desk keys, by digest, each with its audience.
    Keys,
    /// All accessions, each with what its latest check found.
    Checks,
    /// Which day it is by the desk's clock.
    Today,
    /// The verdicts on each file for each audience on a day of the years 1 to 9999, counted from 1970-01-01.
    Verdicts(i32),
    /// The verdicts on each file of one accession, 1 to 999,999, on a day, counted as for `Verdicts`.
    VerdictsOf(i32, u32),
    /// What would change in the effects of a day, counted as for `Verdicts`, if this rule were put.
    RehearseRule(i32, Rule),
    /// What would change in the effects of a day if the rule at a place were dropped.
    RehearseDrop {
        /// The day, of the years 1 to 9999, counted from 1970-01-01.
        day: i32,
        /// Where the rule comes from.
        band: Band,
        /// The number of its accession or deed, 1 to 999,999.
        scope: u32,
        /// Its rank, 1 to 9,999.
        rank: u16,
    },
    /// To take in an image.
    PutImage {
        /// The number of its accession, 1 to 999,999.
        acc: u32,
        /// Its kind.
        kind: Kind,
        /// The number of its deed, 1 to 999,999.
        deed: u32,
        /// The SHA-256 that its bytes must have.
        digest: [u8; 32],
        /// Its bytes, however many.
        bytes: Items<u8>,
    },
    /// To put a deed, in place of the one with its number, if there is one.
    PutDeed {
        /// Its number, 1 to 999,999.
        num: u32,
        /// Who gave the disks: 1 to 1,000 bytes, none below 20 hex.
        donor: Text,
        /// The day on which it was signed, of the years 1 to 9999, counted from 1970-01-01.
        signed: i32,
    },
    /// To put a rule whose values are within their limits, in place of the one at its band, scope
    /// and rank, if there is one.
    PutRule(Rule),
    /// To take a rule away.
    DropRule {
        /// Where it comes from.
        band: Band,
        /// The number of its accession or deed, 1 to 999,999.
        scope: u32,
        /// Its rank, 1 to 9,999.
        rank: u16,
    },
    /// To give a desk key to an audience.
    PutKey {
        /// The SHA-256 of the key.
        digest: [u8; 32],
        /// The reading room or the staff: the public has no key.
        audience: Audience,
    },
    /// To take a desk key away.
    DropKey {
        /// The SHA-256 of the key.
        digest: [u8; 32],
    },
    /// A command whose body cannot be read.
    Unread,
}

impl What {
    ghost use Rattle.rd_protocol.specs.Requests.{IsForStaff};

    /// Whether only the staff may ask it.
    pub fn is_for_staff(&self) -> bool
        ensures { IsTrue result ↔ IsForStaff self.now }
    {
        match self {
            What::Images | What::Listing(_) | What::Bytes(_, _) | What::Catalogue => false,
            _ => true,
        }
    }
}

impl Request {
    ghost use Rattle.rd_protocol.specs.Requests.{IsRequest};

    /// Whether each value of the request is within the limits that its field names. The bytes of
    /// an image have no limits.
    pub fn fits(&self) -> bool
        ensures { IsTrue result ↔ IsRequest self.now.what }
    {
        match &self.what {
            What::Images
            | What::Catalogue
            | What::Deeds
            | What::Takedowns
            | What::Keys
            | What::Checks
            | What::Today
            | What::DropKey { .. }
            | What::Unread => true,
            What::Listing(acc) | What::Survey(acc) | What::Check(acc) => is_scope(*acc),
            What::Bytes(acc, slot) => is_scope(*acc) && *slot <= LAST_SLOT,
            What::PutImage { acc, deed, .. } => is_scope(*acc) && is_scope(*deed),
            What::PutDeed { num, donor, signed } => {
                is_scope(*num) && is_donor(donor.as_str()) && is_day(*signed)
            }
            What::PutRule(rule) => rule.fits(),
            What::Verdicts(day) => is_day(*day),
            What::VerdictsOf(day, acc) => is_day(*day) && is_scope(*acc),
            What::RehearseRule(day, rule) => is_day(*day) && rule.fits(),
            What::RehearseDrop {
                day,
                scope,
                rank,
                ..
            } => is_day(*day) && is_scope(*scope) && is_rank(*rank),
            What::DropRule { scope, rank, .. } => is_scope(*scope) && is_rank(*rank),
            What::PutKey { audience, .. } => *audience != Audience::Public,
        }
    }
}
