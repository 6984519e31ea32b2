ghost use Rattle.std.specs.Prelude.{◌≡◌, ◌≢◌, ◌↔◌, IfNone, IfSome, IsTrue};
ghost use Rattle.rd_policy.specs.Days.{HasDay};
ghost use Rattle.rd_policy.specs.Rules.{IsPlainText};
ghost use Rattle.rd_history.specs.Entries.{HasDigests, IsChange, IsDigest, IsEntry, IsSigned};

use rd_geometry::{Kind, Text};
use rd_holdings::is_donor;
use rd_policy::{Audience, Band, Rule, is_day, is_rank, is_scope};

/// The largest number of an entry.
pub const LAST_NUMBER: u32 = 999_999_999;

/// An entry of a history: a change, and who asked it when.
#[derive(Debug, Drop)]
pub struct Entry {
    /// The SHA-256 of the key by which it was asked; `None` where no key was.
    pub badge: Option<[u8; 32]>,
    /// What was changed.
    pub change: Change,
    /// When it was asked: seconds since 1970-01-01 UTC, with a day in every zone.
    pub moment: i64,
    /// Why, in the words of the staff: at most 1,000 bytes, each a printable character of ASCII or a blank.
    pub note: Text,
    /// Its number, 1 to 999,999,999.
    pub number: u32,
    /// Who of the staff asked it, in their words: of the same bytes as a note.
    pub staff: Text,
}

/// What an entry tells.
#[derive(Debug, Drop)]
pub enum Change {
    /// What stood before counts no more. The next so many entries, at most 999,999,999, tell what stands.
    Begin(u32),
    /// A deed is put at its number.
    Deed {
        /// Its number, 1 to 999,999.
        num: u32,
        /// Who gave the disks: 1 to 1,000 bytes, none below 20 hex.
        donor: Text,
        /// The day on which it was signed, of the years 1 to 9999, counted from 1970-01-01.
        signed: i32,
    },
    /// An image is taken in; its bytes are not told.
    Image {
        /// The number of its accession, 1 to 999,999.
        acc: u32,
        /// Its kind.
        kind: Kind,
        /// The number of its deed, 1 to 999,999.
        deed: u32,
        /// The SHA-256 of its bytes.
        digest: [u8; 32],
    },
    /// A rule is put at its place: a takedown, or a rule of a deed.
    Rule(Rule),
    /// A rule is taken away.
    DropRule {
        /// Where it comes from.
        band: Band,
        /// The number of its accession or deed, 1 to 999,999.
        scope: u32,
        /// Its rank, 1 to 9,999.
        rank: u16,
    },
    /// A desk key is given to an audience.
    Key {
        /// The SHA-256 of the key.
        digest: [u8; 32],
        /// The reading room or the staff: the public has no key.
        audience: Audience,
    },
    /// A desk key is taken away.
    DropKey {
        /// The SHA-256 of the key.
        digest: [u8; 32],
    },
    /// The entry before was not carried out.
    Void(Cause),
}

/// Why an entry was not carried out.
#[derive(Clone, Copy, Debug, PartialEq, Eq, Hash)]
pub enum Cause {
    /// There is no image at the accession.
    NoAccession,
    /// There is no such deed.
    NoDeed,
    /// The image does not have as many bytes as its kind.
    WrongSize,
    /// The SHA-256 of the image's bytes is not the one that was given for them.
    DigestDiffers,
    /// There is another image at the accession, or no staff key would be left.
    Conflict,
    /// The database failed, or memory ran out.
    Unavailable,
    /// It was found undone when the history was opened.
    Lost,
}

impl Cause {
    ghost use Rattle.rd_history.specs.Entries.{cause_word};

    /// The word for it.
    pub fn word(self) -> &'static str
        ensures { result.now ≡ cause_word self }
    {
        match self {
            Cause::NoAccession => "no-accession",
            Cause::NoDeed => "no-deed",
            Cause::WrongSize => "wrong-size",
            Cause::DigestDiffers => "digest-differs",
            Cause::Conflict => "conflict",
            Cause::Unavailable => "unavailable",
            Cause::Lost => "lost",
        }
    }

    /// The cause that has this word, `None` if no cause has it.
    pub fn from_word(word: &str) -> Option<Cause>
        ensures found { IfSome result (λ cause. word.now ≡ cause_word cause) }
        ensures none { IfNone result ((cause : Cause) → word.now ≢ cause_word cause) }
    {
        let causes = [
            Cause::NoAccession,
            Cause::NoDeed,
            Cause::WrongSize,
            Cause::DigestDiffers,
            Cause::Conflict,
            Cause::Unavailable,
            Cause::Lost,
        ];
        for cause in causes {
            if cause.word() == word {
                return Some(cause);
            }
        }
        None
    }
}

/// Whether a text may be a note or a name of the staff.
fn is_remark(text: &str) -> bool
    ensures { IsTrue result ↔ IsPlainText 1_000 text.now }
{
    let bytes = text.as_bytes();
    bytes.len() <= 1_000 && bytes.iter().all(|byte| (32..=126).contains(byte))
}

/// Whether a digest is 32 bytes, which its type says.
fn is_digest(digest: &[u8; 32]) -> bool
    ensures { IsTrue result → IsDigest digest.now }
{
    digest.as_slice().iter().all(|byte| *byte <= 255)
}

/// Whether a moment has a day in every zone.
fn has_day(moment: i64) -> bool
    ensures { IsTrue result ↔ HasDay moment }
{
    (-62_135_424_000..=253_402_127_999).contains(&moment)
}

impl Change {
    ghost use Rattle.rd_history.specs.Entries.{TellsDigests};
    ghost use Rattle.rd_history.specs.Histories.{IsAsked, IsPut};

    /// Whether a request asks the change: it begins nothing, and takes nothing back.
    pub fn is_asked(&self) -> bool
        ensures { IsTrue result ↔ IsAsked self.now }
    {
        !matches!(self, Change::Begin(_) | Change::Void(_))
    }

    /// Whether it puts something.
    pub fn is_put(&self) -> bool
        ensures { IsTrue result ↔ IsPut self.now }
    {
        self.is_asked() && !matches!(self, Change::DropRule { .. } | Change::DropKey { .. })
    }

    /// Whether each digest is 32 bytes, which its type says.
    pub(crate) fn has_whole_digests(&self) -> bool
        ensures { IsTrue result → TellsDigests self.now }
    {
        match self {
            Change::Image { digest, .. }
            | Change::Key { digest, .. }
            | Change::DropKey { digest } => is_digest(digest),
            _ => true,
        }
    }

    /// Whether each value is within the limits that its field names.
    pub fn fits(&self) -> bool
        ensures { IsTrue result ↔ IsChange self.now }
    {
        match self {
            Change::Begin(count) => *count <= LAST_NUMBER,
            Change::Deed { num, donor, signed } => {
                is_scope(*num) && is_donor(donor.as_str()) && is_day(*signed)
            }
            Change::Image { acc, deed, .. } => is_scope(*acc) && is_scope(*deed),
            Change::Rule(rule) => rule.fits(),
            Change::DropRule { scope, rank, .. } => is_scope(*scope) && is_rank(*rank),
            Change::Key { audience, .. } => *audience != Audience::Public,
            Change::DropKey { .. } | Change::Void(_) => true,
        }
    }
}

impl Entry {
    /// Whether each value is within the limits that its field names.
    pub fn fits(&self) -> bool
        ensures { IsTrue result ↔ IsEntry self.now }
    {
        self.change.fits()
            && has_day(self.moment)
            && is_remark(self.note.as_str())
            && (1..=LAST_NUMBER).contains(&self.number)
            && is_remark(self.staff.as_str())
            && self.is_signed_as_due()
    }

    /// Whether each digest is 32 bytes, which its type says.
    pub(crate) fn has_whole_digests(&self) -> bool
        ensures { IsTrue result → HasDigests self.now }
    {
        let is_whole = match &self.badge {
            Some(badge) => is_digest(badge),
            None => true,
        };
        is_whole && self.change.has_whole_digests()
    }

    /// Whether nobody's key stands beside a change that no request asks, and no word of the staff beside one that takes
    /// another back.
    fn is_signed_as_due(&self) -> bool
        ensures { IsTrue result ↔ IsSigned self.now }
    {
        match &self.change {
            Change::Begin(_) => self.badge.is_none(),
            Change::Void(_) => {
                self.badge.is_none() && self.note.as_str() == "" && self.staff.as_str() == ""
            }
            _ => true,
        }
    }
}
