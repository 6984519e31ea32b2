ghost use Rattle.std.specs.Prelude.{◌↔◌, IsTrue};

use crate::limits::{LAST_SLOT, is_plain_text};
use rd_geometry::Text;
use rd_volume::Found;

/// Which files a rule is about.
#[derive(Debug, Drop)]
pub enum Select {
    /// Each file.
    All,
    /// The file at a slot, 0 to 9,999.
    Slot(u16),
    /// The files whose printed name begins with a text of at most 64 bytes.
    Prefix(Text),
    /// The files of a user, 0 to 15; on a 1541 disk there are none.
    User(u8),
    /// The files whose printed type is a text of at most 16 bytes.
    Kind(Text),
}

impl Select {
    ghost use Rattle.rd_policy.specs.Matches.{Selects};
    ghost use Rattle.rd_policy.specs.Rules.{IsSelect};

    /// Whether the selector picks a file.
    pub(crate) fn selects(&self, file: &Found) -> bool
        ensures { IsTrue result ↔ Selects self.now file.now }
    {
        match self {
            Select::All => true,
            Select::Slot(slot) => file.slot == *slot,
            Select::Prefix(prefix) => begins_with(file.name.as_str(), prefix.as_str()),
            Select::User(user) => file.user == Some(*user),
            Select::Kind(text) => file.ty.as_str() == text.as_str(),
        }
    }

    /// Whether the selector is within the limits of its values.
    pub(crate) fn fits(&self) -> bool
        ensures { IsTrue result ↔ IsSelect self.now }
    {
        match self {
            Select::All => true,
            Select::Slot(slot) => *slot <= LAST_SLOT,
            Select::Prefix(text) => is_plain_text(text.as_str(), 64),
            Select::User(user) => *user <= 15,
            Select::Kind(text) => is_plain_text(text.as_str(), 16),
        }
    }
}

ghost use Rattle.rd_policy.specs.Matches.{BeginsWith};

/// Whether a text begins with another.
fn begins_with(text: &str, prefix: &str) -> bool
    ensures { IsTrue result ↔ BeginsWith text.now prefix.now }
{
    text.as_bytes().starts_with(prefix.as_bytes())
}
