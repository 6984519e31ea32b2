ghost use Rattle.std.specs.Prelude.{◌↔◌, IsTrue};
ghost use Rattle.rd_policy.specs.Rules.{IsScope, IsRank, IsPlainText};

/// The largest number of an accession or a deed.
pub const LAST_SCOPE: u32 = 999_999;

/// The largest rank of a rule.
pub const LAST_RANK: u16 = 9_999;

/// The largest slot that a rule or a request may name.
pub const LAST_SLOT: u16 = 9_999;

/// Whether a number may be that of an accession or a deed: 1 to 999,999.
pub fn is_scope(number: u32) -> bool
    ensures { IsTrue result ↔ IsScope number }
{
    (1..=LAST_SCOPE).contains(&number)
}

/// Whether a number may be a rank: 1 to 9,999.
pub fn is_rank(rank: u16) -> bool
    ensures { IsTrue result ↔ IsRank rank }
{
    (1..=LAST_RANK).contains(&rank)
}

/// Whether a text has at most `most` bytes, each a printable character of ASCII or a blank.
pub(crate) fn is_plain_text(text: &str, most: usize) -> bool
    ensures { IsTrue result ↔ IsPlainText most text.now }
{
    let bytes = text.as_bytes();
    bytes.len() <= most && bytes.iter().all(|byte| (32..=126).contains(byte))
}
