//! What the parts of a path stand for. The fields of a sheet are written in the same way.

ghost use Rattle.std.specs.Prelude.{◌≡◌, IfSome};
ghost use Rattle.std.specs.Char.{is_ascii_digit};
ghost use Rattle.std.specs.List.{list_all};
ghost use Rattle.rd_policy.specs.Rules.{IsScope};
ghost use Rattle.rd_protocol.specs.Parts.{digest_of, is_number, kind_of, rank_of, scope_of, slot_of};

use hex::FromHex;
use rd_geometry::Kind;

/// Whether each byte is a decimal digit.
fn all_digits(bytes: &[u8]) -> bool
    ensures { result ≡ list_all is_ascii_digit bytes.now }
{
    bytes.iter().all(|byte| byte.is_ascii_digit())
}

/// Whether a text has from one to `most` decimal digits, the first of them not 0.
fn has_digits(text: &str, most: usize) -> bool
    ensures { result ≡ is_number most text.now }
{
    let digits = text.as_bytes();
    !digits.is_empty() && digits.len() <= most && digits[0] != b'0' && all_digits(digits)
}

/// The number of an accession or a deed, 1 to 999,999, that a text writes: one to six decimal
/// digits, the first not 0. `None` for any other text. It takes no memory.
pub fn scope(text: &str) -> Option<u32>
    ensures value { result ≡ scope_of text.now }
    ensures within { IfSome result IsScope }
{
    if has_digits(text, 6) {
        text.parse::<u32>().ok()
    } else {
        None
    }
}

/// The rank of a rule, 1 to 9,999: one to four digits, the first not 0.
pub fn rank(text: &str) -> Option<u16>
    ensures { result ≡ rank_of text.now }
{
    if has_digits(text, 4) {
        text.parse::<u16>().ok()
    } else {
        None
    }
}

/// The slot of a file, 0 to 9,999: `0`, or one to four digits, the first not 0.
pub fn slot(text: &str) -> Option<u16>
    ensures { result ≡ slot_of text.now }
{
    if text == "0" { Some(0) } else { rank(text) }
}

/// The kind whose word the text is; `None` if there is none.
pub fn kind(text: &str) -> Option<Kind>
    ensures { result ≡ kind_of text.now }
{
    Kind::from_word(text)
}

/// The 32 bytes that a text of 64 hexadecimal digits writes, of either case. `None` for any other
/// text. It takes no memory.
pub fn digest(text: &str) -> Option<[u8; 32]>
    ensures { result ≡ digest_of text.now }
{
    <[u8; 32] as FromHex>::from_hex(text).ok()
}
