//! The key in a file.

ghost use Rattle.std.specs.Io.BufRead.{strip_last};
ghost use Rattle.std.specs.List.{position};
ghost use Rattle.std.specs.Prelude.{◌≡◌, ◌<◌, ◌≤◌, ◌↔◌, IfSome, IsSome, length};
ghost use Rattle.rd_operands.specs.KeyFiles.{first_line as first_line_of, is_line_feed, key_of};

use crate::blanks::trimmed;

/// The most bytes that a file with a key may have.
pub const KEY_FILE_LIMIT: usize = 4_096;

/// The byte that ends a line.
pub(crate) const LINE_FEED: u8 = b'\n';

/// The byte that some systems write before it.
const CARRIAGE_RETURN: u8 = b'\r';

/// Bytes without the carriage return at their end, if there is one.
fn without_return(bytes: &[u8]) -> &[u8]
    ensures { result.now ≡ strip_last 13 bytes.now }
{
    match bytes.last() {
        Some(&CARRIAGE_RETURN) => &bytes[..bytes.len() - 1],
        _ => bytes,
    }
}

/// The place of the first line feed.
fn line_feed_place(bytes: &[u8]) -> Option<usize>
    ensures place { result ≡ position is_line_feed bytes.now }
    ensures within { IfSome result (λ place. place < length bytes.now) }
{
    bytes.iter().position(|byte| *byte == LINE_FEED)
}

/// The first line of bytes, without what ends it: a line feed, or a carriage return and a line feed.
fn first_line(bytes: &[u8]) -> &[u8]
    ensures { result.now ≡ first_line_of bytes.now }
{
    match line_feed_place(bytes) {
        Some(end) => without_return(&bytes[..end]),
        None => bytes,
    }
}

/// The key in a file of these bytes: its first line without the line's end and blanks and tabs at both ends,
/// which may leave nothing. Later lines may hold anything. `None` exactly when there are over 4,096 bytes.
pub fn key_in_file(bytes: &[u8]) -> Option<&[u8]>
    ensures taken { IsSome result ↔ (length bytes.now ≤ 4_096) }
    ensures key { IfSome result (λ key. key.now ≡ key_of bytes.now) }
{
    if bytes.len() > KEY_FILE_LIMIT {
        return None;
    }
    Some(trimmed(first_line(bytes)))
}
