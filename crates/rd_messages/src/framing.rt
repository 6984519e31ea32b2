//! The framing of a request: what the fields of its head say of its body and of its caller's key.

ghost use Rattle.std.specs.Prelude.{◌≡◌, ◌≤◌, All, SomeIff, codes, length, map};
ghost use Rattle.std.specs.Str.Parse.{IsNumeral, digits_value};
ghost use Rattle.httparse.specs.Spans.{IsHeaderWithin, header_bytes};
ghost use Rattle.rd_messages.specs.Fields.{values_named};
ghost use Rattle.rd_messages.specs.Framing.{GivesFraming, length_in_values, length_in_value};

use crate::fields::{Values, values_of};
use crate::limits::LONGEST_BODY;
use httparse::spans::HeaderSpan;
use std::str::from_utf8;

/// What the fields of a head say of a request.
#[derive(Clone, Copy, Debug)]
pub(crate) struct Framing<'b> {
    /// The length of its body, in bytes: at most 262,144.
    pub length: usize,
    /// The desk key of its caller, which may be empty; `None` if they show none.
    pub key: Option<&'b [u8]>,
}

/// The number that a text of decimal digits writes, up to 262,144; leading zeros are allowed.
/// `None` if it writes more, or if the text is anything else.
fn number(text: &str) -> Option<usize>
    ensures { SomeIff result (IsNumeral 10 text.now × (digits_value 10 text.now ≤ LONGEST_BODY)) (digits_value 10 text.now) }
{
    if text.as_bytes().first() == Some(&b'+') {
        return None;
    }
    match text.parse::<usize>() {
        Ok(number) if number <= LONGEST_BODY => Some(number),
        _ => None,
    }
}

/// The length that a value of Content-Length gives; `None` if it gives none.
fn length_in(value: &[u8]) -> Option<usize>
    ensures { result ≡ length_in_value value.now }
{
    match from_utf8(value) {
        Ok(text) => number(text),
        Err(_) => None,
    }
}

/// The length of the body; `None` if the fields give none.
fn body_length(buf: &[u8], spans: &[HeaderSpan]) -> Option<usize>
    requires { All (IsHeaderWithin (length buf.now)) spans.now }
    ensures { result ≡ length_in_values (values_named (codes "Content-Length") (map (header_bytes buf.now) spans.now)) }
{
    match values_of(buf, spans, b"Content-Length") {
        Values::Nothing => Some(0),
        Values::One(value) => length_in(value),
        Values::Many => None,
    }
}

/// What the fields say of a request. The spans say where the fields are in the buffer. `None` if
/// there is a field Transfer-Encoding, if Content-Length gives no length, or if there are two
/// fields Desk-Key or more. It takes no memory.
pub(crate) fn framing_of<'b>(buf: &'b [u8], spans: &[HeaderSpan]) -> Option<Framing<'b>>
    requires within { All (IsHeaderWithin (length buf.now)) spans.now }
    ensures framing { GivesFraming (map (header_bytes buf.now) spans.now) result }
{
    let Values::Nothing = values_of(buf, spans, b"Transfer-Encoding") else {
        return None;
    };
    let length = body_length(buf, spans)?;
    match values_of(buf, spans, b"Desk-Key") {
        Values::Nothing => Some(Framing { length, key: None }),
        Values::One(key) => Some(Framing {
            length,
            key: Some(key),
        }),
        Values::Many => None,
    }
}
