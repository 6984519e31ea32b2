//! The fields of a head, by name.

ghost use Rattle.std.specs.Prelude.{All, length, map};
ghost use Rattle.httparse.specs.Spans.{IsHeaderWithin, header_bytes};
ghost use Rattle.rd_messages.specs.Fields.{AreValues, values_named};

use httparse::spans::HeaderSpan;

/// The values of the fields with a name.
#[derive(Clone, Copy, Debug)]
pub(crate) enum Values<'b> {
    /// There is no such field.
    Nothing,
    /// The value of the one such field.
    One(&'b [u8]),
    /// There are two such fields or more.
    Many,
}

/// The values of the fields with a name; small and capital letters of ASCII count as the same. The
/// spans say where the fields are in the buffer. It takes no memory.
pub(crate) fn values_of<'b>(buf: &'b [u8], spans: &[HeaderSpan], name: &[u8]) -> Values<'b>
    requires within { All (IsHeaderWithin (length buf.now)) spans.now }
    ensures values { AreValues result (values_named name.now (map (header_bytes buf.now) spans.now)) }
{
    let Some((first, rest)) = spans.split_first() else {
        return Values::Nothing;
    };
    let others = values_of(buf, rest, name);
    if !first.name.of(buf).eq_ignore_ascii_case(name) {
        return others;
    }
    match others {
        Values::Nothing => Values::One(first.value.of(buf)),
        Values::One(_) | Values::Many => Values::Many,
    }
}
