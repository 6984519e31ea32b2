//! The head of a request, read from a connection.

ghost use Rattle.std.specs.Prelude.{◌≡◌, ◌≤◌, ◌↔◌, true, false, length, take, IfOk, IfSome, IsErr};
ghost use Rattle.std.specs.Io.KnownBytes.{Consumes};
ghost use Rattle.httparse.specs.Spans.{IsRequestWithin};
ghost use Rattle.rd_messages.specs.Heads.{GivesHead};
ghost use Rattle.rd_messages.specs.Taken.{TakesUpTo};

use crate::limits::{LONGEST_HEAD, MOST_FIELDS};
use crate::taking::take_more;
use crate::wire::{Broken, Wire};
use httparse::Status;
use httparse::spans::{HeaderSpan, RequestSpans, parse_request};

/// Reads the head of a request into a buffer, and gives where its parts are there and how many
/// bytes of the buffer are filled: the head and what came with it. `None` if the bytes do not
/// begin with a head of at most 64 fields and 8,192 bytes. It takes no memory, and stops reading
/// once the head is whole.
///
/// It fails with `Broken` when a read fails.
pub(crate) fn read_head<W: Wire>(
    wire: &mut W,
    buf: &mut [u8],
    spans: &mut [HeaderSpan],
) -> Result<(Option<RequestSpans>, usize), Broken>
    requires ready { W.read_failed wire.old ≡ false }
    requires buffer { length buf.old ≡ LONGEST_HEAD }
    requires room { length spans.old ≡ MOST_FIELDS }
    ensures filled { IfOk result (λ read. read.1 ≤ LONGEST_HEAD) }
    ensures read { IfOk result (λ read. Consumes (W.incoming wire.old) (W.incoming wire.new) (take read.1 buf.new)) }
    ensures head { IfOk result (λ read. IfSome (W.incoming wire.old) (λ stream.
        GivesHead stream (take read.1 buf.new) spans.new read.0)) }
    ensures within { IfOk result (λ read. IfSome read.0 (IsRequestWithin (take read.1 buf.new) spans.new)) }
    ensures limit { TakesUpTo LONGEST_HEAD (W.incoming wire.old) (W.incoming wire.new) }
    ensures failed { IsErr result ↔ (W.read_failed wire.new ≡ true) }
    ensures came { W.came wire.new ≡ W.came wire.old }
    ensures kept { W.outgoing wire.new ≡ W.outgoing wire.old }
    ensures writes_unchanged { W.write_failed wire.new ≡ W.write_failed wire.old }
{
    let mut filled = 0;
    while filled < buf.len() {
        let count = take_more(wire, buf, filled)?;
        if count == 0 {
            return Ok((None, filled));
        }
        filled += count;
        match parse_request(&buf[..filled], spans) {
            Ok(Status::Complete(head)) => return Ok((Some(head), filled)),
            Ok(Status::Partial) => {}
            Err(_) => return Ok((None, filled)),
        }
    }
    Ok((None, filled))
}
