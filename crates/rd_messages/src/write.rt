//! The bytes of a reply, written to a connection.

ghost use Rattle.std.specs.Prelude.{◌≡◌, ◌↔◌, ◌≤◌, true, false, length, IsErr};
ghost use Rattle.rd_messages.specs.ReplyText.{reply_bytes};
ghost use Rattle.rd_messages.specs.Sent.{Sends};

use crate::reply::head_of;
use crate::wire::{Broken, Wire};
use rd_protocol::{Body, Reply};

/// Writes bytes.
///
/// It fails with `Broken` when a write fails: then a front part went out, and not all of them.
#[inline]
pub(crate) fn put_all<W: Wire>(wire: &mut W, bytes: &[u8]) -> Result<(), Broken>
    requires { W.write_failed wire.old ≡ false }
    ensures sends { Sends (W.outgoing wire.old) (W.outgoing wire.new) result bytes.now }
    ensures failed { IsErr result ↔ (W.write_failed wire.new ≡ true) }
    ensures kept { W.incoming wire.new ≡ W.incoming wire.old }
    ensures came { W.came wire.new ≡ W.came wire.old }
    ensures reads_unchanged { W.read_failed wire.new ≡ W.read_failed wire.old }
{
    let mut sent = 0;
    while sent < bytes.len() {
        let count = wire.put(&bytes[sent..])?;
        sent += count;
    }
    Ok(())
}

/// Writes a body: piece by piece, but for those that the wire takes at once.
///
/// It fails with `Broken` when a write fails: then a front part went out, and not all of it.
pub(crate) fn put_pieces<W: Wire>(wire: &mut W, body: &Body) -> Result<(), Broken>
    requires { W.write_failed wire.old ≡ false }
    ensures sends { Sends (W.outgoing wire.old) (W.outgoing wire.new) result body.now.bytes }
    ensures failed { IsErr result ↔ (W.write_failed wire.new ≡ true) }
    ensures kept { W.incoming wire.new ≡ W.incoming wire.old }
    ensures came { W.came wire.new ≡ W.came wire.old }
    ensures reads_unchanged { W.read_failed wire.new ≡ W.read_failed wire.old }
{
    let mut pieces = body.pieces();
    wire.put_front_of(&mut pieces);
    while let Some(piece) = pieces.next() {
        put_all(wire, piece)?;
        wire.put_front_of(&mut pieces);
    }
    Ok(())
}

/// Writes a reply. `extra` is a line of at most 40 bytes that only this reply has in its head, or
/// empty.
///
/// It fails with `Broken` when a write fails: then a front part went out, and not all of it.
pub(crate) fn put_reply<W: Wire>(wire: &mut W, extra: &str, reply: &Reply) -> Result<(), Broken>
    requires ready { W.write_failed wire.old ≡ false }
    requires room { length extra.now ≤ 40 }
    ensures sends { Sends (W.outgoing wire.old) (W.outgoing wire.new) result (reply_bytes extra.now reply.now) }
    ensures failed { IsErr result ↔ (W.write_failed wire.new ≡ true) }
    ensures kept { W.incoming wire.new ≡ W.incoming wire.old }
    ensures came { W.came wire.new ≡ W.came wire.old }
    ensures reads_unchanged { W.read_failed wire.new ≡ W.read_failed wire.old }
{
    let head = head_of(reply.status, reply.form, reply.body.len(), extra);
    match put_all(wire, head.as_slice()) {
        Ok(()) => put_pieces(wire, &reply.body),
        Err(broken) => Err(broken),
    }
}
