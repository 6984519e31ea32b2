//! Sends a reply, with the line that only this reply has in its head.

ghost use Rattle.std.specs.Prelude.{◌≡◌, ◌↔◌, ◌≤◌, true, false, IfOk, IsErr, length};
ghost use Rattle.rd_messages.specs.ReplyText.{reply_bytes};
ghost use Rattle.rd_messages.specs.Sent.{Sends};
ghost use Rattle.rd_messages.specs.Answers.{answer_bytes};

use crate::reply::challenge;
use crate::wire::{Broken, Wire};
use crate::write::put_reply;
use rd_protocol::Reply;

/// A reply of the desk, with the challenge that only a reply to an unknown key has in its head: a line of at
/// most 40 bytes, or none.
pub fn with_challenge(reply: Reply) -> (&'static str, Reply)
    ensures text { reply_bytes result.0.now result.1 ≡ answer_bytes reply }
    ensures short { length result.0.now ≤ 40 }
{
    (challenge(reply.status), reply)
}

/// Sends a reply, so that the wire holds nothing of it back. `line` is a line of at most 40 bytes
/// that only this reply has in its head, or empty.
#[tactic(auto, using(crate::proofs::SentBytes::nothing_sent, crate::proofs::SentBytes::part_sent, crate::proofs::SentBytes::some_reply))]
pub fn send<W: Wire>(wire: &mut W, line: &str, reply: Reply) -> Result<(), Broken>
    requires ready { W.write_failed wire.old ≡ false }
    requires room { length line.now ≤ 40 }
    ensures sends { Sends (W.outgoing wire.old) (W.outgoing wire.new) result (reply_bytes line.now reply) }
    ensures flushed { IfOk result (λ _. W.unsent wire.new ≡ 0) }
    ensures failed { IsErr result ↔ (W.write_failed wire.new ≡ true) }
    ensures kept { W.incoming wire.new ≡ W.incoming wire.old }
    ensures came { W.came wire.new ≡ W.came wire.old }
    ensures reads_unchanged { W.read_failed wire.new ≡ W.read_failed wire.old }
{
    match put_reply(wire, line, &reply) {
        Ok(()) => wire.flush(),
        Err(broken) => Err(broken),
    }
}
