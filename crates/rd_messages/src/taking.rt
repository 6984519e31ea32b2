//! One read of a connection into a buffer.

ghost use Rattle.std.specs.Prelude.{◌≡◌, ◌+◌, ◌<◌, ◌≤◌, ◌↔◌, true, false, length, take, IfOk, IsErr, OnErr};
ghost use Rattle.std.specs.Io.KnownBytes.{IsAtEnd, Keeps};
ghost use Rattle.rd_messages.specs.Taken.{GrowsByTaken};

use crate::wire::{Broken, Wire};

/// Reads into the part of a buffer that is not filled yet, at most as many bytes as there is room
/// for, and gives how many came. 0 means the end.
///
/// It fails with `Broken` when the read fails.
pub(crate) fn take_more<W: Wire>(
    wire: &mut W,
    buf: &mut [u8],
    filled: usize,
) -> Result<usize, Broken>
    requires ready { W.read_failed wire.old ≡ false }
    requires room { filled < length buf.old }
    ensures count { IfOk result (λ count. filled + count ≤ length buf.new) }
    ensures read { IfOk result (λ count. GrowsByTaken (W.incoming wire.old) (W.incoming wire.new)
        (take filled buf.old) (take (filled + count) buf.new)) }
    ensures end { IfOk result (λ count. count ≡ 0 → IsAtEnd (W.incoming wire.new)) }
    ensures err { OnErr result (Keeps (W.incoming wire.old) (W.incoming wire.new)) }
    ensures failed { IsErr result ↔ (W.read_failed wire.new ≡ true) }
    ensures came { W.came wire.new ≡ W.came wire.old }
    ensures kept { W.outgoing wire.new ≡ W.outgoing wire.old }
    ensures writes_unchanged { W.write_failed wire.new ≡ W.write_failed wire.old }
{
    let count = wire.take(&mut buf[filled..])?;
    Ok(count)
}
