//! The body of a request, read from a connection.

ghost use Rattle.std.specs.Prelude.{◌≡◌, ◌≢◌, ◌-◌, ◌<◌, ◌≤◌, ◌↔◌, ◌++◌, true, false, length, take, replicate, IfOk, IsErr, IsOk};
ghost use Rattle.std.specs.Io.KnownBytes.{IsAtEnd};
ghost use Rattle.rd_messages.specs.Taken.{GivesBody, GrowsByTaken, TakesUpTo};

use crate::taking::take_more;
use crate::wire::{Broken, Wire};
use std::alloc::{AllocError, Global};

/// What was read of a body.
#[derive(Drop)]
pub(crate) enum ReadBody {
    /// The whole body.
    Whole(Vec<u8>),
    /// The bytes ended before the body was whole.
    Short,
    /// There was no memory for the body, and nothing was read.
    NoMemory,
}

/// A body of `size` bytes, with the bytes that have already come at its front and zeros after
/// them. It takes memory once, and none for a body of no bytes.
///
/// It fails with `AllocError` when there is no memory for the body.
fn begun(alloc: Global, front: &[u8], size: usize) -> Result<Vec<u8>, AllocError>
    ensures items { IfOk result (λ body. body.items ≡ take size front.now ++ replicate (size - length front.now) 0) }
    ensures free { size ≡ 0 → IsOk result }
{
    let mut body = Vec::with_capacity(alloc, size)?;
    body.extend_from_slice(&front[..front.len().min(size)])?;
    body.resize(size, 0)?;
    Ok(body)
}

/// Reads into a buffer after its first `start` bytes, which are filled, until it is full or
/// nothing more comes, and gives how many of its bytes are filled then. It does not read if the
/// buffer is full already.
///
/// It fails with `Broken` when a read fails.
fn fill<W: Wire>(wire: &mut W, buf: &mut [u8], start: usize) -> Result<usize, Broken>
    requires ready { W.read_failed wire.old ≡ false }
    requires within { start ≤ length buf.old }
    ensures count { IfOk result (λ filled. filled ≤ length buf.new) }
    ensures read { IfOk result (λ filled. GrowsByTaken (W.incoming wire.old) (W.incoming wire.new)
        (take start buf.old) (take filled buf.new)) }
    ensures end { IfOk result (λ filled. filled < length buf.new → IsAtEnd (W.incoming wire.new)) }
    ensures limit { TakesUpTo (length buf.old - start) (W.incoming wire.old) (W.incoming wire.new) }
    ensures full { start ≡ length buf.old → wire.new ≡ wire.old }
    ensures failed { IsErr result ↔ (W.read_failed wire.new ≡ true) }
    ensures came { W.came wire.new ≡ W.came wire.old }
    ensures kept { W.outgoing wire.new ≡ W.outgoing wire.old }
    ensures writes_unchanged { W.write_failed wire.new ≡ W.write_failed wire.old }
{
    let mut filled = start;
    while filled < buf.len() {
        let count = take_more(wire, buf, filled)?;
        if count == 0 {
            return Ok(filled);
        }
        filled += count;
    }
    Ok(filled)
}

/// Reads a body of `size` bytes, whose front has already come. It reads only the missing bytes,
/// and does not read if none are missing. It takes the memory before the first read.
///
/// It fails with `Broken` when a read fails.
pub(crate) fn read_body<W: Wire>(
    wire: &mut W,
    alloc: Global,
    front: &[u8],
    size: usize,
) -> Result<ReadBody, Broken>
    requires ready { W.read_failed wire.old ≡ false }
    ensures body { IfOk result (GivesBody (W.incoming wire.old) (W.incoming wire.new) front.now size) }
    ensures limit { TakesUpTo (size - length front.now) (W.incoming wire.old) (W.incoming wire.new) }
    ensures nothing_wanting { size ≤ length front.now → wire.new ≡ wire.old }
    ensures no_memory { result ≡ Ok ReadBody.NoMemory → wire.new ≡ wire.old }
    ensures empty { size ≡ 0 → result ≢ Ok ReadBody.NoMemory }
    ensures failed { IsErr result ↔ (W.read_failed wire.new ≡ true) }
    ensures came { W.came wire.new ≡ W.came wire.old }
    ensures kept { W.outgoing wire.new ≡ W.outgoing wire.old }
    ensures writes_unchanged { W.write_failed wire.new ≡ W.write_failed wire.old }
{
    let Ok(mut body) = begun(alloc, front, size) else {
        return Ok(ReadBody::NoMemory);
    };
    let filled = fill(wire, &mut body, front.len().min(size))?;
    if filled < size {
        return Ok(ReadBody::Short);
    }
    Ok(ReadBody::Whole(body))
}
