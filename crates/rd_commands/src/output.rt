ghost use Rattle.std.specs.Prelude.{◌≡◌, ◌<◌, IfErr, IfOk, IsTrue, OnErr, OnOk};
ghost use Rattle.std.specs.Io.{WritesAtMost};
ghost use Rattle.std.specs.Io.KnownBytes.{Appends, Keeps, WriteAppends};
ghost use Rattle.std.specs.List.{concat};
ghost use Rattle.rd_volume.specs.PiecesLeft.{pieces_left};
ghost use Rattle.rd_commands.specs.Output.{AppendsPart};

use crate::files::Files;
use crate::refusal::Refusal;
use rd_volume::Pieces;
use std::io::{ErrorKind, Write};

/// Writes once, and again if the write was interrupted.
///
/// It fails with `Device` when a write fails or takes no byte.
fn write_some<W: Write>(output: &mut W, bytes: &[u8]) -> Result<usize, Refusal>
    ensures bound { WritesAtMost result bytes.now }
    ensures some { IfOk result (λ count. 0 < count) }
    ensures bytes { WriteAppends (W.contents output.old) (W.contents output.new) result bytes.now }
    ensures device { IfErr result (λ refusal. refusal ≡ Refusal.Device) }
{
    for _ in 0..u64::MAX {
        match output.write(bytes) {
            Ok(0) => return Err(Refusal::Device),
            Ok(count) => return Ok(count),
            Err(error) => {
                if error.kind() != ErrorKind::Interrupted {
                    return Err(Refusal::Device);
                }
            }
        }
    }
    Err(Refusal::Device)
}

/// Writes bytes.
///
/// It fails with `Device` when a write fails or takes no byte: then a front part was written.
#[inline(always)]
pub(crate) fn write_bytes<W: Write>(output: &mut W, bytes: &[u8]) -> Result<(), Refusal>
    ensures done { OnOk result (Appends (W.contents output.old) (W.contents output.new) bytes.now) }
    ensures cut { OnErr result
        (AppendsPart (W.contents output.old) (W.contents output.new) bytes.now) }
    ensures device { IfErr result (λ refusal. refusal ≡ Refusal.Device) }
{
    let mut at = 0;
    while at < bytes.len() {
        at += write_some(output, &bytes[at..])?;
    }
    Ok(())
}

/// Writes the pieces of a file, one after another.
///
/// It fails with `Device` when a write fails or takes no byte: then a front part was written.
fn write_each<W: Write>(output: &mut W, pieces: Pieces<'_>) -> Result<(), Refusal>
    ensures done { OnOk result (Appends (W.contents output.old) (W.contents output.new)
        (concat (pieces_left pieces.entry))) }
    ensures cut { OnErr result (AppendsPart (W.contents output.old) (W.contents output.new)
        (concat (pieces_left pieces.entry))) }
    ensures device { IfErr result (λ refusal. refusal ≡ Refusal.Device) }
{
    for piece in pieces {
        write_bytes(output, piece)?;
    }
    Ok(())
}

/// Has a machine flush an output. It fails with `Device` when the flush fails.
fn flush<F: Files, W: Write>(output: &mut W) -> Result<(), Refusal>
    ensures bytes { Keeps (W.contents output.old) (W.contents output.new) }
    ensures flushed { OnOk result (IsTrue (F.flushed (W.contents output.new))) }
    ensures device { IfErr result (λ refusal. refusal ≡ Refusal.Device) }
{
    match F::flush(output) {
        Ok(()) => Ok(()),
        Err(_) => Err(Refusal::Device),
    }
}

/// Writes bytes, and has a machine flush the output.
///
/// It fails with `Device` when a write fails or takes no byte, or the flush fails: then a front
/// part was written.
pub fn write_whole<F: Files, W: Write>(output: &mut W, bytes: &[u8]) -> Result<(), Refusal>
    ensures done { OnOk result (Appends (W.contents output.old) (W.contents output.new) bytes.now) }
    ensures cut { OnErr result
        (AppendsPart (W.contents output.old) (W.contents output.new) bytes.now) }
    ensures flushed { OnOk result (IsTrue (F.flushed (W.contents output.new))) }
    ensures device { IfErr result (λ refusal. refusal ≡ Refusal.Device) }
{
    write_bytes(output, bytes)?;
    flush::<F, W>(output)
}

/// Writes the pieces of a file, one after another, and has a machine flush the output.
///
/// It fails with `Device` when a write fails or takes no byte, or the flush fails: then a front
/// part was written.
pub(crate) fn write_pieces<F: Files, W: Write>(
    output: &mut W,
    pieces: Pieces<'_>,
) -> Result<(), Refusal>
    ensures done { OnOk result (Appends (W.contents output.old) (W.contents output.new)
        (concat (pieces_left pieces.entry))) }
    ensures cut { OnErr result (AppendsPart (W.contents output.old) (W.contents output.new)
        (concat (pieces_left pieces.entry))) }
    ensures flushed { OnOk result (IsTrue (F.flushed (W.contents output.new))) }
    ensures device { IfErr result (λ refusal. refusal ≡ Refusal.Device) }
{
    write_each(output, pieces)?;
    flush::<F, W>(output)
}
