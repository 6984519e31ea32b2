ghost use Rattle.std.specs.Prelude.{◌≡◌, ◌≢◌, ◌+◌, IfErr, IfSome, IsTrue, OnOk, codes};
ghost use Rattle.std.specs.Io.KnownBytes.{Keeps};
ghost use Rattle.rd_commands.specs.Cat.{Refuses, Serves};
ghost use Rattle.rd_geometry.specs.Kinds.{size_of};
ghost use Rattle.rd_commands.specs.Input.{ReadsUpTo};
ghost use Rattle.rd_commands.specs.Refusals.{status_of};

use crate::files::Files;
use crate::output::write_pieces;
use crate::refusal::Refusal;
use crate::source::read_image;
use crate::words::FileAsk;
use rd_volume::{Image, Kind, find, pieces};
use std::alloc::Global;
use std::io::{Read, Write};

/// Writes the bytes of the file at a slot of the image with these bytes, and flushes the output.
///
/// It fails with `WrongSize`, `NoFile`, `ListedOnly` and `Faulty`, in this order, with `NoMemory`,
/// and with `Device` when a write or the flush fails.
fn cat_image<M: Files, W: Write>(
    alloc: Global,
    kind: Kind,
    slot: u16,
    bytes: &[u8],
    output: &mut W,
) -> Result<(), Refusal>
    ensures done { OnOk result
        (Serves kind slot bytes.now (W.contents output.old) (W.contents output.new)) }
    ensures flushed { OnOk result (IsTrue (M.flushed (W.contents output.new))) }
    ensures refused { IfErr result (λ refusal.
        Refuses refusal kind slot bytes.now (W.contents output.old) (W.contents output.new)) }
{
    let image = Image::new(kind, bytes)?;
    let Some(file) = find(alloc, &image, slot)? else {
        return Err(Refusal::NoFile);
    };
    if !file.served_class {
        return Err(Refusal::ListedOnly);
    }
    if file.faults != 0 {
        return Err(Refusal::Faulty(kind, file.faults));
    }
    write_pieces::<M, W>(output, pieces(&image, &file))
}

/// Writes the bytes of the file that the command names. It reads standard input no further than
/// one byte past the size of an image, and leaves the machine as it was.
///
/// It fails as `cat_image` does, and with `Device` or `NoMemory` when it cannot read the image.
pub fn cat<R: Read, W: Write, M: Files>(
    alloc: Global,
    ask: FileAsk,
    input: &mut R,
    output: &mut W,
    machine: &mut M,
) -> Result<(), Refusal>
    ensures never { IfErr result (λ refusal. status_of refusal ≢ 2) }
    ensures kept { IfErr result (λ refusal. status_of refusal ≡ 1
        → Keeps (W.contents output.old) (W.contents output.new)) }
    ensures done { ask.entry.image.now ≡ codes "-"
        → OnOk result (IfSome (R.remaining input.old) (λ image. Serves
        ask.entry.kind ask.entry.slot image (W.contents output.old) (W.contents output.new))) }
    ensures refused { ask.entry.image.now ≡ codes "-"
        → IfErr result (λ refusal. IfSome (R.remaining input.old) (λ image. Refuses refusal
        ask.entry.kind ask.entry.slot image (W.contents output.old) (W.contents output.new))) }
    ensures done_file { ask.entry.image.now ≢ codes "-"
        → OnOk result (IfSome (M.file_bytes machine.old ask.entry.image.now) (λ image. Serves
        ask.entry.kind ask.entry.slot image (W.contents output.old) (W.contents output.new))) }
    ensures refused_file { ask.entry.image.now ≢ codes "-"
        → IfErr result (λ refusal. IfSome (M.file_bytes machine.old ask.entry.image.now) (λ image. Refuses refusal
        ask.entry.kind ask.entry.slot image (W.contents output.old) (W.contents output.new))) }
    ensures flushed { OnOk result (IsTrue (M.flushed (W.contents output.new))) }
    ensures same { machine.new ≡ machine.old }
    ensures limit { ReadsUpTo (size_of ask.entry.kind + 1)
        (R.remaining input.old) (R.remaining input.new) }
{
    let bytes = read_image(alloc, ask.kind, ask.image, input, machine)?;
    cat_image::<M, W>(alloc, ask.kind, ask.slot, bytes.as_slice(), output)
}
