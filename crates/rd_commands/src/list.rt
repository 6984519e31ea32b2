ghost use Rattle.std.specs.Prelude.{◌≡◌, ◌≢◌, ◌+◌, IfErr, IfOk, IfSome, IsTrue, OnOk, codes, string_bytes};
ghost use Rattle.std.specs.Io.KnownBytes.{Keeps};
ghost use Rattle.rd_geometry.specs.Kinds.{size_of};
ghost use Rattle.rd_commands.specs.Input.{ReadsUpTo};
ghost use Rattle.rd_commands.specs.Listed as spec;
ghost use Rattle.rd_commands.specs.Listed.{Lists, RefusesList};
ghost use Rattle.rd_commands.specs.Refusals.{status_of};

use crate::files::Files;
use crate::output::write_whole;
use crate::printed::Line;
use crate::refusal::Refusal;
use crate::source::read_image;
use crate::words::ImageAsk;
use rd_volume::{End, Found, Image, Kind, directory_end, survey};
use std::alloc::{AllocError, Global};
use std::io::{Read, Write};

/// A line for each file of an image of a kind, and one with their number and with how the
/// directory ends. It fails when memory runs out.
fn list_text(alloc: Global, kind: Kind, files: &[Found], end: End) -> Result<String, AllocError>
    ensures { IfOk result (λ text. string_bytes text ≡ spec.list_text kind files.now end) }
{
    let mut text = String::new(alloc);
    for file in files {
        write!(text, "{}", Line(kind, file))?;
    }
    let count = files.len();
    let end = end.word();
    write!(text, "files\t{count}\t{end}\n")?;
    Ok(text)
}

/// Writes the list of the files of the image of a kind with these bytes, and flushes the output.
///
/// It fails with `WrongSize`, with `NoMemory`, and with `Device` when a write or the flush fails.
fn list_image<M: Files, W: Write>(
    alloc: Global,
    kind: Kind,
    bytes: &[u8],
    output: &mut W,
) -> Result<(), Refusal>
    ensures done { OnOk result
        (Lists kind bytes.now (W.contents output.old) (W.contents output.new)) }
    ensures flushed { OnOk result (IsTrue (M.flushed (W.contents output.new))) }
    ensures refused { IfErr result (λ refusal.
        RefusesList refusal kind bytes.now (W.contents output.old) (W.contents output.new)) }
{
    let image = Image::new(kind, bytes)?;
    let files = survey(alloc, &image)?;
    let end = directory_end(alloc, &image)?;
    let text = list_text(alloc, kind, files.as_slice(), end)?;
    write_whole::<M, W>(output, text.as_bytes())
}

/// Writes the list of the files of the image that the command names. It reads standard input no
/// further than one byte past the size of an image, and leaves the machine as it was.
///
/// It fails with `Device` or `NoMemory` when it cannot read the image, with `WrongSize`, with
/// `NoMemory`, and with `Device` when a write fails. It writes nothing before it refuses the image
/// or memory runs out.
pub fn list<R: Read, W: Write, M: Files>(
    alloc: Global,
    ask: ImageAsk,
    input: &mut R,
    output: &mut W,
    machine: &mut M,
) -> Result<(), Refusal>
    ensures never { IfErr result (λ refusal. status_of refusal ≢ 2) }
    ensures kept { IfErr result (λ refusal. status_of refusal ≡ 1
        → Keeps (W.contents output.old) (W.contents output.new)) }
    ensures done { ask.entry.image.now ≡ codes "-"
        → OnOk result (IfSome (R.remaining input.old) (λ image. Lists
        ask.entry.kind image (W.contents output.old) (W.contents output.new))) }
    ensures refused { ask.entry.image.now ≡ codes "-"
        → IfErr result (λ refusal. IfSome (R.remaining input.old) (λ image. RefusesList refusal
        ask.entry.kind image (W.contents output.old) (W.contents output.new))) }
    ensures done_file { ask.entry.image.now ≢ codes "-"
        → OnOk result (IfSome (M.file_bytes machine.old ask.entry.image.now) (λ image. Lists
        ask.entry.kind image (W.contents output.old) (W.contents output.new))) }
    ensures refused_file { ask.entry.image.now ≢ codes "-"
        → IfErr result (λ refusal. IfSome (M.file_bytes machine.old ask.entry.image.now) (λ image. RefusesList refusal
        ask.entry.kind image (W.contents output.old) (W.contents output.new))) }
    ensures flushed { OnOk result (IsTrue (M.flushed (W.contents output.new))) }
    ensures same { machine.new ≡ machine.old }
    ensures limit { ReadsUpTo (size_of ask.entry.kind + 1)
        (R.remaining input.old) (R.remaining input.new) }
{
    let bytes = read_image(alloc, ask.kind, ask.image, input, machine)?;
    list_image::<M, W>(alloc, ask.kind, bytes.as_slice(), output)
}
