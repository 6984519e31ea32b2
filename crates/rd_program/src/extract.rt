//! Writes the sound files of an image into a folder.

ghost use Rattle.std.specs.Prelude.{◌≡◌, ◌+◌, IfErr, IfOk, IsTrue, OnOk, string_bytes, true};
ghost use Rattle.std.specs.Io.KnownBytes.{Appends};
ghost use Rattle.rd_geometry.specs.Images.{bytes_of, kind_of};
ghost use Rattle.rd_geometry.specs.Kinds.{size_of};
ghost use Rattle.rd_commands.specs.Input.{ReadsUpTo};
ghost use Rattle.rd_commands.specs.Output.{IsFlushed};
ghost use Rattle.rd_program.specs.Leaves.{GivesBack};
ghost use Rattle.rd_volume.specs.Founds.{Fits};
ghost use Rattle.rd_volume.specs.Volumes.{contents_of};
ghost use Rattle.rd_program.specs.World.{ChangesFolders};
ghost use Rattle.rd_program.specs.Extracting as spec;
ghost use Rattle.rd_program.specs.Extracting.{Extracts, FailsOne, OfImage, RefusesExtract, made_of};

use crate::machine::{Machine, WriteFault};
use rd_commands::{ExtractAsk, Refusal, read_image, write_whole};
use rd_operands::file_name;
use rd_volume::{Found, Image, pieces, survey};
use std::alloc::{AllocError, Global};
use std::io::{Read, Write};

/// Whether a file is sound, and of a class that desk serves.
fn is_given(file: &Found) -> bool
    ensures { result ≡ spec.is_given file.now }
{
    file.served_class && file.faults == 0
}

/// The refusal when a file is not made.
fn not_written(fault: WriteFault) -> Refusal
    ensures { result ≡ spec.refusal_to_write fault }
{
    match fault {
        WriteFault::Exists => Refusal::Exists,
        WriteFault::Failed => Refusal::Device,
        WriteFault::NoMemory => Refusal::NoMemory,
    }
}

/// The bytes of a sound file of an image. It fails when memory runs out.
fn contents(alloc: Global, image: &Image<'_>, file: &Found) -> Result<Vec<u8>, AllocError>
    requires given { spec.is_given file.now ≡ true }
    requires fits { Fits (kind_of image.now) file.now }
    ensures { IfOk result (λ bytes. bytes.items ≡ contents_of (kind_of image.now) (bytes_of image.now)
        file.now) }
{
    let mut bytes = Vec::new(alloc);
    for piece in pieces(image, file) {
        bytes.extend_from_slice(piece)?;
    }
    Ok(bytes)
}

/// The line of a file: its slot, its name in the folder and its size in bytes. It fails if memory runs out.
fn line_text(alloc: Global, slot: u16, name: &str, count: usize) -> Result<String, AllocError>
    ensures { IfOk result (λ line. string_bytes line ≡ spec.line_text slot name.now count) }
{
    let mut line = String::new(alloc);
    write!(line, "{slot}\t{name}\t{count}\n")?;
    Ok(line)
}

/// Makes the file of a folder for a file of an image, and writes its line. It fails with `Exists` when that
/// name is taken, with `Device` when it cannot be made whole or a write or flush fails, and with `NoMemory`.
fn extract_one<W: Write, M: Machine>(
    alloc: Global,
    image: &Image<'_>,
    file: &Found,
    folder: &str,
    output: &mut W,
    machine: &mut M,
) -> Result<(), Refusal>
    requires given { spec.is_given file.now ≡ true }
    requires fits { Fits (kind_of image.now) file.now }
    ensures made { OnOk result (spec.MakesNext (M.seen machine.old).written (M.seen machine.new).written
        (made_of (kind_of image.now) (bytes_of image.now) folder.now file.now)) }
    ensures line { OnOk result (Appends (W.contents output.old) (W.contents output.new)
        (spec.line_of (kind_of image.now) (bytes_of image.now) folder.now file.now)) }
    ensures failed { IfErr result (FailsOne (made_of (kind_of image.now) (bytes_of image.now)
        folder.now file.now) (spec.line_of (kind_of image.now) (bytes_of image.now) folder.now file.now)
        (M.seen machine.old).written (M.seen machine.new).written (W.contents output.old)
        (W.contents output.new)) }
    ensures flushed { OnOk result (IsTrue (M.flushed (W.contents output.new))) }
    ensures frame { ChangesFolders (M.seen machine.old) (M.seen machine.new) }
{
    let name = file_name(alloc, file.slot, file.name.as_str().as_bytes())?;
    let bytes = contents(alloc, image, file)?;
    let line = line_text(alloc, file.slot, name.as_str(), bytes.len())?;
    match machine.write_new(alloc, folder, name.as_str(), bytes.as_slice()) {
        Ok(()) => write_whole::<M, W>(output, line.as_bytes()),
        Err(fault) => Err(not_written(fault)),
    }
}

/// Makes a file in a folder for each sound file of the served class of the image that the command names, and
/// writes a line for each. It fails with `Device` or `NoMemory` when it cannot read the image, with
/// `WrongSize`, and as `extract_one` does: the files before that one stay.
pub(crate) fn extract<R: Read, W: Write, M: Machine>(
    alloc: Global,
    ask: ExtractAsk,
    input: &mut R,
    output: &mut W,
    machine: &mut M,
) -> Result<(), Refusal>
    ensures extracted { OnOk result
        (OfImage (M.seen machine.old).files (R.remaining input.old) ask.entry.image.image.now (λ image.
        Extracts ask.entry.image.kind image ask.entry.folder.now (M.seen machine.old).written
        (M.seen machine.new).written (W.contents output.old) (W.contents output.new))) }
    ensures refused { IfErr result (λ refusal.
        OfImage (M.seen machine.old).files (R.remaining input.old) ask.entry.image.image.now (λ image.
        RefusesExtract ask.entry.image.kind image ask.entry.folder.now (M.seen machine.old).written
        (M.seen machine.new).written (W.contents output.old) (W.contents output.new) refusal)) }
    ensures named { IfErr result spec.IsFilesRefusal }
    ensures flushed { OnOk result (IsFlushed M.flushed (W.contents output.old) (W.contents output.new)) }
    ensures limit { ReadsUpTo (size_of ask.entry.image.kind + 1) (R.remaining input.old)
        (R.remaining input.new) }
    ensures back { GivesBack (M.seen machine.old).shows (M.seen machine.old).left (M.seen machine.new).left }
    ensures frame { ChangesFolders (M.seen machine.old) (M.seen machine.new) }
{
    let bytes = read_image(alloc, ask.image.kind, ask.image.image, input, machine)?;
    let image = Image::new(ask.image.kind, bytes.as_slice())?;
    let files = survey(alloc, &image)?;
    for file in files.as_slice() {
        if is_given(file) {
            extract_one(alloc, &image, file, ask.folder, output, machine)?;
        }
    }
    Ok(())
}
