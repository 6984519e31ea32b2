ghost use Rattle.std.specs.Prelude.{◌≡◌, ◌≢◌, ◌+◌, IfErr, IfOk, IfSome, codes, take};
ghost use Rattle.rd_geometry.specs.Kinds.{size_of};
ghost use Rattle.rd_commands.specs.Input.{ReadsUpTo};
ghost use Rattle.rd_commands.specs.Refusals.{IsDeviceOrMemory};

use crate::files::Files;
use crate::input::read_front;
use crate::refusal::Refusal;
use rd_volume::Kind;
use std::alloc::Global;
use std::io::Read;

/// The bytes of the image at a path: those of the input if the path is a hyphen, and otherwise
/// those of the machine's file. It reads the input no further than one byte past the size of an
/// image.
///
/// It fails with `Device` when it cannot read the image, and with `NoMemory`.
pub fn read_image<R: Read, M: Files>(
    alloc: Global,
    kind: Kind,
    path: &str,
    input: &mut R,
    machine: &mut M,
) -> Result<Vec<u8>, Refusal>
    ensures front { path.now ≡ codes "-" → IfOk result (λ bytes.
        IfSome (R.remaining input.old) (λ all. bytes.items ≡ take (size_of kind + 1) all)) }
    ensures of_file { path.now ≢ codes "-" → IfOk result (λ bytes.
        IfSome (M.file_bytes machine.old path.now) (λ file. bytes.items ≡ file)) }
    ensures refused { IfErr result IsDeviceOrMemory }
    ensures same { machine.new ≡ machine.old }
    ensures limit { ReadsUpTo (size_of kind + 1) (R.remaining input.old) (R.remaining input.new) }
{
    if path == "-" {
        return read_front(alloc, kind.size() + 1, input);
    }
    match machine.read_file(alloc, path) {
        Ok(bytes) => Ok(bytes),
        Err(fault) => Err(fault.or(Refusal::Device)),
    }
}
