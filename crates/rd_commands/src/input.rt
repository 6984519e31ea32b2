ghost use Rattle.std.specs.Prelude.{◌≡◌, ◌<◌, IfErr, IfOk, IfSome, length, take, ◌++◌};
ghost use Rattle.std.specs.Io.{ReadsAtMost};
ghost use Rattle.std.specs.Io.KnownBytes.{Consumes, IsAtEnd, ReadConsumes};
ghost use Rattle.rd_commands.specs.Input.{ReadsUpTo};
ghost use Rattle.rd_commands.specs.Refusals.{IsDeviceOrMemory};

use crate::refusal::Refusal;
use std::alloc::Global;
use std::io;
use std::io::{ErrorKind, Read};

/// How many bytes are read at a time.
const PART: usize = 4_096;

/// Reads once, and again if the read was interrupted, and gives how many bytes came.
///
/// It fails when a read fails otherwise.
pub fn read_some<R: Read>(input: &mut R, part: &mut [u8]) -> io::Result<usize>
    ensures bound { ReadsAtMost result part.new }
    ensures bytes { ReadConsumes (R.remaining input.old) (R.remaining input.new) result part.new }
{
    for _ in 0..u64::MAX {
        match input.read(part) {
            Ok(count) => return Ok(count),
            Err(error) => {
                if error.kind() != ErrorKind::Interrupted {
                    return Err(error);
                }
            }
        }
    }
    Err(io::Error::from(ErrorKind::Interrupted))
}

/// Reads once, at most as many bytes as `part` holds, and adds what it read to the end of `bytes`.
///
/// It fails with `Device` when a read fails, and with `NoMemory`.
fn read_part<R: Read>(input: &mut R, part: &mut [u8], bytes: &mut Vec<u8>) -> Result<usize, Refusal>
    ensures grows { IfOk result (λ count.
        bytes.new.items ≡ bytes.old.items ++ take count part.new) }
    ensures bound { ReadsAtMost result part.new }
    ensures taken { IfOk result (λ count.
        Consumes (R.remaining input.old) (R.remaining input.new) (take count part.new)) }
    ensures end { IfOk result (λ count. count ≡ 0 → 0 < length part.new
        → IsAtEnd (R.remaining input.new)) }
    ensures refused { IfErr result IsDeviceOrMemory }
    ensures limit { ReadsUpTo (length part.new) (R.remaining input.old) (R.remaining input.new) }
{
    let count = read_some(input, part).map_err(|_| Refusal::Device)?;
    bytes.extend_from_slice(&part[..count])?;
    Ok(count)
}

/// The first `limit` bytes of an input, or all of them if it has fewer. It reads no byte after
/// them.
///
/// It fails with `Device` when a read fails, and with `NoMemory`.
pub fn read_front<R: Read>(alloc: Global, limit: usize, input: &mut R) -> Result<Vec<u8>, Refusal>
    ensures front { IfOk result (λ bytes. IfSome (R.remaining input.old) (λ all.
        bytes.items ≡ take limit all)) }
    ensures taken { IfOk result (λ bytes.
        Consumes (R.remaining input.old) (R.remaining input.new) bytes.items) }
    ensures refused { IfErr result IsDeviceOrMemory }
    ensures limit { ReadsUpTo limit (R.remaining input.old) (R.remaining input.new) }
{
    let mut bytes = Vec::with_capacity(alloc, limit)?;
    let mut part = [0; PART];
    while bytes.len() < limit {
        let room = PART.min(limit - bytes.len());
        if read_part(input, &mut part[..room], &mut bytes)? == 0 {
            return Ok(bytes);
        }
    }
    Ok(bytes)
}
