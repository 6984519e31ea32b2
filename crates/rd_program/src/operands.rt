//! The operands of a command that stand in files, and the first moment of a day.

ghost use Rattle.std.specs.Prelude.{◌≡◌, ◌≢◌, IfErr, IfOk, IfSome, codes, take};
ghost use Rattle.rd_commands.specs.Input.{ReadsUpTo};
ghost use Rattle.rd_commands.specs.Refusals.{IsDeviceOrMemory};
ghost use Rattle.rd_program.specs.Completing.{IsKeyAt, IsMomentOf, IsZoneAt};

use crate::machine::{Machine, file_at};
use rd_commands::{Refusal, read_front};
use rd_operands::{KEY_FILE_LIMIT, ZoneFileFault, first_moment, key_in_file, zone_in_file};
use rd_policy::Zone;
use std::alloc::Global;
use std::io::Read;

/// The bytes of the file at a path, or of standard input if the path is a hyphen: at most one more than a
/// file with a key may have. It fails with `Device` when they cannot be read, and with `NoMemory`.
fn key_bytes<R: Read, M: Machine>(
    alloc: Global,
    path: &str,
    input: &mut R,
    machine: &mut M,
) -> Result<Vec<u8>, Refusal>
    ensures front { path.now ≡ codes "-"
        → IfOk result (λ bytes. IfSome (R.remaining input.old) (λ all. bytes.items ≡ take 4_097 all)) }
    ensures file { path.now ≢ codes "-"
        → IfOk result (λ bytes. IfSome ((M.seen machine.old).files path.now) (λ shown. bytes.items ≡ shown)) }
    ensures refused { IfErr result IsDeviceOrMemory }
    ensures same { machine.new ≡ machine.old }
    ensures limit { ReadsUpTo 4_097 (R.remaining input.old) (R.remaining input.new) }
{
    if path == "-" {
        return read_front(alloc, KEY_FILE_LIMIT + 1, input);
    }
    match file_at(alloc, path, machine) {
        Ok(bytes) => Ok(bytes),
        Err(fault) => Err(fault.or(Refusal::Device)),
    }
}

/// The key in the file at a path, or on standard input if the path is a hyphen. It fails with `Device` when
/// the file cannot be read or has more than 4,096 bytes, and with `NoMemory`.
pub(crate) fn key_from<R: Read, M: Machine>(
    alloc: Global,
    path: &str,
    input: &mut R,
    machine: &mut M,
) -> Result<Vec<u8>, Refusal>
    ensures key { IfOk result
        (λ key. IsKeyAt (M.seen machine.old).files (R.remaining input.old) path.now key.items) }
    ensures refused { IfErr result IsDeviceOrMemory }
    ensures same { machine.new ≡ machine.old }
    ensures limit { ReadsUpTo 4_097 (R.remaining input.old) (R.remaining input.new) }
{
    let bytes = key_bytes(alloc, path, input, machine)?;
    match key_in_file(bytes.as_slice()) {
        Some(key) => Ok(key.to_vec(alloc)?),
        None => Err(Refusal::Device),
    }
}

/// The zone in whose rule the file at a path ends. It fails with `Device` when the file cannot be read, has
/// more than 65,536 bytes, or is no file of the time zone database that ends in a rule, and with `NoMemory`.
pub(crate) fn zone_from<M: Machine>(
    alloc: Global,
    path: &str,
    machine: &mut M,
) -> Result<Zone, Refusal>
    ensures zone { IfOk result (IsZoneAt (M.seen machine.old).files path.now) }
    ensures refused { IfErr result IsDeviceOrMemory }
    ensures same { machine.new ≡ machine.old }
{
    let bytes = match file_at(alloc, path, machine) {
        Ok(bytes) => bytes,
        Err(fault) => return Err(fault.or(Refusal::Device)),
    };
    match zone_in_file(alloc, bytes.as_slice()) {
        Ok(zone) => Ok(zone),
        Err(ZoneFileFault::NoRule) => Err(Refusal::Device),
        Err(ZoneFileFault::NoMemory) => Err(Refusal::NoMemory),
    }
}

/// A moment without a day, which a desk refuses with `Clock`.
const WITHOUT_A_DAY: i64 = i64::MAX;

/// The first moment at which the clocks of a zone show a day, counted from 1970-01-01, in seconds since
/// 1970-01-01T00:00:00 UTC; a moment without a day where they never show it.
pub(crate) fn moment_of_day(day: i32, zone: &Zone) -> i64
    ensures { IsMomentOf day zone.now result }
{
    match first_moment(day, zone) {
        Some(seconds) => seconds,
        None => WITHOUT_A_DAY,
    }
}
