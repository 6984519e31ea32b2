//! Completes what the words of a command ask for by what stands in files, and by the moment of a day.

ghost use Rattle.std.specs.Prelude.{◌≡◌, IfErr, IfOk, List, Option, Some, option_map, ℕ};
ghost use Rattle.rd_commands.specs.Input.{ReadsUpTo};
ghost use Rattle.rd_commands.specs.Refusals.{IsDeviceOrMemory};
ghost use Rattle.rd_program.specs.Completing as spec;
ghost use Rattle.rd_program.specs.Completing.{AreOperands, Completes, IsDated, IsKeyRead, IsZoneRead};

use crate::machine::Machine;
use crate::operands::{key_from, moment_of_day, zone_from};
use rd_commands::{
    Ask, FlaggedImportAsk, ImportAsk, InitAsk, OneQuestionAsk, Parsed, Refusal, ServeAsk,
    StaffKeyAsk, WhenAsk,
};
use rd_policy::Zone;
use std::alloc::Global;
use std::io::Read;

/// What stands in the files that a command names.
#[derive(Drop)]
pub(crate) struct Operands {
    /// The key.
    key: Option<Vec<u8>>,
    /// The zone.
    zone: Option<Zone>,
}

/// The images of an `import`, asked for with a key.
fn import_with_key<'a>(ask: ImportAsk<'a>, key: &'a [u8]) -> ImportAsk<'a>
    ensures { result ≡ record ask.entry { key = key.entry } }
{
    ImportAsk { key, ..ask }
}

/// What is asked for, with a key.
fn with_key<'a>(ask: Ask<'a>, key: &'a [u8]) -> Ask<'a>
    ensures { result ≡ spec.with_key key.entry ask.entry }
{
    match ask {
        Ask::Init(ask) => Ask::Init(InitAsk { key, ..ask }),
        Ask::Import(ask) => Ask::Import(import_with_key(ask, key)),
        Ask::FlaggedImport(ask) => Ask::FlaggedImport(FlaggedImportAsk {
            import: import_with_key(ask.import, key),
            ..ask
        }),
        Ask::OneQuestion(ask) => Ask::OneQuestion(OneQuestionAsk {
            key: Some(key),
            ..ask
        }),
        Ask::StaffKey(ask) => Ask::StaffKey(StaffKeyAsk { key, ..ask }),
        other => other,
    }
}

/// When a command asks, by the clocks of a zone.
fn in_zone(when: WhenAsk, zone: Zone) -> WhenAsk
    ensures { result ≡ spec.in_zone zone when }
{
    WhenAsk { zone, ..when }
}

/// What is asked for, by the clocks of a zone.
fn with_zone<'a>(ask: Ask<'a>, zone: Zone) -> Ask<'a>
    ensures { result ≡ spec.with_zone zone ask.entry }
{
    match ask {
        Ask::Serve(ask) => Ask::Serve(ServeAsk { zone, ..ask }),
        Ask::Import(ask) => Ask::Import(ImportAsk {
            when: in_zone(ask.when, zone),
            ..ask
        }),
        Ask::FlaggedImport(ask) => Ask::FlaggedImport(FlaggedImportAsk {
            import: ImportAsk {
                when: in_zone(ask.import.when, zone),
                ..ask.import
            },
            ..ask
        }),
        Ask::OneQuestion(ask) => Ask::OneQuestion(OneQuestionAsk {
            when: in_zone(ask.when, zone),
            ..ask
        }),
        other => other,
    }
}

/// When a command asks: at the moment of a day, by its clocks.
fn on_day(when: WhenAsk, day: i32) -> WhenAsk
    ensures { spec.IsWhenDated day when result }
{
    let seconds = moment_of_day(day, &when.zone);
    WhenAsk {
        seconds: Some(seconds),
        ..when
    }
}

/// What is asked for, at the moment of a day, by its clocks.
fn at_day<'a>(ask: Ask<'a>, day: i32) -> Ask<'a>
    ensures { IsDated (Some day) ask.entry result }
{
    match ask {
        Ask::Import(ask) => Ask::Import(ImportAsk {
            when: on_day(ask.when, day),
            ..ask
        }),
        Ask::FlaggedImport(ask) => Ask::FlaggedImport(FlaggedImportAsk {
            import: ImportAsk {
                when: on_day(ask.import.when, day),
                ..ask.import
            },
            ..ask
        }),
        Ask::OneQuestion(ask) => Ask::OneQuestion(OneQuestionAsk {
            when: on_day(ask.when, day),
            ..ask
        }),
        other => other,
    }
}

/// What is asked for, with the key that was read, if one was.
fn keyed<'a>(ask: Ask<'a>, operands: &'a Operands) -> Ask<'a>
    ensures { spec.IsKeyedBy (option_map (λ key. key.items) operands.now.key) ask.entry result }
{
    match &operands.key {
        Some(key) => with_key(ask, key.as_slice()),
        None => ask,
    }
}

/// What is asked for, by the clocks of the zone that was read, if one was.
fn zoned<'a>(ask: Ask<'a>, zone: Option<Zone>) -> Ask<'a>
    ensures { spec.IsZonedBy zone ask.entry result }
{
    match zone {
        Some(zone) => with_zone(ask, zone),
        None => ask,
    }
}

/// What is asked for, at the moment of a day, if there is a day.
fn dated<'a>(ask: Ask<'a>, day: Option<i32>) -> Ask<'a>
    ensures { IsDated day ask.entry result }
{
    match day {
        Some(day) => at_day(ask, day),
        None => ask,
    }
}

/// The key that `key_from` gives for a path, and it fails as that does; `None` if there is no path.
fn key_read<R: Read, M: Machine>(
    alloc: Global,
    path: Option<&str>,
    input: &mut R,
    machine: &mut M,
) -> Result<Option<Vec<u8>>, Refusal>
    ensures read { IfOk result (λ key. IsKeyRead (M.seen machine.old).files (R.remaining input.old)
        (option_map (λ path. path.now) path.entry) (option_map (λ key. key.items) key)) }
    ensures refused { IfErr result IsDeviceOrMemory }
    ensures same { machine.new ≡ machine.old }
    ensures limit { ReadsUpTo 4_097 (R.remaining input.old) (R.remaining input.new) }
{
    match path {
        Some(path) => Ok(Some(key_from(alloc, path, input, machine)?)),
        None => Ok(None),
    }
}

/// The zone in whose rule the file at a path ends; `None` if there is no path. It fails as `zone_from` does.
fn zone_read<M: Machine>(
    alloc: Global,
    path: Option<&str>,
    machine: &mut M,
) -> Result<Option<Zone>, Refusal>
    ensures read { IfOk result
        (λ zone. IsZoneRead (M.seen machine.old).files (option_map (λ path. path.now) path.entry) zone) }
    ensures refused { IfErr result IsDeviceOrMemory }
    ensures same { machine.new ≡ machine.old }
{
    match path {
        Some(path) => Ok(Some(zone_from(alloc, path, machine)?)),
        None => Ok(None),
    }
}

/// Reads the files that the words name: first the one with a key, then the one with a zone. It fails with
/// `Device` when one cannot be read, is too long, or has no rule, and with `NoMemory`.
pub(crate) fn read_operands<R: Read, M: Machine>(
    alloc: Global,
    parsed: &Parsed,
    input: &mut R,
    machine: &mut M,
) -> Result<Operands, Refusal>
    ensures read { IfOk result (λ operands. AreOperands (M.seen machine.old).files (R.remaining input.old)
        parsed.now.options (option_map (λ key. key.items) operands.key) operands.zone) }
    ensures refused { IfErr result IsDeviceOrMemory }
    ensures same { machine.new ≡ machine.old }
    ensures limit { ReadsUpTo 4_097 (R.remaining input.old) (R.remaining input.new) }
{
    let key = key_read(alloc, parsed.options.key_file, input, machine)?;
    let zone = zone_read(alloc, parsed.options.zone_file, machine)?;
    Ok(Operands { key, zone })
}

/// What the words ask for, with what stands in files, and at the moment of a day.
pub(crate) fn completed<'a>(parsed: Parsed<'a>, operands: &'a Operands) -> Ask<'a>
    ensures { (files : List ℕ → Option (List ℕ)) (input : Option (List ℕ))
        → AreOperands files input parsed.entry.options (option_map (λ key. key.items) operands.now.key)
        operands.now.zone → Completes files input parsed.entry result }
{
    let with_both = zoned(keyed(parsed.ask, operands), operands.zone);
    dated(with_both, parsed.options.day)
}
