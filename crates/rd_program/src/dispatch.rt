ghost use Rattle.std.specs.Prelude.{◌≡◌, ◌≢◌, ◌⊎◌, ◌≤◌, ◌+◌, IfErr, IfOk, IfSome, None, OnOk, Option, Some};
ghost use Rattle.std.specs.Io.KnownBytes.{Keeps};
ghost use Rattle.rd_geometry.specs.Kinds.{size_of};
ghost use Rattle.rd_geometry.specs.declared.kind.Kind.TheVariants as kinds;
ghost use Rattle.rd_commands.specs.Asks.{IsWithinLimits, IsExtraction, TellsInRows, TellsOnOutput, most_read};
ghost use Rattle.rd_commands.specs.Input.{ReadsUpTo};
ghost use Rattle.rd_program.specs.Leaves.{GivesBack};
ghost use Rattle.rd_commands.specs.Output.{IsFlushed, AppendsPart};
ghost use Rattle.rd_commands.specs.Printed.{refusal_line};
ghost use Rattle.rd_commands.specs.Refusals.{status_of};
ghost use Rattle.rd_commands.specs.Parsed.{TellsAll};
ghost use Rattle.rd_commands.specs.CommonOptions.{IsPlain};
ghost use Rattle.rd_program.specs.Does.{Does, DoesParsed, EndsEarly, Runs, io_of};
ghost use Rattle.rd_program.specs.Promises.{EndsByWords, EndsUnparsed, KeepsMachine, ReadsInput};
ghost use Rattle.rd_program.specs.Promises.{TellsOfItself, WritesByStatus, texts};

use crate::completing::{completed, read_operands};
use crate::copy::copy;
use crate::export_check::ask_once;
use crate::extract::extract;
use crate::import::{ImportFlags, import};
use crate::init::init;
use crate::machine::Machine;
use crate::serve::serve;
use crate::staff_key::staff_key;
use rd_commands::cat::cat;
use rd_commands::list::list;
use rd_commands::{Ask, Done, Parsed, Refusal, read_words, tell_refusal, tell_unread, whole};
use std::alloc::Global;
use std::io::{Read, Write};

/// Does what a command asks for. It fails as the function of that command does.
fn perform<R: Read, W: Write, M: Machine>(
    alloc: Global,
    ask: Ask,
    input: &mut R,
    output: &mut W,
    machine: &mut M,
) -> Result<Done, Refusal>
    requires accession { IsWithinLimits ask }
    ensures never { IfErr result (λ refusal. status_of refusal ≢ 2) }
    ensures kept { IfErr result (λ refusal. status_of refusal ≡ 1 → Keeps (W.contents output.old)
        (W.contents output.new) ⊎ (TellsInRows ask.entry ⊎ IsExtraction ask.entry)) }
    ensures in_part { IfOk result (λ done. done ≡ Done.InPart → TellsOnOutput ask.entry) }
    ensures flushed { OnOk result (IsFlushed M.flushed (W.contents output.old) (W.contents output.new)) }
    ensures does { Does M.Disk.Store M.Door.so_far M.Door.coming (M.seen machine.old) (M.seen machine.new)
        (io_of (R.remaining input.old) (W.contents output.old) (W.contents output.new)) ask.entry result }
    ensures back { GivesBack (M.seen machine.old).shows (M.seen machine.old).left (M.seen machine.new).left }
    ensures limit { ReadsUpTo (most_read ask.entry) (R.remaining input.old) (R.remaining input.new) }
{
    match ask {
        Ask::File(ask) => whole(cat(alloc, ask, input, output, machine)),
        Ask::Files(ask) => whole(list(alloc, ask, input, output, machine)),
        Ask::Init(ask) => whole(init(ask, output, machine)),
        Ask::Serve(ask) => whole(serve(alloc, ask, output, machine)),
        Ask::Import(ask) => {
            let flags = ImportFlags {
                dry_run: false,
                keep_going: false,
            };
            import(alloc, ask, flags, output, machine)
        }
        Ask::FlaggedImport(ask) => {
            let flags = ImportFlags {
                dry_run: ask.dry_run,
                keep_going: ask.keep_going,
            };
            import(alloc, ask.import, flags, output, machine)
        }
        Ask::Extract(ask) => whole(extract(alloc, ask, input, output, machine)),
        Ask::OneQuestion(ask) => ask_once(alloc, ask, output, machine),
        Ask::StaffKey(ask) => whole(staff_key(alloc, ask, output, machine)),
        Ask::Copy(ask) => whole(copy(alloc, ask, output, machine)),
    }
}

/// Does what a command asks for whose operands stand in files in part, or that names a day: it reads the
/// files first. It fails with `Device` when a file cannot be read or is none of its kind, with `NoMemory`,
/// and then as `perform` does: so a day that the clocks never show is refused after the store is open.
fn perform_completed<R: Read, W: Write, M: Machine>(
    alloc: Global,
    parsed: Parsed,
    input: &mut R,
    output: &mut W,
    machine: &mut M,
) -> Result<Done, Refusal>
    requires accession { IsWithinLimits parsed.ask }
    requires of_store { most_read parsed.ask ≡ 0 }
    ensures never { IfErr result (λ refusal. status_of refusal ≢ 2) }
    ensures kept { IfErr result (λ refusal. status_of refusal ≡ 1 → Keeps (W.contents output.old)
        (W.contents output.new) ⊎ (TellsInRows parsed.entry.ask ⊎ IsExtraction parsed.entry.ask)) }
    ensures in_part { IfOk result (λ done. done ≡ Done.InPart → TellsOnOutput parsed.entry.ask) }
    ensures flushed { OnOk result (IsFlushed M.flushed (W.contents output.old) (W.contents output.new)) }
    ensures back { GivesBack (M.seen machine.old).shows (M.seen machine.old).left (M.seen machine.new).left }
    ensures limit { ReadsUpTo (size_of kinds.Cpm8 + 1) (R.remaining input.old) (R.remaining input.new) }
    ensures completed { DoesParsed M.Disk.Store M.Door.so_far M.Door.coming (M.seen machine.old)
        (M.seen machine.new) (io_of (R.remaining input.old) (W.contents output.old) (W.contents output.new))
        parsed.entry result ⊎ EndsEarly (M.seen machine.old) (M.seen machine.new)
        (io_of (R.remaining input.old) (W.contents output.old) (W.contents output.new)) result }
{
    match read_operands(alloc, &parsed, input, machine) {
        Ok(operands) => {
            let ask = completed(parsed, &operands);
            perform(alloc, ask, input, output, machine)
        }
        Err(refused) => Err(refused),
    }
}

/// Does what the words of a command ask for. It fails as `perform_completed` does where operands stand in
/// files or a day in place of a moment, and otherwise as `perform` does.
fn perform_parsed<R: Read, W: Write, M: Machine>(
    alloc: Global,
    parsed: Parsed,
    input: &mut R,
    output: &mut W,
    machine: &mut M,
) -> Result<Done, Refusal>
    requires accession { IsWithinLimits parsed.ask }
    requires of_store { ¬ IsPlain parsed.options → most_read parsed.ask ≡ 0 }
    ensures never { IfErr result (λ refusal. status_of refusal ≢ 2) }
    ensures kept { IfErr result (λ refusal. status_of refusal ≡ 1 → Keeps (W.contents output.old)
        (W.contents output.new) ⊎ (TellsInRows parsed.entry.ask ⊎ IsExtraction parsed.entry.ask)) }
    ensures in_part { IfOk result (λ done. done ≡ Done.InPart → TellsOnOutput parsed.entry.ask) }
    ensures flushed { OnOk result (IsFlushed M.flushed (W.contents output.old) (W.contents output.new)) }
    ensures back { GivesBack (M.seen machine.old).shows (M.seen machine.old).left (M.seen machine.new).left }
    ensures limit { ReadsUpTo (size_of kinds.Cpm8 + 1) (R.remaining input.old) (R.remaining input.new) }
    ensures limit_plain { IsPlain parsed.entry.options
        → ReadsUpTo (most_read parsed.entry.ask) (R.remaining input.old) (R.remaining input.new) }
    ensures so { DoesParsed M.Disk.Store M.Door.so_far M.Door.coming (M.seen machine.old) (M.seen machine.new)
        (io_of (R.remaining input.old) (W.contents output.old) (W.contents output.new)) parsed.entry result
        ⊎ EndsEarly (M.seen machine.old) (M.seen machine.new)
        (io_of (R.remaining input.old) (W.contents output.old) (W.contents output.new)) result }
{
    if parsed.options.is_plain() {
        return perform(alloc, parsed.ask, input, output, machine);
    }
    perform_completed(alloc, parsed, input, output, machine)
}

/// What a run read in its words, and why it ended so: what an explanation begins with.
#[derive(Clone, Copy, Debug)]
pub struct Why<'a> {
    /// The command and its options; `None` if the words are no command.
    pub parsed: Option<Parsed<'a>>,
    /// Why the command was refused; `None` if it was not.
    pub refused: Option<Refusal>,
}

impl Why<'_> {
    /// Of a run that has not begun.
    pub const UNKNOWN: Why<'static> = Why {
        parsed: None,
        refused: None,
    };
}

/// Writes a refusal as one line, keeps why it ended so, and gives its status.
fn tell_and_keep<E: Write>(refused: Refusal, errors: &mut E, why: &mut Why<'_>) -> u8
    ensures status { result ≡ status_of refused }
    ensures written { AppendsPart (E.contents errors.old) (E.contents errors.new) (refusal_line refused) }
    ensures kept { why.new.refused ≡ Some refused }
    ensures parsed { why.new.parsed ≡ why.old.parsed }
{
    why.refused = Some(refused);
    tell_refusal(refused, errors)
}

/// Runs the program on its words, without its name, and gives its exit status: 0 if it did what they ask for;
/// 1 if it refuses the image, its file, a sheet, a row of it or a request, if there is a desk already, or if
/// a check finds an image changed; 2 if the words are no command; 3 if the device, the clock, memory or the
/// store failed. It reads the image `-` from the input, any other through the machine, writes what the words
/// ask for to the output, and a refusal as one line, or a mistake in the words as a text, to `errors`.
pub fn run<'a, R: Read, W: Write, E: Write, M: Machine>(
    alloc: Global,
    words: &'a [&'a str],
    input: &mut R,
    output: &mut W,
    errors: &mut E,
    machine: &mut M,
    why: &mut Why<'a>,
) -> u8
    // Of any words: the status, what they are at each, what is written and read, what becomes of the machine.
    ensures status { result ≤ 3 }
    ensures by_words { EndsByWords (texts words.entry.now) result
        (W.contents output.old) (W.contents output.new) (E.contents errors.old) (E.contents errors.new) }
    ensures by_status { WritesByStatus (texts words.entry.now) result M.flushed
        (W.contents output.old) (W.contents output.new) (E.contents errors.old) (E.contents errors.new) }
    ensures reads { ReadsInput (texts words.entry.now) (R.remaining input.old) (R.remaining input.new) }
    ensures keeps { KeepsMachine (texts words.entry.now) result (M.seen machine.old).shows
        (M.seen machine.old).left (M.seen machine.new).left machine.old machine.new }
    ensures itself { TellsOfItself (texts words.entry.now) result
        (W.contents output.old) (W.contents output.new) (E.contents errors.old) (E.contents errors.new) }
    // Where the run keeps why a command was refused, that has this status.
    ensures why { why.old.refused ≡ None → IfSome why.new.refused (λ refusal. status_of refusal ≡ result) }
    // What it keeps of the words is what they say, operands in files and days in place of moments too. It
    // did that, once the files were read, or was refused, with the status and line of that. Where it keeps
    // nothing, they are a mistake, ask for help or the version, or memory ran out; the machine is as it was.
    ensures parsed { why.old.parsed ≡ None → IfSome why.new.parsed (TellsAll (texts words.entry.now)) }
    ensures so { why.old.parsed ≡ None → IfSome why.new.parsed
        (λ parsed. Runs M.Disk.Store M.Door.so_far M.Door.coming (M.seen machine.old) (M.seen machine.new)
        (io_of (R.remaining input.old) (W.contents output.old) (W.contents output.new))
        (E.contents errors.old) (E.contents errors.new) parsed result) }
    ensures unparsed { why.old.parsed ≡ None → why.new.parsed ≡ None → (machine.new ≡ machine.old)
        × EndsUnparsed (texts words.entry.now) result (E.contents errors.old) (E.contents errors.new) }
{
    match read_words(alloc, words) {
        Ok(parsed) => {
            why.parsed = Some(parsed);
            match perform_parsed(alloc, parsed, input, output, machine) {
                Ok(done) => done.status(),
                Err(refused) => tell_and_keep(refused, errors, why),
            }
        }
        Err(unread) => tell_unread::<M, W, E>(words, unread, output, errors),
    }
}
