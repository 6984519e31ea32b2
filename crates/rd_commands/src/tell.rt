//! What goes to standard error: the line of a refusal, or what is wrong with the words.

ghost use Rattle.std.specs.Prelude.{◌≡◌, ◌≢◌, ◌≤◌, ◌⊎◌, ◌++◌, ⊤, IfErr, IfOk, IsTrue, OnErr, OnOk, codes, map};
ghost use Rattle.std.specs.Io.KnownBytes.{Appends, Keeps};
ghost use Rattle.std.specs.Process.{exit_status};
ghost use Rattle.clap.specs.Values.{kind_of};
ghost use Rattle.clap.specs.declared.error.Error.{Error};
ghost use Rattle.clap.specs.declared.error.kind.ErrorKind.TheVariants.{DisplayHelp, DisplayVersion, OutOfMemory};
ghost use Rattle.rd_volume.specs.Words.{words_left};
ghost use Rattle.rd_commands.specs.Asks.{IsForMemory, IsHelp, IsMistake, IsVersion};
ghost use Rattle.rd_commands.specs.Helps.{help_for};
ghost use Rattle.rd_commands.specs.Mistakes.{day_mistake, key_mistake, moment_mistake, place_mistake, zone_mistake, zones_mistake};
ghost use Rattle.rd_commands.specs.Output.{AppendsPart};
ghost use Rattle.rd_commands.specs.Printed.{blanked, refusal_line, words_after};
ghost use Rattle.rd_commands.specs.Refusals.{status_of};
ghost use Rattle.rd_commands.specs.RefusalLines.{Tells};
ghost use Rattle.rd_commands.specs.Versions.{RefusesVersion, version_line};
ghost use Rattle.rd_commands.specs.declared.refusal.Refusal.TheVariants.{Device, NoMemory};
ghost use Rattle.rd_commands.specs.declared.words.Unread.TheVariants as Unread;

use crate::files::Files;
use crate::help::tell_help;
use crate::output::write_bytes;
use crate::refusal::Refusal;
use crate::version::tell_version;
use crate::words::Unread;
use clap::error::ErrorKind;
use rd_volume::{FaultWords, fault_words};
use std::io::Write;
use std::process::ExitCode;

/// What it says about a text that is no rule for clocks.
const ZONE_MISTAKE: &[u8] =
    b"error: --zone takes a rule as POSIX writes it, as in UTC0 or CET-1CEST,M3.5.0,M10.5.0/3; for a place, --zone-file /usr/share/zoneinfo/Europe/Prague\n\nFor more information, try '--help'.\n";

/// What it says about a day or an accession that does not go with what `show` shows.
const DAY_MISTAKE: &[u8] =
    b"error: --on takes a date, as in 2030-01-01; 'show verdicts' needs it, and 'show' of anything else takes neither --on nor --acc\n\nFor more information, try '--help'.\n";

/// What it says about words of `serve` that name two places.
const PLACE_MISTAKE: &[u8] =
    b"error: 'serve' needs --port or --socket, and takes only one of them\n\nFor more information, try '--help'.\n";

/// What it says about a key that is there twice, or not at all.
const KEY_MISTAKE: &[u8] =
    b"error: give a key by --key or by --key-file, and only by one of them\n\nFor more information, try '--help'.\n";

/// What it says about a rule for clocks that is there twice.
const ZONES_MISTAKE: &[u8] =
    b"error: give the rule of the clocks by --zone or by --zone-file, and only by one of them\n\nFor more information, try '--help'.\n";

/// What it says about a text that is no moment.
const MOMENT_MISTAKE: &[u8] =
    b"error: --at takes seconds since 1970, 0 to 9223372036854775807, or a date, as in 2030-01-01\n\nFor more information, try '--help'.\n";

/// Writes a word after a blank.
///
/// It fails with `Device` when a write fails: then a front part was written.
fn write_word<E: Write>(errors: &mut E, word: &str) -> Result<(), Refusal>
    ensures done { OnOk result (Appends (E.contents errors.old) (E.contents errors.new)
        (codes " " ++ word.now)) }
    ensures cut { OnErr result (AppendsPart (E.contents errors.old) (E.contents errors.new)
        (codes " " ++ word.now)) }
{
    write_bytes(errors, b" ")?;
    write_bytes(errors, word.as_bytes())
}

/// Writes words, each after a blank.
///
/// It fails with `Device` when a write fails: then a front part was written.
fn write_words<E: Write>(errors: &mut E, words: FaultWords) -> Result<(), Refusal>
    ensures done { OnOk result (Appends (E.contents errors.old) (E.contents errors.new)
        (blanked (words_left words))) }
    ensures cut { OnErr result (AppendsPart (E.contents errors.old) (E.contents errors.new)
        (blanked (words_left words))) }
{
    for word in words {
        write_word(errors, word)?;
    }
    Ok(())
}

/// Writes the words that follow the name of a refusal, each after a blank: those of the faults of a file.
///
/// It fails with `Device` when a write fails: then a front part was written.
fn write_words_after<E: Write>(errors: &mut E, refused: Refusal) -> Result<(), Refusal>
    ensures done { OnOk result (Appends (E.contents errors.old) (E.contents errors.new)
        (blanked (words_after refused))) }
    ensures cut { OnErr result (AppendsPart (E.contents errors.old) (E.contents errors.new)
        (blanked (words_after refused))) }
{
    match refused {
        Refusal::Faulty(kind, faults) => write_words(errors, fault_words(kind, faults)),
        _ => Ok(()),
    }
}

/// Writes the line that names a refusal.
///
/// It fails with `Device` when a write fails: then a front part was written.
fn write_line<E: Write>(errors: &mut E, refused: Refusal) -> Result<(), Refusal>
    ensures done { OnOk result (Appends (E.contents errors.old) (E.contents errors.new)
        (refusal_line refused)) }
    ensures cut { OnErr result (AppendsPart (E.contents errors.old) (E.contents errors.new)
        (refusal_line refused)) }
{
    write_bytes(errors, b"desk:")?;
    write_word(errors, refused.name())?;
    write_words_after(errors, refused)?;
    write_bytes(errors, b"\n")
}

/// Writes a refusal as one line, and gives its status. A write that fails ends the line, and
/// nothing reports it.
pub fn tell_refusal<E: Write>(refused: Refusal, errors: &mut E) -> u8
    ensures status { result ≡ status_of refused }
    ensures written { AppendsPart (E.contents errors.old) (E.contents errors.new) (refusal_line refused) }
{
    let _ = write_line(errors, refused);
    refused.status()
}

/// The exit status of the process: that of `run` if it ran, and otherwise that of the refusal,
/// which it writes to `errors`.
pub fn exit_code<E: Write>(ran: Result<u8, Refusal>, errors: &mut E) -> ExitCode
    ensures ran { IfOk ran (λ status. exit_status result ≡ status) }
    ensures silent { OnOk ran (Keeps (E.contents errors.old) (E.contents errors.new)) }
    ensures refused { IfErr ran (λ refused. exit_status result ≡ status_of refused) }
    ensures written { IfErr ran (λ refused.
        AppendsPart (E.contents errors.old) (E.contents errors.new) (refusal_line refused)) }
{
    let status = match ran {
        Ok(status) => status,
        Err(refused) => tell_refusal(refused, errors),
    };
    ExitCode::from(status)
}

/// Writes what is wrong with words that `clap` accepts, and gives the status. Nothing reports a write that fails.
fn tell_mistake<E: Write>(text: &[u8], errors: &mut E) -> u8
    ensures status { result ≡ 2 }
    ensures written { AppendsPart (E.contents errors.old) (E.contents errors.new) text.now }
{
    let _ = write_bytes(errors, text);
    2
}

/// Writes the help that the words ask for, the version, what is wrong with the words, or that memory ran out, and gives
/// the status: 0 if the words ask for help or the version and it is written and flushed, 2 if the words are no command, otherwise 3.
pub fn tell_unread<F: Files, W: Write, E: Write>(
    words: &[&str],
    unread: Unread,
    output: &mut W,
    errors: &mut E,
) -> u8
    ensures status { result ≤ 3 }
    ensures not_refused { result ≢ 1 }
    ensures shown { result ≡ 0 → (IsHelp unread
        × Appends (W.contents output.old) (W.contents output.new) (help_for (map (λ word. word.now) words.now)))
        ⊎ (IsVersion unread × Appends (W.contents output.old) (W.contents output.new) version_line) }
    ensures flushed { result ≡ 0 → IsTrue (F.flushed (W.contents output.new)) }
    ensures silent { result ≡ 0 → Keeps (E.contents errors.old) (E.contents errors.new) }
    ensures usage { result ≡ 2 → Keeps (W.contents output.old) (W.contents output.new) }
    ensures mistake { (error : Error) → unread ≡ Unread.Clap error → kind_of error ≢ DisplayHelp
        → kind_of error ≢ DisplayVersion → kind_of error ≢ OutOfMemory → result ≡ 2 }
    ensures mistaken { IsMistake unread → result ≡ 2 }
    ensures one_of { (result ≡ 2) ⊎ (IsHelp unread ⊎ (IsVersion unread ⊎ IsForMemory unread)) }
    ensures place_mistake { unread ≡ Unread.Place → AppendsPart (E.contents errors.old) (E.contents errors.new) place_mistake }
    ensures mistake_written { unread ≡ Unread.Usage → AppendsPart (E.contents errors.old) (E.contents errors.new) zone_mistake }
    ensures day_mistake { unread ≡ Unread.Day → AppendsPart (E.contents errors.old) (E.contents errors.new) day_mistake }
    ensures key_mistake { unread ≡ Unread.Key → AppendsPart (E.contents errors.old) (E.contents errors.new) key_mistake }
    ensures zones_mistake { unread ≡ Unread.Zones → AppendsPart (E.contents errors.old) (E.contents errors.new) zones_mistake }
    ensures moment_mistake { unread ≡ Unread.Moment → AppendsPart (E.contents errors.old) (E.contents errors.new) moment_mistake }
    ensures memory { IsForMemory unread
        → (result ≡ 3) × Keeps (W.contents output.old) (W.contents output.new) }
    ensures no_memory { IsForMemory unread
        → AppendsPart (E.contents errors.old) (E.contents errors.new) (refusal_line NoMemory) }
    ensures written { result ≡ 3
        → Tells (λ _. ⊤) 3 (E.contents errors.old) (E.contents errors.new) }
    ensures help { IsHelp unread → result ≢ 0
        → (result ≡ 3) × Tells (λ refusal. (refusal ≡ Device)
        × AppendsPart (W.contents output.old) (W.contents output.new) (help_for (map (λ word. word.now) words.now))) 3
        (E.contents errors.old) (E.contents errors.new) }
    ensures version { IsVersion unread → result ≢ 0
        → (result ≡ 3) × Tells (RefusesVersion (W.contents output.old) (W.contents output.new)) 3
        (E.contents errors.old) (E.contents errors.new) }
{
    match unread {
        Unread::NoMemory => tell_refusal(Refusal::NoMemory, errors),
        Unread::Usage => {
            let _ = write_bytes(errors, ZONE_MISTAKE);
            2
        }
        Unread::Day => {
            let _ = write_bytes(errors, DAY_MISTAKE);
            2
        }
        Unread::Place => {
            let _ = write_bytes(errors, PLACE_MISTAKE);
            2
        }
        Unread::Key => tell_mistake(KEY_MISTAKE, errors),
        Unread::Zones => tell_mistake(ZONES_MISTAKE, errors),
        Unread::Moment => tell_mistake(MOMENT_MISTAKE, errors),
        Unread::Clap(error) => {
            let written = match error.kind() {
                ErrorKind::DisplayHelp => tell_help::<F, W>(words, output),
                ErrorKind::DisplayVersion => tell_version::<F, W>(output),
                ErrorKind::OutOfMemory => return tell_refusal(Refusal::NoMemory, errors),
                _ => {
                    let _ = write!(errors, "{error}");
                    return 2;
                }
            };
            match written {
                Ok(()) => 0,
                Err(refused) => tell_refusal(refused, errors),
            }
        }
    }
}
