//! Asks a desk one question: for the catalogue, what a check of an image finds, or what stands.

ghost use Rattle.std.specs.Prelude.{◌≡◌, ◌≢◌, ◌⊎◌, Some, false, option_map, true, ℕ};
ghost use Rattle.std.specs.Prelude.{IfErr, IfOk, IsSome, IsTrue, OnOk};
ghost use Rattle.std.specs.String.{string_bytes};
ghost use Rattle.sha2.specs.Sha256.{sha256};
ghost use Rattle.rd_policy.specs.Days.{IsDay};
ghost use Rattle.rd_policy.specs.Rules.{IsScope};
ghost use Rattle.rd_holdings.specs.Findings.{outcome_word};
ghost use Rattle.rd_store.specs.Held.{IsOpen, desk as desk_in};
ghost use Rattle.rd_program.specs.Asked.{AsksOn, IsClockOn, IsStillOrRead};
ghost use Rattle.rd_program.specs.Does.{DoesQuestion};
ghost use Rattle.rd_program.specs.Asking.{RefusesOneQuestion, TellsCheck};
ghost use Rattle.rd_commands.specs.Asks.{IsAskable, IsCheck, IsCheckOf};
ghost use Rattle.rd_program.specs.Importing.{accession_line};
ghost use Rattle.rd_protocol.specs.declared.request.What.{What};
ghost use Rattle.rd_program.specs.Leaves.{Checks, GivesBack, LeavesDesk, StepsOf};
ghost use Rattle.rd_program.specs.Leaves.{IsDayAt, IsOfOpenDesk, moment_of};
ghost use Rattle.rd_program.specs.OnTime.{IsBehindOn, IsOnTime, is_dated, must_be_on_time};
ghost use Rattle.rd_program.specs.Serving.{IsClockRefusal, IsDayless};
ghost use Rattle.rd_program.specs.Showing.{Finds, IsDueOn, OfDesk, RefusesShow, Shows};
ghost use Rattle.rd_program.specs.Showing.{asked_of, found_by, request_of, what_to_show};
ghost use Rattle.rd_program.specs.World.{ChangesClock};

use crate::answers::outcome_of;
use crate::asker::{Asker, answer_of, badge_of};
use crate::machine::Machine;
use crate::open_desk::{day_on_time, open_desk, visit_day};
use crate::show::{show, what_of};
use rd_commands::{Done, OneQuestionAsk, Question, Refusal, write_whole};
use rd_desk::{Desk, Outcome, What};
use sqlite::Alter;
use std::alloc::Global;
use std::io::Write;

/// The line that says what a check of the image of an accession found.
fn outcome_line(alloc: Global, acc: u32, found: Outcome) -> Result<String, Refusal>
    ensures line { IfOk result (λ line. string_bytes line ≡ accession_line acc (outcome_word found)) }
    ensures refused { IfErr result (λ refusal. refusal ≡ Refusal.NoMemory) }
{
    let mut line = String::new(alloc);
    let word = found.word();
    write!(line, "{acc} {word}\n")?;
    Ok(line)
}

/// Writes a line that says what a check of the image of an accession finds. It makes the line of each outcome
/// first, so that it needs no memory once the check is recorded. It fails with the refusal of the reply, with
/// `Store` when the desk is unavailable, with `NoMemory`, and with `Device` when a write or the flush fails.
fn check<S: Alter + Drop, M: Machine, W: Write>(
    alloc: Global,
    acc: u32,
    asker: Asker,
    desk: &mut Desk<S>,
    output: &mut W,
) -> Result<Done, Refusal>
    requires day { IsDay asker.day }
    requires within { IsScope acc }
    ensures written { IfOk result (TellsCheck acc (W.contents output.old) (W.contents output.new)) }
    ensures refused { IfErr result (RefusesOneQuestion (W.contents output.old) (W.contents output.new)) }
    ensures flushed { OnOk result (IsTrue (M.flushed (W.contents output.new))) }
    ensures opened { IfErr result IsOfOpenDesk }
    ensures dated { IfErr result (λ refusal. refusal ≢ Refusal.Clock) }
    ensures checks { LeavesDesk S.Store (Checks asker.badge acc (λ day. day ≡ asker.day))
        desk.old.store desk.new.store }
    ensures found { IfOk result (λ done. OfDesk S.Store (Finds (λ day. day ≡ asker.day) (request_of
        asker.badge (asked_of (Question.Check acc))) (found_by done)) desk.old.store desk.new.store) }
    ensures due { IsSome asker.badge → IfErr result (IsDueOn S.Store (λ day. day ≡ asker.day)
        (request_of asker.badge (asked_of (Question.Check acc))) desk.old.store desk.new.store) }
{
    let sound = outcome_line(alloc, acc, Outcome::Sound)?;
    let changed = outcome_line(alloc, acc, Outcome::Changed)?;
    let answered = answer_of(alloc, What::Check(acc), asker, desk);
    let found = outcome_of(&answered)?;
    match found {
        Outcome::Sound => {
            write_whole::<M, W>(output, sound.as_bytes())?;
            Ok(Done::Whole)
        }
        Outcome::Changed => {
            write_whole::<M, W>(output, changed.as_bytes())?;
            Ok(Done::InPart)
        }
    }
}

/// The day on which to ask a desk a question. What `show` shows is the same on every day, so its day need not
/// be on time. It fails as `visit_day` and `day_on_time` do.
fn question_day<S: Alter, M: Machine>(
    ask: &OneQuestionAsk,
    desk: &mut Desk<S>,
    machine: &mut M,
) -> Result<i32, Refusal>
    ensures day { IfOk result
        (IsDayAt (moment_of ask.now.when.seconds (M.seen machine.old).clock) desk.old.zone) }
    ensures on_time { is_dated ask.now.question ≡ true
        → IfOk result (λ day. IsTrue (must_be_on_time ask.now.when.seconds ask.now.when.is_trusting)
        → IsOpen S.Store desk.new.store → IsOnTime day (desk_in S.Store desk.old.store)) }
    ensures reads { IsStillOrRead S.Store desk.old.store desk.new.store }
    ensures zone { desk.new.zone ≡ desk.old.zone }
    ensures frame { ChangesClock (M.seen machine.old) (M.seen machine.new) }
    ensures in_range { IfOk result IsDay }
    ensures dayless { IsDayless (moment_of ask.now.when.seconds (M.seen machine.old).clock) result }
    ensures clock { IfErr result
        (IsClockOn S.Store (is_dated ask.now.question) ask.now.when.seconds desk.old.store desk.new.store) }
    ensures late { IfErr result (IsBehindOn S.Store (is_dated ask.now.question)
        (must_be_on_time ask.now.when.seconds ask.now.when.is_trusting) (moment_of ask.now.when.seconds
        (M.seen machine.old).clock) desk.old.zone desk.old.store desk.new.store) }
    ensures untouched { must_be_on_time ask.now.when.seconds ask.now.when.is_trusting ≡ false
        → desk.new.store ≡ desk.old.store }
    ensures undated { is_dated ask.now.question ≡ false → desk.new.store ≡ desk.old.store }
    ensures refused { IfErr result (λ refusal. IsClockRefusal refusal ⊎ (refusal ≡ Refusal.Store)) }
{
    match ask.question {
        Question::Show(_) => visit_day(ask.when.seconds, desk, machine),
        _ => day_on_time(ask.when, desk, machine),
    }
}

/// Asks an open desk one question, at the moment that the command names, and writes the answer. It fails with
/// `Clock` when the moment has no day, or the clock fails or shows a day more than one day before that of a
/// recorded check, with `Store` when the checks cannot be read, and then as `check` and `show` do.
fn tell_asked<S: Alter + Drop, W: Write, M: Machine>(
    alloc: Global,
    ask: &OneQuestionAsk,
    desk: &mut Desk<S>,
    output: &mut W,
    machine: &mut M,
) -> Result<Done, Refusal>
    requires within { IsAskable ask.now.question }
    ensures in_part { IfOk result (λ done. done ≡ Done.InPart → IsCheck ask.now.question) }
    ensures written { (acc : ℕ) → IsCheckOf acc ask.now.question
        → IfOk result (TellsCheck acc (W.contents output.old) (W.contents output.new)) }
    ensures refused { IfErr result (RefusesOneQuestion (W.contents output.old) (W.contents output.new)) }
    ensures moment { AsksOn S.Store (is_dated ask.now.question) ask.now.when (M.seen machine.old).clock
        desk.old.zone desk.old.store desk.new.store result }
    ensures flushed { OnOk result (IsTrue (M.flushed (W.contents output.new))) }
    ensures steps { LeavesDesk S.Store (StepsOf (option_map sha256 (option_map (λ key. key.now) ask.now.key))
        (IsDayAt (moment_of ask.now.when.seconds (M.seen machine.old).clock) desk.old.zone) ask.now.question)
        desk.old.store desk.new.store }
    ensures shown { (what : What) → what_to_show ask.now.question ≡ Some what → OnOk result (OfDesk S.Store
        (λ stood after. Shows (IsDayAt (moment_of ask.now.when.seconds (M.seen machine.old).clock)
        desk.old.zone) (request_of (option_map sha256 (option_map (λ key. key.now) ask.now.key)) what) stood
        (W.contents output.old) (W.contents output.new)) desk.old.store desk.new.store) }
    ensures not_shown { (what : What) → what_to_show ask.now.question ≡ Some what
        → IfErr result (RefusesShow what (W.contents output.old) (W.contents output.new)) }
    ensures found { (acc : ℕ) → IsCheckOf acc ask.now.question → IfOk result
        (λ done. OfDesk S.Store (Finds (IsDayAt (moment_of ask.now.when.seconds (M.seen machine.old).clock)
        desk.old.zone) (request_of (option_map sha256 (option_map (λ key. key.now) ask.now.key))
        (asked_of (Question.Check acc))) (found_by done)) desk.old.store desk.new.store) }
    ensures due { IsSome ask.now.key ⊎ (ask.now.question ≡ Question.Catalogue) → IfErr result
        (IsDueOn S.Store (IsDayAt (moment_of ask.now.when.seconds (M.seen machine.old).clock) desk.old.zone)
        (request_of (option_map sha256 (option_map (λ key. key.now) ask.now.key)) (asked_of ask.now.question))
        desk.old.store desk.new.store) }
    ensures frame { ChangesClock (M.seen machine.old) (M.seen machine.new) }
{
    let day = question_day(ask, desk, machine)?;
    let badge = badge_of(ask.key);
    let asker = Asker { badge, day };
    match ask.question {
        Question::Catalogue => show::<S, M, W>(alloc, What::Catalogue, asker, desk, output),
        Question::Check(acc) => check::<S, M, W>(alloc, acc, asker, desk, output),
        Question::Show(shown) => show::<S, M, W>(alloc, what_of(shown), asker, desk, output),
    }
}

/// Asks the desk in the file of a store the question of `export`, `check` or `show`, and writes the answer.
/// It fails as `open_desk` does, then as `tell_asked` does. A recorded check stands.
pub(crate) fn ask_once<W: Write, M: Machine>(
    alloc: Global,
    ask: OneQuestionAsk,
    output: &mut W,
    machine: &mut M,
) -> Result<Done, Refusal>
    requires within { IsAskable ask.question }
    ensures in_part { IfOk result (λ done. done ≡ Done.InPart → IsCheck ask.entry.question) }
    ensures does { DoesQuestion M.Disk.Store (M.seen machine.old) (M.seen machine.new) (W.contents output.old)
        (W.contents output.new) ask.entry result }
    ensures flushed { OnOk result (IsTrue (M.flushed (W.contents output.new))) }
    ensures back { GivesBack (M.seen machine.old).shows (M.seen machine.old).left (M.seen machine.new).left }
{
    let mut desk = open_desk(alloc, ask.store, ask.when.zone, machine)?;
    let ended = tell_asked(alloc, &ask, &mut desk, output, machine);
    machine.release(&mut Some(desk.into_store().into_connection()));
    ended
}
