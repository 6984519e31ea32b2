//! Shows what stands in a desk: the catalogue, and what the staff asks to see.

ghost use Rattle.std.specs.Prelude.{◌≡◌, ◌≢◌, ◌⊎◌, IfErr, IfOk, IsSome, IsTrue, OnOk};
ghost use Rattle.std.specs.Io.KnownBytes.{Appends};
ghost use Rattle.rd_policy.specs.Days.{IsDay};
ghost use Rattle.rd_protocol.specs.Requests.{IsForStaff, IsRequest};
ghost use Rattle.rd_commands.specs.Refusals.{IsDeviceOrMemory};
ghost use Rattle.rd_commands.specs.Shown.{IsShowable};
ghost use Rattle.rd_program.specs.Asking.{RefusesOneQuestion};
ghost use Rattle.rd_program.specs.Leaves.{IsOfOpenDesk, IsSame, LeavesDesk};
ghost use Rattle.rd_program.specs.Showing as spec;
ghost use Rattle.rd_program.specs.Showing.{IsDueOn, IsToShow, OfDesk, RefusesShow, Shows, shown_text};

use crate::answers::answer_to_show;
use crate::asker::{Asker, answer_of};
use crate::machine::Machine;
use rd_commands::{Done, Refusal, Shown, write_whole};
use rd_desk::{Body, Desk, Form, Reply, What, reply_to};
use sqlite::Alter;
use std::alloc::{AllocError, Global};
use std::io::Write;

/// What is asked of a desk to show this.
pub(crate) fn what_of(shown: Shown) -> What
    ensures asks { result ≡ spec.what_of shown }
    ensures fits { IsShowable shown → IsRequest result }
    ensures to_show { IsToShow result }
{
    match shown {
        Shown::Deeds => What::Deeds,
        Shown::Takedowns => What::Takedowns,
        Shown::Keys => What::Keys,
        Shown::Checks => What::Checks,
        Shown::Verdicts(day) => What::Verdicts(day),
        Shown::VerdictsOf(day, acc) => What::VerdictsOf(day, acc),
    }
}

/// Whether what is asked is of one accession, which may not be there.
fn names_accession(what: &What) -> bool
    ensures { result ≡ spec.names_accession what.now }
{
    match what {
        What::VerdictsOf(_, _) => true,
        _ => false,
    }
}

/// The bytes of a body. It fails when memory runs out.
fn bytes_of(alloc: Global, body: &Body) -> Result<Vec<u8>, AllocError>
    ensures { IfOk result (λ bytes. bytes.items ≡ body.now.bytes) }
{
    let mut bytes = Vec::new(alloc);
    for piece in body.pieces() {
        bytes.extend_from_slice(piece)?;
    }
    Ok(bytes)
}

/// Writes the body of a reply, and a line feed after it if it is JSON, and flushes the output. It fails with
/// `NoMemory`, and with `Device` when a write or the flush fails.
fn write_shown<M: Machine, W: Write>(
    alloc: Global,
    reply: &Reply,
    output: &mut W,
) -> Result<(), Refusal>
    ensures done { OnOk result
        (Appends (W.contents output.old) (W.contents output.new) (shown_text reply.now)) }
    ensures refused { IfErr result (RefusesOneQuestion (W.contents output.old) (W.contents output.new)) }
    ensures device { IfErr result IsDeviceOrMemory }
    ensures flushed { OnOk result (IsTrue (M.flushed (W.contents output.new))) }
{
    let mut bytes = bytes_of(alloc, &reply.body)?;
    if reply.form == Form::Json {
        bytes.extend_from_slice(b"\n")?;
    }
    write_whole::<M, W>(output, bytes.as_slice())
}

/// Writes what is asked to be shown, and changes nothing. It fails with the refusal of the caller, with
/// `NoAccession` where it names one that is not there, with `Store`, and as `write_shown` does.
pub(crate) fn show<S: Alter + Drop, M: Machine, W: Write>(
    alloc: Global,
    what: What,
    asker: Asker,
    desk: &mut Desk<S>,
    output: &mut W,
) -> Result<Done, Refusal>
    requires day { IsDay asker.day }
    requires fits { IsRequest what }
    requires to_show { IsToShow what }
    ensures whole { IfOk result (λ done. done ≡ Done.Whole) }
    ensures shown { OnOk result (OfDesk S.Store (λ stood after. Shows (λ day. day ≡ asker.day)
        (record { badge = asker.badge; what = what }) stood
        (W.contents output.old) (W.contents output.new)) desk.old.store desk.new.store) }
    ensures refused { IfErr result (RefusesShow what (W.contents output.old) (W.contents output.new)) }
    ensures due { IsSome asker.badge ⊎ ¬ IsForStaff what → IfErr result (IsDueOn S.Store (λ day.
        day ≡ asker.day) (record { badge = asker.badge; what = what }) desk.old.store desk.new.store) }
    ensures opened { IfErr result IsOfOpenDesk }
    ensures dated { IfErr result (λ refusal. refusal ≢ Refusal.Clock) }
    ensures same { LeavesDesk S.Store IsSame desk.old.store desk.new.store }
    ensures flushed { OnOk result (IsTrue (M.flushed (W.contents output.new))) }
{
    let named = names_accession(&what);
    let answered = answer_of(alloc, what, asker, desk);
    let answer = answer_to_show(named, answered)?;
    let reply = reply_to(alloc, answer)?;
    write_shown::<M, W>(alloc, &reply, output)?;
    Ok(Done::Whole)
}
