//! What the program makes of a desk's answer.

ghost use Rattle.std.specs.Prelude.{◌≡◌, IfErr};
ghost use Rattle.rd_program.specs.Answers as spec;
ghost use Rattle.rd_program.specs.Asking.{IsReplyRefusal};
ghost use Rattle.rd_program.specs.Leaves.{IsOfOpenDesk};
ghost use Rattle.rd_program.specs.Showing.{IsShowRefusal};

use rd_commands::Refusal;
use rd_desk::{Outcome, Refusal as DeskRefusal, Response, Unavailable};

/// The refusal of a command that asks one question, by the desk's reason; `Store` for a reason that it cannot
/// have, such as a missing accession where the question names none.
fn refusal_for(named: bool, reason: DeskRefusal) -> Refusal
    ensures is { result ≡ spec.refusal_for named reason }
    ensures of { IsShowRefusal named result }
    ensures opened { IsOfOpenDesk result }
{
    match reason {
        DeskRefusal::UnknownKey => Refusal::UnknownKey,
        DeskRefusal::StaffOnly => Refusal::StaffOnly,
        DeskRefusal::NoAccession if named => Refusal::NoAccession,
        _ => Refusal::Store,
    }
}

/// An answer to show. It fails with the refusal of the question, which is of one accession or not.
fn if_to_show(named: bool, answer: Response) -> Result<Response, Refusal>
    ensures is { result ≡ spec.if_to_show named answer }
    ensures of { IfErr result (IsShowRefusal named) }
    ensures opened { IfErr result IsOfOpenDesk }
{
    match answer {
        Response::Refused(reason) => Err(refusal_for(named, reason)),
        answer => Ok(answer),
    }
}

/// The answer to show, of one accession or not. It fails as `if_to_show` does, or with `Store` for none.
pub(crate) fn answer_to_show(
    named: bool,
    answer: Result<Response, Unavailable>,
) -> Result<Response, Refusal>
    ensures is { result ≡ spec.answer_to_show named answer }
    ensures of { IfErr result (IsShowRefusal named) }
    ensures opened { IfErr result IsOfOpenDesk }
{
    match answer {
        Ok(answer) => if_to_show(named, answer),
        Err(_) => Err(Refusal::Store),
    }
}

/// What a check found, by an answer. It fails with the desk's refusal, and with `Store` for another answer.
fn outcome_in(answer: &Response) -> Result<Outcome, Refusal>
    ensures is { result ≡ spec.outcome_in answer.now }
    ensures of { IfErr result IsReplyRefusal }
    ensures opened { IfErr result IsOfOpenDesk }
{
    match answer {
        Response::Refused(reason) => Err(refusal_for(true, *reason)),
        Response::Checked(outcome) => Ok(*outcome),
        _ => Err(Refusal::Store),
    }
}

/// What a check found, if there is an answer. It fails as `outcome_in` does, and with `Store` without one.
pub(crate) fn outcome_of(answer: &Result<Response, Unavailable>) -> Result<Outcome, Refusal>
    ensures is { result ≡ spec.outcome_of answer.now }
    ensures of { IfErr result IsReplyRefusal }
    ensures opened { IfErr result IsOfOpenDesk }
{
    match answer {
        Ok(answer) => outcome_in(answer),
        Err(_) => Err(Refusal::Store),
    }
}
