//! A desk that remembers: a change that the staff asks is put into a history before the desk carries it out.

ghost use Rattle.std.specs.Prelude.{◌≡◌, ◌≢◌, ◌↔◌, IfOk, IsErr, IsTrue, None, Ok, OnOk, Some};
ghost use Rattle.rd_policy.specs.Days.{HasDay, IsDay};
ghost use Rattle.rd_policy.specs.Rules.{IsPlainText};
ghost use Rattle.rd_tables.specs.Connections.{IsClean, IsOpen, Lasts, LeavesOpen};
ghost use Rattle.rd_store.specs.Held.{Keeps, desk as desk_of};
ghost use Rattle.rd_chain.specs.Held.{lines};
ghost use Rattle.rd_protocol.specs.Requests.{IsRequest};
ghost use Rattle.rd_desk.specs.Served.{Responds, Serves};
ghost use Rattle.rd_history.specs.Changes as spec;
ghost use Rattle.rd_history.specs.Entries.{HasDigests, IsEntry};
ghost use Rattle.rd_history.specs.Histories.{IsAsked, MayBeTakenBack};
ghost use Rattle.rd_history.specs.Left.{StayNear};
ghost use Rattle.rd_history.specs.Remembered.{Agrees, EndsAs, IsAhead, IsPending, PutsAhead, Remembers, cause_by, entry_of};

use crate::change::change_of;
use crate::entry::{Cause, Change, Entry};
use crate::history::History;
use crate::laws::changes_may_come;
use crate::settling::{Unsettled, settle, take_back};
use rd_desk::{Desk, Refusal, Reply, Request, Response, Unavailable, reply_with, unavailable};
use rd_geometry::{NoMemory, Text};
use rd_policy::Audience;
use rd_store::Store;
use sqlite::Alter;
use std::alloc::Global;

/// When a request came, and what the staff wrote beside it.
#[derive(Clone, Copy)]
pub struct Signature<'a> {
    /// Seconds since 1970-01-01 UTC, with a day in every zone.
    pub moment: i64,
    /// Why, in the words of the staff: at most 1,000 bytes, each a printable character of ASCII or a blank.
    pub note: &'a str,
    /// Who of the staff asks, in their words: of the same bytes as a note.
    pub staff: &'a str,
}

/// The history of a desk that remembers.
#[derive(Drop)]
pub struct Recorder<H: Alter> {
    /// The history.
    pub history: History<H>,
    /// Whether the desk failed after the last entry, so that only its store can tell if that was carried out.
    pub is_unsettled: bool,
}

/// The entry of a change that was asked by a key. It fails only when memory runs out: each digest has 32 bytes.
fn entry(
    alloc: Global,
    signature: Signature<'_>,
    badge: [u8; 32],
    change: Change,
) -> Result<Entry, NoMemory>
    ensures entry { IfOk result (λ entry. entry ≡ entry_of signature.entry badge change) }
    ensures digests { IfOk result HasDigests }
{
    let entry = Entry {
        badge: Some(badge),
        change,
        moment: signature.moment,
        note: Text::of(String::from_str(alloc, signature.note)?),
        number: 1,
        staff: Text::of(String::from_str(alloc, signature.staff)?),
    };
    if entry.has_whole_digests() {
        Ok(entry)
    } else {
        Err(NoMemory)
    }
}

/// Puts an entry of what is asked, once it is settled whether the one before it was carried out.
///
/// It fails with `Unsettled` if the store or the history fails, if the history is full, or if memory runs out. Then no
/// entry is put, unless a fault has shut the connection of the history.
fn put_ahead<S: Alter, H: Alter>(
    alloc: Global,
    store: &mut Store<S>,
    recorder: &mut Recorder<H>,
    entry: Entry,
) -> Result<(), Unsettled>
    requires fits { IsEntry entry }
    requires digests { HasDigests entry }
    requires asked { IsAsked entry.change }
    ensures store { Keeps S.Store store.old store.new }
    ensures opens { (IsClean S.Store store.old → IsOpen S.Store store.old) → OnOk result (IsClean S.Store store.new → IsOpen S.Store store.new) }
    ensures puts { IsOpen H.Store recorder.new.history → PutsAhead recorder.old.is_unsettled recorder.new.is_unsettled
        (lines H.Store recorder.old.history) (lines H.Store recorder.new.history) entry result }
    ensures back { IsOpen H.Store recorder.new.history → OnOk result (MayBeTakenBack (lines H.Store recorder.new.history)) }
    ensures ahead { IsOpen S.Store store.new → IsOpen H.Store recorder.new.history
        → Agrees recorder.old.is_unsettled (desk_of S.Store store.old) (lines H.Store recorder.old.history)
        → IsAhead (desk_of S.Store store.old) (lines H.Store recorder.new.history) entry recorder.new.is_unsettled result }
    ensures ends_open { LeavesOpen H.Store recorder.new.history result }
    ensures crash { IsErr result → StayNear S.Store H.Store store.old store.new recorder.old.history recorder.new.history
        (Agrees recorder.old.is_unsettled (desk_of S.Store store.old) (lines H.Store recorder.old.history)) }
{
    // Where nothing is to be settled there is no call. Then a crash leaves the desk as it is.
    store.between_calls();
    if recorder.is_unsettled {
        settle(alloc, entry.moment, store, &mut recorder.history)?;
        recorder.is_unsettled = false;
    }
    changes_may_come();
    recorder.history.append(alloc, entry)?;
    recorder.history.between_calls();
    Ok(())
}

/// Why an entry of the staff was not carried out, by the refusal.
fn cause_of(refusal: Refusal) -> Cause
    ensures { result ≡ cause_by refusal }
{
    match refusal {
        Refusal::NoAccession => Cause::NoAccession,
        Refusal::NoDeed => Cause::NoDeed,
        Refusal::WrongSize => Cause::WrongSize,
        Refusal::DigestDiffers => Cause::DigestDiffers,
        Refusal::Conflict => Cause::Conflict,
        _ => Cause::Unavailable,
    }
}

/// Whether the answer is that the command is done.
fn is_done(answer: &Result<Response, Unavailable>) -> bool
    ensures { IsTrue result ↔ (answer.now ≡ Ok Response.Done) }
{
    matches!(answer, Ok(Response::Done))
}

/// Has the desk answer a request whose entry was put, and takes the entry back where it refuses.
fn carry_out<S: Alter, H: Alter>(
    alloc: Global,
    day: i32,
    moment: i64,
    desk: &mut Desk<S>,
    recorder: &mut Recorder<H>,
    request: &Request,
) -> Result<Response, Unavailable>
    requires day { IsDay day }
    requires fits { IsRequest request.now.what }
    requires moment { HasDay moment }
    requires comes { IsOpen H.Store recorder.old.history → MayBeTakenBack (lines H.Store recorder.old.history) }
    ensures responds { Responds S.Store desk.old.store desk.new.store day request.now result }
    ensures zone { desk.new.zone ≡ desk.old.zone }
    ensures told { IsOpen S.Store desk.new.store → IsOpen H.Store recorder.new.history
        → (entry : _) → spec.change_of request.now.what ≡ Some entry.change → IsPending (desk_of S.Store desk.old.store) (lines H.Store recorder.old.history) entry
        → Agrees recorder.new.is_unsettled (desk_of S.Store desk.new.store) (lines H.Store recorder.new.history) }
    ensures lasts { Lasts H.Store recorder.old.history recorder.new.history }
    ensures ends { IsOpen H.Store recorder.new.history → EndsAs recorder.new.is_unsettled moment (lines H.Store recorder.old.history) (lines H.Store recorder.new.history) result }
    ensures crash { (entry : _) → spec.change_of request.now.what ≡ Some entry.change → request.now.badge ≢ None
        → StayNear S.Store H.Store desk.old.store desk.new.store recorder.old.history recorder.new.history
        (IsPending (desk_of S.Store desk.old.store) (lines H.Store recorder.old.history) entry) }
{
    // Unless the entry is taken back a crash leaves the history as it is here.
    recorder.history.between_calls();
    let answer = desk.respond(alloc, day, request);
    recorder.is_unsettled = match &answer {
        Ok(Response::Refused(refusal)) => {
            take_back(alloc, moment, cause_of(*refusal), &mut recorder.history).is_err()
        }
        _ => !is_done(&answer),
    };
    answer
}

/// The reply of a desk that remembers to a request whose values are within their limits, on a day such as
/// `Desk::answer_on` takes, which is that of the moment: it is the reply of `Desk::answer_on`, or that the desk is
/// unavailable. Where the staff asks a change, an entry of it is put into the history before, with the words that came
/// beside the request; if the desk refuses, an entry behind it says so. Nobody else adds an entry, and nothing else does.
///
/// It is unavailable also where the history fails or is full. Nothing has changed then. Whatever a crash leaves of the
/// store and of the history, each by itself, the desk stands near the lines, if it stood as the history told.
pub fn answer_on<S: Alter, H: Alter>(
    alloc: Global,
    day: i32,
    signature: Signature<'_>,
    desk: &mut Desk<S>,
    recorder: &mut Recorder<H>,
    request: &Request,
) -> Reply
    requires day { IsDay day }
    requires fits { IsRequest request.now.what }
    requires moment { HasDay signature.moment }
    requires note { IsPlainText 1_000 signature.note.now }
    requires staff { IsPlainText 1_000 signature.staff.now }
    ensures serves { Serves S.Store desk.old.store desk.new.store day request.now result }
    ensures zone { desk.new.zone ≡ desk.old.zone }
    ensures remembers { Remembers S.Store H.Store desk.old.store desk.new.store recorder.old.history recorder.new.history
        recorder.old.is_unsettled recorder.new.is_unsettled day signature.entry request.now result }
{
    // Where no call is made a crash leaves the desk and the history as they are here.
    desk.store.between_calls();
    recorder.history.between_calls();
    let Some(badge) = request.badge else {
        return desk.answer_on(alloc, day, request);
    };
    let Ok(asked) = change_of(alloc, &request.what) else {
        return unavailable();
    };
    let Some(change) = asked else {
        return desk.answer_on(alloc, day, request);
    };
    let Ok(audience) = desk.store.audience_of(&badge) else {
        return unavailable();
    };
    if audience != Some(Audience::Staff) {
        return desk.answer_on(alloc, day, request);
    }
    let Ok(entry) = entry(alloc, signature, badge, change) else {
        return unavailable();
    };
    match put_ahead(alloc, &mut desk.store, recorder, entry) {
        Ok(()) => {
            let answer = carry_out(alloc, day, signature.moment, desk, recorder, request);
            reply_with(alloc, answer)
        }
        Err(Unsettled) => unavailable(),
    }
}
