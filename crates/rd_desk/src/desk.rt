//! The desk: who sees what, by which rule, and how the tables change.

ghost use Rattle.std.specs.Prelude.{◌≡◌, ◌↔◌, Ok, IsOk, IfOk, IfErr, MatchBool, None, OnErr};
ghost use Rattle.rd_policy.specs.Days.{HasDay, IsDay};
ghost use Rattle.rd_policy.specs.Zones.{day_number};
ghost use Rattle.rd_store.specs.Held.{LeavesOpen, Reads, desk};
ghost use Rattle.rd_store.specs.Latest.{HasCheckAfter, HasNoCheckAfter};
ghost use Rattle.rd_desk.specs.Calls.{IsResponseAfter, IsWritten, MakesOneChange, MakesResponse};
ghost use Rattle.rd_protocol.specs.Requests.{IsForStaff, IsRequest};
ghost use Rattle.rd_desk.specs.Served.{Responds, Serves};
ghost use Rattle.rd_desk.specs.Shelving.{WouldAnswer};

use crate::answers::{answer, may_ask};
use crate::asking::{Unavailable, audience};
use crate::queries::Caller;
use crate::would_take::{Shelf, Shelved, would_take};
use rd_policy::{DayFault, Zone, day_of};
use rd_protocol::{Refusal, Reply, Request, Response, reply_text};
use rd_store::Store;
use sqlite::Alter;
use std::alloc::Global;

/// The answer to a request on a day. Where a caller without a key asks what only the staff may, it
/// refuses this and does not touch the store.
fn response_to<S: Alter>(
    store: &mut Store<S>,
    alloc: Global,
    day: i32,
    request: &Request,
) -> Result<Response, Unavailable>
    requires fits { IsRequest request.now.what }
    requires day { IsDay day }
    ensures makes { MakesResponse S.Store store.old store.new day request.now result }
    ensures one_change { MakesOneChange S.Store store.old store.new day request.now.what (λ stored. IsResponseAfter stored result) }
    ensures ends_open { (request.now.badge ≡ None → ¬ IsForStaff request.now.what) → LeavesOpen S.Store store.new result }
    ensures turned_away { request.now.badge ≡ None → IsForStaff request.now.what → (result ≡ Ok (Response.Refused Refusal.StaffOnly)) × (store.new ≡ store.old) }
{
    let Some(audience) = audience(store, &request.badge)? else {
        return Ok(Response::Refused(Refusal::UnknownKey));
    };
    // Whatever is answered, a crash before the next call leaves the desk as it is here.
    store.between_calls();
    if !may_ask(audience, &request.what) {
        return Ok(Response::Refused(Refusal::StaffOnly));
    }
    answer(store, alloc, &Caller { audience, day }, &request.what)
}

/// The reply that gives an answer of `Desk::respond`; if there is no answer, or no memory for the reply, it says that
/// the desk is unavailable.
pub fn reply_with(alloc: Global, answer: Result<Response, Unavailable>) -> Reply
    ensures { IsWritten answer result }
{
    match answer {
        Ok(Response::Done) => reply_text::done(),
        Ok(Response::Checked(outcome)) => reply_text::checked(outcome),
        Ok(answer) => match reply_text::reply_to(alloc, answer) {
            Ok(reply) => reply,
            Err(_) => reply_text::unavailable(),
        },
        Err(_) => reply_text::unavailable(),
    }
}

/// The desk over its store, and the zone of its clocks.
#[derive(Drop)]
pub struct Desk<S: Alter> {
    /// Its store, whose every call is one that the desk may make.
    pub store: Store<S>,
    zone: Zone,
}

impl<S: Alter> Desk<S> {
    /// A desk over a store, with the clocks of a zone. It does not touch the store.
    pub fn new(store: Store<S>, zone: Zone) -> Desk<S>
        ensures store { result.store ≡ store }
        ensures zone { result.zone ≡ zone }
    {
        Desk { store, zone }
    }

    /// The day of a moment by the desk's clocks, counted from 1970-01-01. The moment is in seconds since
    /// 1970-01-01T00:00:00 UTC.
    ///
    /// It fails with `OutOfRange` exactly when the moment is before 0001-01-03T00:00:00 UTC or
    /// after 9999-12-29T23:59:59 UTC.
    pub fn day(&self, seconds: i64) -> Result<i32, DayFault>
        ensures taken { IsOk result ↔ HasDay seconds }
        ensures day { IfOk result (λ day. day ≡ day_number seconds self.now.zone) }
        ensures in_range { IfOk result IsDay }
        ensures fault { IfErr result (λ fault. fault ≡ DayFault.OutOfRange) }
    {
        day_of(seconds, &self.zone)
    }

    /// Whether the desk has recorded a check of a later day than this one, counted from 1970-01-01; the day may be any
    /// number. It changes nothing.
    ///
    /// It fails with `Unavailable` when the store fails.
    pub fn has_check_after(&mut self, day: i32) -> Result<bool, Unavailable>
        ensures reads { Reads S.Store self.old.store self.new.store result (λ found. MatchBool found
            (HasCheckAfter day (desk S.Store self.old.store)) (HasNoCheckAfter day (desk S.Store self.old.store))) }
        ensures zone { self.new.zone ≡ self.old.zone }
    {
        match self.store.has_check_after(day) {
            Ok(found) => Ok(found),
            Err(_) => Err(Unavailable),
        }
    }

    /// What the desk would answer to a caller with the badge who asks to take in an image, if the images on the shelf had
    /// been taken in before. It changes nothing but the shelf: an image that would be taken in is put there.
    ///
    /// It fails with `Unavailable` when the store fails or `alloc` has no memory.
    pub fn would_take(
        &mut self,
        alloc: Global,
        badge: &[u8; 32],
        image: Shelved,
        bytes: &[u8],
        shelf: &mut Shelf,
    ) -> Result<Response, Unavailable>
        ensures reads { Reads S.Store self.old.store self.new.store result
            (WouldAnswer shelf.old.images.items shelf.new.images.items (desk S.Store self.old.store) badge.now image bytes.now) }
        ensures kept { OnErr result (shelf.new.images.items ≡ shelf.old.images.items) }
        ensures zone { self.new.zone ≡ self.old.zone }
    {
        would_take(&mut self.store, alloc, badge, image, bytes, shelf)
    }

    /// Gives the store back, with the state that it has.
    pub fn into_store(self) -> Store<S>
        ensures { result ≡ self.store }
    {
        let Desk { store, zone: _ } = self;
        store
    }

    /// The answer to a request whose values are within their limits (`Request::fits`), on a day of the years 1 to
    /// 9999, such as `Desk::day` gives, counted from 1970-01-01. A refusal is an answer too. The desk carries out a
    /// command or a check whole or not at all.
    ///
    /// It fails with `Unavailable` when the store fails or `alloc` has no memory. It has changed nothing then,
    /// unless a fault has shut the connection to the database.
    pub fn respond(
        &mut self,
        alloc: Global,
        day: i32,
        request: &Request,
    ) -> Result<Response, Unavailable>
        requires day { IsDay day }
        requires fits { IsRequest request.now.what }
        ensures responds { Responds S.Store self.old.store self.new.store day request.now result }
        ensures zone { self.new.zone ≡ self.old.zone }
    {
        let answer = response_to(&mut self.store, alloc, day, request);
        // While the connection is open, a crash from here on leaves the desk as the answer left it.
        self.store.between_calls();
        answer
    }

    /// The reply to a request whose values are within their limits (`Request::fits`), on a day such as `respond`
    /// takes: it says the answer of `respond` in bytes. Its status is 200, that of a `Refusal`, or 503 when the desk is
    /// unavailable or `alloc` has no memory for the reply. Before a 503 the desk has changed nothing, unless a fault
    /// has shut the connection to the database.
    pub fn answer_on(&mut self, alloc: Global, day: i32, request: &Request) -> Reply
        requires day { IsDay day }
        requires fits { IsRequest request.now.what }
        ensures serves { Serves S.Store self.old.store self.new.store day request.now result }
        ensures zone { self.new.zone ≡ self.old.zone }
    {
        let answer = self.respond(alloc, day, request);
        reply_with(alloc, answer)
    }

    /// The reply to a request whose values are within their limits (`Request::fits`), at a moment that has a day
    /// (`Desk::day`), in seconds since 1970-01-01T00:00:00 UTC. It is the reply of `answer_on` on that day: its status
    /// is 200, that of a `Refusal`, or 503, and before a 503 nothing has changed, unless a fault has shut the connection
    /// to the database.
    pub fn answer(&mut self, alloc: Global, seconds: i64, request: &Request) -> Reply
        requires moment { HasDay seconds }
        requires fits { IsRequest request.now.what }
        ensures serves { Serves S.Store self.old.store self.new.store (day_number seconds self.old.zone) request.now result }
        ensures zone { self.new.zone ≡ self.old.zone }
    {
        let Ok(day) = self.day(seconds) else {
            unreachable!()
        };
        self.answer_on(alloc, day, request)
    }
}
