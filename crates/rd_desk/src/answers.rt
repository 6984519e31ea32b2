//! Who may ask what, and what answers each question and each command.

ghost use Rattle.std.specs.Prelude.{◌≡◌, ◌↔◌, IsTrue};
ghost use Rattle.rd_policy.specs.Days.{IsDay};
ghost use Rattle.rd_desk.specs.Calls.{DoesAsAsked, IsResponseAfter, MakesOneChange};
ghost use Rattle.rd_protocol.specs.Requests.{IsForStaff, IsRequest};

use crate::asking::Unavailable;
use crate::commands::{check, drop_key, drop_rule, put_deed, put_image, put_key, put_rule};
use crate::overviews::{catalogue, images};
use crate::queries::{Caller, bytes, listing};
use crate::rehearsals::{rehearse_drop, rehearse_rule};
use crate::staff_lists::{checks, deeds, keys, takedowns};
use crate::surveys::survey;
use crate::verdicts::{verdicts, verdicts_of_one};
use rd_policy::Audience;
use rd_protocol::{Refusal, Response, What};
use rd_store::Store;
use sqlite::Alter;
use std::alloc::Global;

/// Whether a caller of an audience may ask this.
pub(crate) fn may_ask(audience: Audience, what: &What) -> bool
    ensures { IsTrue result ↔ (IsForStaff what.now → audience ≡ Audience.Staff) }
{
    audience == Audience::Staff || !what.is_for_staff()
}

/// The answer to what a caller who may ask it asks.
pub(crate) fn answer<S: Alter>(
    store: &mut Store<S>,
    alloc: Global,
    caller: &Caller,
    what: &What,
) -> Result<Response, Unavailable>
    requires day { IsDay caller.now.day }
    requires fits { IsRequest what.now }
    ensures does { DoesAsAsked S.Store store.old store.new caller.now.audience caller.now.day what.now result }
    ensures one_change { MakesOneChange S.Store store.old store.new caller.now.day what.now (λ stored. IsResponseAfter stored result) }
{
    // Here the desk is a lawful one, and a crash before the first call leaves it.
    store.between_calls();
    match what {
        What::Images => images(store, alloc, caller),
        What::Listing(acc) => listing(store, alloc, caller, *acc),
        What::Bytes(acc, slot) => bytes(store, alloc, caller, *acc, *slot),
        What::Catalogue => catalogue(store, alloc, caller),
        What::Survey(acc) => survey(store, alloc, *acc),
        What::Check(acc) => check(store, alloc, caller.day, *acc),
        What::Deeds => deeds(store, alloc),
        What::Takedowns => takedowns(store, alloc),
        What::Keys => keys(store, alloc),
        What::Checks => checks(store, alloc),
        What::Today => Ok(Response::Today(caller.day)),
        What::Verdicts(day) => verdicts(store, alloc, *day),
        What::VerdictsOf(day, acc) => verdicts_of_one(store, alloc, *day, *acc),
        What::RehearseRule(day, rule) => rehearse_rule(store, alloc, *day, rule),
        What::RehearseDrop {
            day,
            band,
            scope,
            rank,
        } => rehearse_drop(store, alloc, *day, *band, *scope, *rank),
        What::PutImage {
            acc,
            kind,
            deed,
            digest,
            bytes,
        } => put_image(store, alloc, *acc, *kind, *deed, digest, bytes),
        What::PutDeed { num, donor, signed } => put_deed(store, *num, donor, *signed),
        What::PutRule(rule) => put_rule(store, rule),
        What::DropRule { band, scope, rank } => drop_rule(store, *band, *scope, *rank),
        What::PutKey { digest, audience } => put_key(store, digest, *audience),
        What::DropKey { digest } => drop_key(store, digest),
        What::Unread => Ok(Response::Refused(Refusal::BadBody)),
    }
}
