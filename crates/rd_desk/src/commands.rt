//! The commands of the staff, and checks. Each function calls the store to change it at most once, as its last step, and
//! says that it is done only after Ok.

ghost use Rattle.std.specs.Prelude.{◌≡◌, ◌≢◌, length, ℤ};
ghost use Rattle.sha2.specs.Sha256.{sha256};
ghost use Rattle.rd_geometry.specs.Kinds.{size_of};
ghost use Rattle.rd_policy.specs.Days.{IsDay};
ghost use Rattle.rd_policy.specs.Rules.{IsRule, IsScope};
ghost use Rattle.rd_holdings.specs.Lawful.{IsDeed};
ghost use Rattle.rd_desk.specs.Calls.{Carries, IsOneChange, IsResponseAfter, MakesOneChange, missing_of};

use crate::asking::{Unavailable, has_deed};
use rd_geometry::{Items, Kind, Text};
use rd_policy::{Audience, Band, Rule};
use rd_protocol::{Refusal, Response, What, check_row, has_digest};
use rd_store::{Store, StoreFault};
use sqlite::Alter;
use std::alloc::Global;

/// The refusal when the accession of a takedown, or the deed of a rule, is not there.
pub(crate) fn missing(band: Band) -> Refusal
    ensures { result ≡ missing_of band }
{
    match band {
        Band::Takedown => Refusal::NoAccession,
        Band::Deed => Refusal::NoDeed,
    }
}

/// Puts a deed; it replaces the one that has its number.
pub(crate) fn put_deed<S: Alter>(
    store: &mut Store<S>,
    num: u32,
    donor: &Text,
    signed: i32,
) -> Result<Response, Unavailable>
    requires deed { IsDeed num (record { donor = donor.now; signed = signed }) }
    ensures carries { (day : ℤ) → Carries S.Store store.old store.new day (What.PutDeed num donor.now signed) result }
    ensures change { (day : ℤ) → IsOneChange S.Store store.old store.new day (What.PutDeed num donor.now signed) (λ stored. IsResponseAfter stored result) }
{
    store.put_deed(num, donor.as_str(), signed)?;
    Ok(Response::Done)
}

/// Puts a rule; it replaces the one of the same accession or deed at its rank. A takedown is refused if there is no such
/// accession, a rule of a deed if there is no such deed.
pub(crate) fn put_rule<S: Alter>(store: &mut Store<S>, rule: &Rule) -> Result<Response, Unavailable>
    requires rule { IsRule rule.now }
    ensures carries { (day : ℤ) → Carries S.Store store.old store.new day (What.PutRule rule.now) result }
    ensures change { (day : ℤ) → IsOneChange S.Store store.old store.new day (What.PutRule rule.now) (λ stored. IsResponseAfter stored result) }
{
    match store.put_rule(rule) {
        Ok(()) => Ok(Response::Done),
        Err(StoreFault::Missing) => Ok(Response::Refused(missing(rule.band))),
        Err(StoreFault::Conflict | StoreFault::Sql) => Err(Unavailable),
    }
}

/// Takes a rule away.
pub(crate) fn drop_rule<S: Alter>(
    store: &mut Store<S>,
    band: Band,
    scope: u32,
    rank: u16,
) -> Result<Response, Unavailable>
    ensures carries { (day : ℤ) → Carries S.Store store.old store.new day (What.DropRule band scope rank) result }
    ensures change { (day : ℤ) → IsOneChange S.Store store.old store.new day (What.DropRule band scope rank) (λ stored. IsResponseAfter stored result) }
{
    match store.drop_rule(band, scope, rank) {
        Ok(()) => Ok(Response::Done),
        Err(StoreFault::Missing) => Ok(Response::Refused(missing(band))),
        Err(StoreFault::Conflict | StoreFault::Sql) => Err(Unavailable),
    }
}

/// Puts a desk key.
pub(crate) fn put_key<S: Alter>(
    store: &mut Store<S>,
    digest: &[u8; 32],
    audience: Audience,
) -> Result<Response, Unavailable>
    requires key { audience ≢ Audience.Public }
    ensures carries { (day : ℤ) → Carries S.Store store.old store.new day (What.PutKey digest.now audience) result }
    ensures change { (day : ℤ) → IsOneChange S.Store store.old store.new day (What.PutKey digest.now audience) (λ stored. IsResponseAfter stored result) }
{
    match store.put_key(digest, audience) {
        Ok(()) => Ok(Response::Done),
        Err(StoreFault::Conflict) => Ok(Response::Refused(Refusal::Conflict)),
        Err(StoreFault::Missing | StoreFault::Sql) => Err(Unavailable),
    }
}

/// Takes a desk key away.
pub(crate) fn drop_key<S: Alter>(
    store: &mut Store<S>,
    digest: &[u8; 32],
) -> Result<Response, Unavailable>
    ensures carries { (day : ℤ) → Carries S.Store store.old store.new day (What.DropKey digest.now) result }
    ensures change { (day : ℤ) → IsOneChange S.Store store.old store.new day (What.DropKey digest.now) (λ stored. IsResponseAfter stored result) }
{
    match store.drop_key(digest) {
        Ok(()) => Ok(Response::Done),
        Err(StoreFault::Conflict) => Ok(Response::Refused(Refusal::Conflict)),
        Err(StoreFault::Missing | StoreFault::Sql) => Err(Unavailable),
    }
}

/// Puts an image whose length and SHA-256 have been checked.
fn commit_image<S: Alter>(
    store: &mut Store<S>,
    alloc: Global,
    acc: u32,
    kind: Kind,
    deed: u32,
    digest: &[u8; 32],
    bytes: &Items<u8>,
) -> Result<Response, Unavailable>
    requires scope { IsScope acc }
    requires sized { length bytes.now ≡ size_of kind }
    requires same { sha256 bytes.now ≡ digest.now }
    ensures carries { (day : ℤ) → Carries S.Store store.old store.new day (What.PutImage acc kind deed digest.now bytes.now) result }
    ensures change { (day : ℤ) → IsOneChange S.Store store.old store.new day (What.PutImage acc kind deed digest.now bytes.now) (λ stored. IsResponseAfter stored result) }
{
    match store.put_image(alloc, acc, kind, deed, digest, bytes.as_slice()) {
        Ok(()) => Ok(Response::Done),
        Err(StoreFault::Missing) => Ok(Response::Refused(Refusal::NoDeed)),
        Err(StoreFault::Conflict) => Ok(Response::Refused(Refusal::Conflict)),
        Err(StoreFault::Sql) => Err(Unavailable),
    }
}

/// Puts an image. It computes the SHA-256 of the bytes at most once, and asks for the deed once: the store asks as it
/// puts the image, or the desk asks here where the bytes are wrong, because `no-deed` comes before `wrong-size` and `digest-differs`.
pub(crate) fn put_image<S: Alter>(
    store: &mut Store<S>,
    alloc: Global,
    acc: u32,
    kind: Kind,
    deed: u32,
    digest: &[u8; 32],
    bytes: &Items<u8>,
) -> Result<Response, Unavailable>
    requires scope { IsScope acc }
    ensures carries { (day : ℤ) → Carries S.Store store.old store.new day (What.PutImage acc kind deed digest.now bytes.now) result }
    ensures one_change { (day : ℤ) → MakesOneChange S.Store store.old store.new day (What.PutImage acc kind deed digest.now bytes.now) (λ stored. IsResponseAfter stored result) }
{
    // If the put is refused below, a crash leaves the desk as it is here.
    store.between_calls();
    if bytes.as_slice().len() != kind.size() {
        if has_deed(store, deed)? {
            return Ok(Response::Refused(Refusal::WrongSize));
        }
        return Ok(Response::Refused(Refusal::NoDeed));
    }
    if !has_digest(bytes.as_slice(), digest) {
        if has_deed(store, deed)? {
            return Ok(Response::Refused(Refusal::DigestDiffers));
        }
        return Ok(Response::Refused(Refusal::NoDeed));
    }
    commit_image(store, alloc, acc, kind, deed, digest, bytes)
}

/// Checks the image of an accession, and records the finding under the day.
pub(crate) fn check<S: Alter>(
    store: &mut Store<S>,
    alloc: Global,
    day: i32,
    acc: u32,
) -> Result<Response, Unavailable>
    requires day { IsDay day }
    ensures carries { Carries S.Store store.old store.new day (What.Check acc) result }
    ensures one_change { MakesOneChange S.Store store.old store.new day (What.Check acc) (λ stored. IsResponseAfter stored result) }
{
    let Some(image) = store.image(alloc, acc)? else {
        return Ok(Response::Refused(Refusal::NoAccession));
    };
    let outcome = check_row(image.bytes.as_slice(), &image.digest);
    match store.put_check(acc, day, outcome) {
        Ok(()) => Ok(Response::Checked(outcome)),
        Err(_) => Err(Unavailable),
    }
}
