//! What the desk asks its store and makes something else of. Where only the error changes, callers
//! ask the store themselves. Each function fails with `Unavailable` if the store fails or memory
//! runs out.

ghost use Rattle.std.specs.Prelude.{◌≡◌, ◌≢◌, ◌++◌, IfOk, None, Ok, Some, is_some, length};
ghost use Rattle.std.specs.FinMap.{get, keys};
ghost use Rattle.rd_policy.specs.Verdicts.{AreInOrder};
ghost use Rattle.rd_store.specs.Held.{IsOpen, Keeps, LeavesOpen, Reads, desk};
ghost use Rattle.rd_store.specs.Index.{AreFilesIn};
ghost use Rattle.rd_protocol.specs.Judged.{audience_of};
ghost use Rattle.rd_holdings.specs.State.{rules_at};
ghost use Rattle.rd_desk.specs.Calls.{AreAccessionRules, IsRegistered};

use rd_geometry::{Items, Kind, NoMemory};
use rd_policy::{Audience, Band, Rule, in_order};
use rd_store::{Accession, Store, StoreFault};
use rd_volume::Found;
use sqlite::Alter;
use std::alloc::{AllocError, Global};

/// The rules for the files of an accession, in order, with the kind of its image and its deed.
#[derive(Drop)]
pub(crate) struct AccessionRules {
    pub kind: Kind,
    pub deed: u32,
    pub rules: Items<Rule>,
}

/// There is no answer: the database failed, or memory ran out.
#[derive(Clone, Copy, Debug, PartialEq, Eq)]
pub struct Unavailable;

impl From<StoreFault> for Unavailable {
    fn from(_: StoreFault) -> Unavailable {
        Unavailable
    }
}

impl From<NoMemory> for Unavailable {
    fn from(_: NoMemory) -> Unavailable {
        Unavailable
    }
}

impl From<AllocError> for Unavailable {
    fn from(_: AllocError) -> Unavailable {
        Unavailable
    }
}

/// The audience of a caller: that of their key, `None` if the desk has no such key, and without a
/// key the public. Without one it does not touch the store.
pub(crate) fn audience<S: Alter>(
    store: &mut Store<S>,
    badge: &Option<[u8; 32]>,
) -> Result<Option<Audience>, Unavailable>
    ensures keeps { Keeps S.Store store.old store.new }
    ensures answer { IsOpen S.Store store.new → IfOk result (λ found. found ≡ audience_of (desk S.Store store.old) badge.now) }
    ensures ends_open { badge.now ≢ None → LeavesOpen S.Store store.new result }
    ensures untouched { badge.now ≡ None → (result ≡ Ok (Some Audience.Public)) × (store.new ≡ store.old) }
{
    match badge {
        Some(digest) => Ok(store.audience_of(digest)?),
        None => {
            // The public has no key to look up. Without a call, a crash leaves the desk as it is.
            store.between_calls();
            Ok(Some(Audience::Public))
        }
    }
}

/// Whether there is a deed with a number.
pub(crate) fn has_deed<S: Alter>(store: &mut Store<S>, num: u32) -> Result<bool, Unavailable>
    ensures reads { Reads S.Store store.old store.new result (λ found. found ≡ is_some (get (desk S.Store store.old).deeds num)) }
{
    Ok(store.deed(num)?.is_some())
}

/// How many accessions there are.
pub(crate) fn count<S: Alter>(store: &mut Store<S>, alloc: Global) -> Result<usize, Unavailable>
    ensures reads { Reads S.Store store.old store.new result (λ count. count ≡ length (keys (desk S.Store store.old).images)) }
{
    Ok(store.accessions(alloc)?.len())
}

/// The files of an accession, by slot; none if it does not stand.
pub(crate) fn files<S: Alter>(
    store: &mut Store<S>,
    alloc: Global,
    acc: u32,
) -> Result<Items<Found>, Unavailable>
    ensures reads { Reads S.Store store.old store.new result (AreFilesIn (get (desk S.Store store.old).images acc)) }
{
    Ok(Items::of(store.found(alloc, acc)?))
}

/// The takedowns of an accession and then the rules of its deed, in order. It tests the order,
/// because nothing is known of a connection that a fault has shut.
fn rules<S: Alter>(
    store: &mut Store<S>,
    alloc: Global,
    acc: u32,
    deed: u32,
) -> Result<Items<Rule>, Unavailable>
    ensures reads { Reads S.Store store.old store.new result (λ rules.
        rules ≡ rules_at (desk S.Store store.old) Band.Takedown acc ++ rules_at (desk S.Store store.old) Band.Deed deed) }
    ensures order { IfOk result AreInOrder }
{
    let rules = store.rules_under(alloc, acc, deed)?;
    if in_order(&rules) {
        Ok(Items::of(rules))
    } else {
        Err(Unavailable)
    }
}

/// The rules for the files of an accession that is there, in order, with its kind and its deed, which
/// the caller knows.
pub(crate) fn load_rules<S: Alter>(
    store: &mut Store<S>,
    alloc: Global,
    acc: u32,
    accession: Accession,
) -> Result<AccessionRules, Unavailable>
    requires known { IsOpen S.Store store.old → IsRegistered (desk S.Store store.old) acc accession }
    ensures reads { Reads S.Store store.old store.new result (AreAccessionRules (desk S.Store store.old) acc) }
    ensures order { IfOk result (λ loaded. AreInOrder loaded.rules) }
{
    let Accession { kind, deed } = accession;
    let rules = rules(store, alloc, acc, deed)?;
    Ok(AccessionRules { kind, deed, rules })
}
