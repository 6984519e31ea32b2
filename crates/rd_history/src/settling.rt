//! Whether what the last entry of a history changes stands in a store, and an entry that takes it back where it does not.

ghost use Rattle.std.specs.Prelude.{◌≡◌, ◌≢◌, ◌↔◌, All, Contains, IsTrue, IfOk, MatchBool, MatchOption, OnOk};
ghost use Rattle.rd_policy.specs.Days.{HasDay};
ghost use Rattle.rd_tables.specs.Connections.{IsClean, IsOpen, LeavesOpen};
ghost use Rattle.rd_store.specs.Held.{Keeps, Reads, desk};
ghost use Rattle.rd_holdings.specs.State.{terms_of};
ghost use Rattle.rd_chain.specs.Held.{lines};
ghost use Rattle.rd_history.specs.Entries.{HasDigests, IsEntry};
ghost use Rattle.rd_history.specs.Histories.{AreLinesOf, IsHistory, MayBeTakenBack, void_of};
ghost use Rattle.rd_history.specs.Left.{LeavesHistory, StayNear};
ghost use Rattle.rd_history.specs.Settled.{IsNear, IsSo, IsTold, Settles, StandsNear, TakesBack};

use crate::entry::{Cause, Change, Entry};
use crate::history::History;
use rd_chain::ChainFault;
use rd_geometry::{NoMemory, Text};
use rd_policy::{Rule, Select};
use rd_store::{Store, StoreFault};
use sqlite::Alter;
use std::alloc::{AllocError, Global};

/// It is not known that a store stands as its history tells: a database failed, memory ran out, or the history is full.
#[derive(Clone, Copy, Debug, PartialEq, Eq)]
pub struct Unsettled;

impl From<StoreFault> for Unsettled {
    fn from(_: StoreFault) -> Unsettled {
        Unsettled
    }
}

impl From<ChainFault> for Unsettled {
    fn from(_: ChainFault) -> Unsettled {
        Unsettled
    }
}

impl From<NoMemory> for Unsettled {
    fn from(_: NoMemory) -> Unsettled {
        Unsettled
    }
}

impl From<AllocError> for Unsettled {
    fn from(_: AllocError) -> Unsettled {
        Unsettled
    }
}

/// Whether two selectors are the same.
fn same_select(one: &Select, other: &Select) -> bool
    ensures { IsTrue result ↔ (one.now ≡ other.now) }
{
    match one {
        Select::All => matches!(other, Select::All),
        Select::Slot(slot) => matches!(other, Select::Slot(it) if it == slot),
        Select::Prefix(text) => matches!(other, Select::Prefix(it) if it.as_str() == text.as_str()),
        Select::User(user) => matches!(other, Select::User(it) if it == user),
        Select::Kind(text) => matches!(other, Select::Kind(it) if it.as_str() == text.as_str()),
    }
}

/// Whether two rules say the same, wherever they stand.
fn same_terms(one: &Rule, other: &Rule) -> bool
    ensures { IsTrue result ↔ (terms_of one.now ≡ terms_of other.now) }
{
    if one.audiences != other.audiences || one.effect != other.effect {
        return false;
    }
    if one.from != other.from || one.until != other.until {
        return false;
    }
    same_select(&one.select, &other.select)
}

/// The first rule with a rank.
fn at_rank(rules: &[Rule], rank: u16) -> Option<&Rule>
    ensures { MatchOption result (All (λ rule. rule.rank ≢ rank) rules.now)
        (λ found. Contains rules.now found.now × (found.now.rank ≡ rank)) }
{
    for rule in rules {
        if rule.rank == rank {
            return Some(rule);
        }
    }
    None
}

/// Whether what a change asks is so in the store.
///
/// It fails with `Sql` where no request asks the change, if the database fails, or if memory runs out.
fn is_so<S: Alter>(alloc: Global, store: &mut Store<S>, change: &Change) -> Result<bool, StoreFault>
    ensures reads { Reads S.Store store.old store.new result (λ so.
        MatchBool so (IsSo change.now (desk S.Store store.old)) (¬ IsSo change.now (desk S.Store store.old))) }
{
    match change {
        Change::Deed { num, donor, signed } => match store.deed(*num)? {
            Some(deed) => Ok(deed.signed == *signed && deed.donor.as_str() == donor.as_str()),
            None => Ok(false),
        },
        Change::Image {
            acc,
            kind,
            deed,
            digest,
        } => match store.image(alloc, *acc)? {
            Some(image) => Ok(
                image.kind == *kind && image.deed == *deed && image.digest == *digest,
            ),
            None => Ok(false),
        },
        Change::Rule(rule) => {
            let rules = store.rules_at(alloc, rule.band, rule.scope)?;
            match at_rank(&rules, rule.rank) {
                Some(found) => Ok(same_terms(found, rule)),
                None => Ok(false),
            }
        }
        Change::DropRule { band, scope, rank } => {
            let rules = store.rules_at(alloc, *band, *scope)?;
            match at_rank(&rules, *rank) {
                Some(_) => Ok(false),
                None => Ok(true),
            }
        }
        Change::Key { digest, audience } => Ok(store.audience_of(digest)? == Some(*audience)),
        Change::DropKey { digest } => Ok(store.audience_of(digest)?.is_none()),
        Change::Begin(_) | Change::Void(_) => {
            // No call was made: a crash leaves the store as it is here.
            store.between_calls();
            Err(StoreFault::Sql)
        }
    }
}

/// An entry that takes the one before it back.
fn void(alloc: Global, moment: i64, cause: Cause) -> Entry
    requires { HasDay moment }
    ensures fits { IsEntry result }
    ensures digests { HasDigests result }
    ensures same { result ≡ void_of moment cause }
{
    Entry {
        badge: None,
        change: Change::Void(cause),
        moment,
        note: Text::of(String::new(alloc)),
        number: 1,
        staff: Text::of(String::new(alloc)),
    }
}

/// Takes the last entry of a history back.
pub(crate) fn take_back<H: Alter>(
    alloc: Global,
    moment: i64,
    cause: Cause,
    history: &mut History<H>,
) -> Result<(), Unsettled>
    requires moment { HasDay moment }
    requires comes { IsOpen H.Store history.old → MayBeTakenBack (lines H.Store history.old) }
    ensures takes { TakesBack H.Store moment cause history.old history.new result }
    ensures history { IsOpen H.Store history.new → IsHistory (lines H.Store history.new) }
    ensures crash { IsOpen H.Store history.old → IsClean H.Store history.new → LeavesHistory H.Store history.new }
{
    let put = history.append(alloc, void(alloc, moment, cause));
    history.between_calls();
    match put {
        Ok(()) => Ok(()),
        Err(_) => Err(Unsettled),
    }
}

/// Takes the last entry of a history back, as found undone, if it is a change alone that does not stand in the store. A
/// change that was asked is never carried out here. The history must be that of the store: of another store nothing is
/// promised, and the last entry may be taken back. If the store stands near the lines of the history, a crash leaves the
/// two near.
///
/// It fails with `Unsettled` if the store or the history fails, or if memory runs out. Nothing has changed then, unless a
/// fault has shut the connection of the history.
pub fn settle<S: Alter, H: Alter>(
    alloc: Global,
    moment: i64,
    store: &mut Store<S>,
    history: &mut History<H>,
) -> Result<(), Unsettled>
    requires { HasDay moment }
    ensures store { Keeps S.Store store.old store.new }
    ensures opens { (IsClean S.Store store.old → IsOpen S.Store store.old) → OnOk result (IsClean S.Store store.new → IsOpen S.Store store.new) }
    ensures told { IsOpen S.Store store.new → IsOpen H.Store history.new → (entries : _) → AreLinesOf entries (lines H.Store history.old)
        → StandsNear (desk S.Store store.old) entries → OnOk result (IsTold (desk S.Store store.old) (lines H.Store history.new)) }
    ensures history { Settles H.Store moment history.old history.new result }
    ensures opens_history { (IsClean H.Store history.old → IsOpen H.Store history.old) → LeavesOpen H.Store history.new result }
    ensures crash { StayNear S.Store H.Store store.old store.new history.old history.new (IsNear (desk S.Store store.old) (lines H.Store history.old)) }
{
    // Until a call is made a crash leaves both as they are here.
    store.between_calls();
    history.between_calls();
    if !history.ends_in_change() {
        return Ok(());
    }
    let Ok(found) = history.last_entry(alloc) else {
        return Err(Unsettled);
    };
    let Some(entry) = found else {
        return Err(Unsettled);
    };
    match is_so(alloc, store, &entry.change) {
        Ok(true) => Ok(()),
        Ok(false) => take_back(alloc, moment, Cause::Lost, history),
        Err(_) => Err(Unsettled),
    }
}
