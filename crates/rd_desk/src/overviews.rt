//! All accessions, one after the other, and what an overview says of each. The overviews that show a caller what they may
//! see are here too. The loop reads all rules at once, and the files of 16 accessions at a time.

ghost use Rattle.std.specs.Prelude.{◌≡◌, ◌∷◌, ◌++◌, [], ℕ, All, IfOk, List, length, map, refl};
ghost use Rattle.std.specs.FinMap.{keys};
ghost use Rattle.std.specs.List.{AllZip};
ghost use Rattle.rd_store.specs.Held.{IsClean, IsOpen, Reads, desk};
ghost use Rattle.rd_holdings.specs.State.{Desk, all_rules};
ghost use Rattle.rd_desk.specs.Calls.{IsResponseTo, SaysMore, StandsAs};
ghost use Rattle.rd_protocol.specs.Queries.{AreLinesOfEach, IsCounted};
ghost use Rattle.rd_protocol.specs.Replies.{IsListing};

use crate::asking::{Unavailable, count};
use crate::queries::{Caller, listed};
use rd_geometry::Items;
use rd_protocol::{ImageLine, Listing, Response, What};
use rd_store::{Indexed, Rulebook, Store};
use sqlite::Alter;
use std::alloc::Global;

/// How many accessions have their files in memory at one time.
const BATCH: usize = 16;

/// What an overview says of accessions.
pub(crate) trait Overview {
    /// What it says of one of them.
    type Line: Drop;

    /// Whether lines are what the overview says of accessions of a desk.
    ghost says: { Self → Desk → List ℕ → List Self.Line → Type 0 };

    /// The lines, and then what is to be said of one more accession.
    fn with_one(
        &self,
        alloc: Global,
        rules: &Rulebook,
        lines: Vec<Self::Line>,
        one: Indexed,
    ) -> Result<Vec<Self::Line>, Unavailable>
        ensures { IfOk result (λ all. SaysMore (says self.now) rules.now one lines.items all.items) };

    /// It says nothing of no accessions.
    ghost none: { (overview : Self) (desk : Desk) → says overview desk [] [] };
}

/// The lines, and then one more.
pub(crate) fn with_line<L: Drop>(lines: Vec<L>, line: L) -> Result<Vec<L>, Unavailable>
    ensures { IfOk result (λ all. all.items ≡ lines.items ++ line ∷ []) }
{
    let mut all = lines;
    let Ok(()) = all.push(line) else {
        return Err(Unavailable);
    };
    Ok(all)
}

/// The lines, and then what an overview says of the accessions of a batch.
fn with_batch<O: Overview>(
    overview: &O,
    alloc: Global,
    rules: &Rulebook,
    lines: Vec<O::Line>,
    batch: Vec<Indexed>,
) -> Result<Vec<O::Line>, Unavailable>
    ensures { IfOk result (λ all. (desk : Desk) (accs : List ℕ) → rules.now ≡ all_rules desk → All (StandsAs desk) batch.items
        → O.says overview.now desk accs lines.items → O.says overview.now desk (accs ++ map (λ one. one.acc) batch.items) all.items) }
{
    let mut all = lines;
    for one in batch {
        all = overview.with_one(alloc, rules, all, one)?;
    }
    Ok(all)
}

/// What an overview says of all accessions. `accessions` is how many there are.
fn over_batches<S: Alter, O: Overview>(
    store: &mut Store<S>,
    alloc: Global,
    overview: &O,
    rules: &Rulebook,
    accessions: usize,
) -> Result<Vec<O::Line>, Unavailable>
    requires open_if_clean { IsClean S.Store store.old → IsOpen S.Store store.old }
    requires rules { IsOpen S.Store store.old → rules.now ≡ all_rules (desk S.Store store.old) }
    requires count { IsOpen S.Store store.old → accessions ≡ length (keys (desk S.Store store.old).images) }
    ensures { Reads S.Store store.old store.new result (λ lines. O.says overview.now (desk S.Store store.old) (keys (desk S.Store store.old).images) lines.items) }
{
    let mut lines = Vec::new(alloc);
    // The loop begins with a store at rest: a crash leaves the desk as it is.
    store.between_calls();
    for at in 0..accessions / BATCH + 1 {
        let batch = store.batch(alloc, BATCH * at, BATCH)?;
        lines = with_batch(overview, alloc, rules, lines, batch)?;
    }
    Ok(lines)
}

/// What an overview says of all accessions, ascending.
pub(crate) fn over_all<S: Alter, O: Overview>(
    store: &mut Store<S>,
    alloc: Global,
    overview: &O,
) -> Result<Items<O::Line>, Unavailable>
    ensures { Reads S.Store store.old store.new result (λ lines. O.says overview.now (desk S.Store store.old) (keys (desk S.Store store.old).images) lines) }
{
    let rules = store.rulebook(alloc)?;
    let accessions = count(store, alloc)?;
    Ok(Items::of(over_batches(store, alloc, overview, &rules, accessions)?))
}

/// An accession, with its listed files.
fn listing_of(
    alloc: Global,
    rules: &Rulebook,
    caller: &Caller,
    one: Indexed,
) -> Result<Listing, Unavailable>
    ensures { IfOk result (λ listing. (desk : Desk) → rules.now ≡ all_rules desk → StandsAs desk one → IsListing desk caller.now.audience caller.now.day one.acc listing) }
{
    let (takedowns, others) = rules.under(one.acc, one.deed);
    let files = listed(alloc, takedowns, others, caller, one.files)?;
    Ok(Listing {
        accession: one.acc,
        deed: one.deed,
        kind: one.kind,
        files,
    })
}

/// The line for an accession: its number, its deed, its kind, and how many of its files are listed.
fn image_line(
    alloc: Global,
    rules: &Rulebook,
    caller: &Caller,
    one: Indexed,
) -> Result<ImageLine, Unavailable>
    ensures { IfOk result (λ line. (desk : Desk) → rules.now ≡ all_rules desk → StandsAs desk one → IsCounted desk caller.now.audience caller.now.day one.acc line) }
{
    let listing = listing_of(alloc, rules, caller, one)?;
    Ok(ImageLine {
        accession: listing.accession,
        deed: listing.deed,
        kind: listing.kind,
        files: listing.files.as_slice().len(),
    })
}

/// The accessions with at least one file that is listed to a caller.
#[derive(Clone, Copy)]
struct ImagesSeen {
    caller: Caller,
}

impl Overview for ImagesSeen {
    type Line = ImageLine;

    ghost says = { λ images desk accs lines. AreLinesOfEach desk images.caller.audience images.caller.day accs lines };

    fn with_one(
        &self,
        alloc: Global,
        rules: &Rulebook,
        lines: Vec<ImageLine>,
        one: Indexed,
    ) -> Result<Vec<ImageLine>, Unavailable>
        ensures { IfOk result (λ all. SaysMore (λ desk accs lines. AreLinesOfEach desk self.now.caller.audience self.now.caller.day accs lines) rules.now one lines.items all.items) }
    {
        let line = image_line(alloc, rules, &self.caller, one)?;
        if line.files == 0 {
            return Ok(lines);
        }
        with_line(lines, line)
    }

    ghost none = { λ images desk. refl };
}

/// All accessions, each with the files that are listed to a caller.
#[derive(Clone, Copy)]
struct CatalogueSeen {
    caller: Caller,
}

impl Overview for CatalogueSeen {
    type Line = Listing;

    ghost says = { λ catalogue desk accs lines. AllZip (IsListing desk catalogue.caller.audience catalogue.caller.day) accs lines };

    fn with_one(
        &self,
        alloc: Global,
        rules: &Rulebook,
        lines: Vec<Listing>,
        one: Indexed,
    ) -> Result<Vec<Listing>, Unavailable>
        ensures { IfOk result (λ all. SaysMore (λ desk accs lines. AllZip (IsListing desk self.now.caller.audience self.now.caller.day) accs lines) rules.now one lines.items all.items) }
    {
        let listing = listing_of(alloc, rules, &self.caller, one)?;
        with_line(lines, listing)
    }

    ghost none = { λ catalogue desk. tt };
}

/// The accessions with at least one listed file.
pub(crate) fn images<S: Alter>(
    store: &mut Store<S>,
    alloc: Global,
    caller: &Caller,
) -> Result<Response, Unavailable>
    ensures { Reads S.Store store.old store.new result (IsResponseTo (desk S.Store store.old) caller.now.audience caller.now.day What.Images) }
{
    let images = ImagesSeen { caller: *caller };
    Ok(Response::Images(over_all(store, alloc, &images)?))
}

/// All accessions, each with its listed files.
pub(crate) fn catalogue<S: Alter>(
    store: &mut Store<S>,
    alloc: Global,
    caller: &Caller,
) -> Result<Response, Unavailable>
    ensures { Reads S.Store store.old store.new result (IsResponseTo (desk S.Store store.old) caller.now.audience caller.now.day What.Catalogue) }
{
    let catalogue = CatalogueSeen { caller: *caller };
    Ok(Response::Catalogue(over_all(store, alloc, &catalogue)?))
}
