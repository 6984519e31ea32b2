//! The verdicts on all files for each audience, for the staff. Each function fails with `Unavailable` if the store
//! fails or memory runs out.

ghost use Rattle.std.specs.Prelude.{◌≡◌, ◌++◌, ℤ, All, IfOk, map};
ghost use Rattle.std.specs.List.{AllZip};
ghost use Rattle.rd_policy.specs.Verdicts.{AreInOrder};
ghost use Rattle.rd_store.specs.Held.{Keeps, Reads, desk};
ghost use Rattle.rd_holdings.specs.State.{Desk, all_rules};
ghost use Rattle.rd_protocol.specs.Verdicts.{IsDecided, IsVerdictsOf};
ghost use Rattle.rd_desk.specs.Calls.{AreVerdictsAt, Carries, SaysMore, StandsAs};
ghost use Rattle.rd_desk.specs.Rehearsing.{with_verdicts_on};

use crate::asking::{Unavailable, files, load_rules};
use crate::overviews::{Overview, over_all, with_line};
use crate::queries::{Caller, judge_in_turn};
use rd_geometry::Items;
use rd_policy::{Audience, Rule, Verdict};
use rd_protocol::{FileVerdicts, Refusal, Response, Verdicts, What};
use rd_store::{Indexed, Rulebook, Store};
use rd_volume::Found;
use sqlite::Alter;
use std::alloc::Global;

/// The verdicts on a file.
#[derive(Clone, Copy)]
pub(crate) struct AudienceVerdicts {
    /// The verdict for the public.
    pub public: Verdict,
    /// The verdict for the reading room.
    pub room: Verdict,
    /// The verdict for the staff.
    pub staff: Verdict,
}

/// The verdicts of takedowns and rules on a file on a day.
pub(crate) fn verdicts_on(
    takedowns: &[Rule],
    rules: &[Rule],
    day: i32,
    file: &Found,
) -> AudienceVerdicts
    requires order { AreInOrder (takedowns.now ++ rules.now) }
    ensures { IsDecided (takedowns.now ++ rules.now) day (with_verdicts_on file.now result) }
{
    let audience = Audience::Public;
    let public = judge_in_turn(takedowns, rules, &Caller { audience, day }, file);
    let audience = Audience::Room;
    let room = judge_in_turn(takedowns, rules, &Caller { audience, day }, file);
    let audience = Audience::Staff;
    let staff = judge_in_turn(takedowns, rules, &Caller { audience, day }, file);
    AudienceVerdicts {
        public,
        room,
        staff,
    }
}

/// The files, each with the verdicts of takedowns and rules on it on a day.
fn decided(
    alloc: Global,
    takedowns: &[Rule],
    rules: &[Rule],
    day: i32,
    files: Items<Found>,
) -> Result<Items<FileVerdicts>, Unavailable>
    requires order { AreInOrder (takedowns.now ++ rules.now) }
    ensures files { IfOk result (λ lines. map (λ line. line.file) lines ≡ files) }
    ensures decided { IfOk result (All (IsDecided (takedowns.now ++ rules.now) day)) }
{
    let mut lines = Vec::new(alloc);
    for file in files.into_vec() {
        let verdicts = verdicts_on(takedowns, rules, day, &file);
        let line = FileVerdicts {
            file,
            public: verdicts.public,
            room: verdicts.room,
            staff: verdicts.staff,
        };
        let Ok(()) = lines.push(line) else {
            return Err(Unavailable);
        };
    }
    Ok(Items::of(lines))
}

/// An accession, with the verdicts on its files on a day.
fn verdicts_of(
    alloc: Global,
    rules: &Rulebook,
    day: i32,
    indexed: Indexed,
) -> Result<Verdicts, Unavailable>
    ensures { IfOk result (λ verdicts. (desk : Desk) → rules.now ≡ all_rules desk → StandsAs desk indexed → IsVerdictsOf desk day indexed.acc verdicts) }
{
    let (takedowns, others) = rules.under(indexed.acc, indexed.deed);
    let files = decided(alloc, takedowns, others, day, indexed.files)?;
    Ok(Verdicts {
        accession: indexed.acc,
        deed: indexed.deed,
        kind: indexed.kind,
        files,
    })
}

/// The verdicts on the files of an accession on a day; `None` if it does not stand.
fn verdicts_at<S: Alter>(
    store: &mut Store<S>,
    alloc: Global,
    day: i32,
    acc: u32,
) -> Result<Option<Verdicts>, Unavailable>
    ensures { Reads S.Store store.old store.new result (AreVerdictsAt (desk S.Store store.old) day acc) }
{
    let Some(accession) = store.accession(acc)? else {
        return Ok(None);
    };
    let loaded = load_rules(store, alloc, acc, accession)?;
    let found = files(store, alloc, acc)?;
    let files = decided(alloc, &[], loaded.rules.as_slice(), day, found)?;
    Ok(Some(Verdicts {
        accession: acc,
        deed: loaded.deed,
        kind: loaded.kind,
        files,
    }))
}

/// The answer to the staff that gives the verdicts on the files of one accession on a day.
pub(crate) fn verdicts_of_one<S: Alter>(
    store: &mut Store<S>,
    alloc: Global,
    day: i32,
    acc: u32,
) -> Result<Response, Unavailable>
    ensures carries { (visited : ℤ) → Carries S.Store store.old store.new visited (What.VerdictsOf day acc) result }
    ensures keeps { Keeps S.Store store.old store.new }
{
    let Some(one) = verdicts_at(store, alloc, day, acc)? else {
        return Ok(Response::Refused(Refusal::NoAccession));
    };
    Ok(Response::Verdicts(Items::of(with_line(Vec::new(alloc), one)?)))
}

/// All accessions, each with the verdicts on its files on a day.
#[derive(Clone, Copy)]
struct VerdictsOn {
    day: i32,
}

impl Overview for VerdictsOn {
    type Line = Verdicts;

    ghost says = { λ verdicts desk accs lines. AllZip (IsVerdictsOf desk verdicts.day) accs lines };

    fn with_one(
        &self,
        alloc: Global,
        rules: &Rulebook,
        lines: Vec<Verdicts>,
        indexed: Indexed,
    ) -> Result<Vec<Verdicts>, Unavailable>
        ensures { IfOk result (λ all. SaysMore (λ desk accs lines. AllZip (IsVerdictsOf desk self.now.day) accs lines) rules.now indexed lines.items all.items) }
    {
        let verdicts = verdicts_of(alloc, rules, self.day, indexed)?;
        with_line(lines, verdicts)
    }

    ghost none = { λ verdicts desk. tt };
}

/// The answer to the staff that gives the verdicts on all files on a day.
pub(crate) fn verdicts<S: Alter>(
    store: &mut Store<S>,
    alloc: Global,
    day: i32,
) -> Result<Response, Unavailable>
    ensures carries { (visited : ℤ) → Carries S.Store store.old store.new visited (What.Verdicts day) result }
    ensures keeps { Keeps S.Store store.old store.new }
{
    Ok(Response::Verdicts(over_all(store, alloc, &VerdictsOn { day })?))
}
