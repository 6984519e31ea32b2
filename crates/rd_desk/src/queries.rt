//! What a caller may see and read.

ghost use Rattle.std.specs.Prelude.{◌≡◌, ◌++◌, Contains, IfOk, Some};
ghost use Rattle.std.specs.FinMap.{get};
ghost use Rattle.rd_policy.specs.Verdicts.{AreInOrder, IsVerdict};
ghost use Rattle.rd_store.specs.Held.{IsClean, IsOpen, Reads, desk};
ghost use Rattle.rd_holdings.specs.declared.rows.ImageRow.{ImageRow};
ghost use Rattle.rd_volume.specs.Volumes.{IsFound};
ghost use Rattle.rd_desk.specs.Calls.{IsRegistered, IsResponseTo};
ghost use Rattle.rd_protocol.specs.Queries.{AreLinesOf, IsRead, IsWithheld};
ghost use Rattle.rd_protocol.specs.Replies.{AreLines, IsListing};

use crate::asking::{AccessionRules, Unavailable, files, load_rules};
use crate::files::contents;
use rd_geometry::Items;
use rd_policy::{Audience, Effect, Label, Rule, Verdict, decide};
use rd_protocol::{Line, Listing, Refusal, Response, What};
use rd_store::{Accession, Store};
use rd_volume::Found;
use sqlite::Alter;
use std::alloc::Global;

/// Who makes the request, and on which day.
#[derive(Clone, Copy)]
pub(crate) struct Caller {
    pub audience: Audience,
    pub day: i32,
}

#[inline(always)]
fn judge(rules: &[Rule], caller: &Caller, file: &Found) -> Verdict
    requires { AreInOrder rules.now }
    ensures { IsVerdict (Contains rules.now) caller.now.audience caller.now.day file.now result }
{
    decide(rules, caller.audience, caller.day, file)
}

/// The verdict of takedowns on a file, for a caller, and where none of them matches, of rules.
#[inline(always)]
pub(crate) fn judge_in_turn(
    takedowns: &[Rule],
    rules: &[Rule],
    caller: &Caller,
    file: &Found,
) -> Verdict
    requires { AreInOrder (takedowns.now ++ rules.now) }
    ensures { IsVerdict (Contains (takedowns.now ++ rules.now)) caller.now.audience caller.now.day file.now result }
{
    let verdict = judge(takedowns, caller, file);
    match verdict.label {
        Label::Default => judge(rules, caller, file),
        _ => verdict,
    }
}

/// Why the caller may not read a file; `None` if they may. The verdict comes before the class and
/// the faults.
fn withheld(loaded: &AccessionRules, caller: &Caller, file: &Found) -> Option<Refusal>
    requires order { AreInOrder loaded.now.rules }
    ensures { IsWithheld loaded.now.kind loaded.now.rules caller.now.audience caller.now.day file.now result }
{
    let verdict = judge(loaded.rules.as_slice(), caller, file);
    if verdict.effect != Effect::Read {
        return Some(Refusal::Denied(verdict.label));
    }
    if !file.served_class {
        return Some(Refusal::ListedOnly);
    }
    if file.faults != 0 {
        return Some(Refusal::Faulty(loaded.kind, file.faults));
    }
    None
}

/// The answer about a file of an accession. It reads the image only if it serves the file.
fn answer_about<S: Alter>(
    store: &mut Store<S>,
    alloc: Global,
    loaded: &AccessionRules,
    caller: &Caller,
    acc: u32,
    file: Found,
) -> Result<Response, Unavailable>
    requires order { AreInOrder loaded.now.rules }
    requires open_if_clean { IsClean S.Store store.old → IsOpen S.Store store.old }
    ensures { Reads S.Store store.old store.new result (λ answer. (image : ImageRow) → get (desk S.Store store.old).images acc ≡ Some image
        → loaded.now.kind ≡ image.kind → IsFound image.kind image.bytes file
        → IsRead (record { image = image; rules = loaded.now.rules }) caller.now.audience caller.now.day file.slot answer) }
{
    // A file that is withheld takes no call. Then a crash leaves the desk as it is.
    store.between_calls();
    if let Some(refusal) = withheld(loaded, caller, &file) {
        return Ok(Response::Refused(refusal));
    }
    Ok(Response::File(contents(store, alloc, acc, file)?))
}

/// The answer about the file at a slot of an accession.
fn read<S: Alter>(
    store: &mut Store<S>,
    alloc: Global,
    loaded: &AccessionRules,
    caller: &Caller,
    acc: u32,
    slot: u16,
) -> Result<Response, Unavailable>
    requires order { AreInOrder loaded.now.rules }
    ensures { Reads S.Store store.old store.new result (λ answer. (image : ImageRow) → get (desk S.Store store.old).images acc ≡ Some image
        → loaded.now.kind ≡ image.kind
        → IsRead (record { image = image; rules = loaded.now.rules }) caller.now.audience caller.now.day slot answer) }
{
    match store.found_at(alloc, acc, slot)? {
        Some(file) => answer_about(store, alloc, loaded, caller, acc, file),
        None => Ok(Response::Refused(Refusal::NoFile)),
    }
}

/// The bytes of the file at a slot of an accession.
pub(crate) fn bytes<S: Alter>(
    store: &mut Store<S>,
    alloc: Global,
    caller: &Caller,
    acc: u32,
    slot: u16,
) -> Result<Response, Unavailable>
    ensures { Reads S.Store store.old store.new result (IsResponseTo (desk S.Store store.old) caller.now.audience caller.now.day (What.Bytes acc slot)) }
{
    match store.accession(acc)? {
        Some(accession) => {
            let loaded = load_rules(store, alloc, acc, accession)?;
            read(store, alloc, &loaded, caller, acc, slot)
        }
        None => Ok(Response::Refused(Refusal::NoAccession)),
    }
}

/// The files that are listed, each with the verdict of takedowns and rules on it.
pub(crate) fn listed(
    alloc: Global,
    takedowns: &[Rule],
    rules: &[Rule],
    caller: &Caller,
    files: Items<Found>,
) -> Result<Items<Line>, Unavailable>
    requires order { AreInOrder (takedowns.now ++ rules.now) }
    ensures { IfOk result (AreLinesOf (takedowns.now ++ rules.now) caller.now.audience caller.now.day files) }
{
    let mut lines = Vec::new(alloc);
    for file in files.into_vec() {
        let verdict = judge_in_turn(takedowns, rules, caller, &file);
        if verdict.effect != Effect::Deny {
            let Ok(()) = lines.push(Line { file, verdict }) else {
                return Err(Unavailable);
            };
        }
    }
    Ok(Items::of(lines))
}

/// The listed files of an accession.
fn lines<S: Alter>(
    store: &mut Store<S>,
    alloc: Global,
    loaded: &AccessionRules,
    caller: &Caller,
    acc: u32,
) -> Result<Items<Line>, Unavailable>
    requires order { AreInOrder loaded.now.rules }
    ensures { Reads S.Store store.old store.new result (λ lines. (image : ImageRow) → get (desk S.Store store.old).images acc ≡ Some image
        → AreLines image loaded.now.rules caller.now.audience caller.now.day lines) }
{
    let files = files(store, alloc, acc)?;
    listed(alloc, &[], loaded.rules.as_slice(), caller, files)
}

/// An accession that stands, of this kind and this deed, with its listed files.
fn listed_at<S: Alter>(
    store: &mut Store<S>,
    alloc: Global,
    caller: &Caller,
    acc: u32,
    accession: Accession,
) -> Result<Listing, Unavailable>
    requires known { IsOpen S.Store store.old → IsRegistered (desk S.Store store.old) acc accession }
    ensures { Reads S.Store store.old store.new result (IsListing (desk S.Store store.old) caller.now.audience caller.now.day acc) }
{
    let loaded = load_rules(store, alloc, acc, accession)?;
    let files = lines(store, alloc, &loaded, caller, acc)?;
    Ok(Listing {
        accession: acc,
        deed: loaded.deed,
        kind: loaded.kind,
        files,
    })
}

/// The requested accession, with its listed files.
pub(crate) fn listing<S: Alter>(
    store: &mut Store<S>,
    alloc: Global,
    caller: &Caller,
    acc: u32,
) -> Result<Response, Unavailable>
    ensures { Reads S.Store store.old store.new result (IsResponseTo (desk S.Store store.old) caller.now.audience caller.now.day (What.Listing acc)) }
{
    let Some(accession) = store.accession(acc)? else {
        return Ok(Response::Refused(Refusal::NoAccession));
    };
    Ok(Response::Listed(listed_at(store, alloc, caller, acc, accession)?))
}
