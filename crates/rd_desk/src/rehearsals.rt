//! What a command would change in the effects of a day, for the staff. Nothing is changed: the rules as the command would
//! leave them are made in memory. Each function fails with `Unavailable` if the store fails or memory runs out.

ghost use Rattle.std.specs.Prelude.{◌≡◌, All, MatchOption, ◌++◌, ◌⊎◌, ◌↔◌, ℕ, ℤ, Bool, false, cond, [], ◌∷◌, Contains, IfOk, IfSome, List, Some, is_some, map, option_map};
ghost use Rattle.std.specs.FinMap.{get};
ghost use Rattle.std.specs.List.{flat_map};
ghost use Rattle.std.specs.Option.{option_to_list};
ghost use Rattle.rd_policy.specs.Verdicts.{AreInOrder};
ghost use Rattle.rd_policy.specs.declared.rule.Rule.{Rule as KeptRule};
ghost use Rattle.rd_volume.specs.Volumes.{AreFounds};
ghost use Rattle.rd_store.specs.Held.{IsClean, IsOpen, Keeps, Reads, desk};
ghost use Rattle.rd_protocol.specs.Rehearsals.{differences_of, same_effect};
ghost use Rattle.rd_holdings.specs.RulesFor.{IsAbout};
ghost use Rattle.rd_holdings.specs.State.{Stands, band_code, place_of};
ghost use Rattle.rd_desk.specs.Calls.{Carries, IsRegistered};
ghost use Rattle.rd_desk.specs.Rehearsing.{AddsDifferencesAt, AreDifferencesAt, AreDifferencesOf, AreFileDifferences, IsRehearsed, desk_changed, is_there, place_at, with_verdicts_on};

use crate::asking::{Unavailable, files, has_deed, load_rules};
use crate::commands::missing;
use crate::verdicts::{AudienceVerdicts, verdicts_on};
use rd_geometry::{Items, NoMemory, Text};
use rd_holdings::Accession;
use rd_policy::{Audience, Band, Effect, Rule, Select, Verdict, in_order};
use rd_protocol::{Difference, Refusal, Response, What};
use rd_store::Store;
use rd_volume::Found;
use sqlite::Alter;
use std::alloc::Global;

/// A change of the rules, and the day on which its effects are asked.
#[derive(Clone, Copy)]
pub(crate) struct Rehearsal<'a> {
    /// The day, counted from 1970-01-01.
    pub day: i32,
    /// The band of the place that would change.
    pub band: Band,
    /// The number of its accession or deed, 1 to 999,999.
    pub scope: u32,
    /// Its rank, 1 to 9,999.
    pub rank: u16,
    /// The rule that would stand there; `None` where none would.
    pub rule: Option<&'a Rule>,
}

fn copy_text(alloc: Global, text: &Text) -> Result<Text, NoMemory>
    ensures { IfOk result (λ copy. copy ≡ text.now) }
{
    Ok(Text::of(String::from_str(alloc, text.as_str())?))
}

/// A copy of a selector.
fn copy_select(alloc: Global, select: &Select) -> Result<Select, NoMemory>
    ensures { IfOk result (λ copy. copy ≡ select.now) }
{
    match select {
        Select::All => Ok(Select::All),
        Select::Slot(slot) => Ok(Select::Slot(*slot)),
        Select::Prefix(text) => Ok(Select::Prefix(copy_text(alloc, text)?)),
        Select::User(user) => Ok(Select::User(*user)),
        Select::Kind(text) => Ok(Select::Kind(copy_text(alloc, text)?)),
    }
}

fn copy_rule(alloc: Global, rule: &Rule) -> Result<Rule, NoMemory>
    ensures { IfOk result (λ copy. copy ≡ rule.now) }
{
    let select = copy_select(alloc, &rule.select)?;
    Ok(Rule {
        band: rule.band,
        scope: rule.scope,
        rank: rule.rank,
        audiences: rule.audiences,
        from: rule.from,
        until: rule.until,
        select,
        effect: rule.effect,
    })
}

/// A number for each band: takedowns come first.
fn number_of(band: Band) -> u32
    ensures { result ≡ band_code band }
{
    match band {
        Band::Takedown => 0,
        Band::Deed => 1,
    }
}

/// Whether a rule stands at the place that would change.
fn is_at(rehearsal: &Rehearsal<'_>, rule: &Rule) -> bool
    ensures { result ≡ is_there (place_at rehearsal.now.band rehearsal.now.scope rehearsal.now.rank) rule.now }
{
    number_of(rule.band) == number_of(rehearsal.band)
        && rule.scope == rehearsal.scope
        && rule.rank == rehearsal.rank
}

/// Copies of the rules, without the one at the place that would change.
fn without(
    alloc: Global,
    rules: &[Rule],
    rehearsal: &Rehearsal<'_>,
) -> Result<Vec<Rule>, Unavailable>
    ensures { IfOk result (λ kept. kept.items ≡ flat_map (λ rule. cond (is_there (place_at rehearsal.now.band rehearsal.now.scope rehearsal.now.rank) rule) [] (rule ∷ [])) rules.now) }
{
    let mut kept = Vec::new(alloc);
    for rule in rules {
        if !is_at(rehearsal, rule) {
            let Ok(()) = kept.push(copy_rule(alloc, rule)?) else {
                return Err(Unavailable);
            };
        }
    }
    Ok(kept)
}

/// The same rules, in the order in which they decide; `None` where they have none.
fn ordered(rules: Vec<Rule>) -> Option<Items<Rule>>
    ensures order { IfSome result AreInOrder }
    ensures same { IfSome result (λ ordered. (rule : KeptRule) → Contains ordered rule ↔ Contains rules.items rule) }
{
    let mut ordered = rules;
    ordered.sort_unstable_by_key(|rule: &Rule| (number_of(rule.band), rule.rank));
    if in_order(&ordered) {
        Some(Items::of(ordered))
    } else {
        None
    }
}

/// Adds a copy of the rule that is put, if one is, behind the others.
fn with_put(alloc: Global, rules: Vec<Rule>, rule: Option<&Rule>) -> Result<Vec<Rule>, Unavailable>
    ensures { IfOk result (λ all. all.items ≡ rules.items ++ option_to_list (option_map (λ put. put.now) rule.entry)) }
{
    match rule {
        Some(rule) => {
            let mut all = rules;
            let Ok(()) = all.push(copy_rule(alloc, rule)?) else {
                return Err(Unavailable);
            };
            Ok(all)
        }
        None => Ok(rules),
    }
}

/// The rules of an accession, in order, as the change would leave them.
fn changed(
    alloc: Global,
    rules: &[Rule],
    rehearsal: &Rehearsal<'_>,
) -> Result<Items<Rule>, Unavailable>
    ensures order { IfOk result AreInOrder }
    ensures those { IfOk result (λ later. (rule : KeptRule) → Contains later rule
        ↔ ((Contains rules.now rule × (is_there (place_at rehearsal.now.band rehearsal.now.scope rehearsal.now.rank) rule ≡ false))
        ⊎ (option_map (λ put. put.now) rehearsal.now.rule ≡ Some rule))) }
{
    let kept = without(alloc, rules, rehearsal)?;
    let later = with_put(alloc, kept, rehearsal.rule)?;
    match ordered(later) {
        Some(ordered) => Ok(ordered),
        None => Err(Unavailable),
    }
}

/// Whether two effects are the same.
fn is_same(one: Effect, other: Effect) -> bool
    ensures { result ≡ same_effect one other }
{
    match (one, other) {
        (Effect::Deny, Effect::Deny) => true,
        (Effect::List, Effect::List) => true,
        (Effect::Read, Effect::Read) => true,
        _ => false,
    }
}

/// Adds to the lines the one for a file of an accession and an audience, if the effects of the verdicts before and
/// after differ.
fn with_difference(
    alloc: Global,
    lines: Vec<Difference>,
    accession: u32,
    file: &Found,
    audience: Audience,
    verdicts: (Verdict, Verdict),
) -> Result<Vec<Difference>, Unavailable>
    ensures { IfOk result (λ all. all.items ≡ lines.items ++ cond (same_effect verdicts.0.effect verdicts.1.effect) []
        (record { accession = accession; slot = file.now.slot; name = file.now.name; audience = audience; before = verdicts.0; after = verdicts.1 } ∷ [])) }
{
    let (before, after) = verdicts;
    if is_same(before.effect, after.effect) {
        return Ok(lines);
    }
    let mut all = lines;
    let line = Difference {
        accession,
        slot: file.slot,
        name: copy_text(alloc, &file.name)?,
        audience,
        before,
        after,
    };
    let Ok(()) = all.push(line) else {
        return Err(Unavailable);
    };
    Ok(all)
}

/// Adds to the lines those for a file of an accession, from the verdicts on it before and after.
fn with_file(
    alloc: Global,
    lines: Vec<Difference>,
    accession: u32,
    file: &Found,
    before: AudienceVerdicts,
    after: AudienceVerdicts,
) -> Result<Vec<Difference>, Unavailable>
    ensures { IfOk result (λ all. all.items ≡ lines.items ++ differences_of accession (with_verdicts_on file.now before) (with_verdicts_on file.now after)) }
{
    let public = (before.public, after.public);
    let room = (before.room, after.room);
    let staff = (before.staff, after.staff);
    let lines = with_difference(alloc, lines, accession, file, Audience::Public, public)?;
    let lines = with_difference(alloc, lines, accession, file, Audience::Room, room)?;
    with_difference(alloc, lines, accession, file, Audience::Staff, staff)
}

/// The differences in effect for the files of an accession on a day, between two lists of rules.
fn between(
    alloc: Global,
    accession: u32,
    day: i32,
    rules: &[Rule],
    later: &[Rule],
    files: &[Found],
) -> Result<Vec<Difference>, Unavailable>
    requires order { AreInOrder rules.now }
    requires later { AreInOrder later.now }
    ensures { IfOk result (λ lines. AreFileDifferences rules.now later.now day accession files.now lines.items) }
{
    let mut lines = Vec::new(alloc);
    for file in files {
        let before = verdicts_on(&[], rules, day, file);
        let after = verdicts_on(&[], later, day, file);
        lines = with_file(alloc, lines, accession, file, before, after)?;
    }
    Ok(lines)
}

/// The differences for the files of an accession, whose kind and deed the caller knows, and to whose rules the place belongs.
fn differences_at<S: Alter>(
    store: &mut Store<S>,
    alloc: Global,
    rehearsal: &Rehearsal<'_>,
    acc: u32,
    accession: Accession,
) -> Result<Vec<Difference>, Unavailable>
    requires known { IsOpen S.Store store.old → IsRegistered (desk S.Store store.old) acc accession }
    requires about { IsAbout acc accession.deed rehearsal.now.band rehearsal.now.scope }
    requires place { IfSome rehearsal.now.rule (λ rule. place_of rule.now ≡ place_at rehearsal.now.band rehearsal.now.scope rehearsal.now.rank) }
    ensures { Reads S.Store store.old store.new result (λ lines. AreDifferencesAt (desk S.Store store.old)
        (desk_changed (place_at rehearsal.now.band rehearsal.now.scope rehearsal.now.rank) (option_map (λ rule. rule.now) rehearsal.now.rule) (desk S.Store store.old)) rehearsal.now.day acc lines.items) }
{
    let loaded = load_rules(store, alloc, acc, accession)?;
    let later = changed(alloc, loaded.rules.as_slice(), rehearsal)?;
    let files = files(store, alloc, acc)?;
    between(
        alloc,
        acc,
        rehearsal.day,
        loaded.rules.as_slice(),
        later.as_slice(),
        files.as_slice(),
    )
}

/// Two lists of lines as one.
fn joined(lines: Vec<Difference>, more: Vec<Difference>) -> Result<Vec<Difference>, Unavailable>
    ensures { IfOk result (λ all. all.items ≡ lines.items ++ more.items) }
{
    let mut all = lines;
    for line in more {
        let Ok(()) = all.push(line) else {
            return Err(Unavailable);
        };
    }
    Ok(all)
}

/// Adds to the lines those for an accession, whose kind and deed the caller knows, where a rule of a deed would change.
/// It reads an accession only if it came by that deed.
fn with_accession<S: Alter>(
    store: &mut Store<S>,
    alloc: Global,
    lines: Vec<Difference>,
    rehearsal: &Rehearsal<'_>,
    acc: u32,
    accession: Accession,
) -> Result<Vec<Difference>, Unavailable>
    requires open_if_clean { IsClean S.Store store.old → IsOpen S.Store store.old }
    requires known { IsOpen S.Store store.old → IsRegistered (desk S.Store store.old) acc accession }
    requires band { rehearsal.now.band ≡ Band.Deed }
    requires place { IfSome rehearsal.now.rule (λ rule. place_of rule.now ≡ place_at rehearsal.now.band rehearsal.now.scope rehearsal.now.rank) }
    ensures { Reads S.Store store.old store.new result (λ all. AddsDifferencesAt (desk S.Store store.old)
        (desk_changed (place_at rehearsal.now.band rehearsal.now.scope rehearsal.now.rank) (option_map (λ rule. rule.now) rehearsal.now.rule) (desk S.Store store.old))
        rehearsal.now.day acc lines.items all.items) }
{
    // An accession of another deed takes no call. Then a crash leaves the desk as it is.
    store.between_calls();
    if accession.deed != rehearsal.scope {
        return Ok(lines);
    }
    let more = differences_at(store, alloc, rehearsal, acc, accession)?;
    joined(lines, more)
}

/// The differences for the accessions of a register, where a rule of a deed would change.
fn of_register<S: Alter>(
    store: &mut Store<S>,
    alloc: Global,
    rehearsal: &Rehearsal<'_>,
    register: &[(u32, Accession)],
) -> Result<Vec<Difference>, Unavailable>
    requires open_if_clean { IsClean S.Store store.old → IsOpen S.Store store.old }
    requires known { IsOpen S.Store store.old → All (λ entry. IsRegistered (desk S.Store store.old) entry.0 entry.1) register.now }
    requires band { rehearsal.now.band ≡ Band.Deed }
    requires place { IfSome rehearsal.now.rule (λ rule. place_of rule.now ≡ place_at rehearsal.now.band rehearsal.now.scope rehearsal.now.rank) }
    ensures { Reads S.Store store.old store.new result (λ lines. AreDifferencesOf (desk S.Store store.old)
        (desk_changed (place_at rehearsal.now.band rehearsal.now.scope rehearsal.now.rank) (option_map (λ rule. rule.now) rehearsal.now.rule) (desk S.Store store.old))
        rehearsal.now.day (map (λ entry. entry.0) register.now) lines.items) }
{
    let mut lines = Vec::new(alloc);
    // Where there is no accession there is no call. Then a crash leaves the desk as it is.
    store.between_calls();
    for entry in register {
        let (acc, accession) = *entry;
        lines = with_accession(store, alloc, lines, rehearsal, acc, accession)?;
    }
    Ok(lines)
}

/// The rehearsal of a change of the rules of a deed; `None` if there is no such deed.
fn of_deed<S: Alter>(
    store: &mut Store<S>,
    alloc: Global,
    rehearsal: &Rehearsal<'_>,
) -> Result<Option<Vec<Difference>>, Unavailable>
    requires band { rehearsal.now.band ≡ Band.Deed }
    requires place { IfSome rehearsal.now.rule (λ rule. place_of rule.now ≡ place_at rehearsal.now.band rehearsal.now.scope rehearsal.now.rank) }
    ensures { Reads S.Store store.old store.new result (λ found. MatchOption found (¬ Stands (desk S.Store store.old) rehearsal.now.band rehearsal.now.scope)
        (λ lines. IsRehearsed (desk S.Store store.old) (place_at rehearsal.now.band rehearsal.now.scope rehearsal.now.rank) (option_map (λ rule. rule.now) rehearsal.now.rule) rehearsal.now.day lines.items)) }
{
    if !has_deed(store, rehearsal.scope)? {
        return Ok(None);
    }
    let register = store.register(alloc)?;
    Ok(Some(of_register(store, alloc, rehearsal, &register)?))
}

/// The rehearsal of a change of the takedowns of an accession; `None` if there is no such accession.
fn of_accession<S: Alter>(
    store: &mut Store<S>,
    alloc: Global,
    rehearsal: &Rehearsal<'_>,
) -> Result<Option<Vec<Difference>>, Unavailable>
    requires band { rehearsal.now.band ≡ Band.Takedown }
    requires place { IfSome rehearsal.now.rule (λ rule. place_of rule.now ≡ place_at rehearsal.now.band rehearsal.now.scope rehearsal.now.rank) }
    ensures { Reads S.Store store.old store.new result (λ found. MatchOption found (¬ Stands (desk S.Store store.old) rehearsal.now.band rehearsal.now.scope)
        (λ lines. IsRehearsed (desk S.Store store.old) (place_at rehearsal.now.band rehearsal.now.scope rehearsal.now.rank) (option_map (λ rule. rule.now) rehearsal.now.rule) rehearsal.now.day lines.items)) }
{
    let Some(accession) = store.accession(rehearsal.scope)? else {
        return Ok(None);
    };
    let lines = differences_at(store, alloc, rehearsal, rehearsal.scope, accession)?;
    // The desk that was read is a lawful one.
    store.between_calls();
    Ok(Some(lines))
}

/// The rehearsal of a change of the rules; `None` if there is no such accession or deed.
fn rehearsed<S: Alter>(
    store: &mut Store<S>,
    alloc: Global,
    rehearsal: &Rehearsal<'_>,
) -> Result<Option<Vec<Difference>>, Unavailable>
    requires place { IfSome rehearsal.now.rule (λ rule. place_of rule.now ≡ place_at rehearsal.now.band rehearsal.now.scope rehearsal.now.rank) }
    ensures { Reads S.Store store.old store.new result (λ found. MatchOption found (¬ Stands (desk S.Store store.old) rehearsal.now.band rehearsal.now.scope)
        (λ lines. IsRehearsed (desk S.Store store.old) (place_at rehearsal.now.band rehearsal.now.scope rehearsal.now.rank) (option_map (λ rule. rule.now) rehearsal.now.rule) rehearsal.now.day lines.items)) }
{
    match rehearsal.band {
        Band::Takedown => of_accession(store, alloc, rehearsal),
        Band::Deed => of_deed(store, alloc, rehearsal),
    }
}

/// The answer to the staff that rehearses to put a rule.
pub(crate) fn rehearse_rule<S: Alter>(
    store: &mut Store<S>,
    alloc: Global,
    day: i32,
    rule: &Rule,
) -> Result<Response, Unavailable>
    ensures carries { (visited : ℤ) → Carries S.Store store.old store.new visited (What.RehearseRule day rule.now) result }
    ensures keeps { Keeps S.Store store.old store.new }
{
    let rehearsal = Rehearsal {
        day,
        band: rule.band,
        scope: rule.scope,
        rank: rule.rank,
        rule: Some(rule),
    };
    match rehearsed(store, alloc, &rehearsal)? {
        Some(lines) => Ok(Response::Rehearsed(Items::of(lines))),
        None => Ok(Response::Refused(missing(rule.band))),
    }
}

/// The answer to the staff that rehearses to drop the rule at a place.
pub(crate) fn rehearse_drop<S: Alter>(
    store: &mut Store<S>,
    alloc: Global,
    day: i32,
    band: Band,
    scope: u32,
    rank: u16,
) -> Result<Response, Unavailable>
    ensures carries { (visited : ℤ) → Carries S.Store store.old store.new visited (What.RehearseDrop day band scope rank) result }
    ensures keeps { Keeps S.Store store.old store.new }
{
    let rehearsal = Rehearsal {
        day,
        band,
        scope,
        rank,
        rule: None,
    };
    match rehearsed(store, alloc, &rehearsal)? {
        Some(lines) => Ok(Response::Rehearsed(Items::of(lines))),
        None => Ok(Response::Refused(missing(band))),
    }
}
