//! What stands in the desk, for the staff: its deeds, takedowns, keys and checks. Each function fails with
//! `Unavailable` if the store fails or memory runs out.

ghost use Rattle.std.specs.Prelude.{◌≡◌, ◌++◌, IfOk, map, ℤ, ℕ};
ghost use Rattle.std.specs.List.{flat_map};
ghost use Rattle.rd_store.specs.Held.{IsClean, IsOpen, Keeps, Reads, desk};
ghost use Rattle.rd_protocol.specs.StaffLists.{check_lines, deed_lines, has_rules, key_lines, takedown_lines};
ghost use Rattle.rd_holdings.specs.State.{Desk, all_rules, rules_at};
ghost use Rattle.rd_desk.specs.StaffLists.{accessions_in, check_line, deed_line_of, key_line, takedown_lines_at};
ghost use Rattle.rd_desk.specs.Calls.{Carries};

use crate::asking::Unavailable;
use rd_geometry::Items;
use rd_holdings::Accession;
use rd_policy::{Audience, Band};
use rd_protocol::{CheckLine, DeedLine, KeyLine, Response, TakedownLine, What};
use rd_store::{DeedRow, Rulebook, Store};
use sqlite::Alter;
use std::alloc::Global;

fn lines_of(alloc: Global, keys: &[([u8; 32], Audience)]) -> Result<Vec<KeyLine>, Unavailable>
    ensures { IfOk result (λ lines. lines.items ≡ map key_line keys.now) }
{
    let mut lines = Vec::new(alloc);
    for key in keys {
        let (digest, audience) = *key;
        let Ok(()) = lines.push(KeyLine { digest, audience }) else {
            return Err(Unavailable);
        };
    }
    Ok(lines)
}

fn all_keys<S: Alter>(store: &mut Store<S>, alloc: Global) -> Result<Items<KeyLine>, Unavailable>
    ensures { Reads S.Store store.old store.new result (λ lines. lines ≡ key_lines (desk S.Store store.old)) }
{
    let keys = store.keys(alloc)?;
    Ok(Items::of(lines_of(alloc, &keys)?))
}

/// The answer to the staff that gives all desk keys.
pub(crate) fn keys<S: Alter>(store: &mut Store<S>, alloc: Global) -> Result<Response, Unavailable>
    ensures carries { (day : ℤ) → Carries S.Store store.old store.new day What.Keys result }
    ensures keeps { Keeps S.Store store.old store.new }
{
    Ok(Response::Keys(all_keys(store, alloc)?))
}

/// How many of the accessions came by a deed.
fn accessions_under(register: &[(u32, Accession)], num: u32) -> usize
    ensures { result ≡ accessions_in num register.now }
{
    register.iter().filter(|entry| entry.1.deed == num).count()
}

fn deed_line<S: Alter>(
    store: &mut Store<S>,
    alloc: Global,
    register: &[(u32, Accession)],
    num: u32,
    deed: DeedRow,
) -> Result<DeedLine, Unavailable>
    ensures { Reads S.Store store.old store.new result (λ line. line ≡ deed_line_of (desk S.Store store.old) register.now (num, deed)) }
{
    let rules = store.rules_at(alloc, Band::Deed, num)?;
    let accessions = accessions_under(register, num);
    Ok(DeedLine {
        deed: num,
        donor: deed.donor,
        signed: deed.signed,
        accessions,
        rules: Items::of(rules),
    })
}

fn all_deeds<S: Alter>(store: &mut Store<S>, alloc: Global) -> Result<Items<DeedLine>, Unavailable>
    ensures { Reads S.Store store.old store.new result (λ lines. lines ≡ deed_lines (desk S.Store store.old)) }
{
    let register = store.register(alloc)?;
    let deeds = store.deeds(alloc)?;
    let mut lines = Vec::new(alloc);
    for entry in deeds {
        let (num, deed) = entry;
        let line = deed_line(store, alloc, &register, num, deed)?;
        let Ok(()) = lines.push(line) else {
            return Err(Unavailable);
        };
    }
    Ok(Items::of(lines))
}

/// The answer to the staff that gives all deeds.
pub(crate) fn deeds<S: Alter>(store: &mut Store<S>, alloc: Global) -> Result<Response, Unavailable>
    ensures carries { (day : ℤ) → Carries S.Store store.old store.new day What.Deeds result }
    ensures keeps { Keeps S.Store store.old store.new }
{
    Ok(Response::Deeds(all_deeds(store, alloc)?))
}

/// Whether an accession has takedowns.
fn has_takedowns(rules: &Rulebook, acc: u32, deed: u32) -> bool
    ensures { (desk : Desk) → rules.now ≡ all_rules desk → result ≡ has_rules (rules_at desk Band.Takedown acc) }
{
    let (takedowns, _) = rules.under(acc, deed);
    !takedowns.is_empty()
}

/// Adds to the lines that of an accession, if it has takedowns.
fn with_takedowns<S: Alter>(
    store: &mut Store<S>,
    alloc: Global,
    lines: Vec<TakedownLine>,
    rules: &Rulebook,
    acc: u32,
    deed: u32,
) -> Result<Vec<TakedownLine>, Unavailable>
    requires open_if_clean { IsClean S.Store store.old → IsOpen S.Store store.old }
    requires rules { IsOpen S.Store store.old → rules.now ≡ all_rules (desk S.Store store.old) }
    ensures { Reads S.Store store.old store.new result (λ all. all.items ≡ lines.items ++ takedown_lines_at (desk S.Store store.old) acc) }
{
    // An accession without takedowns takes no call. Then a crash leaves the desk as it is.
    store.between_calls();
    if !has_takedowns(rules, acc, deed) {
        return Ok(lines);
    }
    let mut all = lines;
    let rules = Items::of(store.rules_at(alloc, Band::Takedown, acc)?);
    let line = TakedownLine {
        accession: acc,
        rules,
    };
    let Ok(()) = all.push(line) else {
        return Err(Unavailable);
    };
    Ok(all)
}

/// The lines of those accessions of a register that have takedowns.
fn takedowns_of<S: Alter>(
    store: &mut Store<S>,
    alloc: Global,
    rules: &Rulebook,
    register: &[(u32, Accession)],
) -> Result<Vec<TakedownLine>, Unavailable>
    requires open_if_clean { IsClean S.Store store.old → IsOpen S.Store store.old }
    requires rules { IsOpen S.Store store.old → rules.now ≡ all_rules (desk S.Store store.old) }
    ensures { Reads S.Store store.old store.new result (λ lines. lines.items ≡ flat_map (λ entry. takedown_lines_at (desk S.Store store.old) entry.0) register.now) }
{
    let mut lines = Vec::new(alloc);
    // Where there is no accession there is no call. Then a crash leaves the desk as it is.
    store.between_calls();
    for entry in register {
        let (acc, accession) = *entry;
        lines = with_takedowns(store, alloc, lines, rules, acc, accession.deed)?;
    }
    Ok(lines)
}

/// The lines of all accessions that have takedowns.
fn all_takedowns<S: Alter>(
    store: &mut Store<S>,
    alloc: Global,
) -> Result<Items<TakedownLine>, Unavailable>
    ensures { Reads S.Store store.old store.new result (λ lines. lines ≡ takedown_lines (desk S.Store store.old)) }
{
    let register = store.register(alloc)?;
    let rules = store.rulebook(alloc)?;
    Ok(Items::of(takedowns_of(store, alloc, &rules, &register)?))
}

/// The answer to the staff that gives all takedowns.
pub(crate) fn takedowns<S: Alter>(
    store: &mut Store<S>,
    alloc: Global,
) -> Result<Response, Unavailable>
    ensures carries { (day : ℤ) → Carries S.Store store.old store.new day What.Takedowns result }
    ensures keeps { Keeps S.Store store.old store.new }
{
    Ok(Response::Takedowns(all_takedowns(store, alloc)?))
}

/// The lines of the accessions of a register.
fn checks_of<S: Alter>(
    store: &mut Store<S>,
    alloc: Global,
    register: &[(u32, Accession)],
) -> Result<Vec<CheckLine>, Unavailable>
    requires open_if_clean { IsClean S.Store store.old → IsOpen S.Store store.old }
    ensures { Reads S.Store store.old store.new result (λ lines. lines.items ≡ map (λ entry. check_line (desk S.Store store.old) entry.0) register.now) }
{
    let mut lines = Vec::new(alloc);
    // Where there is no accession there is no call. Then a crash leaves the desk as it is.
    store.between_calls();
    for entry in register {
        let (accession, _) = *entry;
        let last = store.latest_check(accession)?;
        let Ok(()) = lines.push(CheckLine { accession, last }) else {
            return Err(Unavailable);
        };
    }
    Ok(lines)
}

/// Each accession with its latest check.
fn latest_checks<S: Alter>(
    store: &mut Store<S>,
    alloc: Global,
) -> Result<Items<CheckLine>, Unavailable>
    ensures { Reads S.Store store.old store.new result (λ lines. lines ≡ check_lines (desk S.Store store.old)) }
{
    let register = store.register(alloc)?;
    Ok(Items::of(checks_of(store, alloc, &register)?))
}

/// The answer to the staff that gives all accessions, each with its latest check.
pub(crate) fn checks<S: Alter>(store: &mut Store<S>, alloc: Global) -> Result<Response, Unavailable>
    ensures carries { (day : ℤ) → Carries S.Store store.old store.new day What.Checks result }
    ensures keeps { Keeps S.Store store.old store.new }
{
    Ok(Response::Checks(latest_checks(store, alloc)?))
}
