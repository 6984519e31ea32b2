//! What stands in a store, as a base lists it, and the lines of a base.

ghost use Rattle.std.specs.Prelude.{◌≡◌, ◌+◌, ◌++◌, ◌∷◌, IfOk, IsUtf8, OnOk, length, map};
ghost use Rattle.std.specs.List.{AllByRecursion, flat_map};
ghost use Rattle.rd_chain.specs.Held.{Appends, lines};
ghost use Rattle.rd_store.specs.Held.{IsClean, IsOpen, Keeps, Reads, desk};
ghost use Rattle.rd_history.specs.Bases.{AreBaseLines, image_puts};
ghost use Rattle.rd_history.specs.Entries.{IsEntry, TellsDigests};
ghost use Rattle.rd_history.specs.Histories.{IsPut, base_entry, base_lines};
ghost use Rattle.rd_history.specs.Lines.{line_of};
ghost use Rattle.rd_history.specs.Settled.{IsTold};
ghost use Rattle.rd_history.specs.Standings.{base_of, deed_put, key_put};

use crate::entry::{Change, Entry};
use crate::history::History;
use crate::settling::Unsettled;
use crate::writing;
use rd_geometry::{NoMemory, Text};
use rd_holdings::{Accession, DeedRow};
use rd_policy::{Audience, Rule};
use rd_store::Store;
use sqlite::Alter;
use std::alloc::Global;

fn with_deeds(listed: Vec<Change>, deeds: Vec<(u32, DeedRow)>) -> Result<Vec<Change>, NoMemory>
    ensures { IfOk result (λ all. all.items ≡ listed.items ++ map deed_put deeds.items) }
{
    let mut all = listed;
    for entry in deeds {
        let (num, deed) = entry;
        let DeedRow { donor, signed } = deed;
        all.push(Change::Deed { num, donor, signed })?;
    }
    Ok(all)
}

fn with_rules(listed: Vec<Change>, rules: Vec<Rule>) -> Result<Vec<Change>, NoMemory>
    ensures { IfOk result (λ all. all.items ≡ listed.items ++ map Change.Rule rules.items) }
{
    let mut all = listed;
    for rule in rules {
        all.push(Change::Rule(rule))?;
    }
    Ok(all)
}

fn with_keys(listed: Vec<Change>, keys: &[([u8; 32], Audience)]) -> Result<Vec<Change>, NoMemory>
    ensures { IfOk result (λ all. all.items ≡ listed.items ++ map key_put keys.now) }
{
    let mut all = listed;
    for key in keys {
        let (digest, audience) = *key;
        all.push(Change::Key { digest, audience })?;
    }
    Ok(all)
}

/// Adds the image of an accession, if it has one.
fn with_image<S: Alter>(
    alloc: Global,
    store: &mut Store<S>,
    listed: Vec<Change>,
    acc: u32,
) -> Result<Vec<Change>, Unsettled>
    ensures { Reads S.Store store.old store.new result (λ all. all.items ≡ listed.items ++ image_puts (desk S.Store store.old) acc) }
{
    let mut all = listed;
    if let Some(image) = store.image(alloc, acc)? {
        let digest = image.digest;
        let change = Change::Image {
            acc,
            kind: image.kind,
            deed: image.deed,
            digest,
        };
        let Ok(()) = all.push(change) else {
            return Err(Unsettled);
        };
    }
    Ok(all)
}

/// Adds the images of the accessions of a register.
fn with_images<S: Alter>(
    alloc: Global,
    store: &mut Store<S>,
    listed: Vec<Change>,
    register: &[(u32, Accession)],
) -> Result<Vec<Change>, Unsettled>
    requires open_if_clean { IsClean S.Store store.old → IsOpen S.Store store.old }
    ensures { Reads S.Store store.old store.new result (λ all.
        all.items ≡ listed.items ++ flat_map (λ entry. image_puts (desk S.Store store.old) entry.0) register.now) }
{
    let mut all = listed;
    // Where there is no accession there is no call. Then a crash leaves the desk as it is.
    store.between_calls();
    for entry in register {
        let (acc, _) = *entry;
        all = with_image(alloc, store, all, acc)?;
    }
    Ok(all)
}

/// All that stands in a store, in the order of a base. It changes nothing. It fails with `Unsettled` if the store fails
/// or memory runs out.
pub(crate) fn all_of<S: Alter>(
    alloc: Global,
    store: &mut Store<S>,
) -> Result<Vec<Change>, Unsettled>
    ensures { Reads S.Store store.old store.new result (λ listed. listed.items ≡ base_of (desk S.Store store.old)) }
{
    let deeds = store.deeds(alloc)?;
    let listed = with_deeds(Vec::new(alloc), deeds)?;
    let register = store.register(alloc)?;
    let listed = with_images(alloc, store, listed, &register)?;
    let rules = store.rulebook(alloc)?;
    let listed = with_rules(listed, rules.into_rules())?;
    let keys = store.keys(alloc)?;
    Ok(with_keys(listed, &keys)?)
}

/// The line of an entry of a base. It fails with `Unsettled` where a value is outside its limits, or memory runs out.
fn line(
    alloc: Global,
    moment: i64,
    note: &str,
    number: u32,
    change: Change,
) -> Result<Text, Unsettled>
    ensures line { IfOk result (λ text. text ≡ line_of (base_entry moment note.now number change)) }
    ensures utf8 { IfOk result IsUtf8 }
    ensures within { IfOk result (λ text. IsEntry (base_entry moment note.now number change)) }
    ensures digests { IfOk result (λ text. TellsDigests change) }
{
    if !change.has_whole_digests() {
        return Err(Unsettled);
    }
    let entry = Entry {
        badge: None,
        change,
        moment,
        note: Text::of(String::from_str(alloc, note)?),
        number,
        staff: Text::of(String::new(alloc)),
    };
    if !entry.fits() {
        return Err(Unsettled);
    }
    Ok(writing::line(alloc, &entry)?)
}

/// The lines of a base that lists these changes, from a number on. It fails with `Unsettled` where a base may not list
/// one, a value is outside its limits, or memory runs out.
pub(crate) fn lines(
    alloc: Global,
    moment: i64,
    note: &str,
    number: u32,
    listed: Vec<Change>,
) -> Result<Vec<Text>, Unsettled>
    ensures lines { IfOk result (λ lines. AreBaseLines moment note.now number (Change.Begin (length listed.items) ∷ listed.items) lines.items) }
    ensures puts { IfOk result (λ lines. AllByRecursion IsPut listed.items) }
{
    let Ok(count) = u32::try_from(listed.len()) else {
        return Err(Unsettled);
    };
    let begin = line(alloc, moment, note, number, Change::Begin(count))?;
    let mut lines = Vec::new(alloc);
    let Ok(()) = lines.push(begin) else {
        return Err(Unsettled);
    };
    let mut next = number + 1;
    for change in listed {
        if !change.is_put() {
            return Err(Unsettled);
        }
        let line = line(alloc, moment, note, next, change)?;
        let Ok(()) = lines.push(line) else {
            return Err(Unsettled);
        };
        next += 1;
    }
    Ok(lines)
}

/// Puts what stands in a store at the end of a history, as a base, in one transaction: of what was told before nothing
/// counts any more. Nobody's key asks it; the note says why, in the words of the staff.
///
/// It fails with `Unsettled` where the moment or the note is outside the limits of an entry, the history has no room, a
/// database fails, or memory runs out. Nothing has changed then, unless a fault has shut the connection of the history.
pub fn begin<S: Alter, H: Alter>(
    alloc: Global,
    moment: i64,
    note: &str,
    store: &mut Store<S>,
    history: &mut History<H>,
) -> Result<(), Unsettled>
    ensures store { Keeps S.Store store.old store.new }
    ensures history { IsOpen S.Store store.new → Appends H.Store history.old history.new
        (base_lines moment note.now (length (lines H.Store history.old) + 1) (base_of (desk S.Store store.old))) result }
    ensures told { IsOpen S.Store store.new → IsOpen H.Store history.new → OnOk result (IsTold (desk S.Store store.old) (lines H.Store history.new)) }
{
    // Until a call is made a crash leaves the history as it is here.
    history.between_calls();
    let listed = all_of(alloc, store)?;
    let put = history.append_base(alloc, moment, note, listed);
    history.between_calls();
    put
}
