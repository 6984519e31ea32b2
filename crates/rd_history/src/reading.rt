//! The entry of a line. What was written is read; of any other value something is read, whatever it is: an entry that
//! was read is written again, and its line compared with the one that was read.

ghost use Rattle.std.specs.Prelude.{◌≡◌, None, Some, IfOk, MatchOption, codes};
ghost use Rattle.serde_json.specs.Read.{read};
ghost use Rattle.serde_json.specs.View.{view};
ghost use Rattle.rd_policy.specs.Rules.{IsSelect};
ghost use Rattle.rd_policy.specs.declared.select.Select.{Select};
ghost use Rattle.rd_protocol.specs.Texts.{one_member, select_data};
ghost use Rattle.rd_history.specs.Entries.{HasDigests, IsEntry, TellsDigests};
ghost use Rattle.rd_history.specs.Lines.{entry_data};
ghost use Rattle.rd_history.specs.Reading.{IsLineOf, IsNoLine, Reads, ReadsPlace, ReadsRule};
ghost use Rattle.rd_history.specs.declared.entry.Entry.{Entry};

mod values;

use crate::entry::{Cause, Change, Entry};
use crate::reading::values::{
    at, audiences_of, badge_of, copy_of, date_of, day_of, digest_of, member_of, moment_of,
    number_of, short_of, text_of,
};
use crate::writing;
use rd_geometry::{Kind, NoMemory};
use rd_policy::{Audience, Band, Effect, Rule, Select};
use serde_json::Value;
use std::alloc::Global;

/// The selector that this key and value write.
fn select_by(alloc: Global, key: &str, value: &Value) -> Result<Select, NoMemory>
    ensures { IfOk result (λ read. (select : Select) → IsSelect select
        → one_member key.now (view value.now) ≡ select_data select → read ≡ select) }
{
    match key {
        "slot" => Ok(Select::Slot(short_of(value))),
        "prefix" => Ok(Select::Prefix(copy_of(alloc, value)?)),
        "user" => Ok(Select::User(u8::try_from(short_of(value)).unwrap_or(0))),
        "type" => Ok(Select::Kind(copy_of(alloc, value)?)),
        _ => Ok(Select::All),
    }
}

fn select_of(alloc: Global, value: &Value) -> Result<Select, NoMemory>
    ensures { IfOk result
        (λ read. (select : Select) → IsSelect select → view value.now ≡ select_data select → read ≡ select) }
{
    let (key, found) = member_of(value);
    select_by(alloc, key, found)
}

/// The rule of a band that a value writes, with its scope at a key.
fn rule_of(alloc: Global, band: Band, key: &str, value: &Value) -> Result<Rule, NoMemory>
    ensures { IfOk result (ReadsRule band key.now (view value.now)) }
{
    let terms = at(value, "rule");
    let from = day_of(alloc, at(terms, "from"))?;
    let select = select_of(alloc, at(terms, "select"))?;
    let until = day_of(alloc, at(terms, "until"))?;
    Ok(Rule {
        band,
        scope: number_of(at(value, key)),
        rank: short_of(at(terms, "rank")),
        audiences: audiences_of(at(terms, "audiences")),
        from,
        until,
        select,
        effect: Effect::from_word(text_of(at(terms, "effect"))).unwrap_or(Effect::Deny),
    })
}

/// The deed that a value writes.
fn deed_of(alloc: Global, value: &Value) -> Result<Change, NoMemory>
    ensures reads { IfOk result (Reads (one_member (codes "deed") (view value.now))) }
    ensures bytes { IfOk result TellsDigests }
{
    let donor = copy_of(alloc, at(value, "donor"))?;
    let signed = date_of(alloc, at(value, "signed"))?;
    Ok(Change::Deed {
        num: number_of(at(value, "deed")),
        donor,
        signed,
    })
}

/// The image that a value writes.
fn image_of(value: &Value) -> Change
    ensures reads { Reads (one_member (codes "image") (view value.now)) result }
    ensures bytes { TellsDigests result }
{
    Change::Image {
        acc: number_of(at(value, "accession")),
        kind: Kind::from_word(text_of(at(value, "kind"))).unwrap_or(Kind::Cpm8),
        deed: number_of(at(value, "deed")),
        digest: digest_of(at(value, "digest")),
    }
}

/// The key that a value writes.
fn key_of(value: &Value) -> Change
    ensures reads { Reads (one_member (codes "key") (view value.now)) result }
    ensures bytes { TellsDigests result }
{
    let audience = Audience::from_word(text_of(at(value, "audience")));
    Change::Key {
        digest: digest_of(at(value, "digest")),
        audience: audience.unwrap_or(Audience::Staff),
    }
}

/// The place of a band that a value writes, with its scope at a key, to drop the rule there.
fn drop_of(band: Band, key: &str, value: &Value) -> Change
    ensures reads { ReadsPlace band key.now (view value.now) result }
    ensures bytes { TellsDigests result }
{
    Change::DropRule {
        band,
        scope: number_of(at(value, key)),
        rank: short_of(at(value, "rank")),
    }
}

/// The change that a value writes, as an object of one member.
fn change_of(alloc: Global, value: &Value) -> Result<Change, NoMemory>
    ensures reads { IfOk result (Reads (view value.now)) }
    ensures bytes { IfOk result TellsDigests }
{
    let (key, found) = member_of(value);
    match key {
        "begin" => Ok(Change::Begin(number_of(found))),
        "deed" => deed_of(alloc, found),
        "image" => Ok(image_of(found)),
        "takedown" => Ok(Change::Rule(rule_of(alloc, Band::Takedown, "accession", found)?)),
        "rule" => Ok(Change::Rule(rule_of(alloc, Band::Deed, "deed", found)?)),
        "drop_takedown" => Ok(drop_of(Band::Takedown, "accession", found)),
        "drop_rule" => Ok(drop_of(Band::Deed, "deed", found)),
        "key" => Ok(key_of(found)),
        "drop_key" => Ok(Change::DropKey {
            digest: digest_of(at(found, "digest")),
        }),
        _ => Ok(Change::Void(Cause::from_word(text_of(found)).unwrap_or(Cause::Lost))),
    }
}

fn entry_of(alloc: Global, value: &Value) -> Result<Entry, NoMemory>
    ensures reads { IfOk result (λ read. (entry : Entry) → IsEntry entry → HasDigests entry
        → view value.now ≡ entry_data entry → read ≡ entry) }
    ensures bytes { IfOk result HasDigests }
{
    let change = change_of(alloc, at(value, "change"))?;
    let note = copy_of(alloc, at(value, "note"))?;
    let staff = copy_of(alloc, at(value, "staff"))?;
    Ok(Entry {
        badge: badge_of(at(value, "badge")),
        change,
        moment: moment_of(at(value, "moment")),
        note,
        number: number_of(at(value, "number")),
        staff,
    })
}

/// The value whose text a line is; `None` if it is the text of no value.
fn value_of(alloc: Global, line: &str) -> Result<Option<Value>, NoMemory>
    ensures { IfOk result
        (λ found. MatchOption found (read line.now ≡ None) (λ value. read line.now ≡ Some (view value))) }
{
    match Value::from_str(alloc, line) {
        Ok(value) => Ok(Some(value)),
        Err(fault) if fault.is_memory() => Err(NoMemory),
        Err(_) => Ok(None),
    }
}

/// The entry of which this text is the line; `None` where it is the line of none. It fails only when memory runs out.
pub fn read_line(alloc: Global, line: &str) -> Result<Option<Entry>, NoMemory>
    ensures { IfOk result (λ read. MatchOption read (IsNoLine line.now) (IsLineOf line.now)) }
{
    let Some(value) = value_of(alloc, line)? else {
        return Ok(None);
    };
    let entry = entry_of(alloc, &value)?;
    if !entry.fits() {
        return Ok(None);
    }
    let written = writing::line(alloc, &entry)?;
    if written.as_str() == line {
        Ok(Some(entry))
    } else {
        Ok(None)
    }
}
