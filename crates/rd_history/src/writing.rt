//! The line of an entry: JSON (RFC 8259) without blanks, each object's keys in the order of their bytes.

ghost use Rattle.std.specs.Prelude.{◌≡◌, IfOk, IfSome, IsUtf8, option_map};
ghost use Rattle.serde_json.specs.Data.{string};
ghost use Rattle.serde_json.specs.View.{view};
ghost use Rattle.hex.specs.Hex.{encode_lower};
ghost use Rattle.rd_policy.specs.Days.{IsDay};
ghost use Rattle.rd_policy.specs.Rules.{IsRule};
ghost use Rattle.rd_protocol.specs.DayTexts.{day_text};
ghost use Rattle.rd_protocol.specs.Texts.{audience_words, day_or_null, rule_data, select_data, text_or_null, texts};
ghost use Rattle.rd_history.specs.Entries.{IsChange, IsEntry};
ghost use Rattle.rd_history.specs.Lines.{change_data, deposit_data, digest_data, entry_data, line_of, terms_data, line_data};

use crate::entry::{Change, Entry};
use rd_geometry::{Kind, NoMemory, Text};
use rd_policy::{Audience, Audiences, Band, Rule, Select, date_text};
use serde_json::{Value, json};
use std::alloc::{AllocError, Global};

/// A digest, by its digits.
fn digest_value(alloc: Global, digest: [u8; 32]) -> Result<Value, NoMemory>
    ensures { IfOk result (λ value. view value ≡ digest_data digest) }
{
    Ok(Value::String(hex::encode(alloc, digest)?))
}

/// The digits of the key by which a change was asked.
fn badge_value(alloc: Global, badge: Option<[u8; 32]>) -> Result<Value, NoMemory>
    ensures { IfOk result (λ value. view value ≡ text_or_null (option_map encode_lower badge)) }
{
    match badge {
        Some(digest) => digest_value(alloc, digest),
        None => Ok(Value::Null),
    }
}

/// The date of a day.
fn date_value(alloc: Global, day: i32) -> Result<Value, NoMemory>
    requires { IsDay day }
    ensures { IfOk result (λ value. view value ≡ string (day_text day)) }
{
    Ok(Value::String(date_text(alloc, day)?))
}

/// The date of a day, if there is one.
fn day_value(alloc: Global, day: Option<i32>) -> Result<Value, NoMemory>
    requires { IfSome day IsDay }
    ensures { IfOk result (λ value. view value ≡ day_or_null day) }
{
    match day {
        Some(day) => date_value(alloc, day),
        None => Ok(Value::Null),
    }
}

fn audiences_value(alloc: Global, set: Audiences) -> Result<Value, AllocError>
    ensures { IfOk result (λ value. view value ≡ texts (audience_words set)) }
{
    match (set.public, set.room, set.staff) {
        (true, true, true) => json!(in alloc; ["public", "room", "staff"]),
        (true, true, false) => json!(in alloc; ["public", "room"]),
        (true, false, true) => json!(in alloc; ["public", "staff"]),
        (true, false, false) => json!(in alloc; ["public"]),
        (false, true, true) => json!(in alloc; ["room", "staff"]),
        (false, true, false) => json!(in alloc; ["room"]),
        (false, false, true) => json!(in alloc; ["staff"]),
        (false, false, false) => json!(in alloc; []),
    }
}

fn select_value(alloc: Global, select: &Select) -> Result<Value, AllocError>
    ensures { IfOk result (λ value. view value ≡ select_data select.now) }
{
    match select {
        Select::All => json!(in alloc; {"all": true}),
        Select::Slot(slot) => json!(in alloc; {"slot": *slot}),
        Select::Prefix(text) => json!(in alloc; {"prefix": text.as_str()}),
        Select::User(user) => json!(in alloc; {"user": *user}),
        Select::Kind(text) => json!(in alloc; {"type": text.as_str()}),
    }
}

/// A rule, by the values of its audiences, its days and its selector.
fn terms_value(
    alloc: Global,
    audiences: Value,
    effect: &str,
    from: Value,
    rank: u16,
    select: Value,
    until: Value,
) -> Result<Value, AllocError>
    ensures { IfOk result (λ value.
        view value ≡ terms_data (view audiences) effect.now (view from) rank (view select) (view until)) }
{
    json!(in alloc; {
        "audiences": audiences,
        "effect": effect,
        "from": from,
        "rank": rank,
        "select": select,
        "until": until
    })
}

/// A rule, with its rank.
fn rule_value(alloc: Global, rule: &Rule) -> Result<Value, NoMemory>
    requires { IsRule rule.now }
    ensures { IfOk result (λ value. view value ≡ rule_data rule.now) }
{
    let audiences = audiences_value(alloc, rule.audiences)?;
    let from = day_value(alloc, rule.from)?;
    let select = select_value(alloc, &rule.select)?;
    let until = day_value(alloc, rule.until)?;
    let effect = rule.effect.word();
    Ok(terms_value(alloc, audiences, effect, from, rule.rank, select, until)?)
}

fn deed_value(alloc: Global, num: u32, donor: &str, signed: i32) -> Result<Value, NoMemory>
    requires { IsDay signed }
    ensures { IfOk result (λ value. view value ≡ change_data (Change.Deed num donor.now signed)) }
{
    let signed = date_value(alloc, signed)?;
    Ok(json!(in alloc; {"deed": {"deed": num, "donor": donor, "signed": signed}})?)
}

/// An image, by the value of its digest and the word of its kind.
fn deposit_value(
    alloc: Global,
    acc: u32,
    deed: u32,
    digest: Value,
    kind: &str,
) -> Result<Value, AllocError>
    ensures { IfOk result (λ value. view value ≡ deposit_data acc deed (view digest) kind.now) }
{
    json!(in alloc; {
        "image": {"accession": acc, "deed": deed, "digest": digest, "kind": kind}
    })
}

fn image_value(
    alloc: Global,
    acc: u32,
    kind: Kind,
    deed: u32,
    digest: [u8; 32],
) -> Result<Value, NoMemory>
    ensures { IfOk result (λ value. view value ≡ change_data (Change.Image acc kind deed digest)) }
{
    let digest = digest_value(alloc, digest)?;
    Ok(deposit_value(alloc, acc, deed, digest, kind.word())?)
}

fn put_value(alloc: Global, rule: &Rule) -> Result<Value, NoMemory>
    requires { IsRule rule.now }
    ensures { IfOk result (λ value. view value ≡ change_data (Change.Rule rule.now)) }
{
    let terms = rule_value(alloc, rule)?;
    match rule.band {
        Band::Takedown => Ok(json!(in alloc; {
            "takedown": {"accession": rule.scope, "rule": terms}
        })?),
        Band::Deed => Ok(json!(in alloc; {"rule": {"deed": rule.scope, "rule": terms}})?),
    }
}

fn drop_value(alloc: Global, band: Band, scope: u32, rank: u16) -> Result<Value, AllocError>
    ensures { IfOk result (λ value. view value ≡ change_data (Change.DropRule band scope rank)) }
{
    match band {
        Band::Takedown => { json!(in alloc; {"drop_takedown": {"accession": scope, "rank": rank}}) }
        Band::Deed => json!(in alloc; {"drop_rule": {"deed": scope, "rank": rank}}),
    }
}

fn key_value(alloc: Global, digest: [u8; 32], audience: Audience) -> Result<Value, NoMemory>
    ensures { IfOk result (λ value. view value ≡ change_data (Change.Key digest audience)) }
{
    let digest = digest_value(alloc, digest)?;
    Ok(json!(in alloc; {"key": {"audience": audience.word(), "digest": digest}})?)
}

fn drop_key_value(alloc: Global, digest: [u8; 32]) -> Result<Value, NoMemory>
    ensures { IfOk result (λ value. view value ≡ change_data (Change.DropKey digest)) }
{
    let digest = digest_value(alloc, digest)?;
    Ok(json!(in alloc; {"drop_key": {"digest": digest}})?)
}

/// A change, as an object of one member.
fn change_value(alloc: Global, change: &Change) -> Result<Value, NoMemory>
    requires { IsChange change.now }
    ensures { IfOk result (λ value. view value ≡ change_data change.now) }
{
    match change {
        Change::Begin(count) => Ok(json!(in alloc; {"begin": *count})?),
        Change::Deed { num, donor, signed } => deed_value(alloc, *num, donor.as_str(), *signed),
        Change::Image {
            acc,
            kind,
            deed,
            digest,
        } => image_value(alloc, *acc, *kind, *deed, *digest),
        Change::Rule(rule) => put_value(alloc, rule),
        Change::DropRule { band, scope, rank } => Ok(drop_value(alloc, *band, *scope, *rank)?),
        Change::Key { digest, audience } => key_value(alloc, *digest, *audience),
        Change::DropKey { digest } => drop_key_value(alloc, *digest),
        Change::Void(cause) => Ok(json!(in alloc; {"void": cause.word()})?),
    }
}

/// An entry, with the values of its badge and its change.
fn line_value(
    alloc: Global,
    badge: Value,
    change: Value,
    entry: &Entry,
) -> Result<Value, AllocError>
    ensures { IfOk result (λ value. view value ≡ line_data (view badge) (view change) entry.now) }
{
    json!(in alloc; {
        "badge": badge,
        "change": change,
        "moment": entry.moment,
        "note": entry.note.as_str(),
        "number": entry.number,
        "staff": entry.staff.as_str()
    })
}

fn entry_value(alloc: Global, entry: &Entry) -> Result<Value, NoMemory>
    requires { IsEntry entry.now }
    ensures { IfOk result (λ value. view value ≡ entry_data entry.now) }
{
    let badge = badge_value(alloc, entry.badge)?;
    let change = change_value(alloc, &entry.change)?;
    Ok(line_value(alloc, badge, change, entry)?)
}

/// The line of an entry whose values are within their limits. It fails only when memory runs out.
pub fn line(alloc: Global, entry: &Entry) -> Result<Text, NoMemory>
    requires { IsEntry entry.now }
    ensures line { IfOk result (λ text. text ≡ line_of entry.now) }
    ensures utf8 { IfOk result IsUtf8 }
{
    let value = entry_value(alloc, entry)?;
    let text = value.to_string(alloc)?;
    // (what a `String` holds is UTF-8)
    let _utf8 = text.as_str().as_bytes();
    Ok(Text::of(text))
}
