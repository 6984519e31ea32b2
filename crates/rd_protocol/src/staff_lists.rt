//! The lists of what a desk holds, as JSON, for the staff.

ghost use Rattle.std.specs.Prelude.{◌≡◌, false, IfOk, OnOk, map, option_map, string_bytes};
ghost use Rattle.serde.specs.Event.{Log};
ghost use Rattle.serde_json.specs.Data.{Data, array};
ghost use Rattle.serde_json.specs.Events.{SendsValue};
ghost use Rattle.serde_json.specs.View.{items_of};
ghost use Rattle.serde_json.specs.Written.{items_have_float};
ghost use Rattle.hex.specs.Hex.{encode_lower};
ghost use Rattle.rd_policy.specs.Audiences.{audience_word};
ghost use Rattle.rd_protocol.specs.DayTexts.{day_text};
ghost use Rattle.rd_protocol.specs.Texts.{audience_words, check_data, deed_data, in_json, key_data, list_data, one_member, rule_data, select_data, takedown_data};
ghost use Rattle.rd_holdings.specs.Findings.{outcome_word};

use crate::lists::{listed_reply, send_member};
use crate::response::{CheckLine, DeedLine, KeyLine, Reply, TakedownLine};
use rd_geometry::{NoMemory, Text};
use rd_holdings::Finding;
use rd_policy::{Audiences, Rule, Select, date_text, is_day};
use serde::{Described, Serialize, Serializer};
use std::alloc::Global;

/// An entry of a list that the staff reads, as a value of JSON.
pub(crate) trait ListItem {
    /// The value.
    ghost value: { Self → Data };

    /// Sends the value. The allocator is for dates and digests.
    fn send<S: Serializer>(&self, alloc: Global, out: &mut S) -> Result<(), S::Error>
        ensures { OnOk result (SendsValue (value self.now) (S.written out.old) (S.written out.new)) };
}

/// The date of a day. It fails also where the day has none.
pub(crate) fn date(alloc: Global, day: i32) -> Result<Text, NoMemory>
    ensures { IfOk result (λ text. text ≡ day_text day) }
{
    if !is_day(day) {
        return Err(NoMemory);
    }
    Ok(Text::of(date_text(alloc, day)?))
}

/// The date of a day, if there is one.
fn date_if(alloc: Global, day: Option<i32>) -> Result<Option<Text>, NoMemory>
    ensures { IfOk result (λ text. text ≡ option_map day_text day) }
{
    match day {
        Some(day) => Ok(Some(date(alloc, day)?)),
        None => Ok(None),
    }
}

fn words(set: Audiences) -> &'static [&'static str]
    ensures { map (λ word. word.now) result.now ≡ audience_words set }
{
    match (set.public, set.room, set.staff) {
        (true, true, true) => &["public", "room", "staff"],
        (true, true, false) => &["public", "room"],
        (true, false, true) => &["public", "staff"],
        (true, false, false) => &["public"],
        (false, true, true) => &["room", "staff"],
        (false, true, false) => &["room"],
        (false, false, true) => &["staff"],
        (false, false, false) => &[],
    }
}

/// Sends an object of one member.
fn send_one<V: Serialize, S: Serializer>(out: &mut S, key: &str, value: &V) -> Result<(), S::Error>
    ensures { (d : Data) → ((before after : Log) → V.writes value.now before after → SendsValue d before after)
        → OnOk result (SendsValue (one_member key.now d) (S.written out.old) (S.written out.new)) }
{
    out.begin_map(Some(1))?;
    send_member(out, key, value)?;
    out.end_map()
}

/// Which files a rule is about.
#[derive(Clone, Copy)]
struct Selected<'a> {
    select: &'a Select,
}

impl Described for Selected<'_> {
    ghost writes = { λ selected. SendsValue (select_data selected.select.now) };
}

impl Serialize for Selected<'_> {
    fn serialize<S: Serializer>(&self, out: &mut S) -> Result<(), S::Error> {
        match self.select {
            Select::All => send_one(out, "all", &true),
            Select::Slot(slot) => send_one(out, "slot", slot),
            Select::Prefix(text) => send_one(out, "prefix", &text.as_str()),
            Select::User(user) => send_one(out, "user", user),
            Select::Kind(text) => send_one(out, "type", &text.as_str()),
        }
    }
}

/// Sends a rule, with the dates of its days.
fn send_rule<S: Serializer>(
    out: &mut S,
    rule: &Rule,
    from: Option<&str>,
    until: Option<&str>,
) -> Result<(), S::Error>
    requires from { option_map (λ text. text.now) from ≡ option_map day_text rule.now.from }
    requires until { option_map (λ text. text.now) until ≡ option_map day_text rule.now.until }
    ensures { OnOk result (SendsValue (rule_data rule.now) (S.written out.old) (S.written out.new)) }
{
    let select = Selected {
        select: &rule.select,
    };
    out.begin_map(Some(6))?;
    send_member(out, "audiences", &words(rule.audiences))?;
    send_member(out, "effect", &rule.effect.word())?;
    send_member(out, "from", &from)?;
    send_member(out, "rank", &rule.rank)?;
    send_member(out, "select", &select)?;
    send_member(out, "until", &until)?;
    out.end_map()
}

/// A text that there may be, as it is sent.
fn str_of(text: &Option<Text>) -> Option<&str>
    ensures { option_map (λ text. text.now) result ≡ text.now }
{
    match text {
        Some(text) => Some(text.as_str()),
        None => None,
    }
}

impl ListItem for Rule {
    ghost value = { rule_data };

    fn send<S: Serializer>(&self, alloc: Global, out: &mut S) -> Result<(), S::Error> {
        let Ok(from) = date_if(alloc, self.from) else {
            return Err(out.custom("no memory"));
        };
        let Ok(until) = date_if(alloc, self.until) else {
            return Err(out.custom("no memory"));
        };
        send_rule(out, self, str_of(&from), str_of(&until))
    }
}

/// Sends what stands, as an array.
fn send_all<T: ListItem, S: Serializer>(
    out: &mut S,
    alloc: Global,
    items: &[T],
) -> Result<(), S::Error>
    ensures { OnOk result (SendsValue (array (items_of (map T.value items.now))) (S.written out.old) (S.written out.new)) }
{
    out.begin_seq(Some(items.len()))?;
    for item in items {
        item.send(alloc, out)?;
    }
    out.end_seq()
}

/// Sends a deed, with the date on which it was signed.
fn send_deed<S: Serializer>(
    out: &mut S,
    alloc: Global,
    line: &DeedLine,
    signed: &str,
) -> Result<(), S::Error>
    requires { signed.now ≡ day_text line.now.signed }
    ensures { OnOk result (SendsValue (deed_data line.now) (S.written out.old) (S.written out.new)) }
{
    out.begin_map(Some(5))?;
    send_member(out, "accessions", &line.accessions)?;
    send_member(out, "deed", &line.deed)?;
    send_member(out, "donor", &line.donor.as_str())?;
    out.key("rules")?;
    send_all(out, alloc, line.rules.as_slice())?;
    send_member(out, "signed", &signed)?;
    out.end_map()
}

impl ListItem for DeedLine {
    ghost value = { deed_data };

    fn send<S: Serializer>(&self, alloc: Global, out: &mut S) -> Result<(), S::Error> {
        let Ok(signed) = date(alloc, self.signed) else {
            return Err(out.custom("no memory"));
        };
        send_deed(out, alloc, self, signed.as_str())
    }
}

impl ListItem for TakedownLine {
    ghost value = { takedown_data };

    fn send<S: Serializer>(&self, alloc: Global, out: &mut S) -> Result<(), S::Error> {
        out.begin_map(Some(2))?;
        send_member(out, "accession", &self.accession)?;
        out.key("rules")?;
        send_all(out, alloc, self.rules.as_slice())?;
        out.end_map()
    }
}

/// Sends a desk key, by the digits of its digest.
fn send_key<S: Serializer>(out: &mut S, audience: &str, digest: &str) -> Result<(), S::Error>
    ensures { (line : _) → audience.now ≡ audience_word line.audience → digest.now ≡ encode_lower line.digest
        → OnOk result (SendsValue (key_data line) (S.written out.old) (S.written out.new)) }
{
    out.begin_map(Some(2))?;
    send_member(out, "audience", &audience)?;
    send_member(out, "digest", &digest)?;
    out.end_map()
}

impl ListItem for KeyLine {
    ghost value = { key_data };

    fn send<S: Serializer>(&self, alloc: Global, out: &mut S) -> Result<(), S::Error> {
        let Ok(digest) = hex::encode(alloc, self.digest) else {
            return Err(out.custom("no memory"));
        };
        send_key(out, self.audience.word(), digest.as_str())
    }
}

/// Sends an accession, with the date of its latest check and the word for what it found.
fn send_check<S: Serializer>(
    out: &mut S,
    line: &CheckLine,
    day: Option<&str>,
    outcome: Option<&str>,
) -> Result<(), S::Error>
    requires day { option_map (λ text. text.now) day ≡ option_map day_text (option_map (λ last. last.day) line.now.last) }
    requires outcome { option_map (λ text. text.now) outcome ≡ option_map (λ last. outcome_word last.outcome) line.now.last }
    ensures { OnOk result (SendsValue (check_data line.now) (S.written out.old) (S.written out.new)) }
{
    out.begin_map(Some(3))?;
    send_member(out, "accession", &line.accession)?;
    send_member(out, "day", &day)?;
    send_member(out, "outcome", &outcome)?;
    out.end_map()
}

/// The day of a latest check.
fn day_of(last: Option<Finding>) -> Option<i32>
    ensures { result ≡ option_map (λ last. last.day) last }
{
    match last {
        Some(last) => Some(last.day),
        None => None,
    }
}

/// The word for what a latest check found.
fn word_of(last: Option<Finding>) -> Option<&'static str>
    ensures { option_map (λ text. text.now) result ≡ option_map (λ last. outcome_word last.outcome) last }
{
    match last {
        Some(last) => Some(last.outcome.word()),
        None => None,
    }
}

impl ListItem for CheckLine {
    ghost value = { check_data };

    fn send<S: Serializer>(&self, alloc: Global, out: &mut S) -> Result<(), S::Error> {
        let Ok(day) = date_if(alloc, day_of(self.last)) else {
            return Err(out.custom("no memory"));
        };
        send_check(out, self, str_of(&day), word_of(self.last))
    }
}

/// What stands, as an object whose one member is a list.
#[derive(Clone, Copy)]
struct NamedList<'a, T> {
    alloc: Global,
    key: &'a str,
    items: &'a [T],
}

impl<T: ListItem> Described for NamedList<'_, T> {
    ghost writes = { λ list. SendsValue (list_data list.key.now T.value list.items.now) };
}

impl<T: ListItem> Serialize for NamedList<'_, T> {
    fn serialize<S: Serializer>(&self, out: &mut S) -> Result<(), S::Error> {
        out.begin_map(Some(1))?;
        out.key(self.key)?;
        send_all(out, self.alloc, self.items)?;
        out.end_map()
    }
}

/// The reply that gives a list of what stands.
pub(crate) fn list_reply<T: ListItem>(
    alloc: Global,
    key: &str,
    items: &[T],
) -> Result<Reply, NoMemory>
    requires { items_have_float (items_of (map T.value items.now)) ≡ false }
    ensures { IfOk result (λ reply. reply ≡ in_json 200 (list_data key.now T.value items.now)) }
{
    match serde_json::to_string(alloc, &NamedList { alloc, key, items }) {
        Ok(text) => Ok(listed_reply(text)),
        Err(_) => Err(NoMemory),
    }
}
