//! What stands in a value of JSON.

ghost use Rattle.std.specs.Prelude.{◌≡◌, ◌^◌, ◌<◌, ℕ, ℤ, List, [], Option, Some, IfOk, IfSome, bytes_eq, option_map, unwrap_or};
ghost use Rattle.std.specs.List.{list_any};
ghost use Rattle.hex.specs.Hex.{encode_lower};
ghost use Rattle.serde_json.specs.Data.{Data, string};
ghost use Rattle.serde_json.specs.Find.{as_str, get};
ghost use Rattle.serde_json.specs.View.{view};
ghost use Rattle.rd_policy.specs.Days.{HasDay, IsDay};
ghost use Rattle.rd_policy.specs.declared.audience.Audiences.{Audiences};
ghost use Rattle.rd_protocol.specs.DayTexts.{day_text};
ghost use Rattle.rd_protocol.specs.Texts.{audience_words, day_or_null, natural, one_member, text_or_null, texts};
ghost use Rattle.rd_history.specs.Entries.{IsDigest};
ghost use Rattle.rd_history.specs.Lines.{digest_data, integer};
ghost use Rattle.rd_history.specs.Reading.{first_member};

use rd_geometry::{NoMemory, Text};
use rd_policy::{Audiences, DateFault, date_read};
use serde_json::Value;
use std::alloc::Global;

/// What stands at a key of an object; the value itself where nothing does.
pub(crate) fn at<'v>(value: &'v Value, key: &str) -> &'v Value
    ensures { (found : Data) → get key.now (view value.now) ≡ Some found → view result.now ≡ found }
{
    value.get(key).unwrap_or(value)
}

/// The first key of an object and what stands there; no text and the value itself where nothing does.
pub(crate) fn member_of(value: &Value) -> (&str, &Value)
    ensures { one_member result.0.now (view result.1.now) ≡ first_member (view value.now) }
{
    let Some(members) = value.as_object() else {
        return ("", value);
    };
    match members.first_key_value() {
        Some((key, found)) => (key.as_str(), found),
        None => ("", value),
    }
}

/// The text that a value is; the empty one if it is none.
pub(crate) fn text_of(value: &Value) -> &str
    ensures { result.now ≡ unwrap_or (as_str (view value.now)) [] }
{
    value.as_str().unwrap_or("")
}

pub(crate) fn copy_of(alloc: Global, value: &Value) -> Result<Text, NoMemory>
    ensures { IfOk result (λ read. (text : List ℕ) → view value.now ≡ string text → read ≡ text) }
{
    Ok(Text::of(String::from_str(alloc, text_of(value))?))
}

pub(crate) fn number_of(value: &Value) -> u32
    ensures { (number : ℕ) → number < 2 ^ 32 → view value.now ≡ natural number → result ≡ number }
{
    u32::try_from(value.as_u64().unwrap_or(0)).unwrap_or(0)
}

/// A rank, or the number of a slot.
pub(crate) fn short_of(value: &Value) -> u16
    ensures { (number : ℕ) → number < 2 ^ 16 → view value.now ≡ natural number → result ≡ number }
{
    u16::try_from(number_of(value)).unwrap_or(0)
}

#[tactic(auto, using(crate::proofs::ReadingLemmas::moment_read))]
pub(crate) fn moment_of(value: &Value) -> i64
    ensures { (moment : ℤ) → HasDay moment → view value.now ≡ integer moment → result ≡ moment }
{
    value.as_i64().unwrap_or(0)
}

#[tactic(auto, using(crate::proofs::ReadingLemmas::digest_read))]
pub(crate) fn digest_of(value: &Value) -> [u8; 32]
    ensures reads { (digest : List ℕ) → IsDigest digest → view value.now ≡ digest_data digest
        → result ≡ digest }
    ensures bytes { IsDigest result }
{
    rd_protocol::digest(text_of(value)).unwrap_or([0; 32])
}

pub(crate) fn badge_of(value: &Value) -> Option<[u8; 32]>
    ensures reads { (badge : Option (List ℕ)) → IfSome badge IsDigest
        → view value.now ≡ text_or_null (option_map encode_lower badge) → result ≡ badge }
    ensures bytes { IfSome result IsDigest }
{
    if value.is_null() {
        None
    } else {
        Some(digest_of(value))
    }
}

pub(crate) fn date_of(alloc: Global, value: &Value) -> Result<i32, NoMemory>
    ensures { IfOk result
        (λ read. (day : ℤ) → IsDay day → view value.now ≡ string (day_text day) → read ≡ day) }
{
    match date_read(alloc, text_of(value)) {
        Ok(day) => Ok(day),
        Err(DateFault::BadDate) => Ok(0),
        Err(DateFault::NoMemory) => Err(NoMemory),
    }
}

pub(crate) fn day_of(alloc: Global, value: &Value) -> Result<Option<i32>, NoMemory>
    ensures { IfOk result
        (λ read. (day : Option ℤ) → IfSome day IsDay → view value.now ≡ day_or_null day → read ≡ day) }
{
    if value.is_null() {
        return Ok(None);
    }
    Ok(Some(date_of(alloc, value)?))
}

/// Whether one of the values is a word.
fn has_word(values: &[Value], word: &str) -> bool
    ensures { result ≡ list_any (λ value. bytes_eq (unwrap_or (as_str (view value)) []) word.now) values.now }
{
    values.iter().any(|value| text_of(value) == word)
}

pub(crate) fn audiences_of(value: &Value) -> Audiences
    ensures { (set : Audiences) → view value.now ≡ texts (audience_words set) → result ≡ set }
{
    let Some(values) = value.as_array() else {
        return Audiences {
            public: false,
            room: false,
            staff: false,
        };
    };
    let values = values.as_slice();
    Audiences {
        public: has_word(values, "public"),
        room: has_word(values, "room"),
        staff: has_word(values, "staff"),
    }
}
