//! The value of a body's text, and what an object has at its keys.

ghost use Rattle.std.specs.Prelude.{◌≡◌, ◌≢◌, ◌↔◌, ℕ, List, Contains, IfNone, IfOk, IfSome, IsTrue, MatchOption, map, option_map};
ghost use Rattle.serde_json.specs.Data.{Data};
ghost use Rattle.serde_json.specs.View.{members_view, view};
ghost use Rattle.rd_messages.specs.Objects.{AreKeysAmong, HasOnlyKeys, IsJson, IsNoJson, one_member, text_at};

use rd_geometry::NoMemory;
use serde_json::{Map, Value};
use std::alloc::Global;

/// The value whose text a body is; `None` if it is the text of no value. It fails only when memory
/// runs out.
pub(crate) fn value_of(alloc: Global, body: &[u8]) -> Result<Option<Value>, NoMemory>
    ensures { IfOk result (λ read. MatchOption read (IsNoJson body.now) (λ value. IsJson body.now (view value))) }
{
    match Value::from_slice(alloc, body) {
        Ok(value) => Ok(Some(value)),
        Err(fault) if fault.is_memory() => Err(NoMemory),
        Err(_) => Ok(None),
    }
}

/// Whether a key is one of these.
fn is_among(key: &str, keys: &[&str]) -> bool
    ensures { IsTrue result ↔ Contains (map (λ other. other.now) keys.now) key.now }
{
    keys.contains(&key)
}

/// Whether each key of the members is one of these.
fn are_among(members: &Map<String, Value>, keys: &[&str]) -> bool
    ensures { IsTrue result
        ↔ AreKeysAmong (map (λ key. key.now) keys.now) (members_view members.now.entries) }
{
    for (key, _) in members {
        if !is_among(key.as_str(), keys) {
            return false;
        }
    }
    true
}

/// Whether a value is an object with no other keys than these.
pub(crate) fn has_only(value: &Value, keys: &[&str]) -> bool
    ensures { IsTrue result ↔ HasOnlyKeys (map (λ key. key.now) keys.now) (view value.now) }
{
    match value.as_object() {
        Some(members) => are_among(members, keys),
        None => false,
    }
}

/// The text at a key of an object; `None` if there is no text.
pub(crate) fn text_at<'v>(value: &'v Value, key: &str) -> Option<&'v str>
    ensures { option_map (λ text. text.now) result ≡ text_at key.now (view value.now) }
{
    value.get(key).and_then(Value::as_str)
}

/// The key and the value of an object's only member; `None` if the value is no object of one
/// member.
pub(crate) fn only_member(value: &Value) -> Option<(&str, &Value)>
    ensures single { IfSome result (λ found. view value.now ≡ one_member found.0.now (view found.1.now)) }
    ensures none { IfNone result ((key : List ℕ) (member : Data) → view value.now ≢ one_member key member) }
{
    let members = value.as_object()?;
    if members.len() != 1 {
        return None;
    }
    let (key, member) = members.first_key_value()?;
    Some((key.as_str(), member))
}
