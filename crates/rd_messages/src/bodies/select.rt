//! Selectors of rules, each an object of one member.

ghost use Rattle.std.specs.Prelude.{◌≡◌, ◌^◌, ◌≤◌, ℕ, Some, IfNone, IfOk, IfSome};
ghost use Rattle.serde_json.specs.Data.{number, unsigned};
ghost use Rattle.serde_json.specs.Find.{as_str, get};
ghost use Rattle.serde_json.specs.View.{view};
ghost use Rattle.rd_policy.specs.Rules.{IsSelect};
ghost use Rattle.rd_policy.specs.declared.select.Select.{Select};
ghost use Rattle.rd_messages.specs.Objects.{one_member};
ghost use Rattle.rd_messages.specs.RequestBodies.{select_data};

use crate::bodies::objects::only_member;
use rd_geometry::{NoMemory, Text};
use rd_policy::Select;
use serde_json::Value;
use std::alloc::Global;

/// The number of a slot that a value is; `None` if it is no whole number of 16 bits.
fn slot_of(value: &Value) -> Option<u16>
    ensures parsed { IfSome result (λ slot. view value.now ≡ number (unsigned slot)) }
    ensures none { IfNone result
        ((slot : ℕ) → view value.now ≡ number (unsigned slot) → 2 ^ 16 ≤ slot) }
{
    match value.as_u64() {
        Some(number) => u16::try_from(number).ok(),
        None => None,
    }
}

/// The number of a user that a value is; `None` if it is no whole number of 8 bits.
fn user_of(value: &Value) -> Option<u8>
    ensures parsed { IfSome result (λ user. view value.now ≡ number (unsigned user)) }
    ensures none { IfNone result
        ((user : ℕ) → view value.now ≡ number (unsigned user) → 2 ^ 8 ≤ user) }
{
    match value.as_u64() {
        Some(number) => u8::try_from(number).ok(),
        None => None,
    }
}

/// The text that a value is; `None` if it is no text. It fails only when memory runs out.
fn text_of(alloc: Global, value: &Value) -> Result<Option<Text>, NoMemory>
    ensures { IfOk result (λ read. read ≡ as_str (view value.now)) }
{
    match value.as_str() {
        Some(text) => Ok(Some(Text::of(String::from_str(alloc, text)?))),
        None => Ok(None),
    }
}

/// The selector that this key and value write; `None` if they write none, or none within its
/// limits. It fails only when memory runs out.
fn select_of(alloc: Global, key: &str, value: &Value) -> Result<Option<Select>, NoMemory>
    ensures parsed { IfOk result
        (λ read. IfSome read (λ select. one_member key.now (view value.now) ≡ select_data select)) }
    ensures none { IfOk result (λ read. IfNone read
        ((select : Select) → one_member key.now (view value.now) ≡ select_data select → ¬ IsSelect select)) }
{
    match key {
        "all" => match value.as_bool() {
            Some(true) => Ok(Some(Select::All)),
            _ => Ok(None),
        },
        "slot" => Ok(slot_of(value).map(Select::Slot)),
        "prefix" => Ok(text_of(alloc, value)?.map(Select::Prefix)),
        "user" => Ok(user_of(value).map(Select::User)),
        "type" => Ok(text_of(alloc, value)?.map(Select::Kind)),
        _ => Ok(None),
    }
}

/// The selector at a key of an object; `None` if there is none, or none within its limits. It
/// fails only when memory runs out.
pub(crate) fn select_at(alloc: Global, value: &Value, key: &str) -> Result<Option<Select>, NoMemory>
    ensures parsed { IfOk result
        (λ read. IfSome read (λ select. get key.now (view value.now) ≡ Some (select_data select))) }
    ensures none { IfOk result (λ read. IfNone read
        ((select : Select) → get key.now (view value.now) ≡ Some (select_data select) → ¬ IsSelect select)) }
{
    let Some(select) = value.get(key) else {
        return Ok(None);
    };
    match only_member(select) {
        Some((key, value)) => select_of(alloc, key, value),
        None => Ok(None),
    }
}
