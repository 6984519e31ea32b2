ghost use Rattle.std.specs.Prelude.{◌≡◌, ◌≢◌, Some, IfNone, IfOk, IfSome};
ghost use Rattle.serde_json.specs.View.{view};
ghost use Rattle.rd_policy.specs.Rules.{effect_word};
ghost use Rattle.rd_policy.specs.declared.rule.Effect.{Effect};
ghost use Rattle.rd_messages.specs.Objects.{text_at};
ghost use Rattle.rd_messages.specs.RequestBodies.{HasPlace, IsNoRuleBody, IsRuleBody, TellsNoRule, TellsRule};

use crate::bodies::audiences::audiences_at;
use crate::bodies::dates::day_at;
use crate::bodies::objects::{has_only, text_at, value_of};
use crate::bodies::select::select_at;
use rd_geometry::NoMemory;
use rd_policy::{Band, Effect, Rule};
use serde_json::Value;
use std::alloc::Global;

/// The effect whose word is at a key of an object; `None` if there is no such word.
fn effect_at(value: &Value, key: &str) -> Option<Effect>
    ensures parsed { IfSome result (λ effect. text_at key.now (view value.now) ≡ Some (effect_word effect)) }
    ensures none { IfNone result
        ((effect : Effect) → text_at key.now (view value.now) ≢ Some (effect_word effect)) }
{
    Effect::from_word(text_at(value, key)?)
}

/// The rule that a value describes, of a band, scope and rank; `None` if it describes none, or
/// none within its limits. It fails only when memory runs out.
fn rule_of(
    alloc: Global,
    band: Band,
    scope: u32,
    rank: u16,
    value: &Value,
) -> Result<Option<Rule>, NoMemory>
    ensures parsed { IfOk result (λ read. IfSome read (TellsRule (view value.now))) }
    ensures place { IfOk result (λ read. IfSome read (HasPlace band scope rank)) }
    ensures none { IfOk result (λ read. IfNone read (TellsNoRule (view value.now))) }
{
    if !has_only(value, &["audiences", "effect", "from", "select", "until"]) {
        return Ok(None);
    }
    let Some(audiences) = audiences_at(value, "audiences") else {
        return Ok(None);
    };
    let Some(effect) = effect_at(value, "effect") else {
        return Ok(None);
    };
    let Some(from) = day_at(alloc, value, "from")? else {
        return Ok(None);
    };
    let Some(until) = day_at(alloc, value, "until")? else {
        return Ok(None);
    };
    let Some(select) = select_at(alloc, value, "select")? else {
        return Ok(None);
    };
    Ok(Some(Rule {
        band,
        scope,
        rank,
        audiences,
        from,
        until,
        select,
        effect,
    }))
}

/// The rule that the body of a command to put a rule describes, of a band, scope and rank. `None`
/// if it describes none; it may also be `None` if the slot is above 65,535 or the user above 255,
/// and so beyond the limits of a rule. It checks no other limit. It fails only when memory runs
/// out.
pub(crate) fn rule_body(
    alloc: Global,
    band: Band,
    scope: u32,
    rank: u16,
    body: &[u8],
) -> Result<Option<Rule>, NoMemory>
    ensures parsed { IfOk result (λ read. IfSome read (IsRuleBody band scope rank body.now)) }
    ensures none { IfOk result (λ read. IfNone read (IsNoRuleBody band scope rank body.now)) }
{
    match value_of(alloc, body)? {
        Some(value) => rule_of(alloc, band, scope, rank, &value),
        None => Ok(None),
    }
}
