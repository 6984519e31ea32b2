ghost use Rattle.std.specs.Prelude.{IfNone, IfOk, IfSome};
ghost use Rattle.serde_json.specs.View.{view};
ghost use Rattle.rd_messages.specs.RequestBodies.{IsKeyBody, IsNoKeyBody, TellsKey, TellsNoKey};

use crate::bodies::audiences::audience_of;
use crate::bodies::objects::{only_member, value_of};
use rd_geometry::NoMemory;
use rd_policy::Audience;
use serde_json::Value;
use std::alloc::Global;

/// The audience that a value gives a desk key; `None` if it gives none.
fn key_of(value: &Value) -> Option<Audience>
    ensures parsed { IfSome result (TellsKey (view value.now)) }
    ensures none { IfNone result (TellsNoKey (view value.now)) }
{
    let (key, member) = only_member(value)?;
    if key != "audience" {
        return None;
    }
    match audience_of(member)? {
        Audience::Public => None,
        Audience::Room => Some(Audience::Room),
        Audience::Staff => Some(Audience::Staff),
    }
}

/// What the body of a command to put a desk key says: whether the key is for the reading room or
/// for the staff. `None` if it says neither. It fails only when memory runs out.
pub(crate) fn key_body(alloc: Global, body: &[u8]) -> Result<Option<Audience>, NoMemory>
    ensures parsed { IfOk result (λ read. IfSome read (IsKeyBody body.now)) }
    ensures none { IfOk result (λ read. IfNone read (IsNoKeyBody body.now)) }
{
    match value_of(alloc, body)? {
        Some(value) => Ok(key_of(&value)),
        None => Ok(None),
    }
}
