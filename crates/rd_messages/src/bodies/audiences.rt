//! Audiences, written as their words.

ghost use Rattle.std.specs.Prelude.{◌≡◌, ◌≢◌, ◌↔◌, ◌⊎◌, IfNone, IfSome, map};
ghost use Rattle.serde_json.specs.Data.{string};
ghost use Rattle.serde_json.specs.View.{view};
ghost use Rattle.rd_policy.specs.Audiences.{IsAmong, audience_word};
ghost use Rattle.rd_policy.specs.declared.audience.Audience.{Audience};
ghost use Rattle.rd_policy.specs.declared.audience.Audiences.{Audiences};
ghost use Rattle.rd_messages.specs.RequestBodies.{HasAudiencesAt, NameAudiences};

use rd_policy::{Audience, Audiences};
use serde_json::Value;

/// The set of no audience.
const NOBODY: Audiences = Audiences {
    public: false,
    room: false,
    staff: false,
};

/// The audience whose word a value is; `None` if it is no such word.
pub(crate) fn audience_of(value: &Value) -> Option<Audience>
    ensures parsed { IfSome result (λ audience. view value.now ≡ string (audience_word audience)) }
    ensures none { IfNone result
        ((audience : Audience) → view value.now ≢ string (audience_word audience)) }
{
    Audience::from_word(value.as_str()?)
}

/// A set with one more audience.
fn with(set: Audiences, audience: Audience) -> Audiences
    ensures { (other : Audience) → IsAmong result other ↔ (IsAmong set other ⊎ (audience ≡ other)) }
{
    match audience {
        Audience::Public => Audiences {
            public: true,
            ..set
        },
        Audience::Room => Audiences { room: true, ..set },
        Audience::Staff => Audiences { staff: true, ..set },
    }
}

/// The set of the audiences whose words the values are; `None` if there is no value, one is no
/// such word, or one comes twice.
fn audiences_in(values: &[Value]) -> Option<Audiences>
    ensures parsed { IfSome result (NameAudiences (map view values.now)) }
    ensures none { IfNone result ((set : Audiences) → ¬ NameAudiences (map view values.now) set) }
{
    let mut set = NOBODY;
    for value in values {
        let audience = audience_of(value)?;
        if set.contains(audience) {
            return None;
        }
        set = with(set, audience);
    }
    if set.is_empty() { None } else { Some(set) }
}

/// The set of audiences that an array at a key of an object names; `None` if it names none.
pub(crate) fn audiences_at(value: &Value, key: &str) -> Option<Audiences>
    ensures parsed { IfSome result (HasAudiencesAt key.now (view value.now)) }
    ensures none { IfNone result ((set : Audiences) → ¬ HasAudiencesAt key.now (view value.now) set) }
{
    let values = value.get(key)?.as_array()?;
    audiences_in(values.as_slice())
}
