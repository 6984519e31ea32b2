ghost use Rattle.std.specs.Prelude.{IfNone, IfOk, IfSome};
ghost use Rattle.serde_json.specs.View.{view};
ghost use Rattle.rd_messages.specs.RequestBodies.{IsDeedBody, IsNoDeedBody, TellsDeed, TellsNoDeed};

use crate::bodies::dates::day_of;
use crate::bodies::objects::{has_only, text_at, value_of};
use rd_geometry::{NoMemory, Text};
use serde_json::Value;
use std::alloc::Global;

/// Who gave the disks, and the day on which they signed the deed; `None` if the value describes no
/// deed. It fails only when memory runs out.
fn deed_of(alloc: Global, value: &Value) -> Result<Option<(Text, i32)>, NoMemory>
    ensures parsed { IfOk result (λ read. IfSome read (λ deed. TellsDeed (view value.now) deed.0 deed.1)) }
    ensures none { IfOk result (λ read. IfNone read (TellsNoDeed (view value.now))) }
{
    if !has_only(value, &["donor", "signed"]) {
        return Ok(None);
    }
    let Some(donor) = text_at(value, "donor") else {
        return Ok(None);
    };
    let Some(date) = text_at(value, "signed") else {
        return Ok(None);
    };
    let Some(signed) = day_of(alloc, date)? else {
        return Ok(None);
    };
    Ok(Some((Text::of(String::from_str(alloc, donor)?), signed)))
}

/// What the body of a command to put a deed says: who gave the disks, with any bytes, and the day
/// on which they signed the deed, of the years 1 to 9999, counted from 1970-01-01. `None` if it
/// describes no deed. It fails only when memory runs out.
pub(crate) fn deed_body(alloc: Global, body: &[u8]) -> Result<Option<(Text, i32)>, NoMemory>
    ensures parsed { IfOk result (λ read. IfSome read (λ deed. IsDeedBody body.now deed.0 deed.1)) }
    ensures none { IfOk result (λ read. IfNone read (IsNoDeedBody body.now)) }
{
    match value_of(alloc, body)? {
        Some(value) => deed_of(alloc, &value),
        None => Ok(None),
    }
}
