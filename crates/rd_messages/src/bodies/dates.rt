//! Days, written as dates.

ghost use Rattle.std.specs.Prelude.{IfNone, IfOk, IfSome, MatchOption, Option, ℤ};
ghost use Rattle.serde_json.specs.View.{view};
ghost use Rattle.rd_policy.specs.Dates.{IsDateOf, IsNoDate};
ghost use Rattle.rd_messages.specs.RequestBodies.{HasDayAt};

use rd_geometry::NoMemory;
use rd_policy::{DateFault, date_read};
use serde_json::Value;
use std::alloc::Global;

/// The day of a date, counted from 1970-01-01; `None` if the text is no date. It fails only when
/// memory runs out.
pub(crate) fn day_of(alloc: Global, date: &str) -> Result<Option<i32>, NoMemory>
    ensures { IfOk result (λ read. MatchOption read (IsNoDate date.now) (λ day. IsDateOf day date.now)) }
{
    match date_read(alloc, date) {
        Ok(day) => Ok(Some(day)),
        Err(DateFault::BadDate) => Ok(None),
        Err(DateFault::NoMemory) => Err(NoMemory),
    }
}

/// The day at a key of an object, where a day may be absent: `Some(None)` if there is nothing or
/// null at the key, and `None` if there is something other than a date. It fails only when memory
/// runs out.
pub(crate) fn day_at(
    alloc: Global,
    value: &Value,
    key: &str,
) -> Result<Option<Option<i32>>, NoMemory>
    ensures parsed { IfOk result (λ read. IfSome read (λ day. HasDayAt key.now (view value.now) day)) }
    ensures none { IfOk result
        (λ read. IfNone read ((day : Option ℤ) → ¬ HasDayAt key.now (view value.now) day)) }
{
    let Some(found) = value.get(key) else {
        return Ok(Some(None));
    };
    if found.is_null() {
        return Ok(Some(None));
    }
    let Some(date) = found.as_str() else {
        return Ok(None);
    };
    match day_of(alloc, date)? {
        Some(day) => Ok(Some(Some(day))),
        None => Ok(None),
    }
}
