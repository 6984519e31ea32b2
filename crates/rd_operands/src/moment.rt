//! The first moment of a day.

ghost use Rattle.std.specs.Prelude.{◌≡◌, ◌^◌, ◌+ℤ◌, ◌-ℤ◌, ◌*ℤ◌, ◌≤ℤ◌, ◌↔◌, neg_ℤ, pos};
ghost use Rattle.std.specs.Prelude.{IfNone, IfSome, IsTrue};
ghost use Rattle.rd_operands.specs.Moments.{HasNoMoment, HasNoneFrom, HasOneMoment};
ghost use Rattle.rd_operands.specs.Moments.{IsFirstFrom, IsFirstMoment, IsOnDay};

use rd_policy::{Zone, day_of};

/// How many seconds clocks may be ahead of UTC, or behind it.
const FARTHEST: i64 = 93_599;

/// In how many seconds the clocks of some place may show a day: its 86,400, and twice as many as `FARTHEST`.
const SPAN: u32 = 273_598;

/// Whether the clocks of a zone show a day at a moment.
fn is_on_day(day: i32, zone: &Zone, seconds: i64) -> bool
    ensures { IsTrue result ↔ IsOnDay day zone.now seconds }
{
    match day_of(seconds, zone) {
        Ok(found) => found == day,
        Err(_) => false,
    }
}

/// The first second at which the clocks of some place may show a day.
fn earliest(day: i32) -> i64
    ensures { result ≡ day *ℤ pos 86_400 -ℤ pos 93_599 }
{
    i64::from(day) * 86_400 - FARTHEST
}

/// The moment some seconds after another.
fn moment_after(start: i64, seconds: u32) -> i64
    requires low { neg_ℤ (pos (2 ^ 62)) ≤ℤ start }
    requires high { start ≤ℤ pos (2 ^ 62) }
    ensures { result ≡ start +ℤ pos seconds }
{
    start + i64::from(seconds)
}

/// The first of so many seconds from a moment on at which the clocks of a zone show a day.
fn first_from(start: i64, count: u32, day: i32, zone: &Zone) -> Option<i64>
    requires low { neg_ℤ (pos (2 ^ 62)) ≤ℤ start }
    requires high { start ≤ℤ pos (2 ^ 62) }
    ensures found { IfSome result (IsFirstFrom start day zone.now) }
    ensures none { IfNone result (HasNoneFrom start (start +ℤ pos count) day zone.now) }
{
    for place in 0..count {
        let seconds = moment_after(start, place);
        if is_on_day(day, zone, seconds) {
            return Some(seconds);
        }
    }
    None
}

/// The first moment at which the clocks of a zone show a day, counted from 1970-01-01; `None` if they show it
/// at no moment that has a day. It takes no memory. Clocks that go back at midnight can show a day, the day
/// before, and the day again: the moment is the first of all.
pub fn first_moment(day: i32, zone: &Zone) -> Option<i64>
    ensures first { IfSome result (λ seconds. IsFirstMoment day zone.now seconds) }
    ensures none { IfNone result (HasNoMoment day zone.now) }
{
    first_from(earliest(day), SPAN, day, zone)
}

/// Law: a day has one first moment in a zone.
pub fn one_moment()
    ensures { HasOneMoment }
{}
