//! How long a connection lingers, when its reply is sent and its visitor still sends.

ghost use Rattle.std.specs.Duration.{as_nanos};
ghost use Rattle.std.specs.Prelude.{◌≡◌, ◌↔◌, ◌≤◌, ◌<◌, ◌+◌, ◌*◌, IfSome, IsSome, None, Some, [], drop, length};
ghost use Rattle.rd_messages.specs.Waits.{Ends, GoesOn, Lingers, next_of};

use crate::pace::{Clock, time_left};
use crate::stream::Stream;
use std::time::Duration;

/// How long a connection lingers at most, in milliseconds.
const LINGER_MILLISECONDS: u64 = 200;

/// How many bytes are read at most while a connection lingers.
const LINGER_BYTES: usize = 4_194_304;

/// What is left of the time that a connection lingers, which began at this millisecond; `None` if it is over, or if
/// the clock fails or has gone back.
fn linger_time<C: Clock>(clock: &mut C, began: u64) -> Option<Duration>
    ensures within { IfSome result (λ left. as_nanos left ≤ 200 * 1_000_000) }
    ensures left { IfSome (next_of (C.times clock.old)) (λ at. IfSome result (λ left.
        as_nanos left + at * 1_000_000 ≡ (200 + began) * 1_000_000)) }
    ensures lasts { IfSome (next_of (C.times clock.old)) (λ at. IsSome result ↔ ((began ≤ at) × (at < 200 + began))) }
    ensures ends { C.times clock.old ≡ Some [] → result ≡ None }
    ensures rest { IfSome (C.times clock.old) (λ times. C.times clock.new ≡ Some (drop 1 times)) }
{
    time_left(clock, began, Duration::from_millis(LINGER_MILLISECONDS))
}

/// Reads what a visitor still sends into a buffer, in what is left of the time, and gives how many bytes came; `None`
/// if the time is over, the clock fails or has gone back, the visitor has ended, nothing has come, or the connection
/// fails.
fn linger_once<S: Stream, C: Clock>(
    stream: &mut S,
    buffer: &mut [u8],
    clock: &mut C,
    began: u64,
) -> Option<usize>
    ensures came { IfSome result (λ count. (0 < count) × (count ≤ length buffer.old)) }
    ensures waits { Ends (200 + began) (C.times clock.old) (S.waits stream.old) (S.waits stream.new) }
    ensures goes_on { IfSome result (λ _. GoesOn (200 + began) (C.times clock.old) (S.waits stream.old)
        (C.times clock.new) (S.waits stream.new)) }
{
    let time = linger_time(clock, began)?;
    match stream.read_within(buffer, time) {
        Ok(count) if count > 0 => Some(count),
        _ => None,
    }
}

/// Lingers as `linger` does, from this millisecond on.
fn linger_from<S: Stream, C: Clock>(stream: &mut S, buffer: &mut [u8], clock: &mut C, began: u64)
    ensures { Ends (200 + began) (C.times clock.old) (S.waits stream.old) (S.waits stream.new) }
{
    let mut left = LINGER_BYTES;
    for _ in 0..LINGER_BYTES {
        let most = buffer.len().min(left);
        match linger_once(stream, &mut buffer[..most], clock, began) {
            Some(count) if count < left => left -= count,
            _ => return,
        }
    }
}

/// Reads what a visitor still sends, until they end, and throws it away: for `LINGER_MILLISECONDS` at most, by this
/// clock, and at most `LINGER_BYTES`. A connection that is closed with bytes unread is reset, and the visitor may then
/// lose what they have not yet read of the reply.
pub(crate) fn linger<S: Stream, C: Clock>(stream: &mut S, buffer: &mut [u8], clock: &mut C)
    ensures { IfSome (C.times clock.old) (λ times. IfSome (S.waits stream.old) (λ before.
        Lingers times before (S.waits stream.new))) }
{
    if let Some(began) = clock.milliseconds() {
        linger_from(stream, buffer, clock, began);
    }
}
