//! How long a visitor may take.

ghost use Rattle.std.specs.Duration.{as_nanos};
ghost use Rattle.std.specs.Prelude.{◌≡◌, ◌≤◌, IfSome, IsSome, List, None, Option, Some, [], drop, min, ℕ};
ghost use Rattle.rd_messages.specs.Waits.{IsTimeLeft, MayWrite, next_of};

use std::time::Duration;

/// A clock. It may show contracts the milliseconds that it will give, one after the other; the clock of a machine does
/// not.
pub trait Clock {
    /// The milliseconds to come, if the clock shows them.
    ghost times: { Self → Option (List ℕ) } = { λ _. None };

    /// The seconds since 1970-01-01T00:00:00 UTC; `None` if the clock fails. It takes none of the milliseconds to come.
    fn now(&mut self) -> Option<i64>
        ensures { times self.new ≡ times self.old };

    /// The milliseconds since a fixed moment; `None` if the clock fails. A clock that shows them fails where none is
    /// left.
    fn milliseconds(&mut self) -> Option<u64>
        ensures next { IfSome (next_of (times self.old)) (λ at. result ≡ Some at) }
        ensures ends { times self.old ≡ Some [] → result ≡ None }
        ensures rest { IfSome (times self.old) (λ shown. times self.new ≡ Some (drop 1 shown)) };
}

/// How long a visitor may take. What takes longer counts as a read or a write that failed.
#[derive(Clone, Copy, Debug, PartialEq, Eq)]
pub struct TimeLimits {
    /// For the whole request, from when the door admits the visitor.
    pub request: Duration,
    /// For each write, until the system has room for a byte of it.
    pub write: Duration,
    /// For the whole reply, from its first write.
    pub reply: Duration,
}

impl TimeLimits {
    /// Ten seconds for the request, ten for a write, and sixty for the reply.
    pub fn usual() -> TimeLimits
        ensures request { as_nanos result.request ≡ 10_000_000_000 }
        ensures write { as_nanos result.write ≡ 10_000_000_000 }
        ensures reply { as_nanos result.reply ≡ 60_000_000_000 }
    {
        TimeLimits {
            request: Duration::from_secs(10),
            write: Duration::from_secs(10),
            reply: Duration::from_secs(60),
        }
    }
}

/// What is left of a time that began at a millisecond of this clock; `None` if it is over, or if the clock fails or
/// has gone back.
pub(crate) fn time_left<C: Clock>(clock: &mut C, began: u64, whole: Duration) -> Option<Duration>
    ensures within { IfSome result (λ left. as_nanos left ≤ as_nanos whole) }
    ensures left { IfSome (next_of (C.times clock.old)) (λ at. IsTimeLeft whole began at result) }
    ensures ends { C.times clock.old ≡ Some [] → result ≡ None }
    ensures rest { IfSome (C.times clock.old) (λ times. C.times clock.new ≡ Some (drop 1 times)) }
{
    let passed = Duration::from_millis(clock.milliseconds()?.checked_sub(began)?);
    let left = whole.checked_sub(passed)?;
    if left.is_zero() { None } else { Some(left) }
}

/// The shorter of two times.
fn shorter(one: Duration, other: Duration) -> Duration
    ensures { as_nanos result ≡ min (as_nanos one) (as_nanos other) }
{
    if one.as_nanos() <= other.as_nanos() {
        one
    } else {
        other
    }
}

/// The time that a visitor has taken, by a clock, and may take.
#[derive(Drop)]
pub(crate) struct Pace<C> {
    clock: C,
    limits: TimeLimits,
    /// The millisecond at which the door admitted the visitor.
    admitted: u64,
    /// The millisecond of the first write, if there was one.
    replying: Option<u64>,
}

impl<C: Clock> Pace<C> {
    /// The time of a visitor whom the door admitted at a millisecond of this clock.
    pub(crate) fn new(clock: C, limits: TimeLimits, admitted: u64) -> Pace<C>
        ensures clock { result.clock ≡ clock }
        ensures limits { result.limits ≡ limits }
        ensures admitted { result.admitted ≡ admitted }
        ensures replying { result.replying ≡ None }
    {
        Pace {
            clock,
            limits,
            admitted,
            replying: None,
        }
    }

    /// How long the next read may wait; `None` if the time of the request is over, or if the clock fails or has gone
    /// back.
    pub(crate) fn for_read(&mut self) -> Option<Duration>
        ensures request { IfSome result (λ time. as_nanos time ≤ as_nanos self.old.limits.request) }
        ensures left { IfSome (next_of (C.times self.old.clock)) (λ at.
            IsTimeLeft self.old.limits.request self.old.admitted at result) }
        ensures ends { C.times self.old.clock ≡ Some [] → result ≡ None }
        ensures limits { self.new.limits ≡ self.old.limits }
        ensures admitted { self.new.admitted ≡ self.old.admitted }
        ensures replying { self.new.replying ≡ self.old.replying }
    {
        time_left(&mut self.clock, self.admitted, self.limits.request)
    }

    /// The millisecond of the first write, which is now if there was none; `None` if the clock fails.
    fn first_write(&mut self) -> Option<u64>
        ensures stays { IfSome self.old.replying (λ began. (result ≡ Some began) × (self.new.clock ≡ self.old.clock)) }
        ensures begins { self.old.replying ≡ None → IfSome (next_of (C.times self.old.clock)) (λ at. result ≡ Some at) }
        ensures rest { self.old.replying ≡ None
            → IfSome (C.times self.old.clock) (λ times. C.times self.new.clock ≡ Some (drop 1 times)) }
        ensures ends { self.old.replying ≡ None → C.times self.old.clock ≡ Some [] → result ≡ None }
        ensures kept { IfSome result (λ began. self.new.replying ≡ Some began) }
        ensures limits { self.new.limits ≡ self.old.limits }
        ensures admitted { self.new.admitted ≡ self.old.admitted }
    {
        if self.replying.is_none() {
            self.replying = self.clock.milliseconds();
        }
        self.replying
    }

    /// How long the next write may wait; `None` if the time of the reply is over, or if the clock fails or has gone
    /// back.
    pub(crate) fn for_write(&mut self) -> Option<Duration>
        ensures write { IfSome result (λ time. as_nanos time ≤ as_nanos self.old.limits.write) }
        ensures reply { IfSome result (λ time. as_nanos time ≤ as_nanos self.old.limits.reply) }
        ensures later { IfSome self.old.replying (λ began. IfSome (next_of (C.times self.old.clock)) (λ at.
            MayWrite self.old.limits began at result)) }
        ensures first { self.old.replying ≡ None → IfSome (C.times self.old.clock) (λ times.
            IfSome (next_of (Some times)) (λ began. IfSome (next_of (Some (drop 1 times))) (λ at.
            MayWrite self.old.limits began at result))) }
        ensures ends { C.times self.old.clock ≡ Some [] → result ≡ None }
        ensures first_ends { self.old.replying ≡ None → IfSome (C.times self.old.clock) (λ times.
            drop 1 times ≡ [] → result ≡ None) }
        ensures begins { self.old.replying ≡ None → IfSome (next_of (C.times self.old.clock)) (λ at.
            IfSome result (λ _. self.new.replying ≡ Some at)) }
        ensures stays { IfSome self.old.replying (λ began. self.new.replying ≡ Some began) }
        ensures begun { IfSome result (λ _. IsSome self.new.replying) }
        ensures limits { self.new.limits ≡ self.old.limits }
        ensures admitted { self.new.admitted ≡ self.old.admitted }
    {
        let began = self.first_write()?;
        let left = time_left(&mut self.clock, began, self.limits.reply)?;
        Some(shorter(left, self.limits.write))
    }
}
