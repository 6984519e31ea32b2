ghost use Rattle.std.specs.Prelude.{◌≡◌, ◌↔◌, Some, IsOk, IfOk, IfErr};
ghost use Rattle.rd_policy.specs.Zones.{IsOffset, IsZoneOf, IsZoneRule, offset_at};

use jiff::Timestamp;
use jiff::tz::TimeZone;
use std::error::Error;
use std::fmt;

/// Why a text gives no zone.
#[derive(Clone, Copy, Debug, PartialEq, Eq, Hash)]
pub enum ZoneFault {
    /// The text is not a rule for clocks.
    BadZone,
    /// Memory ran out. Reading a rule takes no memory, so no call gives this.
    NoMemory,
}

impl fmt::Display for ZoneFault {
    ghost use Rattle.rd_policy.specs.ZoneFaults.{fault_text};

    ghost output = { λ fault. Some (fault_text fault) };

    fn fmt<W: fmt::Write>(&self, f: &mut fmt::Formatter<W>) -> fmt::Result {
        match self {
            ZoneFault::BadZone => write!(f, "no zone"),
            ZoneFault::NoMemory => write!(f, "no memory"),
        }
    }
}

impl Error for ZoneFault {}

/// The rule by which the clocks of a place run: how far they are ahead of UTC, or behind it, at each moment.
#[derive(Clone, Copy, Debug, PartialEq, Eq)]
pub struct Zone {
    clock: TimeZone<'static>,
}

impl Zone {
    /// The zone of a rule as POSIX writes it for the variable `TZ`, such as `CET-1CEST,M3.5.0,M10.5.0/3` or `UTC0`.
    /// Its hours count west of UTC, so that `CET-1` is an hour ahead. A name has 3 to 15 bytes, and after a name for
    /// summer time come the two days on which the clocks change.
    ///
    /// It fails with `BadZone` exactly when the text is not such a rule, and takes no memory.
    pub fn read(text: &str) -> Result<Zone, ZoneFault>
        ensures taken { IsOk result ↔ IsZoneRule text.now }
        ensures zone { IfOk result (λ zone. IsZoneOf text.now zone) }
        ensures bad { IfErr result (λ fault. fault ≡ ZoneFault.BadZone) }
    {
        match TimeZone::posix(text) {
            Ok(clock) => Ok(Zone { clock }),
            Err(_) => Err(ZoneFault::BadZone),
        }
    }

    /// How many seconds the zone's clocks are ahead of UTC at an instant; negative if they are
    /// behind.
    pub(crate) fn offset(&self, instant: Timestamp) -> i32
        ensures value { result ≡ offset_at self.now instant.nanosecond }
        ensures bound { IsOffset result }
    {
        self.clock.to_offset(instant).seconds()
    }
}
