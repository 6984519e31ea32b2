ghost use Rattle.std.specs.Prelude.{◌≡◌, ◌↔◌, Some, IsOk, IfOk, IfErr, IsTrue};
ghost use Rattle.rd_policy.specs.Days.{IsDay, HasDay};
ghost use Rattle.rd_policy.specs.Zones.{day_number};

use crate::zone::Zone;
use jiff::Timestamp;
use std::error::Error;
use std::fmt;

/// The first day that has a date, 0001-01-01.
const FIRST_DAY: i32 = -719_162;

/// The last day that has a date, 9999-12-31.
const LAST_DAY: i32 = 2_932_896;

/// The first moment that has a day, 0001-01-03T00:00:00 UTC.
const FIRST_MOMENT: i64 = -62_135_424_000;

/// The last moment that has a day, 9999-12-29T23:59:59 UTC.
const LAST_MOMENT: i64 = 253_402_127_999;

/// Why a moment gives no day.
#[derive(Clone, Copy, Debug, PartialEq, Eq, Hash)]
pub enum DayFault {
    /// The moment is before 0001-01-03T00:00:00 UTC or after 9999-12-29T23:59:59 UTC.
    OutOfRange,
    /// Memory ran out. Finding a day takes no memory, so no call gives this.
    NoMemory,
}

impl fmt::Display for DayFault {
    ghost use Rattle.rd_policy.specs.DayFaults.{fault_text};

    ghost output = { λ fault. Some (fault_text fault) };

    fn fmt<W: fmt::Write>(&self, f: &mut fmt::Formatter<W>) -> fmt::Result {
        match self {
            DayFault::OutOfRange => write!(f, "not from 0001-01-03 to 9999-12-29 in UTC"),
            DayFault::NoMemory => write!(f, "no memory"),
        }
    }
}

impl Error for DayFault {}

/// Whether a day, counted from 1970-01-01, is from 0001-01-01 (−719,162) to 9999-12-31
/// (2,932,896).
pub fn is_day(day: i32) -> bool
    ensures { IsTrue result ↔ IsDay day }
{
    (FIRST_DAY..=LAST_DAY).contains(&day)
}

/// Whether a moment has a day.
fn has_day(seconds: i64) -> bool
    ensures { IsTrue result ↔ HasDay seconds }
{
    (FIRST_MOMENT..=LAST_MOMENT).contains(&seconds)
}

/// The day of a moment that has one, in a zone.
fn day_in(seconds: i64, zone: &Zone) -> i32
    requires { HasDay seconds }
    ensures day { result ≡ day_number seconds zone.now }
    ensures in_range { IsDay result }
{
    let Ok(instant) = Timestamp::from_second(seconds) else {
        unreachable!()
    };
    let local = seconds + i64::from(zone.offset(instant));
    local.div_euclid(86_400) as i32
}

/// The day of a moment in a zone, counted from 1970-01-01, which is day 0.
///
/// The moment is in seconds since 1970-01-01T00:00:00 UTC. It fails with `OutOfRange` exactly when
/// the moment is before 0001-01-03T00:00:00 UTC (−62,135,424,000) or after 9999-12-29T23:59:59 UTC
/// (253,402,127,999), and takes no memory. The day is from 0001-01-01 (−719,162) to 9999-12-31
/// (2,932,896).
pub fn day_of(seconds: i64, zone: &Zone) -> Result<i32, DayFault>
    ensures taken { IsOk result ↔ HasDay seconds }
    ensures day { IfOk result (λ day. day ≡ day_number seconds zone.now) }
    ensures in_range { IfOk result IsDay }
    ensures fault { IfErr result (λ fault. fault ≡ DayFault.OutOfRange) }
{
    if !has_day(seconds) {
        return Err(DayFault::OutOfRange);
    }
    Ok(day_in(seconds, zone))
}
