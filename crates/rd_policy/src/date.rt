ghost use Rattle.std.specs.Prelude.{◌≡◌, Err, Some, IfOk, IfErr, string_bytes};
ghost use Rattle.rd_policy.specs.Days.{IsDay};
ghost use Rattle.rd_policy.specs.Dates.{IsDateOf, IsNoDate, IsReadAsDate, OneText, OneDay};

use crate::day::is_day;
use jiff::civil::Date;
use rd_geometry::NoMemory;
use std::alloc::Global;
use std::error::Error;
use std::fmt;

/// Why a text gives no day.
#[derive(Clone, Copy, Debug, PartialEq, Eq, Hash)]
pub enum DateFault {
    /// The text is not a date of the form `2030-01-01`, from 0001-01-01 to 9999-12-31.
    BadDate,
    /// Memory ran out.
    NoMemory,
}

impl fmt::Display for DateFault {
    ghost use Rattle.rd_policy.specs.Dates.{fault_text};

    ghost output = { λ fault. Some (fault_text fault) };

    fn fmt<W: fmt::Write>(&self, f: &mut fmt::Formatter<W>) -> fmt::Result {
        match self {
            DateFault::BadDate => write!(f, "no date"),
            DateFault::NoMemory => write!(f, "no memory"),
        }
    }
}

impl Error for DateFault {}

/// The date of a day, as `2030-01-01`.
///
/// The day is from −719,162 (0001-01-01) to 2,932,896 (9999-12-31), counted from 1970-01-01. It
/// fails only when memory runs out.
pub fn date_text(alloc: Global, day: i32) -> Result<String, NoMemory>
    requires { IsDay day }
    ensures { IfOk result (λ text. IsDateOf day (string_bytes text)) }
{
    let Ok(date) = jiff_core::civil::Date::from_unix_epoch_day(i64::from(day)) else {
        unreachable!()
    };
    match Date::from_plain(date).to_string(alloc) {
        Ok(text) => Ok(text),
        Err(_) => Err(NoMemory),
    }
}

/// The day of a date written as `2030-01-01`, counted from 1970-01-01.
///
/// It fails with `BadDate` when the text is not a date of that form, from 0001-01-01 to 9999-12-31. It fails with
/// `NoMemory` when memory runs out, which can happen only if `jiff` reads the text as a date of these years, in this form
/// or another: the function then writes this date, and compares it with the text.
pub fn date_read(alloc: Global, text: &str) -> Result<i32, DateFault>
    ensures day { IfOk result (λ day. IsDateOf day text.now) }
    ensures bad { IfErr result (λ fault. fault ≡ DateFault.BadDate → IsNoDate text.now) }
    ensures memory { result ≡ Err DateFault.NoMemory → IsReadAsDate text.now }
{
    let Ok(date) = text.parse::<Date>() else {
        return Err(DateFault::BadDate);
    };
    let day = date.to_plain().to_unix_epoch_day();
    if !is_day(day) {
        return Err(DateFault::BadDate);
    }
    let Ok(written) = date.to_string(alloc) else {
        return Err(DateFault::NoMemory);
    };
    if written.as_str() == text {
        Ok(day)
    } else {
        Err(DateFault::BadDate)
    }
}

/// Law: a day has one date, and a date one day.
pub fn one_date()
    ensures text { OneText }
    ensures day { OneDay }
{}
