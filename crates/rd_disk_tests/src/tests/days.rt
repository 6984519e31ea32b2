//! Days of moments, and their dates.

use rd_geometry::NoMemory;
use rd_policy::{DateFault, DayFault, Zone, ZoneFault, date_read, date_text, day_of, is_day};
use rd_samples::days::{AFTER, BEFORE, CENTRAL, OPENING, SUMMER_AFTER, SUMMER_BEFORE};
use rd_samples::table;
use std::alloc::Global;
use std::process::Abort;
use std::test::Fail;

/// The rule of Beirut, whose clocks change at midnight: on 2030-03-31 they pass from 00:00 to 01:00, so that this day
/// loses its first hour, and as 2030-10-26 would end they go back to 23:00, so that this day gets an hour back.
const BEIRUT: &str = "EET-2EEST,M3.5.0/0,M10.5.0/0";

/// The rule of Santiago, whose clocks change as a Saturday ends: on 2030-04-06 they go back to 23:00, and 2030-09-08
/// loses its first hour.
const SANTIAGO: &str = "<-04>4<-03>,M9.1.6/24,M4.1.6/24";

/// Seconds, a rule, and the day.
type Moment = (i64, &'static str, Result<i32, DayFault>);

const NO_DAY: Result<i32, DayFault> = Err(DayFault::OutOfRange);

const MOMENTS: &[Moment] = table![
    (0, "UTC0", Ok(0));
    (-1, "UTC0", Ok(-1));
    (86_399, "UTC0", Ok(0));
    (86_400, "UTC0", Ok(1));
    (BEFORE, CENTRAL, Ok(21_914));
    (AFTER, CENTRAL, Ok(OPENING));
    (AFTER, "UTC0", Ok(21_914));
    (SUMMER_BEFORE, CENTRAL, Ok(22_095));
    (SUMMER_AFTER, CENTRAL, Ok(22_096));
    (SUMMER_AFTER, "UTC0", Ok(22_095));
    (1_901_138_399, BEIRUT, Ok(22_003));
    (1_901_138_400, BEIRUT, Ok(22_004));
    (1_901_221_199, BEIRUT, Ok(22_004));
    (1_901_221_200, BEIRUT, Ok(22_005));
    (1_919_278_799, BEIRUT, Ok(22_213));
    (1_919_278_800, BEIRUT, Ok(22_213));
    (1_919_282_399, BEIRUT, Ok(22_213));
    (1_919_282_400, BEIRUT, Ok(22_214));
    (1_901_761_199, SANTIAGO, Ok(22_010));
    (1_901_761_200, SANTIAGO, Ok(22_010));
    (1_901_764_799, SANTIAGO, Ok(22_010));
    (1_901_764_800, SANTIAGO, Ok(22_011));
    (1_915_070_399, SANTIAGO, Ok(22_164));
    (1_915_070_400, SANTIAGO, Ok(22_165));
    (59, "<+2359>-23:59", Ok(0));
    (60, "<+2359>-23:59", Ok(1));
    (86_339, "<-2359>23:59", Ok(-1));
    (86_340, "<-2359>23:59", Ok(0));
    (-62_135_424_000, "UTC0", Ok(-719_160));
    (-62_135_424_000, "<west>24:59:59", Ok(-719_162));
    (253_402_127_999, "UTC0", Ok(2_932_894));
    (253_402_127_999, "<east>-24:59:59", Ok(2_932_896));
    (-62_135_424_001, "UTC0", NO_DAY);
    (-62_135_424_001, "<west>24:59:59", NO_DAY);
    (253_402_128_000, "UTC0", NO_DAY);
    (253_402_128_000, CENTRAL, NO_DAY);
    (i64::MAX, CENTRAL, NO_DAY);
    (i64::MIN, CENTRAL, NO_DAY);
];

fn day_by(seconds: i64, rule: &str) -> Option<Result<i32, DayFault>> {
    let zone = Zone::read(rule).ok()?;
    Some(day_of(seconds, &zone))
}

fn assert_moments(rt: &impl Abort, cases: &[Moment]) {
    for (seconds, rule, day) in cases {
        assert_eq!(rt;
            day_by(*seconds, *rule),
            Some(*day),
            "at {seconds} in {rule}"
        );
    }
}

#[test]
fn moments_have_days(rt: HostRuntime) {
    assert_moments(&rt, MOMENTS);
}

/// Texts, and whether each is a rule.
const RULES: &[(&str, bool)] = table![
    ("UTC0", true);
    (CENTRAL, true);
    ("<+03>-3", true);
    ("AEST-10AEDT,M10.1.0,M4.1.0/3", true);
    ("EST5EDT,J60,J300", true);
    ("EST5EDT,59,299/4", true);
    ("WGT3WGST,M3.5.0/-2,M10.5.0/-1", true);
    ("IST-2IDT,M3.4.4/26,M10.5.0", true);
    ("ABC24:59:59", true);
    ("ABCDEFGHIJKLMNO0", true);
    ("ABCDEFGHIJKLMNOP0", false);
    ("WGT3WGST,M3.5.0/-167,M10.5.0/167", true);
    ("WGT3WGST,M3.5.0/-168,M10.5.0", false);
    ("WGT3WGST,M3.5.0,M10.5.0/168", false);
    ("ABC25", false);
    ("", false);
    ("25", false);
    ("Z0", false);
    ("UTC", false);
    ("UTC0 ", false);
    (" UTC0", false);
    (":UTC0", false);
    ("Europe/Prague", false);
    ("EST5EDT", false);
    ("EST5EDT,J0,J300", false);
    ("EST5EDT,366,299", false);
    ("EST5EDT,M13.1.0,M4.1.0", false);
    ("ÉTÉ0", false);
];

fn fault_of(rule: &str) -> Option<ZoneFault> {
    Zone::read(rule).err()
}

fn assert_rules(rt: &impl Abort, cases: &[(&str, bool)]) {
    for (rule, is_rule) in cases {
        let wanted = if *is_rule {
            None
        } else {
            Some(ZoneFault::BadZone)
        };
        assert_eq!(rt; fault_of(*rule), wanted, "{rule:?}");
    }
}

#[test]
fn rules_are_read(rt: HostRuntime) {
    assert_rules(&rt, RULES);
}

pub(super) const DATES: &[(&str, i32)] = table![
    ("1970-01-01", 0);
    ("1969-12-31", -1);
    ("0001-01-01", -719_162);
    ("9999-12-31", 2_932_896);
    ("2030-01-01", OPENING);
    ("2019-05-04", 18_020);
    ("2000-02-29", 11_016);
    ("2000-03-01", 11_017);
    ("2020-02-29", 18_321);
    ("1900-02-28", -25_509);
    ("1900-03-01", -25_508);
];

/// Whether a date is read as a day, and written for it.
fn is_date_of(alloc: Global, date: &str, day: i32) -> Result<bool, NoMemory> {
    if !is_day(day) {
        return Ok(false);
    }
    let written = date_text(alloc, day)?;
    Ok(date_read(alloc, date) == Ok(day) && written.as_str() == date)
}

fn assert_dates(rt: &impl Abort, alloc: Global, cases: &[(&str, i32)]) -> Result<(), Fail> {
    for (date, day) in cases {
        assert!(rt; is_date_of(alloc, *date, *day)?, "{date} and {day}");
    }
    Ok(())
}

#[test]
fn dates_have_days(rt: HostRuntime) -> Result<(), Fail> {
    assert_dates(&rt, rt.alloc(), DATES)
}

/// Texts that are no date from 0001-01-01 to 9999-12-31 in any form that `jiff` reads.
pub(super) const NO_DATES: &[&str] = table![
    ""; "2030-02-30"; "1900-02-29"; "2030-13-01"; "2030-00-10"; "2030-01-00"; "0000-12-31"; "2030-1-1";
    "2030/01/01"; "+2030-01-01"; "-002030-01-01"; "12030-01-01"; "2030-01-01 "; " 2030-01-01";
    "2030-01-01T00:00:00Z"; "2030-W01-1"; "２０３０-01-01"; "203٠-01-01"; "2030-01-0\u{0}";
];

/// Dates of these years in another form.
pub(super) const OTHER_FORMS: &[&str] = table![
    "20300101"; "+002030-01-01"; "2030-01-01T00:00:00"; "2030-01-01 00:00"; "2030-01-01[UTC]";
];

pub(super) fn assert_no_dates(rt: &impl Abort, alloc: Global, texts: &[&str]) {
    for text in texts {
        assert_eq!(rt;
            date_read(alloc, *text),
            Err(DateFault::BadDate),
            "{text:?}"
        );
    }
}

#[test]
fn other_texts_have_no_day(rt: HostRuntime) {
    assert_no_dates(&rt, rt.alloc(), NO_DATES);
    assert_no_dates(&rt, rt.alloc(), OTHER_FORMS);
}
