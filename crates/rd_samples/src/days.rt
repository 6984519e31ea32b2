//! A rule of clocks, and moments and a day by it.

/// The rule of central Europe.
pub const CENTRAL: &str = "CET-1CEST,M3.5.0,M10.5.0/3";

/// The last second of 2029 by this rule.
pub const BEFORE: i64 = 1_893_452_399;

/// The first second of 2030 by this rule.
pub const AFTER: i64 = 1_893_452_400;

/// The last second before the first of July 2030 by this rule, by which clocks are then two hours ahead of UTC.
pub const SUMMER_BEFORE: i64 = 1_909_087_199;

/// The first second of that day.
pub const SUMMER_AFTER: i64 = 1_909_087_200;

/// The day 2030-01-01, in days since 1970-01-01.
pub const OPENING: i32 = 21_915;
