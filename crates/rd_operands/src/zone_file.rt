//! The zone of a file of the time zone database.

ghost use Rattle.std.specs.Io.BufRead.{strip_last};
ghost use Rattle.std.specs.List.{suffix_len};
ghost use Rattle.std.specs.Prelude.{◌≡◌, ◌+◌, ◌==◌, ◌↔◌, length, not, option_map};
ghost use Rattle.std.specs.Prelude.{Err, IfErr, IfNone, IfOk, IfSome, IsOk, IsTrue, Some};
ghost use Rattle.jiff_tz.specs.Abbreviation.{abbreviation_text};
ghost use Rattle.jiff_tz.specs.PosixText.{day_time_view, dst_view, tz_view};
ghost use Rattle.jiff_tz.specs.TzifReader.{read_tzif};
ghost use Rattle.jiff.specs.Words.{read_whole};
ghost use Rattle.rd_policy.specs.Zones.{IsZoneOf, IsZoneRule};
ghost use Rattle.rd_operands.specs.ZoneFiles.{HasFooter, HasNoFooter, HasNoRule, IsRuleLine};
ghost use Rattle.rd_operands.specs.ZoneFiles.{IsZoneOfFile, last_line as last_line_of};

use crate::key_file::LINE_FEED;
use jiff_core::Error as ZoneError;
use jiff_tz::posix::{DayTime, Dst, TimeZone};
use jiff_tz::{Abbreviation, Tzif};
use rd_policy::Zone;
use std::alloc::Global;
use std::error::Error;
use std::{fmt, str};

/// The most bytes that a file with a zone may have.
pub const ZONE_FILE_LIMIT: usize = 65_536;

/// Why a file gives no zone.
#[derive(Clone, Copy, Debug, PartialEq, Eq, Hash)]
pub enum ZoneFileFault {
    /// The bytes are no file of the time zone database that ends in a rule.
    NoRule,
    /// Memory ran out.
    NoMemory,
}

impl fmt::Display for ZoneFileFault {
    ghost use Rattle.rd_operands.specs.ZoneFiles.{fault_text};

    ghost output = { λ fault. Some (fault_text fault) };

    fn fmt<W: fmt::Write>(&self, f: &mut fmt::Formatter<W>) -> fmt::Result {
        match self {
            ZoneFileFault::NoRule => write!(f, "no file with a rule"),
            ZoneFileFault::NoMemory => write!(f, "no memory"),
        }
    }
}

impl Error for ZoneFileFault {}

/// How many bytes there are up to the last line feed, with it.
fn len_through_feed(bytes: &[u8]) -> usize
    ensures { result + suffix_len (λ byte. not (byte == 10)) bytes.now ≡ length bytes.now }
{
    let mut len = bytes.len();
    while len > 0 && bytes[len - 1] != LINE_FEED {
        len -= 1;
    }
    len
}

/// Bytes without the line feed at their end, if there is one.
fn without_feed(bytes: &[u8]) -> &[u8]
    ensures { result.now ≡ strip_last 10 bytes.now }
{
    match bytes.last() {
        Some(&LINE_FEED) => &bytes[..bytes.len() - 1],
        _ => bytes,
    }
}

/// The last line of bytes, without its line feed.
fn last_line(bytes: &[u8]) -> &[u8]
    ensures { result.now ≡ last_line_of bytes.now }
{
    let lines = without_feed(bytes);
    &lines[len_through_feed(lines)..]
}

/// A rule that is written in a line.
#[derive(Drop)]
struct Written {
    /// Its zone.
    zone: Zone,
    /// The rule itself.
    rule: TimeZone,
}

/// The rule that a text writes; `None` if it is no rule.
fn rule_of_text(text: &str) -> Option<Written>
    ensures zone { IfSome result (λ written. IsZoneOf text.now written.zone) }
    ensures rule { IfSome result (λ written. read_whole text.now ≡ Some (tz_view written.rule)) }
    ensures none { IfNone result (¬ IsZoneRule text.now) }
{
    match Zone::read(text) {
        Ok(zone) => match TimeZone::parse(text.as_bytes()) {
            Ok(rule) => Some(Written { zone, rule }),
            Err(_) => None,
        },
        Err(_) => None,
    }
}

/// The rule that a line writes; `None` if it is no text or no rule.
fn rule_of_line(line: &[u8]) -> Option<Written>
    ensures line { IfSome result (λ written. IsRuleLine line.now) }
    ensures zone { IfSome result (λ written. IsZoneOf line.now written.zone) }
    ensures rule { IfSome result (λ written. read_whole line.now ≡ Some (tz_view written.rule)) }
    ensures none { IfNone result (¬ IsRuleLine line.now) }
{
    match str::from_utf8(line) {
        Ok(text) => rule_of_text(text),
        Err(_) => None,
    }
}

/// Why a file that is not read gives no zone.
fn fault_of(error: ZoneError) -> ZoneFileFault
    ensures { (result ≡ ZoneFileFault.NoMemory) ↔ (error ≡ ZoneError.OutOfMemory) }
{
    match error {
        ZoneError::OutOfMemory => ZoneFileFault::NoMemory,
        _ => ZoneFileFault::NoRule,
    }
}

/// The rule in the footer of a file of the time zone database. It fails with `NoRule` when the bytes are no
/// such file, have no rule, or have one that contradicts the table, and with `NoMemory`.
fn footer_rule(alloc: Global, bytes: &[u8]) -> Result<TimeZone, ZoneFileFault>
    ensures rule { IfOk result (HasFooter bytes.now) }
    ensures none { IfErr result (λ fault. fault ≡ ZoneFileFault.NoRule → HasNoFooter bytes.now) }
    ensures memory { result ≡ Err ZoneFileFault.NoMemory → IsOk (read_tzif bytes.now) }
{
    match Tzif::parse(alloc, None, bytes) {
        Ok(table) => match table.posix_tz() {
            Some(rule) => Ok(rule),
            None => Err(ZoneFileFault::NoRule),
        },
        Err(error) => Err(fault_of(error)),
    }
}

/// Whether two names are the same.
fn same_name(one: &Abbreviation, other: &Abbreviation) -> bool
    ensures { IsTrue result ↔ (abbreviation_text one.now ≡ abbreviation_text other.now) }
{
    one.as_bytes() == other.as_bytes()
}

/// Whether clocks change at the same time of the same day.
fn same_change(one: DayTime, other: DayTime) -> bool
    ensures { IsTrue result ↔ (day_time_view one ≡ day_time_view other) }
{
    if one.date != other.date {
        return false;
    }
    one.time == other.time
}

/// Whether summer time has the same name, the same offset and the same changes.
fn same_summer(one: &Dst, other: &Dst) -> bool
    ensures { IsTrue result ↔ (dst_view one.now ≡ dst_view other.now) }
{
    if !same_name(&one.abbrev, &other.abbrev) {
        return false;
    }
    if one.offset.seconds != other.offset.seconds {
        return false;
    }
    if !same_change(one.rule.start, other.rule.start) {
        return false;
    }
    same_change(one.rule.end, other.rule.end)
}

/// Whether both rules have summer time, the same, or neither has.
fn same_summers(one: Option<Dst>, other: Option<Dst>) -> bool
    ensures { IsTrue result ↔ (option_map dst_view one ≡ option_map dst_view other) }
{
    match one {
        Some(first) => match other {
            Some(second) => same_summer(&first, &second),
            None => false,
        },
        None => match other {
            Some(_) => false,
            None => true,
        },
    }
}

/// Whether two rules say the same.
fn same_rule(one: &TimeZone, other: &TimeZone) -> bool
    ensures { IsTrue result ↔ (tz_view one.now ≡ tz_view other.now) }
{
    if !same_name(&one.std_abbrev, &other.std_abbrev) {
        return false;
    }
    if one.std_offset.seconds != other.std_offset.seconds {
        return false;
    }
    same_summers(one.dst, other.dst)
}

/// The zone of the rule in which a file of the time zone database ends, for all time: what its tables say of
/// earlier years is left out. It fails with `NoRule` when the bytes are no such file, are over 65,536, end in
/// no rule, or in one that contradicts the last change of the table, and with `NoMemory`.
pub fn zone_in_file(alloc: Global, bytes: &[u8]) -> Result<Zone, ZoneFileFault>
    ensures zone { IfOk result (IsZoneOfFile bytes.now) }
    ensures none { IfErr result (λ fault. fault ≡ ZoneFileFault.NoRule → HasNoRule bytes.now) }
    ensures memory { result ≡ Err ZoneFileFault.NoMemory → IsOk (read_tzif bytes.now) }
{
    if bytes.len() > ZONE_FILE_LIMIT {
        return Err(ZoneFileFault::NoRule);
    }
    match rule_of_line(last_line(bytes)) {
        Some(written) => match footer_rule(alloc, bytes) {
            Ok(footer) => {
                if same_rule(&written.rule, &footer) {
                    Ok(written.zone)
                } else {
                    Err(ZoneFileFault::NoRule)
                }
            }
            Err(fault) => Err(fault),
        },
        None => Err(ZoneFileFault::NoRule),
    }
}
