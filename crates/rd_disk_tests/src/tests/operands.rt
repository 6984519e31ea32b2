//! Keys and zones in files, first moments of days, names of files. Python's `zoneinfo` gives the moments.

use rd_operands::{ZoneFileFault, file_name, first_moment, key_in_file, zone_in_file};
use rd_policy::{Zone, date_read};
use std::test::Fail;

const KEYS: [(&[u8], Option<&[u8]>); 8] = [
    (b"", Some(b"")),
    (b"a long phrase", Some(b"a long phrase")),
    (b"a long phrase\n", Some(b"a long phrase")),
    (b"\t a long phrase \t\r\nand more\n", Some(b"a long phrase")),
    (b"a long phrase\r", Some(b"a long phrase\r")),
    (b"\na long phrase", Some(b"")),
    (&[b'k'; 4_096], Some(&[b'k'; 4_096])),
    (&[b'k'; 4_097], None),
];

#[test]
fn keys(rt: HostRuntime) {
    for (bytes, key) in KEYS {
        assert_eq!(rt; key_in_file(bytes), key);
    }
}

const CENTRAL: &str = "CET-1CEST,M3.5.0,M10.5.0/3";
// Rules of clocks that change at midnight.
const EASTERN: &str = "EET-2EEST,M3.5.0/0,M10.5.0/0";

const AMERICAN: &str = "CST5CDT,M3.2.0/0,M11.1.0/1";

/// Dates, rules of clocks, and the first moments of the dates if they have any.
const FIRST_MOMENTS: [(&str, &str, Option<i64>); 11] = [
    ("1970-01-01", "UTC0", Some(0)),
    ("2030-01-01", "UTC0", Some(1_893_456_000)),
    ("2030-01-01", CENTRAL, Some(1_893_452_400)),
    ("2030-07-01", CENTRAL, Some(1_909_087_200)),
    ("2030-03-31", EASTERN, Some(1_901_138_400)),
    ("2030-10-26", EASTERN, Some(1_919_192_400)),
    ("2030-10-27", EASTERN, Some(1_919_282_400)),
    ("2030-11-03", AMERICAN, Some(1_919_908_800)),
    ("2030-03-01", "<a-b>12<b+a>-12,J60/0,J300/0", None),
    ("0001-01-01", "UTC0", None),
    ("9999-12-31", "UTC0", None),
];

#[test]
fn first_moments(rt: HostRuntime) -> Result<(), Fail> {
    for (date, rule, moment) in FIRST_MOMENTS {
        let zone = Zone::read(rule)?;
        let day = date_read(rt.alloc(), date)?;
        assert_eq!(rt; first_moment(day, &zone), moment, "{date} {rule}");
    }
    Ok(())
}

const NAMES: [(u16, &[u8], &str); 9] = [
    (3, b"LETTER.TXT", "00003-LETTER.TXT"),
    (0, b"", "00000-"),
    (65_535, b"A", "65535-A"),
    (5_463, b"../../etc/passwd", "05463-.._.._etc_passwd"),
    (10, b"CON", "00010-CON"),
    (10, b"README. ..", "00010-README._"),
    (10, b"README...", "00010-README"),
    (10, b"a\\b:c*d\n", "00010-a_b_c_d_"),
    (10, b"%CC%C5", "00010-_CC_C5"),
];

#[test]
fn names(rt: HostRuntime) -> Result<(), Fail> {
    for (slot, name, text) in NAMES {
        let named = file_name(rt.alloc(), slot, name)?;
        assert_eq!(rt; named.as_str(), text);
    }
    Ok(())
}

#[test]
fn long_names(rt: HostRuntime) -> Result<(), Fail> {
    let named = file_name(rt.alloc(), 7, &[b'x'; 300])?;
    assert_eq!(rt; named.as_str().len(), 255);
    let dots = file_name(rt.alloc(), 7, &[b'.'; 300])?;
    assert_eq!(rt; dots.as_str(), "00007-");
    Ok(())
}

const NO_RULE: Result<Zone, ZoneFileFault> = Err(ZoneFileFault::NoRule);

/// A file of the time zone database without a change in its tables, before the line with its rule.
const FRONT: &[u8; 109] =
    b"TZif2\0\0\0\0\0\0\0\0\0\0\0\0\0\0\0\0\0\0\0\0\0\0\0\0\0\0\0\0\0\0\0\0\0\0\
    \x01\0\0\0\x04\0\0\x0e\x10\0\0CET\0TZif2\0\0\0\0\0\0\0\0\0\0\0\0\0\0\0\0\0\0\0\0\0\0\0\0\0\0\0\0\0\0\0\0\
    \0\0\x01\0\0\0\x04\0\0\x0e\x10\0\0CET\0\n";

#[test]
fn zones(rt: HostRuntime) -> Result<(), Fail> {
    let central = Zone::read(CENTRAL)?;
    let lines = ["CET-1CEST,M3.5.0,M10.5.0/3\n", "\n", "CET-1CEST\n"];
    for (line, zone) in lines.iter().zip([Ok(central), NO_RULE, NO_RULE]) {
        let mut bytes = FRONT.to_vec(rt.alloc())?;
        bytes.extend_from_slice(line.as_bytes())?;
        assert_eq!(rt; zone_in_file(rt.alloc(), bytes.as_slice()), zone, "{line}");
    }
    let passwords = b"root:x:0:0::/root:/bin/sh\n";
    assert_eq!(rt; zone_in_file(rt.alloc(), passwords), NO_RULE);
    assert_eq!(rt; zone_in_file(rt.alloc(), b"UTC0\n"), NO_RULE);
    Ok(())
}
