//! An explanation, as a person reads it.

use rd_explanations::{
    Advice, Column, Fault, Line, Notes, Reason, Said, Unusable, explained, kind_that_fits,
};
use rd_geometry::Kind;
use std::io::ErrorKind;
use std::test::Fail;

#[test]
fn lines(rt: HostRuntime) -> Result<(), Fail> {
    let mut notes = Notes::new(rt.alloc());
    notes.want(true);
    notes.add(Line::Path {
        path: String::from_str(rt.alloc(), "a\nb.d64")?,
        said: Said::of(ErrorKind::NotFound),
    });
    notes.add(Line::Size {
        path: String::from_str(rt.alloc(), "box.img")?,
        found: 174_848,
        kind: Kind::Cpm8,
    });
    notes.add(Line::Fits(Kind::D64));
    notes.add(Line::OtherSize {
        path: String::from_str(rt.alloc(), "standard input")?,
        kind: Kind::D64,
    });
    notes.add(Line::Field {
        row: 3,
        column: Column::Digest,
    });
    notes.add(Line::Row {
        row: 4,
        acc: 12,
        reason: Reason::NoDeed(9),
    });
    notes.add(Line::Next(Advice::UseCommas));
    notes.add(Line::Next(Advice::TrustClock));
    let bytes = explained(rt.alloc(), notes.lines.as_slice())?;
    let text = concat!(
        "  a?b.d64: there is no such file\n",
        "  box.img has 174848 bytes, and an image of the kind cpm8 has 256256.\n",
        "  An image of the kind d64 has as many bytes as this file: is it one?\n",
        "  standard input has another number of bytes than an image of its kind: d64 has 174848.\n",
        "  Row 3, column sha256: missing or badly written.\n",
        "  Row 4, accession 12: the desk has no deed 9.\n",
        "  Save the sheet as CSV with commas between the fields.\n",
        "  If the clock is right, a check was recorded while it was ahead: write --trust-clock.\n",
    );
    assert_eq!(rt; bytes.as_slice(), text.as_bytes());
    Ok(())
}

#[test]
fn rows(rt: HostRuntime) -> Result<(), Fail> {
    let lines = [
        Line::RowSize {
            row: 1,
            path: String::from_str(rt.alloc(), "box.img")?,
            found: 174_848,
            kind: Kind::Cpm8,
        },
        Line::RowFits {
            row: 1,
            kind: Kind::D64,
        },
        Line::RowTooLong {
            row: 2,
            path: String::from_str(rt.alloc(), "long.img")?,
            kind: Kind::D64e,
        },
        Line::RowFitsNone { row: 2 },
        Line::PutDeed(9),
    ];
    let bytes = explained(rt.alloc(), lines.as_slice())?;
    let text = concat!(
        "  Row 1: box.img has 174848 bytes, and an image of the kind cpm8 has 256256.\n",
        "  Row 1: an image of the kind d64 has as many bytes: write d64 in the row, if it is one.\n",
        "  Row 2: long.img has more bytes than an image of its kind: d64e has 175531.\n",
        "  Row 2: no kind of disk has images of this size: copy the disk again.\n",
        "  If the deed is new, start desk serve, put the deed there, end desk serve, and import again: curl -X PUT -H 'Desk-Key: KEY' http://127.0.0.1:8041/deeds/9 -d '{\"donor\":\"NAME\",\"signed\":\"YYYY-MM-DD\"}'\n",
    );
    assert_eq!(rt; bytes.as_slice(), text.as_bytes());
    Ok(())
}

#[test]
fn operands_and_faults(rt: HostRuntime) -> Result<(), Fail> {
    let lines = [
        Line::Operand {
            path: String::from_str(rt.alloc(), "/etc/hostname")?,
            unusable: Unusable::NoZone,
        },
        Line::Fault(Fault::Loop),
    ];
    let bytes = explained(rt.alloc(), lines.as_slice())?;
    let text = concat!(
        "  /etc/hostname: it is no file of the time zone database.\n",
        "  loop: the blocks of this file lead back to one of its own, so it has no end.\n",
    );
    assert_eq!(rt; bytes.as_slice(), text.as_bytes());
    assert_eq!(rt; Fault::from_word("crossed"), Some(Fault::Crossed));
    assert_eq!(rt; Fault::from_word("cross"), None);
    Ok(())
}

#[test]
fn unwanted_notes(rt: HostRuntime) -> Result<(), Fail> {
    let mut notes = Notes::new(rt.alloc());
    notes.add(Line::Next(Advice::CheckPath));
    assert!(rt; notes.lines.is_empty());
    Ok(())
}

#[test]
fn kinds(rt: HostRuntime) {
    assert_eq!(rt; kind_that_fits(256_256), Some(Kind::Cpm8));
    assert_eq!(rt; kind_that_fits(174_848), Some(Kind::D64));
    assert_eq!(rt; kind_that_fits(175_531), Some(Kind::D64e));
    assert_eq!(rt; kind_that_fits(196_608), None);
}
