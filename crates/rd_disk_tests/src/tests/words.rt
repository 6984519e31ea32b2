//! The words of faults.

use rd_samples::table;
use rd_volume::{Kind, fault_words};
use std::process::Abort;

/// Faults of files of a kind, and what the first calls for a word answer.
const CASES: &[(Kind, u8, &[Option<&str>])] = table![
    (Kind::Cpm8, 0, &[None, None, None, None, None]);
    (Kind::Cpm8, 70, &[Some("duplicate"), Some("gap"), Some("crossed"), None, None]);
    (Kind::Cpm8, 57, &[Some("bad-count"), Some("short"), Some("hole"), Some("off-disk"), None]);
    (Kind::D64, 0, &[None, None, None, None, None]);
    (Kind::D64, 8, &[Some("crossed"), None, None, None, None]);
    (Kind::D64, 7, &[Some("not-closed"), Some("off-disk"), Some("loop"), None, None]);
    (Kind::D64, 15, &[Some("not-closed"), Some("off-disk"), Some("loop"), Some("crossed"), None]);
    (Kind::D64, 255, &[Some("not-closed"), Some("off-disk"), Some("loop"), Some("crossed"), Some("read-error"), None]);
    (Kind::D64e, 0, &[None, None, None, None, None]);
    (Kind::D64e, 16, &[Some("read-error"), None, None, None, None]);
    (Kind::D64e, 24, &[Some("crossed"), Some("read-error"), None, None, None]);
];

/// The words of faults are these: with each call the next one, and at last none.
fn assert_words<R: Abort>(rt: &R, kind: Kind, faults: u8, wanted: &[Option<&str>]) {
    let mut words = fault_words(kind, faults);
    for word in wanted {
        assert_eq!(rt; words.next(), *word, "of {faults} of {kind:?}");
    }
}

#[test]
fn faults_have_words(rt: HostRuntime) {
    for (kind, faults, wanted) in CASES {
        assert_words(&rt, *kind, *faults, *wanted);
    }
}
