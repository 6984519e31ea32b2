//! The verdict of rules on a file, and the label that names it.

use rd_geometry::{Items, NoMemory};
use rd_policy::{Audience, Effect, Label, Verdict, decide, in_order};
use rd_samples::days::OPENING;
use rd_samples::rules::{CLOSED, Files, NewRule, OPEN, TAKEDOWN, rules_of, text_of};
use rd_samples::{like, table};
use rd_volume::Found;
use std::alloc::Global;
use std::process::Abort;
use std::test::Fail;

/// A file: its slot, its printed name, its type, its user, and its faults. It has no units.
type File = (u16, &'static str, &'static str, Option<u8>, u8);

const HELLO: File = (0, "HELLO", "PRG", None, 0);

const OTHER: File = (1, "OTHER", "PRG", None, 0);

const LOOP: File = (0, "LOOP", "PRG", None, 4);

const CBM: File = (3, "HELLO", "PRG", None, 0);

const CPM: File = (3, "hello.", "", Some(2), 0);

/// A label, rules, a file, who asks, on which day, and the verdict.
type Case = (
    &'static str,
    &'static [NewRule],
    File,
    Audience,
    i32,
    Verdict,
);

const BY_OPEN: Verdict = Verdict {
    effect: Effect::Read,
    label: Label::Deed(7, 20),
};

const BY_CLOSED: Verdict = Verdict {
    effect: Effect::Deny,
    label: Label::Deed(7, 10),
};

const BY_TAKEDOWN: Verdict = Verdict {
    effect: Effect::Deny,
    label: Label::Takedown(12, 1),
};

const BY_NO_RULE: Verdict = Verdict {
    effect: Effect::Deny,
    label: Label::Default,
};

/// The day before the deed opens.
const EVE: i32 = OPENING - 1;

const DEED: &[NewRule] = &[CLOSED, OPEN];

const TAKEN_DOWN: &[NewRule] = &[TAKEDOWN, CLOSED, OPEN];

const FROM_10_TO_12: &[NewRule] = &[like!(NewRule, OPEN, from: Some(10), until: Some(12))];

const CASES: &[Case] = table![
    ("a deed that opens, to the public before", DEED, HELLO, Audience::Public, EVE, BY_CLOSED);
    ("a deed that opens, to the room before", DEED, HELLO, Audience::Room, EVE, BY_CLOSED);
    ("a deed that opens, to the staff before", DEED, HELLO, Audience::Staff, EVE, BY_OPEN);
    ("a deed that opens, to the public", DEED, HELLO, Audience::Public, OPENING, BY_OPEN);
    ("a deed that opens, to the room", DEED, HELLO, Audience::Room, OPENING, BY_OPEN);
    ("a deed that opens, to the staff", DEED, HELLO, Audience::Staff, OPENING, BY_OPEN);
    ("a takedown, to the public", TAKEN_DOWN, HELLO, Audience::Public, OPENING, BY_TAKEDOWN);
    ("a takedown, to the room", TAKEN_DOWN, HELLO, Audience::Room, OPENING, BY_TAKEDOWN);
    ("a takedown, to the staff", TAKEN_DOWN, HELLO, Audience::Staff, OPENING, BY_OPEN);
    ("a takedown of another file", TAKEN_DOWN, OTHER, Audience::Room, OPENING, BY_OPEN);
    ("a takedown alone, to the staff", &[TAKEDOWN], HELLO, Audience::Staff, OPENING, BY_NO_RULE);
    ("no rule, to the public", &[], HELLO, Audience::Public, OPENING, BY_NO_RULE);
    ("no rule, to the room", &[], HELLO, Audience::Room, OPENING, BY_NO_RULE);
    ("no rule, to the staff", &[], HELLO, Audience::Staff, OPENING, BY_NO_RULE);
    ("a faulty file before", DEED, LOOP, Audience::Public, EVE, BY_CLOSED);
    ("a faulty file", DEED, LOOP, Audience::Public, OPENING, BY_OPEN);
    ("before the first day", FROM_10_TO_12, HELLO, Audience::Public, 9, BY_NO_RULE);
    ("on the first day", FROM_10_TO_12, HELLO, Audience::Public, 10, BY_OPEN);
    ("before the end", FROM_10_TO_12, HELLO, Audience::Public, 11, BY_OPEN);
    ("on the day that ends it", FROM_10_TO_12, HELLO, Audience::Public, 12, BY_NO_RULE);
];

const BY_LISTING: Verdict = Verdict {
    effect: Effect::List,
    label: Label::Deed(7, 1),
};

/// A rule that lists files.
macro_rules! lists {
    ($files:expr) => {
        &[like!(NewRule, OPEN, rank: 1, files: $files, effect: Effect::List)]
    };
}

const SELECTORS: &[Case] = table![
    ("each file", lists!(Files::All), CBM, Audience::Public, OPENING, BY_LISTING);
    ("its slot", lists!(Files::Slot(3)), CBM, Audience::Public, OPENING, BY_LISTING);
    ("another slot", lists!(Files::Slot(4)), CBM, Audience::Public, OPENING, BY_NO_RULE);
    ("its name", lists!(Files::Prefix("HELLO")), CBM, Audience::Public, OPENING, BY_LISTING);
    ("the front of its name", lists!(Files::Prefix("HE")), CBM, Audience::Public, OPENING, BY_LISTING);
    ("an empty prefix", lists!(Files::Prefix("")), CBM, Audience::Public, OPENING, BY_LISTING);
    ("more than its name", lists!(Files::Prefix("HELLO.")), CBM, Audience::Public, OPENING, BY_NO_RULE);
    ("the end of its name", lists!(Files::Prefix("ELLO")), CBM, Audience::Public, OPENING, BY_NO_RULE);
    ("in other letters", lists!(Files::Prefix("HE")), CPM, Audience::Public, OPENING, BY_NO_RULE);
    ("a user of a 1541 disk", lists!(Files::User(0)), CBM, Audience::Public, OPENING, BY_NO_RULE);
    ("its user", lists!(Files::User(2)), CPM, Audience::Public, OPENING, BY_LISTING);
    ("another user", lists!(Files::User(3)), CPM, Audience::Public, OPENING, BY_NO_RULE);
    ("its type", lists!(Files::Kind("PRG")), CBM, Audience::Public, OPENING, BY_LISTING);
    ("the front of its type", lists!(Files::Kind("PR")), CBM, Audience::Public, OPENING, BY_NO_RULE);
    ("an empty type", lists!(Files::Kind("")), CPM, Audience::Public, OPENING, BY_LISTING);
];

fn found(alloc: Global, (slot, name, ty, user, faults): File) -> Result<Found, NoMemory> {
    Ok(Found {
        slot,
        name: text_of(alloc, name)?,
        ty: text_of(alloc, ty)?,
        user,
        served_class: true,
        size: if faults == 0 { Some(0) } else { None },
        faults,
        units: Items::of(Vec::new(alloc)),
        last_len: 0,
    })
}

/// What is decided, where the rules are in order.
fn decided(alloc: Global, case: Case) -> Result<Option<Verdict>, NoMemory> {
    let (_, rules, file, audience, day, _) = case;
    let rules = rules_of(alloc, rules)?;
    let file = found(alloc, file)?;
    Ok(if in_order(rules.as_slice()) {
        Some(decide(rules.as_slice(), audience, day, &file))
    } else {
        None
    })
}

fn assert_cases(rt: &impl Abort, alloc: Global, cases: &[Case]) -> Result<(), Fail> {
    for case in cases {
        assert_eq!(rt; decided(alloc, *case)?, Some(case.5), "{}", case.0);
    }
    Ok(())
}

#[test]
fn the_first_rule_that_matches_decides(rt: HostRuntime) -> Result<(), Fail> {
    assert_cases(&rt, rt.alloc(), CASES)
}

#[test]
fn rules_speak_of_the_files_they_select(rt: HostRuntime) -> Result<(), Fail> {
    assert_cases(&rt, rt.alloc(), SELECTORS)
}

const LABELS: &[(Label, &str)] = table![
    (Label::Takedown(12, 1), "T12.1");
    (Label::Deed(7, 10), "R7.10");
    (Label::Deed(999_999, 9_999), "R999999.9999");
    (Label::Default, "D0");
];

fn assert_labels(rt: &impl Abort, alloc: Global, cases: &[(Label, &str)]) -> Result<(), Fail> {
    for (label, text) in cases {
        assert_eq!(rt; label.to_string(alloc)?.as_str(), *text);
    }
    Ok(())
}

#[test]
fn labels_name_rules(rt: HostRuntime) -> Result<(), Fail> {
    assert_labels(&rt, rt.alloc(), LABELS)
}
