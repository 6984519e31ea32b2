//! Which values are within their limits, and other questions that yes or no answers.

use rd_geometry::NoMemory;
use rd_policy::{Audience, Audiences, Effect, in_order, is_day, is_rank, is_scope};
use rd_samples::rules::{CLOSED, Files, NOT_STAFF, NewRule, OPEN, TAKEDOWN, rule_of, rules_of};
use rd_samples::{like, table};
use std::alloc::Global;
use std::process::Abort;
use std::test::Fail;

/// What is asked.
#[derive(Clone, Copy)]
enum Question {
    IsDay(i32),
    IsScope(u32),
    IsRank(u16),
    Fits(NewRule),
    AreInOrder(&'static [NewRule]),
    Contains(Audiences, Audience),
    IsEmpty(Audiences),
}

/// A label, what is asked, and the answer.
type Case = (&'static str, Question, bool);

const NUMBERS: &[Case] = table![
    ("the day before the first", Question::IsDay(-719_163), false);
    ("the first day", Question::IsDay(-719_162), true);
    ("the last day", Question::IsDay(2_932_896), true);
    ("the day after the last", Question::IsDay(2_932_897), false);
    ("number 0", Question::IsScope(0), false);
    ("number 1", Question::IsScope(1), true);
    ("number 999,999", Question::IsScope(999_999), true);
    ("number 1,000,000", Question::IsScope(1_000_000), false);
    ("rank 0", Question::IsRank(0), false);
    ("rank 1", Question::IsRank(1), true);
    ("rank 9,999", Question::IsRank(9_999), true);
    ("rank 10,000", Question::IsRank(10_000), false);
];

const NOBODY: Audiences = Audiences {
    public: false,
    room: false,
    staff: false,
};

const AUDIENCES: &[Case] = table![
    ("the public in all but the staff", Question::Contains(NOT_STAFF, Audience::Public), true);
    ("the reading room in all but the staff", Question::Contains(NOT_STAFF, Audience::Room), true);
    ("the staff in all but the staff", Question::Contains(NOT_STAFF, Audience::Staff), false);
    ("all but the staff", Question::IsEmpty(NOT_STAFF), false);
    ("nobody", Question::IsEmpty(NOBODY), true);
];

const RULES: &[Case] = table![
    ("an open rule", Question::Fits(OPEN), true);
    ("a closed rule", Question::Fits(CLOSED), true);
    ("a takedown", Question::Fits(TAKEDOWN), true);
    ("a rule of number 0", Question::Fits(like!(NewRule, OPEN, scope: 0)), false);
    ("a rule of rank 0", Question::Fits(like!(NewRule, OPEN, rank: 0)), false);
    ("a rule for nobody", Question::Fits(like!(NewRule, OPEN, audiences: NOBODY)), false);
    ("from the day after the last", Question::Fits(like!(NewRule, OPEN, from: Some(2_932_897))), false);
    ("until the day before the first", Question::Fits(like!(NewRule, OPEN, until: Some(-719_163))), false);
    ("an end before its beginning", Question::Fits(like!(NewRule, OPEN, from: Some(2), until: Some(1))), true);
    ("a takedown that lets read", Question::Fits(like!(NewRule, TAKEDOWN, effect: Effect::Read)), false);
    ("a takedown that lists", Question::Fits(like!(NewRule, TAKEDOWN, effect: Effect::List)), true);
];

const SIXTEEN: &str = "ABCDEFGHIJKLMNOP";

const SEVENTEEN: &str = "ABCDEFGHIJKLMNOPA";

const SIXTY_FOUR: &str = "ABCDEFGHIJKLMNOPABCDEFGHIJKLMNOPABCDEFGHIJKLMNOPABCDEFGHIJKLMNOP";

const SIXTY_FIVE: &str = "ABCDEFGHIJKLMNOPABCDEFGHIJKLMNOPABCDEFGHIJKLMNOPABCDEFGHIJKLMNOPA";

const _: () = prove!(SIXTY_FOUR.len() == 64);

const SELECTORS: &[Case] = table![
    ("slot 9,999", Question::Fits(like!(NewRule, OPEN, files: Files::Slot(9_999))), true);
    ("slot 10,000", Question::Fits(like!(NewRule, OPEN, files: Files::Slot(10_000))), false);
    ("user 15", Question::Fits(like!(NewRule, OPEN, files: Files::User(15))), true);
    ("user 16", Question::Fits(like!(NewRule, OPEN, files: Files::User(16))), false);
    ("an empty prefix", Question::Fits(like!(NewRule, OPEN, files: Files::Prefix(""))), true);
    ("a prefix of 64", Question::Fits(like!(NewRule, OPEN, files: Files::Prefix(SIXTY_FOUR))), true);
    ("a prefix of 65", Question::Fits(like!(NewRule, OPEN, files: Files::Prefix(SIXTY_FIVE))), false);
    ("a prefix of a blank and a tilde", Question::Fits(like!(NewRule, OPEN, files: Files::Prefix(" ~"))), true);
    ("a prefix with 1F hex", Question::Fits(like!(NewRule, OPEN, files: Files::Prefix("\u{1f}"))), false);
    ("a prefix with 7F hex", Question::Fits(like!(NewRule, OPEN, files: Files::Prefix("\u{7f}"))), false);
    ("a prefix with an accent", Question::Fits(like!(NewRule, OPEN, files: Files::Prefix("é"))), false);
    ("a type of 16", Question::Fits(like!(NewRule, OPEN, files: Files::Kind(SIXTEEN))), true);
    ("a type of 17", Question::Fits(like!(NewRule, OPEN, files: Files::Kind(SEVENTEEN))), false);
];

const ORDERS: &[Case] = table![
    ("no rules", Question::AreInOrder(&[]), true);
    ("a takedown alone", Question::AreInOrder(&[TAKEDOWN]), true);
    ("one rule", Question::AreInOrder(&[OPEN]), true);
    ("two rules of a deed", Question::AreInOrder(&[CLOSED, OPEN]), true);
    ("a takedown before the rules of a deed", Question::AreInOrder(&[TAKEDOWN, CLOSED, OPEN]), true);
    ("a higher rank first", Question::AreInOrder(&[OPEN, CLOSED]), false);
    ("a rank twice", Question::AreInOrder(&[OPEN, OPEN]), false);
    ("a deed before a takedown", Question::AreInOrder(&[OPEN, TAKEDOWN]), false);
    ("a deed between takedowns", Question::AreInOrder(&[TAKEDOWN, OPEN, TAKEDOWN]), false);
    ("two deeds", Question::AreInOrder(&[CLOSED, like!(NewRule, OPEN, scope: 8)]), false);
];

fn fits(alloc: Global, rule: NewRule) -> Result<bool, NoMemory> {
    Ok(rule_of(alloc, rule)?.fits())
}

fn are_in_order(alloc: Global, rules: &[NewRule]) -> Result<bool, NoMemory> {
    Ok(in_order(rules_of(alloc, rules)?.as_slice()))
}

fn answer(alloc: Global, question: Question) -> Result<bool, NoMemory> {
    match question {
        Question::IsDay(day) => Ok(is_day(day)),
        Question::IsScope(number) => Ok(is_scope(number)),
        Question::IsRank(rank) => Ok(is_rank(rank)),
        Question::Fits(rule) => fits(alloc, rule),
        Question::AreInOrder(rules) => are_in_order(alloc, rules),
        Question::Contains(audiences, audience) => Ok(audiences.contains(audience)),
        Question::IsEmpty(audiences) => Ok(audiences.is_empty()),
    }
}

fn assert_answers(rt: &impl Abort, alloc: Global, cases: &[Case]) -> Result<(), Fail> {
    for (label, question, wanted) in cases {
        assert_eq!(rt; answer(alloc, *question)?, *wanted, "{label}");
    }
    Ok(())
}

#[test]
fn values_have_limits(rt: HostRuntime) -> Result<(), Fail> {
    for cases in [NUMBERS, AUDIENCES, RULES, SELECTORS, ORDERS] {
        assert_answers(&rt, rt.alloc(), cases)?;
    }
    Ok(())
}
