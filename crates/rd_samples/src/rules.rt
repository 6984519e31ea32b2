//! Rules in words that a table can hold. A call fails only when memory runs out.

use crate::days::OPENING;
use rd_geometry::{NoMemory, Text};
use rd_policy::{Audiences, Band, Effect, Rule, Select};
use std::alloc::Global;

pub const ALL: Audiences = Audiences {
    public: true,
    room: true,
    staff: true,
};

pub const NOT_STAFF: Audiences = Audiences {
    staff: false,
    ..ALL
};

/// The files that a rule speaks of.
#[derive(Clone, Copy)]
pub enum Files {
    All,
    Slot(u16),
    Prefix(&'static str),
    User(u8),
    Kind(&'static str),
}

/// A rule.
#[derive(Clone, Copy)]
pub struct NewRule {
    pub band: Band,
    pub scope: u32,
    pub rank: u16,
    pub audiences: Audiences,
    pub from: Option<i32>,
    pub until: Option<i32>,
    pub files: Files,
    pub effect: Effect,
}

/// The rule of rank 20 of deed 7, which lets everyone read every file.
pub const OPEN: NewRule = NewRule {
    band: Band::Deed,
    scope: 7,
    rank: 20,
    audiences: ALL,
    from: None,
    until: None,
    files: Files::All,
    effect: Effect::Read,
};

/// The rule of rank 10 of deed 7, which denies every file to all but the staff until 2030.
pub const CLOSED: NewRule = NewRule {
    rank: 10,
    audiences: NOT_STAFF,
    until: Some(OPENING),
    effect: Effect::Deny,
    ..OPEN
};

/// The takedown of rank 1 of accession 12: the file at slot 0, for all but the staff.
pub const TAKEDOWN: NewRule = NewRule {
    band: Band::Takedown,
    scope: 12,
    rank: 1,
    audiences: NOT_STAFF,
    files: Files::Slot(0),
    effect: Effect::Deny,
    ..OPEN
};

pub fn text_of(alloc: Global, text: &str) -> Result<Text, NoMemory> {
    Ok(Text::of(String::from_str(alloc, text)?))
}

pub fn select_of(alloc: Global, files: Files) -> Result<Select, NoMemory> {
    Ok(match files {
        Files::All => Select::All,
        Files::Slot(slot) => Select::Slot(slot),
        Files::Prefix(prefix) => Select::Prefix(text_of(alloc, prefix)?),
        Files::User(user) => Select::User(user),
        Files::Kind(kind) => Select::Kind(text_of(alloc, kind)?),
    })
}

pub fn rule_of(alloc: Global, rule: NewRule) -> Result<Rule, NoMemory> {
    let select = select_of(alloc, rule.files)?;
    Ok(Rule {
        band: rule.band,
        scope: rule.scope,
        rank: rule.rank,
        audiences: rule.audiences,
        from: rule.from,
        until: rule.until,
        select,
        effect: rule.effect,
    })
}

pub fn rules_of(alloc: Global, rules: &[NewRule]) -> Result<Vec<Rule>, NoMemory> {
    let mut list = Vec::new(alloc);
    for rule in rules {
        list.push(rule_of(alloc, *rule)?)?;
    }
    Ok(list)
}
