ghost use Rattle.std.specs.Prelude.{◌≡◌, ◌≢◌, ◌↔◌, ◌≤ℤ◌, ◌<ℤ◌, IsTrue, IfNone, IfSome};
ghost use Rattle.rd_policy.specs.Days.{IsDay};

use crate::audience::{Audience, Audiences};
use crate::day::is_day;
use crate::limits::{is_rank, is_scope};
use crate::select::Select;
use crate::verdict::{Label, Verdict};
use rd_volume::Found;

/// What a rule does with a file.
#[derive(Clone, Copy, Debug, PartialEq, Eq, Hash)]
pub enum Effect {
    /// It is neither listed nor served.
    Deny,
    /// It is listed, and not served.
    List,
    /// It is listed, and served if it is sound.
    Read,
}

impl Effect {
    ghost use Rattle.rd_policy.specs.Rules.{effect_word};

    /// The word for this effect.
    pub fn word(self) -> &'static str
        ensures { result.now ≡ effect_word self }
    {
        match self {
            Effect::Deny => "deny",
            Effect::List => "list",
            Effect::Read => "read",
        }
    }

    /// The effect that has this word, `None` if no effect has it.
    pub fn from_word(word: &str) -> Option<Effect>
        ensures found { IfSome result (λ effect. word.now ≡ effect_word effect) }
        ensures none { IfNone result ((effect : Effect) → word.now ≢ effect_word effect) }
    {
        for effect in [Effect::Deny, Effect::List, Effect::Read] {
            if effect.word() == word {
                return Some(effect);
            }
        }
        None
    }
}

/// Where a rule comes from.
#[derive(Clone, Copy, Debug, PartialEq, Eq, Hash)]
pub enum Band {
    /// A takedown of an accession.
    Takedown,
    /// A deed.
    Deed,
}

/// A rule on the files of an image.
#[derive(Debug, Drop)]
pub struct Rule {
    /// Where it comes from.
    pub band: Band,
    /// The number of the accession or the deed, 1 to 999,999.
    pub scope: u32,
    /// Its rank among the rules of its band and scope, 1 to 9,999; the lower comes first.
    pub rank: u16,
    /// For whom it holds; at least one audience.
    pub audiences: Audiences,
    /// The first day on which it holds, counted from 1970-01-01.
    pub from: Option<i32>,
    /// The first day on which it no longer holds, counted from 1970-01-01.
    pub until: Option<i32>,
    /// Which files it is about.
    pub select: Select,
    /// What it does with them; that of a takedown must not be `Read`.
    pub effect: Effect,
}

/// Whether a day is at or after the first day, if there is one.
fn has_begun(from: Option<i32>, day: i32) -> bool
    ensures { IsTrue result ↔ IfSome from (λ first. first ≤ℤ day) }
{
    match from {
        Some(first) => first <= day,
        None => true,
    }
}

/// Whether a day is before the end, if there is one.
fn is_not_over(until: Option<i32>, day: i32) -> bool
    ensures { IsTrue result ↔ IfSome until (λ end. day <ℤ end) }
{
    match until {
        Some(end) => day < end,
        None => true,
    }
}

/// Whether there is no day, or the day has a date.
fn is_no_day_or_fits(day: Option<i32>) -> bool
    ensures { IsTrue result ↔ IfSome day IsDay }
{
    match day {
        Some(day) => is_day(day),
        None => true,
    }
}

impl Rule {
    ghost use Rattle.rd_policy.specs.Rules.{IsRule};
    ghost use Rattle.rd_policy.specs.Matches.{Matches};
    ghost use Rattle.rd_policy.specs.Verdicts.{verdict_of};

    /// Whether the values of the rule are within their limits.
    pub fn fits(&self) -> bool
        ensures { IsTrue result ↔ IsRule self.now }
    {
        is_scope(self.scope)
            && is_rank(self.rank)
            && !self.audiences.is_empty()
            && is_no_day_or_fits(self.from)
            && is_no_day_or_fits(self.until)
            && self.select.fits()
            && !(self.band == Band::Takedown && self.effect == Effect::Read)
    }

    /// Whether the rule matches for an audience, a day and a file.
    pub(crate) fn matches(&self, audience: Audience, day: i32, file: &Found) -> bool
        ensures { IsTrue result ↔ Matches self.now audience day file.now }
    {
        self.audiences.contains(audience)
            && has_begun(self.from, day)
            && is_not_over(self.until, day)
            && self.select.selects(file)
    }

    /// What the rule says when it decides.
    pub(crate) fn verdict(&self) -> Verdict
        ensures { result ≡ verdict_of self.now }
    {
        let label = match self.band {
            Band::Takedown => Label::Takedown(self.scope, self.rank),
            Band::Deed => Label::Deed(self.scope, self.rank),
        };
        Verdict {
            effect: self.effect,
            label,
        }
    }
}
