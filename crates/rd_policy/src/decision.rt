ghost use Rattle.std.specs.Prelude.{◌↔◌, IsTrue, Contains};
ghost use Rattle.rd_policy.specs.Neighbours.{ComesFirst};
ghost use Rattle.rd_policy.specs.Verdicts.{AreInOrder, IsVerdict, OneRuleDecides, OneVerdict};

use crate::audience::Audience;
use crate::rule::{Band, Effect, Rule};
use crate::verdict::{Label, Verdict};
use rd_volume::Found;

/// Whether one rule may stand directly before another: a takedown before a rule of a deed; within
/// a band, of the same scope, the lower rank before the higher.
fn comes_first(first: &Rule, second: &Rule) -> bool
    ensures { IsTrue result ↔ ComesFirst first.now second.now }
{
    match (first.band, second.band) {
        (Band::Takedown, Band::Deed) => true,
        (Band::Deed, Band::Takedown) => false,
        (Band::Takedown, Band::Takedown) | (Band::Deed, Band::Deed) => {
            first.scope == second.scope && first.rank < second.rank
        }
    }
}

/// Whether rules are in the order in which `decide` tries them: takedowns before the rules of a
/// deed, each band of one scope and with strictly rising ranks. An empty list is in order.
pub fn in_order(rules: &[Rule]) -> bool
    ensures { IsTrue result ↔ AreInOrder rules.now }
{
    for i in 1..rules.len() {
        if !comes_first(&rules[i - 1], &rules[i]) {
            return false;
        }
    }
    true
}

/// The verdict of rules on a file, for an audience and a day.
///
/// The rules are the takedowns of the file's accession and the rules of its deed, in order. The
/// first rule that matches decides; if none matches, the file is denied. The day is counted from
/// 1970-01-01.
#[inline(always)]
pub fn decide(rules: &[Rule], audience: Audience, day: i32, file: &Found) -> Verdict
    requires { AreInOrder rules.now }
    ensures { IsVerdict (Contains rules.now) audience day file.now result }
{
    for rule in rules {
        if rule.matches(audience, day, file) {
            return rule.verdict();
        }
    }
    Verdict {
        effect: Effect::Deny,
        label: Label::Default,
    }
}

/// Law: among rules in order at most one decides, and they give one verdict.
pub fn one_decides()
    ensures rule { OneRuleDecides }
    ensures verdict { OneVerdict }
{}
