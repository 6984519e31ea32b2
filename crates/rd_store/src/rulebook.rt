//! All rules in one list, and those of one accession and one deed in it.

ghost use Rattle.std.specs.Prelude.{◌≡◌, ◌++◌, MatchBool, MatchOption};
ghost use Rattle.std.specs.Ordering.{is_lt};
ghost use Rattle.rd_policy.specs.Verdicts.{AreInOrder};
ghost use Rattle.rd_policy.specs.declared.rule.Band.{Band as RuleBand};
ghost use Rattle.rd_store.specs.Ruled.{AreAllRules, is_below, is_up_to, side_of};
ghost use Rattle.rd_holdings.specs.State.{Desk, all_rules, place_cmp, place_of, rules_at, band_code};

use crate::codes;
use rd_policy::{Band, Rule};
use std::cmp::Ordering;
use std::marker::Model;

/// All rules of a desk, which contracts see as their list: takedowns before rules of deeds, then by number, then by rank.
#[derive(Drop)]
pub struct Rulebook {
    rules: Vec<Rule>,
}

impl Model for Rulebook {
    ghost use Rattle.std.specs.Prelude.{List};
    ghost use Rattle.rd_policy.specs.declared.rule.Rule.{Rule as Kept};
    ghost use Rattle.rd_store.specs.Ruled.{AreAllRules};

    ghost Value = { List Kept };

    ghost view = { λ book. book.rules.items };

    ghost invariant = { λ book. AreAllRules book.rules.items };
}

/// Whether one rule comes before another: by its band, then by its number, then by its rank.
fn is_before(one: &Rule, other: &Rule) -> bool
    ensures { result ≡ is_lt (place_cmp (place_of one.now) (place_of other.now)) }
{
    let bands = codes::of_band(one.band).cmp(&codes::of_band(other.band));
    let scopes = one.scope.cmp(&other.scope);
    let ranks = one.rank.cmp(&other.rank);
    bands.then(scopes.then(ranks)).is_lt()
}

/// Whether each rule comes before the next.
fn are_ascending(rules: &[Rule]) -> bool
    ensures { MatchBool result (AreAllRules rules.now) (¬ AreAllRules rules.now) }
{
    for i in 1..rules.len() {
        if !is_before(&rules[i - 1], &rules[i]) {
            return false;
        }
    }
    true
}

/// How a rule's band and number are to another band, by its code, and another number.
fn side(rule: &Rule, code: u32, scope: u32) -> Ordering
    ensures { result ≡ side_of code scope rule.now.band rule.now.scope }
{
    let bands = codes::of_band(rule.band).cmp(&code);
    bands.then(rule.scope.cmp(&scope))
}

/// The rules of one band, by its code, and of one number.
fn those_of(rules: &[Rule], code: u32, scope: u32) -> &[Rule]
    requires { AreAllRules rules.now }
    ensures { (desk : Desk) (band : RuleBand) → code ≡ band_code band → rules.now ≡ all_rules desk → result.now ≡ rules_at desk band scope }
{
    let from = rules.partition_point(
        |rule: &Rule| -> bool
            ensures { result ≡ is_below code scope rule.now }
        { side(rule, code, scope).is_lt() },
    );
    let rest = &rules[from..];
    let to = rest.partition_point(
        |rule: &Rule| -> bool
            ensures { result ≡ is_up_to code scope rule.now }
        { side(rule, code, scope).is_le() },
    );
    &rest[..to]
}

impl Rulebook {
    /// A book of these rules; `None` exactly if they do not ascend by place.
    pub(crate) fn of(rules: Vec<Rule>) -> Option<Rulebook>
        ensures { MatchOption result (¬ AreAllRules rules.items) (λ book. book ≡ rules.items) }
    {
        if !are_ascending(&rules) {
            return None;
        }
        Some(Rulebook { rules })
    }

    /// All rules: takedowns before rules of deeds, then by number, then by rank.
    pub(crate) fn all(&self) -> &[Rule]
        ensures { result.now ≡ self.now }
    {
        self.rules.as_slice()
    }

    /// All rules, in the same order.
    pub fn into_rules(self) -> Vec<Rule>
        ensures { result.items ≡ self }
    {
        let Rulebook { rules } = self;
        rules
    }

    /// The rules for the files of an accession under a deed: the takedowns of the accession, and the rules of the deed,
    /// each by rank. Takedowns decide before the rules of a deed.
    pub fn under(&self, acc: u32, deed: u32) -> (&[Rule], &[Rule])
        ensures takedowns { (desk : Desk) → self.now ≡ all_rules desk → result.0.now ≡ rules_at desk Band.Takedown acc }
        ensures rules { (desk : Desk) → self.now ≡ all_rules desk → result.1.now ≡ rules_at desk Band.Deed deed }
        ensures order { AreInOrder (result.0.now ++ result.1.now) }
    {
        let rules = self.rules.as_slice();
        let takedowns = those_of(rules, codes::of_band(Band::Takedown), acc);
        let others = those_of(rules, codes::of_band(Band::Deed), deed);
        (takedowns, others)
    }
}
