//! The change that a request asks.

ghost use Rattle.std.specs.Prelude.{◌≡◌, IfOk};
ghost use Rattle.rd_history.specs.Changes as spec;

use crate::entry::Change;
use rd_geometry::{NoMemory, Text};
use rd_policy::{Rule, Select};
use rd_protocol::What;
use std::alloc::Global;

fn copy_text(alloc: Global, text: &Text) -> Result<Text, NoMemory>
    ensures { IfOk result (λ copy. copy ≡ text.now) }
{
    Ok(Text::of(String::from_str(alloc, text.as_str())?))
}

/// A copy of a selector.
fn copy_select(alloc: Global, select: &Select) -> Result<Select, NoMemory>
    ensures { IfOk result (λ copy. copy ≡ select.now) }
{
    match select {
        Select::All => Ok(Select::All),
        Select::Slot(slot) => Ok(Select::Slot(*slot)),
        Select::Prefix(text) => Ok(Select::Prefix(copy_text(alloc, text)?)),
        Select::User(user) => Ok(Select::User(*user)),
        Select::Kind(text) => Ok(Select::Kind(copy_text(alloc, text)?)),
    }
}

fn copy_rule(alloc: Global, rule: &Rule) -> Result<Rule, NoMemory>
    ensures { IfOk result (λ copy. copy ≡ rule.now) }
{
    let select = copy_select(alloc, &rule.select)?;
    Ok(Rule {
        band: rule.band,
        scope: rule.scope,
        rank: rule.rank,
        audiences: rule.audiences,
        from: rule.from,
        until: rule.until,
        select,
        effect: rule.effect,
    })
}

/// The change that a request asks: to put a deed, an image, a rule or a key, or to drop a rule or a key.
/// `None` for every other request. It fails only when memory runs out.
pub fn change_of(alloc: Global, what: &What) -> Result<Option<Change>, NoMemory>
    ensures { IfOk result (λ change. change ≡ spec.change_of what.now) }
{
    match what {
        What::PutImage {
            acc,
            kind,
            deed,
            digest,
            ..
        } => Ok(Some(Change::Image {
            acc: *acc,
            kind: *kind,
            deed: *deed,
            digest: *digest,
        })),
        What::PutDeed { num, donor, signed } => Ok(Some(Change::Deed {
            num: *num,
            donor: copy_text(alloc, donor)?,
            signed: *signed,
        })),
        What::PutRule(rule) => Ok(Some(Change::Rule(copy_rule(alloc, rule)?))),
        What::DropRule { band, scope, rank } => Ok(Some(Change::DropRule {
            band: *band,
            scope: *scope,
            rank: *rank,
        })),
        What::PutKey { digest, audience } => Ok(Some(Change::Key {
            digest: *digest,
            audience: *audience,
        })),
        What::DropKey { digest } => Ok(Some(Change::DropKey { digest: *digest })),
        _ => Ok(None),
    }
}
