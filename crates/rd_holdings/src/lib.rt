//! What a desk holds: deeds, images, rules, desk keys and checks, as finite maps, and what is true of each desk. It names
//! no request, no reply and no database.
#![tactic(auto)]

mod limits;
mod rows;
mod rule_laws;

pub use limits::is_donor;
pub use rows::{Accession, DeedRow, Finding, ImageRow, Indexed, Outcome};
pub use rule_laws::{rules_are_in_order, rules_are_those};
