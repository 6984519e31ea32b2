//! The tables of the desk: an exact, transactional store of deeds, images, rules and desk keys, over any
//! store of `sqlite`.
#![tactic(auto)]

mod batches;
mod checks;
mod codes;
mod columns;
mod comparing;
mod connection_state;
mod copying;
mod crash_laws;
mod create;
mod decode;
mod deeds;
mod faults;
mod files;
mod image_cache;
mod image_walk;
mod images;
mod index_checks;
mod keys;
mod marks;
mod migrating;
mod opening;
mod read;
mod register;
mod row_checks;
mod rulebook;
mod rules;
mod store;
mod validation;
mod version;

pub use crash_laws::left_desks_open;
pub use faults::{CreateFault, OpenFault, Refused, StoreFault};
pub use rd_holdings::{
    Accession, DeedRow, ImageRow, Indexed, Outcome, is_donor, rules_are_in_order, rules_are_those,
};
pub use rulebook::Rulebook;
pub use store::{Store, memory_stays_open};
