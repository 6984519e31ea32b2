//! The history of a desk: what was changed, who asked it and when, one entry for each change; the line of
//! each; what a list of entries tells; a history in a file, and whether a store stands as it tells.
#![tactic(auto)]

mod base;
mod change;
mod entry;
mod history;
mod laws;
mod page;
mod reading;
mod rebuilding;
mod remembering;
mod replaying;
mod settling;
mod stage;
#[cfg(test)]
mod tests;
mod writing;

pub use base::begin;
pub use change::change_of;
pub use entry::{Cause, Change, Entry, LAST_NUMBER};
pub use history::History;
pub use laws::{
    bases_tell, changes_may_come, done_changes_stay, left_files_are_near, lines_are_entries,
    restores_lose_nothing, voids_take_back,
};
pub use reading::read_line;
pub use rebuilding::{RebuildFault, missing, rebuild};
pub use remembering::{Recorder, Signature, answer_on};
pub use replaying::Cut;
pub use settling::{Unsettled, settle};
pub use writing::line;
