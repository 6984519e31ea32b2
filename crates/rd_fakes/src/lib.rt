//! What tests have in place of the real thing: stores, desks and doors in memory, and connections, readers and
//! writers that cut short and fail. Beside these, what `rd_trials` and `rd_stop_runs` write: bytes and tables as text,
//! and how many cases hold; these calls fail when memory runs out, the database fails or the output cannot be written.
#![tactic(auto)]

pub mod desk;
pub mod escapes;
pub mod stream;
pub mod tables;
pub mod tally;
pub mod wire;
