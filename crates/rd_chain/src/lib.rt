//! An append-only chain of lines in an SQLite database: each line has a number and a sum over all lines before it, and
//! no statement changes or deletes one.
#![tactic(auto)]

mod chain;
mod faults;
mod read;
mod schema;
mod sum;
mod write;

pub use chain::Chain;
pub use faults::{ChainFault, CreateFault, OpenFault, Refused};
pub use read::SummedLine;
pub use sum::{next_sum, one_chain};
