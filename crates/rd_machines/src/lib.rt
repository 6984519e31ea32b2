//! Machines in memory on which tests run the program.
#![tactic(auto)]

mod bare;
mod museum;

pub use bare::Bare;
pub use museum::{Museum, NEW_STORE, STORE, Supply};
