//! Builders of sample images and rules, and what tests need beside them: desk keys, moments and days, and macros for
//! tables.
#![tactic(auto)]

pub mod bytes;
pub mod cbm;
pub mod cpm;
pub mod days;
pub mod keys;
mod macros;
pub mod rules;
