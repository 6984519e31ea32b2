//! The directory of a CP/M 2.2 disk, and its files.
#![tactic(auto)]

mod claims;
mod directory;
mod faults;
mod fields;
mod find;
mod gather;
mod listing;
mod owners;
mod sectors;
mod walk;

pub use directory::entry;
pub use fields::Entry;
pub use find::file;
pub use listing::CpmFile;
pub use walk::files;
