//! The directory of a 1541 disk, its files and the chains of their blocks, and its block map.
#![tactic(auto)]

mod catalog;
mod chains;
mod claims;
mod class;
mod entries;
mod faults;
mod find;
mod listing;
mod map;
mod report;
mod slots;
mod walk;

pub use catalog::files;
pub use chains::{Chain, End, Link};
pub use class::Class;
pub use entries::{CbmEntry, Directory};
pub use find::file;
pub use listing::CbmFile;
pub use map::block_map;
pub use report::MapReport;
pub use slots::directory;
pub use walk::{chain, each_walk_ends_once, link};
