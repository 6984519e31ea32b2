//! The kinds of disk image, and the place of each unit of a disk in its image.
#![tactic(auto)]

mod cbm_disk;
mod cpm_disk;
mod geometry;
mod image;
mod items;
mod kind;
mod memory;
mod text;

pub use cbm_disk::CbmDisk;
pub use cpm_disk::CpmDisk;
pub use geometry::Geometry;
pub use image::{Image, WrongSize};
pub use items::Items;
pub use kind::{KIND_WORDS, Kind};
pub use memory::NoMemory;
pub use text::Text;
