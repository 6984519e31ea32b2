//! Both kinds of disk as one volume: its files, and the bytes of each as slices of the image.
#![tactic(auto)]

mod calls;
mod cbm;
mod cpm;
mod disk;
mod found;
mod kinds;
mod laws;
mod printed;
mod reports;
mod slices;
mod volume;
mod words;

pub use calls::{directory_end, fault_words, find, pieces, report, survey};
pub use found::Found;
pub use kinds::room;
pub use laws::{
    each_file_told_is_at_its_slot, each_image_has_a_survey_and_a_report, each_image_has_one_survey,
    each_piece_is_a_slice_of_its_image, each_sound_file_has_one_content,
    needed_bytes_decide_what_is_told,
};
pub use rd_cbm::{End, MapReport};
pub use rd_geometry::{CbmDisk, CpmDisk, Geometry, Image, Items, Kind, NoMemory, Text, WrongSize};
pub use reports::Report;
pub use slices::Pieces;
pub use volume::Volume;
pub use words::FaultWords;
