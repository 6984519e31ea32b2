//! The process and the machine that the program runs on: its words, its files, its clock and its doors.
#![tactic(auto)]

mod host;
mod places;

pub use host::{Host, HostClock, HostDisk, HostDoor, HostPlaces, Places, start};
pub use places::{HostListener, HostSocket, HostStream};
