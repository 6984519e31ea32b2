//! What people give a command beside its plain words: a key in a file, a file of the time zone database, a
//! day in place of a moment; and names for the files of an image in a folder of any system.
#![tactic(auto)]

mod blanks;
mod dots;
mod key_file;
mod moment;
mod names;
mod zone_file;

pub use blanks::trimmed;
pub use key_file::{KEY_FILE_LIMIT, key_in_file};
pub use moment::{first_moment, one_moment};
pub use names::{file_name, one_slot};
pub use zone_file::{ZONE_FILE_LIMIT, ZoneFileFault, zone_in_file};
