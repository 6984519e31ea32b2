/// A CP/M disk with these entries from slot 0 on.
macro_rules! with {
    ($($entry:expr),+) => { like!(Sample, BLANK, base: Base::WithEntries(&[$($entry),+])) };
}

mod built;
mod cases;
mod cbm_directory;
mod cbm_files;
mod chains;
mod cpm_files;
mod days;
mod decisions;
mod entries;
mod explanations;
mod geometry;
mod limits;
mod needed;
mod operands;
mod refused;
mod reports;
mod sample;
mod surveys;
mod words;
