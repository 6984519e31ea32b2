//! Trials of a desk in memory: its visits, its tables, and how it opens.

mod desk;
mod player;
mod visit;

pub(crate) use player::play;
