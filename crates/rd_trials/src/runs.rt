//! Trials of the program: its runs on a machine in memory.

mod machine;
mod player;
mod run;
mod visitor;
mod wanted;

pub(crate) use player::play;
