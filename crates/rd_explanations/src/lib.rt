//! What a refused command says below its one line, for the person who gave it: each line begins with two blanks.
#![tactic(auto)]

mod explanation;
mod fault;
mod fits;
mod line;
mod notes;
mod said;
mod words;

pub use explanation::explained;
pub use fault::Fault;
pub use fits::kind_that_fits;
pub use line::Line;
pub use notes::Notes;
pub use said::Said;
pub use words::{Advice, Column, Reason, Unusable};
