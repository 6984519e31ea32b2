//! The commands of the program `desk` on a store, and `run`, which runs any command on a given machine.
#![tactic(auto)]

mod answers;
mod asker;
mod completing;
mod copy;
mod dispatch;
mod explaining;
mod export_check;
mod extract;
mod faults;
mod import;
mod init;
mod machine;
mod open_desk;
mod operands;
mod row_notes;
mod serve;
mod show;
mod staff_key;

pub use dispatch::{Why, run};
pub use explaining::explain;
pub use machine::{Machine, WriteFault, connect_fault};
pub use rd_commands::{
    Files, MachineFault, Place, Refusal, Remembered, RowNote, SystemFault, exit_code, read_front,
    read_some,
};
pub use rd_explanations::{Line, Said};
