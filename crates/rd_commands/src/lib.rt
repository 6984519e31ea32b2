//! The command line of the program `desk`: its words, its input and output, its refusals, the commands on images,
//! and the rows of a sheet. It names no database.
#![tactic(auto)]

mod asked;
pub mod cat;
mod command_line;
mod common_options;
mod done;
mod explaining;
mod files;
mod help;
mod input;
pub mod list;
mod output;
mod printed;
mod refusal;
mod remembered;
mod serving;
mod sheet;
mod source;
mod tell;
mod version;
mod words;

pub use common_options::{CommonOptions, Parsed};
pub use done::{Done, whole};
pub use explaining::tell_notes;
pub use files::{Files, MachineFault};
pub use input::{read_front, read_some};
pub use output::write_whole;
pub use refusal::Refusal;
pub use remembered::{Remembered, RowNote, SystemFault};
pub use serving::{Place, Timeouts};
pub use sheet::{SheetRow, bad_column, is_header, next_row, row_of};
pub use source::read_image;
pub use tell::{exit_code, tell_refusal, tell_unread};
pub use words::{
    Ask, CopyAsk, ExtractAsk, FileAsk, FlaggedImportAsk, ImageAsk, ImportAsk, InitAsk,
    OneQuestionAsk, Question, ServeAsk, Shown, StaffKeyAsk, Unread, WhenAsk, read_words,
};
