//! The protocol of the desk: what may be asked, which refusal holds, and what is replied. It names no database.
#![tactic(auto)]

mod body;
mod catalogue;
mod checks;
mod contents;
mod laws;
mod listings;
mod lists;
pub mod parts;
mod refusal;
pub mod reply_text;
mod request;
mod response;
mod staff_lists;
mod verdicts;

pub use body::{Body, BodyPieces};
pub use checks::{check_row, has_digest};
pub use contents::Contents;
pub use laws::{
    answers_step, catalogue_is_that_of_verdicts, each_request_has_a_reply,
    hidden_bytes_are_not_told, one_reply, rehearsals_are_exact, rules_are_read_back, same_again,
    staff_lists_tell_all, what_is_shown_decides,
};
pub use parts::{digest, scope};
pub use refusal::Refusal;
pub use reply_text::{fixed_reply, reply_to, unavailable};
pub use request::{Request, What};
pub use response::{
    CheckLine, DeedLine, Difference, FileVerdicts, Form, ImageLine, KeyLine, Line, Listing, Reply,
    Response, Survey, TakedownLine, Verdicts,
};
