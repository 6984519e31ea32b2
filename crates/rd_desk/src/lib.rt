//! The desk over its store: what it answers to a request, and what it changes.
#![tactic(auto)]

mod answers;
mod asking;
mod commands;
mod desk;
mod files;
mod overviews;
mod queries;
mod rehearsals;
mod staff_lists;
mod surveys;
mod verdicts;
mod would_take;

pub use asking::Unavailable;
pub use desk::{Desk, reply_with};
pub use rd_geometry::{Items, Kind, NoMemory, Text};
pub use rd_protocol::{
    Body, BodyPieces, Contents, Form, ImageLine, Line, Listing, Refusal, Reply, Request, Response,
    Survey, What, answers_step, check_row, each_request_has_a_reply, fixed_reply,
    hidden_bytes_are_not_told, one_reply, reply_to, same_again, unavailable, what_is_shown_decides,
};
pub use rd_store::Outcome;
pub use would_take::{Shelf, Shelved};
