//! What a small client of a seat writes, sends and hears, as values.
//!
//! A station's file is JSON: `read_state` gives what `state_of` reads of its text, or that it is none,
//! and `state_text` writes the very text of a state (`text`), which reads as that state
//! (`what_is_written_is_read`). `body_text` puts the machine's number into a request's members, and
//! `request_text` is the very bytes that are sent. `cut_reply` finds a reply at the front of what
//! came, by the grammar of `httparse`, and `heard_in` is what it says: that the request was done, a
//! refusal with its numbers, or nothing, as another's page. The lines of the log are the very bytes
//! that the API's page names. Nothing here reads or sends anything: what is done, and when, the
//! machine of `seat_core` says.
#![tactic(auto)]

mod end;
mod heard;
mod laws;
mod lines;
mod reading;
mod sending;
mod state;
mod writing;

pub use end::End;
pub use heard::{Heard, ReplyCut, cut_reply, heard_in};
pub use laws::what_is_written_is_read;
pub use lines::{number_line, outcome_line, request_line};
pub use reading::{TextFault, read_state};
pub use sending::{body_text, request_text};
pub use state::{Asked, Names, SeatState};
pub use writing::state_text;
