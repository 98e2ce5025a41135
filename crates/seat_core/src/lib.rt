//! What a station may conclude: the protocol of a seat as a machine over values.
//!
//! A seat numbers its requests and has one under way at a time. What a station does at a reply, at
//! silence, behind a crash of its own or where it is asked for something, so that each request is
//! done once and its log is what was done, is [`Station::step`]: from what the station's file has
//! and what it waits for, and an event, to what it does, in order, and what it is then. `step` is
//! exact: `step_of` in `specs/` says the state that is left and each act. Nothing here reads or
//! sends anything, and `step` takes no memory.
//!
//! The definitions are those of the page on the API, "The protocol of a seat" and "A late copy".
//! What is stated there of a person's work (a lost file, an older copy) is no event here: it is
//! another file.
//!
//! Laws over the definitions alone:
//!
//! - `what_is_sent_is_written`: whatever befalls a station, nothing is sent that its file doesn't have
//!   by then, with the same number.
//! - `a_refusal_takes_no_number`: behind a refusal the number is the same, and the request is still
//!   under way or kept aside, however often it was sent. One that may have been sent before is in the
//!   log as not done only where the refusal says so.
#![tactic(auto)]

mod act;
mod aside;
mod event;
mod laws;
mod request;
mod station;

pub use act::{Act, Acts, MOST_ACTS, Trouble};
pub use aside::{KeptAside, MOST_ASIDE};
pub use event::Event;
pub use laws::{a_refusal_takes_no_number, what_is_sent_is_written};
pub use request::{Answered, Outcome, Sent, Stop};
pub use station::{
    GREATEST_NUMBER, OTHER_BODY, Place, SeatFile, Station, UNKEPT, WRONG_NUMBER, Waiting,
};
