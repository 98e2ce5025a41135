//! One request of a seat, made by the machine of `seat_core` over a plain connection.
//!
//! What is written, sent and heard is said in `seat_ask`, what is done at each event in `seat_core`.
//! Here are the files and the socket, of which no contract can say what they give: tests over the
//! built program show what becomes of them. `ask_from_env` does the whole of `station ask`.
#![tactic(auto)]

mod asking;
mod choices;
mod failure;
mod files;
mod known;
mod request;
mod wire;
mod words;

pub use asking::ask;
pub use failure::AskFailure;
pub use words::{ask_from_env, is_asked};
