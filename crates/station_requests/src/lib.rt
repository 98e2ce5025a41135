//! Reads what an HTTP request asks for, from the kind of its caller, its head and its body.
//!
//! `parse_command` is a function of the kind of a caller and of a request's head and body. It gives
//! the lowest refusal of path, method, caller, JSON and members. The manager is refused on each
//! path of a seat, and a seat on the manager's. The digest of a request is SHA-256 of its path, a
//! line feed and its named members as read.
#![tactic(auto)]

mod act;
mod change;
mod device;
mod digest;
mod identity;
mod import;
mod map;
mod order;
mod parse;
mod plan;
mod query;
mod read_back;

pub use parse::{Parsed, parse_command};
