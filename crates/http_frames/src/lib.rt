//! Cuts a stream of bytes into HTTP/1.1 requests, in whatever pieces it comes (RFC 9112, sections 2
//! to 6).
//!
//! A head is what `httparse` reads with its default configuration and room for 64 fields, in at
//! most 8,192 bytes. Empty lines in front of the request line belong to it, and a line may end in
//! LF alone. The version is HTTP/1.0 or HTTP/1.1, the target is UTF-8 and the method any token. So
//! a stream whose last bytes are an empty line behind a request ends inside a request.
//!
//! A stream is read into one [`buffer::Buffer`], which takes its memory when it is made and none
//! later. [`buffer::read_request`] finds the next request there, as a [`frame::Frame`]; what a
//! head's fields and its target say is read by [`fields`].
//!
//! What `read_request` answers, over any reader, is true of the bytes by `httparse`'s own grammar.
//! The bytes held and left are the bytes that were there. What a head says of its body's length,
//! its connection and its token, and what a target's query gives, are `read_body_size`,
//! `is_close_asked`, `read_token` and `only_parameter`. The fault of a head is the lowest of bad
//! length, too large and transfer coding.
//!
//! Serves a stream of HTTP/1.1 requests: requests in, replies out (RFC 9112).
//!
//! `serve_stream` over any service, reader and writer has one clause (`run`): there is a list of
//! exchanges, requests with their answers and refusals. Where the reader and the writer tell their
//! bytes, the stream begins with these, and what was written is their replies' bytes, for each of
//! the seven endings (`Tells`). Whatever they tell, the state changes by a step of the service for
//! each of these requests in turn (`Runs`), and not at all where there is no memory for the buffer.
//!
//! It makes at most 16,777,216 calls of reader and writer, with `TurnLimit` only after that many,
//! and `ReadFault` and `WriteFault` only where the reader or writer failed. Where the bytes end a
//! stream, they decide its requests and refusals and how it ends, but for a rest that may be
//! refused or cut off (`requests_are_unique`, `streams_are_determined`).
#![tactic(auto)]

pub mod buffer;
pub mod fields;
pub mod frame;
pub mod look;
pub mod memory;
pub mod send;
mod serving;
pub mod transfer;

pub use serving::{Served, Service, requests_are_unique, serve_stream, streams_are_determined};
