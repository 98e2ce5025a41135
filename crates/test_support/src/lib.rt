//! How tests hold conversations with the server: over a keeper of either kind, by streams, each of
//! one request, or by lists of requests; and which text a store tells of. It has no tests of its
//! own.
#![tactic(auto)]

pub mod conversation;
pub mod keepers;
pub mod lists;
pub mod stores;
