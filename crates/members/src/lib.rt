//! Reads texts as JSON and as TOML, and the members of their values.
//!
//! `in_json` reads bodies as JSON, and `in_toml` texts as TOML documents. Each reader of a member
//! (`whole_member`, `name_member`, ..) is a function of the value that has it. What is read of the
//! items of an array is said once, of values that are seen as data (`Viewed`).
#![tactic(auto)]

pub mod in_json;
pub mod in_toml;
mod items;

pub use items::{Viewed, of_length, read_all};
use thiserror::Error;

/// Why a text has no document.
#[derive(Clone, Copy, PartialEq, Eq, Debug, Error)]
pub enum DocumentFault {
    /// The text isn't UTF-8 or isn't of its format, or nests too deep: more than 127 levels of JSON,
    /// or 80 of TOML, where no key may come twice.
    #[error("the text is no document of its format")]
    NotDocument,
    /// Memory ran out.
    #[error("out of memory")]
    OutOfMemory,
}
