//! What the crates above share: small texts (names, serial numbers, chips, digests), short columns
//! of bytes, and the reading of arrays.
//!
//! `Name`, `Prefix`, `Serial`, `Chip` and `Digest` are exactly the texts of their alphabets and
//! lengths (`parse`), lie in place and take no memory; names, chips and digests are ordered as
//! their bytes. A `ShortBytes` is up to so many bytes in place. `read_all` is a loop over the items
//! of an array: what a reader makes of each, or that it makes nothing of one.
#![tactic(auto)]

mod chip;
mod digest;
mod items;
mod name;
mod prefix;
mod serial;
mod short_bytes;
mod short_text;
mod text;
mod time;
mod whole;

pub use chip::{Chip, are_lower_hex_digits};
pub use digest::Digest;
pub use items::read_all;
pub use name::Name;
pub use prefix::Prefix;
pub use serial::Serial;
pub use short_bytes::{BitsBytes, KeysBytes, PendingBytes, ShortBytes};
pub use text::Text;
pub use time::Time;
pub use whole::LARGEST_WHOLE;
