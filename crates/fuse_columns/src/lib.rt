//! A chip's fuses as columns of bytes, the forms in which the tables of devices and of ledger
//! entries keep them. By the chip's fuse map a set of positions, a table of keys or pending work
//! becomes a column, and comes back from it as it was. Nothing here takes memory.
//!
//! `encode_bits`, `encode_keys` and `encode_todo` give the bytes of the formats by the chip's map.
//! `decode_bits`, `decode_keys` and `decode_todo` give what any bytes mean, without a premise on
//! them.
//!
//! Laws:
//!
//! - What was encoded is decoded as it was (`come_back`).
//! - What is decoded lies in the map's blocks outside key fields, and its digests lie at key fields
//!   (`lie_in_map`).
//! - Bytes of the right form are what encoding gives for the value that they mean, so no two of
//!   them mean the same value (`bytes_come_back`).
#![tactic(auto)]

mod bits;
mod keys;
mod laws;
mod todo;

pub use bits::{decode_bits, encode_bits};
pub use keys::{decode_keys, encode_keys};
pub use laws::{bytes_come_back, come_back, have_lengths, lie_in_map, zeros_are_nothing};
pub use todo::{decode_todo, encode_todo};
