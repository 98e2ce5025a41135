//! Burnt fuses: the words of a chip's blocks, sets of fuse positions and tables of key digests.
//!
//! The crate also says what the locks of a fuse map hide and protect, what is still to be burnt, and
//! what a chip shows when its fuses are read back. A chip shows its words, with each key block
//! replaced by its digest.
//!
//! `Bits` is a set of fuse positions, `Keys` a table of key digests by block, `Image` both. Each
//! call is its set operation, word by word, without memory and without a premise on memory (`join`,
//! `minus`, `meet`, `meets`, `is_within`, `with_run`, ..). `hidden`, `write_protected` and
//! `visible` are what the locks of a map say under the burnt positions.
//!
//! `BlockWords` is 1 to 4 blocks of 1 to 8 words, as a station read them, and `digest` the SHA-256
//! of a block's bytes. `redact` gives what the words of a chip show under a map: the ones outside
//! key fields, and the SHA-256 of each key block that isn't all zeros. `fits` is true exactly for
//! the map's blocks and words. `has_coding_scheme` and `shows_what_is_hidden` are the two faults of
//! a read-back. What lies in a map stays in it, and what a chip shows lies in it (`stay_in_map`).
#![tactic(auto)]

mod bits;
mod blocks;
mod image;
mod keys;
mod laws;
mod locks;
mod pending;
mod redaction;
mod words;

pub use bits::Bits;
pub use image::Image;
pub use keys::Keys;
pub use laws::stay_in_map;
pub use locks::{
    hidden_positions, is_burnt, is_hidden_key, is_key_block, is_write_protected_key, key_positions,
    positions_of, write_protected_positions,
};
pub use pending::Pending;
pub use redaction::{
    ReadBack, coding_field, fits, has_coding_scheme, redact, shows_what_is_hidden,
};
pub use words::BlockWords;
