//! Fuse maps: the blocks of a chip's one-time programmable fuses (eFuses), the fields in them, and
//! the locks of the fields, as a text gives them.
//!
//! `read_map` gives the fuse map of a text, or the lowest of the faults 1 to 8, or says that memory
//! ran out. It accepts exactly the texts of valid maps (`exact`, `valid`, `refused`). A text over
//! its limit gets its fault, and never want of memory (`too_long`). The fault of a text with all
//! its members is that of a broken rule, and no rule with a lower number is broken (`lowest`).
//!
//! A `FuseMap` keeps these rules:
//!
//! - Each field lies in its block, and no two fields share a name or a position.
//! - The two lock fields, and the coding field where there is one, are plain fields and differ from
//!   each other. No lock field has a read lock. Each lock of a field is a bit of its lock field.
//! - A key field is a whole block with both locks.
//!
//! The readers (`field`, `field_at`, `write_lock`, `read_lock`, `is_governed`, ..) are those of the
//! definitions, without memory.
//!
//! Two caches keep the fuse maps that were asked for last, by their texts or by numbers of their
//! texts, so that a text is parsed once and not for each request.
//!
//! `MapCache::find` gives the fuse map that a text describes, if it describes one, as `read_map`
//! would. `NumberCache::find` gives the map of a number where it has one: whatever map each number
//! has, if those that were kept are those of their numbers.
//!
//! The clauses also say which sixteen are kept. What is found again moves before the others
//! (`again`). What is kept anew comes before the fifteen that were asked for last, or nothing
//! changes, for want of memory (`kept`). A test shows that memory isn't always wanting. That a kept
//! text isn't read again is in no contract.
#![tactic(auto)]

mod cache;
mod draft;
mod fault;
mod field;
mod judge;
mod kept_map;
mod locks;
mod map;
mod numbered;
mod pos;
mod recent;
mod text;

pub use cache::{MapCache, map_of_text};
pub use fault::MapFault;
pub use field::Field;
pub use map::{BLOCK_LIMIT, FIELD_LIMIT, FieldId, FuseMap, WORD_LIMIT};
pub use numbered::NumberCache;
pub use pos::Pos;
pub use text::{TEXT_LIMIT, read_map};
