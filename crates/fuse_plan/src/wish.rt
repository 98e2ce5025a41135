// What is wished of a chip's fuses.
use crate::number::Number;
use text_core::{Digest, Name};

/// What is asked of a field.
#[derive(Clone, Copy, PartialEq, Eq)]
pub enum Want {
    /// That a bit of the field be 1, by its index in the field.
    Bit(u64),
    /// That each bit of the field be that of a number.
    Value(Number),
    /// That the key block hold the key of this SHA-256 digest.
    Key(Digest),
    /// That the field's write lock be burnt.
    WriteLock,
    /// That the field's read lock be burnt.
    ReadLock,
}

/// A wish: what is asked of the field of a name.
#[derive(Clone, Copy, PartialEq, Eq)]
pub struct Wish {
    /// The name of the field.
    pub field: Name,
    /// What is asked of it.
    pub want: Want,
}
