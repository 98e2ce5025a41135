// What is still to be burnt.
use crate::bits::Bits;
use crate::keys::Keys;

/// What is still to be burnt: bits in two batches, and keys in the first.
#[derive(Clone, Copy)]
pub struct Pending {
    /// The bits of the first batch.
    pub first: Bits,
    /// The bits of the second batch.
    pub second: Bits,
    /// The digests of the keys of the first batch.
    pub keys: Keys,
}
