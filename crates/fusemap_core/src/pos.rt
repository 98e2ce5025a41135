/// A position of a fuse map: a bit of a block.
#[derive(Clone, Copy, PartialEq, Eq)]
pub struct Pos {
    /// The number of the block, from 0 on.
    pub block: u8,
    /// The number of the bit in its block, from 0 on: bit 32 is the lowest bit of the second word.
    pub bit: u16,
}
