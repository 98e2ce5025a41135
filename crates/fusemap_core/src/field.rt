// Fields of a map.
ghost use Rattle.std.specs.Prelude.{◌≡◌};
ghost use Rattle.fusemap_core.specs.Map as map;

use crate::pos::Pos;
use text_core::Name;

/// A field of a fuse map: a run of positions in one block.
#[derive(Clone, Copy)]
pub struct Field {
    /// The name of the field.
    pub name: Name,
    /// The number of its block, from 0 on.
    pub block: u8,
    /// The number of its first bit in the block.
    pub bit: u16,
    /// How many bits it has.
    pub count: u16,
    /// The bit of the write lock field that governs it, if one does.
    pub write: Option<u8>,
    /// The bit of the read lock field that governs it, if one does.
    pub read: Option<u8>,
    /// Whether it is a key field, a whole block of 8 words. Every other field is plain.
    pub key: bool,
}

impl Field {
    /// Whether the field has the position.
    pub fn holds(&self, pos: Pos) -> bool
        ensures { result ≡ map.holds self.now pos }
    {
        self.block == pos.block && self.bit <= pos.bit && pos.bit - self.bit < self.count
    }

    /// The position of its lowest bit.
    pub fn first(&self) -> Pos
        ensures { result ≡ record { block = self.now.block; bit = self.now.bit } }
    {
        Pos {
            block: self.block,
            bit: self.bit,
        }
    }
}
