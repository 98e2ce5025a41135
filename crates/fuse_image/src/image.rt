// What is burnt in a chip: its positions and its keys.
ghost use Rattle.std.specs.Prelude.{◌≡◌, ◌<◌, ◌↔◌, All, IsTrue, None, not, if◌then◌else◌};
ghost use Rattle.std.specs.FinMap as table;
ghost use Rattle.std.specs.FinSet as set;
ghost use Rattle.fusemap_core.specs.Prelude.{IsPosition};
ghost use Rattle.fuse_image.specs.Image as image;
ghost use Rattle.fuse_image.specs.Prelude.{table_where, IsPlace, places_where, bit_in, words_of_set};
ghost use Rattle.fuse_image.specs.Locks as locks;

use crate::bits::Bits;
use crate::keys::Keys;
use crate::locks::{hidden_positions, is_hidden, is_hidden_key, is_write_protected};
use fusemap_core::{FuseMap, Pos};
use text_core::Digest;

/// What is known of a chip's fuses: the burnt positions outside key fields, and the digests of the
/// keys by their blocks (a readable key block is known by its SHA-256 digest alone). It takes no
/// memory.
#[derive(Clone, Copy)]
pub struct Image {
    /// The burnt positions.
    pub burnt: Bits,
    /// The digests of the keys.
    pub keys: Keys,
}

impl Image {
    /// The image of a chip of which nothing is burnt.
    pub fn empty() -> Image
        ensures { result ≡ record { burnt = set.empty; keys = table.empty } }
    {
        Image {
            burnt: Bits::empty(),
            keys: Keys::empty(),
        }
    }

    /// The image with these positions burnt too.
    pub fn with_bits(&self, positions: &[Pos]) -> Image
        requires { All IsPlace positions.now }
        ensures { result ≡ record self.now {
          burnt = set.union self.now.burnt (set.from_list positions.now);
        } }
    {
        Image {
            burnt: self.burnt.with_bits(positions),
            keys: self.keys,
        }
    }

    /// The image with this digest of a block's key, in place of any other.
    pub fn with_key(&self, block: u8, digest: Digest) -> Image
        requires { block < 4 }
        ensures { result ≡ record self.now { keys = table.insert self.now.keys block digest } }
    {
        Image {
            burnt: self.burnt,
            keys: self.keys.with(block, digest),
        }
    }

    /// Whether a position is burnt.
    pub fn has(&self, pos: Pos) -> bool
        requires { IsPlace pos }
        ensures { result ≡ set.contains self.now.burnt pos }
    {
        self.burnt.has(pos)
    }

    /// The digest of the key of a block, if one is known.
    pub fn key_of(&self, block: u8) -> Option<Digest>
        requires { block < 4 }
        ensures { result ≡ table.get self.now.keys block }
    {
        self.keys.get(block)
    }

    /// What is in one of both. Where both have a key of a block, it is its own.
    pub fn join(&self, other: &Image) -> Image
        ensures { result ≡ image.image_union self.now other.now }
    {
        Image {
            burnt: self.burnt.join(&other.burnt),
            keys: self.keys.join(&other.keys),
        }
    }

    /// The positions that the other hasn't, and the keys of the blocks at which the other has none.
    pub fn minus(&self, other: &Image) -> Image
        ensures { result ≡ image.image_without self.now other.now }
    {
        Image {
            burnt: self.burnt.minus(&other.burnt),
            keys: self.keys.minus(&other.keys),
        }
    }

    /// Whether the other has all of it: each position, and each key with the same digest.
    pub fn is_within(&self, other: &Image) -> bool
        ensures { IsTrue result ↔ image.IsImageWithin self.now other.now }
    {
        self.burnt.is_within(&other.burnt) && self.keys.is_within(&other.keys)
    }

    /// Whether there is neither a position nor a key.
    pub fn is_empty(&self) -> bool
        ensures { result ≡ image.has_nothing self.now }
    {
        self.burnt.is_empty() && self.keys.is_empty()
    }

    /// The image of the positions that read 1 in 32 words, eight words for each of 4 blocks, the
    /// lowest bit of a word first. It has no keys.
    pub fn from_words(words: [u32; 32]) -> Image
        ensures { result ≡ record { burnt = places_where (bit_in words); keys = table.empty } }
    {
        Image {
            burnt: Bits::from_words(words),
            keys: Keys::empty(),
        }
    }

    /// The burnt positions as 32 words, eight words for each of 4 blocks, the lowest bit of a word
    /// first.
    pub fn to_words(&self) -> [u32; 32]
        ensures { result ≡ words_of_set self.now.burnt }
    {
        self.burnt.to_words()
    }

    /// Whether a position of the map lies in a field whose write lock is burnt.
    pub fn write_protected(&self, map: &FuseMap, pos: Pos) -> bool
        requires { IsPosition map.now.blocks pos }
        ensures { result ≡ locks.is_write_protected map.now self.now.burnt pos }
    {
        is_write_protected(map, &self.burnt, pos)
    }

    /// Whether a position of the map lies in a field whose read lock is burnt.
    pub fn hidden(&self, map: &FuseMap, pos: Pos) -> bool
        requires { IsPosition map.now.blocks pos }
        ensures { result ≡ locks.is_hidden map.now self.now.burnt pos }
    {
        is_hidden(map, &self.burnt, pos)
    }

    /// What the chip shows: the positions and the keys that its own read locks don't hide.
    pub fn visible(&self, map: &FuseMap) -> Image
        ensures { result ≡ image.visible map.now self.now }
    {
        Image {
            burnt: visible_bits(map, &self.burnt),
            keys: visible_keys(map, &self.burnt, &self.keys),
        }
    }
}

fn visible_bits(map: &FuseMap, burnt: &Bits) -> Bits
    ensures { result ≡ set.retain burnt.now (λ p. not (locks.is_hidden map.now burnt.now p)) }
{
    burnt.fact_places();
    burnt.minus(&hidden_positions(map, burnt))
}

fn visible_keys(map: &FuseMap, burnt: &Bits, keys: &Keys) -> Keys
    ensures { result ≡ table_where (λ b.
        if locks.is_hidden_key map.now burnt.now b then None else table.get keys.now b) }
{
    Keys::new([
        visible_key(map, burnt, keys, 0),
        visible_key(map, burnt, keys, 1),
        visible_key(map, burnt, keys, 2),
        visible_key(map, burnt, keys, 3),
    ])
}

fn visible_key(map: &FuseMap, burnt: &Bits, keys: &Keys, block: u8) -> Option<Digest>
    requires { block < 4 }
    ensures { result ≡ (if locks.is_hidden_key map.now burnt.now block then None
        else table.get keys.now block) }
{
    if is_hidden_key(map, burnt, block) {
        None
    } else {
        keys.get(block)
    }
}
