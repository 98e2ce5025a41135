// Sets of positions as bytes, and back.
ghost use Rattle.std.specs.Prelude.{◌≡◌, ◌+◌, ◌*◌, ◌/◌, ◌%◌, ◌<◌, ◌≤◌, ◌++◌, ℕ, All, length, slice_index, sum, take};
ghost use Rattle.fuse_image.specs.Prelude.{AreBits};
ghost use Rattle.fuse_columns.specs.Prelude.{bits_column, bits_in, bits_length, bytes_of_blocks, bytes_of_words};
ghost use Rattle.fuse_columns.specs.Words as words;

use fuse_image::{Bits, key_positions};
use fusemap_core::FuseMap;
use text_core::BitsBytes;

/// A set of positions as the bytes of the map's blocks, block 0 first, with zeros for key blocks. Byte
/// i of a block holds its bits 8i to 8i+7, the lowest bit first.
pub fn encode_bits(map: &FuseMap, bits: &Bits) -> BitsBytes
    ensures same { result ≡ bits_column map.now bits.now }
    ensures length { length result ≡ bits_length map.now }
{
    let words = bits.minus(&key_positions(map)).to_words();
    column_of(map.blocks(), &words)
}

/// The positions of the map's blocks, outside key fields, that read 1. A byte that is missing counts
/// as 0, and further ones mean nothing.
pub fn decode_bits(map: &FuseMap, column: &BitsBytes) -> Bits
    ensures same { result ≡ bits_in map.now column.now }
    ensures plain { AreBits map.now result }
{
    read_bits(map, column.as_bytes())
}

/// The positions of the map's blocks, outside key fields, that read 1 in bytes, wherever these lie.
pub(crate) fn read_bits(map: &FuseMap, bytes: &[u8]) -> Bits
    ensures { result ≡ bits_in map.now bytes.now }
{
    Bits::from_words(words_in(map.blocks(), bytes)).minus(&key_positions(map))
}

/// The bytes of the words of blocks that have so many words each.
#[tactic(auto, using(crate::proofs::Blocks::blocks_more))]
fn column_of(blocks: &[u8], words: &[u32; 32]) -> BitsBytes
    requires few { length blocks.now ≤ 4 }
    requires short { All (λ count. count ≤ 8) blocks.now }
    ensures { result ≡ bytes_of_blocks words.now blocks.now (length blocks.now) }
{
    let mut column = BitsBytes::empty();
    for block in 0..blocks.len() {
        append_block(&mut column, words, block, blocks[block]);
    }
    column
}

/// Appends the first words of a block.
#[tactic(auto, using(crate::proofs::Blocks::words_more))]
fn append_block(column: &mut BitsBytes, words: &[u32; 32], block: usize, count: u8)
    requires block { block < 4 }
    requires count { count ≤ 8 }
    requires room { length column.old + 4 * count ≤ 128 }
    ensures { column.new ≡ column.old ++ bytes_of_words words.now block count }
{
    for word in 0..usize::from(count) {
        column.append(&words[8 * block + word].to_le_bytes());
    }
}

/// The words of 4 blocks of 8 words, with zeros where the map has none.
fn words_in(blocks: &[u8], bytes: &[u8]) -> [u32; 32]
    requires { length blocks.now ≤ 4 }
    ensures { (k : ℕ) → k < 32 →
        slice_index result k ≡ words.word_of_block blocks.now bytes.now (k / 8) (k % 8) }
{
    let mut words = [0; 32];
    for k in 0..32 {
        words[k] = word_in(blocks, bytes, k / 8, k % 8);
    }
    words
}

/// A word of a block, or 0 where the block has no such word.
fn word_in(blocks: &[u8], bytes: &[u8], block: usize, word: usize) -> u32
    requires few { length blocks.now ≤ 4 }
    requires within { word < 8 }
    ensures { result ≡ words.word_of_block blocks.now bytes.now block word }
{
    if block >= blocks.len() || word >= usize::from(blocks[block]) {
        return 0;
    }
    word_at(bytes, words_before(blocks, block) + word)
}

/// How many words the blocks before a block have.
fn words_before(blocks: &[u8], block: usize) -> usize
    requires few { length blocks.now ≤ 4 }
    requires one { block < length blocks.now }
    ensures value { result ≡ sum (take block blocks.now) }
    ensures few { result ≤ 1024 }
{
    let mut count = 0;
    for before in 0..block {
        count += usize::from(blocks[before]);
    }
    count
}

/// A word of the bytes, the lowest byte first.
fn word_at(bytes: &[u8], index: usize) -> u32
    requires { index < 2048 }
    ensures { result ≡ words.word_at bytes.now index }
{
    u32::from_le_bytes([
        byte_at(bytes, 4 * index),
        byte_at(bytes, 4 * index + 1),
        byte_at(bytes, 4 * index + 2),
        byte_at(bytes, 4 * index + 3),
    ])
}

/// A byte, or 0 where there is none.
fn byte_at(bytes: &[u8], index: usize) -> u8
    ensures { result ≡ slice_index bytes.now index }
{
    if index >= bytes.len() {
        return 0;
    }
    bytes[index]
}
