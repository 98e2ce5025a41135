// The words of a chip, as a station read them.
ghost use Rattle.std.specs.Prelude.{◌≡◌, ◌<◌, ◌≤◌, ◌/◌, ◌%◌, ℕ, map, length, slice_index, slice_index_or, [], All};
ghost use Rattle.std.specs.List.{list_all};
ghost use Rattle.sha2.specs.Sha256.{sha256};
ghost use Rattle.fuse_image.specs.Blocks.{are_blocks, is_block, blocks_of, bytes_of_block};

use crate::blocks::{Block, Blocks};
use fusemap_core::{BLOCK_LIMIT, WORD_LIMIT};
use sha2::Sha256;
use std::marker::Model;
use text_core::Digest;

/// The words of all blocks of a chip as a station read them: 1 to 4 blocks of 1 to 8 words of 32
/// bits (ESP32's eFuse controller has four blocks of 7 or 8 words). It takes no memory.
#[derive(Clone, Copy)]
pub struct BlockWords {
    blocks: Blocks,
}

impl Model for BlockWords {
    ghost use Rattle.std.specs.Prelude.{List, ℕ, ◌≡◌, true};
    ghost use Rattle.fuse_image.specs.Blocks.{are_blocks};

    ghost Value = { List (List ℕ) };

    ghost view = { λ a. a.blocks };

    ghost invariant = { λ a. are_blocks a.blocks ≡ true };

    ghost inverse = { λ blocks. record { blocks = blocks } };
}

impl BlockWords {
    /// The words of these blocks, if there are 1 to 4 blocks of 1 to 8 words.
    pub fn new(blocks: &[Vec<u32>]) -> Option<BlockWords>
        ensures { result ≡ blocks_of (map (λ words. words.items) blocks.now) }
    {
        if !are_blocks(blocks) {
            return None;
        }
        Some(BlockWords {
            blocks: copy_of(blocks),
        })
    }

    /// How many blocks there are.
    pub fn block_count(&self) -> usize
        ensures { result ≡ length self.now }
    {
        self.blocks.as_slice().len()
    }

    /// The words of a block.
    pub fn block(&self, index: usize) -> &[u32]
        requires { index < length self.now }
        ensures { result.now ≡ slice_index_or self.now index [] }
    {
        self.blocks.as_slice()[index].as_slice()
    }

    /// A word of a block, or 0 where there is none.
    fn word(&self, block: usize, index: usize) -> u32
        ensures { result ≡ slice_index (slice_index_or self.now block []) index }
    {
        if block >= self.block_count() {
            return 0;
        }
        word_of(self.block(block), index)
    }

    /// The words of 4 blocks of 8 words, with zeros where there is none.
    pub fn to_words(&self) -> [u32; 32]
        ensures { (k : ℕ) → k < 32 →
            slice_index result k ≡ slice_index (slice_index_or self.now (k / 8) []) (k % 8) }
    {
        let mut words = [0; 32];
        for k in 0..32 {
            words[k] = self.word(k / 8, k % 8);
        }
        words
    }

    /// The SHA-256 digest of the bytes of a block. Byte i holds its bits 8i to 8i+7, the lowest bit
    /// first.
    pub fn digest(&self, index: usize) -> Digest
        requires { index < length self.now }
        ensures { result ≡ sha256 (bytes_of_block (slice_index_or self.now index [])) }
    {
        digest_of(self.block(index))
    }
}

/// A word by its index, or 0 where there is none.
fn word_of(words: &[u32], index: usize) -> u32
    ensures { result ≡ slice_index words.now index }
{
    if index >= words.len() {
        return 0;
    }
    words[index]
}

/// Whether there are 1 to 4 blocks of 1 to 8 words.
fn are_blocks(blocks: &[Vec<u32>]) -> bool
    ensures { result ≡ are_blocks (map (λ words. words.items) blocks.now) }
{
    1 <= blocks.len() && blocks.len() <= BLOCK_LIMIT && have_words(blocks)
}

/// Whether each block has 1 to 8 words.
fn have_words(blocks: &[Vec<u32>]) -> bool
    ensures { result ≡ list_all is_block (map (λ words. words.items) blocks.now) }
{
    for words in blocks {
        if !is_block(words.as_slice()) {
            return false;
        }
    }
    true
}

/// Whether there are 1 to 8 words.
fn is_block(words: &[u32]) -> bool
    ensures { result ≡ is_block words.now }
{
    1 <= words.len() && words.len() <= WORD_LIMIT
}

fn copy_of(blocks: &[Vec<u32>]) -> Blocks
    requires few { length blocks.now ≤ BLOCK_LIMIT }
    requires short { All (λ words. length words.items ≤ WORD_LIMIT) blocks.now }
    ensures { result ≡ map (λ words. words.items) blocks.now }
{
    let mut copy = Blocks::new();
    for words in blocks {
        copy.push(Block::copy_of(words.as_slice()));
    }
    copy
}

/// The SHA-256 digest of the bytes of a block.
#[tactic(auto, unfolding(crate::specs::Blocks::bytes_of_block))]
fn digest_of(words: &[u32]) -> Digest
    ensures { result ≡ sha256 (bytes_of_block words.now) }
{
    let mut hasher = <Sha256 as sha2::Digest>::new();
    for word in words {
        sha2::Digest::update(&mut hasher, &word.to_le_bytes());
    }
    Digest::from_bytes(sha2::Digest::finalize(hasher))
}
