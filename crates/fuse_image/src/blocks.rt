// Words of blocks that lie in place.
ghost use Rattle.std.specs.Prelude.{◌≡◌, ◌<◌, ◌≤◌, [], ◌∷◌, ◌++◌, length};

use fusemap_core::{BLOCK_LIMIT, WORD_LIMIT};
use std::marker::Model;

/// The words of a block, at most 8, in place. The array has zeros after them.
#[derive(Clone, Copy)]
pub(crate) struct Block {
    words: [u32; WORD_LIMIT],
    len: usize,
}

impl Model for Block {
    ghost use Rattle.std.specs.Prelude.{List, ℕ, take, length, ◌++◌, ◌-◌, replicate};
    ghost use Rattle.text_core.specs.Prelude.{AreAtFront};

    ghost Value = { List ℕ };

    ghost use Rattle.fuse_image.specs.BlocksAgain.{block_again};

    ghost view = { λ a. take a.len a.words };

    ghost invariant = { λ a. AreAtFront 8 0 a.words a.len };

    ghost inverse = { λ words. record { words = words ++ replicate (8 - length words) 0; len = length words } };

    ghost inverse_ok = { λ a h. block_again a.words a.len h };
}

impl Block {
    /// The block of these words.
    pub(crate) fn copy_of(words: &[u32]) -> Block
        requires { length words.now ≤ WORD_LIMIT }
        ensures { result ≡ words.now }
    {
        let len = words.len();
        let mut array = [0; WORD_LIMIT];
        array[..len].copy_from_slice(words);
        Block { words: array, len }
    }

    /// Its words, in their order.
    pub(crate) fn as_slice(&self) -> &[u32]
        ensures { result.now ≡ self.now }
    {
        &self.words[..self.len]
    }
}

/// Blocks, at most 4, in place. The array has blocks without words after them.
#[derive(Clone, Copy)]
pub(crate) struct Blocks {
    array: [Block; BLOCK_LIMIT],
    len: usize,
}

impl Model for Blocks {
    ghost use Rattle.std.specs.Prelude.{List, ℕ, [], take, length, ◌++◌, ◌-◌, replicate};
    ghost use Rattle.text_core.specs.Prelude.{AreAtFront};

    ghost Value = { List (List ℕ) };

    ghost use Rattle.fuse_image.specs.BlocksAgain.{blocks_again};

    ghost view = { λ a. take a.len a.array };

    ghost invariant = { λ a. AreAtFront 4 [] a.array a.len };

    ghost inverse = { λ blocks. record {
      array = blocks ++ replicate (4 - length blocks) [];
      len = length blocks;
    } };

    ghost inverse_ok = { λ a h. blocks_again a.array a.len h };
}

impl Blocks {
    /// No blocks.
    pub(crate) fn new() -> Blocks
        ensures { result ≡ [] }
    {
        let none = Block::copy_of(&[]);
        Blocks {
            array: [none, none, none, none],
            len: 0,
        }
    }

    /// Adds a block behind the others.
    pub(crate) fn push(&mut self, block: Block)
        requires { length self.old < BLOCK_LIMIT }
        ensures { self.new ≡ self.old ++ block ∷ [] }
    {
        self.array[self.len] = block;
        self.len += 1;
    }

    /// The blocks, block 0 first.
    pub(crate) fn as_slice(&self) -> &[Block]
        ensures { result.now ≡ self.now }
    {
        &self.array[..self.len]
    }
}
