// Sets of fuse positions, as packed words.
ghost use Rattle.std.specs.Prelude.{◌≡◌, ◌<◌, ◌≤◌, ◌+◌, ◌*◌, ◌/◌, ◌↔◌, true, ℕ, All, IsTrue, slice_index, bit_and, bit_or};
ghost use Rattle.std.specs.Int.{bit_not, w32};
ghost use Rattle.std.specs.FinSet as set;
ghost use Rattle.fusemap_core.specs.declared.pos.Pos.{Pos};
ghost use Rattle.fuse_image.specs.Masks.{mask_of};
ghost use Rattle.fuse_image.specs.Places.{is_empty, IsPlace, is_place, sets_meet, places_where, run};
ghost use Rattle.fuse_image.specs.Words.{bit_in, words_of_set};

use fusemap_core::Pos;
use std::marker::Model;

/// A set of fuse positions in 4 blocks of 8 words of 32 bits (ESP32's eFuse controller has four
/// such blocks). It takes no memory.
#[derive(Clone, Copy)]
pub struct Bits {
    words: [u32; 32],
}

impl Model for Bits {
    ghost use Rattle.std.specs.FinSet as set;
    ghost use Rattle.std.proofs.Common.{ap};
    ghost use Rattle.fuse_image.specs.Places.{Positions, places_where, coded_pos};
    ghost use Rattle.fuse_image.specs.Words.{bit_in, words_of_set};
    ghost use Rattle.fuse_image.specs.WordsAgain.{AreWords, words_again};

    ghost Value = { Positions };

    ghost coded = { set.code coded_pos };

    ghost view = { λ a. places_where (bit_in a.words) };

    ghost invariant = { λ a. AreWords a.words };

    ghost inverse = { λ s. record { words = words_of_set s } };

    ghost inverse_ok = { λ a h. ap (λ words. record { words = words }) (words_again a.words h) };
}

impl Bits {
    /// No position.
    pub fn empty() -> Bits
        ensures { result ≡ set.empty }
    {
        Bits { words: [0; 32] }
    }

    /// Whether the position is one of them.
    pub fn has(&self, pos: Pos) -> bool
        requires { IsPlace pos }
        ensures { result ≡ set.contains self.now pos }
    {
        self.words[index_of(pos)] >> (pos.bit % 32) & 1 == 1
    }

    /// These and the `count` positions from `first` on, all of one block.
    pub fn with_run(&self, first: Pos, count: u16) -> Bits
        requires block { first.block < 4 }
        requires fits { first.bit + count ≤ 256 }
        ensures { result ≡ set.union self.now (run first count) }
    {
        let start = 256 * u16::from(first.block) + first.bit;
        Bits {
            words: with_range(&self.words, start, start + count),
        }
    }

    /// These and the positions of a list.
    pub fn with_bits(&self, positions: &[Pos]) -> Bits
        requires { All IsPlace positions.now }
        ensures { result ≡ set.union self.now (set.from_list positions.now) }
    {
        let mut bits = *self;
        for pos in positions {
            bits.add(*pos);
        }
        bits
    }

    /// Adds a position.
    fn add(&mut self, pos: Pos)
        requires { IsPlace pos }
        ensures { self.new ≡ set.insert self.old pos }
    {
        self.words[index_of(pos)] |= 1 << (pos.bit % 32);
    }

    /// The positions of both.
    pub fn join(&self, other: &Bits) -> Bits
        ensures { result ≡ set.union self.now other.now }
    {
        Bits {
            words: join_words(&self.words, &other.words),
        }
    }

    /// The positions that the other hasn't.
    pub fn minus(&self, other: &Bits) -> Bits
        ensures { result ≡ set.difference self.now other.now }
    {
        Bits {
            words: without(&self.words, &other.words),
        }
    }

    /// The positions that the other has too.
    pub fn meet(&self, other: &Bits) -> Bits
        ensures { result ≡ set.intersection self.now other.now }
    {
        Bits {
            words: shared(&self.words, &other.words),
        }
    }

    /// Whether there is no position.
    pub fn is_empty(&self) -> bool
        ensures { result ≡ is_empty self.now }
    {
        are_zeros(&self.words)
    }

    /// Whether the other has all of them.
    pub fn is_within(&self, other: &Bits) -> bool
        ensures { result ≡ set.is_subset self.now other.now }
    {
        self.minus(other).is_empty()
    }

    /// Whether the other has one of them.
    pub fn meets(&self, other: &Bits) -> bool
        ensures { result ≡ sets_meet self.now other.now }
    {
        !self.meet(other).is_empty()
    }

    /// A fact: it has positions of 4 blocks of 256 bits alone. Nothing happens.
    pub fn fact_places(&self)
        ensures { (p : Pos) → set.contains self.now p ≡ true → is_place p ≡ true }
    {
        let _words = &self.words;
    }

    /// The positions that read 1 in 32 words, eight words for each of 4 blocks, the lowest bit of a
    /// word first.
    pub fn from_words(words: [u32; 32]) -> Bits
        ensures { result ≡ places_where (bit_in words) }
    {
        Bits { words }
    }

    /// The positions as 32 words, eight words for each of 4 blocks, the lowest bit of a word first.
    pub fn to_words(&self) -> [u32; 32]
        ensures { result ≡ words_of_set self.now }
    {
        self.words
    }
}

/// The index of the word that has the bit of a position.
fn index_of(pos: Pos) -> usize
    requires { IsPlace pos }
    ensures { result ≡ 8 * pos.block + pos.bit / 32 }
{
    8 * usize::from(pos.block) + usize::from(pos.bit / 32)
}

/// The words, with ones from the place `start` up to the place `end` too, both counted from the
/// lowest bit of word 0.
fn with_range(own: &[u32; 32], start: u16, end: u16) -> [u32; 32]
    requires { end ≤ 1024 }
    ensures { (word : ℕ) → word < 32 → slice_index result word
        ≡ bit_or (slice_index own.now word) (mask_of start end word) }
{
    let mut words = *own;
    for word in start / 32..end.div_ceil(32) {
        words[usize::from(word)] |= mask(word, start, end);
    }
    words
}

/// A word with ones from one place up to another, both counted from the lowest bit of word 0.
fn mask(word: u16, start: u16, end: u16) -> u32
    requires { word < 32 }
    ensures { result ≡ mask_of start end word }
{
    let low = start.saturating_sub(32 * word).min(32);
    let high = end.saturating_sub(32 * word).min(32);
    (1u64 << high).saturating_sub(1 << low) as u32
}

/// The ones of both.
fn join_words(own: &[u32; 32], other: &[u32; 32]) -> [u32; 32]
    ensures { (word : ℕ) → word < 32 → slice_index result word
        ≡ bit_or (slice_index own.now word) (slice_index other.now word) }
{
    let mut words = *own;
    for word in 0..32 {
        words[word] |= other[word];
    }
    words
}

/// The ones where the others are zeros.
fn without(own: &[u32; 32], other: &[u32; 32]) -> [u32; 32]
    ensures { (word : ℕ) → word < 32 → slice_index result word
        ≡ bit_and (slice_index own.now word) (bit_not w32 (slice_index other.now word)) }
{
    let mut words = *own;
    for word in 0..32 {
        words[word] &= !other[word];
    }
    words
}

/// The ones where the others are ones too.
fn shared(own: &[u32; 32], other: &[u32; 32]) -> [u32; 32]
    ensures { (word : ℕ) → word < 32 → slice_index result word
        ≡ bit_and (slice_index own.now word) (slice_index other.now word) }
{
    let mut words = *own;
    for word in 0..32 {
        words[word] &= other[word];
    }
    words
}

/// Whether there is no one.
fn are_zeros(words: &[u32; 32]) -> bool
    ensures { IsTrue result ↔ ((word : ℕ) → word < 32 → slice_index words.now word ≡ 0) }
{
    words.iter().all(|word| *word == 0)
}
