// Where the ones and zeros of a value lie in a field.
ghost use Rattle.std.specs.Prelude.{◌≡◌, ◌<◌, ℕ, ◌+◌, ◌-◌, ◌*◌, ◌==◌, ◌&&◌, not, nat_le, nat_lt, slice_index, if◌then◌else◌};
ghost use Rattle.std.specs.Int.{bit_at};
ghost use Rattle.fusemap_core.specs.Prelude.{IsSmall, holds};
ghost use Rattle.fuse_image.specs.Prelude.{places_where, position_of_bit};
ghost use Rattle.fuse_plan.specs.Prelude.{number_has_one, is_one_from};

use crate::number::Number;
use fuse_image::{Bits, positions_of};
use fusemap_core::{Field, Pos};

/// The positions of a field at which a number has a 1.
pub(crate) fn ones_in(field: &Field, value: &Number) -> Bits
    requires { IsSmall field.now }
    ensures { result
        ≡ places_where (λ p. holds field.now p && number_has_one value.now (p.bit - field.now.bit)) }
{
    positions_of(field).meet(&ones_from(value, field.first()))
}

/// The positions of a field at which a number has a 0.
pub(crate) fn zeros_in(field: &Field, value: &Number) -> Bits
    requires { IsSmall field.now }
    ensures { result
        ≡ places_where (λ p. holds field.now p && not (number_has_one value.now (p.bit - field.now.bit))) }
{
    positions_of(field).minus(&ones_from(value, field.first()))
}

/// The positions at which a number that begins at `first` has a 1, up to the end of the block.
pub(crate) fn ones_from(value: &Number, first: Pos) -> Bits
    ensures { result ≡ places_where (is_one_from value.now first) }
{
    Bits::from_words(words_from(value, first))
}

/// The number as it stands in 32 words, eight words for each of 4 blocks, from `first` on up to the
/// end of the block, with zeros elsewhere.
fn words_from(value: &Number, first: Pos) -> [u32; 32]
    ensures { (word bit : ℕ) → word < 32 → bit < 32 →
        (bit_at (slice_index result word) bit == 1) ≡ is_one_from value.now first (position_of_bit word bit) }
{
    let mut words = [0; 32];
    for word in 0..32 {
        words[usize::from(word)] = word_from(value, first, word);
    }
    words
}

/// One of those words.
fn word_from(value: &Number, first: Pos, word: u16) -> u32
    requires { word < 32 }
    ensures { (bit : ℕ) → bit < 32 →
        (bit_at result bit == 1) ≡ is_one_from value.now first (position_of_bit word bit) }
{
    if word / 8 != u16::from(first.block) {
        return 0;
    }
    window(value, word % 8, first.bit)
}

/// A word of a block in which the number begins at bit `start`.
fn window(value: &Number, word: u16, start: u16) -> u32
    requires { word < 8 }
    ensures { (bit : ℕ) → bit < 32 → (bit_at result bit == 1)
        ≡ (nat_le start (32 * word + bit) && number_has_one value.now (32 * word + bit - start)) }
{
    let skipped = start / 32;
    let upper = word_past(value, word, skipped);
    let lower = word_past(value, word, skipped + 1);
    shifted(upper, lower, start % 32)
}

/// The number's word that stands so many words further up, or 0 where there is none.
fn word_past(value: &Number, word: u16, skipped: u16) -> u32
    requires { word < 8 }
    ensures { result
        ≡ (if nat_le skipped word then slice_index value.now (word - skipped) else 0) }
{
    if skipped <= word {
        return value.word(usize::from(word - skipped));
    }
    0
}

/// The word `upper` moved up so many bits, with the highest bits of `lower` below it.
fn shifted(upper: u32, lower: u32, shift: u16) -> u32
    requires { shift < 32 }
    ensures { (bit : ℕ) → bit < 32 → bit_at result bit
        ≡ (if nat_lt bit shift then bit_at lower (32 + bit - shift) else bit_at upper (bit - shift)) }
{
    let pair = (u64::from(upper) << 32) + u64::from(lower);
    ((pair >> (32 - shift)) % (1 << 32)) as u32
}
