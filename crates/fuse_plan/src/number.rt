// Whole numbers as wide as a block of fuses.
ghost use Rattle.std.specs.Prelude.{◌≡◌, ◌<◌, ◌≤◌, length, slice_index};
ghost use Rattle.std.specs.List.{list_all};
ghost use Rattle.hex.specs.Hex.{is_hex_digit};
ghost use Rattle.text_core.specs.Prelude.{zero_padded};
ghost use Rattle.fuse_plan.specs.Numbers as numbers;
ghost use Rattle.fuse_plan.specs.Numbers.{digit_value, digits_value, is_number, number_of_text};

use std::marker::Model;

/// The most hexadecimal digits of a number.
const DIGIT_LIMIT: usize = 64;

/// How many hexadecimal digits a word of 32 bits has.
const WORD_DIGITS: usize = 8;

/// A whole number of 256 bits, as many as a block of fuses has at most.
#[derive(Clone, Copy, PartialEq, Eq, Debug)]
pub struct Number {
    words: [u32; 8],
}

impl Model for Number {
    ghost use Rattle.std.specs.Prelude.{List, ℕ};

    ghost Value = { List ℕ };

    ghost view = { λ n. n.words };

    ghost inverse = { λ words. record { words = words } };
}

impl Number {
    /// The number of these words of 32 bits, the lowest first.
    pub fn new(words: [u32; 8]) -> Number
        ensures { result ≡ words }
    {
        Number { words }
    }

    /// The number of 1 to 64 hexadecimal digits of either case, the highest first.
    pub fn parse(text: &str) -> Option<Number>
        ensures { result ≡ number_of_text text.now }
    {
        let digits = text.as_bytes();
        if !is_number(digits) {
            return None;
        }
        Some(Number {
            words: words_of(digits),
        })
    }

    /// A word of the number. Word 0 is the lowest.
    pub(crate) fn word(&self, index: usize) -> u32
        requires { index < 8 }
        ensures { result ≡ slice_index self.now index }
    {
        self.words[index]
    }

    /// Whether a bit of the number is 1. Bit 0 is the lowest.
    pub fn has_one(&self, bit: u16) -> bool
        requires { bit < 256 }
        ensures { result ≡ numbers.number_has_one self.now bit }
    {
        self.words[usize::from(bit / 32)] >> (bit % 32) & 1 == 1
    }
}

/// Whether these are 1 to 64 hexadecimal digits.
fn is_number(digits: &[u8]) -> bool
    ensures { result ≡ is_number digits.now }
{
    1 <= digits.len() && digits.len() <= DIGIT_LIMIT && are_digits(digits)
}

fn are_digits(digits: &[u8]) -> bool
    ensures { result ≡ list_all is_hex_digit digits.now }
{
    digits.iter().all(|digit| is_digit(*digit))
}

fn is_digit(byte: u8) -> bool
    ensures { result ≡ is_hex_digit byte }
{
    byte.is_ascii_hexdigit()
}

/// The words of the number of these digits, the lowest first.
fn words_of(digits: &[u8]) -> [u32; 8]
    requires { length digits.now ≤ DIGIT_LIMIT }
    ensures { result ≡ numbers.words_of_number (digits_value digits.now) }
{
    let padded = with_zeros(digits);
    let mut words = [0; 8];
    for index in 0..8 {
        let end = DIGIT_LIMIT - WORD_DIGITS * index;
        words[index] = value_of(&padded[end - WORD_DIGITS..end]);
    }
    words
}

/// The digits, with zeros before them.
fn with_zeros(digits: &[u8]) -> [u8; 64]
    requires { length digits.now ≤ DIGIT_LIMIT }
    ensures { result ≡ zero_padded 64 digits.now }
{
    let mut padded = [b'0'; 64];
    padded[DIGIT_LIMIT - digits.len()..].copy_from_slice(digits);
    padded
}

/// The number of at most eight digits.
fn value_of(digits: &[u8]) -> u32
    requires { length digits.now ≤ WORD_DIGITS }
    ensures { result ≡ digits_value digits.now }
{
    let mut value = 0;
    for digit in digits {
        value = 16 * value + digit_value(*digit);
    }
    value
}

/// What a hexadecimal digit of either case stands for.
fn digit_value(digit: u8) -> u32
    ensures { result ≡ digit_value digit }
{
    match digit {
        b'0'..=b'9' => u32::from(digit - b'0'),
        b'A'..=b'F' => u32::from(digit - b'A') + 10,
        b'a'..=b'f' => u32::from(digit - b'a') + 10,
        _ => 0,
    }
}
