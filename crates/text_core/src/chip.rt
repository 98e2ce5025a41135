// The identifiers of chips.
ghost use Rattle.std.specs.Prelude.{◌≡◌, true, Some};
ghost use Rattle.std.specs.List.{list_all};
ghost use Rattle.text_core.specs.Chip.{chip_of_text, is_chip, is_lower_hex_digit};

use crate::short_text::ShortText;
use std::fmt;
use std::marker::Model;

/// The identity that a chip is made with, as text: twelve lowercase hexadecimal digits. It lies in
/// place, and is compared by its bytes.
#[derive(Clone, Copy, PartialEq, Eq, PartialOrd, Ord)]
pub struct Chip(ShortText<12>);

impl Model for Chip {
    ghost use Rattle.std.specs.Prelude.{List, ℕ, ◌≡◌, true};
    ghost use Rattle.text_core.specs.Chip.{is_chip};

    ghost Value = { List ℕ };

    ghost view = { λ x. x.0 };

    ghost invariant = { λ x. is_chip x.0 ≡ true };

    ghost inverse = { λ text. record { 0 = text } };
}

impl Chip {
    /// The text as a chip identity, if it is one.
    pub fn parse(text: &str) -> Option<Chip>
        ensures { result ≡ chip_of_text text.now }
    {
        if !is_chip(text) {
            return None;
        }
        Some(Chip(ShortText::copy_of(text)))
    }

    /// The text of the chip identity.
    pub fn as_str(&self) -> &str
        ensures same { result.now ≡ self.now }
        ensures is_one { is_chip result.now ≡ true }
    {
        self.0.as_str()
    }
}

impl fmt::Display for Chip {
    ghost output = { λ chip. Some chip };

    fn fmt<W: fmt::Write>(&self, f: &mut fmt::Formatter<W>) -> fmt::Result {
        f.write_str(self.as_str())
    }
}

fn is_lower_hex_digit(byte: u8) -> bool
    ensures { result ≡ is_lower_hex_digit byte }
{
    byte.is_ascii_digit() || matches!(byte, b'a'..=b'f')
}

/// Whether each byte is a decimal digit or a letter from `a` to `f`.
pub fn are_lower_hex_digits(bytes: &[u8]) -> bool
    ensures { result ≡ list_all is_lower_hex_digit bytes.now }
{
    bytes.iter().all(|byte| is_lower_hex_digit(*byte))
}

fn is_chip(text: &str) -> bool
    ensures { result ≡ is_chip text.now }
{
    text.len() == 12 && are_lower_hex_digits(text.as_bytes())
}
