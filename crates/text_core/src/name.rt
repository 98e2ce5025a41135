// Names.
ghost use Rattle.std.specs.Prelude.{◌≡◌, true, Some};
ghost use Rattle.std.specs.List.{list_all};
ghost use Rattle.text_core.specs.Name.{is_name, is_name_byte, name_of_text};

use crate::short_text::ShortText;
use std::fmt;
use std::marker::Model;

/// A name of a customer, an issuer, a seat or an order: 1 to 32 letters, digits, dots, underscores
/// and hyphens of ASCII. It lies in place, and is compared by its bytes.
#[derive(Clone, Copy, PartialEq, Eq, PartialOrd, Ord)]
pub struct Name(ShortText<32>);

impl Model for Name {
    ghost use Rattle.std.specs.Prelude.{List, ℕ, ◌≡◌, true};
    ghost use Rattle.text_core.specs.Name.{is_name};

    ghost Value = { List ℕ };

    ghost view = { λ n. n.0 };

    ghost invariant = { λ n. is_name n.0 ≡ true };

    ghost inverse = { λ text. record { 0 = text } };
}

impl Name {
    /// The text as a name, if it is one.
    pub fn parse(text: &str) -> Option<Name>
        ensures { result ≡ name_of_text text.now }
    {
        if !is_name(text) {
            return None;
        }
        Some(Name(ShortText::copy_of(text)))
    }

    /// The text of the name.
    pub fn as_str(&self) -> &str
        ensures same { result.now ≡ self.now }
        ensures is_one { is_name result.now ≡ true }
    {
        self.0.as_str()
    }
}

impl fmt::Display for Name {
    ghost output = { λ name. Some name };

    fn fmt<W: fmt::Write>(&self, f: &mut fmt::Formatter<W>) -> fmt::Result {
        f.write_str(self.as_str())
    }
}

fn is_name_byte(byte: u8) -> bool
    ensures { result ≡ is_name_byte byte }
{
    byte.is_ascii_alphanumeric() || matches!(byte, b'.' | b'_' | b'-')
}

fn are_name_bytes(bytes: &[u8]) -> bool
    ensures { result ≡ list_all is_name_byte bytes.now }
{
    bytes.iter().all(|byte| is_name_byte(*byte))
}

fn is_name(text: &str) -> bool
    ensures { result ≡ is_name text.now }
{
    let length = text.len();
    1 <= length && length <= 32 && are_name_bytes(text.as_bytes())
}
