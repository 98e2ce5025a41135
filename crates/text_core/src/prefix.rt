// What serial numbers begin with.
ghost use Rattle.std.specs.Prelude.{◌≡◌, true, Some};
ghost use Rattle.text_core.specs.Prefix.{is_prefix, prefix_of_text};

use crate::serial::are_serial_bytes;
use crate::short_text::ShortText;
use std::fmt;
use std::marker::Model;

/// What the serial numbers of an order begin with: 1 to 32 capital letters, digits and hyphens, which
/// are characters of PrintableString (RFC 5280, appendix A). It lies in place, and is compared by
/// its bytes.
#[derive(Clone, Copy, PartialEq, Eq)]
pub struct Prefix(ShortText<32>);

impl Model for Prefix {
    ghost use Rattle.std.specs.Prelude.{List, ℕ, ◌≡◌, true};
    ghost use Rattle.text_core.specs.Prefix.{is_prefix};

    ghost Value = { List ℕ };

    ghost view = { λ x. x.0 };

    ghost invariant = { λ x. is_prefix x.0 ≡ true };

    ghost inverse = { λ text. record { 0 = text } };
}

impl Prefix {
    /// The text as a prefix, if it is one.
    pub fn parse(text: &str) -> Option<Prefix>
        ensures { result ≡ prefix_of_text text.now }
    {
        if !is_prefix(text) {
            return None;
        }
        Some(Prefix(ShortText::copy_of(text)))
    }

    /// The text of the prefix.
    pub fn as_str(&self) -> &str
        ensures same { result.now ≡ self.now }
        ensures is_one { is_prefix result.now ≡ true }
    {
        self.0.as_str()
    }
}

impl fmt::Display for Prefix {
    ghost output = { λ prefix. Some prefix };

    fn fmt<W: fmt::Write>(&self, f: &mut fmt::Formatter<W>) -> fmt::Result {
        f.write_str(self.as_str())
    }
}

fn is_prefix(text: &str) -> bool
    ensures { result ≡ is_prefix text.now }
{
    let length = text.len();
    1 <= length && length <= 32 && are_serial_bytes(text.as_bytes())
}
