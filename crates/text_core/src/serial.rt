// Serial numbers.
ghost use Rattle.std.specs.Prelude.{◌≡◌, true, Some};
ghost use Rattle.std.specs.List.{list_all};
ghost use Rattle.text_core.specs.Serial.{is_serial, is_serial_byte, serial_of_text};

use crate::short_text::ShortText;
use std::fmt;
use std::marker::Model;

/// A serial number as a certificate's serialNumber attribute carries it: 1 to 64 capital letters,
/// digits and hyphens, which are characters of PrintableString (RFC 5280, appendix A). It lies in
/// place, and is compared by its bytes.
#[derive(Clone, Copy, PartialEq, Eq, PartialOrd, Ord)]
pub struct Serial(ShortText<64>);

impl Model for Serial {
    ghost use Rattle.std.specs.Prelude.{List, ℕ, ◌≡◌, true};
    ghost use Rattle.text_core.specs.Serial.{is_serial};

    ghost Value = { List ℕ };

    ghost view = { λ x. x.0 };

    ghost invariant = { λ x. is_serial x.0 ≡ true };

    ghost inverse = { λ text. record { 0 = text } };
}

impl Serial {
    /// The text as a serial number, if it is one.
    pub fn parse(text: &str) -> Option<Serial>
        ensures { result ≡ serial_of_text text.now }
    {
        if !is_serial(text) {
            return None;
        }
        Some(Serial(ShortText::copy_of(text)))
    }

    /// The text of the serial number.
    pub fn as_str(&self) -> &str
        ensures same { result.now ≡ self.now }
        ensures is_one { is_serial result.now ≡ true }
    {
        self.0.as_str()
    }
}

impl fmt::Display for Serial {
    ghost output = { λ serial. Some serial };

    fn fmt<W: fmt::Write>(&self, f: &mut fmt::Formatter<W>) -> fmt::Result {
        f.write_str(self.as_str())
    }
}

fn is_serial_byte(byte: u8) -> bool
    ensures { result ≡ is_serial_byte byte }
{
    byte.is_ascii_uppercase() || byte.is_ascii_digit() || byte == b'-'
}

/// Whether each byte may stand in a serial number.
pub(crate) fn are_serial_bytes(bytes: &[u8]) -> bool
    ensures { result ≡ list_all is_serial_byte bytes.now }
{
    bytes.iter().all(|byte| is_serial_byte(*byte))
}

fn is_serial(text: &str) -> bool
    ensures { result ≡ is_serial text.now }
{
    let length = text.len();
    1 <= length && length <= 64 && are_serial_bytes(text.as_bytes())
}
