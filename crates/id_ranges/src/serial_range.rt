// Ranges of serial numbers.
ghost use Rattle.std.specs.Prelude.{◌≡◌, ◌≤◌, ◌↔◌, IsTrue, true};
ghost use Rattle.text_core.specs.Prelude.{is_serial};
ghost use Rattle.id_ranges.specs.Range.{Has, IsRange, RangesOverlap, SharesANumber, is_number_too_wide, ranges_overlap, range_of, serial_text};

use crate::fault::RangeFault;
use itoa::Buffer;
use std::marker::Model;
use std::str;
use text_core::{Prefix, Serial, ShortBytes};

/// Serial numbers of one prefix and consecutive numbers, each written in decimal with zeros before it
/// up to the width: a width of 1 to 9, at least one number, and none with more digits than the width.
#[derive(Clone, Copy)]
pub struct SerialRange {
    prefix: Prefix,
    width: u8,
    first: u64,
    quantity: u64,
}

impl Model for SerialRange {
    ghost use Rattle.id_ranges.specs.Range.{Range, IsRange};

    ghost Value = { Range };

    ghost view = { λ r. record {
      prefix = r.prefix;
      width = r.width;
      first = r.first;
      quantity = r.quantity;
    } };

    ghost invariant = { λ r. IsRange (record {
      prefix = r.prefix;
      width = r.width;
      first = r.first;
      quantity = r.quantity;
    }) };

    ghost inverse = { λ r. record {
      prefix = r.prefix;
      width = r.width;
      first = r.first;
      quantity = r.quantity;
    } };
}

impl SerialRange {
    /// The range of `quantity` numbers from `first` on. `BadText` where the prefix isn't 1 to 32
    /// capital letters, digits and hyphens, else `TooWide` where the last number has more digits than
    /// the width. It takes no memory.
    pub fn new(
        prefix: &str,
        width: u8,
        first: u64,
        quantity: u64,
    ) -> Result<SerialRange, RangeFault>
        requires width { (1 ≤ width) × (width ≤ 9) }
        requires some { 1 ≤ quantity }
        requires whole { (first ≤ 9007199254740991) × (quantity ≤ 9007199254740991) }
        ensures { result ≡ range_of prefix.now width first quantity }
    {
        let Some(prefix) = Prefix::parse(prefix) else {
            return Err(RangeFault::BadText);
        };
        if is_number_too_wide(width, first + quantity - 1) {
            return Err(RangeFault::TooWide);
        }
        Ok(SerialRange {
            prefix,
            width,
            first,
            quantity,
        })
    }

    /// What the serial numbers begin with.
    pub fn prefix(&self) -> Prefix
        ensures { result ≡ self.now.prefix }
    {
        self.prefix
    }

    /// How many digits follow the prefix.
    pub fn width(&self) -> u8
        ensures same { result ≡ self.now.width }
        ensures range { IsRange self.now }
    {
        self.width
    }

    /// The first number.
    pub fn first(&self) -> u64
        ensures same { result ≡ self.now.first }
        ensures range { IsRange self.now }
    {
        self.first
    }

    /// How many numbers there are.
    pub fn quantity(&self) -> u64
        ensures same { result ≡ self.now.quantity }
        ensures range { IsRange self.now }
    {
        self.quantity
    }

    /// Whether the ranges are of one prefix and width and have a number in common.
    pub fn meets(&self, other: &SerialRange) -> bool
        ensures share { IsTrue result ↔ RangesOverlap self.now other.now }
        ensures tested { result ≡ ranges_overlap self.now other.now }
    {
        self.has_a_serial_of(other)
    }

    fn has_a_serial_of(&self, other: &SerialRange) -> bool
        ensures { IsTrue result ↔ RangesOverlap self.now other.now }
    {
        self.prefix == other.prefix && self.width == other.width && self.shares_a_number(other)
    }

    fn shares_a_number(&self, other: &SerialRange) -> bool
        ensures { IsTrue result ↔ SharesANumber self.now other.now }
    {
        if self.first <= other.first {
            other.first - self.first < self.quantity
        } else {
            self.first - other.first < other.quantity
        }
    }

    /// The serial number of a number of the range: the prefix, and the number in decimal with zeros
    /// before it up to the width. It takes no memory.
    pub fn text(&self, number: u64) -> Serial
        requires { Has self.now number }
        ensures { result ≡ serial_text self.now number }
    {
        let bytes = self.bytes(number);
        Serial::parse(str::from_utf8(bytes.as_bytes()).unwrap()).unwrap()
    }

    fn bytes(&self, number: u64) -> ShortBytes<64>
        requires { Has self.now number }
        ensures same { result ≡ serial_text self.now number }
        ensures is_one { is_serial result ≡ true }
    {
        let mut buffer = Buffer::new();
        let digits = buffer.format(number).as_bytes();
        let zeros = [b'0'; 9];
        let mut bytes = ShortBytes::empty();
        bytes.append(self.prefix.as_str().as_bytes());
        bytes.append(&zeros[..usize::from(self.width) - digits.len()]);
        bytes.append(digits);
        bytes
    }
}

/// Whether a number has more digits than the width.
fn is_number_too_wide(width: u8, number: u64) -> bool
    requires { width ≤ 9 }
    ensures { result ≡ is_number_too_wide width number }
{
    10u64.pow(u32::from(width)) <= number
}
