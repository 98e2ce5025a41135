// Hardware addresses.
ghost use Rattle.std.specs.Prelude.{◌≡◌, ◌<◌, ◌^◌, Some};
ghost use Rattle.id_ranges.specs.Mac as spec;
ghost use Rattle.id_ranges.specs.Mac.{mac_of_text};
ghost use Rattle.id_ranges.specs.Pool.{is_individual};

use hex::FromHex;
use std::fmt;
use std::marker::Model;
use text_core::are_lower_hex_digits;

/// A hardware address: an EUI-48 (IEEE 802), 48 bits. It is printed as twelve lowercase hexadecimal
/// digits.
#[derive(Clone, Copy, PartialEq, Eq, PartialOrd, Ord)]
pub struct Mac {
    value: u64,
}

impl Model for Mac {
    ghost use Rattle.std.specs.Prelude.{ℕ, ◌<◌, ◌^◌};

    ghost Value = { ℕ };

    ghost view = { λ m. m.value };

    ghost invariant = { λ m. m.value < 2 ^ 48 };

    ghost inverse = { λ value. record { value = value } };
}

impl Mac {
    /// The address of this number, whose highest byte is the address's first.
    pub fn new(value: u64) -> Mac
        requires { value < 2 ^ 48 }
        ensures { result ≡ value }
    {
        Mac { value }
    }

    /// Reads twelve lowercase hexadecimal digits.
    pub fn parse(text: &str) -> Option<Mac>
        ensures { result ≡ mac_of_text text.now }
    {
        if !are_lower_hex_digits(text.as_bytes()) {
            return None;
        }
        let bytes = <[u8; 6] as FromHex>::from_hex(text).ok()?;
        let high = (u64::from(bytes[0]) * 256 + u64::from(bytes[1])) * 256 + u64::from(bytes[2]);
        let low = (u64::from(bytes[3]) * 256 + u64::from(bytes[4])) * 256 + u64::from(bytes[5]);
        Some(Mac {
            value: high * 0x100_0000 + low,
        })
    }

    /// The address as a number.
    pub fn value(self) -> u64
        ensures same { result ≡ self }
        ensures bound { result < 2 ^ 48 }
    {
        self.value
    }

    /// Whether it is the address of one station and of no group: the lowest bit of its first octet
    /// is 0 (IEEE 802).
    pub fn is_individual(self) -> bool
        ensures { result ≡ is_individual self }
    {
        (self.value >> 40) % 2 == 0
    }
}

impl fmt::Display for Mac {
    ghost output = { λ mac. Some (spec.mac_text mac) };

    fn fmt<W: fmt::Write>(&self, f: &mut fmt::Formatter<W>) -> fmt::Result {
        let value = self.value;
        write!(f, "{value:012x}")
    }
}
