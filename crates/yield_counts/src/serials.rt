// Whether a text is a serial number of a range.
ghost use Rattle.std.specs.Prelude.{◌≡◌, ◌≤◌, ℕ, IfSome, Some, length};
ghost use Rattle.std.specs.Str.Parse.{digits_value, AllDigits};
ghost use Rattle.id_ranges.specs.Prelude.{serial_text, Has};
ghost use Rattle.yield_counts.specs.Prelude.{has_serial};

use id_ranges::SerialRange;
use text_core::Serial;

/// The number that at most nine digits write.
pub(crate) fn number_of(digits: &[u8]) -> u64
    requires { length digits.now ≤ 9 }
    ensures { AllDigits 10 digits.now → result ≡ digits_value 10 digits.now }
{
    let mut number: u64 = 0;
    for digit in digits {
        number = number
            .saturating_mul(10)
            .saturating_add(u64::from(digit.saturating_sub(b'0')));
    }
    number
}

/// The number that a range's serial number would have by its digits, if the range has such a
/// number.
fn number_in(range: &SerialRange, serial: &Serial) -> Option<u64>
    ensures has { IfSome result (Has range.now) }
    ensures found { (n : ℕ) → Has range.now n → serial.now ≡ serial_text range.now n
        → result ≡ Some n }
{
    let prefix = range.prefix();
    let front = prefix.as_str().as_bytes();
    let bytes = serial.as_str().as_bytes();
    if bytes.len() != front.len() + usize::from(range.width()) {
        return None;
    }
    if &bytes[..front.len()] != front {
        return None;
    }
    let number = number_of(&bytes[front.len()..]);
    if number < range.first() || number - range.first() >= range.quantity() {
        return None;
    }
    Some(number)
}

/// Whether a text is the serial number of a number of the range. It takes no memory, and no walk
/// over the range.
pub fn has_serial(range: &SerialRange, serial: &Serial) -> bool
    ensures { result ≡ has_serial range.now serial.now }
{
    match number_in(range, serial) {
        Some(number) => range.text(number) == *serial,
        None => false,
    }
}
