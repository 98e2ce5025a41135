// Times, as certificates have them.
ghost use Rattle.std.specs.Prelude.{◌≡◌, true, codes};
ghost use Rattle.std.specs.Char.{is_ascii_digit};
ghost use Rattle.std.specs.List.{list_all};
ghost use Rattle.text_core.specs.Time.{is_time, time_of_text};

use crate::short_text::ShortText;
use std::marker::Model;

/// A time as a certificate's GeneralizedTime has it (RFC 5280, section 4.1.2.5.2): the digits of
/// year, month, day, hour, minute and second, and a `Z`. Whether there is such a day isn't looked
/// at. It lies in place.
#[derive(Clone, Copy)]
pub struct Time(ShortText<15>);

impl Model for Time {
    ghost use Rattle.std.specs.Prelude.{List, ℕ, ◌≡◌, true};
    ghost use Rattle.text_core.specs.Time.{is_time};

    ghost Value = { List ℕ };

    ghost view = { λ x. x.0 };

    ghost invariant = { λ x. is_time x.0 ≡ true };

    ghost inverse = { λ text. record { 0 = text } };
}

impl Time {
    /// The text as a time, if it is one.
    pub fn parse(text: &str) -> Option<Time>
        ensures { result ≡ time_of_text text.now }
    {
        if !is_time(text) {
            return None;
        }
        Some(Time(ShortText::copy_of(text)))
    }

    /// That there is no well-defined end (RFC 5280, section 4.1.2.5).
    pub fn no_end() -> Time
        ensures { result ≡ codes "99991231235959Z" }
    {
        Time(ShortText::copy_of("99991231235959Z"))
    }

    /// The text of the time.
    pub fn as_str(&self) -> &str
        ensures same { result.now ≡ self.now }
        ensures is_one { is_time result.now ≡ true }
    {
        self.0.as_str()
    }
}

fn are_digits(bytes: &[u8]) -> bool
    ensures { result ≡ list_all is_ascii_digit bytes.now }
{
    bytes.iter().all(|byte| byte.is_ascii_digit())
}

fn is_time(text: &str) -> bool
    ensures { result ≡ is_time text.now }
{
    let bytes = text.as_bytes();
    bytes.len() == 15 && are_digits(&bytes[..14]) && bytes[14] == b'Z'
}
