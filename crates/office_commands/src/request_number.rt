// The numbers of requests.
ghost use Rattle.std.specs.Prelude.{◌≡◌, ◌&&◌, nat_le, None, Some, if◌then◌else◌};
ghost use Rattle.office_commands.specs.Wholes.{IsRequestNumber};

use std::marker::Model;
use text_core::LARGEST_WHOLE;

/// The number that a seat gives a request that writes: 1 to 9007199254740991, the largest whole number
/// that every reader of JSON holds exactly.
#[derive(Clone, Copy)]
pub struct RequestNumber {
    value: u64,
}

impl Model for RequestNumber {
    ghost use Rattle.std.specs.Prelude.{ℕ};
    ghost use Rattle.office_commands.specs.Wholes.{IsRequestNumber};

    ghost Value = { ℕ };

    ghost view = { λ number. number.value };

    ghost invariant = { λ number. IsRequestNumber number.value };

    ghost inverse = { λ value. record { value = value } };
}

impl RequestNumber {
    /// The first number of a seat.
    pub fn first() -> RequestNumber
        ensures { result ≡ 1 }
    {
        RequestNumber { value: 1 }
    }

    /// The request number that a number is, if it is one from 1 to 9007199254740991.
    pub fn new(value: u64) -> Option<RequestNumber>
        ensures { result ≡ (if nat_le 1 value && nat_le value 9007199254740991 then Some value
            else None) }
    {
        if 1 <= value && value <= LARGEST_WHOLE {
            Some(RequestNumber { value })
        } else {
            None
        }
    }

    /// The number.
    pub fn value(self) -> u64
        ensures same { result ≡ self }
        ensures range { IsRequestNumber result }
    {
        self.value
    }
}
