// The faults of ranges.
ghost use Rattle.std.specs.Prelude.{◌≡◌};
ghost use Rattle.id_ranges.specs.Prelude.{range_fault_number};

use thiserror::Error;

/// Why a range, a number, an address or a key isn't taken, in the order of the faults' numbers:
/// where several hold, the first is told.
#[derive(Clone, Copy, PartialEq, Eq, Debug, Error)]
pub enum RangeFault {
    /// A text is empty, too long or has a character outside its alphabet (1).
    #[error("the text has a wrong length or a character outside its alphabet")]
    BadText,
    /// A number has more digits than the serial number's width (2).
    #[error("the number doesn't fit the width")]
    TooWide,
    /// Each number of the range is below the cursor or given (3).
    #[error("no number is left")]
    Exhausted,
    /// No address pool has a free block that is long enough (4).
    #[error("no address pool has a free block of this length")]
    NoMacRoom,
    /// Two ranges have a number in common (5). Calls of other crates tell it, by
    /// `SerialRange::meets`.
    #[error("the ranges overlap")]
    Overlap,
    /// A key is bound to another serial number of the issuer already (6). Calls of other crates tell
    /// it.
    #[error("the key is bound already")]
    KeyBound,
    /// Memory ran out (7). Nothing in this crate takes memory, so none of its calls tells it.
    #[error("out of memory")]
    OutOfMemory,
    /// Whether a serial number is given was looked up, and there was no answer (8).
    #[error("a serial number couldn't be looked up")]
    Unread,
    /// A text is no beginning of a validity: it isn't 14 digits and a `Z`, or there is no such second
    /// of such a day (9).
    #[error("the beginning of the validity is none")]
    BadNotBefore,
}

impl RangeFault {
    /// The number of the fault, 1 to 9.
    pub fn number(&self) -> u8
        ensures { result ≡ range_fault_number self.now }
    {
        match self {
            RangeFault::BadText => 1,
            RangeFault::TooWide => 2,
            RangeFault::Exhausted => 3,
            RangeFault::NoMacRoom => 4,
            RangeFault::Overlap => 5,
            RangeFault::KeyBound => 6,
            RangeFault::OutOfMemory => 7,
            RangeFault::Unread => 8,
            RangeFault::BadNotBefore => 9,
        }
    }
}
