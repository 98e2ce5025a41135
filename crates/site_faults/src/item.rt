// The kinds of a customer's parts.
ghost use Rattle.std.specs.Prelude.{◌≡◌, Some};
ghost use Rattle.site_faults.specs.Prelude.{item_limit, item_word};

use site_core::{ISSUER_LIMIT, POOL_LIMIT, SEAT_LIMIT};
use std::fmt;

/// A kind of a customer's parts. It shows as the name of its member.
#[derive(Clone, Copy)]
pub enum Item {
    /// An issuer.
    Issuer,
    /// An address pool.
    Pool,
    /// A seat.
    Seat,
}

impl Item {
    /// How many of them a customer may have.
    pub(crate) fn limit(self) -> usize
        ensures { result ≡ item_limit self }
    {
        match self {
            Item::Issuer => ISSUER_LIMIT,
            Item::Pool => POOL_LIMIT,
            Item::Seat => SEAT_LIMIT,
        }
    }
}

impl fmt::Display for Item {
    ghost output = { λ item. Some (item_word item) };

    fn fmt<W: fmt::Write>(&self, f: &mut fmt::Formatter<W>) -> fmt::Result {
        match self {
            Item::Issuer => f.write_str("issuer"),
            Item::Pool => f.write_str("pool"),
            Item::Seat => f.write_str("seat"),
        }
    }
}
