// A customer's section of a site.
ghost use Rattle.std.specs.Prelude.{◌≡◌, bytes_eq, position};
ghost use Rattle.std.specs.List.{list_any};
ghost use Rattle.site_core.specs.Growth as growth;
ghost use Rattle.site_core.specs.Section.{has_token};

use id_ranges::MacPool;
use std::marker::Model;
use text_core::{Digest, Name};

/// The most seats of a customer.
pub const SEAT_LIMIT: usize = 64;

/// The most issuers of a customer.
pub const ISSUER_LIMIT: usize = 8;

/// The most address pools of a customer.
pub const POOL_LIMIT: usize = 16;

/// A seat of a customer: its name, and the SHA-256 of the bearer token (RFC 6750) that its requests
/// carry.
#[derive(Clone, Copy)]
pub struct Seat {
    name: Name,
    token: Digest,
}

impl Model for Seat {
    ghost use Rattle.site_core.specs.Section.{SeatOf};

    ghost Value = { SeatOf };

    ghost view = { λ s. record { name = s.name; token = s.token } };

    ghost inverse = { λ s. record { name = s.name; token = s.token } };
}

impl Seat {
    /// The seat of a name, whose token has this SHA-256.
    pub fn new(name: Name, token: Digest) -> Seat
        ensures { result ≡ record { name = name; token = token } }
    {
        Seat { name, token }
    }

    /// The name of the seat.
    pub fn name(&self) -> Name
        ensures { result ≡ self.now.name }
    {
        self.name
    }

    /// The SHA-256 of the seat's token.
    pub fn token(&self) -> Digest
        ensures { result ≡ self.now.token }
    {
        self.token
    }

    /// Whether the token of the seat has this SHA-256.
    pub fn has_token(&self, digest: &Digest) -> bool
        ensures { result ≡ has_token digest.now self.now }
    {
        self.token == *digest
    }

    /// Whether the seats have one name and one token.
    pub(crate) fn is_same_seat(&self, other: &Seat) -> bool
        ensures { result ≡ growth.is_same_seat self.now other.now }
    {
        self.name == other.name && self.token == other.token
    }
}

/// A customer: its name, the issuers of the serial numbers that it may order, the pools that its
/// devices' hardware addresses come from, and its seats.
#[derive(Drop)]
pub struct Customer {
    name: Name,
    issuers: Vec<Name>,
    pools: Vec<MacPool>,
    seats: Vec<Seat>,
}

impl Model for Customer {
    ghost use Rattle.site_core.specs.Section.{Section};

    ghost Value = { Section };

    ghost view = { λ c. record {
      name = c.name;
      issuers = c.issuers.items;
      pools = c.pools.items;
      seats = c.seats.items;
    } };
}

impl Customer {
    /// The customer of these parts.
    pub(crate) fn new(
        name: Name,
        issuers: Vec<Name>,
        pools: Vec<MacPool>,
        seats: Vec<Seat>,
    ) -> Customer
        ensures { result ≡ record {
          name = name;
          issuers = issuers.items;
          pools = pools.items;
          seats = seats.items;
        } }
    {
        Customer {
            name,
            issuers,
            pools,
            seats,
        }
    }

    /// The name of the customer.
    pub fn name(&self) -> Name
        ensures { result ≡ self.now.name }
    {
        self.name
    }

    /// The issuers of the customer, in the text's order.
    pub fn issuers(&self) -> &[Name]
        ensures { result.now ≡ self.now.issuers }
    {
        self.issuers.as_slice()
    }

    /// Whether an issuer is one of the customer's.
    pub fn has_issuer(&self, issuer: &Name) -> bool
        ensures { result ≡ list_any (bytes_eq issuer.now) self.now.issuers }
    {
        self.issuers.iter().any(|own| issuer == own)
    }

    /// The address pools of the customer, in the text's order.
    pub fn pools(&self) -> &[MacPool]
        ensures { result.now ≡ self.now.pools }
    {
        self.pools.as_slice()
    }

    /// The seats of the customer, in the text's order.
    pub fn seats(&self) -> &[Seat]
        ensures { result.now ≡ self.now.seats }
    {
        self.seats.as_slice()
    }

    /// Whether a seat, with its token, is one of the customer's.
    pub(crate) fn has_seat(&self, seat: &Seat) -> bool
        ensures { result ≡ list_any (growth.is_same_seat seat.now) self.now.seats }
    {
        self.seats.iter().any(|own| seat.is_same_seat(own))
    }

    /// Whether some seat has a token with this SHA-256.
    pub(crate) fn has_seat_with(&self, digest: &Digest) -> bool
        ensures { result ≡ list_any (has_token digest.now) self.now.seats }
    {
        self.seats.iter().any(|seat| seat.has_token(digest))
    }

    /// The place of the first seat whose token has this SHA-256.
    pub(crate) fn seat_with(&self, digest: &Digest) -> Option<usize>
        ensures { result ≡ position (has_token digest.now) self.now.seats }
    {
        self.seats.iter().position(|seat| seat.has_token(digest))
    }
}
