// Pools of hardware addresses.
ghost use Rattle.std.specs.Prelude.{◌≡◌};
ghost use Rattle.id_ranges.specs.Pool.{pool_of, IsPool};

use crate::mac::Mac;
use std::marker::Model;

/// The most addresses of a pool: 2^24, as many as one organizationally unique identifier has
/// (IEEE 802).
pub const LARGEST_POOL: u64 = 16777216;

/// How many addresses there are: 2^48.
const ADDRESSES: u64 = 0x1_0000_0000_0000;

/// Consecutive hardware addresses (EUI-48, IEEE 802), from which devices get theirs: 1 to 2^24,
/// each of them an individual address.
#[derive(Clone, Copy)]
pub struct MacPool {
    first: Mac,
    count: u64,
}

impl Model for MacPool {
    ghost use Rattle.id_ranges.specs.Pool.{Pool, IsPool};

    ghost Value = { Pool };

    ghost view = { λ p. record { first = p.first; count = p.count } };

    ghost invariant = { λ p. IsPool (record { first = p.first; count = p.count }) };

    ghost inverse = { λ p. record { first = p.first; count = p.count } };
}

impl MacPool {
    /// The pool of `count` addresses from this one on. `None` where there are 0 or more than 2^24
    /// of them, the last isn't below 2^48, or one is a group address (the lowest bit of its first
    /// octet is 1).
    #[tactic(auto, using(crate::proofs::Pools::ends))]
    pub fn new(first: Mac, count: u64) -> Option<MacPool>
        ensures { result ≡ pool_of first count }
    {
        if count == 0 || LARGEST_POOL < count {
            return None;
        }
        let last = first.value() + (count - 1);
        if ADDRESSES <= last {
            return None;
        }
        if !first.is_individual() || !Mac::new(last).is_individual() {
            return None;
        }
        Some(MacPool { first, count })
    }

    /// The first address.
    pub fn first(&self) -> Mac
        ensures same { result ≡ self.now.first }
        ensures pool { IsPool self.now }
    {
        self.first
    }

    /// How many addresses there are.
    pub fn count(&self) -> u64
        ensures same { result ≡ self.now.count }
        ensures pool { IsPool self.now }
    {
        self.count
    }
}
