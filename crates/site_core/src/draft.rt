// The parts of a site as its text has them, before they are judged.
use crate::customer::Seat;
use id_ranges::Mac;
use std::marker::Model;
use text_core::{Digest, Name};

/// A pool as a text gives it: its first address, and how many addresses there are, 1 to 2^24. Some
/// of them may be group addresses, or have more than 48 bits.
#[derive(Clone, Copy)]
pub(crate) struct PoolDraft {
    pub(crate) first: Mac,
    pub(crate) count: u64,
}

impl Model for PoolDraft {
    ghost use Rattle.std.specs.Prelude.{◌≤◌};
    ghost use Rattle.id_ranges.specs.Prelude.{Pool};

    ghost Value = { Pool };

    ghost view = { λ p. record { first = p.first; count = p.count } };

    ghost invariant = { λ p. (1 ≤ p.count) × (p.count ≤ 16777216) };

    ghost inverse = { λ p. record { first = p.first; count = p.count } };
}

/// A customer as a text gives it.
#[derive(Drop)]
pub(crate) struct CustomerDraft {
    pub(crate) name: Name,
    pub(crate) issuers: Vec<Name>,
    pub(crate) pools: Vec<PoolDraft>,
    pub(crate) seats: Vec<Seat>,
}

impl Model for CustomerDraft {
    ghost use Rattle.site_core.specs.Section.{Section};

    ghost Value = { Section };

    ghost view = { λ c. record {
      name = c.name;
      issuers = c.issuers.items;
      pools = c.pools.items;
      seats = c.seats.items;
    } };
}

/// A site as a text gives it, which may have faults.
#[derive(Drop)]
pub(crate) struct SiteDraft {
    pub(crate) customers: Vec<CustomerDraft>,
    pub(crate) manager: Option<Digest>,
}

impl Model for SiteDraft {
    ghost use Rattle.site_core.specs.Section.{SiteValue};

    ghost Value = { SiteValue };

    ghost view = { λ s. record { customers = s.customers.items; manager = s.manager } };
}
