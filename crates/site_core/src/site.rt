// Sites, and whose a token is.
ghost use Rattle.std.specs.Prelude.{◌≡◌, ◌<◌, ◌↔◌, IfSome, IsTrue, is_some, length, bytes_eq, position};
ghost use Rattle.std.specs.List.{list_any};
ghost use Rattle.sha2.specs.Sha256.{sha256};
ghost use Rattle.site_core.specs.Caller.{IsSeatCaller, IsCaller, HoldsToken, caller_of, seat_caller_with, manager_with, has_seat_with, seat_name_at};
ghost use Rattle.site_core.specs.Caller.{section_at, section_in};
ghost use Rattle.site_core.specs.Growth.{IsGrowth};
ghost use Rattle.site_core.specs.Section.{tokens_of};
ghost use Rattle.site_core.specs.Site.{IsSite};

use crate::customer::Customer;
use crate::growth::{are_kept, keeps_manager};
use std::marker::Model;
use text_core::{Digest, Name};

/// The most customers of a site.
pub const CUSTOMER_LIMIT: usize = 64;

/// The customers that a server serves, in the text's order, and the manager's token. Over the whole
/// site no customer, issuer, seat or token comes twice, and no address lies in two pools.
#[derive(Drop)]
pub struct Site {
    customers: Vec<Customer>,
    manager: Option<Digest>,
}

impl Model for Site {
    ghost use Rattle.site_core.specs.Section.{SiteValue};
    ghost use Rattle.site_core.specs.Site.{IsSite};

    ghost Value = { SiteValue };

    ghost view = { λ s. record { customers = s.customers.items; manager = s.manager } };

    ghost invariant = { λ s. IsSite (record { customers = s.customers.items; manager = s.manager }) };
}

/// A seat of a customer of a site, by its place.
#[derive(Clone, Copy)]
pub struct SeatCaller {
    customer: usize,
    seat: usize,
}

/// Who sent a request, as the site that told it knows.
#[derive(Clone, Copy)]
pub enum Caller {
    /// A seat of a customer.
    Seat(SeatCaller),
    /// The manager of the site, who belongs to no customer.
    Manager,
}

impl Site {
    /// The site of these customers and this manager.
    pub(crate) fn new(customers: Vec<Customer>, manager: Option<Digest>) -> Site
        requires { IsSite (record { customers = customers.items; manager = manager }) }
        ensures { result ≡ record { customers = customers.items; manager = manager } }
    {
        Site { customers, manager }
    }

    /// The customers, in the text's order.
    pub fn customers(&self) -> &[Customer]
        ensures same { result.now ≡ self.now.customers }
        ensures site { IsSite self.now }
    {
        self.customers.as_slice()
    }

    /// A fact: the rules of sites hold. Nothing happens.
    pub fn fact_rules(&self)
        ensures { IsSite self.now }
    {
        let _customers = &self.customers;
    }

    /// Whether there is a manager.
    pub fn has_manager(&self) -> bool
        ensures { result ≡ is_some self.now.manager }
    {
        self.manager.is_some()
    }

    /// The SHA-256 of the manager's token.
    fn manager(&self) -> Option<Digest>
        ensures { result ≡ self.now.manager }
    {
        self.manager
    }

    /// The caller whose token this is: the seat whose token has the same SHA-256, or the manager if
    /// the manager's has. It takes no memory.
    pub fn who(&self, token: &[u8]) -> Option<Caller>
        ensures value { result ≡ caller_of self.now token.now }
        ensures is_one { IfSome result (IsCaller self.now) }

        // The caller holds the token, and where there is none nobody does.
        ensures holder { IfSome result (HoldsToken (sha256 token.now) self.now) }
        ensures known { is_some result ≡ list_any (bytes_eq (sha256 token.now))
            (tokens_of self.now) }
    {
        let digest = Digest::of(token);
        match seat_caller_with(self.customers.as_slice(), &digest) {
            Some(caller) => Some(Caller::Seat(caller)),
            None => manager_with(self.manager, &digest),
        }
    }

    /// The customer of a seat.
    pub fn customer(&self, caller: SeatCaller) -> &Customer
        requires { IsSeatCaller self.now caller }
        ensures same { result.now ≡ section_at self.now caller }
        ensures site { IsSite self.now }
    {
        &self.customers[caller.customer]
    }

    /// The name of a seat.
    pub fn seat(&self, caller: SeatCaller) -> Name
        requires { IsSeatCaller self.now caller }
        ensures { result ≡ seat_name_at self.now caller }
    {
        self.customer(caller).seats()[caller.seat].name()
    }

    /// Whether the new site grew from this one: each customer keeps the name, the issuers, the seats
    /// with their tokens, and the pools in front of any others; and the manager, where there is one,
    /// keeps the token. A site is a growth of itself. It takes no memory.
    pub fn is_growth(&self, new: &Site) -> bool
        ensures { IsTrue result ↔ IsGrowth self.now new.now }
    {
        are_kept(self.customers(), new.customers()) && keeps_manager(self.manager(), new.manager())
    }
}

/// The seat whose token has this SHA-256.
fn seat_caller_with(customers: &[Customer], digest: &Digest) -> Option<SeatCaller>
    ensures value { result ≡ seat_caller_with digest.now customers.now }
    ensures within { IfSome result (λ caller. caller.customer < length customers.now) }
    ensures seat_within { IfSome result (λ caller.
        caller.seat < length (section_in customers.now caller.customer).seats) }
{
    let customer = customer_with(customers, digest)?;
    let seat = customers[customer].seat_with(digest)?;
    Some(SeatCaller { customer, seat })
}

/// The place of the first customer that has such a seat.
fn customer_with(customers: &[Customer], digest: &Digest) -> Option<usize>
    ensures value { result ≡ position (has_seat_with digest.now) customers.now }
    ensures within { IfSome result (λ place. place < length customers.now) }
{
    customers
        .iter()
        .position(|customer| customer.has_seat_with(digest))
}

/// The manager, where this is the SHA-256 of the manager's token.
fn manager_with(manager: Option<Digest>, digest: &Digest) -> Option<Caller>
    ensures { result ≡ manager_with digest.now manager }
{
    if manager? == *digest {
        Some(Caller::Manager)
    } else {
        None
    }
}
