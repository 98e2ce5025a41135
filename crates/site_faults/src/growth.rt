// The first part of a site that another one hasn't.
ghost use Rattle.std.specs.Prelude.{◌≡◌, ◌<◌, ◌^◌, IfSome, bytes_eq, not, position};
ghost use Rattle.std.specs.List.{list_any};
ghost use Rattle.site_core.specs.Prelude.{is_same_pool, is_same_seat};
ghost use Rattle.site_faults.specs.Prelude.{IsToldGrowth, customer_lost, customers_lost, first_lost, gone, lost_at, pool_changed, section_lost, part_lost};

use crate::breach::{SiteBreach, ToldBreach};
use crate::item::Item;
use crate::place::{SitePlace, Title};
use crate::rule::SiteRule;
use crate::told::ToldFault;
use id_ranges::MacPool;
use site_core::{Customer, Seat, Site};
use text_core::Name;

/// The new site, where it grew from the old one.
///
/// # Errors
///
/// `NoGrowth` with the first part of the old site that the new one hasn't.
pub fn grown_site(old: &Site, new: Site) -> Result<Site, ToldFault>
    ensures { IsToldGrowth old.now new result }
{
    if old.is_growth(&new) {
        Ok(new)
    } else {
        Err(ToldFault::NoGrowth(ToldBreach::of(first_lost(old, &new))))
    }
}

/// The first part of a site that another one hasn't: a customer's, else the manager's token. It says
/// nothing of a growth.
fn first_lost(old: &Site, new: &Site) -> SiteBreach
    ensures { result ≡ first_lost old.now new.now }
{
    match customers_lost(new.customers(), old.customers()) {
        Some(breach) => breach,
        None => SiteBreach {
            place: SitePlace::Manager,
            rule: SiteRule::Kept,
        },
    }
}

fn customers_lost(new: &[Customer], old: &[Customer]) -> Option<SiteBreach>
    ensures { result ≡ customers_lost new.now old.now }
{
    for customer in old {
        if let Some(breach) = customer_lost(new, customer) {
            return Some(breach);
        }
    }
    None
}

/// The first part of a customer that others haven't: the whole of it where none has its name.
fn customer_lost(new: &[Customer], old: &Customer) -> Option<SiteBreach>
    ensures { result ≡ customer_lost new.now old.now }
{
    match named_so(new, old.name()) {
        Some(place) => lost_at(new, old, place),
        None => Some(gone(old)),
    }
}

/// The place of the first customer of a name.
fn named_so(customers: &[Customer], name: Name) -> Option<usize>
    ensures { result ≡ position (λ s. bytes_eq name s.name) customers.now }
{
    customers
        .iter()
        .position(|customer| name == customer.name())
}

/// The first part of a customer that the one at a place hasn't.
fn lost_at(new: &[Customer], old: &Customer, place: usize) -> Option<SiteBreach>
    ensures { result ≡ lost_at new.now old.now place }
{
    match new.get(place) {
        Some(customer) => section_lost(old, customer),
        None => Some(gone(old)),
    }
}

/// A customer is gone.
fn gone(old: &Customer) -> SiteBreach
    ensures { result ≡ gone old.now }
{
    SiteBreach {
        place: SitePlace::Customer(Title::Named(old.name())),
        rule: SiteRule::Kept,
    }
}

/// The first part of a customer that another one of its name hasn't.
fn section_lost(old: &Customer, new: &Customer) -> Option<SiteBreach>
    ensures { result ≡ section_lost old.now new.now }
{
    let issuer = lost_issuer(old, new);
    if issuer.is_some() {
        return part_lost(old, Item::Issuer, issuer);
    }
    let seat = lost_seat(old, new);
    if seat.is_some() {
        return part_lost(old, Item::Seat, seat);
    }
    part_lost(old, Item::Pool, changed_pool(old.pools(), new.pools()))
}

/// The place of the first issuer of a customer that another one hasn't.
fn lost_issuer(old: &Customer, new: &Customer) -> Option<usize>
    ensures place { result ≡ position (λ issuer. not (list_any (bytes_eq issuer) new.now.issuers))
        old.now.issuers }
    ensures within { IfSome result (λ place. place < 2 ^ 63) }
{
    old.issuers()
        .iter()
        .position(|issuer| !new.has_issuer(issuer))
}

/// The place of the first seat of a customer that another one hasn't.
fn lost_seat(old: &Customer, new: &Customer) -> Option<usize>
    ensures place { result ≡ position (λ seat. not (list_any (is_same_seat seat) new.now.seats))
        old.now.seats }
    ensures within { IfSome result (λ place. place < 2 ^ 63) }
{
    old.seats().iter().position(|seat| !has_seat(new, seat))
}

/// The breach of a part that was found gone or changed.
fn part_lost(old: &Customer, item: Item, found: Option<usize>) -> Option<SiteBreach>
    requires { IfSome found (λ place. place < 2 ^ 63) }
    ensures { result ≡ part_lost old.now item found }
{
    match found {
        Some(place) => Some(SiteBreach {
            place: SitePlace::Part(Title::Named(old.name()), item, place + 1),
            rule: SiteRule::Kept,
        }),
        None => None,
    }
}

/// Whether a seat, with its token, is one of the customer's.
fn has_seat(customer: &Customer, seat: &Seat) -> bool
    ensures { result ≡ list_any (is_same_seat seat.now) customer.now.seats }
{
    customer.seats().iter().any(|own| is_same_seat(seat, own))
}

fn is_same_seat(seat: &Seat, other: &Seat) -> bool
    ensures { result ≡ is_same_seat seat.now other.now }
{
    seat.name() == other.name() && seat.token() == other.token()
}

/// The place of the first pool that isn't as it was.
fn changed_pool(old: &[MacPool], new: &[MacPool]) -> Option<usize>
    ensures place { result ≡ pool_changed 0 old.now new.now }
    ensures within { IfSome result (λ place. place < 2 ^ 63) }
{
    for (index, pool) in old.iter().enumerate() {
        match new.get(index) {
            Some(other) if is_same_pool(pool, other) => {}
            _ => return Some(index),
        }
    }
    None
}

fn is_same_pool(pool: &MacPool, other: &MacPool) -> bool
    ensures { result ≡ is_same_pool pool.now other.now }
{
    pool.first() == other.first() && pool.count() == other.count()
}
