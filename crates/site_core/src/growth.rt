// What a site that grew keeps of the old one.
ghost use Rattle.std.specs.Prelude.{◌≡◌, ◌↔◌, IfSome, IsTrue, Some, bytes_eq};
ghost use Rattle.std.specs.List.{list_all, list_any, starts_with};
ghost use Rattle.site_core.specs.Growth as growth;
ghost use Rattle.site_core.specs.Prelude.{are_kept, is_same_pool, is_same_seat, keeps};

use crate::customer::Customer;
use id_ranges::MacPool;
use text_core::Digest;

/// Whether each customer is kept by one of the new ones.
pub(crate) fn are_kept(old: &[Customer], new: &[Customer]) -> bool
    ensures { result ≡ are_kept old.now new.now }
{
    old.iter().all(|customer| is_kept(customer, new))
}

fn is_kept(old: &Customer, customers: &[Customer]) -> bool
    ensures { result ≡ list_any (keeps old.now) customers.now }
{
    customers
        .iter()
        .any(|customer| keeps_section(old, customer))
}

/// Whether the customer keeps the name, the issuers, the seats with their tokens, and the pools in
/// front of any others.
fn keeps_section(old: &Customer, new: &Customer) -> bool
    ensures { result ≡ keeps old.now new.now }
{
    old.name() == new.name()
        && keeps_issuers(old, new)
        && keeps_seats(old, new)
        && begins_with(new.pools(), old.pools())
}

fn keeps_issuers(old: &Customer, new: &Customer) -> bool
    ensures { result
        ≡ list_all (λ issuer. list_any (bytes_eq issuer) new.now.issuers) old.now.issuers }
{
    old.issuers().iter().all(|issuer| new.has_issuer(issuer))
}

fn keeps_seats(old: &Customer, new: &Customer) -> bool
    ensures { result ≡ list_all (λ seat. list_any (is_same_seat seat) new.now.seats) old.now.seats }
{
    old.seats().iter().all(|seat| new.has_seat(seat))
}

/// Whether the pools begin with these.
fn begins_with(pools: &[MacPool], front: &[MacPool]) -> bool
    ensures { result ≡ starts_with is_same_pool pools.now front.now }
{
    if pools.len() < front.len() {
        return false;
    }
    front
        .iter()
        .zip(&pools[..front.len()])
        .all(|(pool, other)| is_same_pool(pool, other))
}

fn is_same_pool(pool: &MacPool, other: &MacPool) -> bool
    ensures { result ≡ growth.is_same_pool pool.now other.now }
{
    pool.first() == other.first() && pool.count() == other.count()
}

/// Whether the manager's token, where there was one, is still the manager's.
pub(crate) fn keeps_manager(old: Option<Digest>, new: Option<Digest>) -> bool
    ensures { IsTrue result ↔ IfSome old (λ token. new ≡ Some token) }
{
    match old {
        Some(token) => match new {
            Some(other) => token == other,
            None => false,
        },
        None => true,
    }
}
