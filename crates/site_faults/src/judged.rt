// The first place at which a site's parts don't fit together.
ghost use Rattle.std.specs.Prelude.{◌≡◌, IfOk, flat_map, map, position};
ghost use Rattle.site_core.specs.Prelude.{is_bad_pool, is_section_over};
ghost use Rattle.site_faults.specs.Prelude.{breach_at, customer_at, is_over, item_count, limit_breach, over_at, over_item, part_at};
ghost use Rattle.site_faults.specs.Prelude.{repeat_breach, site_breach, tokens_in_order};

use crate::breach::SiteBreach;
use crate::double::{digest_again, name_again, pool_again};
use crate::entries::{CustomerEntry, PoolEntry, SiteEntries};
use crate::item::Item;
use crate::place::{SitePlace, Title};
use crate::rule::SiteRule;
use id_ranges::MacPool;
use site_core::{CUSTOMER_LIMIT, Seat, SiteFault};
use std::alloc::{AllocError, Global};
use text_core::{Digest, Name};

/// The first place of a site's parts that has a fault.
pub(crate) fn site_breach(
    alloc: Global,
    fault: SiteFault,
    site: &SiteEntries,
) -> Result<Option<SiteBreach>, AllocError>
    ensures { IfOk result (λ breach. breach ≡ site_breach fault site.now) }
{
    let customers = site.customers.as_slice();
    match fault {
        SiteFault::Repeated => repeat_breach(alloc, site),
        SiteFault::PoolsMeet => {
            let pools = all_pools(alloc, customers)?;
            let found = pool_again(pools.as_slice());
            Ok(breach_at(
                Item::Pool,
                SitePlace::Whole,
                SiteRule::Apart,
                customers,
                found,
            ))
        }
        SiteFault::BadPool => {
            let pools = all_pools(alloc, customers)?;
            let found = bad_pool(pools.as_slice());
            Ok(breach_at(
                Item::Pool,
                SitePlace::Whole,
                SiteRule::Individual,
                customers,
                found,
            ))
        }
        _ => Ok(limit_breach(customers)),
    }
}

/// The first name or token that is there already: a customer's, an issuer, a seat's, a token.
fn repeat_breach(alloc: Global, site: &SiteEntries) -> Result<Option<SiteBreach>, AllocError>
    ensures { IfOk result (λ breach. breach ≡ repeat_breach site.now) }
{
    let customers = site.customers.as_slice();
    let once = SiteRule::OnceNamed;
    let names = customer_names(alloc, customers)?;
    if let Some(place) = name_again(alloc, names.as_slice())? {
        return Ok(Some(SiteBreach {
            place: customer_at(place, customers),
            rule: once,
        }));
    }
    let issuers = all_issuers(alloc, customers)?;
    if let Some(place) = name_again(alloc, issuers.as_slice())? {
        return Ok(Some(SiteBreach {
            place: part_at(Item::Issuer, SitePlace::Whole, place, customers),
            rule: once,
        }));
    }
    let seats = all_seats(alloc, customers)?;
    let seat_names = seat_names(alloc, seats.as_slice())?;
    if let Some(place) = name_again(alloc, seat_names.as_slice())? {
        return Ok(Some(SiteBreach {
            place: part_at(Item::Seat, SitePlace::Whole, place, customers),
            rule: once,
        }));
    }
    let tokens = all_tokens(alloc, seats.as_slice(), site.manager)?;
    let found = digest_again(alloc, tokens.as_slice())?;
    Ok(breach_at(
        Item::Seat,
        SitePlace::Manager,
        SiteRule::OnceHeld,
        customers,
        found,
    ))
}

fn customer_at(place: usize, customers: &[CustomerEntry]) -> SitePlace
    ensures { result ≡ customer_at place customers.now }
{
    match customers.get(place) {
        Some(customer) => SitePlace::Customer(Title::Named(customer.name)),
        None => SitePlace::Whole,
    }
}

/// The breach at a part that was found.
fn breach_at(
    item: Item,
    last: SitePlace,
    rule: SiteRule,
    customers: &[CustomerEntry],
    found: Option<usize>,
) -> Option<SiteBreach>
    ensures { result ≡ breach_at item last rule customers.now found }
{
    match found {
        Some(place) => Some(SiteBreach {
            place: part_at(item, last, place, customers),
            rule,
        }),
        None => None,
    }
}

/// Where a part of a kind is, by its place among those of all customers.
fn part_at(item: Item, last: SitePlace, place: usize, customers: &[CustomerEntry]) -> SitePlace
    ensures { result ≡ part_at item last place customers.now }
{
    let mut rest = place;
    for customer in customers {
        let count = item_count(item, customer);
        if rest < count {
            return SitePlace::Part(Title::Named(customer.name), item, rest + 1);
        }
        rest -= count;
    }
    last
}

fn item_count(item: Item, customer: &CustomerEntry) -> usize
    ensures { result ≡ item_count item customer.now }
{
    match item {
        Item::Issuer => customer.issuers.len(),
        Item::Pool => customer.pools.len(),
        Item::Seat => customer.seats.len(),
    }
}

fn customer_names(alloc: Global, customers: &[CustomerEntry]) -> Result<Vec<Name>, AllocError>
    ensures { IfOk result (λ names. names.items ≡ map (λ s. s.name) customers.now) }
{
    customers
        .iter()
        .map(|customer| customer.name)
        .collect(alloc)
}

fn all_issuers(alloc: Global, customers: &[CustomerEntry]) -> Result<Vec<Name>, AllocError>
    ensures { IfOk result (λ issuers. issuers.items ≡ flat_map (λ s. s.issuers) customers.now) }
{
    let mut issuers = Vec::new(alloc);
    for customer in customers {
        issuers.extend_from_slice(customer.issuers.as_slice())?;
    }
    Ok(issuers)
}

fn all_pools(alloc: Global, customers: &[CustomerEntry]) -> Result<Vec<PoolEntry>, AllocError>
    ensures { IfOk result (λ pools. pools.items ≡ flat_map (λ s. s.pools) customers.now) }
{
    let mut pools = Vec::new(alloc);
    for customer in customers {
        pools.extend_from_slice(customer.pools.as_slice())?;
    }
    Ok(pools)
}

fn all_seats(alloc: Global, customers: &[CustomerEntry]) -> Result<Vec<Seat>, AllocError>
    ensures { IfOk result (λ seats. seats.items ≡ flat_map (λ s. s.seats) customers.now) }
{
    let mut seats = Vec::new(alloc);
    for customer in customers {
        seats.extend_from_slice(customer.seats.as_slice())?;
    }
    Ok(seats)
}

fn seat_names(alloc: Global, seats: &[Seat]) -> Result<Vec<Name>, AllocError>
    ensures { IfOk result (λ names. names.items ≡ map (λ seat. seat.name) seats.now) }
{
    seats.iter().map(|seat| seat.name()).collect(alloc)
}

/// The digests of the seats' tokens, and then of the manager's, if there is a manager.
fn all_tokens(
    alloc: Global,
    seats: &[Seat],
    manager: Option<Digest>,
) -> Result<Vec<Digest>, AllocError>
    ensures { IfOk result (λ tokens. tokens.items ≡ tokens_in_order seats.now manager) }
{
    let Some(token) = manager else {
        return seat_tokens(alloc, seats);
    };
    let mut tokens = seat_tokens(alloc, seats)?;
    tokens.push(token)?;
    Ok(tokens)
}

fn seat_tokens(alloc: Global, seats: &[Seat]) -> Result<Vec<Digest>, AllocError>
    ensures { IfOk result (λ tokens. tokens.items ≡ map (λ seat. seat.token) seats.now) }
{
    seats.iter().map(|seat| seat.token()).collect(alloc)
}

/// The place of the first pool with an address that no device can have.
fn bad_pool(pools: &[PoolEntry]) -> Option<usize>
    ensures { result ≡ position is_bad_pool pools.now }
{
    pools.iter().position(|pool| is_bad_pool(pool))
}

fn is_bad_pool(pool: &PoolEntry) -> bool
    ensures { result ≡ is_bad_pool pool.now }
{
    MacPool::new(pool.first, pool.count).is_none()
}

/// Too many customers, or the first one that has too many parts of a kind.
fn limit_breach(customers: &[CustomerEntry]) -> Option<SiteBreach>
    ensures { result ≡ limit_breach customers.now }
{
    if CUSTOMER_LIMIT < customers.len() {
        return Some(SiteBreach {
            place: SitePlace::Customers,
            rule: SiteRule::CustomerLimit,
        });
    }
    match first_over(customers) {
        Some(place) => over_at(customers, place),
        None => None,
    }
}

/// The place of the first customer that has too many parts of a kind.
fn first_over(customers: &[CustomerEntry]) -> Option<usize>
    ensures { result ≡ position is_section_over customers.now }
{
    customers
        .iter()
        .position(|customer| is_section_over(customer))
}

/// The breach of the customer at a place, which has too many parts of a kind.
fn over_at(customers: &[CustomerEntry], place: usize) -> Option<SiteBreach>
    ensures { result ≡ over_at customers.now place }
{
    match customers.get(place) {
        Some(customer) => Some(SiteBreach {
            place: SitePlace::Customer(Title::Named(customer.name)),
            rule: SiteRule::ItemLimit(over_item(customer)),
        }),
        None => None,
    }
}

fn is_section_over(customer: &CustomerEntry) -> bool
    ensures { result ≡ is_section_over customer.now }
{
    is_over(Item::Seat, customer)
        || is_over(Item::Issuer, customer)
        || is_over(Item::Pool, customer)
}

fn is_over(item: Item, customer: &CustomerEntry) -> bool
    ensures { result ≡ is_over item customer.now }
{
    item.limit() < item_count(item, customer)
}

/// The kind of which a customer has too many.
fn over_item(customer: &CustomerEntry) -> Item
    ensures { result ≡ over_item customer.now }
{
    if is_over(Item::Seat, customer) {
        Item::Seat
    } else if is_over(Item::Issuer, customer) {
        Item::Issuer
    } else {
        Item::Pool
    }
}
