// The lowest fault of a draft, or the site that it is.
ghost use Rattle.std.specs.Prelude.{◌≡◌, ◌||◌, IfOk, bytes_eq, length, nat_lt, map, if◌then◌else◌, flat_map};
ghost use Rattle.std.specs.Ordering.{eq_by_cmp};
ghost use Rattle.std.specs.List.{list_any};
ghost use Rattle.text_core.specs.Prelude.{GivesUnless, result_map};
ghost use Rattle.site_core.specs.Prelude.{with_token, is_section_over, has_pair, has_repeat, is_bad_pool, has_bad_pool, site_or_fault};
ghost use Rattle.site_core.specs.Site as site;

use crate::customer::{Customer, ISSUER_LIMIT, POOL_LIMIT, SEAT_LIMIT, Seat};
use crate::draft::{CustomerDraft, PoolDraft, SiteDraft};
use crate::fault::SiteFault;
use crate::site::{CUSTOMER_LIMIT, Site};
use id_ranges::MacPool;
use std::alloc::{AllocError, Global};
use std::collections::BTreeSet;
use text_core::{Digest, Name};

/// The site of a draft, or the lowest fault of how its parts fit together.
pub(crate) fn judged_site(alloc: Global, draft: SiteDraft) -> Result<Site, SiteFault>
    ensures { GivesUnless SiteFault.OutOfMemory result (site_or_fault draft) }
{
    if has_repeat(alloc, &draft)? {
        return Err(SiteFault::Repeated);
    }
    if have_meeting_pools(all_pools(alloc, draft.customers.as_slice())?.as_slice()) {
        return Err(SiteFault::PoolsMeet);
    }
    let manager = draft.manager;
    let customers = make_customers(alloc, draft.customers)?;
    if is_over_limit(customers.as_slice()) {
        return Err(SiteFault::OverLimit);
    }
    Ok(Site::new(customers, manager))
}

/// Whether a customer, an issuer, a seat or a token comes twice over the whole site.
fn has_repeat(alloc: Global, draft: &SiteDraft) -> Result<bool, AllocError>
    ensures { IfOk result (λ found. found ≡ has_repeat draft.now) }
{
    let names = customer_names(alloc, draft.customers.as_slice())?;
    if name_comes_twice(alloc, names.as_slice())? {
        return Ok(true);
    }
    let issuers = all_issuers(alloc, draft.customers.as_slice())?;
    if name_comes_twice(alloc, issuers.as_slice())? {
        return Ok(true);
    }
    let seats = all_seats(alloc, draft.customers.as_slice())?;
    let seat_names = seat_names(alloc, seats.as_slice())?;
    if name_comes_twice(alloc, seat_names.as_slice())? {
        return Ok(true);
    }
    let tokens = all_tokens(alloc, draft.manager, seats.as_slice())?;
    digest_comes_twice(alloc, tokens.as_slice())
}

fn name_comes_twice(alloc: Global, names: &[Name]) -> Result<bool, AllocError>
    ensures { IfOk result (λ found. found ≡ has_pair bytes_eq names.now) }
{
    comes_twice(alloc, names)
}

fn digest_comes_twice(alloc: Global, digests: &[Digest]) -> Result<bool, AllocError>
    ensures { IfOk result (λ found. found ≡ has_pair bytes_eq digests.now) }
{
    comes_twice(alloc, digests)
}

/// Whether an item comes twice: then fewer of them are distinct than there are.
fn comes_twice<T: Ord + Copy>(alloc: Global, items: &[T]) -> Result<bool, AllocError>
    ensures { IfOk result (λ found. found ≡ has_pair (eq_by_cmp T.cmp) items.now) }
{
    let distinct: BTreeSet<T> = items.iter().copied().collect(alloc)?;
    Ok(distinct.len() < items.len())
}

fn customer_names(alloc: Global, customers: &[CustomerDraft]) -> Result<Vec<Name>, AllocError>
    ensures { IfOk result (λ names. names.items ≡ map (λ s. s.name) customers.now) }
{
    customers
        .iter()
        .map(|customer| customer.name)
        .collect(alloc)
}

fn all_issuers(alloc: Global, customers: &[CustomerDraft]) -> Result<Vec<Name>, AllocError>
    ensures { IfOk result (λ issuers. issuers.items ≡ flat_map (λ s. s.issuers) customers.now) }
{
    let mut issuers = Vec::new(alloc);
    for customer in customers {
        issuers.extend_from_slice(customer.issuers.as_slice())?;
    }
    Ok(issuers)
}

fn all_pools(alloc: Global, customers: &[CustomerDraft]) -> Result<Vec<PoolDraft>, AllocError>
    ensures { IfOk result (λ pools. pools.items ≡ flat_map (λ s. s.pools) customers.now) }
{
    let mut pools = Vec::new(alloc);
    for customer in customers {
        pools.extend_from_slice(customer.pools.as_slice())?;
    }
    Ok(pools)
}

fn all_seats(alloc: Global, customers: &[CustomerDraft]) -> Result<Vec<Seat>, AllocError>
    ensures { IfOk result (λ seats. seats.items ≡ flat_map (λ s. s.seats) customers.now) }
{
    let mut seats = Vec::new(alloc);
    for customer in customers {
        seats.extend_from_slice(customer.seats.as_slice())?;
    }
    Ok(seats)
}

fn seat_names(alloc: Global, seats: &[Seat]) -> Result<Vec<Name>, AllocError>
    ensures { IfOk result (λ names. names.items ≡ map (λ seat. seat.name) seats.now) }
{
    seats.iter().map(|seat| seat.name()).collect(alloc)
}

/// The digests of the manager's token, if there is a manager, and of the seats' tokens.
fn all_tokens(
    alloc: Global,
    manager: Option<Digest>,
    seats: &[Seat],
) -> Result<Vec<Digest>, AllocError>
    ensures { IfOk result (λ tokens. tokens.items
        ≡ with_token manager (map (λ seat. seat.token) seats.now)) }
{
    let mut tokens = Vec::new(alloc);
    if let Some(token) = manager {
        tokens.push(token)?;
    }
    for seat in seats {
        tokens.push(seat.token())?;
    }
    Ok(tokens)
}

/// Whether two of the pools have an address in common.
fn have_meeting_pools(pools: &[PoolDraft]) -> bool
    ensures { result ≡ has_pair site.pools_meet pools.now }
{
    for (index, pool) in pools.iter().enumerate() {
        if meets_one_of(pool, &pools[index + 1..]) {
            return true;
        }
    }
    false
}

fn meets_one_of(pool: &PoolDraft, others: &[PoolDraft]) -> bool
    ensures { result ≡ list_any (site.pools_meet pool.now) others.now }
{
    others.iter().any(|other| pools_meet(pool, other))
}

/// Whether two pools have an address in common.
fn pools_meet(one: &PoolDraft, other: &PoolDraft) -> bool
    ensures { result ≡ site.pools_meet one.now other.now }
{
    let first = one.first.value();
    let other_first = other.first.value();
    first < other_first + other.count && other_first < first + one.count
}

/// The customers of these drafts. `SiteFault::BadPool` where one of them has a pool with an address
/// that no device can have.
fn make_customers(alloc: Global, drafts: Vec<CustomerDraft>) -> Result<Vec<Customer>, SiteFault>
    ensures { GivesUnless SiteFault.OutOfMemory (result_map (λ customers. customers.items) result)
        (if has_bad_pool drafts.items then Err SiteFault.BadPool else Ok drafts.items) }
{
    let mut customers = Vec::new(alloc);
    for draft in drafts {
        customers.push(make_customer(alloc, draft)?)?;
    }
    Ok(customers)
}

fn make_customer(alloc: Global, draft: CustomerDraft) -> Result<Customer, SiteFault>
    ensures { GivesUnless SiteFault.OutOfMemory result
        (if list_any is_bad_pool draft.pools then Err SiteFault.BadPool else Ok draft) }
{
    let pools = make_pools(alloc, draft.pools.as_slice())?;
    Ok(Customer::new(draft.name, draft.issuers, pools, draft.seats))
}

fn make_pools(alloc: Global, drafts: &[PoolDraft]) -> Result<Vec<MacPool>, SiteFault>
    ensures { GivesUnless SiteFault.OutOfMemory (result_map (λ pools. pools.items) result)
        (if list_any is_bad_pool drafts.now then Err SiteFault.BadPool else Ok drafts.now) }
{
    let mut pools = Vec::new(alloc);
    for draft in drafts {
        let pool = MacPool::new(draft.first, draft.count).ok_or(SiteFault::BadPool)?;
        pools.push(pool)?;
    }
    Ok(pools)
}

fn is_over_limit(customers: &[Customer]) -> bool
    ensures { result ≡ (nat_lt 64 (length customers.now)
        || list_any is_section_over customers.now) }
{
    CUSTOMER_LIMIT < customers.len() || some_is_over(customers)
}

fn some_is_over(customers: &[Customer]) -> bool
    ensures { result ≡ list_any is_section_over customers.now }
{
    customers.iter().any(|customer| is_customer_over(customer))
}

fn is_customer_over(customer: &Customer) -> bool
    ensures { result ≡ is_section_over customer.now }
{
    SEAT_LIMIT < customer.seats().len()
        || ISSUER_LIMIT < customer.issuers().len()
        || POOL_LIMIT < customer.pools().len()
}
