// The parts of a site as its text has them, whether or not they fit together.
ghost use Rattle.std.specs.Prelude.{◌≡◌, map, ok_or};
ghost use Rattle.toml.specs.View.{view};
ghost use Rattle.text_core.specs.Prelude.{all_of, GivesUnless, result_map};
ghost use Rattle.site_core.specs.Prelude.{customer_in, manager_in, pool_in, seat_of_data, site_of};

use id_ranges::{LARGEST_POOL, Mac};
use members::in_toml::{
    digest_member, items_member, name_member, optional_items, read_name, text_member, whole_member,
};
use members::read_all;
use site_core::Seat;
use site_core::SiteFault::{self, BadMember};
use std::alloc::Global;
use std::marker::Model;
use text_core::{Digest, Name};
use toml::Value;

/// A pool as a text gives it: its first address, and how many addresses there are, 1 to 2^24.
#[derive(Clone, Copy)]
pub(crate) struct PoolEntry {
    pub(crate) first: Mac,
    pub(crate) count: u64,
}

impl Model for PoolEntry {
    ghost use Rattle.std.specs.Prelude.{◌≤◌};
    ghost use Rattle.id_ranges.specs.Prelude.{Pool};

    ghost Value = { Pool };

    ghost view = { λ p. record { first = p.first; count = p.count } };

    ghost invariant = { λ p. (1 ≤ p.count) × (p.count ≤ 16777216) };

    ghost inverse = { λ p. record { first = p.first; count = p.count } };
}

/// A customer as a text gives it.
#[derive(Drop)]
pub(crate) struct CustomerEntry {
    pub(crate) name: Name,
    pub(crate) issuers: Vec<Name>,
    pub(crate) pools: Vec<PoolEntry>,
    pub(crate) seats: Vec<Seat>,
}

impl Model for CustomerEntry {
    ghost use Rattle.site_core.specs.Section.{Section};

    ghost Value = { Section };

    ghost view = { λ c. record {
      name = c.name;
      issuers = c.issuers.items;
      pools = c.pools.items;
      seats = c.seats.items;
    } };
}

/// The parts of a site as a text gives them.
#[derive(Drop)]
pub(crate) struct SiteEntries {
    pub(crate) customers: Vec<CustomerEntry>,
    pub(crate) manager: Option<Digest>,
}

impl Model for SiteEntries {
    ghost use Rattle.site_core.specs.Section.{SiteValue};

    ghost Value = { SiteValue };

    ghost view = { λ s. record { customers = s.customers.items; manager = s.manager } };
}

/// The parts that a document has.
///
/// # Errors
///
/// `BadMember` where a member is missing, or not of its type or range; `OutOfMemory`.
#[tactic(auto, unfolding(site_core::specs::SiteText::site_of))]
pub(crate) fn read_entries(alloc: Global, document: &Value) -> Result<SiteEntries, SiteFault>
    ensures { GivesUnless SiteFault.OutOfMemory result
        (ok_or (site_of (view document.now)) SiteFault.BadMember) }
{
    let items = items_member(document, "customer").ok_or(BadMember)?;
    let customers = read_customers(alloc, items)?;
    let manager = read_manager(document).ok_or(BadMember)?;
    Ok(SiteEntries { customers, manager })
}

/// The digest of the manager's token, or none where the document names no manager.
fn read_manager(document: &Value) -> Option<Option<Digest>>
    ensures { result ≡ manager_in (view document.now) }
{
    match document.get("manager") {
        Some(manager) => Some(Some(digest_member(manager, "token")?)),
        None => Some(None),
    }
}

/// The customers, if each value is one.
fn read_customers(alloc: Global, values: &[Value]) -> Result<Vec<CustomerEntry>, SiteFault>
    ensures { GivesUnless SiteFault.OutOfMemory (result_map (λ all. all.items) result)
        (ok_or (all_of customer_in (map view values.now)) SiteFault.BadMember) }
{
    let mut customers = Vec::new(alloc);
    for value in values {
        let customer = read_customer(alloc, value)?;
        customers.push(customer)?;
    }
    Ok(customers)
}

#[tactic(auto, unfolding(site_core::specs::SiteText::customer_in))]
fn read_customer(alloc: Global, value: &Value) -> Result<CustomerEntry, SiteFault>
    ensures { GivesUnless SiteFault.OutOfMemory result
        (ok_or (customer_in (view value.now)) SiteFault.BadMember) }
{
    let name = name_member(value, "name").ok_or(BadMember)?;
    let issuer_items = items_member(value, "issuer").ok_or(BadMember)?;
    let issuers = read_all(alloc, issuer_items, read_name)?.ok_or(BadMember)?;
    let pool_items = optional_items(value, "pool").ok_or(BadMember)?;
    let pools = read_all(alloc, pool_items, read_pool)?.ok_or(BadMember)?;
    let seat_items = optional_items(value, "seat").ok_or(BadMember)?;
    let seats = read_all(alloc, seat_items, read_seat)?.ok_or(BadMember)?;
    Ok(CustomerEntry {
        name,
        issuers,
        pools,
        seats,
    })
}

#[tactic(auto, unfolding(site_core::specs::SiteText::pool_in))]
fn read_pool(value: &Value) -> Option<PoolEntry>
    ensures { result ≡ pool_in (view value.now) }
{
    let first = Mac::parse(text_member(value, "first")?)?;
    let count = whole_member(value, "count", 1, LARGEST_POOL)?;
    Some(PoolEntry { first, count })
}

#[tactic(auto, unfolding(site_core::specs::SiteText::seat_of_data))]
fn read_seat(value: &Value) -> Option<Seat>
    ensures { result ≡ seat_of_data (view value.now) }
{
    let name = name_member(value, "name")?;
    let token = digest_member(value, "token")?;
    Some(Seat::new(name, token))
}
