// The text of a site.
ghost use Rattle.std.specs.Prelude.{◌≡◌, ◌≢◌, ◌<◌, IfErr, IfOk, length, map, ok_or};
ghost use Rattle.toml.specs.View.{view};
ghost use Rattle.text_core.specs.Prelude.{all_of, GivesUnless, result_map};
ghost use Rattle.site_core.specs.Prelude.{SiteValue, IsLowestSiteFault, HasSiteMembers, IsSiteText, customer_in, manager_in, pool_in, seat_of_data, site_of};
ghost use Rattle.site_core.specs.Prelude.{site_text_limit};
ghost use Rattle.site_core.specs.Prelude.{site_read};

use crate::customer::Seat;
use crate::draft::{CustomerDraft, PoolDraft, SiteDraft};
use crate::fault::SiteFault::{self, BadMember};
use crate::judge::judged_site;
use crate::site::Site;
use id_ranges::{LARGEST_POOL, Mac};
use members::in_toml::{
    digest_member, items_member, name_member, optional_items, read_document, read_name,
    text_member, whole_member,
};
use members::read_all;
use std::alloc::Global;
use text_core::Digest;
use toml::Value;

/// The most bytes of a site's text: 2^20.
pub const TEXT_LIMIT: usize = 1048576;

/// Reads the site that a text is, or gives the lowest of its faults.
/// `SiteFault::OutOfMemory` where memory ran out, whatever the text up to its limit.
///
/// The text is a TOML document with these members; others are ignored:
///
/// - an array of tables `customer`, each with its `name` and an array of names `issuer`;
/// - a table `manager` with a `token`, where there is a manager.
///
/// Where a customer has them, its table also has these:
///
/// - an array of tables `pool`, each with `first`, twelve lowercase hexadecimal digits, and `count`,
///   1 to 16777216;
/// - an array of tables `seat`, each with its `name` and `token`, the SHA-256 of the bearer token in
///   hexadecimal digits.
pub fn read_site(alloc: Global, text: &str) -> Result<Site, SiteFault>
    ensures exact { GivesUnless SiteFault.OutOfMemory result (site_read text.now) }
    ensures valid { IfOk result (IsSiteText text.now) }

    // The fault of a text with all its members is that of a broken rule, and no lower rule is broken.
    ensures lowest { IfErr result (λ fault. fault ≢ SiteFault.OutOfMemory
        → (site : SiteValue) → HasSiteMembers text.now site → IsLowestSiteFault fault site) }

    // No site is the text's where a fault other than want of memory is told.
    ensures refused { IfErr result (λ fault. fault ≢ SiteFault.OutOfMemory
        → (site : SiteValue) → ¬ IsSiteText text.now site) }

    // A text over its limit is told its fault, and never want of memory.
    ensures too_long { site_text_limit < length text.now → result ≡ Err SiteFault.OverLimit }
{
    if TEXT_LIMIT < text.len() {
        return Err(SiteFault::OverLimit);
    }
    let document = read_document(alloc, text)?;
    let draft = read_draft(alloc, &document)?;
    judged_site(alloc, draft)
}

/// What a document gives as a site, whether or not its parts fit together.
#[tactic(auto, unfolding(crate::specs::SiteText::site_of))]
fn read_draft(alloc: Global, document: &Value) -> Result<SiteDraft, SiteFault>
    ensures { GivesUnless SiteFault.OutOfMemory result
        (ok_or (site_of (view document.now)) SiteFault.BadMember) }
{
    let items = items_member(document, "customer").ok_or(BadMember)?;
    let customers = read_customers(alloc, items)?;
    let manager = read_manager(document).ok_or(BadMember)?;
    Ok(SiteDraft { customers, manager })
}

/// The digest of the manager's token, or none where the document names no manager.
fn read_manager(document: &Value) -> Option<Option<Digest>>
    ensures { result ≡ manager_in (view document.now) }
{
    match document.get("manager") {
        Some(manager) => Some(Some(digest_member(manager, "token")?)),
        None => Some(None),
    }
}

/// The customers, if each value is one.
fn read_customers(alloc: Global, values: &[Value]) -> Result<Vec<CustomerDraft>, SiteFault>
    ensures { GivesUnless SiteFault.OutOfMemory (result_map (λ all. all.items) result)
        (ok_or (all_of customer_in (map view values.now)) SiteFault.BadMember) }
{
    let mut customers = Vec::new(alloc);
    for value in values {
        let customer = read_customer(alloc, value)?;
        customers.push(customer)?;
    }
    Ok(customers)
}

#[tactic(auto, unfolding(crate::specs::SiteText::customer_in))]
fn read_customer(alloc: Global, value: &Value) -> Result<CustomerDraft, SiteFault>
    ensures { GivesUnless SiteFault.OutOfMemory result
        (ok_or (customer_in (view value.now)) SiteFault.BadMember) }
{
    let name = name_member(value, "name").ok_or(BadMember)?;
    let issuer_items = items_member(value, "issuer").ok_or(BadMember)?;
    let issuers = read_all(alloc, issuer_items, read_name)?.ok_or(BadMember)?;
    let pool_items = optional_items(value, "pool").ok_or(BadMember)?;
    let pools = read_all(alloc, pool_items, read_pool)?.ok_or(BadMember)?;
    let seat_items = optional_items(value, "seat").ok_or(BadMember)?;
    let seats = read_all(alloc, seat_items, read_seat)?.ok_or(BadMember)?;
    Ok(CustomerDraft {
        name,
        issuers,
        pools,
        seats,
    })
}

#[tactic(auto, unfolding(crate::specs::SiteText::pool_in))]
fn read_pool(value: &Value) -> Option<PoolDraft>
    ensures { result ≡ pool_in (view value.now) }
{
    let first = Mac::parse(text_member(value, "first")?)?;
    let count = whole_member(value, "count", 1, LARGEST_POOL)?;
    Some(PoolDraft { first, count })
}

#[tactic(auto, unfolding(crate::specs::SiteText::seat_of_data))]
fn read_seat(value: &Value) -> Option<Seat>
    ensures { result ≡ seat_of_data (view value.now) }
{
    let name = name_member(value, "name")?;
    let token = digest_member(value, "token")?;
    Some(Seat::new(name, token))
}
