// The first member of a site's text that is missing, or not of its type or range.
ghost use Rattle.std.specs.Prelude.{◌≡◌, codes, is_some, map, option_and_then, option_map};
ghost use Rattle.toml.specs.Data.{as_str, get};
ghost use Rattle.toml.specs.View.{view};
ghost use Rattle.members.specs.Prelude.{items_in, whole_within};
ghost use Rattle.id_ranges.specs.Prelude.{mac_of_text};
ghost use Rattle.site_faults.specs.Prelude.{broken_unless, customer_breach, customers_breach, item_rule, items_breach};
ghost use Rattle.site_faults.specs.Prelude.{kind_breach, members_breach, parts_breach, parts_in};

use crate::breach::SiteBreach;
use crate::item::Item;
use crate::place::{SitePlace, Title};
use crate::rule::SiteRule;
use id_ranges::{LARGEST_POOL, Mac};
use members::in_toml::{
    digest_member, items_member, name_member, optional_items, read_name, text_member, whole_member,
};
use toml::Value;

/// The first member of a document that isn't as it has to be: a customer's, else the manager's.
pub(crate) fn member_breach(document: &Value) -> SiteBreach
    ensures { result ≡ members_breach
        (option_and_then items_in (get (codes "customer") (view document.now))) }
{
    let Some(customers) = items_member(document, "customer") else {
        return SiteBreach {
            place: SitePlace::Customers,
            rule: SiteRule::CustomerArray,
        };
    };
    match customers_breach(customers) {
        Some(breach) => breach,
        None => SiteBreach {
            place: SitePlace::Manager,
            rule: SiteRule::Token,
        },
    }
}

fn customers_breach(values: &[Value]) -> Option<SiteBreach>
    ensures { result ≡ customers_breach 1 (map view values.now) }
{
    for (index, value) in values.iter().enumerate() {
        if let Some(breach) = customer_breach(index + 1, value) {
            return Some(breach);
        }
    }
    None
}

/// The first breach of the customer with this number.
fn customer_breach(number: usize, value: &Value) -> Option<SiteBreach>
    ensures { result ≡ customer_breach number (view value.now) }
{
    match name_member(value, "name") {
        Some(name) => parts_breach(&Title::Named(name), value),
        None => Some(SiteBreach {
            place: SitePlace::Customer(Title::Numbered(number)),
            rule: SiteRule::Name,
        }),
    }
}

fn parts_breach(title: &Title, value: &Value) -> Option<SiteBreach>
    ensures { result ≡ parts_breach title.now (view value.now) }
{
    if let Some(breach) = kind_breach(Item::Issuer, title, value) {
        return Some(breach);
    }
    if let Some(breach) = kind_breach(Item::Pool, title, value) {
        return Some(breach);
    }
    kind_breach(Item::Seat, title, value)
}

/// The first breach of the parts of a kind, which are an array.
fn kind_breach(item: Item, title: &Title, value: &Value) -> Option<SiteBreach>
    ensures { result ≡ kind_breach item title.now (parts_in item (view value.now)) }
{
    match parts_in(item, value) {
        Some(values) => items_breach(item, title, values),
        None => Some(SiteBreach {
            place: SitePlace::Customer(*title),
            rule: SiteRule::ItemArray(item),
        }),
    }
}

/// The parts of a kind, where they are an array.
fn parts_in(item: Item, value: &Value) -> Option<&[Value]>
    ensures { option_map (λ items. map view items.now) result ≡ parts_in item (view value.now) }
{
    match item {
        Item::Issuer => items_member(value, "issuer"),
        Item::Pool => optional_items(value, "pool"),
        Item::Seat => optional_items(value, "seat"),
    }
}

fn items_breach(item: Item, title: &Title, values: &[Value]) -> Option<SiteBreach>
    ensures { result ≡ items_breach item title.now 1 (map view values.now) }
{
    for (index, value) in values.iter().enumerate() {
        if let Some(rule) = item_rule(item, value) {
            return Some(SiteBreach {
                place: SitePlace::Part(*title, item, index + 1),
                rule,
            });
        }
    }
    None
}

/// The rule that a part breaks first.
fn item_rule(item: Item, value: &Value) -> Option<SiteRule>
    ensures { result ≡ item_rule item (view value.now) }
{
    match item {
        Item::Issuer => broken_unless(read_name(value).is_some(), SiteRule::Name),
        Item::Pool => {
            broken_unless(has_first(value), SiteRule::First).or(broken_unless(
                has_count(value),
                SiteRule::Count,
            ))
        }
        Item::Seat => {
            let is_named = name_member(value, "name").is_some();
            let has_token = digest_member(value, "token").is_some();
            broken_unless(is_named, SiteRule::Name).or(broken_unless(has_token, SiteRule::Token))
        }
    }
}

fn has_first(value: &Value) -> bool
    ensures { result ≡ is_some (option_and_then mac_of_text
        (option_and_then as_str (get (codes "first") (view value.now)))) }
{
    match text_member(value, "first") {
        Some(text) => Mac::parse(text).is_some(),
        None => false,
    }
}

fn has_count(value: &Value) -> bool
    ensures { result ≡ is_some (option_and_then (whole_within 1 16777216)
        (get (codes "count") (view value.now))) }
{
    whole_member(value, "count", 1, LARGEST_POOL).is_some()
}

/// The rule, where something doesn't hold.
fn broken_unless(is_kept: bool, rule: SiteRule) -> Option<SiteRule>
    ensures { result ≡ broken_unless is_kept rule }
{
    if is_kept { None } else { Some(rule) }
}
