// The requests about orders.
ghost use Rattle.std.specs.Prelude.{◌≡◌, IfOk, option_map};
ghost use Rattle.serde_json.specs.View.{view};
ghost use Rattle.station_requests.specs.Prelude.{make_order_of, new_order_of, name_parameter, ReadsAs};

use crate::change::request_for;
use crate::digest::named_members;
use crate::query::text_parameter;
use members::in_json::{name_member, text_if_member, text_member, whole_member};
use office_commands::Refusal::{self, BadMember};
use office_commands::{AskedOrder, Change, NewOrder, Request};
use serde_json::Value;
use std::alloc::{AllocError, Global};
use text_core::{LARGEST_WHOLE, Name, Text};

/// The path of orders.
pub const ORDER_PATH: &str = "/v1/order";

/// The named members of an order.
const ORDER_MEMBERS: [&str; 9] = [
    "first",
    "issuer",
    "macs",
    "name",
    "not_before",
    "nr",
    "prefix",
    "quantity",
    "width",
];

/// A copy of a text that may be missing.
fn copied(alloc: Global, text: Option<&str>) -> Result<Option<Text>, AllocError>
    ensures { IfOk result (λ copy. copy ≡ option_map (λ t. t.now) text.entry) }
{
    match text {
        Some(text) => Ok(Some(Text::copy_of(alloc, text)?)),
        None => Ok(None),
    }
}

/// The order that a body asks for, if its members are of their forms.
#[tactic(auto, unfolding(crate::specs::Order::new_order_of))]
fn new_order(alloc: Global, value: &Value) -> Result<AskedOrder, Refusal>
    ensures { ReadsAs result (new_order_of (view value.now)) }
{
    let name = name_member(value, "name").ok_or(BadMember)?;
    let issuer = name_member(value, "issuer").ok_or(BadMember)?;
    let prefix = text_member(value, "prefix").ok_or(BadMember)?;
    let width = whole_member(value, "width", 1, 9).ok_or(BadMember)?;
    let first = whole_member(value, "first", 0, LARGEST_WHOLE).ok_or(BadMember)?;
    let quantity = whole_member(value, "quantity", 1, LARGEST_WHOLE).ok_or(BadMember)?;
    let macs = whole_member(value, "macs", 0, 4).ok_or(BadMember)?;
    let not_before = text_if_member(value, "not_before").ok_or(BadMember)?;
    Ok(AskedOrder::new(NewOrder {
        name,
        issuer,
        prefix: Text::copy_of(alloc, prefix)?,
        width: width as u8,
        first,
        quantity,
        macs: macs as u8,
        not_before: copied(alloc, not_before)?,
    }))
}

/// The request that the body of `POST /v1/order` asks for, if its members are of their forms.
#[tactic(auto, unfolding(crate::specs::Order::make_order_of))]
pub fn make_order_request(alloc: Global, value: &Value) -> Result<Request, Refusal>
    ensures { ReadsAs result (make_order_of (view value.now)) }
{
    let order = new_order(alloc, value)?;
    let members = named_members(alloc, value, &ORDER_MEMBERS)?;
    request_for(alloc, value, ORDER_PATH, &members, Change::MakeOrder(order))
}

/// The name that the query of `GET /v1/order` gives, if it gives just one.
pub fn order_name(query: &[u8]) -> Option<Name>
    ensures { result ≡ name_parameter query.now }
{
    Name::parse(text_parameter(query, b"name")?)
}
