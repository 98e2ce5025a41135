// The request that plans a device.
ghost use Rattle.std.specs.Prelude.{◌≡◌, map};
ghost use Rattle.serde_json.specs.View.{view};
ghost use Rattle.text_core.specs.Prelude.{all_of, result_map};
ghost use Rattle.station_requests.specs.Plan as plans;
ghost use Rattle.station_requests.specs.Prelude.{kind_of_text, named_plan, named_wish, plan_device_of, ReadsAs, want_of, wish_in, wishes_of};

use crate::act::{ACT_MEMBERS, act_request};
use crate::digest::{found_members, named_members};
use fuse_plan::{Number, Want, Wish};
use members::in_json::{digest_member, list_member, name_member, text_member, whole_member};
use members::read_all;
use office_commands::Refusal::{self, BadMember};
use office_commands::{Action, Request, Wishes};
use serde_json::Value;
use std::alloc::Global;
use text_core::LARGEST_WHOLE;

/// The path of plans.
pub const PLAN_PATH: &str = "/v1/plan";

/// The most wishes of a plan.
const WISH_LIMIT: usize = 64;

/// The named members of a wish for a bit, for a value, for a key and for a lock.
const BIT_MEMBERS: [&str; 3] = ["field", "index", "kind"];

const VALUE_MEMBERS: [&str; 3] = ["field", "kind", "value"];

const KEY_MEMBERS: [&str; 3] = ["field", "key_sha256", "kind"];

const LOCK_MEMBERS: [&str; 2] = ["field", "kind"];

/// The kinds of wishes.
#[derive(Clone, Copy)]
pub enum Kind {
    Bit,
    Value,
    Key,
    WriteLock,
    ReadLock,
}

/// The kind of wishes that has this name.
fn kind_of_text(text: &str) -> Option<Kind>
    ensures { result ≡ kind_of_text text.now }
{
    if text == "bit" {
        return Some(Kind::Bit);
    }
    if text == "value" {
        return Some(Kind::Value);
    }
    if text == "key" {
        return Some(Kind::Key);
    }
    if text == "wlock" {
        return Some(Kind::WriteLock);
    }
    if text == "rlock" {
        return Some(Kind::ReadLock);
    }
    None
}

/// The kind of the wish that a JSON value is.
fn kind_of(value: &Value) -> Option<Kind>
    ensures { result ≡ plans.kind_of_wish (view value.now) }
{
    kind_of_text(text_member(value, "kind")?)
}

/// What a wish of a kind asks of its field, if its members are of their forms.
fn want_of(kind: Kind, value: &Value) -> Option<Want>
    ensures { result ≡ want_of kind (view value.now) }
{
    match kind {
        Kind::Bit => Some(Want::Bit(whole_member(value, "index", 0, LARGEST_WHOLE)?)),
        Kind::Value => Some(Want::Value(Number::parse(text_member(value, "value")?)?)),
        Kind::Key => Some(Want::Key(digest_member(value, "key_sha256")?)),
        Kind::WriteLock => Some(Want::WriteLock),
        Kind::ReadLock => Some(Want::ReadLock),
    }
}

/// The wish that a JSON value is, if its members are of their forms.
fn read_wish(value: &Value) -> Option<Wish>
    ensures { result ≡ wish_in (view value.now) }
{
    let kind = kind_of(value)?;
    let field = name_member(value, "field")?;
    let want = want_of(kind, value)?;
    Some(Wish { field, want })
}

/// The wishes of a plan, if each is one and there are at most 64.
fn read_wishes(alloc: Global, value: &Value) -> Result<Vec<Wish>, Refusal>
    ensures { ReadsAs (result_map (λ wishes. wishes.items) result) (wishes_of (view value.now)) }
{
    let values = list_member(value, "wishes", 0, WISH_LIMIT).ok_or(BadMember)?;
    read_all(alloc, values, read_wish)?.ok_or(BadMember)
}

/// What a repeated wish is known by, as an object: the named members of its kind.
fn named_wish(alloc: Global, value: &Value) -> Result<Value, Refusal>
    ensures { ReadsAs (result_map view result) (named_wish (view value.now)) }
{
    let members = match kind_of(value).ok_or(BadMember)? {
        Kind::Bit => named_members(alloc, value, &BIT_MEMBERS)?,
        Kind::Value => named_members(alloc, value, &VALUE_MEMBERS)?,
        Kind::Key => named_members(alloc, value, &KEY_MEMBERS)?,
        Kind::WriteLock | Kind::ReadLock => named_members(alloc, value, &LOCK_MEMBERS)?,
    };
    Ok(members)
}

/// What repeated wishes are known by, one after another.
fn named_wishes(alloc: Global, values: &[Value]) -> Result<Vec<Value>, Refusal>
    ensures { ReadsAs (result_map (λ wishes. map view wishes.items) result)
        (all_of named_wish (map view values.now)) }
{
    let mut wishes = Vec::new(alloc);
    for value in values {
        let wish = named_wish(alloc, value)?;
        wishes.push(wish)?;
    }
    Ok(wishes)
}

/// What a repeated plan is known by, as an object: its members, and its wishes by theirs.
#[tactic(auto, unfolding(crate::specs::Plan::named_plan))]
fn named_plan(alloc: Global, value: &Value) -> Result<Value, Refusal>
    ensures { ReadsAs (result_map view result) (named_plan (view value.now)) }
{
    let values = list_member(value, "wishes", 0, WISH_LIMIT).ok_or(BadMember)?;
    let wishes = named_wishes(alloc, values)?;
    let mut members = found_members(alloc, value, &ACT_MEMBERS)?;
    serde_json::put(&mut members, alloc, "wishes", Value::from(wishes))?;
    Ok(Value::Object(members))
}

/// The request that the body of `POST /v1/plan` asks for, if its members are of their forms.
#[tactic(auto, unfolding(crate::specs::Plan::plan_device_of))]
pub fn plan_device_request(alloc: Global, value: &Value) -> Result<Request, Refusal>
    ensures { ReadsAs result (plan_device_of (view value.now)) }
{
    let wishes = read_wishes(alloc, value)?;
    let members = named_plan(alloc, value)?;
    let action = Action::Plan(Wishes::new(wishes));
    act_request(alloc, value, PLAN_PATH, &members, action)
}
