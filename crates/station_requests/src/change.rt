// The requests for changes: a number, what a repeat is known by, and the change.
ghost use Rattle.std.specs.Prelude.{◌≡◌, false, codes};
ghost use Rattle.serde_json.specs.View.{view};
ghost use Rattle.serde_json.specs.Written.{has_float};
ghost use Rattle.station_requests.specs.Change as changes;
ghost use Rattle.station_requests.specs.Prelude.{LacksFloat, ReadsAs};

use crate::digest::request_digest;
use members::in_json::whole_member;
use office_commands::Refusal::{self, BadMember};
use office_commands::{Change, Command, Request, RequestNumber};
use serde_json::Value;
use std::alloc::Global;
use text_core::LARGEST_WHOLE;

/// The member `nr` of a body: the number of its request.
fn number_member(value: &Value) -> Option<RequestNumber>
    ensures value { result ≡ changes.number_member (view value.now) }
{
    RequestNumber::new(whole_member(value, "nr", 1, LARGEST_WHOLE)?)
}

/// The request for a change that a body asks for on a path, if its number is one. A repeat is known by
/// the path and the members.
#[tactic(auto, unfolding(crate::specs::Change::request_for))]
pub fn request_for(
    alloc: Global,
    value: &Value,
    path: &str,
    members: &Value,
    change: Change,
) -> Result<Request, Refusal>
    requires { LacksFloat (view value.now) (codes "nr") → has_float (view members.now) ≡ false }
    ensures { ReadsAs result
        (changes.request_for path.now (view members.now) change (view value.now)) }
{
    let number = number_member(value).ok_or(BadMember)?;
    Ok(Request {
        number,
        digest: request_digest(alloc, path, members)?,
        command: Command::Change(change),
    })
}
