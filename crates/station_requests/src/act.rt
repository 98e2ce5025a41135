// The requests that take a device a step on: its chip, and what the step asks for besides.
ghost use Rattle.std.specs.Prelude.{◌≡◌, false, codes};
ghost use Rattle.serde_json.specs.View.{view};
ghost use Rattle.serde_json.specs.Written.{has_float};
ghost use Rattle.station_requests.specs.Prelude.{act_of, end_of, LacksFloat, ReadsAs};

use crate::change::request_for;
use crate::digest::named_members;
use members::in_json::chip_member;
use office_commands::Refusal::{self, BadMember};
use office_commands::{Action, Change, Request};
use serde_json::Value;
use std::alloc::Global;

/// The named members that each such request has.
pub const ACT_MEMBERS: [&str; 2] = ["chip", "nr"];

/// The request that a body asks for on the path of an action, if its chip and its number are of
/// their forms. A repeat is known by the members.
#[tactic(auto, unfolding(crate::specs::Act::act_of))]
pub fn act_request(
    alloc: Global,
    value: &Value,
    path: &str,
    members: &Value,
    action: Action,
) -> Result<Request, Refusal>
    requires { LacksFloat (view value.now) (codes "chip")
        → LacksFloat (view value.now) (codes "nr") → has_float (view members.now) ≡ false }
    ensures { ReadsAs result (act_of path.now (view members.now) action (view value.now)) }
{
    let chip = chip_member(value, "chip").ok_or(BadMember)?;
    request_for(alloc, value, path, members, Change::Act(chip, action))
}

/// The request that a body asks for on the path of an action that asks for nothing but the chip, if the chip
/// and its number are of their forms.
pub fn end_request(
    alloc: Global,
    value: &Value,
    path: &str,
    action: Action,
) -> Result<Request, Refusal>
    ensures { ReadsAs result (end_of path.now action (view value.now)) }
{
    let members = named_members(alloc, value, &ACT_MEMBERS)?;
    act_request(alloc, value, path, &members, action)
}
