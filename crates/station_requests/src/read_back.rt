// The request that hands in a read-back.
ghost use Rattle.serde_json.specs.View.{view};
ghost use Rattle.station_requests.specs.Prelude.{read_back_of, ReadsAs};

use crate::act::{ACT_MEMBERS, act_request};
use crate::device::{blocks_member, with_block_digests};
use office_commands::{Action, Refusal, Request};
use serde_json::Value;
use std::alloc::Global;

/// The path of read-backs.
pub const READ_BACK_PATH: &str = "/v1/readback";

/// The request that the body of `POST /v1/readback` asks for, if its members are of their forms.
#[tactic(auto, unfolding(crate::specs::ReadBack::read_back_of))]
pub fn read_back_request(alloc: Global, value: &Value) -> Result<Request, Refusal>
    ensures { ReadsAs result (read_back_of (view value.now)) }
{
    let blocks = blocks_member(alloc, value, "blocks")?;
    let members = with_block_digests(alloc, value, &ACT_MEMBERS, &blocks)?;
    let action = Action::ReadBack(blocks);
    act_request(alloc, value, READ_BACK_PATH, &members, action)
}
