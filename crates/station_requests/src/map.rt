// The requests about fuse maps.
ghost use Rattle.serde_json.specs.View.{view};
ghost use Rattle.station_requests.specs.Prelude.{import_map_of, ReadsAs};

use crate::change::request_for;
use crate::digest::named_members;
use members::in_json::text_member;
use office_commands::Refusal::{self, BadMember};
use office_commands::{Change, Request};
use serde_json::Value;
use std::alloc::Global;
use text_core::Text;

/// The path of fuse maps.
pub const MAP_PATH: &str = "/v1/map";

/// The named members of a map's import.
const MAP_MEMBERS: [&str; 2] = ["nr", "text"];

/// The request that the body of `POST /v1/map` asks for, if its members are of their forms.
#[tactic(auto, unfolding(crate::specs::Map::import_map_of))]
pub fn import_map_request(alloc: Global, value: &Value) -> Result<Request, Refusal>
    ensures { ReadsAs result (import_map_of (view value.now)) }
{
    let text = text_member(value, "text").ok_or(BadMember)?;
    let members = named_members(alloc, value, &MAP_MEMBERS)?;
    let text = Text::copy_of(alloc, text)?;
    request_for(alloc, value, MAP_PATH, &members, Change::ImportMap(text))
}
