// The request that imports serial numbers.
ghost use Rattle.serde_json.specs.View.{view};
ghost use Rattle.station_requests.specs.Prelude.{import_of, new_import_of, ReadsAs};

use crate::change::request_for;
use crate::digest::named_members;
use id_ranges::read_rows;
use members::in_json::{name_member, text_member};
use office_commands::Refusal::{self, BadMember};
use office_commands::{Change, NewImport, Request};
use serde_json::Value;
use std::alloc::Global;

/// The path of imports.
pub const IMPORT_PATH: &str = "/v1/import";

/// The named members of an import.
const IMPORT_MEMBERS: [&str; 3] = ["csv", "issuer", "nr"];

/// The import that a body asks for, if its members are of their forms.
#[tactic(auto, unfolding(crate::specs::Import::new_import_of))]
fn new_import(alloc: Global, value: &Value) -> Result<NewImport, Refusal>
    ensures { ReadsAs result (new_import_of (view value.now)) }
{
    let issuer = name_member(value, "issuer").ok_or(BadMember)?;
    let text = text_member(value, "csv").ok_or(BadMember)?;
    let rows = read_rows(alloc, text)?.ok_or(BadMember)?;
    Ok(NewImport { issuer, rows })
}

/// The request that the body of `POST /v1/import` asks for, if its members are of their forms.
#[tactic(auto, unfolding(crate::specs::Import::import_of))]
pub fn import_request(alloc: Global, value: &Value) -> Result<Request, Refusal>
    ensures { ReadsAs result (import_of (view value.now)) }
{
    let import = new_import(alloc, value)?;
    let members = named_members(alloc, value, &IMPORT_MEMBERS)?;
    request_for(alloc, value, IMPORT_PATH, &members, Change::Import(import))
}
