// The request that standard input has.
ghost use Rattle.std.specs.Prelude.{◌≡◌, ◌++◌, ◌∷◌, codes, false, IfOk, IfSome, None, Some, string_bytes};
ghost use Rattle.serde_json.specs.Data.{Data};
ghost use Rattle.serde_json.specs.Find.{get};
ghost use Rattle.serde_json.specs.Written.{compact_text, has_float};
ghost use Rattle.members.specs.Prelude.{json_of};
ghost use Rattle.seat_client.specs.Prelude.{IsWanted};

use crate::choices::read_text;
use crate::failure::AskFailure::{self, NoRequest};
use std::alloc::Global;
use std::io::Read;
use std::str;

/// The most bytes that are read: a line with the path, and a body of the greatest size.
const INPUT_LIMIT: u64 = 65_536 + 256;

/// The paths of requests that have a number.
const PATHS: [&str; 9] = [
    "/v1/order",
    "/v1/map",
    "/v1/device",
    "/v1/plan",
    "/v1/readback",
    "/v1/identity",
    "/v1/ship",
    "/v1/scrap",
    "/v1/import",
];

/// A request that is wanted: its path, and its members as compact JSON.
#[derive(Drop)]
pub struct Wanted {
    pub path: &'static str,
    pub members: String,
}

/// The path that a text begins with, if it is one of these and the line ends there, and what comes
/// behind that line.
fn path_in(text: &str) -> Option<(&'static str, &str)>
    ensures { IfSome result (λ found. text.now ≡ found.0.now ++ 10 ∷ found.1.now) }
{
    for path in PATHS {
        if let Some(rest) = text.strip_prefix(path)
            && let Some(body) = rest.strip_prefix("\n")
        {
            return Some((path, body));
        }
    }
    None
}

/// The compact JSON of an object without a number.
fn compact_members(alloc: Global, body: &str) -> Result<String, AskFailure>
    ensures { IfOk result (λ text. (value : Data) × (json_of body.now ≡ Some value)
        × (get (codes "nr") value ≡ None)
        × (has_float value ≡ false → string_bytes text ≡ compact_text value)) }
{
    let value = read_text(alloc, body.as_bytes())?.ok_or(NoRequest)?;
    if !value.is_object() || value.get("nr").is_some() {
        return Err(NoRequest);
    }
    Ok(value.to_string(alloc)?)
}

/// The request that a text has: a line `POST`, a space and the path, and behind it a JSON object
/// without a number.
fn wanted_in(alloc: Global, text: &str) -> Result<Wanted, AskFailure>
    ensures { IfOk result (λ wanted.
        IsWanted text.now wanted.path.now (string_bytes wanted.members)) }
{
    let (path, body) = text
        .strip_prefix("POST ")
        .and_then(path_in)
        .ok_or(NoRequest)?;
    let members = compact_members(alloc, body)?;
    Ok(Wanted { path, members })
}

/// The request that an input has.
pub fn read_wanted<R: Read + Drop>(alloc: Global, input: R) -> Result<Wanted, AskFailure> {
    let mut bytes = Vec::new(alloc);
    input
        .take(INPUT_LIMIT)
        .read_to_end(&mut bytes)
        .or(Err(NoRequest))?;
    let text = str::from_utf8(&bytes).or(Err(NoRequest))?;
    wanted_in(alloc, text)
}
