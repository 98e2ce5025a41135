// What a repeated request is known by: its path and its named members, as they were read.
ghost use Rattle.std.specs.Prelude.{◌≡◌, false, IfOk, map};
ghost use Rattle.serde_json.specs.Data.{object};
ghost use Rattle.serde_json.specs.View.{view, members_view};
ghost use Rattle.serde_json.specs.Written.{has_float};
ghost use Rattle.station_requests.specs.Prelude.{named_members};
ghost use Rattle.station_requests.specs.Digest as digests;

use serde_json::{Map, Value};
use sha2::{Digest as _, Sha256};
use std::alloc::{AllocError, Global};
use text_core::Digest;

/// Those members of a value that have one of the names. A name that no member has adds nothing.
pub fn found_members(
    alloc: Global,
    value: &Value,
    names: &[&str],
) -> Result<Map<String, Value>, AllocError>
    ensures { IfOk result (λ found. members_view found.entries
        ≡ named_members (map (λ n. n.now) names.now) (view value.now)) }
{
    let mut members = Map::new(alloc);
    for name in names {
        if let Some(member) = value.get(*name) {
            serde_json::put(&mut members, alloc, name, member.clone()?)?;
        }
    }
    Ok(members)
}

/// An object of those members of a value that have one of the names.
pub fn named_members(alloc: Global, value: &Value, names: &[&str]) -> Result<Value, AllocError>
    ensures { IfOk result (λ picked. view picked
        ≡ object (named_members (map (λ n. n.now) names.now) (view value.now))) }
{
    Ok(Value::Object(found_members(alloc, value, names)?))
}

/// The digest of a request: SHA-256 (FIPS 180-4) of its path, a line feed and the compact JSON of
/// its named members.
pub fn request_digest(alloc: Global, path: &str, members: &Value) -> Result<Digest, AllocError>
    requires { has_float (view members.now) ≡ false }
    ensures { IfOk result (λ digest. digest ≡ digests.request_digest path.now (view members.now)) }
{
    let text = members.to_string(alloc)?;
    let mut hasher = Sha256::new();
    hasher.update(path);
    hasher.update("\n");
    hasher.update(text.as_str());
    Ok(Digest::from_bytes(hasher.finalize()))
}
