//! Bodies as JSON, and the members of JSON values.
//!
//! `read_json` gives the JSON value of a body, or that there is none, or want of memory.
ghost use Rattle.std.specs.Prelude.{◌≡◌, ◌≤◌, IfSome, map, ok_or, option_and_then, option_map};
ghost use Rattle.serde_json.specs.Data.{Data};
ghost use Rattle.serde_json.specs.Find.{as_array, as_str, get};
ghost use Rattle.serde_json.specs.View.{view};
ghost use Rattle.text_core.specs.Prelude.{GivesUnless, result_map, list_of_length};
ghost use Rattle.text_core.specs.Prelude.{chip_of_text, digest_of_text, name_of_text};
ghost use Rattle.members.specs.Json as json;
ghost use Rattle.members.specs.Prelude.{json_items, json_of, text_or_null};

use crate::{DocumentFault, Viewed, of_length};
use serde_json::Value;
use std::alloc::Global;
use text_core::{Chip, Digest, Name};

impl Viewed for Value {
    ghost Data = { Data };

    ghost view = { view };
}

/// Reads a body as JSON text (RFC 8259), at most 127 deep. Of members with one name the last counts.
pub fn read_json(alloc: Global, body: &[u8]) -> Result<Value, DocumentFault>
    ensures { GivesUnless DocumentFault.OutOfMemory (result_map view result)
        (ok_or (json_of body.now) DocumentFault.NotDocument) }
{
    match Value::from_slice(alloc, body) {
        Ok(value) => Ok(value),
        Err(error) if error.is_memory() => Err(DocumentFault::OutOfMemory),
        Err(_) => Err(DocumentFault::NotDocument),
    }
}

/// A member that is a whole number from least to greatest, written with no sign, fraction or
/// exponent.
pub fn whole_member(value: &Value, name: &str, least: u64, greatest: u64) -> Option<u64>
    ensures value { result ≡ json.whole_member name.now least greatest (view value.now) }
    ensures bounds { IfSome result (λ number. (least ≤ number) × (number ≤ greatest)) }
{
    let number = value.get(name)?.as_u64()?;
    if least <= number && number <= greatest {
        Some(number)
    } else {
        None
    }
}

/// A member that is a text.
pub fn text_member<'v>(value: &'v Value, name: &str) -> Option<&'v str>
    ensures { option_map (λ text. text.now) result
        ≡ option_and_then as_str (get name.now (view value.now)) }
{
    value.get(name)?.as_str()
}

/// A member that is a text, or an inner `None` where it is absent or null. `None` where it is anything
/// else.
pub fn text_if_member<'v>(value: &'v Value, name: &str) -> Option<Option<&'v str>>
    ensures { option_map (λ found. option_map (λ text. text.now) found) result
        ≡ text_or_null (get name.now (view value.now)) }
{
    let Some(member) = value.get(name) else {
        return Some(None);
    };
    if member.is_null() {
        return Some(None);
    }
    Some(Some(member.as_str()?))
}

/// A member that is a name.
pub fn name_member(value: &Value, name: &str) -> Option<Name>
    ensures { result
        ≡ option_and_then name_of_text (option_and_then as_str (get name.now (view value.now))) }
{
    Name::parse(text_member(value, name)?)
}

/// A member that is a SHA-256 digest: 64 hexadecimal digits of either case.
pub fn digest_member(value: &Value, name: &str) -> Option<Digest>
    ensures { result
        ≡ option_and_then digest_of_text (option_and_then as_str (get name.now (view value.now))) }
{
    Digest::parse(text_member(value, name)?)
}

/// A member that is a chip's identity.
pub fn chip_member(value: &Value, name: &str) -> Option<Chip>
    ensures { result
        ≡ option_and_then chip_of_text (option_and_then as_str (get name.now (view value.now))) }
{
    Chip::parse(text_member(value, name)?)
}

/// The items of a member that is an array of at least and at most so many.
#[tactic(auto, using(crate::proofs::Lists::json_list))]
pub fn list_member<'v>(
    value: &'v Value,
    name: &str,
    least: usize,
    greatest: usize,
) -> Option<&'v [Value]>
    ensures { option_map (λ items. map view items.now) result
        ≡ option_and_then (list_of_length least greatest)
        (option_map json_items (option_and_then as_array (get name.now (view value.now)))) }
{
    let items = value.get(name)?.as_array()?;
    of_length(items.as_slice(), least, greatest)
}
