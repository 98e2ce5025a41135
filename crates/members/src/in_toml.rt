//! Texts as TOML documents, and the members of their tables.
//!
//! `read_document` gives the TOML document of a text, or that it is none, or want of memory.
ghost use Rattle.std.specs.Prelude.{◌≡◌, ◌≤◌, [], IfSome, Some, false, map, ok_or, option_and_then, option_map};
ghost use Rattle.std.specs.Option.{option_map_or};
ghost use Rattle.toml.specs.Data.{Data, as_bool, as_str, get};
ghost use Rattle.toml.specs.View.{view};
ghost use Rattle.text_core.specs.Prelude.{digest_of_text, GivesUnless, result_map};
ghost use Rattle.members.specs.Toml as documents;
ghost use Rattle.members.specs.Prelude.{document_of, if_there, items_in, name_in};

use crate::{DocumentFault, Viewed};
use std::alloc::Global;
use text_core::{Digest, Name};
use toml::Value;

impl Viewed for Value {
    ghost Data = { Data };

    ghost view = { view };
}

/// Reads a text as a TOML document, which is a table.
pub fn read_document(alloc: Global, text: &str) -> Result<Value, DocumentFault>
    ensures { GivesUnless DocumentFault.OutOfMemory (result_map view result)
        (ok_or (document_of text.now) DocumentFault.NotDocument) }
{
    match toml::table_from_str(alloc, text) {
        Ok(table) => Ok(Value::Table(table)),
        Err(error) if error.is_memory() => Err(DocumentFault::OutOfMemory),
        Err(_) => Err(DocumentFault::NotDocument),
    }
}

/// A value that is a whole number from least to greatest.
fn whole_within(value: &Value, least: u64, greatest: u64) -> Option<u64>
    ensures value { result ≡ documents.whole_within least greatest (view value.now) }
    ensures bounds { IfSome result (λ number. (least ≤ number) × (number ≤ greatest)) }
{
    let number = value.as_integer()?;
    if number < 0 {
        return None;
    }
    let number = number as u64;
    if least <= number && number <= greatest {
        Some(number)
    } else {
        None
    }
}

/// A member that is a whole number from least to greatest.
pub fn whole_member(value: &Value, name: &str, least: u64, greatest: u64) -> Option<u64>
    ensures value { result
        ≡ option_and_then (documents.whole_within least greatest) (get name.now (view value.now)) }
    ensures bounds { IfSome result (λ number. (least ≤ number) × (number ≤ greatest)) }
{
    whole_within(value.get(name)?, least, greatest)
}

/// A member that is a whole number from least to greatest, or nothing where there is no such
/// member. `None` where the member is something else.
pub fn optional_whole(value: &Value, name: &str, least: u64, greatest: u64) -> Option<Option<u64>>
    ensures value { result
        ≡ if_there (documents.whole_within least greatest) (get name.now (view value.now)) }
    ensures bounds { IfSome result (λ found.
        IfSome found (λ number. (least ≤ number) × (number ≤ greatest))) }
{
    match value.get(name) {
        Some(found) => Some(Some(whole_within(found, least, greatest)?)),
        None => Some(None),
    }
}

/// A member that is a truth value, or false where there is no such member. `None` where the member
/// is something else.
pub fn flag_member(value: &Value, name: &str) -> Option<bool>
    ensures { result
        ≡ option_map_or as_bool (get name.now (view value.now)) (Some false) }
{
    match value.get(name) {
        Some(found) => found.as_bool(),
        None => Some(false),
    }
}

/// A member that is a text.
pub fn text_member<'v>(value: &'v Value, name: &str) -> Option<&'v str>
    ensures { option_map (λ text. text.now) result
        ≡ option_and_then as_str (get name.now (view value.now)) }
{
    value.get(name)?.as_str()
}

/// A value that is a name.
pub fn read_name(value: &Value) -> Option<Name>
    ensures { result ≡ name_in (view value.now) }
{
    Name::parse(value.as_str()?)
}

/// A member that is a name.
pub fn name_member(value: &Value, name: &str) -> Option<Name>
    ensures { result ≡ option_and_then name_in (get name.now (view value.now)) }
{
    read_name(value.get(name)?)
}

/// A member that is a SHA-256 digest: 64 hexadecimal digits of either case.
pub fn digest_member(value: &Value, name: &str) -> Option<Digest>
    ensures { result
        ≡ option_and_then digest_of_text (option_and_then as_str (get name.now (view value.now))) }
{
    Digest::parse(text_member(value, name)?)
}

/// The items of a value that is an array.
#[tactic(auto, using(crate::proofs::Lists::toml_list))]
fn items_of(value: &Value) -> Option<&[Value]>
    ensures { option_map (λ items. map view items.now) result ≡ items_in (view value.now) }
{
    Some(value.as_array()?.as_slice())
}

/// The items of a member that is an array, of any length.
pub fn items_member<'v>(value: &'v Value, name: &str) -> Option<&'v [Value]>
    ensures { option_map (λ items. map view items.now) result
        ≡ option_and_then items_in (get name.now (view value.now)) }
{
    items_of(value.get(name)?)
}

/// The items of a member that is an array, or no items where there is no such member. `None` where
/// the member is no array.
pub fn optional_items<'v>(value: &'v Value, name: &str) -> Option<&'v [Value]>
    ensures { option_map (λ items. map view items.now) result
        ≡ option_map_or items_in (get name.now (view value.now)) (Some []) }
{
    match value.get(name) {
        Some(found) => items_of(found),
        None => Some(&[]),
    }
}
