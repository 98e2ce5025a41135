// The text of a fuse map.
ghost use Rattle.std.specs.Prelude.{◌≡◌, ◌≢◌, ◌<◌, IfErr, IfOk, length, ok_or};
ghost use Rattle.members.specs.Prelude.{if_there, name_in};
ghost use Rattle.text_core.specs.Prelude.{GivesUnless};
ghost use Rattle.toml.specs.Data.{get};
ghost use Rattle.toml.specs.View.{view};
ghost use Rattle.fusemap_core.specs.Prelude.{Map, IsLowestMapFault, HasMapMembers, IsMapText, field_in, map_of_document, map_read, words_in, map_text_limit};

use crate::draft::{FieldDraft, MapDraft};
use crate::fault::MapFault::{self, BadMember};
use crate::judge::judged_map;
use crate::map::{BLOCK_LIMIT, FIELD_LIMIT, FuseMap, WORD_LIMIT};
use members::in_toml::{
    flag_member, items_member, name_member, optional_whole, read_document, read_name, whole_member,
};
use members::{of_length, read_all};
use std::alloc::Global;
use text_core::Name;
use toml::Value;

/// The most bytes of a map's text.
pub const TEXT_LIMIT: usize = 32768;

/// The greatest whole number of TOML: 2^63 - 1.
const LARGEST_INTEGER: u64 = 9223372036854775807;

/// Reads the fuse map that a text is, or gives the lowest of its faults.
/// `MapFault::OutOfMemory` where memory ran out, whatever the text up to its limit.
///
/// The text is a TOML document with these members; others are ignored:
///
/// - names `name`, `wr` and `rd`, and a name `coding` where there is a coding field;
/// - an array of 1 to 4 tables `block`, each with its `words` (1 to 8), numbered from 0 in the
///   text's order;
/// - an array of 1 to 128 tables `field`, each with its `name`, `block`, `bit` (0 or more) and
///   `count` (1 or more).
///
/// A field may also have the numbers of its locks, `write` and `read` (0 or more), and `key`, which
/// is true for a key field.
pub fn read_map(alloc: Global, text: &str) -> Result<FuseMap, MapFault>
    ensures exact { GivesUnless MapFault.OutOfMemory result (map_read text.now) }
    ensures valid { IfOk result (IsMapText text.now) }

    // The fault of a text with all its members is that of a broken rule, and no lower rule is broken.
    ensures lowest { IfErr result (λ fault. fault ≢ MapFault.OutOfMemory
        → (map : Map) → HasMapMembers text.now map → IsLowestMapFault fault map) }

    // No map is the text's where a fault other than want of memory is told.
    ensures refused { IfErr result (λ fault. fault ≢ MapFault.OutOfMemory
        → (map : Map) → ¬ IsMapText text.now map) }

    // A text over its limit is told its fault, and never want of memory.
    ensures too_long { map_text_limit < length text.now → result ≡ Err MapFault.BadMember }
{
    if TEXT_LIMIT < text.len() {
        return Err(BadMember);
    }
    let document = read_document(alloc, text)?;
    let draft = read_draft(alloc, &document)?;
    judged_map(alloc, draft)
}

/// What a document gives as a map, whether or not its parts fit together.
#[tactic(auto, unfolding(crate::specs::MapText::map_of_document))]
fn read_draft(alloc: Global, document: &Value) -> Result<MapDraft, MapFault>
    ensures { GivesUnless MapFault.OutOfMemory result
        (ok_or (map_of_document (view document.now)) MapFault.BadMember) }
{
    let name = name_member(document, "name").ok_or(BadMember)?;
    let block_items = items_member(document, "block").ok_or(BadMember)?;
    let block_items = of_length(block_items, 1, BLOCK_LIMIT).ok_or(BadMember)?;
    let blocks = read_all(alloc, block_items, read_words)?.ok_or(BadMember)?;
    let field_items = items_member(document, "field").ok_or(BadMember)?;
    let field_items = of_length(field_items, 1, FIELD_LIMIT).ok_or(BadMember)?;
    let fields = read_all(alloc, field_items, read_field)?.ok_or(BadMember)?;
    let wr = name_member(document, "wr").ok_or(BadMember)?;
    let rd = name_member(document, "rd").ok_or(BadMember)?;
    let coding = optional_name(document, "coding").ok_or(BadMember)?;
    Ok(MapDraft {
        name,
        blocks,
        fields,
        wr,
        rd,
        coding,
    })
}

/// The words of a block.
fn read_words(value: &Value) -> Option<u8>
    ensures { result ≡ words_in (view value.now) }
{
    let words = whole_member(value, "words", 1, WORD_LIMIT as u64)?;
    Some(words as u8)
}

#[tactic(auto, unfolding(crate::specs::MapText::field_in))]
fn read_field(value: &Value) -> Option<FieldDraft>
    ensures { result ≡ field_in (view value.now) }
{
    let name = name_member(value, "name")?;
    let block = whole_member(value, "block", 0, LARGEST_INTEGER)?;
    let bit = whole_member(value, "bit", 0, LARGEST_INTEGER)?;
    let count = whole_member(value, "count", 1, LARGEST_INTEGER)?;
    let write = optional_whole(value, "write", 0, LARGEST_INTEGER)?;
    let read = optional_whole(value, "read", 0, LARGEST_INTEGER)?;
    let key = flag_member(value, "key")?;
    Some(FieldDraft {
        name,
        block,
        bit,
        count,
        write,
        read,
        key,
    })
}

/// A member that is a name, or nothing where there is no such member. `None` where the member is
/// something else.
fn optional_name(value: &Value, name: &str) -> Option<Option<Name>>
    ensures { result ≡ if_there name_in (get name.now (view value.now)) }
{
    match value.get(name) {
        Some(found) => Some(Some(read_name(found)?)),
        None => Some(None),
    }
}
