// The lowest fault of a draft, or the map that it is.
ghost use Rattle.std.specs.Prelude.{◌≡◌, ◌*◌, ◌<◌, All, IfOk, IfSome, true};
ghost use Rattle.std.specs.List.{list_all};
ghost use Rattle.std.specs.Option.{option_map_or};
ghost use Rattle.text_core.specs.Prelude.{GivesUnless};
ghost use Rattle.fusemap_core.specs.Map as map;
ghost use Rattle.fusemap_core.specs.Prelude.{IsInRange, IsSmall, all_pairs, map_or_fault};
ghost use Rattle.fusemap_core.specs.MapFaults as faults;

use crate::draft::{FieldDraft, MapDraft};
use crate::fault::MapFault;
use crate::field::Field;
use crate::map::FuseMap;
use std::alloc::{AllocError, Global};
use text_core::Name;

/// The map of a draft, or the lowest fault of how its parts fit together.
pub(crate) fn judged_map(alloc: Global, draft: MapDraft) -> Result<FuseMap, MapFault>
    requires { IsInRange draft }
    ensures { GivesUnless MapFault.OutOfMemory result (map_or_fault draft) }
{
    if let Some(fault) = lowest_fault(&draft) {
        return Err(fault);
    }
    let fields = make_fields(alloc, draft.fields.as_slice())?;
    Ok(FuseMap::new(
        draft.name,
        draft.blocks,
        fields,
        draft.wr,
        draft.rd,
        draft.coding,
    ))
}

/// The lowest fault of how the parts of a map fit together.
fn lowest_fault(draft: &MapDraft) -> Option<MapFault>
    ensures { result ≡ faults.lowest_fault draft.now }
{
    let blocks = draft.blocks.as_slice();
    let fields = draft.fields.as_slice();
    if !have_other_names(fields) {
        return Some(MapFault::NameTwice);
    }
    if !are_in_blocks(blocks, fields) {
        return Some(MapFault::OutOfBlock);
    }
    if !are_apart(fields) {
        return Some(MapFault::FieldsOverlap);
    }
    if !has_lock_fields(draft) {
        return Some(MapFault::BadLockField);
    }
    if !have_their_locks(fields, &draft.wr, &draft.rd) {
        return Some(MapFault::BadLockIndex);
    }
    if !are_plain_or_key(blocks, fields) {
        return Some(MapFault::BadKeyField);
    }
    None
}

/// Whether no two fields have one name.
fn have_other_names(fields: &[FieldDraft]) -> bool
    ensures { result ≡ all_pairs faults.have_other_names fields.now }
{
    for (index, field) in fields.iter().enumerate() {
        if !has_other_name(field, &fields[index + 1..]) {
            return false;
        }
    }
    true
}

fn has_other_name(field: &FieldDraft, others: &[FieldDraft]) -> bool
    ensures { result ≡ list_all (faults.have_other_names field.now) others.now }
{
    others.iter().all(|other| field.name != other.name)
}

/// Whether each field lies in one of the blocks, and ends there.
fn are_in_blocks(blocks: &[u8], fields: &[FieldDraft]) -> bool
    ensures { result ≡ list_all (faults.is_in_block blocks.now) fields.now }
{
    fields.iter().all(|field| is_in_block(blocks, field))
}

fn is_in_block(blocks: &[u8], field: &FieldDraft) -> bool
    ensures { result ≡ faults.is_in_block blocks.now field.now }
{
    field.block < blocks.len() as u64
        && field.bit + field.count <= 32 * words_of(blocks, field.block)
}

/// How many words a block has: none where there is no such block.
fn words_of(blocks: &[u8], block: u64) -> u64
    ensures words { result ≡ map.word_count blocks.now block }
    ensures bound { result < 256 }
{
    if block < blocks.len() as u64 {
        u64::from(blocks[block as usize])
    } else {
        0
    }
}

/// Whether no two fields have a position in common.
fn are_apart(fields: &[FieldDraft]) -> bool
    ensures { result ≡ all_pairs faults.are_apart fields.now }
{
    for (index, field) in fields.iter().enumerate() {
        if !is_apart_from(field, &fields[index + 1..]) {
            return false;
        }
    }
    true
}

fn is_apart_from(field: &FieldDraft, others: &[FieldDraft]) -> bool
    ensures { result ≡ list_all (faults.are_apart field.now) others.now }
{
    others.iter().all(|other| have_no_common(field, other))
}

/// Whether two fields have no position in common.
fn have_no_common(one: &FieldDraft, other: &FieldDraft) -> bool
    ensures { result ≡ faults.are_apart one.now other.now }
{
    let end = (one.bit + one.count).min(other.bit + other.count);
    one.block != other.block || end <= one.bit.max(other.bit)
}

/// Whether the lock fields and the coding field, where there is one, are fields that can be it, and
/// no two of them are the same.
fn has_lock_fields(draft: &MapDraft) -> bool
    ensures { result ≡ faults.has_lock_fields draft.now }
{
    let fields = draft.fields.as_slice();
    names_lock_field(fields, &draft.wr)
        && names_lock_field(fields, &draft.rd)
        && draft.wr != draft.rd
        && may_be_coding(draft)
}

/// Whether the name is that of a plain field without read lock.
fn names_lock_field(fields: &[FieldDraft], name: &Name) -> bool
    ensures { result ≡ faults.names_lock_field fields.now name.now }
{
    match field_named(fields, name) {
        Some(field) => !field.key && field.read.is_none(),
        None => false,
    }
}

/// Whether there is no coding field, or it is a plain field other than the lock fields.
fn may_be_coding(draft: &MapDraft) -> bool
    ensures { result ≡ option_map_or (faults.names_coding_field draft.now) draft.now.coding true }
{
    match draft.coding {
        Some(name) => {
            names_plain_field(draft.fields.as_slice(), &name)
                && name != draft.wr
                && name != draft.rd
        }
        None => true,
    }
}

/// Whether the name is that of a plain field.
fn names_plain_field(fields: &[FieldDraft], name: &Name) -> bool
    ensures { result ≡ faults.names_plain_field fields.now name.now }
{
    match field_named(fields, name) {
        Some(field) => !field.key,
        None => false,
    }
}

/// The field of a name.
fn field_named(fields: &[FieldDraft], name: &Name) -> Option<FieldDraft>
    ensures { result ≡ map.field_named name.now fields.now }
{
    for field in fields {
        if field.name == *name {
            return Some(*field);
        }
    }
    None
}

/// Whether the locks of each field are bits of the lock fields.
fn have_their_locks(fields: &[FieldDraft], wr: &Name, rd: &Name) -> bool
    ensures { result ≡ list_all (faults.has_its_locks fields.now wr.now rd.now) fields.now }
{
    fields.iter().all(|field| {
        may_be_lock(fields, wr, field.write) && may_be_lock(fields, rd, field.read)
    })
}

/// Whether there is no lock of this number, or it is a bit of the field of the name.
fn may_be_lock(fields: &[FieldDraft], name: &Name, number: Option<u64>) -> bool
    ensures { result ≡ option_map_or (faults.has_bit fields.now name.now) number true }
{
    match number {
        Some(number) => has_bit(fields, name, number),
        None => true,
    }
}

fn has_bit(fields: &[FieldDraft], name: &Name, number: u64) -> bool
    ensures { result ≡ faults.has_bit fields.now name.now number }
{
    match field_named(fields, name) {
        Some(field) => number < field.count,
        None => false,
    }
}

/// Whether each field is plain, or can be a key field.
fn are_plain_or_key(blocks: &[u8], fields: &[FieldDraft]) -> bool
    ensures { result ≡ list_all (faults.is_plain_or_key blocks.now) fields.now }
{
    fields
        .iter()
        .all(|field| !field.key || is_key_field(blocks, field))
}

/// Whether the field is a whole block of 8 words with both locks.
fn is_key_field(blocks: &[u8], field: &FieldDraft) -> bool
    ensures { result ≡ faults.is_key_field blocks.now field.now }
{
    field.bit == 0
        && field.count == 256
        && words_of(blocks, field.block) == 8
        && field.write.is_some()
        && field.read.is_some()
}

/// The fields of these drafts.
fn make_fields(alloc: Global, drafts: &[FieldDraft]) -> Result<Vec<Field>, AllocError>
    requires { All IsSmall drafts.now }
    ensures { IfOk result (λ fields. fields.items ≡ drafts.now) }
{
    let mut fields = Vec::new(alloc);
    for draft in drafts {
        fields.push(make_field(draft))?;
    }
    Ok(fields)
}

fn make_field(draft: &FieldDraft) -> Field
    requires { IsSmall draft.now }
    ensures { result ≡ draft.now }
{
    Field {
        name: draft.name,
        block: draft.block as u8,
        bit: draft.bit as u16,
        count: draft.count as u16,
        write: make_number(draft.write),
        read: make_number(draft.read),
        key: draft.key,
    }
}

fn make_number(number: Option<u64>) -> Option<u8>
    requires { IfSome number (λ i. i < 256) }
    ensures { result ≡ number }
{
    match number {
        Some(number) => Some(number as u8),
        None => None,
    }
}
