// What the words of a chip show, with digests in place of its keys.
ghost use Rattle.std.specs.Prelude.{◌≡◌, ◌<◌, ◌↔◌, ◌&&◌, ◌==◌, IfSome, IsTrue, is_some, length, map as list_map, option_and_then};
ghost use Rattle.std.specs.List.{list_all};
ghost use Rattle.std.specs.FinMap as table;
ghost use Rattle.fusemap_core.specs.declared.field.Field.{Field};
ghost use Rattle.fusemap_core.specs.Prelude.{IsFieldOf, field_of};
ghost use Rattle.fuse_image.specs.Prelude.{table_where, AreKeys, AreOutsideKeys, WordsFitMap, redacted};
ghost use Rattle.fuse_image.specs.Locks as locks;
ghost use Rattle.fuse_image.specs.Redaction as redaction;

use crate::bits::Bits;
use crate::keys::Keys;
use crate::locks::{
    hidden_positions, is_burnt, is_hidden_key, is_key_block, key_positions, positions_of,
};
use crate::words::BlockWords;
use fusemap_core::{Field, FieldId, FuseMap};
use text_core::Digest;

/// What a chip shows when it is read back.
#[derive(Clone, Copy)]
pub struct ReadBack {
    /// The positions outside key fields that read 1.
    pub ones: Bits,
    /// The digests of the key blocks that aren't all zeros.
    pub shown: Keys,
}

/// Whether there are as many blocks as the map has, each of as many words.
pub fn fits(map: &FuseMap, words: &BlockWords) -> bool
    ensures { IsTrue result ↔ WordsFitMap map.now words.now }
{
    let blocks = map.blocks();
    blocks.len() == words.block_count() && have_lengths(words, blocks)
}

/// Whether each block has as many words as the number at its place says.
fn have_lengths(words: &BlockWords, lengths: &[u8]) -> bool
    requires { length lengths.now ≡ length words.now }
    ensures { IsTrue result ↔ (list_map length words.now ≡ lengths.now) }
{
    for index in 0..lengths.len() {
        if words.block(index).len() != usize::from(lengths[index]) {
            return false;
        }
    }
    true
}

/// What the words of a chip show. Each key block that isn't all zeros is replaced by the SHA-256
/// digest of its bytes as they stand; one that is all zeros shows nothing.
#[tactic(auto, unfolding(crate::specs::Redaction::redacted))]
pub fn redact(map: &FuseMap, words: &BlockWords) -> ReadBack
    ensures value { result ≡ redacted map.now words.now }
    ensures keys { AreKeys map.now result.shown }
    ensures outside_keys { AreOutsideKeys map.now result.ones }
{
    ReadBack {
        ones: plain_ones(map, words),
        shown: shown_keys(map, words),
    }
}

/// The positions outside key fields that read 1.
fn plain_ones(map: &FuseMap, words: &BlockWords) -> Bits
    ensures { result ≡ redaction.plain_ones map.now words.now }
{
    Bits::from_words(words.to_words()).minus(&key_positions(map))
}

/// The digests of the key blocks that aren't all zeros.
fn shown_keys(map: &FuseMap, words: &BlockWords) -> Keys
    ensures { result ≡ table_where (redaction.shown_key map.now words.now) }
{
    Keys::new([
        shown_key(map, words, 0),
        shown_key(map, words, 1),
        shown_key(map, words, 2),
        shown_key(map, words, 3),
    ])
}

fn shown_key(map: &FuseMap, words: &BlockWords, block: u8) -> Option<Digest>
    ensures { result ≡ redaction.shown_key map.now words.now block }
{
    let index = usize::from(block);
    if index < words.block_count() && is_key_block(map, block) && has_one(words.block(index)) {
        return Some(words.digest(index));
    }
    None
}

/// Whether a word of the block isn't zero.
fn has_one(block: &[u32]) -> bool
    ensures { result ≡ redaction.block_has_one block.now }
{
    !are_zeros(block)
}

fn are_zeros(words: &[u32]) -> bool
    ensures { result ≡ list_all (λ word. word == 0) words.now }
{
    words.iter().all(|word| *word == 0)
}

/// Whether the map names a coding field that doesn't read 0, or that the read-back's own locks hide
/// (ESP32's CODING_SCHEME: 0 is None, the only scheme that is known here).
pub fn has_coding_scheme(map: &FuseMap, readback: &ReadBack) -> bool
    ensures { result ≡ redaction.has_coding_scheme map.now readback.now.ones }
{
    coding_field(map).is_some_and(|id| may_be_set(map, id, &readback.ones))
}

/// The coding field, if the map names one.
pub fn coding_field(map: &FuseMap) -> Option<FieldId>
    ensures is_one { IfSome result (IsFieldOf map.now) }
    ensures same { option_and_then (field_of map.now) result ≡ redaction.coding_field map.now }
{
    let name = map.coding()?;
    map.field(&name)
}

/// Whether a field doesn't read 0, or is hidden by what reads 1.
fn may_be_set(map: &FuseMap, id: FieldId, ones: &Bits) -> bool
    requires { IsFieldOf map.now id }
    ensures { (f : Field) → field_of map.now id ≡ Some f →
        result ≡ redaction.may_be_set map.now ones.now f }
{
    let field = map.get(id);
    ones.meets(&positions_of(&field)) || is_burnt(ones, map.read_lock(id))
}

/// Whether a position or a key field that the read-back's own read locks hide shows something.
pub fn shows_what_is_hidden(map: &FuseMap, readback: &ReadBack) -> bool
    ensures { result ≡ redaction.shows_what_is_hidden map.now readback.now }
{
    readback.ones.meets(&hidden_positions(map, &readback.ones))
        || shows_hidden_key(map, &readback.ones, &readback.shown)
}

/// Whether a key field that is hidden shows a key.
fn shows_hidden_key(map: &FuseMap, ones: &Bits, shown: &Keys) -> bool
    ensures { result ≡ redaction.some_key map.now
        (λ b. locks.is_hidden_key map.now ones.now b && is_some (table.get shown.now b)) }
{
    map.fields().iter().any(|field| {
        field.key && is_hidden_key(map, ones, field.block) && shown.get(field.block).is_some()
    })
}
