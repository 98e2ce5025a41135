// What a read-back says of a batch.
ghost use Rattle.std.specs.Prelude.{◌≡◌, is_some, if◌then◌else◌, ◌||◌, None};
ghost use Rattle.fusemap_core.specs.Prelude.{Map};
ghost use Rattle.fuse_image.specs.Prelude.{is_hidden, Positions, places_where, some_key};
ghost use Rattle.fuse_plan.specs.Outcome as outcome;

use crate::verdict::{ChipFault, Verdict};
use fuse_image::{Bits, Image, Keys, ReadBack, hidden_positions, is_hidden_key};
use fusemap_core::FuseMap;
use text_core::Digest;

/// What was burnt, isn't read-protected, and reads 0.
fn lost(burnt: &Bits, hidden: &Bits, ones: &Bits) -> Bits
    ensures { (m : Map) (after : Positions) → hidden.now ≡ places_where (is_hidden m after) →
        result ≡ outcome.lost m after burnt.now ones.now }
{
    burnt.fact_places();
    burnt.minus(hidden).minus(ones)
}

/// What reads 1, and was neither burnt nor asked for, or is read-protected.
fn stray(burnt: &Bits, batch: &Bits, hidden: &Bits, ones: &Bits) -> Bits
    ensures { (m : Map) (after : Positions) → hidden.now ≡ places_where (is_hidden m after) →
        result ≡ outcome.stray m after burnt.now batch.now ones.now }
{
    ones.fact_places();
    ones.minus(&burnt.join(batch)).join(&ones.meet(hidden))
}

/// Whether a key block shows what it shouldn't, or doesn't show what it should.
#[tactic(auto, unfolding(crate::specs::Outcome::is_bad_key))]
fn has_bad_key(map: &FuseMap, after: &Bits, known: &Keys, asked: &Keys, shown: &Keys) -> bool
    ensures { result
        ≡ some_key map.now (outcome.is_bad_key map.now after.now known.now asked.now shown.now) }
{
    map.fields().iter().any(|field| {
        let is_hidden = is_hidden_key(map, after, field.block);
        let known = known.get(field.block);
        let asked = asked.get(field.block);
        field.key && is_bad(is_hidden, known, asked, shown.get(field.block))
    })
}

fn is_bad(
    is_hidden: bool,
    known: Option<Digest>,
    asked: Option<Digest>,
    shown: Option<Digest>,
) -> bool
    ensures { result ≡ (if is_hidden then is_some shown else outcome.is_other known asked shown) }
{
    if is_hidden {
        return shown.is_some();
    }
    is_other(known, asked, shown)
}

/// Whether what a readable key block shows isn't its key, or, where none was known, not the one that
/// was asked for.
fn is_other(known: Option<Digest>, asked: Option<Digest>, shown: Option<Digest>) -> bool
    ensures { result ≡ outcome.is_other known asked shown }
{
    match (known, shown) {
        (Some(known), Some(shown)) => known != shown,
        (Some(_), None) => true,
        (None, Some(shown)) => is_unasked(asked, shown),
        (None, None) => false,
    }
}

fn is_unasked(asked: Option<Digest>, shown: Digest) -> bool
    ensures { result ≡ outcome.is_other None asked (Some shown) }
{
    match asked {
        Some(asked) => asked != shown,
        None => true,
    }
}

/// What of a batch isn't burnt yet.
#[tactic(auto, unfolding(crate::specs::Outcome::short_bits, crate::specs::Outcome::short_keys))]
fn rest(image: &Image, batch: &Bits, keys: &Keys, readback: &ReadBack) -> Image
    ensures burnt { result.burnt ≡ outcome.short_bits batch.now readback.now.ones }
    ensures keys { result.keys
        ≡ outcome.short_keys image.now.keys keys.now readback.now.shown }
{
    Image {
        burnt: batch.minus(&readback.ones),
        keys: keys.minus(&image.keys).minus(&readback.shown),
    }
}

fn short_or_match(rest: Image) -> Verdict
    ensures { result ≡ outcome.short_or_match rest }
{
    if !rest.burnt.is_empty() || !rest.keys.is_empty() {
        return Verdict::Short(rest);
    }
    Verdict::Match
}

/// The outcome under the locks of the positions that are burnt after the read-back.
fn verdict_after(
    map: &FuseMap,
    after: &Bits,
    image: &Image,
    batch: &Bits,
    keys: &Keys,
    readback: &ReadBack,
) -> Verdict
    ensures { result
        ≡ outcome.verdict_under map.now after.now image.now batch.now keys.now readback.now }
{
    let hidden = hidden_positions(map, after);
    if !lost(&image.burnt, &hidden, &readback.ones).is_empty() {
        return Verdict::Fault(ChipFault::Lost);
    }
    if !stray(&image.burnt, batch, &hidden, &readback.ones).is_empty() {
        return Verdict::Fault(ChipFault::Stray);
    }
    if has_bad_key(map, after, &image.keys, keys, &readback.shown) {
        return Verdict::Fault(ChipFault::Key);
    }
    short_or_match(rest(image, batch, keys, readback))
}

/// Compares a read-back with what is burnt and what was to be burnt, and tells what is known to be
/// burnt now, whatever the verdict is. Read protection is judged by what is burnt after the read-back.
pub fn compare(
    map: &FuseMap,
    image: &Image,
    batch: &Bits,
    keys: &Keys,
    readback: &ReadBack,
) -> (Verdict, Image)
    ensures verdict { result.0
        ≡ outcome.verdict_of map.now image.now batch.now keys.now readback.now }
    ensures image { result.1 ≡ outcome.image_after image.now readback.now }
{
    let after = Image {
        burnt: image.burnt.join(&readback.ones),
        keys: image.keys.join(&readback.shown),
    };
    let verdict = verdict_after(map, &after.burnt, image, batch, keys, readback);
    (verdict, after)
}
