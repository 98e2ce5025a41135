// What wishes ask for.
ghost use Rattle.std.specs.Prelude.{◌≡◌, ◌&&◌, ◌-◌, not, Some, None, if◌then◌else◌};
ghost use Rattle.fusemap_core.specs.Prelude.{holds};
ghost use Rattle.fuse_image.specs.Prelude.{places_where};
ghost use Rattle.fuse_plan.specs.Prelude.{number_has_one, asks_one, asks_zero, at_field, key_of_want, key_of_wish, wanted_key, wanted_keys};
ghost use Rattle.fuse_plan.specs.Wishes as asked;

use crate::fields::{bit_named, field_named, only, read_lock_named, write_lock_named};
use crate::number::Number;
use crate::values::{ones_in, zeros_in};
use crate::wish::{Want, Wish};
use fuse_image::{Bits, Image, Keys};
use fusemap_core::{Field, FuseMap};
use text_core::{Digest, Name};

/// What wishes ask for.
#[derive(Clone, Copy)]
pub(crate) struct Wants {
    /// The positions that are to be 1.
    pub(crate) ones: Bits,
    /// The positions that are to be 0.
    pub(crate) zeros: Bits,
    /// The keys that are asked for, by the blocks of their key fields.
    pub(crate) keys: Keys,
}

/// What the wishes ask for.
#[tactic(auto, unfolding(crate::specs::Wishes::wanted_ones, crate::specs::Wishes::wanted_zeros))]
pub(crate) fn wants_of(map: &FuseMap, wishes: &[Wish]) -> Wants
    ensures { result ≡ asked.wants_of map.now wishes.now }
{
    let mut ones = Bits::empty();
    let mut zeros = Bits::empty();
    for wish in wishes {
        ones = ones.join(&ones_of(map, wish));
        zeros = zeros.join(&zeros_of(map, wish));
    }
    Wants {
        ones,
        zeros,
        keys: wanted_keys(map, wishes),
    }
}

/// What is asked for and isn't burnt.
pub(crate) fn missing(image: &Image, wants: &Wants) -> Image
    ensures { result ≡ asked.missing image.now wants.now }
{
    Image {
        burnt: wants.ones.minus(&image.burnt),
        keys: wants.keys.minus(&image.keys),
    }
}

/// The positions that a wish asks to be 1.
fn ones_of(map: &FuseMap, wish: &Wish) -> Bits
    ensures { result ≡ places_where (λ p. asks_one map.now p wish.now) }
{
    match wish.want {
        Want::Bit(bit) => only(bit_named(map, &wish.field, bit)),
        Want::Value(value) => ones_named(map, &wish.field, &value),
        Want::Key(_) => Bits::empty(),
        Want::WriteLock => only(write_lock_named(map, &wish.field)),
        Want::ReadLock => only(read_lock_named(map, &wish.field)),
    }
}

/// The positions that a wish asks to be 0.
fn zeros_of(map: &FuseMap, wish: &Wish) -> Bits
    ensures { result ≡ places_where (λ p. asks_zero map.now p wish.now) }
{
    match wish.want {
        Want::Value(value) => zeros_named(map, &wish.field, &value),
        Want::Bit(_) => Bits::empty(),
        Want::Key(_) => Bits::empty(),
        Want::WriteLock => Bits::empty(),
        Want::ReadLock => Bits::empty(),
    }
}

/// The ones of a value of the field of a name, if the map has it.
fn ones_named(map: &FuseMap, name: &Name, value: &Number) -> Bits
    ensures { result ≡ places_where (λ p. at_field map.now
        (λ f. holds f p && number_has_one value.now (p.bit - f.bit)) name.now) }
{
    match field_named(map, name) {
        Some(field) => ones_in(&field, value),
        None => Bits::empty(),
    }
}

/// The zeros of a value of the field of a name, if the map has it.
fn zeros_named(map: &FuseMap, name: &Name, value: &Number) -> Bits
    ensures { result ≡ places_where (λ p. at_field map.now
        (λ f. holds f p && not (number_has_one value.now (p.bit - f.bit))) name.now) }
{
    match field_named(map, name) {
        Some(field) => zeros_in(&field, value),
        None => Bits::empty(),
    }
}

/// The keys that the wishes ask for.
#[tactic(auto, unfolding(crate::specs::Wishes::wanted_keys))]
fn wanted_keys(map: &FuseMap, wishes: &[Wish]) -> Keys
    ensures { result ≡ wanted_keys map.now wishes.now }
{
    Keys::new([
        wanted_key(map, wishes, 0),
        wanted_key(map, wishes, 1),
        wanted_key(map, wishes, 2),
        wanted_key(map, wishes, 3),
    ])
}

/// The digest of the first wish for a key of the block.
fn wanted_key(map: &FuseMap, wishes: &[Wish], block: u8) -> Option<Digest>
    ensures { result ≡ wanted_key map.now block wishes.now }
{
    for wish in wishes {
        let key = key_of_wish(map, wish, block);
        if key.is_some() {
            return key;
        }
    }
    None
}

/// The digest that a wish asks for in the block.
fn key_of_wish(map: &FuseMap, wish: &Wish, block: u8) -> Option<Digest>
    ensures { result ≡ key_of_wish map.now block wish.now }
{
    let field = field_named(map, &wish.field)?;
    key_of_want(&field, &wish.want, block)
}

/// The digest that is asked for, where the field is the key field of the block.
fn key_of_want(field: &Field, want: &Want, block: u8) -> Option<Digest>
    ensures { result ≡ key_of_want block want.now field.now }
{
    match want {
        Want::Key(digest) => if_there(*digest, field.key && field.block == block),
        Want::Bit(_) => None,
        Want::Value(_) => None,
        Want::WriteLock => None,
        Want::ReadLock => None,
    }
}

fn if_there(digest: Digest, is_there: bool) -> Option<Digest>
    ensures { result ≡ (if is_there then Some digest else None) }
{
    if is_there { Some(digest) } else { None }
}
