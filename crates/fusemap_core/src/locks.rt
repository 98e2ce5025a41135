// The locks of fields, and the positions that they govern.
ghost use Rattle.std.specs.Prelude.{◌≡◌, ◌<◌, ◌&&◌, ◌||◌, All, IfSome, length, position, option_and_then};
ghost use Rattle.std.specs.List.{list_any};
ghost use Rattle.fusemap_core.specs.Map as map;
ghost use Rattle.fusemap_core.specs.Prelude.{IsSmall, holds, is_lock, is_field_named, lock_at};

use crate::field::Field;
use crate::pos::Pos;
use text_core::Name;

/// The position of a lock by its number in the lock field of a name.
pub(crate) fn lock_of(fields: &[Field], name: &Name, number: Option<u8>) -> Option<Pos>
    requires { All IsSmall fields.now }
    ensures { result ≡ option_and_then (lock_at fields.now name.now) number }
{
    let number = number?;
    let field = field_named(fields, name)?;
    Some(Pos {
        block: field.block,
        bit: field.bit + u16::from(number),
    })
}

/// The field of a name.
fn field_named(fields: &[Field], name: &Name) -> Option<Field>
    requires { All IsSmall fields.now }
    ensures value { result ≡ map.field_named name.now fields.now }
    ensures small { IfSome result IsSmall }
{
    for field in fields {
        if field.name == *name {
            return Some(*field);
        }
    }
    None
}

/// The place of the first field of a name.
pub(crate) fn place_named(fields: &[Field], name: &Name) -> Option<usize>
    ensures value { result ≡ position (is_field_named name.now) fields.now }
    ensures within { IfSome result (λ place. place < length fields.now) }
{
    fields.iter().position(|field| field.name == *name)
}

/// The place of the first field that has a position.
pub(crate) fn place_of(fields: &[Field], pos: Pos) -> Option<usize>
    ensures value { result ≡ position (λ f. holds f pos) fields.now }
    ensures within { IfSome result (λ place. place < length fields.now) }
{
    fields.iter().position(|field| field.holds(pos))
}

/// Whether a position lies in a field that the lock governs. The lock fields are those of the names
/// `wr` and `rd`.
pub(crate) fn is_governed(fields: &[Field], wr: &Name, rd: &Name, lock: Pos, pos: Pos) -> bool
    requires { All IsSmall fields.now }
    ensures { result ≡ list_any (λ f. holds f pos
        && (is_lock (option_and_then (lock_at fields.now wr.now) f.write) lock
        || is_lock (option_and_then (lock_at fields.now rd.now) f.read) lock)) fields.now }
{
    for field in fields {
        if field.holds(pos) && is_locked_by(fields, wr, rd, field, lock) {
            return true;
        }
    }
    false
}

/// Whether a lock of the field is this one.
fn is_locked_by(fields: &[Field], wr: &Name, rd: &Name, field: &Field, lock: Pos) -> bool
    requires { All IsSmall fields.now }
    ensures { result ≡ (is_lock (option_and_then (lock_at fields.now wr.now) field.now.write) lock
        || is_lock (option_and_then (lock_at fields.now rd.now) field.now.read) lock) }
{
    is_lock(lock_of(fields, wr, field.write), lock)
        || is_lock(lock_of(fields, rd, field.read), lock)
}

/// Whether there is a lock, and it is this position.
fn is_lock(found: Option<Pos>, lock: Pos) -> bool
    ensures { result ≡ is_lock found lock }
{
    match found {
        Some(pos) => pos == lock,
        None => false,
    }
}
