// What the locks of a map hide and protect.
ghost use Rattle.std.specs.Prelude.{◌≡◌, ◌<◌, ◌&&◌, ◌==◌, IfSome};
ghost use Rattle.std.specs.List.{list_any};
ghost use Rattle.fusemap_core.specs.Prelude.{IsSmall, holds};
ghost use Rattle.fuse_image.specs.Locks as locks;
ghost use Rattle.fuse_image.specs.Prelude.{has_burnt_lock, positions_in, IsPlace, places_where};

use crate::bits::Bits;
use fusemap_core::{Field, FuseMap, Pos};

/// The two locks that a field may have: one against further burning, one against reading.
#[derive(Clone, Copy)]
enum Lock {
    Write,
    Read,
}

/// The positions that lie in fields whose read lock is burnt: they read as zeros.
#[tactic(auto, unfolding(crate::specs::Locks::is_hidden))]
pub fn hidden_positions(map: &FuseMap, burnt: &Bits) -> Bits
    ensures { result ≡ places_where (locks.is_hidden map.now burnt.now) }
{
    locked_positions(map, Lock::Read, burnt)
}

/// The positions that lie in fields whose write lock is burnt: they can't be burnt any more.
#[tactic(auto, unfolding(crate::specs::Locks::is_write_protected))]
pub fn write_protected_positions(map: &FuseMap, burnt: &Bits) -> Bits
    ensures { result ≡ places_where (locks.is_write_protected map.now burnt.now) }
{
    locked_positions(map, Lock::Write, burnt)
}

/// Whether a position lies in a field whose read lock is burnt.
#[tactic(auto, unfolding(crate::specs::Locks::is_hidden))]
pub(crate) fn is_hidden(map: &FuseMap, burnt: &Bits, pos: Pos) -> bool
    ensures { result ≡ locks.is_hidden map.now burnt.now pos }
{
    is_locked(map, Lock::Read, burnt, pos)
}

/// Whether a position lies in a field whose write lock is burnt.
#[tactic(auto, unfolding(crate::specs::Locks::is_write_protected))]
pub(crate) fn is_write_protected(map: &FuseMap, burnt: &Bits, pos: Pos) -> bool
    ensures { result ≡ locks.is_write_protected map.now burnt.now pos }
{
    is_locked(map, Lock::Write, burnt, pos)
}

/// Whether a block is a key field whose read lock is burnt.
#[tactic(auto, unfolding(crate::specs::Locks::is_hidden_key))]
pub fn is_hidden_key(map: &FuseMap, burnt: &Bits, block: u8) -> bool
    ensures { result ≡ locks.is_hidden_key map.now burnt.now block }
{
    is_locked_key(map, Lock::Read, burnt, block)
}

/// Whether a block is a key field whose write lock is burnt.
#[tactic(auto, unfolding(crate::specs::Locks::is_write_protected_key))]
pub fn is_write_protected_key(map: &FuseMap, burnt: &Bits, block: u8) -> bool
    ensures { result ≡ locks.is_write_protected_key map.now burnt.now block }
{
    is_locked_key(map, Lock::Write, burnt, block)
}

/// The positions that lie in key fields.
#[tactic(auto, unfolding(crate::specs::Locks::is_key_position))]
pub fn key_positions(map: &FuseMap) -> Bits
    ensures { result ≡ places_where (locks.is_key_position map.now) }
{
    let fields = map.fields();
    let mut positions = Bits::empty();
    for field in fields {
        if field.key {
            let first = field.first();
            positions = positions.with_run(first, field.count);
        }
    }
    positions
}

/// Whether a block is a key field.
pub fn is_key_block(map: &FuseMap, block: u8) -> bool
    ensures { result ≡ locks.is_key_block map.now block }
{
    map.fields()
        .iter()
        .any(|field| field.key && field.block == block)
}

/// The positions of a field.
pub fn positions_of(field: &Field) -> Bits
    requires { IsSmall field.now }
    ensures { result ≡ places_where (holds field.now) }
{
    Bits::empty().with_run(field.first(), field.count)
}

/// The positions of the fields with a burnt lock of one kind.
fn locked_positions(map: &FuseMap, lock: Lock, burnt: &Bits) -> Bits
    ensures { result ≡ positions_in (has_burnt_lock map.now lock burnt.now) map.now.fields }
{
    let fields = map.fields();
    let mut positions = Bits::empty();
    for field in fields {
        if is_burnt(burnt, lock_of(map, lock, field)) {
            positions = positions.with_run(field.first(), field.count);
        }
    }
    positions
}

/// Whether a block is a key field with a burnt lock of one kind.
fn is_locked_key(map: &FuseMap, lock: Lock, burnt: &Bits, block: u8) -> bool
    ensures { result ≡ list_any
        (λ f. f.key && (f.block == block && has_burnt_lock map.now lock burnt.now f))
        map.now.fields }
{
    let fields = map.fields();
    for field in fields {
        if field.key && field.block == block && is_burnt(burnt, lock_of(map, lock, field)) {
            return true;
        }
    }
    false
}

/// Whether a position lies in a field with a burnt lock of one kind.
fn is_locked(map: &FuseMap, lock: Lock, burnt: &Bits, pos: Pos) -> bool
    ensures { result ≡ list_any
        (λ f. holds f pos && has_burnt_lock map.now lock burnt.now f) map.now.fields }
{
    let fields = map.fields();
    for field in fields {
        if field.holds(pos) && is_burnt(burnt, lock_of(map, lock, field)) {
            return true;
        }
    }
    false
}

/// The position that is a lock of the field, if it has one.
fn lock_of(map: &FuseMap, lock: Lock, field: &Field) -> Option<Pos>
    ensures { result ≡ locks.lock_of map.now lock field.now }
{
    match lock {
        Lock::Write => map.write_lock_of(field),
        Lock::Read => map.read_lock_of(field),
    }
}

/// Whether there is a lock, and it is burnt.
pub fn is_burnt(burnt: &Bits, lock: Option<Pos>) -> bool
    requires { IfSome lock IsPlace }
    ensures { result ≡ locks.is_burnt burnt.now lock }
{
    lock.is_some_and(|pos| burnt.has(pos))
}
