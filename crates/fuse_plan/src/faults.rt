// The faults of wishes, each by its own test.
ghost use Rattle.std.specs.Prelude.{◌≡◌, ◌≤◌, ◌-◌, not, false, bytes_eq};
ghost use Rattle.std.specs.List.{list_any, range_with_len};
ghost use Rattle.std.specs.Option.{option_map_or};
ghost use Rattle.text_core.specs.Prelude.{first_that_holds};
ghost use Rattle.fusemap_core.specs.Prelude.{IsSmall};
ghost use Rattle.fuse_image.specs.Locks as locks;
ghost use Rattle.fuse_plan.specs.Plans as plans;
ghost use Rattle.fuse_plan.specs.Prelude.{faults_with, number_has_one, wish_passes};

use crate::fault::PlanFault;
use crate::fields::{coding_positions, field_named};
use crate::number::Number;
use crate::values::ones_from;
use crate::wants::Wants;
use crate::wish::{Want, Wish};
use fuse_image::{
    Bits, Image, Keys, hidden_positions, is_hidden_key, is_write_protected_key,
    write_protected_positions,
};
use fusemap_core::{Field, FuseMap, Pos};
use text_core::Digest;

/// The lowest fault of the wishes, by what they ask for and what of it is missing.
pub(crate) fn lowest_fault(
    map: &FuseMap,
    image: &Image,
    wishes: &[Wish],
    wants: &Wants,
    lacking: &Image,
) -> Option<PlanFault>
    ensures { result
        ≡ first_that_holds (faults_with map.now image.now wishes.now wants.now lacking.now) }
{
    first_fault(&[
        (some_name_no_field(map, wishes), PlanFault::UnknownField),
        (some_name_no_bit(map, wishes), PlanFault::UnmappedBit),
        (some_are_too_wide(map, wishes), PlanFault::ValueTooWide),
        (wants.zeros.meets(&image.burnt), PlanFault::ClearsBurnt),
        (contradict(wants, wishes), PlanFault::Contradiction),
        (are_wrong(map, wants, wishes), PlanFault::WrongKind),
        (
            some_ask_other_key(map, &image.keys, wishes),
            PlanFault::OtherKey,
        ),
        (
            is_protected_in(map, &image.burnt, lacking),
            PlanFault::WriteProtected,
        ),
        (is_hidden_in(map, &image.burnt, lacking), PlanFault::Hidden),
        (some_name_no_lock(map, wishes), PlanFault::NoLock),
    ])
}

/// The fault of the first condition that holds, where the conditions are in the order of their faults.
fn first_fault(faults: &[(bool, PlanFault)]) -> Option<PlanFault>
    ensures { result ≡ first_that_holds faults.now }
{
    for (holds, fault) in faults {
        if *holds {
            return Some(*fault);
        }
    }
    None
}

/// Whether a bit is asked to be 1 and to be 0, or a field to hold two keys.
fn contradict(wants: &Wants, wishes: &[Wish]) -> bool
    ensures { result ≡ plans.contradict wants.now wishes.now }
{
    wants.ones.meets(&wants.zeros) || ask_two_keys(wishes)
}

/// Whether a wish isn't of a kind that its field takes, or a bit of the coding field is asked to be 1.
fn are_wrong(map: &FuseMap, wants: &Wants, wishes: &[Wish]) -> bool
    ensures { result ≡ plans.are_wrong map.now wants.now wishes.now }
{
    some_are_of_wrong_kind(map, wishes) || wants.ones.meets(&coding_positions(map))
}

/// Whether a wish names a field that the map hasn't.
fn some_name_no_field(map: &FuseMap, wishes: &[Wish]) -> bool
    ensures { result ≡ list_any (plans.names_no_field map.now) wishes.now }
{
    wishes
        .iter()
        .any(|wish| field_named(map, &wish.field).is_none())
}

/// Whether a wish names a bit that its field hasn't.
fn some_name_no_bit(map: &FuseMap, wishes: &[Wish]) -> bool
    ensures { result ≡ list_any (wish_passes map.now plans.is_past) wishes.now }
{
    wishes.iter().any(|wish| {
        field_named(map, &wish.field).is_some_and(|field| is_past(&wish.want, &field))
    })
}

fn is_past(want: &Want, field: &Field) -> bool
    ensures { result ≡ plans.is_past want.now field.now }
{
    match want {
        Want::Bit(bit) => u64::from(field.count) <= *bit,
        Want::Value(_) => false,
        Want::Key(_) => false,
        Want::WriteLock => false,
        Want::ReadLock => false,
    }
}

/// Whether a wish is for a value with a 1 at or above the number of its field's bits.
fn some_are_too_wide(map: &FuseMap, wishes: &[Wish]) -> bool
    ensures { result ≡ list_any (wish_passes map.now plans.is_wide) wishes.now }
{
    wishes.iter().any(|wish| {
        field_named(map, &wish.field).is_some_and(|field| is_wide(&wish.want, &field))
    })
}

fn is_wide(want: &Want, field: &Field) -> bool
    requires { IsSmall field.now }
    ensures { result ≡ plans.is_wide want.now field.now }
{
    match want {
        Want::Value(value) => has_one_from(value, field.count),
        Want::Bit(_) => false,
        Want::Key(_) => false,
        Want::WriteLock => false,
        Want::ReadLock => false,
    }
}

/// Whether the number has a 1 at a bit from `start` on: as it stands in a block, it meets the
/// positions from there to the block's end.
fn has_one_from(value: &Number, start: u16) -> bool
    requires { start ≤ 256 }
    ensures { result ≡ list_any (number_has_one value.now) (range_with_len start (256 - start)) }
{
    let ones = ones_from(value, Pos { block: 0, bit: 0 });
    let past = Pos {
        block: 0,
        bit: start,
    };
    ones.meets(&Bits::empty().with_run(past, 256 - start))
}

/// Whether two wishes for keys name one field with two digests.
fn ask_two_keys(wishes: &[Wish]) -> bool
    ensures { result ≡ plans.ask_two_keys wishes.now }
{
    wishes.iter().any(|wish| some_ask_another_key(wish, wishes))
}

fn some_ask_another_key(wish: &Wish, others: &[Wish]) -> bool
    ensures { result ≡ list_any (plans.asks_another_key wish.now) others.now }
{
    others.iter().any(|other| asks_another_key(wish, other))
}

/// Whether the wishes are for two keys of one field.
fn asks_another_key(wish: &Wish, other: &Wish) -> bool
    ensures { result ≡ plans.asks_another_key wish.now other.now }
{
    wish.field == other.field && are_two_keys(&wish.want, &other.want)
}

fn are_two_keys(want: &Want, other: &Want) -> bool
    ensures { result ≡ plans.are_two_keys want.now other.now }
{
    match (want, other) {
        (Want::Key(digest), Want::Key(other)) => digest != other,
        _ => false,
    }
}

/// Whether a wish is for a key of a plain field, or for a bit or a value of a key field.
fn some_are_of_wrong_kind(map: &FuseMap, wishes: &[Wish]) -> bool
    ensures { result ≡ list_any (wish_passes map.now plans.is_wrong) wishes.now }
{
    wishes.iter().any(|wish| {
        field_named(map, &wish.field).is_some_and(|field| is_wrong(&wish.want, &field))
    })
}

fn is_wrong(want: &Want, field: &Field) -> bool
    ensures { result ≡ plans.is_wrong want.now field.now }
{
    match want {
        Want::Bit(_) => field.key,
        Want::Value(_) => field.key,
        Want::Key(_) => !field.key,
        Want::WriteLock => false,
        Want::ReadLock => false,
    }
}

/// Whether a wish is for a key of a key field that is known to hold another.
fn some_ask_other_key(map: &FuseMap, keys: &Keys, wishes: &[Wish]) -> bool
    ensures { result ≡ list_any (wish_passes map.now (plans.is_other_key keys.now)) wishes.now }
{
    wishes.iter().any(|wish| {
        field_named(map, &wish.field).is_some_and(|field| is_other_key(keys, &wish.want, &field))
    })
}

fn is_other_key(keys: &Keys, want: &Want, field: &Field) -> bool
    requires { IsSmall field.now }
    ensures { result ≡ plans.is_other_key keys.now want.now field.now }
{
    match want {
        Want::Key(digest) => field.key && is_other(keys.get(field.block), digest),
        Want::Bit(_) => false,
        Want::Value(_) => false,
        Want::WriteLock => false,
        Want::ReadLock => false,
    }
}

/// Whether a digest is known, and it is another.
fn is_other(known: Option<Digest>, digest: &Digest) -> bool
    ensures { result ≡ option_map_or (λ known. not (bytes_eq known digest.now)) known false }
{
    known.is_some_and(|known| known != *digest)
}

/// Whether a position or a key is write-protected.
fn is_protected_in(map: &FuseMap, burnt: &Bits, part: &Image) -> bool
    ensures { result ≡ plans.is_protected_in map.now burnt.now part.now }
{
    part.burnt.meets(&write_protected_positions(map, burnt))
        || has_protected_key(map, burnt, &part.keys)
}

fn has_protected_key(map: &FuseMap, burnt: &Bits, keys: &Keys) -> bool
    ensures { result
        ≡ plans.has_key_where map.now keys.now (locks.is_write_protected_key map.now burnt.now) }
{
    map.fields().iter().any(|field| {
        field.key
            && keys.get(field.block).is_some()
            && is_write_protected_key(map, burnt, field.block)
    })
}

/// Whether a position or a key is read-protected.
fn is_hidden_in(map: &FuseMap, burnt: &Bits, part: &Image) -> bool
    ensures { result ≡ plans.is_hidden_in map.now burnt.now part.now }
{
    part.burnt.meets(&hidden_positions(map, burnt)) || has_hidden_key(map, burnt, &part.keys)
}

fn has_hidden_key(map: &FuseMap, burnt: &Bits, keys: &Keys) -> bool
    ensures { result ≡ plans.has_key_where map.now keys.now (locks.is_hidden_key map.now
        burnt.now) }
{
    map.fields().iter().any(|field| {
        field.key && keys.get(field.block).is_some() && is_hidden_key(map, burnt, field.block)
    })
}

/// Whether a wish is for a lock that its field hasn't.
fn some_name_no_lock(map: &FuseMap, wishes: &[Wish]) -> bool
    ensures { result ≡ list_any (wish_passes map.now (plans.lacks_lock map.now)) wishes.now }
{
    wishes.iter().any(|wish| {
        field_named(map, &wish.field).is_some_and(|field| lacks_lock(map, &wish.want, &field))
    })
}

fn lacks_lock(map: &FuseMap, want: &Want, field: &Field) -> bool
    ensures { result ≡ plans.lacks_lock map.now want.now field.now }
{
    match want {
        Want::WriteLock => map.write_lock_of(field).is_none(),
        Want::ReadLock => map.read_lock_of(field).is_none(),
        Want::Bit(_) => false,
        Want::Value(_) => false,
        Want::Key(_) => false,
    }
}
