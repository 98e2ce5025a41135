// Fields by their names, and the sets of their positions.
ghost use Rattle.std.specs.Prelude.{◌≡◌, IfSome, option_and_then};
ghost use Rattle.fusemap_core.specs.Map as fuse_map;
ghost use Rattle.fusemap_core.specs.Prelude.{IsMap, IsSmall, is_lock};
ghost use Rattle.fuse_image.specs.Prelude.{IsPlace, places_where};
ghost use Rattle.fuse_plan.specs.Plans as plans;
ghost use Rattle.fuse_plan.specs.Prelude.{bit_within};

use fuse_image::{Bits, coding_field, positions_of};
use fusemap_core::{Field, FuseMap, Pos};
use text_core::Name;

/// A fact: a map keeps the rules of maps. Nothing happens.
pub(crate) fn fact_map(map: &FuseMap)
    ensures { IsMap map.now }
{
    let _fields = map.fields();
}

/// The field of a name, if the map has it.
pub(crate) fn field_named(map: &FuseMap, name: &Name) -> Option<Field>
    ensures value { result ≡ fuse_map.field_named name.now map.now.fields }
    ensures small { IfSome result IsSmall }
{
    let id = map.field(name)?;
    Some(map.get(id))
}

/// The write lock of the field of a name, if it has one.
pub(crate) fn write_lock_named(map: &FuseMap, name: &Name) -> Option<Pos>
    ensures value { result
        ≡ option_and_then (fuse_map.write_lock map.now) (fuse_map.field_named name.now map.now.fields) }
    ensures place { IfSome result IsPlace }
{
    let id = map.field(name)?;
    map.write_lock(id)
}

/// The read lock of the field of a name, if it has one.
pub(crate) fn read_lock_named(map: &FuseMap, name: &Name) -> Option<Pos>
    ensures value { result
        ≡ option_and_then (fuse_map.read_lock map.now) (fuse_map.field_named name.now map.now.fields) }
    ensures place { IfSome result IsPlace }
{
    let id = map.field(name)?;
    map.read_lock(id)
}

/// A bit of the field of a name, if it has that bit.
pub(crate) fn bit_named(map: &FuseMap, name: &Name, bit: u64) -> Option<Pos>
    ensures value { result
        ≡ option_and_then (λ f. bit_within f bit) (fuse_map.field_named name.now map.now.fields) }
    ensures place { IfSome result IsPlace }
{
    let field = field_named(map, name)?;
    if bit >= u64::from(field.count) {
        return None;
    }
    Some(Pos {
        block: field.block,
        bit: field.bit + bit as u16,
    })
}

/// The set of a position, and the empty set where there is none.
pub(crate) fn only(pos: Option<Pos>) -> Bits
    requires { IfSome pos IsPlace }
    ensures { result ≡ places_where (is_lock pos) }
{
    match pos {
        Some(pos) => Bits::empty().with_run(pos, 1),
        None => Bits::empty(),
    }
}

/// The positions of the field of a name, if the map has it.
pub(crate) fn positions_named(map: &FuseMap, name: &Name) -> Bits
    ensures { result ≡ plans.positions_named map.now name.now }
{
    match field_named(map, name) {
        Some(field) => positions_of(&field),
        None => Bits::empty(),
    }
}

/// The positions of the coding field, if the map names one.
pub(crate) fn coding_positions(map: &FuseMap) -> Bits
    ensures { result ≡ plans.coding_positions map.now }
{
    match coding_field(map) {
        Some(id) => positions_of(&map.get(id)),
        None => Bits::empty(),
    }
}

/// The positions of the two lock fields.
pub(crate) fn lock_positions(map: &FuseMap) -> Bits
    ensures { result ≡ plans.lock_positions map.now }
{
    positions_named(map, &map.wr()).join(&positions_named(map, &map.rd()))
}
