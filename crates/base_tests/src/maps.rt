//! The sample fuse map, read whole and copied, and shelves of maps.

ghost use Rattle.std.specs.Prelude.{IfSome};
ghost use Rattle.fusemap_core.specs.Prelude.{IsFieldOf};

use fusemap_core::{FieldId, FuseMap, MapFault, NumberCache, Pos, read_map};
use std::alloc::Global;
use std::fmt::Write;
use std::test::Fail;
use test_fixtures::samples::MAP;
use text_core::Name;

/// A position: its block and its bit.
type Place = (u8, u16);

/// A field: its name, where it lies (its block, its first bit and how many bits), the bits of block 0
/// that are its write lock and its read lock, and whether it is a key field.
type FieldRow = (&'static str, (u8, u16, u16), Option<u16>, Option<u16>, bool);

const FIELDS: &[FieldRow] = &[
    ("WR_DIS", (0, 0, 16), None, None, false),
    ("RD_DIS", (0, 16, 4), None, None, false),
    ("CODING_SCHEME", (0, 192, 2), None, None, false),
    ("JTAG_DISABLE", (0, 198, 1), Some(14), None, false),
    ("BLOCK1", (1, 0, 256), Some(7), Some(16), true),
    ("BLOCK2", (2, 0, 256), Some(8), Some(17), true),
    ("BLOCK3", (3, 0, 256), Some(9), Some(18), false),
];

/// Positions, and the names of the fields that they lie in: "" for none.
const PLACES: &[(Place, &str)] = &[
    ((0, 0), "WR_DIS"),
    ((0, 15), "WR_DIS"),
    ((0, 16), "RD_DIS"),
    ((0, 19), "RD_DIS"),
    ((0, 20), ""),
    ((0, 197), ""),
    ((0, 198), "JTAG_DISABLE"),
    ((0, 199), ""),
    ((0, 224), ""),
    ((1, 0), "BLOCK1"),
    ((1, 256), ""),
    ((3, 255), "BLOCK3"),
    ((4, 0), ""),
];

/// A lock, a position, and whether the lock governs the position.
const GOVERNED: &[(Place, Place, bool)] = &[
    ((0, 14), (0, 198), true),
    ((0, 14), (0, 197), false),
    ((0, 13), (0, 198), false),
    ((0, 7), (1, 255), true),
    ((0, 16), (1, 255), true),
    ((0, 16), (2, 0), false),
    ((0, 17), (2, 0), true),
    ((0, 18), (3, 0), true),
    ((1, 7), (1, 0), false),
    ((0, 0), (0, 0), false),
];

fn pos_of(place: Place) -> Pos {
    Pos {
        block: place.0,
        bit: place.1,
    }
}

/// Whether the field of a name is as a row says.
fn is_field(map: &FuseMap, row: &FieldRow) -> bool {
    let Some(id) = field_of(map, row.0) else {
        return false;
    };
    let field = map.get(id);
    (field.block, field.bit, field.count) == row.1
        && is_lock(map.write_lock(id), row.2)
        && is_lock(map.read_lock(id), row.3)
        && field.key == row.4
}

/// Whether a lock is this bit of block 0, if there is one.
fn is_lock(found: Option<Pos>, bit: Option<u16>) -> bool {
    match (found, bit) {
        (Some(pos), Some(bit)) => pos == pos_of((0, bit)),
        (None, None) => true,
        _ => false,
    }
}

fn field_of(map: &FuseMap, name: &str) -> Option<FieldId>
    ensures { IfSome result (IsFieldOf map.now) }
{
    map.field(&Name::parse(name)?)
}

/// Whether a position lies in the field of a name, and in none where there is no such name.
fn lies_in(map: &FuseMap, pos: Pos, name: &str) -> bool {
    match map.field_at(pos) {
        Some(id) => map.get(id).name.as_str() == name,
        None => name.is_empty(),
    }
}

/// Whether a map is the sample's, but for its fields.
fn is_sample(map: &FuseMap) -> bool {
    map.name().as_str() == "esp32-sample"
        && map.wr().as_str() == "WR_DIS"
        && map.rd().as_str() == "RD_DIS"
        && map
            .coding()
            .is_some_and(|name| name.as_str() == "CODING_SCHEME")
        && map.blocks() == [7, 8, 8, 8].as_slice()
        && map.fields().len() == 7
}

/// Whether a lock governs a position just where the row says so.
fn is_governed(map: &FuseMap, row: &(Place, Place, bool)) -> bool {
    map.is_governed(pos_of(row.0), pos_of(row.1)) == row.2
}

#[test]
fn shows_the_sample(rt: HostRuntime) -> Result<(), Fail> {
    let map = read_map(rt.alloc(), MAP)?;
    let copy = map.copy()?;
    for map in &[&map, &copy] {
        let map = *map;
        assert!(rt; is_sample(map));
        for row in FIELDS {
            assert!(rt; is_field(map, row), "{}", row.0);
        }
        for row in PLACES {
            assert!(rt; lies_in(map, pos_of(row.0), row.1), "{}", row.1);
        }
        for row in GOVERNED {
            assert!(rt; is_governed(map, row), "{} {}", row.0.1, row.1.1);
        }
    }
    Ok(())
}

/// How many maps a cache keeps.
const KEPT: u64 = 16;

/// Keeps the sample under the numbers from 1 on, one more than a cache keeps: which of them are found
/// then, each with a space behind it.
fn found_behind_others(alloc: Global) -> Result<String, Fail> {
    let map = read_map(alloc, MAP)?;
    let mut cache = NumberCache::new(alloc);
    for number in 1..KEPT + 2 {
        cache.keep(number, &map);
    }
    let mut found = String::new(alloc);
    for number in 1..KEPT + 2 {
        if cache.find(number).is_some_and(|map| is_sample(&map)) {
            write!(found, "{number} ")?;
        }
    }
    Ok(found)
}

/// The last sixteen are found, and the one before them isn't. Of a cache by texts no call says what it
/// keeps: it finds each map all the same.
#[test]
fn a_shelf_keeps_sixteen_maps(rt: HostRuntime) -> Result<(), Fail> {
    assert_eq!(rt;
        found_behind_others(rt.alloc())?.as_str(),
        "2 3 4 5 6 7 8 9 10 11 12 13 14 15 16 17 "
    );
    Ok(())
}

/// The sample is read whole. By hand, where an allocation is refused: all the same, or the fault is
/// want of memory.
#[test]
fn tells_want_of_memory(rt: HostRuntime) {
    match read_map(rt.alloc(), MAP) {
        Ok(map) => assert!(rt; is_sample(&map)),
        Err(fault) => assert!(rt; fault == MapFault::OutOfMemory),
    }
}
