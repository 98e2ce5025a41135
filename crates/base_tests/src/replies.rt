//! The bodies that show devices and their ledgers.

use crate::changes::changed;
use fuse_columns::{encode_bits, encode_keys, encode_todo};
use fuse_image::{Bits, Keys, Pending};
use fusemap_core::{FuseMap, Pos, read_map};
use office_commands::{device_body, ledger_body};
use office_tables::{Device, DeviceState, Event, NewEntry, Outcome, Reason};
use std::alloc::Global;
use std::test::Fail;
use test_fixtures::conversations::joined;
use test_fixtures::samples::MAP;
use text_core::{Chip, Digest, Name, Serial};

/// The sample map with another name of the key field of block 1, so that names don't stand in the
/// order of blocks.
fn named_map(alloc: Global) -> Option<FuseMap> {
    let text = changed(alloc, MAP, "\"BLOCK1\"", "\"Z1\"")?;
    read_map(alloc, text.as_str()).ok()
}

/// No work.
fn no_pending() -> Pending {
    Pending {
        first: Bits::empty(),
        second: Bits::empty(),
        keys: Keys::empty(),
    }
}

/// A device of which nothing is burnt, with SHA-256 of `abc` as the digest of its map.
fn blank_device(map: &FuseMap) -> Option<Device> {
    Some(Device {
        chip: Chip::parse("00000000000a")?,
        order: Name::parse("o1")?,
        map: Digest::of(b"abc"),
        state: DeviceState::Registered,
        bits: encode_bits(map, &Bits::empty()),
        keys: encode_keys(map, &Keys::empty()),
        todo: encode_todo(map, &no_pending()),
        serial: None,
    })
}

/// A device that is burnt in part and quarantined. The second word of its first batch begins where
/// the first ends, and the key of block 3 belongs to no key field.
fn quarantined_device(map: &FuseMap, blank: Device) -> Device {
    let bits = [Pos { block: 3, bit: 255 }, Pos { block: 0, bit: 1 }];
    let (abc, hello, test) = (
        Digest::of(b"abc"),
        Digest::of(b"hello"),
        Digest::of(b"test"),
    );
    let work = Pending {
        first: Bits::empty().with_run(Pos { block: 0, bit: 30 }, 4),
        second: Bits::empty().with_run(Pos { block: 0, bit: 7 }, 1),
        keys: Keys::new([None, Some(hello), Some(test), Some(abc)]),
    };
    Device {
        state: DeviceState::Quarantined(Reason::Stray),
        bits: encode_bits(map, &Bits::empty().with_bits(&bits)),
        keys: encode_keys(map, &Keys::empty().with(1, hello)),
        todo: encode_todo(map, &work),
        serial: Serial::parse("A-1"),
        ..blank
    }
}

const BLANK: &str = r#"
{"bits":[],"chip":"00000000000a","keys":{},
  "map":"ba7816bf8f01cfea414140de5dae2223b00361a396177a9cb410ff61f20015ad","order":"o1",
  "pending":{"batch1":{"bits":[],"keys":{}},"batch2":{"bits":[],"keys":{}}},"reason":null,
  "serial":null,"state":"registered"}
"#;

const QUARANTINED: &str = r#"
{"bits":[{"block":0,"mask":"00000002","word":0},{"block":3,"mask":"80000000","word":7}],
  "chip":"00000000000a",
  "keys":{"Z1":"2cf24dba5fb0a30e26e83b2ac5b9e29e1b161e5c1fa7425e73043362938b9824"},
  "map":"ba7816bf8f01cfea414140de5dae2223b00361a396177a9cb410ff61f20015ad","order":"o1",
  "pending":{"batch1":{
      "bits":[{"block":0,"mask":"c0000000","word":0},{"block":0,"mask":"00000003","word":1}],
      "keys":{"BLOCK2":"9f86d081884c7d659a2feaa0c55ad015a3bf4f1b2b0b822cd15d6c15b0f00a08",
        "Z1":"2cf24dba5fb0a30e26e83b2ac5b9e29e1b161e5c1fa7425e73043362938b9824"}},
    "batch2":{"bits":[{"block":0,"mask":"00000080","word":0}],"keys":{}}},
  "reason":"stray","serial":"A-1","state":"quarantined"}
"#;

const LEDGER: &str = r#"
{"chip":"00000000000a","entries":[
  {"bits":[],"event":"registered","keys":{},"n":1,"note":"","seat":"a1"},
  {"bits":[],"event":"read",
    "keys":{"Z1":"2cf24dba5fb0a30e26e83b2ac5b9e29e1b161e5c1fa7425e73043362938b9824"},"n":7,
    "note":"short","seat":"a1"},
  {"bits":[],"event":"identified","keys":{},"n":8,"note":"A-1","seat":"a1"}]}
"#;

/// Three entries of a device's ledger.
fn entries(map: &FuseMap, chip: Chip) -> Option<[NewEntry; 3]> {
    let registered = NewEntry {
        chip,
        number: 1,
        event: Event::Registered,
        seat: Name::parse("a1")?,
        bits: encode_bits(map, &Bits::empty()),
        keys: encode_keys(map, &Keys::empty()),
    };
    let read = NewEntry {
        number: 7,
        event: Event::Read(Outcome::Short),
        keys: encode_keys(map, &Keys::empty().with(1, Digest::of(b"hello"))),
        ..registered
    };
    let identified = NewEntry {
        number: 8,
        event: Event::Identified(Serial::parse("A-1")?),
        ..registered
    };
    Some([registered, read, identified])
}

/// A body where it isn't the one that is wanted: nothing where it is.
pub fn difference(alloc: Global, wanted: &str, body: &str) -> Result<String, Fail> {
    let wanted = joined(alloc, wanted)?;
    if body == wanted.as_str() {
        return Ok(String::new(alloc));
    }
    Ok(format!(in alloc; "{wanted} -> {body}")?)
}

/// What differs where a device is shown.
fn difference_of_device(
    alloc: Global,
    map: &FuseMap,
    device: &Device,
    wanted: &str,
) -> Result<String, Fail> {
    let body = device_body(alloc, Some(map), device)?;
    difference(alloc, wanted, body.as_str())
}

/// What differs first where devices and a ledger are shown.
fn first_difference(alloc: Global) -> Result<String, Fail> {
    let map = named_map(alloc).ok_or("no map")?;
    let blank = blank_device(&map).ok_or("no device")?;
    let found = difference_of_device(alloc, &map, &blank, BLANK)?;
    if !found.is_empty() {
        return Ok(found);
    }
    let quarantined = quarantined_device(&map, blank);
    let found = difference_of_device(alloc, &map, &quarantined, QUARANTINED)?;
    if !found.is_empty() {
        return Ok(found);
    }
    let chip = Chip::parse("00000000000a").ok_or("no chip")?;
    let entries = entries(&map, chip).ok_or("no entries")?;
    let ledger = ledger_body(alloc, Some(&map), &chip, &entries)?;
    difference(alloc, LEDGER, ledger.as_str())
}

#[test]
fn shows_devices_and_ledgers(rt: HostRuntime) -> Result<(), Fail> {
    assert_eq!(rt; first_difference(rt.alloc())?.as_str(), "");
    Ok(())
}
