//! The devices of a customer, visited in the order of their chips.
use office_core::{DeviceRow, Sink};
use std::alloc::Global;
use std::fmt::Write;
use std::test::Fail;
use test_fixtures::conversations::devices::READ_BACKS;
use test_support::conversation::first_difference;
use test_support::keepers::{Fresh, KeeperCase, over_each};
use text_core::{Chip, Name};

/// The chips in their order, with a semicolon behind each.
const CHIPS: &str = "00000000000a;00000000000b;";

/// Takes the chips of devices.
#[derive(Drop)]
struct Chips {
    found: String,
}

impl Sink<DeviceRow> for Chips {
    ghost takes = { λ _ _ _ _. Unit {0} };

    fn take(&mut self, device: &DeviceRow) -> bool {
        write!(self.found, "{};", device.row.chip).is_ok()
    }
}

/// The chips behind the first of them, and behind one that isn't there.
const BEHIND: &str = "00000000000b;|00000000000a;00000000000b;|";

/// A visit of a customer's devices after the conversation about read-backs, over a keeper without
/// rows, that must find the chips both, in their order.
struct Visit;

/// Visits behind the first chip and behind one that isn't there, after the same conversation, each
/// with a stroke behind its chips.
struct VisitBehind;

impl KeeperCase for Visit {
    fn first_difference<K: Fresh>(&self, alloc: Global) -> Result<String, Fail> {
        let mut keep = K::fresh(alloc)?;
        let found = first_difference(alloc, &mut keep, READ_BACKS)?;
        if !found.is_empty() {
            return Ok(found);
        }
        let mut chips = Chips {
            found: String::new(alloc),
        };
        keep.visit_devices(&Name::parse("acme").ok_or("no name")?, &mut chips)?;
        if chips.found.as_str() == CHIPS {
            return Ok(String::new(alloc));
        }
        Ok(format!(in alloc; "{CHIPS} -> {}", chips.found)?)
    }
}

impl KeeperCase for VisitBehind {
    fn first_difference<K: Fresh>(&self, alloc: Global) -> Result<String, Fail> {
        let mut keep = K::fresh(alloc)?;
        let found = first_difference(alloc, &mut keep, READ_BACKS)?;
        if !found.is_empty() {
            return Ok(found);
        }
        let mut chips = Chips {
            found: String::new(alloc),
        };
        let customer = Name::parse("acme").ok_or("no name")?;
        for text in ["00000000000a", "000000000009"] {
            let chip = Chip::parse(text).ok_or("no chip")?;
            keep.visit_devices_behind(&customer, &chip, &mut chips)?;
            chips.found.push_str("|")?;
        }
        if chips.found.as_str() == BEHIND {
            return Ok(String::new(alloc));
        }
        Ok(format!(in alloc; "{BEHIND} -> {}", chips.found)?)
    }
}

#[test]
fn devices_are_visited_behind_a_chip(rt: HostRuntime) -> Result<(), Fail> {
    assert_eq!(rt; over_each(rt.alloc(), &VisitBehind)?.as_str(), "");
    Ok(())
}

#[test]
fn devices_are_visited_by_their_chips(rt: HostRuntime) -> Result<(), Fail> {
    assert_eq!(rt; over_each(rt.alloc(), &Visit)?.as_str(), "");
    Ok(())
}
