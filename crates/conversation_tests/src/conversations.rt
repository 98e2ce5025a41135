//! The conversations by their subjects, each over a keeper without rows of either kind.
use std::alloc::Global;
use std::test::Fail;
use test_fixtures::conversations::beginnings::BEGINNINGS;
use test_fixtures::conversations::devices::DEVICES;
use test_fixtures::conversations::edges::EDGES;
use test_fixtures::conversations::identities::IDENTITIES;
use test_fixtures::conversations::maps::MAPS;
use test_fixtures::conversations::orders::ORDERS;
use test_fixtures::conversations::plans::PLANS;
use test_fixtures::conversations::reports::REPORTS;
use test_support::conversation::first_difference;
use test_support::keepers::{Fresh, KeeperCase, over_each};

/// Conversations by their names, each over a keeper without rows.
#[derive(Drop)]
struct Conversations {
    table: &'static [(&'static str, &'static str)],
}

impl KeeperCase for Conversations {
    fn first_difference<K: Fresh>(&self, alloc: Global) -> Result<String, Fail> {
        for row in self.table {
            let mut keep = K::fresh(alloc)?;
            let found = first_difference(alloc, &mut keep, row.1)?;
            if !found.is_empty() {
                return Ok(format!(in alloc; "{}: {found}", row.0)?);
            }
        }
        Ok(String::new(alloc))
    }
}

/// Holds conversations over each keeper: what differs first.
fn first_of_each(
    alloc: Global,
    table: &'static [(&'static str, &'static str)],
) -> Result<String, Fail> {
    over_each(alloc, &Conversations { table })
}

/// The conversations about plans. This function alone names them: what names a text costs the prover half a
/// second for each thousand bytes of it.
pub fn plans() -> &'static [(&'static str, &'static str)] {
    PLANS
}

/// Each table of conversations has a test of its own, or few share one, since the prover sets a bound to all
/// the texts of one test.
#[test]
fn orders_get_their_replies(rt: HostRuntime) -> Result<(), Fail> {
    let found = first_of_each(rt.alloc(), ORDERS)?;
    assert_eq!(rt; found.as_str(), "");
    Ok(())
}

#[test]
fn beginnings_get_their_replies(rt: HostRuntime) -> Result<(), Fail> {
    let found = first_of_each(rt.alloc(), BEGINNINGS)?;
    assert_eq!(rt; found.as_str(), "");
    Ok(())
}

#[test]
fn maps_and_devices_get_their_replies(rt: HostRuntime) -> Result<(), Fail> {
    for table in &[MAPS, DEVICES] {
        let found = first_of_each(rt.alloc(), *table)?;
        assert_eq!(rt; found.as_str(), "");
    }
    Ok(())
}

#[test]
fn plans_and_read_backs_get_their_replies(rt: HostRuntime) -> Result<(), Fail> {
    let found = first_of_each(rt.alloc(), plans())?;
    assert_eq!(rt; found.as_str(), "");
    Ok(())
}

#[test]
fn identities_and_imports_get_their_replies(rt: HostRuntime) -> Result<(), Fail> {
    let found = first_of_each(rt.alloc(), IDENTITIES)?;
    assert_eq!(rt; found.as_str(), "");
    Ok(())
}

#[test]
fn reports_get_their_replies(rt: HostRuntime) -> Result<(), Fail> {
    let found = first_of_each(rt.alloc(), REPORTS)?;
    assert_eq!(rt; found.as_str(), "");
    Ok(())
}

#[test]
fn edges_get_their_replies(rt: HostRuntime) -> Result<(), Fail> {
    let found = first_of_each(rt.alloc(), EDGES)?;
    assert_eq!(rt; found.as_str(), "");
    Ok(())
}
