//! Stores of earlier schemas in files, whose upgrade is stopped: what it leaves.
use crate::disks::{
    FilesCase, InFiles, Store, held_over, opened_and_closed, over_files, rows_in, undisturbed,
};
use crate::grown::{difference_of_text, first_difference_grown, grown_texts, shown_of};
use crate::stops::first_lost;
use std::alloc::Global;
use std::test::Fail;
use test_fixtures::conversations::exchanges;
use test_fixtures::earlier::{Earlier, sql_of};
use test_fixtures::early::{CHANGED_EARLY, EARLIEST, EARLY};
use test_fixtures::samples::SITE;
use test_fixtures::schema_one::{CHANGED_ONE, ONE};
use test_fixtures::schema_two::{CHANGED_TWO, TWO};
use test_support::stores::tell_of;

/// The sample site without its manager.
const SITE_WITHOUT_MANAGER: &str = r#"[[customer]]
name = "acme"
issuer = ["acme-ca"]
[[customer.pool]]
first = "020000000010"
count = 4
[[customer.pool]]
first = "020000000020"
count = 4
[[customer.seat]]
name = "a1"
token = "ba7816bf8f01cfea414140de5dae2223b00361a396177a9cb410ff61f20015ad"
[[customer]]
name = "bolt"
issuer = ["bolt-ca"]
[[customer.seat]]
name = "b1"
token = "2cf24dba5fb0a30e26e83b2ac5b9e29e1b161e5c1fa7425e73043362938b9824"
"#;

/// A change that makes a store one of that site, by the digest of Python's hashlib.
const OF_NO_MANAGER: &str =
    "UPDATE meta SET site = X'57f16c3795389af9c4138eb58746fddebd856797ea95cd484bf9bff69c4bcfe0'";

/// The store of schema 1. The four stores are named by these functions alone: what names a text costs the
/// prover half a second for each thousand bytes of it.
fn one() -> &'static Earlier {
    &ONE
}

/// The store of schema 1 whose `given` names the address as a key behind the others.
fn earliest() -> &'static Earlier {
    &EARLIEST
}

/// The store of schema 1 whose `given` names it at the column.
fn early() -> &'static Earlier {
    &EARLY
}

/// The store of schema 2.
fn two() -> &'static Earlier {
    &TWO
}

/// The store of an earlier schema in files.
fn store_of<K: InFiles>(alloc: Global, earlier: &Earlier) -> Result<Store, Fail> {
    let sql = sql_of(alloc, earlier)?;
    let (_, store) = K::changed(alloc, &Store::new(alloc), sql.as_str())?;
    Ok(store)
}

/// Stops the upgrade of a store at each call of either file, and holds the conversation behind each stop: what
/// differs first, or that the store doesn't tell of the site's text in schema 3 then.
fn first_lost_in_upgrade<K: InFiles>(
    alloc: Global,
    earlier: &Earlier,
    loses_unsynced: bool,
) -> Result<String, Fail> {
    let shown = exchanges(alloc, earlier.shown)?;
    let store = store_of::<K>(alloc, earlier)?;
    let rows = undisturbed::<K>(alloc, &store, SITE, &[])?;
    if !tell_of(alloc, rows.as_str(), SITE)? {
        return Ok(String::from_str(alloc, "the store is not upgraded")?);
    }
    first_lost::<K>(alloc, &store, SITE, shown.as_slice(), 0, loses_unsynced)
}

/// Holds conversations over a store, which is opened before each: the first request that doesn't get its reply,
/// and what it got.
fn first_difference_in_life<K: InFiles>(alloc: Global, earlier: &Earlier) -> Result<String, Fail> {
    let mut store = store_of::<K>(alloc, earlier)?;
    for conversation in earlier.life {
        let exchanges = exchanges(alloc, conversation)?;
        let (found, left) = held_over::<K>(alloc, &store, SITE, exchanges.as_slice())?;
        if !found.is_empty() {
            return Ok(found);
        }
        store = left;
    }
    Ok(String::new(alloc))
}

/// Opens a store that was changed by the SQL of each row for the site of a text: the first with another fault
/// than that of the row.
fn first_other_fault<K: InFiles>(
    alloc: Global,
    earlier: &Earlier,
    rows: &[(&str, &str, u8)],
) -> Result<String, Fail> {
    let store = store_of::<K>(alloc, earlier)?;
    for row in rows {
        let (_, changed) = K::changed(alloc, &store, row.0)?;
        let (fault, _) = opened_and_closed::<K>(alloc, &changed, row.1)?;
        if fault != row.2 {
            return Ok(format!(in alloc; "{}: {} -> {fault}", row.0, row.2)?);
        }
    }
    Ok(String::new(alloc))
}

/// Opens a store of an earlier schema, which has the digest of its site's text alone, for each text
/// that grew from it: the first that isn't refused, or of which something is left.
fn first_growth_taken<K: InFiles>(alloc: Global, store: &Store) -> Result<String, Fail> {
    let rows = rows_in::<K>(alloc, store)?;
    for text in grown_texts(alloc)? {
        let (fault, left) = opened_and_closed::<K>(alloc, store, text.as_str())?;
        let then = rows_in::<K>(alloc, &left)?;
        if fault != 1 || then.as_str() != rows.as_str() {
            return Ok(format!(in alloc; "fault {fault}: {text}")?);
        }
    }
    Ok(String::new(alloc))
}

/// Opens a store of an earlier schema for its site's text, and then for each that grew from it: what
/// differs first of what is shown then.
fn first_difference_behind_upgrade<K: InFiles>(
    alloc: Global,
    store: &Store,
    shown: &str,
) -> Result<String, Fail> {
    let (_, upgraded) = opened_and_closed::<K>(alloc, store, SITE)?;
    let books = exchanges(alloc, shown)?;
    let shown = shown_of(alloc, books.as_slice())?;
    first_difference_grown::<K>(alloc, &upgraded, shown.as_slice())
}

/// Opens a store of an earlier schema as one of the site without a manager, and then for the site with it:
/// what differs first of what is shown then.
fn first_difference_with_manager<K: InFiles>(
    alloc: Global,
    store: &Store,
    shown: &str,
) -> Result<String, Fail> {
    let (_, changed) = K::changed(alloc, store, OF_NO_MANAGER)?;
    let (fault, upgraded) = opened_and_closed::<K>(alloc, &changed, SITE_WITHOUT_MANAGER)?;
    if fault != 0 {
        return Ok(format!(in alloc; "fault {fault} without a manager")?);
    }
    let books = exchanges(alloc, shown)?;
    difference_of_text::<K>(alloc, &upgraded, SITE, 0, books.as_slice())
}

/// What differs first where the site of an earlier store grows: before its upgrade, or behind it.
fn first_difference_in_growth<K: InFiles>(
    alloc: Global,
    earlier: &Earlier,
) -> Result<String, Fail> {
    let store = store_of::<K>(alloc, earlier)?;
    let found = first_difference_with_manager::<K>(alloc, &store, earlier.shown)?;
    if !found.is_empty() {
        return Ok(found);
    }
    let found = first_growth_taken::<K>(alloc, &store)?;
    if !found.is_empty() {
        return Ok(found);
    }
    first_difference_behind_upgrade::<K>(alloc, &store, earlier.shown)
}

/// Stores of earlier schemas whose site grows.
struct GrownUpgrades;

impl FilesCase for GrownUpgrades {
    fn first_difference<K: InFiles>(alloc: Global) -> Result<String, Fail> {
        for earlier in &[one(), two()] {
            let found = first_difference_in_growth::<K>(alloc, *earlier)?;
            if !found.is_empty() {
                return Ok(found);
            }
        }
        Ok(String::new(alloc))
    }
}

/// Each store of an earlier schema that goes on.
struct Lives;

impl FilesCase for Lives {
    fn first_difference<K: InFiles>(alloc: Global) -> Result<String, Fail> {
        for earlier in &[one(), earliest(), early(), two()] {
            let found = first_difference_in_life::<K>(alloc, *earlier)?;
            if !found.is_empty() {
                return Ok(found);
            }
        }
        Ok(String::new(alloc))
    }
}

/// Each that was changed.
struct ChangedStores;

impl FilesCase for ChangedStores {
    fn first_difference<K: InFiles>(alloc: Global) -> Result<String, Fail> {
        for row in &[
            (one(), CHANGED_ONE),
            (earliest(), CHANGED_EARLY),
            (early(), CHANGED_EARLY),
            (two(), CHANGED_TWO),
        ] {
            let found = first_other_fault::<K>(alloc, row.0, row.1)?;
            if !found.is_empty() {
                return Ok(format!(in alloc; "schema {}: {found}", row.0.schema)?);
            }
        }
        Ok(String::new(alloc))
    }
}

/// An upgrade of schema 1 that is killed.
struct KilledUpgrade;

impl FilesCase for KilledUpgrade {
    fn first_difference<K: InFiles>(alloc: Global) -> Result<String, Fail> {
        first_lost_in_upgrade::<K>(alloc, one(), false)
    }
}

/// An upgrade of schema 1 whose power fails.
struct UpgradeWithoutPower;

impl FilesCase for UpgradeWithoutPower {
    fn first_difference<K: InFiles>(alloc: Global) -> Result<String, Fail> {
        first_lost_in_upgrade::<K>(alloc, one(), true)
    }
}

/// An upgrade of schema 2 that is killed, and one whose power fails.
struct StoppedUpgradesOfTwo;

impl FilesCase for StoppedUpgradesOfTwo {
    fn first_difference<K: InFiles>(alloc: Global) -> Result<String, Fail> {
        let found = first_lost_in_upgrade::<K>(alloc, two(), false)?;
        if !found.is_empty() {
            return Ok(found);
        }
        first_lost_in_upgrade::<K>(alloc, two(), true)
    }
}

/// An upgrade of either store whose `given` has an address for a key that is killed, and one whose power
/// fails.
struct StoppedUpgradesOfEarly;

impl FilesCase for StoppedUpgradesOfEarly {
    fn first_difference<K: InFiles>(alloc: Global) -> Result<String, Fail> {
        let found = first_lost_in_upgrade::<K>(alloc, earliest(), false)?;
        if !found.is_empty() {
            return Ok(found);
        }
        first_lost_in_upgrade::<K>(alloc, early(), true)
    }
}

/// A store of schema 1 is taken to schema 3: its books show what they showed, without a beginning, its kept
/// replies are as they were kept, and it goes on. So are those of schema 1 in whose `given` an address is a key
/// for itself, in either form, and one of schema 2, with the beginnings that it has.
#[test]
fn stores_of_earlier_schemas_go_on(rt: HostRuntime) -> Result<(), Fail> {
    assert_eq!(rt; over_files::<Lives>(rt.alloc())?.as_str(), "");
    Ok(())
}

/// They don't grow before it; and behind it a site without a manager gets one too.
#[test]
fn sites_of_earlier_schemas_grow_behind_their_upgrade(rt: HostRuntime) -> Result<(), Fail> {
    assert_eq!(rt; over_files::<GrownUpgrades>(rt.alloc())?.as_str(), "");
    Ok(())
}

#[test]
fn changed_stores_of_earlier_schemas_are_refused(rt: HostRuntime) -> Result<(), Fail> {
    assert_eq!(rt; over_files::<ChangedStores>(rt.alloc())?.as_str(), "");
    Ok(())
}

/// Their upgrade is stopped at each call of either file: the store is as it was or as the upgrade leaves it, and
/// the next opening ends in schema 3, with the same books.
#[test]
fn a_killed_upgrade_goes_on(rt: HostRuntime) -> Result<(), Fail> {
    assert_eq!(rt; over_files::<KilledUpgrade>(rt.alloc())?.as_str(), "");
    Ok(())
}

/// An upgrade of a store of schema 1 is stopped at each call of either file, and what wasn't synced is lost: the
/// next opening ends in schema 3, with the same books.
#[test]
fn an_upgrade_goes_on_after_a_power_cut(rt: HostRuntime) -> Result<(), Fail> {
    assert_eq!(rt; over_files::<UpgradeWithoutPower>(rt.alloc())?.as_str(), "");
    Ok(())
}

/// An upgrade of a store of schema 2 is stopped at each call of either file, with and without the loss of what wasn't
/// synced: the next opening ends in schema 3, with the same books.
#[test]
fn a_stopped_upgrade_of_schema_two_goes_on(rt: HostRuntime) -> Result<(), Fail> {
    assert_eq!(rt;
        over_files::<StoppedUpgradesOfTwo>(rt.alloc())?.as_str(),
        ""
    );
    Ok(())
}

/// An upgrade of a store of schema 1 whose `given` is made anew goes on behind each stop: of one such store behind a
/// kill, and of another behind a power cut.
#[test]
fn a_stopped_upgrade_of_an_early_store_goes_on(rt: HostRuntime) -> Result<(), Fail> {
    assert_eq!(rt;
        over_files::<StoppedUpgradesOfEarly>(rt.alloc())?.as_str(),
        ""
    );
    Ok(())
}
