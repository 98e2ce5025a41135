//! Want of memory in the middle of a conversation. These tests show what they are for where they
//! are run by hand, each N in turn: `rt try --test --fail-alloc N`. The gate refuses no allocation,
//! so there they hold a conversation as others do.
use std::alloc::Global;
use std::test::Fail;
use test_fixtures::conversations::devices::ACME;
use test_support::conversation::first_difference_after_want;
use test_support::keepers::{Fresh, KeeperCase, over_database, over_memory};

/// A seat's conversation in which an allocation may be refused.
struct Want;

impl KeeperCase for Want {
    fn first_difference<K: Fresh>(&self, alloc: Global) -> Result<String, Fail> {
        let mut keep = K::fresh(alloc)?;
        first_difference_after_want(alloc, &mut keep, ACME)
    }
}

/// By hand: it holds where the server is refused an allocation, whose request gets its reply when
/// it is sent again; where the test itself is refused one, it ends with that error.
#[test]
fn want_of_memory_changes_nothing(rt: HostRuntime) -> Result<(), Fail> {
    assert_eq!(rt; over_memory(rt.alloc(), &Want)?.as_str(), "");
    Ok(())
}

/// By hand: the same over SQL.
#[test]
fn want_of_memory_changes_no_database(rt: HostRuntime) -> Result<(), Fail> {
    assert_eq!(rt; over_database(rt.alloc(), &Want)?.as_str(), "");
    Ok(())
}
