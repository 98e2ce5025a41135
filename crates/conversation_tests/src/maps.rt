//! Maps of many customers, by their numbers.
use office_core::{Keep, NewMap, OfCustomer, Write};
use std::alloc::Global;
use std::test::Fail;
use test_fixtures::samples::MAP;
use test_support::conversation::first_difference;
use test_support::keepers::{Fresh, KeeperCase, over_each};
use text_core::{Digest, Name, Text};

/// As many as sixteen customers may have.
const MAPS_OF_OTHERS: u64 = 256;

/// The sample, which has the number behind them, of two customers.
const SHARED: &str = r#"
a1 POST /v1/map {"nr":1,"text":"$MAP"}
200 {"map":"$DIGEST"}
b1 POST /v1/map {"nr":1,"text":"$MAP"}
200 {"map":"$DIGEST"}
a1 POST /v1/map {"nr":2,"text":"$MAP"}
200 {"map":"$DIGEST"}
"#;

/// Puts a map of another customer, with a text of its own.
fn add_map<K: Keep>(alloc: Global, keep: &mut K, number: u64) -> Result<(), Fail> {
    let name = format!(in alloc; "c{}", number / 16)?;
    let text = format!(in alloc; "{MAP}# {number}\n")?;
    let map = OfCustomer {
        customer: Name::parse(name.as_str()).ok_or("no name")?,
        row: NewMap {
            digest: Digest::of(text.as_bytes()),
            body: Text::from_string(text),
        },
    };
    let is_free = keep.map_with(map.row.body.as_str())?.is_none()
        && keep.link(&map.customer, &map.row.digest)?.is_none();
    if !is_free {
        return Err(Fail::from("the map is there"));
    }
    Ok(keep.commit(&[Write::AddMap(map)])?)
}

/// A map that two customers import once many others have theirs.
struct ManyMaps;

impl KeeperCase for ManyMaps {
    fn first_difference<K: Fresh>(&self, alloc: Global) -> Result<String, Fail> {
        let mut keep = K::fresh(alloc)?;
        for number in 0..MAPS_OF_OTHERS {
            add_map(alloc, &mut keep, number)?;
        }
        first_difference(alloc, &mut keep, SHARED)
    }
}

#[test]
fn maps_may_be_more_than_256(rt: HostRuntime) -> Result<(), Fail> {
    assert_eq!(rt; over_each(rt.alloc(), &ManyMaps)?.as_str(), "");
    Ok(())
}
