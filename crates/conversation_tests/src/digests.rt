//! A digest that another map's text has, in tables that no server makes.
use office_core::{NewMap, OfCustomer, Write};
use std::alloc::Global;
use std::test::Fail;
use test_fixtures::samples::MAP;
use test_support::conversation::first_difference;
use text_core::{Digest, Name, Text};
use yield_counts::Count;

/// Makes tables in which `acme` has the digest of the sample for another map's text, and says how
/// what `acme` and `bolt` get for the sample differs from a refusal and the usual reply.
pub fn difference_with_taken_digest<K: Count>(alloc: Global, keep: &mut K) -> Result<String, Fail> {
    let other = format!(in alloc; "{MAP}# another\n")?;
    let map = OfCustomer {
        customer: Name::parse("acme").ok_or("no name")?,
        row: NewMap {
            digest: Digest::of(MAP.as_bytes()),
            body: Text::from_string(other),
        },
    };
    let is_free = keep.map_with(map.row.body.as_str())?.is_none()
        && keep.link(&map.customer, &map.row.digest)?.is_none();
    if !is_free {
        return Err(Fail::from("the tables have rows"));
    }
    keep.commit(&[Write::AddMap(map)])?;
    first_difference(alloc, keep, TAKEN)
}

/// What each customer gets then.
const TAKEN: &str = r#"
a1 POST /v1/map {"nr":1,"text":"$MAP"}
409 {"error":"map_digest_taken","no":39}
b1 POST /v1/map {"nr":1,"text":"$MAP"}
200 {"map":"$DIGEST"}
"#;
