//! What stands in the rows of seats: numbers up to the greatest that a request may have, and the
//! digests by which repeats are known.
use crate::digests::difference_with_taken_digest;
use office_core::{OfCustomer, SeatState, Write};
use std::alloc::Global;
use std::test::Fail;
use test_fixtures::conversations::devices::ACME;
use test_support::conversation::first_difference;
use test_support::keepers::{Fresh, KeeperCase, over_each};
use text_core::{Digest, Name, Text};
use yield_counts::Count;

/// Conversations of the seat `a1`, each with the digest of the last request in it that writes: the
/// SHA-256, by Python's hashlib, of the path, a line feed and the compact JSON of the named members,
/// with the digests of the blocks' bytes in place of the blocks.
const LAST_REQUESTS: &[(&str, &str)] = &[
    (
        ORDERED,
        "3eac0b093a1ae65ba8ac3214046041aa5dab6af419af989d8f198e1e1635826f",
    ),
    (
        BEGUN,
        "70e40c467ed124f09c668a3e6e2e6c36c0ffb9b269e64759c22c85091ccb0a81",
    ),
    (
        NOT_BEGUN,
        "0ff4db4b78492e7f745bcf5db2335443c1c95defff72dda77b490dd8f063227b",
    ),
    (
        ACME,
        "90a60a1b85be03b1cb00ae1743784486aa4373a6ee6e03d8a6c08c64216e3c72",
    ),
];

/// An order.
const ORDERED: &str = r#"
a1 POST /v1/order {"nr":1,"name":"o1","issuer":"acme-ca","prefix":"A","width":3,"first":998,"quantity":2,"macs":0}
200 {"first":998,"issuer":"acme-ca","mac":null,"macs":0,"name":"o1","next":"A998","not_before":null,
  "prefix":"A","quantity":2,"width":3}
"#;

/// An order like `ORDERED` but with a beginning of validity, which makes it another request.
const BEGUN: &str = r#"
a1 POST /v1/order {"nr":1,"name":"o1","issuer":"acme-ca","prefix":"A","width":3,"first":998,"quantity":2,"macs":0,"not_before":"20240229120000Z"}
200 {"first":998,"issuer":"acme-ca","mac":null,"macs":0,"name":"o1","next":"A998",
  "not_before":"20240229120000Z","prefix":"A","quantity":2,"width":3}
"#;

/// An order like `ORDERED` but with a beginning of validity that is null: a third request.
const NOT_BEGUN: &str = r#"
a1 POST /v1/order {"nr":1,"name":"o1","issuer":"acme-ca","prefix":"A","width":3,"first":998,"quantity":2,"macs":0,"not_before":null}
200 {"first":998,"issuer":"acme-ca","mac":null,"macs":0,"name":"o1","next":"A998","not_before":null,
  "prefix":"A","quantity":2,"width":3}
"#;

/// Numbers of a seat's last request, each with what is said behind it: up to a million, to 2^20, and to 2^53.
const LAST_NUMBERS: &[(u64, &str)] = &[
    (999_999, MILLIONTH),
    (1_048_575, LARGE),
    (9_007_199_254_740_990, GREATEST),
];

/// The number 1,000,000.
const MILLIONTH: &str = r#"
a1 POST /v1/map {"nr":1000000,"text":"$MAP"}
200 {"map":"$DIGEST"}
"#;

/// The number 2^20 and the next.
const LARGE: &str = r#"
a1 POST /v1/order {"nr":1048575,"name":"o1","issuer":"acme-ca","prefix":"A","width":3,"first":998,"quantity":2,"macs":0}
409 {"error":"other_body","no":12}
a1 POST /v1/order {"nr":1048576,"name":"o1","issuer":"acme-ca","prefix":"A","width":3,"first":998,"quantity":2,"macs":0}
200 {"first":998,"issuer":"acme-ca","mac":null,"macs":0,"name":"o1","next":"A998","not_before":null,
  "prefix":"A","quantity":2,"width":3}
a1 POST /v1/order {"nr":1048576,"name":"o1","issuer":"acme-ca","prefix":"A","width":3,"first":998,"quantity":2,"macs":0}
200 {"first":998,"issuer":"acme-ca","mac":null,"macs":0,"name":"o1","next":"A998","not_before":null,
  "prefix":"A","quantity":2,"width":3}
a1 POST /v1/map {"nr":1048577,"text":"$MAP"}
200 {"map":"$DIGEST"}
"#;

/// The greatest number, after which no other is accepted.
const GREATEST: &str = r#"
a1 POST /v1/order {"nr":1,"name":"o1","issuer":"acme-ca","prefix":"A","width":3,"first":998,"quantity":2,"macs":0}
409 {"error":"wrong_number","expected":9007199254740991,"no":11}
a1 POST /v1/order {"nr":9007199254740991,"name":"o1","issuer":"acme-ca","prefix":"A","width":3,"first":998,"quantity":2,"macs":0}
200 {"first":998,"issuer":"acme-ca","mac":null,"macs":0,"name":"o1","next":"A998","not_before":null,
  "prefix":"A","quantity":2,"width":3}
a1 POST /v1/order {"nr":9007199254740992,"name":"o2","issuer":"acme-ca","prefix":"B","width":3,"first":998,"quantity":2,"macs":0}
400 {"error":"bad_member","no":10}
a1 POST /v1/order {"nr":9007199254740990,"name":"o2","issuer":"acme-ca","prefix":"B","width":3,"first":998,"quantity":2,"macs":0}
409 {"error":"wrong_number","expected":9007199254740992,"no":11}
a1 POST /v1/order {"nr":1,"name":"o2","issuer":"acme-ca","prefix":"B","width":3,"first":998,"quantity":2,"macs":0}
409 {"error":"wrong_number","expected":9007199254740992,"no":11}
a1 POST /v1/order {"nr":9007199254740991,"name":"o2","issuer":"acme-ca","prefix":"B","width":3,"first":998,"quantity":2,"macs":0}
409 {"error":"other_body","no":12}
a1 POST /v1/order {"nr":9007199254740991,"name":"o1","issuer":"acme-ca","prefix":"A","width":3,"first":998,"quantity":2,"macs":0}
200 {"first":998,"issuer":"acme-ca","mac":null,"macs":0,"name":"o1","next":"A998","not_before":null,
  "prefix":"A","quantity":2,"width":3}
"#;

/// Holds a conversation: what differs first, or the digest in the row of the seat `a1` at its end.
fn digest_after<K: Count>(alloc: Global, keep: &mut K, conversation: &str) -> Result<String, Fail> {
    let found = first_difference(alloc, keep, conversation)?;
    if !found.is_empty() {
        return Ok(found);
    }
    let name = Name::parse("a1").ok_or("no name")?;
    let row = keep.seat(&name)?.ok_or("no row")?;
    Ok(row.row.digest.to_string(alloc)?)
}

/// Holds a conversation over tables in which a seat's last number is another one: what differs first.
fn first_after<K: Count>(
    alloc: Global,
    keep: &mut K,
    last: u64,
    conversation: &str,
) -> Result<String, Fail> {
    let seat = OfCustomer {
        customer: Name::parse("acme").ok_or("no name")?,
        row: SeatState {
            name: Name::parse("a1").ok_or("no name")?,
            last,
            digest: Digest::of(b"none"),
            reply: Text::copy_of(alloc, "{}")?,
        },
    };
    keep.commit(&[Write::PutSeat(seat)])?;
    first_difference(alloc, keep, conversation)
}

/// What stands in the rows of seats, and what rows that were put there lead to, each over a keeper
/// without rows.
struct Rows;

impl KeeperCase for Rows {
    fn first_difference<K: Fresh>(&self, alloc: Global) -> Result<String, Fail> {
        for row in LAST_REQUESTS {
            let mut keep = K::fresh(alloc)?;
            let digest = digest_after(alloc, &mut keep, row.0)?;
            if digest.as_str() != row.1 {
                return Ok(format!(in alloc; "{}: the digest {} -> {digest}", row.0, row.1)?);
            }
        }
        let mut keep = K::fresh(alloc)?;
        let found = difference_with_taken_digest(alloc, &mut keep)?;
        if !found.is_empty() {
            return Ok(found);
        }
        for row in LAST_NUMBERS {
            let mut keep = K::fresh(alloc)?;
            let found = first_after(alloc, &mut keep, row.0, row.1)?;
            if !found.is_empty() {
                return Ok(found);
            }
        }
        Ok(String::new(alloc))
    }
}

/// Digests of requests as they are kept. And tables that no server makes: those in which `acme` has the
/// digest of the sample for another map's text, where `acme` is refused and `bolt` gets the usual
/// reply, and those in which a seat's next number is 2^20, or the greatest.
#[test]
fn rows_are_kept_and_found_as_they_must(rt: HostRuntime) -> Result<(), Fail> {
    assert_eq!(rt; over_each(rt.alloc(), &Rows)?.as_str(), "");
    Ok(())
}
