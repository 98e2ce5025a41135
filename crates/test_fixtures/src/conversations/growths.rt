//! Conversations in which the site grows: what is said under the sample site, and what is said after
//! that under one that grew from it.
use crate::samples::{SITE_WITH_A_CUSTOMER, SITE_WITH_A_POOL};

/// A site that grew from the sample's, what is said before it grew, and what is said after that.
pub struct Growth {
    pub name: &'static str,
    pub site: &'static str,
    pub before: &'static str,
    pub after: &'static str,
}

/// The growths of the sample site.
pub const GROWTHS: &[Growth] = &[
    Growth {
        name: "a third pool",
        site: SITE_WITH_A_POOL,
        before: POOLS_USED_UP,
        after: POOL_MORE,
    },
    Growth {
        name: "a third customer, and a seat more for the second",
        site: SITE_WITH_A_CUSTOMER,
        before: TWO_CUSTOMERS,
        after: CUSTOMER_MORE,
    },
];

/// Orders of devices with an address each, until none of the two pools has room for three.
const POOLS_USED_UP: &str = r#"
a1 POST /v1/order {"nr":1,"name":"p","issuer":"acme-ca","prefix":"P","width":3,"first":1,"quantity":3,"macs":1}
200 {"first":1,"issuer":"acme-ca","mac":"020000000010","macs":1,"name":"p","next":"P001",
  "not_before":null,"prefix":"P","quantity":3,"width":3}
a1 POST /v1/order {"nr":2,"name":"q","issuer":"acme-ca","prefix":"Q","width":3,"first":1,"quantity":2,"macs":1}
200 {"first":1,"issuer":"acme-ca","mac":"020000000020","macs":1,"name":"q","next":"Q001",
  "not_before":null,"prefix":"Q","quantity":2,"width":3}
a1 POST /v1/order {"nr":3,"name":"r","issuer":"acme-ca","prefix":"R","width":3,"first":1,"quantity":3,"macs":1}
409 {"error":"no_mac_room","no":33}
"#;

/// The last of them once more: it gets the first address of the third pool. What stood is there, and a
/// repeat is one. Then what the second pool has left is still taken before the third.
const POOL_MORE: &str = r#"
a1 POST /v1/order {"nr":3,"name":"r","issuer":"acme-ca","prefix":"R","width":3,"first":1,"quantity":3,"macs":1}
200 {"first":1,"issuer":"acme-ca","mac":"020000000030","macs":1,"name":"r","next":"R001",
  "not_before":null,"prefix":"R","quantity":3,"width":3}
a1 GET /v1/order?name=p
200 {"first":1,"issuer":"acme-ca","mac":"020000000010","macs":1,"name":"p","next":"P001",
  "not_before":null,"prefix":"P","quantity":3,"width":3}
a1 GET /v1/order?name=q
200 {"first":1,"issuer":"acme-ca","mac":"020000000020","macs":1,"name":"q","next":"Q001",
  "not_before":null,"prefix":"Q","quantity":2,"width":3}
a1 POST /v1/order {"nr":3,"name":"r","issuer":"acme-ca","prefix":"R","width":3,"first":1,"quantity":3,"macs":1}
200 {"first":1,"issuer":"acme-ca","mac":"020000000030","macs":1,"name":"r","next":"R001",
  "not_before":null,"prefix":"R","quantity":3,"width":3}
a1 POST /v1/order {"nr":4,"name":"s","issuer":"acme-ca","prefix":"S","width":3,"first":1,"quantity":2,"macs":1}
200 {"first":1,"issuer":"acme-ca","mac":"020000000022","macs":1,"name":"s","next":"S001",
  "not_before":null,"prefix":"S","quantity":2,"width":3}
"#;

/// An order of each of two customers.
const TWO_CUSTOMERS: &str = r#"
a1 POST /v1/order {"nr":1,"name":"o1","issuer":"acme-ca","prefix":"A","width":3,"first":998,"quantity":2,"macs":0}
200 {"first":998,"issuer":"acme-ca","mac":null,"macs":0,"name":"o1","next":"A998","not_before":null,
  "prefix":"A","quantity":2,"width":3}
b1 POST /v1/order {"nr":1,"name":"o1","issuer":"bolt-ca","prefix":"B","width":3,"first":998,"quantity":2,"macs":0}
200 {"first":998,"issuer":"bolt-ca","mac":null,"macs":0,"name":"o1","next":"B998","not_before":null,
  "prefix":"B","quantity":2,"width":3}
"#;

/// The first customer sees what that customer saw, and a repeat is one. The new seat of the second
/// sees its orders and counts its own requests; the third customer begins with nothing, under issuers
/// of its own.
const CUSTOMER_MORE: &str = r#"
a1 GET /v1/order?name=o1
200 {"first":998,"issuer":"acme-ca","mac":null,"macs":0,"name":"o1","next":"A998","not_before":null,
  "prefix":"A","quantity":2,"width":3}
a1 POST /v1/order {"nr":1,"name":"o1","issuer":"acme-ca","prefix":"A","width":3,"first":998,"quantity":2,"macs":0}
200 {"first":998,"issuer":"acme-ca","mac":null,"macs":0,"name":"o1","next":"A998","not_before":null,
  "prefix":"A","quantity":2,"width":3}
b2 GET /v1/order?name=o1
200 {"first":998,"issuer":"bolt-ca","mac":null,"macs":0,"name":"o1","next":"B998","not_before":null,
  "prefix":"B","quantity":2,"width":3}
b2 POST /v1/order {"nr":2,"name":"o2","issuer":"bolt-ca","prefix":"C","width":3,"first":1,"quantity":1,"macs":0}
409 {"error":"wrong_number","expected":1,"no":11}
b2 POST /v1/order {"nr":1,"name":"o1","issuer":"bolt-ca","prefix":"C","width":3,"first":1,"quantity":1,"macs":0}
409 {"error":"exists","no":16}
b2 POST /v1/order {"nr":1,"name":"o2","issuer":"bolt-ca","prefix":"C","width":3,"first":1,"quantity":1,"macs":0}
200 {"first":1,"issuer":"bolt-ca","mac":null,"macs":0,"name":"o2","next":"C001","not_before":null,
  "prefix":"C","quantity":1,"width":3}
c1 GET /v1/order?name=o1
404 {"error":"unknown_order","no":14}
c1 POST /v1/order {"nr":1,"name":"o1","issuer":"acme-ca","prefix":"A","width":3,"first":998,"quantity":2,"macs":0}
422 {"error":"foreign_issuer","no":37}
c1 POST /v1/order {"nr":1,"name":"o1","issuer":"crux-ca","prefix":"A","width":3,"first":998,"quantity":2,"macs":0}
200 {"first":998,"issuer":"crux-ca","mac":null,"macs":0,"name":"o1","next":"A998","not_before":null,
  "prefix":"A","quantity":2,"width":3}
b1 GET /v1/order?name=o2
200 {"first":1,"issuer":"bolt-ca","mac":null,"macs":0,"name":"o2","next":"C001","not_before":null,
  "prefix":"C","quantity":1,"width":3}
"#;
