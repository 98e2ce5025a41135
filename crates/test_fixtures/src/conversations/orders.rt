//! Conversations about orders: their repeats, their refusals, their hardware addresses, and two
//! customers and a manager in one store.

/// The conversations, each under its name.
pub const ORDERS: &[(&str, &str)] = &[
    ("an order and its repeat", REPEAT),
    ("numbers of requests", NUMBERS),
    ("refused orders", REFUSED),
    ("requests that are refused unread", UNREAD),
    ("orders are shown", SHOWN),
    ("hardware addresses", ADDRESSES),
    ("serial numbers of any width", WIDTHS),
    ("the issuer of another customer", FOREIGN_ISSUER),
    ("the manager", MANAGER),
];

/// One order, then the same bytes again: the same reply twice.
const REPEAT: &str = r#"
a1 GET /v1/order?name=o1
404 {"error":"unknown_order","no":14}
a1 POST /v1/order {"nr":1,"name":"o1","issuer":"acme-ca","prefix":"A","width":3,"first":998,"quantity":2,"macs":0}
200 {"first":998,"issuer":"acme-ca","mac":null,"macs":0,"name":"o1","next":"A998","not_before":null,
  "prefix":"A","quantity":2,"width":3}
a1 POST /v1/order {"nr":1,"name":"o1","issuer":"acme-ca","prefix":"A","width":3,"first":998,"quantity":2,"macs":0}
200 {"first":998,"issuer":"acme-ca","mac":null,"macs":0,"name":"o1","next":"A998","not_before":null,
  "prefix":"A","quantity":2,"width":3}
"#;

/// The last number with another request, and a number that isn't the next: neither takes a number.
const NUMBERS: &str = r#"
a1 POST /v1/order {"nr":1,"name":"o1","issuer":"acme-ca","prefix":"A","width":3,"first":998,"quantity":2,"macs":0}
200 {"first":998,"issuer":"acme-ca","mac":null,"macs":0,"name":"o1","next":"A998","not_before":null,
  "prefix":"A","quantity":2,"width":3}
a1 POST /v1/order {"nr":1,"name":"o1","issuer":"acme-ca","prefix":"A","width":3,"first":998,"quantity":1,"macs":0}
409 {"error":"other_body","no":12}
a1 POST /v1/order {"nr":3,"name":"o3","issuer":"acme-ca","prefix":"C","width":3,"first":1,"quantity":1,"macs":0}
409 {"error":"wrong_number","expected":2,"no":11}
a1 POST /v1/order {"nr":2,"name":"o2","issuer":"acme-ca","prefix":"B","width":2,"first":7,"quantity":3,"macs":0}
200 {"first":7,"issuer":"acme-ca","mac":null,"macs":0,"name":"o2","next":"B07","not_before":null,
  "prefix":"B","quantity":3,"width":2}
# members that aren't named, white space, an escape and an earlier duplicate make no other request
a1 POST /v1/order {"x":0, "nr":2,"name":"o9","name":"o\u0032","issuer":"acme-ca","prefix":"B","width":2,"first":7,"quantity":3,"macs":0}
200 {"first":7,"issuer":"acme-ca","mac":null,"macs":0,"name":"o2","next":"B07","not_before":null,
  "prefix":"B","quantity":3,"width":2}
"#;

/// Orders that are refused, each with the lowest refusal that holds, and then one that is next to
/// the first: no refusal took a number. And one of the greatest quantity.
const REFUSED: &str = r#"
@ order
# 998, 999, 1000: the numbers overlap too
a1 POST /v1/order {"nr":2,"name":"o2","issuer":"acme-ca","prefix":"A","width":3,"first":998,"quantity":3,"macs":0}
422 {"error":"number_too_wide","no":31}
a1 POST /v1/order {"nr":2,"name":"o1","issuer":"acme-ca","prefix":"a","width":3,"first":998,"quantity":3,"macs":0}
409 {"error":"exists","no":16}
a1 POST /v1/order {"nr":2,"name":"o2","issuer":"acme-ca","prefix":"a","width":3,"first":998,"quantity":3,"macs":0}
422 {"error":"bad_serial","no":30}
a1 POST /v1/order {"nr":2,"name":"o2","issuer":"acme-ca","prefix":"A","width":3,"first":997,"quantity":2,"macs":4}
409 {"error":"no_mac_room","no":33}
a1 POST /v1/order {"nr":2,"name":"o2","issuer":"acme-ca","prefix":"A","width":3,"first":997,"quantity":2,"macs":0}
409 {"error":"range_overlap","no":34}
a1 POST /v1/order {"nr":2,"name":"o2","issuer":"bolt-ca","prefix":"A","width":3,"first":997,"quantity":1,"macs":0}
422 {"error":"foreign_issuer","no":37}
a1 POST /v1/order {"nr":2,"name":"o2","issuer":"acme-ca","prefix":"A","width":9,"first":0,"quantity":10001,"macs":0}
409 {"error":"limit","no":40}
a1 POST /v1/order {"nr":2,"name":"o2","issuer":"acme-ca","prefix":"A","width":10,"first":0,"quantity":1,"macs":0}
400 {"error":"bad_member","no":10}
a1 POST /v1/order {
400 {"error":"bad_json","no":9}
a1 POST /v1/order []
400 {"error":"bad_member","no":10}
a1 POST /v1/order {"nr":2,"name":"o2","issuer":"acme-ca","prefix":"A","width":3,"first":997,"quantity":1,"macs":0}
200 {"first":997,"issuer":"acme-ca","mac":null,"macs":0,"name":"o2","next":"A997","not_before":null,
  "prefix":"A","quantity":1,"width":3}
a1 POST /v1/order {"nr":3,"name":"o3","issuer":"acme-ca","prefix":"A","width":9,"first":0,"quantity":10000,"macs":0}
200 {"first":0,"issuer":"acme-ca","mac":null,"macs":0,"name":"o3","next":"A000000000",
  "not_before":null,"prefix":"A","quantity":10000,"width":9}
"#;

/// Bodies that are no JSON, for what they have or for how deep they are, and numbers that aren't whole
/// or are too large: none of them is taken. Then an order whose body is as deep as one may be.
const UNREAD: &str = r#"
a1 POST /v1/order $TIMES~200~[~
400 {"error":"bad_json","no":9}
a1 POST /v1/order $FF
400 {"error":"bad_json","no":9}
# 128 deep
a1 POST /v1/order {"nr":1,"name":"o1","issuer":"acme-ca","prefix":"A","width":3,"first":998,"quantity":2,"macs":0,"x":$TIMES~127~[~$TIMES~127~]~}
400 {"error":"bad_json","no":9}
a1 POST /v1/order {"nr":9007199254740992,"name":"o1","issuer":"acme-ca","prefix":"A","width":3,"first":998,"quantity":2,"macs":0}
400 {"error":"bad_member","no":10}
a1 POST /v1/order {"nr":1.0,"name":"o1","issuer":"acme-ca","prefix":"A","width":3,"first":998,"quantity":2,"macs":0}
400 {"error":"bad_member","no":10}
a1 POST /v1/order {"nr":"1","name":"o1","issuer":"acme-ca","prefix":"A","width":3,"first":998,"quantity":2,"macs":0}
400 {"error":"bad_member","no":10}
a1 POST /v1/order {"nr":1,"name":"o1","issuer":"acme-ca","prefix":"A","width":3,"first":998,"quantity":2,"macs":0,"x":$TIMES~126~[~$TIMES~126~]~}
200 {"first":998,"issuer":"acme-ca","mac":null,"macs":0,"name":"o1","next":"A998","not_before":null,
  "prefix":"A","quantity":2,"width":3}
"#;

/// An order is shown as its reply was, and one that isn't there is refused.
const SHOWN: &str = r#"
a1 POST /v1/order {"nr":1,"name":"o1","issuer":"acme-ca","prefix":"A","width":3,"first":998,"quantity":2,"macs":0}
200 {"first":998,"issuer":"acme-ca","mac":null,"macs":0,"name":"o1","next":"A998","not_before":null,
  "prefix":"A","quantity":2,"width":3}
a1 GET /v1/order?name=o1
200 {"first":998,"issuer":"acme-ca","mac":null,"macs":0,"name":"o1","next":"A998","not_before":null,
  "prefix":"A","quantity":2,"width":3}
a1 GET /v1/order?name=o2
404 {"error":"unknown_order","no":14}
a1 GET /v1/order?name=o1&name=o1
400 {"error":"bad_member","no":10}
a1 GET /v1/order
400 {"error":"bad_member","no":10}
a1 GET /v1/orders?name=o1
404 {"error":"unknown_path","no":7}
"#;

/// Orders of devices with an address each: the lowest free block of the first pool that has one, and
/// never another customer's. A refused order takes no number and no address.
const ADDRESSES: &str = r#"
a1 POST /v1/order {"nr":1,"name":"p","issuer":"acme-ca","prefix":"P","width":3,"first":1,"quantity":3,"macs":1}
200 {"first":1,"issuer":"acme-ca","mac":"020000000010","macs":1,"name":"p","next":"P001",
  "not_before":null,"prefix":"P","quantity":3,"width":3}
# the first pool has one address left
a1 POST /v1/order {"nr":2,"name":"q","issuer":"acme-ca","prefix":"Q","width":3,"first":1,"quantity":2,"macs":1}
200 {"first":1,"issuer":"acme-ca","mac":"020000000020","macs":1,"name":"q","next":"Q001",
  "not_before":null,"prefix":"Q","quantity":2,"width":3}
# the second has two left
a1 POST /v1/order {"nr":3,"name":"r","issuer":"acme-ca","prefix":"R","width":3,"first":1,"quantity":3,"macs":1}
409 {"error":"no_mac_room","no":33}
# bolt has no pool
b1 POST /v1/order {"nr":1,"name":"s","issuer":"bolt-ca","prefix":"S","width":3,"first":1,"quantity":1,"macs":1}
409 {"error":"no_mac_room","no":33}
a1 POST /v1/order {"nr":3,"name":"r","issuer":"acme-ca","prefix":"R","width":3,"first":1,"quantity":1,"macs":1}
200 {"first":1,"issuer":"acme-ca","mac":"020000000013","macs":1,"name":"r","next":"R001",
  "not_before":null,"prefix":"R","quantity":1,"width":3}
"#;

/// An order of width 3 whose serial numbers have the prefix `A1`, so that `A1005` is a number of it.
const WIDTHS: &str = r#"
a1 POST /v1/order {"nr":1,"name":"o5","issuer":"acme-ca","prefix":"A1","width":3,"first":5,"quantity":2,"macs":0}
200 {"first":5,"issuer":"acme-ca","mac":null,"macs":0,"name":"o5","next":"A1005","not_before":null,
  "prefix":"A1","quantity":2,"width":3}
a1 POST /v1/order {"nr":2,"name":"o6","issuer":"acme-ca","prefix":"A","width":4,"first":1005,"quantity":2,"macs":0}
200 {"first":1005,"issuer":"acme-ca","mac":null,"macs":0,"name":"o6","next":"A1005",
  "not_before":null,"prefix":"A","quantity":2,"width":4}
"#;

/// An issuer of `bolt` is none of `acme`'s, before `bolt` has numbers of it and after.
const FOREIGN_ISSUER: &str = r#"
a1 POST /v1/order {"nr":1,"name":"o1","issuer":"bolt-ca","prefix":"B","width":3,"first":998,"quantity":2,"macs":0}
422 {"error":"foreign_issuer","no":37}
b1 POST /v1/order {"nr":1,"name":"o1","issuer":"bolt-ca","prefix":"B","width":3,"first":998,"quantity":2,"macs":0}
200 {"first":998,"issuer":"bolt-ca","mac":null,"macs":0,"name":"o1","next":"B998","not_before":null,
  "prefix":"B","quantity":2,"width":3}
a1 POST /v1/order {"nr":1,"name":"o1","issuer":"bolt-ca","prefix":"B","width":3,"first":998,"quantity":2,"macs":0}
422 {"error":"foreign_issuer","no":37}
a1 POST /v1/order {"nr":1,"name":"o2","issuer":"bolt-ca","prefix":"C","width":3,"first":1,"quantity":1,"macs":0}
422 {"error":"foreign_issuer","no":37}
a1 GET /v1/order?name=o1
404 {"error":"unknown_order","no":14}
"#;

/// The manager is refused on the paths of seats, whatever the body, and is told of an unknown path
/// as a seat is. It changes nothing: the first order of a seat is served as in an empty store.
const MANAGER: &str = r#"
manager POST /v1/order {"nr":1,"name":"o1","issuer":"acme-ca","prefix":"A","width":3,"first":998,"quantity":2,"macs":0}
403 {"error":"wrong_caller","no":8}
manager POST /v1/order {
403 {"error":"wrong_caller","no":8}
manager POST /v1/order
403 {"error":"wrong_caller","no":8}
manager GET /v1/order?name=o1
403 {"error":"wrong_caller","no":8}
manager GET /v1/order
403 {"error":"wrong_caller","no":8}
manager GET /v1/orders
404 {"error":"unknown_path","no":7}
manager POST /v1/none {}
404 {"error":"unknown_path","no":7}
a1 POST /v1/order {"nr":1,"name":"o1","issuer":"acme-ca","prefix":"A","width":3,"first":998,"quantity":2,"macs":0}
200 {"first":998,"issuer":"acme-ca","mac":null,"macs":0,"name":"o1","next":"A998","not_before":null,
  "prefix":"A","quantity":2,"width":3}
"#;
