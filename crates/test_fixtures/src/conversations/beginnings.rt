//! Conversations about the beginning of validity that an order's records get.

/// The conversations, each under its name.
pub const BEGINNINGS: &[(&str, &str)] = &[
    ("beginnings that exist, and others", TEXTS),
    ("beginnings of another type", TYPES),
    ("no beginning", MISSING),
    ("a bad beginning is told last", TOLD_LAST),
    ("a record begins when its order says", RECORD),
];

/// Beginnings by their form, by the days of the years and months, and by the hours, minutes and seconds.
/// None that is refused takes a number.
const TEXTS: &str = r#"
a1 POST /v1/order {"nr":1,"name":"o1","issuer":"acme-ca","prefix":"A","width":3,"first":998,"quantity":2,"macs":0,"not_before":"20240229120000Z"}
200 {"first":998,"issuer":"acme-ca","mac":null,"macs":0,"name":"o1","next":"A998",
  "not_before":"20240229120000Z","prefix":"A","quantity":2,"width":3}
a1 POST /v1/order {"nr":2,"name":"o2","issuer":"acme-ca","prefix":"B","width":3,"first":998,"quantity":2,"macs":0,"not_before":"99991231235959Z"}
200 {"first":998,"issuer":"acme-ca","mac":null,"macs":0,"name":"o2","next":"B998",
  "not_before":"99991231235959Z","prefix":"B","quantity":2,"width":3}
a1 POST /v1/order {"nr":3,"name":"o3","issuer":"acme-ca","prefix":"C","width":3,"first":998,"quantity":2,"macs":0,"not_before":"20230229120000Z"}
422 {"error":"bad_not_before","no":42}
a1 POST /v1/order {"nr":3,"name":"o3","issuer":"acme-ca","prefix":"C","width":3,"first":998,"quantity":2,"macs":0,"not_before":"20240229240000Z"}
422 {"error":"bad_not_before","no":42}
a1 POST /v1/order {"nr":3,"name":"o3","issuer":"acme-ca","prefix":"C","width":3,"first":998,"quantity":2,"macs":0,"not_before":"20240229120060Z"}
422 {"error":"bad_not_before","no":42}
a1 POST /v1/order {"nr":3,"name":"o3","issuer":"acme-ca","prefix":"C","width":3,"first":998,"quantity":2,"macs":0,"not_before":"202402291200Z"}
422 {"error":"bad_not_before","no":42}
a1 POST /v1/order {"nr":3,"name":"o3","issuer":"acme-ca","prefix":"C","width":3,"first":998,"quantity":2,"macs":0,"not_before":""}
422 {"error":"bad_not_before","no":42}
# a leap year is each fourth one, but of those that end a century each fourth alone; the year 0 is one
a1 POST /v1/order {"nr":3,"name":"o3","issuer":"acme-ca","prefix":"C","width":3,"first":998,"quantity":2,"macs":0,"not_before":"19000229000000Z"}
422 {"error":"bad_not_before","no":42}
a1 POST /v1/order {"nr":3,"name":"o3","issuer":"acme-ca","prefix":"C","width":3,"first":998,"quantity":2,"macs":0,"not_before":"20000229235959Z"}
200 {"first":998,"issuer":"acme-ca","mac":null,"macs":0,"name":"o3","next":"C998",
  "not_before":"20000229235959Z","prefix":"C","quantity":2,"width":3}
a1 POST /v1/order {"nr":4,"name":"o4","issuer":"acme-ca","prefix":"D","width":3,"first":998,"quantity":2,"macs":0,"not_before":"00000229000000Z"}
200 {"first":998,"issuer":"acme-ca","mac":null,"macs":0,"name":"o4","next":"D998",
  "not_before":"00000229000000Z","prefix":"D","quantity":2,"width":3}
a1 GET /v1/order?name=o4
200 {"first":998,"issuer":"acme-ca","mac":null,"macs":0,"name":"o4","next":"D998",
  "not_before":"00000229000000Z","prefix":"D","quantity":2,"width":3}
"#;

/// A member that is neither a text nor null.
const TYPES: &str = r#"
a1 POST /v1/order {"nr":1,"name":"o1","issuer":"acme-ca","prefix":"A","width":3,"first":998,"quantity":2,"macs":0,"not_before":20240229120000}
400 {"error":"bad_member","no":10}
a1 POST /v1/order {"nr":1,"name":"o1","issuer":"acme-ca","prefix":"A","width":3,"first":998,"quantity":2,"macs":0,"not_before":true}
400 {"error":"bad_member","no":10}
a1 POST /v1/order {"nr":1,"name":"o1","issuer":"acme-ca","prefix":"A","width":3,"first":998,"quantity":2,"macs":0,"not_before":[]}
400 {"error":"bad_member","no":10}
a1 POST /v1/order {"nr":1,"name":"o1","issuer":"acme-ca","prefix":"A","width":3,"first":998,"quantity":2,"macs":0,"not_before":{}}
400 {"error":"bad_member","no":10}
# before its number
a1 POST /v1/order {"nr":9,"name":"o1","issuer":"acme-ca","prefix":"A","width":3,"first":998,"quantity":2,"macs":0,"not_before":1}
400 {"error":"bad_member","no":10}
a1 GET /v1/order?name=o1
404 {"error":"unknown_order","no":14}
"#;

/// A member that is null and one that is absent ask for the same, and are two requests. What was asked
/// for tells a repeat as it was read: an escape makes no other request, another beginning does.
const MISSING: &str = r#"
a1 POST /v1/order {"nr":1,"name":"o1","issuer":"acme-ca","prefix":"A","width":3,"first":998,"quantity":2,"macs":0}
200 {"first":998,"issuer":"acme-ca","mac":null,"macs":0,"name":"o1","next":"A998","not_before":null,
  "prefix":"A","quantity":2,"width":3}
a1 POST /v1/order {"nr":1,"name":"o1","issuer":"acme-ca","prefix":"A","width":3,"first":998,"quantity":2,"macs":0,"not_before":null}
409 {"error":"other_body","no":12}
a1 POST /v1/order {"nr":1,"name":"o1","issuer":"acme-ca","prefix":"A","width":3,"first":998,"quantity":2,"macs":0}
200 {"first":998,"issuer":"acme-ca","mac":null,"macs":0,"name":"o1","next":"A998","not_before":null,
  "prefix":"A","quantity":2,"width":3}
a1 POST /v1/order {"nr":2,"name":"o2","issuer":"acme-ca","prefix":"B","width":3,"first":998,"quantity":2,"macs":0,"not_before":null}
200 {"first":998,"issuer":"acme-ca","mac":null,"macs":0,"name":"o2","next":"B998","not_before":null,
  "prefix":"B","quantity":2,"width":3}
a1 POST /v1/order {"nr":2,"name":"o2","issuer":"acme-ca","prefix":"B","width":3,"first":998,"quantity":2,"macs":0}
409 {"error":"other_body","no":12}
a1 POST /v1/order {"nr":2,"name":"o2","issuer":"acme-ca","prefix":"B","width":3,"first":998,"quantity":2,"macs":0,"not_before":null}
200 {"first":998,"issuer":"acme-ca","mac":null,"macs":0,"name":"o2","next":"B998","not_before":null,
  "prefix":"B","quantity":2,"width":3}
a1 POST /v1/order {"nr":3,"name":"o3","issuer":"acme-ca","prefix":"C","width":3,"first":998,"quantity":2,"macs":0,"not_before":"20240229120000Z"}
200 {"first":998,"issuer":"acme-ca","mac":null,"macs":0,"name":"o3","next":"C998",
  "not_before":"20240229120000Z","prefix":"C","quantity":2,"width":3}
a1 POST /v1/order {"nr":3,"name":"o3","issuer":"acme-ca","prefix":"C","width":3,"first":998,"quantity":2,"macs":0,"not_before":"20240229120001Z"}
409 {"error":"other_body","no":12}
a1 POST /v1/order {"nr":3,"name":"o3","issuer":"acme-ca","prefix":"C","width":3,"first":998,"quantity":2,"macs":0,"not_before":"2024022912000\u0030Z"}
200 {"first":998,"issuer":"acme-ca","mac":null,"macs":0,"name":"o3","next":"C998",
  "not_before":"20240229120000Z","prefix":"C","quantity":2,"width":3}
"#;

/// Where another refusal of an order holds, it is told in place of a bad beginning. Alone the beginning
/// is told, and takes no number.
const TOLD_LAST: &str = r#"
a1 POST /v1/order {"nr":1,"name":"o1","issuer":"acme-ca","prefix":"a","width":3,"first":998,"quantity":2,"macs":0,"not_before":"20230229120000Z"}
422 {"error":"bad_serial","no":30}
a1 POST /v1/order {"nr":1,"name":"o1","issuer":"bolt-ca","prefix":"A","width":3,"first":998,"quantity":2,"macs":0,"not_before":"20230229120000Z"}
422 {"error":"foreign_issuer","no":37}
a1 POST /v1/order {"nr":1,"name":"o1","issuer":"acme-ca","prefix":"A","width":9,"first":0,"quantity":10001,"macs":0,"not_before":"20230229120000Z"}
409 {"error":"limit","no":40}
a1 POST /v1/order {"nr":1,"name":"o1","issuer":"acme-ca","prefix":"A","width":3,"first":998,"quantity":2,"macs":0,"not_before":"20230229120000Z"}
422 {"error":"bad_not_before","no":42}
a1 GET /v1/order?name=o1
404 {"error":"unknown_order","no":14}
a1 POST /v1/order {"nr":1,"name":"o1","issuer":"acme-ca","prefix":"A","width":3,"first":998,"quantity":2,"macs":0,"not_before":"20230228120000Z"}
200 {"first":998,"issuer":"acme-ca","mac":null,"macs":0,"name":"o1","next":"A998",
  "not_before":"20230228120000Z","prefix":"A","quantity":2,"width":3}
"#;

/// A record has its order's beginning, which stays where the order's numbers are given; those of an order
/// without one have none. The record outlives its device.
pub const RECORD: &str = r#"
a1 POST /v1/order {"nr":1,"name":"o1","issuer":"acme-ca","prefix":"A","width":3,"first":998,"quantity":2,"macs":0,"not_before":"20240229120000Z"}
200 {"first":998,"issuer":"acme-ca","mac":null,"macs":0,"name":"o1","next":"A998",
  "not_before":"20240229120000Z","prefix":"A","quantity":2,"width":3}
a1 POST /v1/order {"nr":2,"name":"o2","issuer":"acme-ca","prefix":"B","width":3,"first":1,"quantity":1,"macs":0}
200 {"first":1,"issuer":"acme-ca","mac":null,"macs":0,"name":"o2","next":"B001","not_before":null,
  "prefix":"B","quantity":1,"width":3}
a1 POST /v1/map {"nr":3,"text":"$MAP"}
200 {"map":"$DIGEST"}
a1 POST /v1/device {"nr":4,"chip":"00000000000a","order":"o1","map":"$DIGEST","blocks":<>}
200 {"bits":[],"chip":"00000000000a","keys":{},"map":"$DIGEST","order":"o1",
  "pending":{"batch1":$NONE,"batch2":$NONE},"reason":null,"serial":null,"state":"registered"}
a1 POST /v1/plan {"nr":5,"chip":"00000000000a","wishes":[]}
200 {"batch1":$NONE,"batch2":$NONE,"state":"settled"}
a1 POST /v1/device {"nr":6,"chip":"00000000000b","order":"o2","map":"$DIGEST","blocks":<>}
200 {"bits":[],"chip":"00000000000b","keys":{},"map":"$DIGEST","order":"o2",
  "pending":{"batch1":$NONE,"batch2":$NONE},"reason":null,"serial":null,"state":"registered"}
a1 POST /v1/plan {"nr":7,"chip":"00000000000b","wishes":[]}
200 {"batch1":$NONE,"batch2":$NONE,"state":"settled"}
a1 POST /v1/identity {"nr":8,"chip":"00000000000b","public_key":"01"}
200 {"chip":"00000000000b","issuer":"acme-ca",
  "key_sha256":"4bf5122f344554c53bde2ebb8cd2b7e3d1600ad631c385a5d7cce23c7785459a","mac":null,
  "not_after":"99991231235959Z","not_before":null,"serial":"B001"}
a1 POST /v1/identity {"nr":9,"chip":"00000000000a","public_key":"00"}
200 {"chip":"00000000000a","issuer":"acme-ca",
  "key_sha256":"6e340b9cffb37a989ca544e6bb780a2c78901d3fb33738768511a30617afa01d","mac":null,
  "not_after":"99991231235959Z","not_before":"20240229120000Z","serial":"A998"}
a1 POST /v1/identity {"nr":9,"chip":"00000000000a","public_key":"00"}
200 {"chip":"00000000000a","issuer":"acme-ca",
  "key_sha256":"6e340b9cffb37a989ca544e6bb780a2c78901d3fb33738768511a30617afa01d","mac":null,
  "not_after":"99991231235959Z","not_before":"20240229120000Z","serial":"A998"}
a1 GET /v1/order?name=o1
200 {"first":998,"issuer":"acme-ca","mac":null,"macs":0,"name":"o1","next":"A999",
  "not_before":"20240229120000Z","prefix":"A","quantity":2,"width":3}
a1 POST /v1/scrap {"nr":10,"chip":"00000000000a"}
200 {"chip":"00000000000a","state":"scrapped"}
a1 GET /v1/identity?chip=00000000000a
200 {"chip":"00000000000a","issuer":"acme-ca",
  "key_sha256":"6e340b9cffb37a989ca544e6bb780a2c78901d3fb33738768511a30617afa01d","mac":null,
  "not_after":"99991231235959Z","not_before":"20240229120000Z","serial":"A998"}
# its serial number is given still, to its key
a1 POST /v1/import {"nr":11,"issuer":"acme-ca","csv":"serial,key_sha256\nA998,6e340b9cffb37a989ca544e6bb780a2c78901d3fb33738768511a30617afa01d\nZ1,ba7816bf8f01cfea414140de5dae2223b00361a396177a9cb410ff61f20015ad\n"}
200 {"added":1,"present":1}
a1 POST /v1/device {"nr":12,"chip":"00000000000c","order":"o1","map":"$DIGEST","blocks":<>}
200 {"bits":[],"chip":"00000000000c","keys":{},"map":"$DIGEST","order":"o1",
  "pending":{"batch1":$NONE,"batch2":$NONE},"reason":null,"serial":null,"state":"registered"}
a1 POST /v1/plan {"nr":13,"chip":"00000000000c","wishes":[]}
200 {"batch1":$NONE,"batch2":$NONE,"state":"settled"}
a1 POST /v1/identity {"nr":14,"chip":"00000000000c","public_key":"02"}
200 {"chip":"00000000000c","issuer":"acme-ca",
  "key_sha256":"dbc1b4c900ffe48d575b5da5c638040125f65db0fe3e24494b76ea986457d986","mac":null,
  "not_after":"99991231235959Z","not_before":"20240229120000Z","serial":"A999"}
"#;
