//! Conversations about what few stations ask or show, and what a wrong definition would let pass:
//! fuses that can't be read, keys that nobody asked for, and requests that differ from the last in
//! one member.

/// The conversations, each under its name.
pub const EDGES: &[(&str, &str)] = &[
    ("a plain bit that can't be read is not burnt", HIDDEN_BIT),
    ("a bit that can't be read reads 1", HIDDEN_ONE),
    ("a key that nobody asked for", UNASKED_KEY),
    ("a quarantined device is scrapped", QUARANTINED),
    ("a key whose first word is zero", FIRST_WORD),
    ("a bit whose number is beyond 32 bits", FAR_BIT),
    ("another issuer is no repeat", OTHER_ISSUER),
    ("another chip is no repeat", OTHER_CHIP),
    ("another key is no repeat", OTHER_KEY),
    ("bodies and queries that say nothing", UNUSED),
];

/// The read lock of BLOCK3 is burnt, so none of its bits is. Where one reads 1 the chip isn't
/// taken.
const HIDDEN_BIT: &str = r#"
@ map
a1 POST /v1/device {"nr":3,"chip":"00000000000a","order":"o1","map":"$DIGEST","blocks":<0.0=00040000 3.0=00000080>}
422 {"error":"bad_readback","no":41}
a1 POST /v1/device {"nr":3,"chip":"00000000000a","order":"o1","map":"$DIGEST","blocks":<0.0=00040000>}
200 {"bits":[{"block":0,"mask":"00040000","word":0}],"chip":"00000000000a","keys":{},
  "map":"$DIGEST","order":"o1","pending":{"batch1":$NONE,"batch2":$NONE},"reason":null,
  "serial":null,"state":"registered"}
a1 POST /v1/plan {"nr":4,"chip":"00000000000a","wishes":[{"kind":"bit","field":"BLOCK3","index":7}]}
422 {"error":"hidden","no":27}
a1 POST /v1/plan {"nr":4,"chip":"00000000000a","wishes":[{"kind":"value","field":"BLOCK3","value":"80"}]}
422 {"error":"hidden","no":27}
a1 POST /v1/plan {"nr":4,"chip":"00000000000a","wishes":[{"kind":"bit","field":"JTAG_DISABLE","index":0}]}
200 {"batch1":{"bits":[{"block":0,"mask":"00000040","word":6}],"keys":{}},"batch2":$NONE,
  "state":"awaiting1"}
"#;

/// A bit and its read lock: once the lock is burnt the bit reads 0. One that still reads 1 is
/// stray, though it was burnt.
const HIDDEN_ONE: &str = r#"
@ chip
a1 POST /v1/plan {"nr":4,"chip":"00000000000a","wishes":[{"kind":"bit","field":"BLOCK3","index":7},{"kind":"rlock","field":"BLOCK3"}]}
200 {"batch1":{"bits":[{"block":3,"mask":"00000080","word":0}],"keys":{}},
  "batch2":{"bits":[{"block":0,"mask":"00040000","word":0}],"keys":{}},"state":"awaiting1"}
a1 POST /v1/readback {"nr":5,"chip":"00000000000a","blocks":<3.0=00000080>}
200 {"outcome":"match","rest":$NONE,"state":"awaiting2"}
a1 POST /v1/readback {"nr":6,"chip":"00000000000a","blocks":<0.0=00040000>}
200 {"outcome":"match","rest":$NONE,"state":"settled"}
a1 POST /v1/device {"nr":7,"chip":"00000000000b","order":"o1","map":"$DIGEST","blocks":<>}
200 {"bits":[],"chip":"00000000000b","keys":{},"map":"$DIGEST","order":"o1",
  "pending":{"batch1":$NONE,"batch2":$NONE},"reason":null,"serial":null,"state":"registered"}
a1 POST /v1/plan {"nr":8,"chip":"00000000000b","wishes":[{"kind":"bit","field":"BLOCK3","index":7},{"kind":"rlock","field":"BLOCK3"}]}
200 {"batch1":{"bits":[{"block":3,"mask":"00000080","word":0}],"keys":{}},
  "batch2":{"bits":[{"block":0,"mask":"00040000","word":0}],"keys":{}},"state":"awaiting1"}
a1 POST /v1/readback {"nr":9,"chip":"00000000000b","blocks":<3.0=00000080>}
200 {"outcome":"match","rest":$NONE,"state":"awaiting2"}
a1 POST /v1/readback {"nr":10,"chip":"00000000000b","blocks":<0.0=00040000 3.0=00000080>}
200 {"outcome":"stray","rest":$NONE,"state":"quarantined"}
a1 GET /v1/device?chip=00000000000b
200 {"bits":[{"block":0,"mask":"00040000","word":0},{"block":3,"mask":"00000080","word":0}],
  "chip":"00000000000b","keys":{},"map":"$DIGEST","order":"o1",
  "pending":{"batch1":$NONE,"batch2":$NONE},"reason":"stray","serial":null,"state":"quarantined"}
"#;

/// A bit is asked for, and beside it a key is burnt. The digest is that of 4 zeros, a byte 1 and 27
/// zeros.
const UNASKED_KEY: &str = r#"
@ chip
a1 POST /v1/plan {"nr":4,"chip":"00000000000a","wishes":[{"kind":"bit","field":"JTAG_DISABLE","index":0}]}
200 {"batch1":{"bits":[{"block":0,"mask":"00000040","word":6}],"keys":{}},"batch2":$NONE,
  "state":"awaiting1"}
a1 POST /v1/readback {"nr":5,"chip":"00000000000a","blocks":<0.6=00000040 2.1=00000001>}
200 {"outcome":"key","rest":$NONE,"state":"quarantined"}
a1 GET /v1/device?chip=00000000000a
200 {"bits":[{"block":0,"mask":"00000040","word":6}],"chip":"00000000000a",
  "keys":{"BLOCK2":"909f22c2b34103bf854580c5f2c4f64c2520aa57b492e422d1801a160b6c6e67"},
  "map":"$DIGEST","order":"o1","pending":{"batch1":$NONE,"batch2":$NONE},"reason":"key",
  "serial":null,"state":"quarantined"}
"#;

/// A quarantined device may be scrapped: it has no reason then, and what was read stays.
const QUARANTINED: &str = r#"
@ chip
a1 POST /v1/plan {"nr":4,"chip":"00000000000a","wishes":[{"kind":"bit","field":"JTAG_DISABLE","index":0}]}
200 {"batch1":{"bits":[{"block":0,"mask":"00000040","word":6}],"keys":{}},"batch2":$NONE,
  "state":"awaiting1"}
a1 POST /v1/readback {"nr":5,"chip":"00000000000a","blocks":<0.6=00000044>}
200 {"outcome":"stray","rest":$NONE,"state":"quarantined"}
a1 POST /v1/ship {"nr":6,"chip":"00000000000a"}
409 {"error":"wrong_state","no":17}
a1 POST /v1/scrap {"nr":6,"chip":"00000000000a"}
200 {"chip":"00000000000a","state":"scrapped"}
a1 GET /v1/device?chip=00000000000a
200 {"bits":[{"block":0,"mask":"00000044","word":6}],"chip":"00000000000a","keys":{},
  "map":"$DIGEST","order":"o1","pending":{"batch1":$NONE,"batch2":$NONE},"reason":null,
  "serial":null,"state":"scrapped"}
a1 GET /v1/ledger?chip=00000000000a
200 {"chip":"00000000000a","entries":[
  {"bits":[],"event":"registered","keys":{},"n":1,"note":"","seat":"a1"},
  {"bits":[],"event":"planned","keys":{},"n":2,"note":"","seat":"a1"},
  {"bits":[{"block":0,"mask":"00000044","word":6}],"event":"read","keys":{},"n":3,"note":"stray",
    "seat":"a1"},
  {"bits":[],"event":"scrapped","keys":{},"n":4,"note":"","seat":"a1"}]}
"#;

/// A key block is a key unless all of it is zero. The digest is that of 31 zeros and a byte 128.
const FIRST_WORD: &str = r#"
@ map
a1 POST /v1/device {"nr":3,"chip":"00000000000a","order":"o1","map":"$DIGEST","blocks":<2.7=80000000>}
200 {"bits":[],"chip":"00000000000a",
  "keys":{"BLOCK2":"63794a3bf8875ac2c32ba6238d27e7e15e56a3b794b8d2d6aec82faef2360e3a"},
  "map":"$DIGEST","order":"o1","pending":{"batch1":$NONE,"batch2":$NONE},"reason":null,
  "serial":null,"state":"registered"}
a1 POST /v1/plan {"nr":4,"chip":"00000000000a","wishes":[{"kind":"key","field":"BLOCK2","key_sha256":"ba7816bf8f01cfea414140de5dae2223b00361a396177a9cb410ff61f20015ad"}]}
422 {"error":"other_key","no":25}
"#;

/// The number of a bit is a whole number: 2^32 and 7 more is no bit of BLOCK3, and 7 is one.
const FAR_BIT: &str = r#"
@ chip
a1 POST /v1/plan {"nr":4,"chip":"00000000000a","wishes":[{"kind":"bit","field":"BLOCK3","index":4294967303}]}
422 {"error":"unmapped_bit","no":20}
a1 POST /v1/plan {"nr":4,"chip":"00000000000a","wishes":[{"kind":"bit","field":"BLOCK3","index":9007199254740991}]}
422 {"error":"unmapped_bit","no":20}
a1 POST /v1/plan {"nr":4,"chip":"00000000000a","wishes":[{"kind":"bit","field":"BLOCK3","index":7}]}
200 {"batch1":{"bits":[{"block":3,"mask":"00000080","word":0}],"keys":{}},"batch2":$NONE,
  "state":"awaiting1"}
"#;

/// The last number with the same rows for another issuer, also one that isn't the customer's.
const OTHER_ISSUER: &str = r#"
a1 POST /v1/import {"nr":1,"issuer":"acme-ca","csv":"serial,key_sha256\nZ1,ba7816bf8f01cfea414140de5dae2223b00361a396177a9cb410ff61f20015ad\n"}
200 {"added":1,"present":0}
a1 POST /v1/import {"nr":1,"issuer":"bolt-ca","csv":"serial,key_sha256\nZ1,ba7816bf8f01cfea414140de5dae2223b00361a396177a9cb410ff61f20015ad\n"}
409 {"error":"other_body","no":12}
a1 POST /v1/import {"nr":1,"issuer":"acme-ca","csv":"serial,key_sha256\nZ1,ba7816bf8f01cfea414140de5dae2223b00361a396177a9cb410ff61f20015ad\n"}
200 {"added":1,"present":0}
"#;

/// The last number with the same words of another chip, one that isn't there: as a plan, a
/// read-back, an identity and a shipping.
const OTHER_CHIP: &str = r#"
@ chip
a1 POST /v1/plan {"nr":4,"chip":"00000000000a","wishes":[{"kind":"bit","field":"JTAG_DISABLE","index":0}]}
200 {"batch1":{"bits":[{"block":0,"mask":"00000040","word":6}],"keys":{}},"batch2":$NONE,
  "state":"awaiting1"}
a1 POST /v1/plan {"nr":4,"chip":"00000000000b","wishes":[{"kind":"bit","field":"JTAG_DISABLE","index":0}]}
409 {"error":"other_body","no":12}
a1 POST /v1/readback {"nr":5,"chip":"00000000000a","blocks":<0.6=00000040>}
200 {"outcome":"match","rest":$NONE,"state":"settled"}
a1 POST /v1/readback {"nr":5,"chip":"00000000000b","blocks":<0.6=00000040>}
409 {"error":"other_body","no":12}
a1 POST /v1/identity {"nr":6,"chip":"00000000000a","public_key":"616263"}
200 {"chip":"00000000000a","issuer":"acme-ca",
  "key_sha256":"ba7816bf8f01cfea414140de5dae2223b00361a396177a9cb410ff61f20015ad","mac":null,
  "not_after":"99991231235959Z","not_before":null,"serial":"A998"}
a1 POST /v1/identity {"nr":6,"chip":"00000000000b","public_key":"616263"}
409 {"error":"other_body","no":12}
a1 POST /v1/ship {"nr":7,"chip":"00000000000a"}
200 {"chip":"00000000000a","state":"shipped"}
a1 POST /v1/ship {"nr":7,"chip":"00000000000b"}
409 {"error":"other_body","no":12}
a1 POST /v1/scrap {"nr":7,"chip":"00000000000a"}
409 {"error":"other_body","no":12}
"#;

/// The last number with another key for the same block.
const OTHER_KEY: &str = r#"
@ chip
a1 POST /v1/plan {"nr":4,"chip":"00000000000a","wishes":[{"kind":"key","field":"BLOCK1","key_sha256":"630dcd2966c4336691125448bbb25b4ff412a49c732db2c8abc1b8581bd710dd"}]}
200 {"batch1":{"bits":[],
    "keys":{"BLOCK1":"630dcd2966c4336691125448bbb25b4ff412a49c732db2c8abc1b8581bd710dd"}},
  "batch2":$NONE,"state":"awaiting1"}
a1 POST /v1/plan {"nr":4,"chip":"00000000000a","wishes":[{"kind":"key","field":"BLOCK1","key_sha256":"ba7816bf8f01cfea414140de5dae2223b00361a396177a9cb410ff61f20015ad"}]}
409 {"error":"other_body","no":12}
a1 POST /v1/plan {"nr":4,"chip":"00000000000a","wishes":[{"kind":"key","field":"BLOCK2","key_sha256":"630dcd2966c4336691125448bbb25b4ff412a49c732db2c8abc1b8581bd710dd"}]}
409 {"error":"other_body","no":12}
"#;

/// What a request that writes has for a query, and one that shows for a body, whatever it is.
const UNUSED: &str = r#"
a1 POST /v1/order?name=o2&nr {"nr":1,"name":"o1","issuer":"acme-ca","prefix":"A","width":3,"first":998,"quantity":2,"macs":0}
200 {"first":998,"issuer":"acme-ca","mac":null,"macs":0,"name":"o1","next":"A998","not_before":null,
  "prefix":"A","quantity":2,"width":3}
# a repeat, without the query
a1 POST /v1/order {"nr":1,"name":"o1","issuer":"acme-ca","prefix":"A","width":3,"first":998,"quantity":2,"macs":0}
200 {"first":998,"issuer":"acme-ca","mac":null,"macs":0,"name":"o1","next":"A998","not_before":null,
  "prefix":"A","quantity":2,"width":3}
a1 POST /v1/map? {"nr":2,"text":"$MAP"}
200 {"map":"$DIGEST"}
a1 POST /v1/device?chip=00000000000b {"nr":3,"chip":"00000000000a","order":"o1","map":"$DIGEST","blocks":<>}
200 {"bits":[],"chip":"00000000000a","keys":{},"map":"$DIGEST","order":"o1",
  "pending":{"batch1":$NONE,"batch2":$NONE},"reason":null,"serial":null,"state":"registered"}
a1 POST /v1/plan?wishes {"nr":4,"chip":"00000000000a","wishes":[]}
200 {"batch1":$NONE,"batch2":$NONE,"state":"settled"}
a1 POST /v1/identity?? {"nr":5,"chip":"00000000000a","public_key":"616263"}
200 {"chip":"00000000000a","issuer":"acme-ca",
  "key_sha256":"ba7816bf8f01cfea414140de5dae2223b00361a396177a9cb410ff61f20015ad","mac":null,
  "not_after":"99991231235959Z","not_before":null,"serial":"A998"}
a1 GET /v1/order?name=o1 {"nr":6,"name":"o2"}
200 {"first":998,"issuer":"acme-ca","mac":null,"macs":0,"name":"o1","next":"A999","not_before":null,
  "prefix":"A","quantity":2,"width":3}
a1 GET /v1/device?chip=00000000000a {
200 {"bits":[],"chip":"00000000000a","keys":{},"map":"$DIGEST","order":"o1",
  "pending":{"batch1":$NONE,"batch2":$NONE},"reason":null,"serial":"A998","state":"identified"}
a1 GET /v1/devices?after= $FF
200 {"devices":[
  {"chip":"00000000000a","order":"o1","reason":null,"serial":"A998","state":"identified"}],"next":null}
a1 GET /v1/identity?chip=00000000000a []
200 {"chip":"00000000000a","issuer":"acme-ca",
  "key_sha256":"ba7816bf8f01cfea414140de5dae2223b00361a396177a9cb410ff61f20015ad","mac":null,
  "not_after":"99991231235959Z","not_before":null,"serial":"A998"}
a1 GET /v1/ledger?chip=00000000000a {"chip":"00000000000b"}
200 {"chip":"00000000000a","entries":[
  {"bits":[],"event":"registered","keys":{},"n":1,"note":"","seat":"a1"},
  {"bits":[],"event":"planned","keys":{},"n":2,"note":"","seat":"a1"},
  {"bits":[],"event":"identified","keys":{},"n":3,"note":"A998","seat":"a1"}]}
a1 GET /v1/report {"nr":6}
csv order,quantity,registered,planned,settled,identified,shipped,quarantined,scrapped,serials_left|
  o1,2,0,0,0,1,0,0,0,1|
manager GET /v1/site/report?x=1 {"nr":1}
csv customer,orders,quantity,registered,planned,settled,identified,shipped,quarantined,scrapped,serials_left|
  acme,1,2,0,0,0,1,0,0,0,1|
  bolt,0,0,0,0,0,0,0,0,0,0|
"#;
