//! Conversations about devices: their registration, what it is refused for, and what is shown of them.

/// The conversations, each under its name.
pub const DEVICES: &[(&str, &str)] = &[
    ("read-backs of chips", READ_BACKS),
    ("what a device refers to", REFERENCES),
    ("blocks that are none", BAD_BLOCKS),
    ("a registration and its repeat", REPEAT),
    ("requests that are refused unread", UNREAD),
    ("pages of devices", PAGES),
    ("queries that begin no page", BAD_PAGES),
];

/// A seat's order, its map, a blank chip, and then the chip's ledger.
pub const ACME: &str = r#"
@ chip
a1 GET /v1/ledger?chip=00000000000a
200 {"chip":"00000000000a",
  "entries":[{"bits":[],"event":"registered","keys":{},"n":1,"note":"","seat":"a1"}]}
"#;

/// An order, its map, a blank chip and the chip's ledger, of a seat of another customer, whose chip has the same
/// name.
pub const BOLT: &str = r#"
b1 POST /v1/order {"nr":1,"name":"o1","issuer":"bolt-ca","prefix":"B","width":3,"first":998,"quantity":2,"macs":0}
200 {"first":998,"issuer":"bolt-ca","mac":null,"macs":0,"name":"o1","next":"B998","not_before":null,
  "prefix":"B","quantity":2,"width":3}
b1 POST /v1/map {"nr":2,"text":"$MAP"}
200 {"map":"$DIGEST"}
b1 POST /v1/device {"nr":3,"chip":"00000000000a","order":"o1","map":"$DIGEST","blocks":<>}
200 {"bits":[],"chip":"00000000000a","keys":{},"map":"$DIGEST","order":"o1",
  "pending":{"batch1":$NONE,"batch2":$NONE},"reason":null,"serial":null,"state":"registered"}
b1 GET /v1/ledger?chip=00000000000a
200 {"chip":"00000000000a",
  "entries":[{"bits":[],"event":"registered","keys":{},"n":1,"note":"","seat":"b1"}]}
"#;

/// Read-backs that no chip of the map can give, or whose coding scheme is another, and then chips up
/// to the order's quantity: no refusal took a number. The digest is that of a byte 1 and 31 zeros.
pub const READ_BACKS: &str = r#"
@ map
a1 POST /v1/map {"nr":3,"text":"$MAP~bit = 192\ncount = 2\n~bit = 192\ncount = 2\nread = 3\n~"}
200 {"map":"$LOCKED"}
a1 POST /v1/device {"nr":4,"chip":"00000000000a","order":"o1","map":"$DIGEST","blocks":<0.6=00000001>}
422 {"error":"coding_scheme","no":36}
# the coding field is hidden
a1 POST /v1/device {"nr":4,"chip":"00000000000a","order":"o1","map":"$LOCKED","blocks":<0.0=00080000>}
422 {"error":"coding_scheme","no":36}
a1 POST /v1/device {"nr":4,"chip":"00000000000a","order":"o1","map":"$DIGEST","blocks":<0.0=00010000 1.0=00000001>}
422 {"error":"bad_readback","no":41}
# block 0 with eight words
a1 POST /v1/device {"nr":4,"chip":"00000000000a","order":"o1","map":"$DIGEST","blocks":[["00000000","00000000","00000000","00000000","00000000","00000000","00000000","00000000"],["00000000","00000000","00000000","00000000","00000000","00000000","00000000","00000000"],["00000000","00000000","00000000","00000000","00000000","00000000","00000000","00000000"],["00000000","00000000","00000000","00000000","00000000","00000000","00000000","00000000"]]}
422 {"error":"bad_readback","no":41}
a1 POST /v1/device {"nr":4,"chip":"00000000000a","order":"o1","map":"$DIGEST","blocks":<1.0=00000001>}
200 {"bits":[],"chip":"00000000000a",
  "keys":{"BLOCK1":"01d0fabd251fcbbe2b93b4b927b26ad2a1a99077152e45ded1e678afa45dbec5"},
  "map":"$DIGEST","order":"o1","pending":{"batch1":$NONE,"batch2":$NONE},"reason":null,
  "serial":null,"state":"registered"}
a1 POST /v1/device {"nr":5,"chip":"00000000000b","order":"o1","map":"$DIGEST","blocks":<3.7=80000000>}
200 {"bits":[{"block":3,"mask":"80000000","word":7}],"chip":"00000000000b","keys":{},
  "map":"$DIGEST","order":"o1","pending":{"batch1":$NONE,"batch2":$NONE},"reason":null,
  "serial":null,"state":"registered"}
a1 POST /v1/device {"nr":6,"chip":"00000000000c","order":"o1","map":"$DIGEST","blocks":<>}
409 {"error":"quantity_reached","no":18}
a1 GET /v1/device?chip=00000000000a
200 {"bits":[],"chip":"00000000000a",
  "keys":{"BLOCK1":"01d0fabd251fcbbe2b93b4b927b26ad2a1a99077152e45ded1e678afa45dbec5"},
  "map":"$DIGEST","order":"o1","pending":{"batch1":$NONE,"batch2":$NONE},"reason":null,
  "serial":null,"state":"registered"}
a1 GET /v1/ledger?chip=00000000000a
200 {"chip":"00000000000a","entries":[
  {"bits":[],"event":"registered",
    "keys":{"BLOCK1":"01d0fabd251fcbbe2b93b4b927b26ad2a1a99077152e45ded1e678afa45dbec5"},"n":1,
    "note":"","seat":"a1"}]}
a1 GET /v1/device?chip=00000000000b
200 {"bits":[{"block":3,"mask":"80000000","word":7}],"chip":"00000000000b","keys":{},
  "map":"$DIGEST","order":"o1","pending":{"batch1":$NONE,"batch2":$NONE},"reason":null,
  "serial":null,"state":"registered"}
a1 GET /v1/ledger?chip=00000000000b
200 {"chip":"00000000000b","entries":[
  {"bits":[{"block":3,"mask":"80000000","word":7}],"event":"registered","keys":{},"n":1,"note":"",
    "seat":"a1"}]}
"#;

/// Registrations under what isn't there or of what is, each with the lowest refusal that holds.
const REFERENCES: &str = r#"
@ map
a1 POST /v1/device {"nr":3,"chip":"00000000000a","order":"o1","map":"$LOCKED","blocks":<>}
404 {"error":"unknown_map","no":13}
a1 POST /v1/device {"nr":3,"chip":"00000000000a","order":"o2","map":"$LOCKED","blocks":<>}
404 {"error":"unknown_map","no":13}
a1 POST /v1/device {"nr":3,"chip":"00000000000a","order":"o2","map":"$DIGEST","blocks":<>}
404 {"error":"unknown_order","no":14}
a1 POST /v1/device {"nr":3,"chip":"00000000000a","order":"o1","map":"$DIGEST","blocks":<>}
200 {"bits":[],"chip":"00000000000a","keys":{},"map":"$DIGEST","order":"o1",
  "pending":{"batch1":$NONE,"batch2":$NONE},"reason":null,"serial":null,"state":"registered"}
a1 POST /v1/device {"nr":4,"chip":"00000000000a","order":"o1","map":"$DIGEST","blocks":<>}
409 {"error":"exists","no":16}
"#;

/// Blocks that are none: refused before the number is looked at.
const BAD_BLOCKS: &str = r#"
a1 POST /v1/device {"nr":7,"chip":"00000000000a","order":"o1","map":"$DIGEST","blocks":[["00000000"],["00000000"],["00000000"],["00000000"],["00000000"]]}
400 {"error":"bad_member","no":10}
a1 POST /v1/device {"nr":7,"chip":"00000000000a","order":"o1","map":"$DIGEST","blocks":[["00000000","00000000","00000000","00000000","00000000","00000000","00000000","00000000","00000000"]]}
400 {"error":"bad_member","no":10}
a1 POST /v1/device {"nr":7,"chip":"00000000000a","order":"o1","map":"$DIGEST","blocks":<3.7=0000000>}
400 {"error":"bad_member","no":10}
a1 POST /v1/device {"nr":7,"chip":"00000000000a","order":"o1","map":"$DIGEST","blocks":<3.7=000000000>}
400 {"error":"bad_member","no":10}
a1 POST /v1/device {"nr":7,"chip":"00000000000a","order":"o1","map":"$DIGEST","blocks":<3.7=0000000g>}
400 {"error":"bad_member","no":10}
a1 POST /v1/device {"nr":7,"chip":"00000000000a","order":"o1","map":"$DIGEST","blocks":[]}
400 {"error":"bad_member","no":10}
a1 POST /v1/device {"nr":7,"chip":"00000000000a","order":"o1","map":"$DIGEST","blocks":[[]]}
400 {"error":"bad_member","no":10}
a1 POST /v1/device {"nr":7,"chip":"00000000000a","order":"o1","map":"$DIGEST","blocks":[[0]]}
400 {"error":"bad_member","no":10}
a1 POST /v1/device {"nr":7,"chip":"00000000000a","order":"o1","map":"$DIGEST","blocks":["00000000"]}
400 {"error":"bad_member","no":10}
a1 POST /v1/device {"nr":7,"chip":"00000000000a","order":"o1","map":"$DIGEST","blocks":"00000000"}
400 {"error":"bad_member","no":10}
a1 POST /v1/device {"nr":7,"chip":"00000000000a","order":"o1","map":"$DIGEST","blocks":null}
400 {"error":"bad_member","no":10}
"#;

/// One registration, then the same again, and with its words in upper case letters: the same reply.
/// Another word is another body, and so is another case of the map's digest.
const REPEAT: &str = r#"
@ map
a1 POST /v1/device {"nr":3,"chip":"00000000000a","order":"o1","map":"$DIGEST","blocks":<3.7=800000ab>}
200 {"bits":[{"block":3,"mask":"800000ab","word":7}],"chip":"00000000000a","keys":{},
  "map":"$DIGEST","order":"o1","pending":{"batch1":$NONE,"batch2":$NONE},"reason":null,
  "serial":null,"state":"registered"}
a1 POST /v1/device {"nr":3,"chip":"00000000000a","order":"o1","map":"$DIGEST","blocks":<3.7=800000ab>}
200 {"bits":[{"block":3,"mask":"800000ab","word":7}],"chip":"00000000000a","keys":{},
  "map":"$DIGEST","order":"o1","pending":{"batch1":$NONE,"batch2":$NONE},"reason":null,
  "serial":null,"state":"registered"}
a1 POST /v1/device {"nr":3,"chip":"00000000000a","order":"o1","map":"$DIGEST","blocks":<3.7=800000AB>}
200 {"bits":[{"block":3,"mask":"800000ab","word":7}],"chip":"00000000000a","keys":{},
  "map":"$DIGEST","order":"o1","pending":{"batch1":$NONE,"batch2":$NONE},"reason":null,
  "serial":null,"state":"registered"}
a1 POST /v1/device {"nr":3,"chip":"00000000000a","order":"o1","map":"$DIGEST","blocks":<3.7=800000ac>}
409 {"error":"other_body","no":12}
a1 POST /v1/device {"nr":3,"chip":"00000000000a","order":"o1","map":"453E1a59aaf4956999cac589cf209d34bfa882946bada4f1aa5199c4256c4fab","blocks":<3.7=800000ab>}
409 {"error":"other_body","no":12}
a1 GET /v1/ledger?chip=00000000000a
200 {"chip":"00000000000a","entries":[
  {"bits":[{"block":3,"mask":"800000ab","word":7}],"event":"registered","keys":{},"n":1,"note":"",
    "seat":"a1"}]}
"#;

/// Requests that are refused for their method, their caller or their query, and those for a chip that
/// isn't there.
const UNREAD: &str = r#"
a1 POST /v1/ledger
404 {"error":"unknown_path","no":7}
a1 POST /v1/devices
404 {"error":"unknown_path","no":7}
a1 PUT /v1/device
404 {"error":"unknown_path","no":7}
manager GET /v1/device?chip=00000000000a
403 {"error":"wrong_caller","no":8}
manager GET /v1/ledger?chip=00000000000a
403 {"error":"wrong_caller","no":8}
manager GET /v1/devices?after=
403 {"error":"wrong_caller","no":8}
manager POST /v1/device
403 {"error":"wrong_caller","no":8}
a1 POST /v1/device
400 {"error":"bad_json","no":9}
a1 GET /v1/device
400 {"error":"bad_member","no":10}
a1 GET /v1/device?chip=00000000000A
400 {"error":"bad_member","no":10}
a1 GET /v1/ledger?chip=0000000000a
400 {"error":"bad_member","no":10}
a1 GET /v1/ledger?chip=00000000000a&chip=00000000000a
400 {"error":"bad_member","no":10}
a1 GET /v1/device?chip=00000000000a
404 {"error":"unknown_device","no":15}
a1 GET /v1/ledger?chip=00000000000a
404 {"error":"unknown_device","no":15}
"#;

/// Pages of two customers' devices, whose chips lie between each other's: each customer sees its
/// own. A page may begin behind a chip that isn't there, or is another's.
const PAGES: &str = r#"
@ chip
b1 GET /v1/devices?after=
200 {"devices":[],"next":null}
a1 GET /v1/devices?after=
200 {"devices":[
  {"chip":"00000000000a","order":"o1","reason":null,"serial":null,"state":"registered"}],"next":null}
b1 POST /v1/order {"nr":1,"name":"o1","issuer":"bolt-ca","prefix":"B","width":3,"first":998,"quantity":2,"macs":0}
200 {"first":998,"issuer":"bolt-ca","mac":null,"macs":0,"name":"o1","next":"B998","not_before":null,
  "prefix":"B","quantity":2,"width":3}
b1 POST /v1/map {"nr":2,"text":"$MAP"}
200 {"map":"$DIGEST"}
b1 POST /v1/device {"nr":3,"chip":"00000000000b","order":"o1","map":"$DIGEST","blocks":<>}
200 {"bits":[],"chip":"00000000000b","keys":{},"map":"$DIGEST","order":"o1",
  "pending":{"batch1":$NONE,"batch2":$NONE},"reason":null,"serial":null,"state":"registered"}
b1 POST /v1/device {"nr":4,"chip":"00000000000d","order":"o1","map":"$DIGEST","blocks":<>}
200 {"bits":[],"chip":"00000000000d","keys":{},"map":"$DIGEST","order":"o1",
  "pending":{"batch1":$NONE,"batch2":$NONE},"reason":null,"serial":null,"state":"registered"}
a1 POST /v1/device {"nr":4,"chip":"00000000000c","order":"o1","map":"$DIGEST","blocks":<>}
200 {"bits":[],"chip":"00000000000c","keys":{},"map":"$DIGEST","order":"o1",
  "pending":{"batch1":$NONE,"batch2":$NONE},"reason":null,"serial":null,"state":"registered"}
a1 POST /v1/plan {"nr":5,"chip":"00000000000a","wishes":[]}
200 {"batch1":$NONE,"batch2":$NONE,"state":"settled"}
a1 POST /v1/identity {"nr":6,"chip":"00000000000a","public_key":"616263"}
200 {"chip":"00000000000a","issuer":"acme-ca",
  "key_sha256":"ba7816bf8f01cfea414140de5dae2223b00361a396177a9cb410ff61f20015ad","mac":null,
  "not_after":"99991231235959Z","not_before":null,"serial":"A998"}
a1 POST /v1/plan {"nr":7,"chip":"00000000000c","wishes":[{"kind":"bit","field":"JTAG_DISABLE","index":0}]}
200 {"batch1":{"bits":[{"block":0,"mask":"00000040","word":6}],"keys":{}},"batch2":$NONE,
  "state":"awaiting1"}
a1 POST /v1/readback {"nr":8,"chip":"00000000000c","blocks":<0.6=00000044>}
200 {"outcome":"stray","rest":$NONE,"state":"quarantined"}
a1 GET /v1/devices?after=
200 {"devices":[
  {"chip":"00000000000a","order":"o1","reason":null,"serial":"A998","state":"identified"},
  {"chip":"00000000000c","order":"o1","reason":"stray","serial":null,"state":"quarantined"}],
  "next":null}
a1 GET /v1/devices?after=00000000000a
200 {"devices":[
  {"chip":"00000000000c","order":"o1","reason":"stray","serial":null,"state":"quarantined"}],
  "next":null}
a1 GET /v1/devices?after=00000000000b
200 {"devices":[
  {"chip":"00000000000c","order":"o1","reason":"stray","serial":null,"state":"quarantined"}],
  "next":null}
a1 GET /v1/devices?after=00000000000c
200 {"devices":[],"next":null}
a1 GET /v1/devices?after=ffffffffffff
200 {"devices":[],"next":null}
b1 GET /v1/devices?after=
200 {"devices":[
  {"chip":"00000000000b","order":"o1","reason":null,"serial":null,"state":"registered"},
  {"chip":"00000000000d","order":"o1","reason":null,"serial":null,"state":"registered"}],
  "next":null}
b1 GET /v1/devices?after=00000000000c
200 {"devices":[
  {"chip":"00000000000d","order":"o1","reason":null,"serial":null,"state":"registered"}],
  "next":null}
# other parameters are passed over, and a name alone has no text
b1 GET /v1/devices?chip=00000000000a&after&limit=1
200 {"devices":[
  {"chip":"00000000000b","order":"o1","reason":null,"serial":null,"state":"registered"},
  {"chip":"00000000000d","order":"o1","reason":null,"serial":null,"state":"registered"}],
  "next":null}
"#;

/// Queries that don't say once where a page begins: at the first device, or behind a chip.
const BAD_PAGES: &str = r#"
a1 GET /v1/devices
400 {"error":"bad_member","no":10}
a1 GET /v1/devices?
400 {"error":"bad_member","no":10}
a1 GET /v1/devices?chip=00000000000a
400 {"error":"bad_member","no":10}
a1 GET /v1/devices?after=&after=
400 {"error":"bad_member","no":10}
a1 GET /v1/devices?after=&after=00000000000a
400 {"error":"bad_member","no":10}
a1 GET /v1/devices?after=00000000000A
400 {"error":"bad_member","no":10}
a1 GET /v1/devices?after=0000000000a
400 {"error":"bad_member","no":10}
a1 GET /v1/devices?after=00000000000a0
400 {"error":"bad_member","no":10}
a1 GET /v1/devices?after=00:00:00:00:0a
400 {"error":"bad_member","no":10}
a1 GET /v1/devices?after=00000000000%61
400 {"error":"bad_member","no":10}
a1 GET /v1/devices?after=
200 {"devices":[],"next":null}
"#;
