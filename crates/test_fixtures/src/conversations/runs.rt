//! A run of one device from its order to its shipping, and what the books show after it.

/// The run: an order with addresses, a map, a device with its plan, its read-back and its identity,
/// and its shipping.
pub const RUN: &str = r#"
a1 POST /v1/order {"nr":1,"name":"o1","issuer":"acme-ca","prefix":"A","width":3,"first":998,"quantity":2,"macs":1}
200 {"first":998,"issuer":"acme-ca","mac":"020000000010","macs":1,"name":"o1","next":"A998",
  "not_before":null,"prefix":"A","quantity":2,"width":3}
a1 POST /v1/map {"nr":2,"text":"$MAP"}
200 {"map":"$DIGEST"}
a1 POST /v1/device {"nr":3,"chip":"00000000000a","order":"o1","map":"$DIGEST","blocks":<>}
200 {"bits":[],"chip":"00000000000a","keys":{},"map":"$DIGEST","order":"o1",
  "pending":{"batch1":$NONE,"batch2":$NONE},"reason":null,"serial":null,"state":"registered"}
a1 POST /v1/plan {"nr":4,"chip":"00000000000a","wishes":[{"kind":"bit","field":"JTAG_DISABLE","index":0}]}
200 {"batch1":{"bits":[{"block":0,"mask":"00000040","word":6}],"keys":{}},"batch2":$NONE,
  "state":"awaiting1"}
a1 POST /v1/readback {"nr":5,"chip":"00000000000a","blocks":<0.6=00000040>}
200 {"outcome":"match","rest":$NONE,"state":"settled"}
a1 POST /v1/identity {"nr":6,"chip":"00000000000a","public_key":"616263"}
200 {"chip":"00000000000a","issuer":"acme-ca",
  "key_sha256":"ba7816bf8f01cfea414140de5dae2223b00361a396177a9cb410ff61f20015ad",
  "mac":"020000000010","not_after":"99991231235959Z","not_before":null,"serial":"A998"}
a1 POST /v1/ship {"nr":7,"chip":"00000000000a"}
200 {"chip":"00000000000a","state":"shipped"}
"#;

/// What the books show after it: each event once, and one serial number given.
pub const BOOKS: &str = r#"
a1 GET /v1/order?name=o1
200 {"first":998,"issuer":"acme-ca","mac":"020000000010","macs":1,"name":"o1","next":"A999",
  "not_before":null,"prefix":"A","quantity":2,"width":3}
a1 GET /v1/device?chip=00000000000a
200 {"bits":[{"block":0,"mask":"00000040","word":6}],"chip":"00000000000a","keys":{},
  "map":"$DIGEST","order":"o1","pending":{"batch1":$NONE,"batch2":$NONE},"reason":null,
  "serial":"A998","state":"shipped"}
a1 GET /v1/ledger?chip=00000000000a
200 {"chip":"00000000000a","entries":[
  {"bits":[],"event":"registered","keys":{},"n":1,"note":"","seat":"a1"},
  {"bits":[],"event":"planned","keys":{},"n":2,"note":"","seat":"a1"},
  {"bits":[{"block":0,"mask":"00000040","word":6}],"event":"read","keys":{},"n":3,"note":"match",
    "seat":"a1"},
  {"bits":[],"event":"identified","keys":{},"n":4,"note":"A998","seat":"a1"},
  {"bits":[],"event":"shipped","keys":{},"n":5,"note":"","seat":"a1"}]}
a1 POST /v1/order {"nr":8,"name":"o2","issuer":"acme-ca","prefix":"B","width":3,"first":1,"quantity":2,"macs":1}
200 {"first":1,"issuer":"acme-ca","mac":"020000000012","macs":1,"name":"o2","next":"B001",
  "not_before":null,"prefix":"B","quantity":2,"width":3}
"#;
