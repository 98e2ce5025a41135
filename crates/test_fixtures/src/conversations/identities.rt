//! Conversations about identities, shipments, scrapped devices and imports of serial numbers.

/// The conversations, each under its name.
pub const IDENTITIES: &[(&str, &str)] = &[
    ("an identity, and its key on another device", AN_IDENTITY),
    ("an identity is shown again", SHOWN),
    ("a scrapped device keeps its serial number", SCRAPPED),
    ("the addresses of devices", ADDRESSES),
    ("numbers that an import gave are skipped", SKIPPED),
    ("bodies of identities, shipments and imports", BODIES),
    ("an import before the serial numbers", BEFORE),
    ("the rows of an import", ROWS),
    ("as many rows as an import may have", FULL),
];

/// A device gets its serial number and is shipped; its key is no other device's. The other's is as long
/// as a key may be.
const AN_IDENTITY: &str = r#"
@ map
a1 POST /v1/identity {"nr":3,"chip":"00000000000a","public_key":"616263"}
404 {"error":"unknown_device","no":15}
a1 POST /v1/ship {"nr":3,"chip":"00000000000a"}
404 {"error":"unknown_device","no":15}
a1 POST /v1/scrap {"nr":3,"chip":"00000000000a"}
404 {"error":"unknown_device","no":15}
a1 POST /v1/device {"nr":3,"chip":"00000000000a","order":"o1","map":"$DIGEST","blocks":<>}
200 {"bits":[],"chip":"00000000000a","keys":{},"map":"$DIGEST","order":"o1",
  "pending":{"batch1":$NONE,"batch2":$NONE},"reason":null,"serial":null,"state":"registered"}
a1 POST /v1/identity {"nr":4,"chip":"00000000000a","public_key":"616263"}
409 {"error":"wrong_state","no":17}
a1 POST /v1/ship {"nr":4,"chip":"00000000000a"}
409 {"error":"wrong_state","no":17}
a1 POST /v1/plan {"nr":4,"chip":"00000000000a","wishes":[]}
200 {"batch1":$NONE,"batch2":$NONE,"state":"settled"}
a1 POST /v1/identity {"nr":5,"chip":"00000000000a","public_key":"616263"}
200 {"chip":"00000000000a","issuer":"acme-ca",
  "key_sha256":"ba7816bf8f01cfea414140de5dae2223b00361a396177a9cb410ff61f20015ad","mac":null,
  "not_after":"99991231235959Z","not_before":null,"serial":"A998"}
# a repeat, and the same number with the key in another case of letters
a1 POST /v1/identity {"nr":5,"chip":"00000000000a","public_key":"616263"}
200 {"chip":"00000000000a","issuer":"acme-ca",
  "key_sha256":"ba7816bf8f01cfea414140de5dae2223b00361a396177a9cb410ff61f20015ad","mac":null,
  "not_after":"99991231235959Z","not_before":null,"serial":"A998"}
a1 POST /v1/identity {"nr":6,"chip":"00000000000a","public_key":"6162630"}
400 {"error":"bad_member","no":10}
a1 GET /v1/device?chip=00000000000a
200 {"bits":[],"chip":"00000000000a","keys":{},"map":"$DIGEST","order":"o1",
  "pending":{"batch1":$NONE,"batch2":$NONE},"reason":null,"serial":"A998","state":"identified"}
a1 GET /v1/order?name=o1
200 {"first":998,"issuer":"acme-ca","mac":null,"macs":0,"name":"o1","next":"A999","not_before":null,
  "prefix":"A","quantity":2,"width":3}
a1 POST /v1/identity {"nr":6,"chip":"00000000000a","public_key":"00"}
409 {"error":"wrong_state","no":17}
a1 POST /v1/device {"nr":6,"chip":"00000000000b","order":"o1","map":"$DIGEST","blocks":<>}
200 {"bits":[],"chip":"00000000000b","keys":{},"map":"$DIGEST","order":"o1",
  "pending":{"batch1":$NONE,"batch2":$NONE},"reason":null,"serial":null,"state":"registered"}
a1 POST /v1/plan {"nr":7,"chip":"00000000000b","wishes":[]}
200 {"batch1":$NONE,"batch2":$NONE,"state":"settled"}
a1 POST /v1/identity {"nr":8,"chip":"00000000000b","public_key":"616263"}
409 {"error":"key_bound","no":35}
a1 POST /v1/ship {"nr":8,"chip":"00000000000a"}
200 {"chip":"00000000000a","state":"shipped"}
a1 POST /v1/ship {"nr":9,"chip":"00000000000a"}
409 {"error":"wrong_state","no":17}
a1 POST /v1/scrap {"nr":9,"chip":"00000000000a"}
409 {"error":"wrong_state","no":17}
# 1,025 bytes, and 1,024
a1 POST /v1/identity {"nr":9,"chip":"00000000000b","public_key":"$TIMES~1025~ab~"}
400 {"error":"bad_member","no":10}
a1 POST /v1/identity {"nr":9,"chip":"00000000000b","public_key":"$TIMES~1024~ab~"}
200 {"chip":"00000000000b","issuer":"acme-ca",
  "key_sha256":"4555555dc68d872c2270ba89ecc5f6f094812f65372b37e50071fe5168031c49","mac":null,
  "not_after":"99991231235959Z","not_before":null,"serial":"A999"}
a1 GET /v1/ledger?chip=00000000000a
200 {"chip":"00000000000a","entries":[
  {"bits":[],"event":"registered","keys":{},"n":1,"note":"","seat":"a1"},
  {"bits":[],"event":"planned","keys":{},"n":2,"note":"","seat":"a1"},
  {"bits":[],"event":"identified","keys":{},"n":3,"note":"A998","seat":"a1"},
  {"bits":[],"event":"shipped","keys":{},"n":4,"note":"","seat":"a1"}]}
"#;

/// An identity is shown as it was given, whatever became of its device then. Another customer's device
/// has the same chip, and the same serial number of another issuer.
const SHOWN: &str = r#"
@ map
a1 GET /v1/identity?chip=00000000000a
404 {"error":"unknown_device","no":15}
a1 POST /v1/device {"nr":3,"chip":"00000000000a","order":"o1","map":"$DIGEST","blocks":<>}
200 {"bits":[],"chip":"00000000000a","keys":{},"map":"$DIGEST","order":"o1",
  "pending":{"batch1":$NONE,"batch2":$NONE},"reason":null,"serial":null,"state":"registered"}
a1 GET /v1/identity?chip=00000000000a
409 {"error":"wrong_state","no":17}
a1 POST /v1/plan {"nr":4,"chip":"00000000000a","wishes":[]}
200 {"batch1":$NONE,"batch2":$NONE,"state":"settled"}
a1 GET /v1/identity?chip=00000000000a
409 {"error":"wrong_state","no":17}
a1 POST /v1/identity {"nr":5,"chip":"00000000000a","public_key":"616263"}
200 {"chip":"00000000000a","issuer":"acme-ca",
  "key_sha256":"ba7816bf8f01cfea414140de5dae2223b00361a396177a9cb410ff61f20015ad","mac":null,
  "not_after":"99991231235959Z","not_before":null,"serial":"A998"}
a1 GET /v1/identity?chip=00000000000a
200 {"chip":"00000000000a","issuer":"acme-ca",
  "key_sha256":"ba7816bf8f01cfea414140de5dae2223b00361a396177a9cb410ff61f20015ad","mac":null,
  "not_after":"99991231235959Z","not_before":null,"serial":"A998"}
b1 GET /v1/identity?chip=00000000000a
404 {"error":"unknown_device","no":15}
b1 POST /v1/order {"nr":1,"name":"o1","issuer":"bolt-ca","prefix":"A","width":3,"first":998,"quantity":2,"macs":0}
200 {"first":998,"issuer":"bolt-ca","mac":null,"macs":0,"name":"o1","next":"A998","not_before":null,
  "prefix":"A","quantity":2,"width":3}
b1 POST /v1/map {"nr":2,"text":"$MAP"}
200 {"map":"$DIGEST"}
b1 POST /v1/device {"nr":3,"chip":"00000000000a","order":"o1","map":"$DIGEST","blocks":<>}
200 {"bits":[],"chip":"00000000000a","keys":{},"map":"$DIGEST","order":"o1",
  "pending":{"batch1":$NONE,"batch2":$NONE},"reason":null,"serial":null,"state":"registered"}
b1 GET /v1/identity?chip=00000000000a
409 {"error":"wrong_state","no":17}
b1 POST /v1/plan {"nr":4,"chip":"00000000000a","wishes":[]}
200 {"batch1":$NONE,"batch2":$NONE,"state":"settled"}
b1 POST /v1/identity {"nr":5,"chip":"00000000000a","public_key":"01"}
200 {"chip":"00000000000a","issuer":"bolt-ca",
  "key_sha256":"4bf5122f344554c53bde2ebb8cd2b7e3d1600ad631c385a5d7cce23c7785459a","mac":null,
  "not_after":"99991231235959Z","not_before":null,"serial":"A998"}
b1 GET /v1/identity?chip=00000000000a
200 {"chip":"00000000000a","issuer":"bolt-ca",
  "key_sha256":"4bf5122f344554c53bde2ebb8cd2b7e3d1600ad631c385a5d7cce23c7785459a","mac":null,
  "not_after":"99991231235959Z","not_before":null,"serial":"A998"}
a1 POST /v1/ship {"nr":6,"chip":"00000000000a"}
200 {"chip":"00000000000a","state":"shipped"}
b1 POST /v1/scrap {"nr":6,"chip":"00000000000a"}
200 {"chip":"00000000000a","state":"scrapped"}
a1 GET /v1/identity?chip=00000000000a
200 {"chip":"00000000000a","issuer":"acme-ca",
  "key_sha256":"ba7816bf8f01cfea414140de5dae2223b00361a396177a9cb410ff61f20015ad","mac":null,
  "not_after":"99991231235959Z","not_before":null,"serial":"A998"}
b1 GET /v1/identity?chip=00000000000a
200 {"chip":"00000000000a","issuer":"bolt-ca",
  "key_sha256":"4bf5122f344554c53bde2ebb8cd2b7e3d1600ad631c385a5d7cce23c7785459a","mac":null,
  "not_after":"99991231235959Z","not_before":null,"serial":"A998"}
# scrapped without an identity
a1 POST /v1/device {"nr":7,"chip":"00000000000b","order":"o1","map":"$DIGEST","blocks":<>}
200 {"bits":[],"chip":"00000000000b","keys":{},"map":"$DIGEST","order":"o1",
  "pending":{"batch1":$NONE,"batch2":$NONE},"reason":null,"serial":null,"state":"registered"}
a1 POST /v1/scrap {"nr":8,"chip":"00000000000b"}
200 {"chip":"00000000000b","state":"scrapped"}
a1 GET /v1/identity?chip=00000000000b
409 {"error":"wrong_state","no":17}
# other forms of the request
a1 GET /v1/identity
400 {"error":"bad_member","no":10}
a1 GET /v1/identity?chip=00000000000A
400 {"error":"bad_member","no":10}
a1 GET /v1/identity?chip=00000000000a&chip=00000000000a
400 {"error":"bad_member","no":10}
a1 GET /v1/identity?serial=A998
400 {"error":"bad_member","no":10}
a1 PUT /v1/identity
404 {"error":"unknown_path","no":7}
manager GET /v1/identity?chip=00000000000a
403 {"error":"wrong_caller","no":8}
"#;

/// A scrapped device keeps its serial number and gives its place back.
const SCRAPPED: &str = r#"
@ settled
a1 POST /v1/identity {"nr":5,"chip":"00000000000a","public_key":"00"}
200 {"chip":"00000000000a","issuer":"acme-ca",
  "key_sha256":"6e340b9cffb37a989ca544e6bb780a2c78901d3fb33738768511a30617afa01d","mac":null,
  "not_after":"99991231235959Z","not_before":null,"serial":"A998"}
a1 POST /v1/scrap {"nr":6,"chip":"00000000000a"}
200 {"chip":"00000000000a","state":"scrapped"}
a1 POST /v1/scrap {"nr":7,"chip":"00000000000a"}
409 {"error":"wrong_state","no":17}
a1 GET /v1/device?chip=00000000000a
200 {"bits":[],"chip":"00000000000a","keys":{},"map":"$DIGEST","order":"o1",
  "pending":{"batch1":$NONE,"batch2":$NONE},"reason":null,"serial":"A998","state":"scrapped"}
a1 POST /v1/device {"nr":7,"chip":"00000000000b","order":"o1","map":"$DIGEST","blocks":<>}
200 {"bits":[],"chip":"00000000000b","keys":{},"map":"$DIGEST","order":"o1",
  "pending":{"batch1":$NONE,"batch2":$NONE},"reason":null,"serial":null,"state":"registered"}
a1 POST /v1/plan {"nr":8,"chip":"00000000000b","wishes":[]}
200 {"batch1":$NONE,"batch2":$NONE,"state":"settled"}
a1 POST /v1/identity {"nr":9,"chip":"00000000000b","public_key":"00"}
409 {"error":"key_bound","no":35}
a1 POST /v1/identity {"nr":9,"chip":"00000000000b","public_key":"01"}
200 {"chip":"00000000000b","issuer":"acme-ca",
  "key_sha256":"4bf5122f344554c53bde2ebb8cd2b7e3d1600ad631c385a5d7cce23c7785459a","mac":null,
  "not_after":"99991231235959Z","not_before":null,"serial":"A999"}
a1 GET /v1/order?name=o1
200 {"first":998,"issuer":"acme-ca","mac":null,"macs":0,"name":"o1","next":null,"not_before":null,
  "prefix":"A","quantity":2,"width":3}
a1 POST /v1/device {"nr":10,"chip":"00000000000c","order":"o1","map":"$DIGEST","blocks":<>}
200 {"bits":[],"chip":"00000000000c","keys":{},"map":"$DIGEST","order":"o1",
  "pending":{"batch1":$NONE,"batch2":$NONE},"reason":null,"serial":null,"state":"registered"}
a1 POST /v1/plan {"nr":11,"chip":"00000000000c","wishes":[]}
200 {"batch1":$NONE,"batch2":$NONE,"state":"settled"}
a1 POST /v1/identity {"nr":12,"chip":"00000000000c","public_key":"02"}
409 {"error":"exhausted","no":32}
# what is pending is given up
a1 POST /v1/scrap {"nr":12,"chip":"00000000000c"}
200 {"chip":"00000000000c","state":"scrapped"}
a1 POST /v1/device {"nr":13,"chip":"00000000000d","order":"o1","map":"$DIGEST","blocks":<>}
200 {"bits":[],"chip":"00000000000d","keys":{},"map":"$DIGEST","order":"o1",
  "pending":{"batch1":$NONE,"batch2":$NONE},"reason":null,"serial":null,"state":"registered"}
a1 POST /v1/plan {"nr":14,"chip":"00000000000d","wishes":[{"kind":"bit","field":"JTAG_DISABLE","index":0}]}
200 {"batch1":{"bits":[{"block":0,"mask":"00000040","word":6}],"keys":{}},"batch2":$NONE,
  "state":"awaiting1"}
a1 POST /v1/scrap {"nr":15,"chip":"00000000000d"}
200 {"chip":"00000000000d","state":"scrapped"}
a1 GET /v1/device?chip=00000000000d
200 {"bits":[],"chip":"00000000000d","keys":{},"map":"$DIGEST","order":"o1",
  "pending":{"batch1":$NONE,"batch2":$NONE},"reason":null,"serial":null,"state":"scrapped"}
a1 GET /v1/ledger?chip=00000000000d
200 {"chip":"00000000000d","entries":[
  {"bits":[],"event":"registered","keys":{},"n":1,"note":"","seat":"a1"},
  {"bits":[],"event":"planned","keys":{},"n":2,"note":"","seat":"a1"},
  {"bits":[],"event":"scrapped","keys":{},"n":3,"note":"","seat":"a1"}]}
"#;

/// Each number of an order owns addresses of its own, the first of which is shown.
const ADDRESSES: &str = r#"
a1 POST /v1/order {"nr":1,"name":"p","issuer":"acme-ca","prefix":"P","width":3,"first":1,"quantity":2,"macs":2}
200 {"first":1,"issuer":"acme-ca","mac":"020000000010","macs":2,"name":"p","next":"P001",
  "not_before":null,"prefix":"P","quantity":2,"width":3}
a1 POST /v1/map {"nr":2,"text":"$MAP"}
200 {"map":"$DIGEST"}
a1 POST /v1/device {"nr":3,"chip":"00000000000a","order":"p","map":"$DIGEST","blocks":<>}
200 {"bits":[],"chip":"00000000000a","keys":{},"map":"$DIGEST","order":"p",
  "pending":{"batch1":$NONE,"batch2":$NONE},"reason":null,"serial":null,"state":"registered"}
a1 POST /v1/plan {"nr":4,"chip":"00000000000a","wishes":[]}
200 {"batch1":$NONE,"batch2":$NONE,"state":"settled"}
a1 POST /v1/device {"nr":5,"chip":"00000000000b","order":"p","map":"$DIGEST","blocks":<>}
200 {"bits":[],"chip":"00000000000b","keys":{},"map":"$DIGEST","order":"p",
  "pending":{"batch1":$NONE,"batch2":$NONE},"reason":null,"serial":null,"state":"registered"}
a1 POST /v1/plan {"nr":6,"chip":"00000000000b","wishes":[]}
200 {"batch1":$NONE,"batch2":$NONE,"state":"settled"}
a1 POST /v1/identity {"nr":7,"chip":"00000000000a","public_key":"00"}
200 {"chip":"00000000000a","issuer":"acme-ca",
  "key_sha256":"6e340b9cffb37a989ca544e6bb780a2c78901d3fb33738768511a30617afa01d",
  "mac":"020000000010","not_after":"99991231235959Z","not_before":null,"serial":"P001"}
a1 POST /v1/identity {"nr":8,"chip":"00000000000b","public_key":"01"}
200 {"chip":"00000000000b","issuer":"acme-ca",
  "key_sha256":"4bf5122f344554c53bde2ebb8cd2b7e3d1600ad631c385a5d7cce23c7785459a",
  "mac":"020000000012","not_after":"99991231235959Z","not_before":null,"serial":"P002"}
a1 GET /v1/identity?chip=00000000000b
200 {"chip":"00000000000b","issuer":"acme-ca",
  "key_sha256":"4bf5122f344554c53bde2ebb8cd2b7e3d1600ad631c385a5d7cce23c7785459a",
  "mac":"020000000012","not_after":"99991231235959Z","not_before":null,"serial":"P002"}
"#;

/// The next serial number is the least that nobody gave.
pub const SKIPPED: &str = r#"
a1 POST /v1/order {"nr":1,"name":"q","issuer":"acme-ca","prefix":"A","width":3,"first":1,"quantity":3,"macs":0}
200 {"first":1,"issuer":"acme-ca","mac":null,"macs":0,"name":"q","next":"A001","not_before":null,
  "prefix":"A","quantity":3,"width":3}
a1 POST /v1/map {"nr":2,"text":"$MAP"}
200 {"map":"$DIGEST"}
a1 POST /v1/import {"nr":3,"issuer":"acme-ca","csv":"serial,key_sha256\nA002,ba7816bf8f01cfea414140de5dae2223b00361a396177a9cb410ff61f20015ad\n"}
200 {"added":1,"present":0}
a1 POST /v1/device {"nr":4,"chip":"00000000000a","order":"q","map":"$DIGEST","blocks":<>}
200 {"bits":[],"chip":"00000000000a","keys":{},"map":"$DIGEST","order":"q",
  "pending":{"batch1":$NONE,"batch2":$NONE},"reason":null,"serial":null,"state":"registered"}
a1 POST /v1/plan {"nr":5,"chip":"00000000000a","wishes":[]}
200 {"batch1":$NONE,"batch2":$NONE,"state":"settled"}
a1 POST /v1/device {"nr":6,"chip":"00000000000b","order":"q","map":"$DIGEST","blocks":<>}
200 {"bits":[],"chip":"00000000000b","keys":{},"map":"$DIGEST","order":"q",
  "pending":{"batch1":$NONE,"batch2":$NONE},"reason":null,"serial":null,"state":"registered"}
a1 POST /v1/plan {"nr":7,"chip":"00000000000b","wishes":[]}
200 {"batch1":$NONE,"batch2":$NONE,"state":"settled"}
a1 POST /v1/device {"nr":8,"chip":"00000000000c","order":"q","map":"$DIGEST","blocks":<>}
200 {"bits":[],"chip":"00000000000c","keys":{},"map":"$DIGEST","order":"q",
  "pending":{"batch1":$NONE,"batch2":$NONE},"reason":null,"serial":null,"state":"registered"}
a1 POST /v1/plan {"nr":9,"chip":"00000000000c","wishes":[]}
200 {"batch1":$NONE,"batch2":$NONE,"state":"settled"}
a1 POST /v1/identity {"nr":10,"chip":"00000000000a","public_key":"616263"}
409 {"error":"key_bound","no":35}
a1 POST /v1/identity {"nr":10,"chip":"00000000000a","public_key":"00"}
200 {"chip":"00000000000a","issuer":"acme-ca",
  "key_sha256":"6e340b9cffb37a989ca544e6bb780a2c78901d3fb33738768511a30617afa01d","mac":null,
  "not_after":"99991231235959Z","not_before":null,"serial":"A001"}
a1 GET /v1/order?name=q
200 {"first":1,"issuer":"acme-ca","mac":null,"macs":0,"name":"q","next":"A003","not_before":null,
  "prefix":"A","quantity":3,"width":3}
a1 POST /v1/identity {"nr":11,"chip":"00000000000b","public_key":"01"}
200 {"chip":"00000000000b","issuer":"acme-ca",
  "key_sha256":"4bf5122f344554c53bde2ebb8cd2b7e3d1600ad631c385a5d7cce23c7785459a","mac":null,
  "not_after":"99991231235959Z","not_before":null,"serial":"A003"}
a1 GET /v1/order?name=q
200 {"first":1,"issuer":"acme-ca","mac":null,"macs":0,"name":"q","next":null,"not_before":null,
  "prefix":"A","quantity":3,"width":3}
a1 POST /v1/identity {"nr":12,"chip":"00000000000c","public_key":"02"}
409 {"error":"exhausted","no":32}
"#;

/// Bodies that aren't of their forms.
const BODIES: &str = r#"
@ settled
a1 POST /v1/identity {"nr":5,"chip":"00000000000A","public_key":"00"}
400 {"error":"bad_member","no":10}
a1 POST /v1/identity {"nr":5,"chip":"00000000000a"}
400 {"error":"bad_member","no":10}
a1 POST /v1/identity {"nr":5,"chip":"00000000000a","public_key":""}
400 {"error":"bad_member","no":10}
a1 POST /v1/identity {"nr":5,"chip":"00000000000a","public_key":"0"}
400 {"error":"bad_member","no":10}
a1 POST /v1/identity {"nr":5,"chip":"00000000000a","public_key":"0g"}
400 {"error":"bad_member","no":10}
a1 POST /v1/identity {"nr":5,"chip":"00000000000a","public_key":0}
400 {"error":"bad_member","no":10}
a1 POST /v1/ship {"nr":5,"chip":1}
400 {"error":"bad_member","no":10}
a1 POST /v1/scrap {"nr":5}
400 {"error":"bad_member","no":10}
a1 POST /v1/identity {"nr":5,"chip":"00000000000a","public_key":"0aFF"}
200 {"chip":"00000000000a","issuer":"acme-ca",
  "key_sha256":"428f6d7e89a1b345221f88db8af74389653730f048724e0dabece69990d6b7be","mac":null,
  "not_after":"99991231235959Z","not_before":null,"serial":"A998"}
# the key as it was read tells a repeat
a1 POST /v1/identity {"nr":5,"chip":"00000000000a","public_key":"0aFF"}
200 {"chip":"00000000000a","issuer":"acme-ca",
  "key_sha256":"428f6d7e89a1b345221f88db8af74389653730f048724e0dabece69990d6b7be","mac":null,
  "not_after":"99991231235959Z","not_before":null,"serial":"A998"}
a1 POST /v1/identity {"nr":5,"chip":"00000000000a","public_key":"0aff"}
409 {"error":"other_body","no":12}
a1 POST /v1/import {"nr":6,"csv":"serial,key_sha256\n"}
400 {"error":"bad_member","no":10}
a1 POST /v1/import {"nr":6,"issuer":"acme-ca"}
400 {"error":"bad_member","no":10}
a1 POST /v1/import {"nr":6,"issuer":"acme-ca","csv":1}
400 {"error":"bad_member","no":10}
a1 POST /v1/import {"nr":6,"issuer":"acme-ca","csv":""}
400 {"error":"bad_member","no":10}
a1 POST /v1/import {"nr":6,"issuer":"acme-ca","csv":"serial,key\n"}
400 {"error":"bad_member","no":10}
a1 POST /v1/import {"nr":6,"issuer":"acme-ca","csv":"serial,key_sha256\nZ1\n"}
400 {"error":"bad_member","no":10}
a1 POST /v1/import {"nr":6,"issuer":"acme-ca","csv":"serial,key_sha256\na,00\n"}
400 {"error":"bad_member","no":10}
# a body before its number
a1 POST /v1/import {"nr":99,"issuer":"acme-ca","csv":"serial"}
400 {"error":"bad_member","no":10}
a1 POST /v1/ship {"nr":99,"chip":"00000000000a"}
409 {"error":"wrong_number","expected":6,"no":11}
"#;

/// An import of a serial number that an order would give, under another prefix.
const BEFORE: &str = r#"
@ map
a1 POST /v1/order {"nr":3,"name":"o5","issuer":"acme-ca","prefix":"A1","width":3,"first":5,"quantity":2,"macs":0}
200 {"first":5,"issuer":"acme-ca","mac":null,"macs":0,"name":"o5","next":"A1005","not_before":null,
  "prefix":"A1","quantity":2,"width":3}
a1 POST /v1/import {"nr":4,"issuer":"acme-ca","csv":"serial,key_sha256\nA1005,ba7816bf8f01cfea414140de5dae2223b00361a396177a9cb410ff61f20015ad\n"}
200 {"added":1,"present":0}
a1 GET /v1/order?name=o5
200 {"first":5,"issuer":"acme-ca","mac":null,"macs":0,"name":"o5","next":"A1006","not_before":null,
  "prefix":"A1","quantity":2,"width":3}
a1 POST /v1/device {"nr":5,"chip":"00000000000a","order":"o5","map":"$DIGEST","blocks":<>}
200 {"bits":[],"chip":"00000000000a","keys":{},"map":"$DIGEST","order":"o5",
  "pending":{"batch1":$NONE,"batch2":$NONE},"reason":null,"serial":null,"state":"registered"}
a1 POST /v1/plan {"nr":6,"chip":"00000000000a","wishes":[]}
200 {"batch1":$NONE,"batch2":$NONE,"state":"settled"}
a1 POST /v1/identity {"nr":7,"chip":"00000000000a","public_key":"00"}
200 {"chip":"00000000000a","issuer":"acme-ca",
  "key_sha256":"6e340b9cffb37a989ca544e6bb780a2c78901d3fb33738768511a30617afa01d","mac":null,
  "not_after":"99991231235959Z","not_before":null,"serial":"A1006"}
a1 POST /v1/import {"nr":8,"issuer":"acme-ca","csv":"serial,key_sha256\nA1005,ba7816bf8f01cfea414140de5dae2223b00361a396177a9cb410ff61f20015ad\n"}
200 {"added":0,"present":1}
a1 POST /v1/import {"nr":9,"issuer":"acme-ca","csv":"serial,key_sha256\nA1005,2cf24dba5fb0a30e26e83b2ac5b9e29e1b161e5c1fa7425e73043362938b9824\n"}
409 {"error":"import_conflict","no":38,"serial":"A1005"}
a1 POST /v1/device {"nr":9,"chip":"00000000000b","order":"o5","map":"$DIGEST","blocks":<>}
200 {"bits":[],"chip":"00000000000b","keys":{},"map":"$DIGEST","order":"o5",
  "pending":{"batch1":$NONE,"batch2":$NONE},"reason":null,"serial":null,"state":"registered"}
a1 POST /v1/plan {"nr":10,"chip":"00000000000b","wishes":[]}
200 {"batch1":$NONE,"batch2":$NONE,"state":"settled"}
a1 POST /v1/identity {"nr":11,"chip":"00000000000b","public_key":"01"}
409 {"error":"exhausted","no":32}
# what an order gave is present under its key, and in conflict under another
a1 POST /v1/import {"nr":11,"issuer":"acme-ca","csv":"serial,key_sha256\nA1006,6e340b9cffb37a989ca544e6bb780a2c78901d3fb33738768511a30617afa01d\n"}
200 {"added":0,"present":1}
a1 POST /v1/import {"nr":12,"issuer":"acme-ca","csv":"serial,key_sha256\nA1006,4bf5122f344554c53bde2ebb8cd2b7e3d1600ad631c385a5d7cce23c7785459a\n"}
409 {"error":"import_conflict","no":38,"serial":"A1006"}
"#;

/// Rows that are new, present or in conflict, all or none of them added.
const ROWS: &str = r#"
a1 POST /v1/import {"nr":1,"issuer":"acme-ca","csv":"serial,key_sha256\nZ1,ba7816bf8f01cfea414140de5dae2223b00361a396177a9cb410ff61f20015ad\nZ1,ba7816bf8f01cfea414140de5dae2223b00361a396177a9cb410ff61f20015ad\n"}
200 {"added":1,"present":1}
a1 POST /v1/import {"nr":2,"issuer":"acme-ca","csv":"serial,key_sha256\nZ3,2cf24dba5fb0a30e26e83b2ac5b9e29e1b161e5c1fa7425e73043362938b9824\nZ1,ba7816bf8f01cfea414140de5dae2223b00361a396177a9cb410ff61f20015ad\nZ2,ba7816bf8f01cfea414140de5dae2223b00361a396177a9cb410ff61f20015ad\n"}
409 {"error":"import_conflict","no":38,"serial":"Z2"}
# nothing of it was added
a1 POST /v1/import {"nr":2,"issuer":"acme-ca","csv":"serial,key_sha256\nZ3,2cf24dba5fb0a30e26e83b2ac5b9e29e1b161e5c1fa7425e73043362938b9824\n"}
200 {"added":1,"present":0}
a1 POST /v1/import {"nr":3,"issuer":"acme-ca","csv":"serial,key_sha256\nZ4,6e340b9cffb37a989ca544e6bb780a2c78901d3fb33738768511a30617afa01d\nZ5,6e340b9cffb37a989ca544e6bb780a2c78901d3fb33738768511a30617afa01d\nZ4,4bf5122f344554c53bde2ebb8cd2b7e3d1600ad631c385a5d7cce23c7785459a\n"}
409 {"error":"import_conflict","no":38,"serial":"Z5"}
a1 POST /v1/import {"nr":3,"issuer":"acme-ca","csv":"serial,key_sha256\nZ4,6e340b9cffb37a989ca544e6bb780a2c78901d3fb33738768511a30617afa01d\nZ4,4bf5122f344554c53bde2ebb8cd2b7e3d1600ad631c385a5d7cce23c7785459a\n"}
409 {"error":"import_conflict","no":38,"serial":"Z4"}
a1 POST /v1/import {"nr":3,"issuer":"acme-ca","csv":"serial,key_sha256\nZ4,6e340b9cffb37a989ca544e6bb780a2c78901d3fb33738768511a30617afa01d\na,4bf5122f344554c53bde2ebb8cd2b7e3d1600ad631c385a5d7cce23c7785459a\n"}
422 {"error":"bad_serial","no":30}
a1 POST /v1/import {"nr":3,"issuer":"acme-ca","csv":"serial,key_sha256\n"}
200 {"added":0,"present":0}
a1 POST /v1/import {"nr":4,"issuer":"bolt-ca","csv":"serial,key_sha256\na,4bf5122f344554c53bde2ebb8cd2b7e3d1600ad631c385a5d7cce23c7785459a\n"}
422 {"error":"bad_serial","no":30}
a1 POST /v1/import {"nr":4,"issuer":"bolt-ca","csv":"serial,key_sha256\nZ1,2cf24dba5fb0a30e26e83b2ac5b9e29e1b161e5c1fa7425e73043362938b9824\n"}
422 {"error":"foreign_issuer","no":37}
a1 POST /v1/import {"nr":4,"issuer":"none","csv":"serial,key_sha256\n"}
422 {"error":"foreign_issuer","no":37}
a1 POST /v1/import {"nr":4,"issuer":"acme-ca","csv":"\ufeffserial,key_sha256\r\n\"Z6\",4BF5122F344554C53BDE2EBB8CD2B7E3D1600AD631C385A5D7CCE23C7785459A\r\n"}
200 {"added":1,"present":0}
# another customer's issuer has its own
b1 POST /v1/import {"nr":1,"issuer":"bolt-ca","csv":"serial,key_sha256\nZ1,2cf24dba5fb0a30e26e83b2ac5b9e29e1b161e5c1fa7425e73043362938b9824\n"}
200 {"added":1,"present":0}
b1 POST /v1/import {"nr":2,"issuer":"bolt-ca","csv":"serial,key_sha256\nZ1,ba7816bf8f01cfea414140de5dae2223b00361a396177a9cb410ff61f20015ad\n"}
409 {"error":"import_conflict","no":38,"serial":"Z1"}
"#;

/// As many rows as an import may have, and before that one more. They are all there then.
const FULL: &str = r#"
a1 POST /v1/import {"nr":1,"issuer":"acme-ca","csv":"serial,key_sha256\n$TIMES~501~Z#,0000000000000000000000000000000000000000000000000000000000000#\n~"}
400 {"error":"bad_member","no":10}
a1 POST /v1/import {"nr":1,"issuer":"acme-ca","csv":"serial,key_sha256\n$TIMES~500~Z#,0000000000000000000000000000000000000000000000000000000000000#\n~"}
200 {"added":500,"present":0}
a1 POST /v1/import {"nr":2,"issuer":"acme-ca","csv":"serial,key_sha256\n$TIMES~500~Z#,0000000000000000000000000000000000000000000000000000000000000#\n~"}
200 {"added":0,"present":500}
# the last of them
a1 POST /v1/import {"nr":3,"issuer":"acme-ca","csv":"serial,key_sha256\nZ599,ba7816bf8f01cfea414140de5dae2223b00361a396177a9cb410ff61f20015ad\n"}
409 {"error":"import_conflict","no":38,"serial":"Z599"}
"#;
