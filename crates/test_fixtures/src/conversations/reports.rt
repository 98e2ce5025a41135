//! Conversations about the yield reports of customers and of the site.

/// The conversations, each under its name.
pub const REPORTS: &[(&str, &str)] = &[
    ("reports of an order without devices", AN_ORDER),
    ("reports of devices in each state", DEVICES),
];

/// The report of a customer is for its seats, and that of the site for the manager; a query and a body
/// say nothing. A customer without orders has the header alone.
const AN_ORDER: &str = r#"
a1 GET /v1/report
csv order,quantity,registered,planned,settled,identified,shipped,quarantined,scrapped,serials_left|
a1 POST /v1/order {"nr":1,"name":"o1","issuer":"acme-ca","prefix":"A","width":3,"first":998,"quantity":2,"macs":0}
200 {"first":998,"issuer":"acme-ca","mac":null,"macs":0,"name":"o1","next":"A998","not_before":null,
  "prefix":"A","quantity":2,"width":3}
a1 GET /v1/report
csv order,quantity,registered,planned,settled,identified,shipped,quarantined,scrapped,serials_left|
  o1,2,0,0,0,0,0,0,0,2|
manager GET /v1/site/report
csv customer,orders,quantity,registered,planned,settled,identified,shipped,quarantined,scrapped,serials_left|
  acme,1,2,0,0,0,0,0,0,0,2|
  bolt,0,0,0,0,0,0,0,0,0,0|
a1 GET /v1/site/report
403 {"error":"wrong_caller","no":8}
manager GET /v1/report
403 {"error":"wrong_caller","no":8}
b1 GET /v1/report?order=o1 {
csv order,quantity,registered,planned,settled,identified,shipped,quarantined,scrapped,serials_left|
a1 POST /v1/report {"nr":2}
404 {"error":"unknown_path","no":7}
manager POST /v1/site/report
404 {"error":"unknown_path","no":7}
a1 GET /v1/site
404 {"error":"unknown_path","no":7}
"#;

/// Devices in each state, and serial numbers that are given by an identity or an import. Another
/// customer's rows of the same names don't count, and orders stand in the order of their bytes.
const DEVICES: &str = r#"
@ settled
a1 GET /v1/report
csv order,quantity,registered,planned,settled,identified,shipped,quarantined,scrapped,serials_left|
  o1,2,0,0,1,0,0,0,0,2|
a1 POST /v1/identity {"nr":5,"chip":"00000000000a","public_key":"616263"}
200 {"chip":"00000000000a","issuer":"acme-ca",
  "key_sha256":"ba7816bf8f01cfea414140de5dae2223b00361a396177a9cb410ff61f20015ad","mac":null,
  "not_after":"99991231235959Z","not_before":null,"serial":"A998"}
a1 POST /v1/device {"nr":6,"chip":"00000000000b","order":"o1","map":"$DIGEST","blocks":<>}
200 {"bits":[],"chip":"00000000000b","keys":{},"map":"$DIGEST","order":"o1",
  "pending":{"batch1":$NONE,"batch2":$NONE},"reason":null,"serial":null,"state":"registered"}
a1 GET /v1/report
csv order,quantity,registered,planned,settled,identified,shipped,quarantined,scrapped,serials_left|
  o1,2,1,0,0,1,0,0,0,1|
a1 POST /v1/plan {"nr":7,"chip":"00000000000b","wishes":[{"kind":"bit","field":"JTAG_DISABLE","index":0},{"kind":"wlock","field":"JTAG_DISABLE"}]}
200 {"batch1":{"bits":[{"block":0,"mask":"00000040","word":6}],"keys":{}},
  "batch2":{"bits":[{"block":0,"mask":"00004000","word":0}],"keys":{}},"state":"awaiting1"}
a1 POST /v1/readback {"nr":8,"chip":"00000000000b","blocks":<0.6=00000044>}
200 {"outcome":"stray","rest":$NONE,"state":"quarantined"}
a1 GET /v1/report
csv order,quantity,registered,planned,settled,identified,shipped,quarantined,scrapped,serials_left|
  o1,2,0,0,0,1,0,1,0,1|
manager GET /v1/site/report
csv customer,orders,quantity,registered,planned,settled,identified,shipped,quarantined,scrapped,serials_left|
  acme,1,2,0,0,0,1,0,1,0,1|
  bolt,0,0,0,0,0,0,0,0,0,0|
# the name of a later order comes before that of the first
a1 POST /v1/order {"nr":9,"name":"O2","issuer":"acme-ca","prefix":"B","width":2,"first":1,"quantity":4,"macs":0}
200 {"first":1,"issuer":"acme-ca","mac":null,"macs":0,"name":"O2","next":"B01","not_before":null,
  "prefix":"B","quantity":4,"width":2}
a1 POST /v1/import {"nr":10,"issuer":"acme-ca","csv":"serial,key_sha256\nB03,2cf24dba5fb0a30e26e83b2ac5b9e29e1b161e5c1fa7425e73043362938b9824\nB003,9f86d081884c7d659a2feaa0c55ad015a3bf4f1b2b0b822cd15d6c15b0f00a08\n"}
200 {"added":2,"present":0}
a1 POST /v1/device {"nr":11,"chip":"00000000000c","order":"O2","map":"$DIGEST","blocks":<>}
200 {"bits":[],"chip":"00000000000c","keys":{},"map":"$DIGEST","order":"O2",
  "pending":{"batch1":$NONE,"batch2":$NONE},"reason":null,"serial":null,"state":"registered"}
a1 POST /v1/scrap {"nr":12,"chip":"00000000000c"}
200 {"chip":"00000000000c","state":"scrapped"}
a1 POST /v1/device {"nr":13,"chip":"00000000000d","order":"O2","map":"$DIGEST","blocks":<>}
200 {"bits":[],"chip":"00000000000d","keys":{},"map":"$DIGEST","order":"O2",
  "pending":{"batch1":$NONE,"batch2":$NONE},"reason":null,"serial":null,"state":"registered"}
a1 POST /v1/plan {"nr":14,"chip":"00000000000d","wishes":[{"kind":"bit","field":"JTAG_DISABLE","index":0}]}
200 {"batch1":{"bits":[{"block":0,"mask":"00000040","word":6}],"keys":{}},"batch2":$NONE,
  "state":"awaiting1"}
a1 POST /v1/device {"nr":15,"chip":"00000000000e","order":"O2","map":"$DIGEST","blocks":<>}
200 {"bits":[],"chip":"00000000000e","keys":{},"map":"$DIGEST","order":"O2",
  "pending":{"batch1":$NONE,"batch2":$NONE},"reason":null,"serial":null,"state":"registered"}
a1 POST /v1/plan {"nr":16,"chip":"00000000000e","wishes":[{"kind":"wlock","field":"JTAG_DISABLE"}]}
200 {"batch1":$NONE,"batch2":{"bits":[{"block":0,"mask":"00004000","word":0}],"keys":{}},
  "state":"awaiting2"}
a1 POST /v1/device {"nr":17,"chip":"00000000000f","order":"O2","map":"$DIGEST","blocks":<>}
200 {"bits":[],"chip":"00000000000f","keys":{},"map":"$DIGEST","order":"O2",
  "pending":{"batch1":$NONE,"batch2":$NONE},"reason":null,"serial":null,"state":"registered"}
a1 POST /v1/plan {"nr":18,"chip":"00000000000f","wishes":[]}
200 {"batch1":$NONE,"batch2":$NONE,"state":"settled"}
a1 POST /v1/identity {"nr":19,"chip":"00000000000f","public_key":"00"}
200 {"chip":"00000000000f","issuer":"acme-ca",
  "key_sha256":"6e340b9cffb37a989ca544e6bb780a2c78901d3fb33738768511a30617afa01d","mac":null,
  "not_after":"99991231235959Z","not_before":null,"serial":"B01"}
a1 POST /v1/ship {"nr":20,"chip":"00000000000f"}
200 {"chip":"00000000000f","state":"shipped"}
# another customer's order of the same name and numbers, and a device of the same chip
b1 POST /v1/order {"nr":1,"name":"o1","issuer":"bolt-ca","prefix":"A","width":3,"first":998,"quantity":2,"macs":0}
200 {"first":998,"issuer":"bolt-ca","mac":null,"macs":0,"name":"o1","next":"A998","not_before":null,
  "prefix":"A","quantity":2,"width":3}
b1 POST /v1/map {"nr":2,"text":"$MAP"}
200 {"map":"$DIGEST"}
b1 POST /v1/device {"nr":3,"chip":"00000000000a","order":"o1","map":"$DIGEST","blocks":<>}
200 {"bits":[],"chip":"00000000000a","keys":{},"map":"$DIGEST","order":"o1",
  "pending":{"batch1":$NONE,"batch2":$NONE},"reason":null,"serial":null,"state":"registered"}
a1 GET /v1/report
csv order,quantity,registered,planned,settled,identified,shipped,quarantined,scrapped,serials_left|
  O2,4,0,2,0,0,1,0,1,2|
  o1,2,0,0,0,1,0,1,0,1|
b1 GET /v1/report
csv order,quantity,registered,planned,settled,identified,shipped,quarantined,scrapped,serials_left|
  o1,2,1,0,0,0,0,0,0,2|
manager GET /v1/site/report
csv customer,orders,quantity,registered,planned,settled,identified,shipped,quarantined,scrapped,serials_left|
  acme,2,6,0,2,0,1,1,1,1,3|
  bolt,1,2,1,0,0,0,0,0,0,2|
"#;
