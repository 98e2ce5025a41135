//! What few customers have, many of it in one life: the greatest address, a chip and a serial number
//! of odd digits, a map whose lines end as those of Windows do, an order with its customer's name,
//! lists that grew, long queries, and maps of few small blocks.
use crate::products::{filled, with_numbers};
use crate::sizes::first_of_both;
use std::alloc::{AllocError, Global};
use std::test::Fail;
use test_fixtures::lives::Marks;
use test_fixtures::samples::SITE;

/// A site in which acme's first pool is the greatest address of one device, and the second as large as
/// a pool may be.
const SITE_OF_LAST_ADDRESS: &str = r#"[[customer]]
name = "acme"
issuer = ["acme-ca"]
[[customer.pool]]
first = "feffffffffff"
count = 1
[[customer.pool]]
first = "020000000000"
count = 16777216
[[customer.seat]]
name = "a1"
token = "ba7816bf8f01cfea414140de5dae2223b00361a396177a9cb410ff61f20015ad"
"#;

/// The greatest address, 30,000 more for the devices of one order, and behind them an order with its
/// customer's name. Then the life of a device: the chip begins as Espressif's do, its map is the
/// sample with other ends of lines, by its digest of Python's hashlib, and its plan is of 63 wishes.
/// The list is of 256 serial numbers.
const RARE: &str = r#"
a1 POST /v1/order {"nr":1,"name":"o1","issuer":"acme-ca","prefix":"A","width":3,"first":998,"quantity":1,"macs":1}
200 {"first":998,"issuer":"acme-ca","mac":"feffffffffff","macs":1,"name":"o1","next":"A998",
  "not_before":null,"prefix":"A","quantity":1,"width":3}
a1 POST /v1/order {"nr":2,"name":"o2","issuer":"acme-ca","prefix":"C","width":5,"first":10000,"quantity":10000,"macs":3}
200 {"first":10000,"issuer":"acme-ca","mac":"020000000000","macs":3,"name":"o2","next":"C10000",
  "not_before":null,"prefix":"C","quantity":10000,"width":5}
a1 POST /v1/order {"nr":3,"name":"acme","issuer":"acme-ca","prefix":"B","width":3,"first":1,"quantity":3,"macs":1}
200 {"first":1,"issuer":"acme-ca","mac":"020000007530","macs":1,"name":"acme","next":"B001",
  "not_before":null,"prefix":"B","quantity":3,"width":3}
a1 POST /v1/map {"nr":4,"text":"$MAP~\n~\r\n~"}
200 {"map":"e2abd2d50545ccdfffc9372e6374a165ab2e9e1f93aff345e6aae1008d32b65f"}
a1 POST /v1/device {"nr":5,"chip":"f412fa000001","order":"o1","map":"e2abd2d50545ccdfffc9372e6374a165ab2e9e1f93aff345e6aae1008d32b65f","blocks":<>}
200 {"bits":[],"chip":"f412fa000001","keys":{},
  "map":"e2abd2d50545ccdfffc9372e6374a165ab2e9e1f93aff345e6aae1008d32b65f","order":"o1",
  "pending":{"batch1":$NONE,"batch2":$NONE},"reason":null,"serial":null,"state":"registered"}
a1 POST /v1/plan {"nr":6,"chip":"f412fa000001","wishes":[$TIMES~62~{"kind":"bit","field":"BLOCK3","index":#},~{"kind":"bit","field":"BLOCK3","index":162}]}
200 {"batch1":{"bits":[
    {"block":3,"mask":"fffffff0","word":3},
    {"block":3,"mask":"ffffffff","word":4},
    {"block":3,"mask":"00000007","word":5}],
    "keys":{}},
  "batch2":$NONE,"state":"awaiting1"}
a1 POST /v1/readback {"nr":7,"chip":"f412fa000001","blocks":<3.3=fffffff0 3.4=ffffffff 3.5=00000007>}
200 {"outcome":"match","rest":$NONE,"state":"settled"}
a1 POST /v1/identity {"nr":8,"chip":"f412fa000001","public_key":"616263"}
200 {"chip":"f412fa000001","issuer":"acme-ca",
  "key_sha256":"ba7816bf8f01cfea414140de5dae2223b00361a396177a9cb410ff61f20015ad",
  "mac":"feffffffffff","not_after":"99991231235959Z","not_before":null,"serial":"A998"}
a1 POST /v1/import {"nr":9,"issuer":"acme-ca","csv":"serial,key_sha256\n$TIMES~256~--#,0000000000000000000000000000000000000000000000000000000000000#\n~"}
200 {"added":256,"present":0}
"#;

/// The list once more with a serial number behind it, and what is shown; `{long}` stands for 2,200
/// bytes.
const SHOWN: &str = r#"
a1 POST /v1/import {"nr":10,"issuer":"acme-ca","csv":"serial,key_sha256\n$TIMES~257~--#,0000000000000000000000000000000000000000000000000000000000000#\n~"}
200 {"added":1,"present":256}
a1 GET /v1/identity?{long}chip=f412fa000001
200 {"chip":"f412fa000001","issuer":"acme-ca",
  "key_sha256":"ba7816bf8f01cfea414140de5dae2223b00361a396177a9cb410ff61f20015ad",
  "mac":"feffffffffff","not_after":"99991231235959Z","not_before":null,"serial":"A998"}
a1 GET /v1/device?chip=f412fa000001
200 {"bits":[
    {"block":3,"mask":"fffffff0","word":3},
    {"block":3,"mask":"ffffffff","word":4},
    {"block":3,"mask":"00000007","word":5}],
  "chip":"f412fa000001","keys":{},
  "map":"e2abd2d50545ccdfffc9372e6374a165ab2e9e1f93aff345e6aae1008d32b65f","order":"o1",
  "pending":{"batch1":$NONE,"batch2":$NONE},"reason":null,"serial":"A998","state":"identified"}
a1 GET /v1/order?name=acme
200 {"first":1,"issuer":"acme-ca","mac":"020000007530","macs":1,"name":"acme","next":"B001",
  "not_before":null,"prefix":"B","quantity":3,"width":3}
a1 GET /v1/report
csv order,quantity,registered,planned,settled,identified,shipped,quarantined,scrapped,serials_left|
  acme,3,0,0,0,0,0,0,0,3|
  o1,1,0,0,0,1,0,0,0,0|
  o2,10000,0,0,0,0,0,0,0,10000|
"#;

/// An order for chips of few blocks.
const ORDER: &str = r#"
a1 POST /v1/order {"nr":{nr},"name":"o1","issuer":"acme-ca","prefix":"A","width":3,"first":1,"quantity":4,"macs":0}
200 {"first":1,"issuer":"acme-ca","mac":null,"macs":0,"name":"o1","next":"A001","not_before":null,
  "prefix":"A","quantity":4,"width":3}
"#;

/// A map of blocks of a word each, and the life of a chip under it.
const SMALL: &str = r#"
a1 POST /v1/map {"nr":{nr},"text":"name = \"small\"\nwr = \"WR_DIS\"\nrd = \"RD_DIS\"\n{blocks}[[field]]\nname = \"WR_DIS\"\nblock = 0\nbit = 0\ncount = 16\n[[field]]\nname = \"RD_DIS\"\nblock = 0\nbit = 16\ncount = 4\n[[field]]\nname = \"A\"\nblock = 0\nbit = 31\ncount = 1\n"}
200 {"map":"{map}"}
a1 POST /v1/device {"nr":{nr},"chip":"{chip}","order":"o1","map":"{map}","blocks":[["00000000"]{others}]}
200 {"bits":[],"chip":"{chip}","keys":{},"map":"{map}","order":"o1",
  "pending":{"batch1":$NONE,"batch2":$NONE},"reason":null,"serial":null,"state":"registered"}
a1 POST /v1/plan {"nr":{nr},"chip":"{chip}","wishes":[{"kind":"bit","field":"A","index":0}]}
200 {"batch1":{"bits":[{"block":0,"mask":"80000000","word":0}],"keys":{}},"batch2":$NONE,
  "state":"awaiting1"}
a1 POST /v1/readback {"nr":{nr},"chip":"{chip}","blocks":[["80000000"]{others}]}
200 {"outcome":"match","rest":$NONE,"state":"settled"}
a1 POST /v1/identity {"nr":{nr},"chip":"{chip}","public_key":"{key}"}
200 {"chip":"{chip}","issuer":"acme-ca","key_sha256":"{digest}","mac":null,
  "not_after":"99991231235959Z","not_before":null,"serial":"{serial}"}
a1 POST /v1/scrap {"nr":{nr},"chip":"{chip}"}
200 {"chip":"{chip}","state":"scrapped"}
"#;

/// Maps of one to three blocks, each with a chip and its key, by their digests of Python's hashlib.
const SMALL_MAPS: &[Marks] = &[
    &[
        ("{blocks}", "[[block]]\\nwords = 1\\n"),
        ("{others}", ""),
        (
            "{map}",
            "cab3bbd4f801a906211603c3eaee5fdfc741773de5b8f84c8202223590abbf77",
        ),
        ("{chip}", "000000000001"),
        ("{key}", "01"),
        (
            "{digest}",
            "4bf5122f344554c53bde2ebb8cd2b7e3d1600ad631c385a5d7cce23c7785459a",
        ),
        ("{serial}", "A001"),
    ],
    &[
        (
            "{blocks}",
            "[[block]]\\nwords = 1\\n[[block]]\\nwords = 1\\n",
        ),
        ("{others}", r#",["00000000"]"#),
        (
            "{map}",
            "21d3c86dc70eac577aa4261d4459c37083901ad3bc28bcda7692ea594da04a23",
        ),
        ("{chip}", "000000000002"),
        ("{key}", "02"),
        (
            "{digest}",
            "dbc1b4c900ffe48d575b5da5c638040125f65db0fe3e24494b76ea986457d986",
        ),
        ("{serial}", "A002"),
    ],
    &[
        (
            "{blocks}",
            "[[block]]\\nwords = 1\\n[[block]]\\nwords = 1\\n[[block]]\\nwords = 1\\n",
        ),
        ("{others}", r#",["00000000"],["00000000"]"#),
        (
            "{map}",
            "3a5662a165ccf5cd1203ff4a53c06f09af8331a882859e86f5023778fc5a288e",
        ),
        ("{chip}", "000000000003"),
        ("{key}", "03"),
        (
            "{digest}",
            "084fed08b978af4d7d196a7446a86b58009e636b611db16211b65a9aadff29c5",
        ),
        ("{serial}", "A003"),
    ],
];

/// A block of ones, of which nothing is there at first.
const ALL_ONES: &str = r#"
a1 POST /v1/map {"nr":{nr},"text":"$MAP"}
200 {"map":"$DIGEST"}
a1 POST /v1/device {"nr":{nr},"chip":"00000000000a","order":"o1","map":"$DIGEST","blocks":<>}
200 {"bits":[],"chip":"00000000000a","keys":{},"map":"$DIGEST","order":"o1",
  "pending":{"batch1":$NONE,"batch2":$NONE},"reason":null,"serial":null,"state":"registered"}
a1 POST /v1/plan {"nr":{nr},"chip":"00000000000a","wishes":[{"kind":"value","field":"BLOCK3","value":"$TIMES~32~ff~"}]}
200 {"batch1":{"bits":[
    {"block":3,"mask":"ffffffff","word":0},{"block":3,"mask":"ffffffff","word":1},
    {"block":3,"mask":"ffffffff","word":2},{"block":3,"mask":"ffffffff","word":3},
    {"block":3,"mask":"ffffffff","word":4},{"block":3,"mask":"ffffffff","word":5},
    {"block":3,"mask":"ffffffff","word":6},{"block":3,"mask":"ffffffff","word":7}],"keys":{}},
  "batch2":$NONE,"state":"awaiting1"}
a1 POST /v1/readback {"nr":{nr},"chip":"00000000000a","blocks":<>}
200 {"outcome":"short","rest":{"bits":[
    {"block":3,"mask":"ffffffff","word":0},{"block":3,"mask":"ffffffff","word":1},
    {"block":3,"mask":"ffffffff","word":2},{"block":3,"mask":"ffffffff","word":3},
    {"block":3,"mask":"ffffffff","word":4},{"block":3,"mask":"ffffffff","word":5},
    {"block":3,"mask":"ffffffff","word":6},{"block":3,"mask":"ffffffff","word":7}],"keys":{}},
  "state":"awaiting1"}
a1 POST /v1/readback {"nr":{nr},"chip":"00000000000a","blocks":<3.0=ffffffff 3.1=ffffffff 3.2=ffffffff 3.3=ffffffff 3.4=ffffffff 3.5=ffffffff 3.6=ffffffff 3.7=ffffffff>}
200 {"outcome":"match","rest":$NONE,"state":"settled"}
"#;

/// What is shown of the orders behind the chips of few blocks.
const REPORT: &str = r#"
a1 GET /v1/report
csv order,quantity,registered,planned,settled,identified,shipped,quarantined,scrapped,serials_left|
  o1,4,0,0,1,0,0,0,3,1|
"#;

/// The conversation about maps of few blocks.
fn of_few_blocks(alloc: Global) -> Result<String, AllocError> {
    let mut text = String::from_str(alloc, ORDER)?;
    for marks in SMALL_MAPS {
        text.push_str(filled(alloc, SMALL, *marks)?.as_str())?;
    }
    text.push_str(ALL_ONES)?;
    with_numbers(alloc, text.as_str())
}

#[test]
fn rare_values_are_served(rt: HostRuntime) -> Result<(), Fail> {
    let alloc = rt.alloc();
    let long = "x&".repeat(alloc, 1_100)?;
    let shown = SHOWN.replace(alloc, "{long}", long.as_str())?;
    let found = first_of_both(alloc, SITE_OF_LAST_ADDRESS, RARE, shown.as_str())?;
    assert_eq!(rt; found.as_str(), "");
    Ok(())
}

#[test]
fn maps_of_few_blocks_are_served(rt: HostRuntime) -> Result<(), Fail> {
    let first = of_few_blocks(rt.alloc())?;
    let found = first_of_both(rt.alloc(), SITE, first.as_str(), REPORT)?;
    assert_eq!(rt; found.as_str(), "");
    Ok(())
}
