//! What is served of large sites and texts: a map with as many fields as a map may have, a site
//! with as many customers, and an import of as many rows, as long as a body may be. And of a site
//! without customers.
use crate::limits::{Limit, Rows, SITE_WITH_ROOM};
use std::alloc::{AllocError, Global};
use std::test::Fail;
use test_fixtures::numbered::numbered;
use test_fixtures::samples::SITE;
use test_support::keepers::over_each;

/// The import of the sample map with more fields behind it, up to them.
const MAP_UP_TO_FIELDS: &str = "@ order\na1 POST /v1/map {\"nr\":2,\"text\":\"$MAP";

/// A further field of the map, a bit of block 0, as JSON has it; `#` stands for its number. 121 of them, from
/// 20 on, and the sample's seven are 128.
const FIELD: &str = r#"[[field]]\nname = \"F#\"\nblock = 0\nbit = #\ncount = 1\n"#;

/// Behind the fields: a device under the map whose plan has a key and the last 41 of them, by its digest of
/// Python's hashlib.
const MAP_BEHIND_FIELDS: &str = r#""}
200 {"map":"29718871c7997260d34529a2dc977f81d6b2840bffdd0b9907e523dc697f4e80"}
a1 POST /v1/device {"nr":3,"chip":"00000000000a","order":"o1","map":"29718871c7997260d34529a2dc977f81d6b2840bffdd0b9907e523dc697f4e80","blocks":<>}
200 {"bits":[],"chip":"00000000000a","keys":{},
  "map":"29718871c7997260d34529a2dc977f81d6b2840bffdd0b9907e523dc697f4e80","order":"o1",
  "pending":{"batch1":$NONE,"batch2":$NONE},"reason":null,"serial":null,"state":"registered"}
a1 POST /v1/plan {"nr":4,"chip":"00000000000a","wishes":[$TIMES~41~{"kind":"bit","field":"F#","index":0},~{"kind":"key","field":"BLOCK1","key_sha256":"630dcd2966c4336691125448bbb25b4ff412a49c732db2c8abc1b8581bd710dd"}]}
200 {"batch1":{"bits":[
    {"block":0,"mask":"fffffff0","word":3},
    {"block":0,"mask":"00001fff","word":4}],
    "keys":{"BLOCK1":"630dcd2966c4336691125448bbb25b4ff412a49c732db2c8abc1b8581bd710dd"}},
  "batch2":$NONE,"state":"awaiting1"}
"#;

/// The read-back of what was planned, and what is shown of the device then.
const BURNT: &str = r#"
a1 POST /v1/readback {"nr":5,"chip":"00000000000a","blocks":<0.3=fffffff0 0.4=00001fff 1.0=03020100 1.1=07060504 1.2=0b0a0908 1.3=0f0e0d0c 1.4=13121110 1.5=17161514 1.6=1b1a1918 1.7=1f1e1d1c>}
200 {"outcome":"match","rest":$NONE,"state":"settled"}
a1 GET /v1/device?chip=00000000000a
200 {"bits":[
    {"block":0,"mask":"fffffff0","word":3},
    {"block":0,"mask":"00001fff","word":4}],
  "chip":"00000000000a",
  "keys":{"BLOCK1":"630dcd2966c4336691125448bbb25b4ff412a49c732db2c8abc1b8581bd710dd"},
  "map":"29718871c7997260d34529a2dc977f81d6b2840bffdd0b9907e523dc697f4e80","order":"o1",
  "pending":{"batch1":$NONE,"batch2":$NONE},"reason":null,"serial":null,"state":"settled"}
"#;

/// A customer of a site; `#` stands for its number.
const CUSTOMER: &str = "[[customer]]\nname = \"c#\"\nissuer = [\"c#-ca\"]\n";

/// The line of such a customer in the site's report.
const CUSTOMER_LINE: &str = "c#,0,0,0,0,0,0,0,0,0,0|";

/// What is asked of a site of 64 customers, of which `$LINES` stands for the lines of all but the first.
const OF_ALL_CUSTOMERS: &str = r#"
a1 POST /v1/order {"nr":1,"name":"o1","issuer":"acme-ca","prefix":"A","width":3,"first":998,"quantity":2,"macs":0}
200 {"first":998,"issuer":"acme-ca","mac":null,"macs":0,"name":"o1","next":"A998","not_before":null,
  "prefix":"A","quantity":2,"width":3}
manager GET /v1/site/report
csv customer,orders,quantity,registered,planned,settled,identified,shipped,quarantined,scrapped,serials_left|
  acme,1,2,0,0,0,0,0,0,0,2|
  bolt,0,0,0,0,0,0,0,0,0,0|
  $LINES
"#;

/// A site of a manager alone.
const SITE_WITHOUT_CUSTOMERS: &str = r#"customer = []
[manager]
token = "9f86d081884c7d659a2feaa0c55ad015a3bf4f1b2b0b822cd15d6c15b0f00a08"
"#;

/// Its report, and that nobody else is known.
const OF_NO_CUSTOMERS: &str = r#"
manager GET /v1/site/report
csv customer,orders,quantity,registered,planned,settled,identified,shipped,quarantined,scrapped,serials_left|
manager GET /v1/report
403 {"error":"wrong_caller","no":8}
"#;

/// An order of 65 devices with four addresses each, of which 64 serial numbers are imported.
const FAR_NUMBER: &str = r#"
a1 POST /v1/order {"nr":1,"name":"o1","issuer":"acme-ca","prefix":"A","width":3,"first":100,"quantity":65,"macs":4}
200 {"first":100,"issuer":"acme-ca","mac":"020000000000","macs":4,"name":"o1","next":"A100",
  "not_before":null,"prefix":"A","quantity":65,"width":3}
a1 POST /v1/map {"nr":2,"text":"$MAP"}
200 {"map":"$DIGEST"}
a1 POST /v1/import {"nr":3,"issuer":"acme-ca","csv":"serial,key_sha256\n$TIMES~64~A#,0000000000000000000000000000000000000000000000000000000000000#\n~"}
200 {"added":64,"present":0}
a1 POST /v1/device {"nr":4,"chip":"00000000000a","order":"o1","map":"$DIGEST","blocks":<>}
200 {"bits":[],"chip":"00000000000a","keys":{},"map":"$DIGEST","order":"o1",
  "pending":{"batch1":$NONE,"batch2":$NONE},"reason":null,"serial":null,"state":"registered"}
a1 POST /v1/plan {"nr":5,"chip":"00000000000a","wishes":[]}
200 {"batch1":$NONE,"batch2":$NONE,"state":"settled"}
"#;

/// The 65th number's addresses begin 256 behind the order's.
const FAR_ADDRESS: &str = r#"
a1 POST /v1/identity {"nr":6,"chip":"00000000000a","public_key":"00"}
200 {"chip":"00000000000a","issuer":"acme-ca",
  "key_sha256":"6e340b9cffb37a989ca544e6bb780a2c78901d3fb33738768511a30617afa01d",
  "mac":"020000000100","not_after":"99991231235959Z","not_before":null,"serial":"A164"}
a1 GET /v1/identity?chip=00000000000a
200 {"chip":"00000000000a","issuer":"acme-ca",
  "key_sha256":"6e340b9cffb37a989ca544e6bb780a2c78901d3fb33738768511a30617afa01d",
  "mac":"020000000100","not_after":"99991231235959Z","not_before":null,"serial":"A164"}
a1 GET /v1/order?name=o1
200 {"first":100,"issuer":"acme-ca","mac":"020000000000","macs":4,"name":"o1","next":null,
  "not_before":null,"prefix":"A","quantity":65,"width":3}
"#;

/// A chip that shows a bit in each of the 32 words that it may have, and its registration again: a reply of
/// 1,529 bytes. The map's digest is by Python's hashlib.
const WIDE_CHIP: &str = r#"
a1 POST /v1/order {"nr":1,"name":"order-2026.esp32-sensor_batch.01","issuer":"acme-ca","prefix":"A","width":3,"first":998,"quantity":2,"macs":0}
200 {"first":998,"issuer":"acme-ca","mac":null,"macs":0,"name":"order-2026.esp32-sensor_batch.01",
  "next":"A998","not_before":null,"prefix":"A","quantity":2,"width":3}
a1 POST /v1/map {"nr":2,"text":"name = \"wide\"\nwr = \"WR_DIS\"\nrd = \"RD_DIS\"\n[[block]]\nwords = 8\n[[block]]\nwords = 8\n[[block]]\nwords = 8\n[[block]]\nwords = 8\n[[field]]\nname = \"WR_DIS\"\nblock = 0\nbit = 0\ncount = 16\n[[field]]\nname = \"RD_DIS\"\nblock = 0\nbit = 16\ncount = 4\n"}
200 {"map":"52e764b2a6016d913cd65e5df3f4a8c208f7533542d02d4b977e3fed8559ca3f"}
a1 POST /v1/device {"nr":3,"chip":"00000000000a","order":"order-2026.esp32-sensor_batch.01","map":"52e764b2a6016d913cd65e5df3f4a8c208f7533542d02d4b977e3fed8559ca3f","blocks":<0.0=80000000 0.1=80000000 0.2=80000000 0.3=80000000 0.4=80000000 0.5=80000000 0.6=80000000 0.7=80000000 1.0=80000000 1.1=80000000 1.2=80000000 1.3=80000000 1.4=80000000 1.5=80000000 1.6=80000000 1.7=80000000 2.0=80000000 2.1=80000000 2.2=80000000 2.3=80000000 2.4=80000000 2.5=80000000 2.6=80000000 2.7=80000000 3.0=80000000 3.1=80000000 3.2=80000000 3.3=80000000 3.4=80000000 3.5=80000000 3.6=80000000 3.7=80000000>}
200 {"bits":[
    {"block":0,"mask":"80000000","word":0},{"block":0,"mask":"80000000","word":1},
    {"block":0,"mask":"80000000","word":2},{"block":0,"mask":"80000000","word":3},
    {"block":0,"mask":"80000000","word":4},{"block":0,"mask":"80000000","word":5},
    {"block":0,"mask":"80000000","word":6},{"block":0,"mask":"80000000","word":7},
    {"block":1,"mask":"80000000","word":0},{"block":1,"mask":"80000000","word":1},
    {"block":1,"mask":"80000000","word":2},{"block":1,"mask":"80000000","word":3},
    {"block":1,"mask":"80000000","word":4},{"block":1,"mask":"80000000","word":5},
    {"block":1,"mask":"80000000","word":6},{"block":1,"mask":"80000000","word":7},
    {"block":2,"mask":"80000000","word":0},{"block":2,"mask":"80000000","word":1},
    {"block":2,"mask":"80000000","word":2},{"block":2,"mask":"80000000","word":3},
    {"block":2,"mask":"80000000","word":4},{"block":2,"mask":"80000000","word":5},
    {"block":2,"mask":"80000000","word":6},{"block":2,"mask":"80000000","word":7},
    {"block":3,"mask":"80000000","word":0},{"block":3,"mask":"80000000","word":1},
    {"block":3,"mask":"80000000","word":2},{"block":3,"mask":"80000000","word":3},
    {"block":3,"mask":"80000000","word":4},{"block":3,"mask":"80000000","word":5},
    {"block":3,"mask":"80000000","word":6},{"block":3,"mask":"80000000","word":7}],
  "chip":"00000000000a","keys":{},
  "map":"52e764b2a6016d913cd65e5df3f4a8c208f7533542d02d4b977e3fed8559ca3f",
  "order":"order-2026.esp32-sensor_batch.01","pending":{"batch1":$NONE,"batch2":$NONE},"reason":null,
  "serial":null,"state":"registered"}
a1 POST /v1/device {"nr":3,"chip":"00000000000a","order":"order-2026.esp32-sensor_batch.01","map":"52e764b2a6016d913cd65e5df3f4a8c208f7533542d02d4b977e3fed8559ca3f","blocks":<0.0=80000000 0.1=80000000 0.2=80000000 0.3=80000000 0.4=80000000 0.5=80000000 0.6=80000000 0.7=80000000 1.0=80000000 1.1=80000000 1.2=80000000 1.3=80000000 1.4=80000000 1.5=80000000 1.6=80000000 1.7=80000000 2.0=80000000 2.1=80000000 2.2=80000000 2.3=80000000 2.4=80000000 2.5=80000000 2.6=80000000 2.7=80000000 3.0=80000000 3.1=80000000 3.2=80000000 3.3=80000000 3.4=80000000 3.5=80000000 3.6=80000000 3.7=80000000>}
200 {"bits":[
    {"block":0,"mask":"80000000","word":0},{"block":0,"mask":"80000000","word":1},
    {"block":0,"mask":"80000000","word":2},{"block":0,"mask":"80000000","word":3},
    {"block":0,"mask":"80000000","word":4},{"block":0,"mask":"80000000","word":5},
    {"block":0,"mask":"80000000","word":6},{"block":0,"mask":"80000000","word":7},
    {"block":1,"mask":"80000000","word":0},{"block":1,"mask":"80000000","word":1},
    {"block":1,"mask":"80000000","word":2},{"block":1,"mask":"80000000","word":3},
    {"block":1,"mask":"80000000","word":4},{"block":1,"mask":"80000000","word":5},
    {"block":1,"mask":"80000000","word":6},{"block":1,"mask":"80000000","word":7},
    {"block":2,"mask":"80000000","word":0},{"block":2,"mask":"80000000","word":1},
    {"block":2,"mask":"80000000","word":2},{"block":2,"mask":"80000000","word":3},
    {"block":2,"mask":"80000000","word":4},{"block":2,"mask":"80000000","word":5},
    {"block":2,"mask":"80000000","word":6},{"block":2,"mask":"80000000","word":7},
    {"block":3,"mask":"80000000","word":0},{"block":3,"mask":"80000000","word":1},
    {"block":3,"mask":"80000000","word":2},{"block":3,"mask":"80000000","word":3},
    {"block":3,"mask":"80000000","word":4},{"block":3,"mask":"80000000","word":5},
    {"block":3,"mask":"80000000","word":6},{"block":3,"mask":"80000000","word":7}],
  "chip":"00000000000a","keys":{},
  "map":"52e764b2a6016d913cd65e5df3f4a8c208f7533542d02d4b977e3fed8559ca3f",
  "order":"order-2026.esp32-sensor_batch.01","pending":{"batch1":$NONE,"batch2":$NONE},"reason":null,
  "serial":null,"state":"registered"}
"#;

/// An import of 500 serial numbers of 63 characters, 64,518 bytes of CSV, in a body of some 65,000; then the
/// same again.
const LONG_IMPORT: &str = r#"
a1 POST /v1/import {"nr":1,"issuer":"acme-ca","csv":"serial,key_sha256\n$TIMES~500~SSSSSSSSSSSSSSSSSSSSSSSSSSSSSSSSSSSSSSSSSSSSSSSSSSSSSSSSSSSS#,0000000000000000000000000000000000000000000000000000000000000#\n~"}
200 {"added":500,"present":0}
a1 POST /v1/import {"nr":2,"issuer":"acme-ca","csv":"serial,key_sha256\n$TIMES~500~SSSSSSSSSSSSSSSSSSSSSSSSSSSSSSSSSSSSSSSSSSSSSSSSSSSSSSSSSSSS#,0000000000000000000000000000000000000000000000000000000000000#\n~"}
200 {"added":0,"present":500}
"#;

/// The conversation about the map of 128 fields, up to the plan.
fn map_of_many_fields(alloc: Global) -> Result<String, AllocError> {
    let fields = numbered(alloc, FIELD, "#", 20, 141)?;
    format!(in alloc; "{MAP_UP_TO_FIELDS}{fields}{MAP_BEHIND_FIELDS}")
}

/// The text of the sample site with 62 customers more, and the conversation about all 64.
fn site_of_many_customers(alloc: Global) -> Result<(String, String), AllocError> {
    let others = numbered(alloc, CUSTOMER, "#", 10, 72)?;
    let text = format!(in alloc; "{others}[manager]")?;
    let site = SITE.replace(alloc, "[manager]", text.as_str())?;
    let lines = numbered(alloc, CUSTOMER_LINE, "#", 10, 72)?;
    let asked = OF_ALL_CUSTOMERS.replace(alloc, "$LINES", lines.as_str())?;
    Ok((site, asked))
}

/// Holds two conversations for the site of a text over each keeper, whose store is opened again between them:
/// what differs first.
pub fn first_of_both(alloc: Global, site: &str, first: &str, rest: &str) -> Result<String, Fail> {
    let limit = Limit {
        site,
        first,
        rows: Rows::None,
        rest,
    };
    over_each(alloc, &limit)
}

#[test]
fn maps_may_have_128_fields(rt: HostRuntime) -> Result<(), Fail> {
    let first = map_of_many_fields(rt.alloc())?;
    let found = first_of_both(rt.alloc(), SITE, first.as_str(), BURNT)?;
    assert_eq!(rt; found.as_str(), "");
    Ok(())
}

#[test]
fn sites_may_have_64_customers(rt: HostRuntime) -> Result<(), Fail> {
    let (site, asked) = site_of_many_customers(rt.alloc())?;
    let found = first_of_both(rt.alloc(), site.as_str(), asked.as_str(), "")?;
    assert_eq!(rt; found.as_str(), "");
    Ok(())
}

#[test]
fn sites_may_have_no_customers(rt: HostRuntime) -> Result<(), Fail> {
    let site = SITE_WITHOUT_CUSTOMERS;
    let found = first_of_both(rt.alloc(), site, OF_NO_CUSTOMERS, OF_NO_CUSTOMERS)?;
    assert_eq!(rt; found.as_str(), "");
    Ok(())
}

#[test]
fn the_65th_number_has_its_addresses(rt: HostRuntime) -> Result<(), Fail> {
    let found = first_of_both(rt.alloc(), SITE_WITH_ROOM, FAR_NUMBER, FAR_ADDRESS)?;
    assert_eq!(rt; found.as_str(), "");
    Ok(())
}

#[test]
fn imports_may_have_500_long_rows(rt: HostRuntime) -> Result<(), Fail> {
    let found = first_of_both(rt.alloc(), SITE, LONG_IMPORT, "")?;
    assert_eq!(rt; found.as_str(), "");
    Ok(())
}

#[test]
fn chips_may_show_32_words(rt: HostRuntime) -> Result<(), Fail> {
    let found = first_of_both(rt.alloc(), SITE, WIDE_CHIP, "")?;
    assert_eq!(rt; found.as_str(), "");
    Ok(())
}
