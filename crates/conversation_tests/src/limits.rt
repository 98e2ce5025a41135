//! What is served at the limits: as many rows as customers, orders and devices may have, or thousands
//! where there is no limit, and names as long as a name may be. No contract says that memory is found,
//! so what gives up past some number is proved, and only a test tells.
ghost use Rattle.std.specs.Prelude.{◌≤◌, ◌<◌, ◌^◌};

use id_ranges::{KeyDigest, Mac, SerialRange};
use office_core::{Boxed, DeviceRow, GivenRow, Keep, OfCustomer, Order, OrderRow, Write};
use station_api::Served;
use std::alloc::{AllocError, Global};
use std::test::Fail;
use test_fixtures::conversations::exchanges;
use test_fixtures::numbered::numbered;
use test_fixtures::samples::SITE;
use test_support::conversation::{first_difference_for, serve, streams_of};
use test_support::keepers::{Fresh, KeeperCase, over_each};
use test_support::lists::first_difference_in_list;
use text_core::{Chip, Name, Serial};
use yield_counts::Count;

/// A site in which acme has one pool, as large as a pool may be.
pub const SITE_WITH_ROOM: &str = r#"[[customer]]
name = "acme"
issuer = ["acme-ca"]
[[customer.pool]]
first = "020000000000"
count = 16777216
[[customer.seat]]
name = "a1"
token = "ba7816bf8f01cfea414140de5dae2223b00361a396177a9cb410ff61f20015ad"
[[customer]]
name = "bolt"
issuer = ["bolt-ca"]
[manager]
token = "9f86d081884c7d659a2feaa0c55ad015a3bf4f1b2b0b822cd15d6c15b0f00a08"
"#;

/// The first order, of one device with an address.
const FIRST_ORDER: &str = r#"
a1 POST /v1/order {"nr":1,"name":"order-of-thirty-two-letters.1001","issuer":"acme-ca","prefix":"A","width":4,"first":1001,"quantity":1,"macs":1}
200 {"first":1001,"issuer":"acme-ca","mac":"020000000000","macs":1,"name":"order-of-thirty-two-letters.1001","next":"A1001",
  "not_before":null,"prefix":"A","quantity":1,"width":4}
"#;

/// Behind 4,095 orders of an address each: the last that there may be, with the next address, and the
/// one that is one too many.
const LAST_ORDER: &str = r#"
a1 POST /v1/order {"nr":2,"name":"order-of-thirty-two-letters.5096","issuer":"acme-ca","prefix":"A","width":4,"first":5096,"quantity":1,"macs":1}
200 {"first":5096,"issuer":"acme-ca","mac":"020000000fff","macs":1,"name":"order-of-thirty-two-letters.5096","next":"A5096",
  "not_before":null,"prefix":"A","quantity":1,"width":4}
a1 POST /v1/order {"nr":3,"name":"order-of-thirty-two-letters.5097","issuer":"acme-ca","prefix":"A","width":4,"first":5097,"quantity":1,"macs":1}
409 {"error":"limit","no":40}
a1 GET /v1/order?name=order-of-thirty-two-letters.5096
200 {"first":5096,"issuer":"acme-ca","mac":"020000000fff","macs":1,"name":"order-of-thirty-two-letters.5096","next":"A5096",
  "not_before":null,"prefix":"A","quantity":1,"width":4}
manager GET /v1/site/report
csv customer,orders,quantity,registered,planned,settled,identified,shipped,quarantined,scrapped,serials_left|
  acme,4096,4096,0,0,0,0,0,0,0,4096|
  bolt,0,0,0,0,0,0,0,0,0,0|
"#;

/// The request for the customer's report, with its reply up to the lines of the orders.
const REPORT: &str =
    "a1 GET /v1/report\ncsv order,quantity,registered,planned,settled,identified,shipped,quarantined,scrapped,serials_left|";

/// The line of an order in the report.
const ORDER_LINE: &str = "order-of-thirty-two-letters.#,1,0,0,0,0,0,0,0,1|";

/// An order as large as an order may be, a map, and the order's first device.
const FIRST_DEVICE: &str = r#"
a1 POST /v1/order {"nr":1,"name":"o1","issuer":"acme-ca","prefix":"A","width":5,"first":10000,"quantity":10000,"macs":0}
200 {"first":10000,"issuer":"acme-ca","mac":null,"macs":0,"name":"o1","next":"A10000",
  "not_before":null,"prefix":"A","quantity":10000,"width":5}
a1 POST /v1/map {"nr":2,"text":"$MAP"}
200 {"map":"$DIGEST"}
a1 POST /v1/device {"nr":3,"chip":"00000000000a","order":"o1","map":"$DIGEST","blocks":<>}
200 {"bits":[],"chip":"00000000000a","keys":{},"map":"$DIGEST","order":"o1",
  "pending":{"batch1":$NONE,"batch2":$NONE},"reason":null,"serial":null,"state":"registered"}
"#;

/// Behind 9,999 devices: the last that the order takes, the one that is one too many, and the place
/// that a device leaves.
const LAST_DEVICE: &str = r#"
a1 POST /v1/device {"nr":4,"chip":"00000000000b","order":"o1","map":"$DIGEST","blocks":<>}
200 {"bits":[],"chip":"00000000000b","keys":{},"map":"$DIGEST","order":"o1",
  "pending":{"batch1":$NONE,"batch2":$NONE},"reason":null,"serial":null,"state":"registered"}
a1 POST /v1/device {"nr":5,"chip":"00000000000c","order":"o1","map":"$DIGEST","blocks":<>}
409 {"error":"quantity_reached","no":18}
a1 GET /v1/report
csv order,quantity,registered,planned,settled,identified,shipped,quarantined,scrapped,serials_left|
  o1,10000,10000,0,0,0,0,0,0,10000|
a1 POST /v1/scrap {"nr":5,"chip":"00000000000a"}
200 {"chip":"00000000000a","state":"scrapped"}
a1 POST /v1/device {"nr":6,"chip":"00000000000c","order":"o1","map":"$DIGEST","blocks":<>}
200 {"bits":[],"chip":"00000000000c","keys":{},"map":"$DIGEST","order":"o1",
  "pending":{"batch1":$NONE,"batch2":$NONE},"reason":null,"serial":null,"state":"registered"}
a1 GET /v1/report
csv order,quantity,registered,planned,settled,identified,shipped,quarantined,scrapped,serials_left|
  o1,10000,10000,0,0,0,0,0,1,10000|
"#;

/// How the first device is listed.
const LISTED_FIRST: &str =
    "{\"chip\":\"00000000000a\",\"order\":\"o1\",\"reason\":null,\"serial\":null,\"state\":\"registered\"}";

/// How a device behind it is listed, with a comma in front; `#` stands for its chip's last digits.
const LISTED: &str =
    ",{\"chip\":\"000000000#\",\"order\":\"o1\",\"reason\":null,\"serial\":null,\"state\":\"registered\"}";

/// The request for the first page of devices, with its reply up to the devices.
const FIRST_PAGE: &str = "a1 GET /v1/devices?after=\n200 {\"devices\":[";

/// Behind a full page one device more.
const ONE_MORE: &str = r#"
a1 POST /v1/device {"nr":4,"chip":"000000000599","order":"o1","map":"$DIGEST","blocks":<>}
200 {"bits":[],"chip":"000000000599","keys":{},"map":"$DIGEST","order":"o1",
  "pending":{"batch1":$NONE,"batch2":$NONE},"reason":null,"serial":null,"state":"registered"}
"#;

/// The page behind a full one, and those behind the last device and in front of it.
const NEXT_PAGE: &str = r#"
a1 GET /v1/devices?after=000000000598
200 {"devices":[
  {"chip":"000000000599","order":"o1","reason":null,"serial":null,"state":"registered"}],"next":null}
a1 GET /v1/devices?after=000000000599
200 {"devices":[],"next":null}
a1 GET /v1/devices?after=000000000597
200 {"devices":[
  {"chip":"000000000598","order":"o1","reason":null,"serial":null,"state":"registered"},
  {"chip":"000000000599","order":"o1","reason":null,"serial":null,"state":"registered"}],"next":null}
"#;

/// What stands between the devices of the first and the second page, and of the second and the third.
const SECOND_PAGE: &str = r#"],"next":"000000001498"}
a1 GET /v1/devices?after=000000001498
200 {"devices":["#;

const THIRD_PAGE: &str = r#"],"next":"000000001998"}
a1 GET /v1/devices?after=000000001998
200 {"devices":["#;

/// What an import of acme's begins with; `#` stands for its number.
const IMPORT: &str =
    "a1 POST /v1/import {\"nr\":#,\"issuer\":\"acme-ca\",\"csv\":\"serial,key_sha256\\n";

/// A row of the import, with a digest of its own.
const RECORD: &str = "A#,00000000000000000000000000000000000000000000000000000000000#\\n";

/// The serial numbers of two settled devices where all but the last of the order's are imported: the
/// one gets it, and the other gets none.
const LAST_NUMBER: &str = r#"
a1 GET /v1/order?name=o1
200 {"first":10000,"issuer":"acme-ca","mac":null,"macs":0,"name":"o1","next":"A19999",
  "not_before":null,"prefix":"A","quantity":10000,"width":5}
a1 GET /v1/report
csv order,quantity,registered,planned,settled,identified,shipped,quarantined,scrapped,serials_left|
  o1,10000,1,0,0,0,0,0,0,1|
a1 POST /v1/plan {"nr":24,"chip":"00000000000a","wishes":[]}
200 {"batch1":$NONE,"batch2":$NONE,"state":"settled"}
a1 POST /v1/identity {"nr":25,"chip":"00000000000a","public_key":"616263"}
200 {"chip":"00000000000a","issuer":"acme-ca",
  "key_sha256":"ba7816bf8f01cfea414140de5dae2223b00361a396177a9cb410ff61f20015ad","mac":null,
  "not_after":"99991231235959Z","not_before":null,"serial":"A19999"}
a1 GET /v1/order?name=o1
200 {"first":10000,"issuer":"acme-ca","mac":null,"macs":0,"name":"o1","next":null,
  "not_before":null,"prefix":"A","quantity":10000,"width":5}
a1 POST /v1/device {"nr":26,"chip":"00000000000b","order":"o1","map":"$DIGEST","blocks":<>}
200 {"bits":[],"chip":"00000000000b","keys":{},"map":"$DIGEST","order":"o1",
  "pending":{"batch1":$NONE,"batch2":$NONE},"reason":null,"serial":null,"state":"registered"}
a1 POST /v1/plan {"nr":27,"chip":"00000000000b","wishes":[]}
200 {"batch1":$NONE,"batch2":$NONE,"state":"settled"}
a1 POST /v1/identity {"nr":28,"chip":"00000000000b","public_key":"00"}
409 {"error":"exhausted","no":32}
a1 GET /v1/report
csv order,quantity,registered,planned,settled,identified,shipped,quarantined,scrapped,serials_left|
  o1,10000,0,0,1,1,0,0,0,0|
"#;

/// A chip with a plan of one bit.
const PLANNED: &str = r#"
@ chip
a1 POST /v1/plan {"nr":4,"chip":"00000000000a","wishes":[{"kind":"bit","field":"JTAG_DISABLE","index":0}]}
200 {"batch1":{"bits":[{"block":0,"mask":"00000040","word":6}],"keys":{}},"batch2":$NONE,
  "state":"awaiting1"}
"#;

/// A read-back in which the bit isn't burnt.
const SHORT: &str = r#"
a1 POST /v1/readback {"nr":#,"chip":"00000000000a","blocks":<>}
200 {"outcome":"short","rest":{"bits":[{"block":0,"mask":"00000040","word":6}],"keys":{}},
  "state":"awaiting1"}
"#;

/// The one in which it is, and the end of the device.
const BURNT: &str = r#"
a1 POST /v1/readback {"nr":16395,"chip":"00000000000a","blocks":<0.6=00000040>}
200 {"outcome":"match","rest":$NONE,"state":"settled"}
a1 POST /v1/scrap {"nr":16396,"chip":"00000000000a"}
200 {"chip":"00000000000a","state":"scrapped"}
"#;

/// The request for the ledger, with its reply up to the read-backs.
const LEDGER: &str = r#"
a1 GET /v1/ledger?chip=00000000000a
200 {"chip":"00000000000a","entries":[
  {"bits":[],"event":"registered","keys":{},"n":1,"note":"","seat":"a1"},
  {"bits":[],"event":"planned","keys":{},"n":2,"note":"","seat":"a1"}"#;

/// The entry of a short read-back.
const ENTRY: &str = r#",{"bits":[],"event":"read","keys":{},"n":#,"note":"short","seat":"a1"}"#;

/// The entries of what comes behind them.
const LAST_ENTRIES: &str = r#",
  {"bits":[{"block":0,"mask":"00000040","word":6}],"event":"read","keys":{},"n":16393,"note":"match",
    "seat":"a1"},
  {"bits":[],"event":"scrapped","keys":{},"n":16394,"note":"","seat":"a1"}"#;

/// An order of 10,000 addresses, and a device of it with the first of its records.
const FIRST_RECORD: &str = r#"
a1 POST /v1/order {"nr":1,"name":"o1","issuer":"acme-ca","prefix":"A","width":5,"first":10000,"quantity":10000,"macs":1}
200 {"first":10000,"issuer":"acme-ca","mac":"020000000000","macs":1,"name":"o1","next":"A10000",
  "not_before":null,"prefix":"A","quantity":10000,"width":5}
a1 POST /v1/map {"nr":2,"text":"$MAP"}
200 {"map":"$DIGEST"}
a1 POST /v1/device {"nr":3,"chip":"00000000000a","order":"o1","map":"$DIGEST","blocks":<>}
200 {"bits":[],"chip":"00000000000a","keys":{},"map":"$DIGEST","order":"o1",
  "pending":{"batch1":$NONE,"batch2":$NONE},"reason":null,"serial":null,"state":"registered"}
a1 POST /v1/plan {"nr":4,"chip":"00000000000a","wishes":[]}
200 {"batch1":$NONE,"batch2":$NONE,"state":"settled"}
a1 POST /v1/identity {"nr":5,"chip":"00000000000a","public_key":"616263"}
200 {"chip":"00000000000a","issuer":"acme-ca",
  "key_sha256":"ba7816bf8f01cfea414140de5dae2223b00361a396177a9cb410ff61f20015ad",
  "mac":"020000000000","not_after":"99991231235959Z","not_before":null,"serial":"A10000"}
"#;

/// Behind 66,001 records more, which are of none of its numbers: what the books show, and the next
/// record.
const NEXT_RECORD: &str = r#"
a1 GET /v1/report
csv order,quantity,registered,planned,settled,identified,shipped,quarantined,scrapped,serials_left|
  o1,10000,0,0,0,1,0,0,0,9999|
manager GET /v1/site/report
csv customer,orders,quantity,registered,planned,settled,identified,shipped,quarantined,scrapped,serials_left|
  acme,1,10000,0,0,0,1,0,0,0,9999|
  bolt,0,0,0,0,0,0,0,0,0,0|
a1 POST /v1/device {"nr":6,"chip":"00000000000b","order":"o1","map":"$DIGEST","blocks":<>}
200 {"bits":[],"chip":"00000000000b","keys":{},"map":"$DIGEST","order":"o1",
  "pending":{"batch1":$NONE,"batch2":$NONE},"reason":null,"serial":null,"state":"registered"}
a1 POST /v1/plan {"nr":7,"chip":"00000000000b","wishes":[]}
200 {"batch1":$NONE,"batch2":$NONE,"state":"settled"}
a1 POST /v1/identity {"nr":8,"chip":"00000000000b","public_key":"00"}
200 {"chip":"00000000000b","issuer":"acme-ca",
  "key_sha256":"6e340b9cffb37a989ca544e6bb780a2c78901d3fb33738768511a30617afa01d",
  "mac":"020000000001","not_after":"99991231235959Z","not_before":null,"serial":"A10001"}
"#;

/// A request that is accepted and adds a row to no table.
const NO_RECORDS: &str = r#"
a1 POST /v1/import {"nr":#,"issuer":"acme-ca","csv":"serial,key_sha256\n"}
200 {"added":0,"present":0}
"#;

/// A site whose customer, issuer and seat have names of 32 characters.
const SITE_OF_LONG_NAMES: &str = r#"[[customer]]
name = "acme-semiconductors.plant_1.east"
issuer = ["acme-semiconductors.root-ca.2026"]
[[customer.pool]]
first = "020000000010"
count = 4
[[customer.seat]]
name = "line-1.station-4.programming_a1x"
token = "ba7816bf8f01cfea414140de5dae2223b00361a396177a9cb410ff61f20015ad"
[manager]
token = "9f86d081884c7d659a2feaa0c55ad015a3bf4f1b2b0b822cd15d6c15b0f00a08"
"#;

/// An order and a field with names of 32 characters, a prefix of 32 with a number of 9 digits, and a
/// serial number of 64 characters.
const LONG_NAMES: &str = r#"
a1 POST /v1/order {"nr":1,"name":"order-2026.esp32-sensor_batch.01","issuer":"acme-semiconductors.root-ca.2026","prefix":"ACME-SENSOR-2026-BATCH-01-PLANT1","width":9,"first":999999999,"quantity":1,"macs":4}
200 {"first":999999999,"issuer":"acme-semiconductors.root-ca.2026","mac":"020000000010","macs":4,
  "name":"order-2026.esp32-sensor_batch.01","next":"ACME-SENSOR-2026-BATCH-01-PLANT1999999999","not_before":null,
  "prefix":"ACME-SENSOR-2026-BATCH-01-PLANT1","quantity":1,"width":9}
a1 GET /v1/order?name=order-2026.esp32-sensor_batch.01
200 {"first":999999999,"issuer":"acme-semiconductors.root-ca.2026","mac":"020000000010","macs":4,
  "name":"order-2026.esp32-sensor_batch.01","next":"ACME-SENSOR-2026-BATCH-01-PLANT1999999999","not_before":null,
  "prefix":"ACME-SENSOR-2026-BATCH-01-PLANT1","quantity":1,"width":9}
a1 GET /v1/order?name=order-2026.esp32-sensor_batch.01x
400 {"error":"bad_member","no":10}
a1 POST /v1/map {"nr":2,"text":"$MAP~JTAG_DISABLE~DISABLE_JTAG.of_the_second_core1~"}
200 {"map":"dec301ff75e53c4991d35e1965add2837480e3ddf9db577f55d30308a3178a2f"}
a1 POST /v1/device {"nr":3,"chip":"00000000000a","order":"order-2026.esp32-sensor_batch.01","map":"dec301ff75e53c4991d35e1965add2837480e3ddf9db577f55d30308a3178a2f","blocks":<>}
200 {"bits":[],"chip":"00000000000a","keys":{},
  "map":"dec301ff75e53c4991d35e1965add2837480e3ddf9db577f55d30308a3178a2f",
  "order":"order-2026.esp32-sensor_batch.01","pending":{"batch1":$NONE,"batch2":$NONE},"reason":null,
  "serial":null,"state":"registered"}
a1 POST /v1/plan {"nr":4,"chip":"00000000000a","wishes":[{"kind":"bit","field":"DISABLE_JTAG.of_the_second_core1","index":0}]}
200 {"batch1":{"bits":[{"block":0,"mask":"00000040","word":6}],"keys":{}},"batch2":$NONE,
  "state":"awaiting1"}
a1 POST /v1/readback {"nr":5,"chip":"00000000000a","blocks":<0.6=00000040>}
200 {"outcome":"match","rest":$NONE,"state":"settled"}
a1 POST /v1/identity {"nr":6,"chip":"00000000000a","public_key":"616263"}
200 {"chip":"00000000000a","issuer":"acme-semiconductors.root-ca.2026",
  "key_sha256":"ba7816bf8f01cfea414140de5dae2223b00361a396177a9cb410ff61f20015ad","mac":"020000000010",
  "not_after":"99991231235959Z","not_before":null,
  "serial":"ACME-SENSOR-2026-BATCH-01-PLANT1999999999"}
a1 POST /v1/import {"nr":7,"issuer":"acme-semiconductors.root-ca.2026","csv":"serial,key_sha256\nZZZZZZZZZZZZZZZZZZZZZZZZZZZZZZZZZZZZZZZZZZZZZZZZZZZZZZZZZZZZZZZ1,0000000000000000000000000000000000000000000000000000000000000000\n"}
200 {"added":1,"present":0}
a1 GET /v1/ledger?chip=00000000000a
200 {"chip":"00000000000a","entries":[
  {"bits":[],"event":"registered","keys":{},"n":1,"note":"",
    "seat":"line-1.station-4.programming_a1x"},
  {"bits":[],"event":"planned","keys":{},"n":2,"note":"",
    "seat":"line-1.station-4.programming_a1x"},
  {"bits":[{"block":0,"mask":"00000040","word":6}],"event":"read","keys":{},"n":3,"note":"match",
    "seat":"line-1.station-4.programming_a1x"},
  {"bits":[],"event":"identified","keys":{},"n":4,
    "note":"ACME-SENSOR-2026-BATCH-01-PLANT1999999999",
    "seat":"line-1.station-4.programming_a1x"}]}
a1 GET /v1/report
csv order,quantity,registered,planned,settled,identified,shipped,quarantined,scrapped,serials_left|
  order-2026.esp32-sensor_batch.01,1,0,0,0,1,0,0,0,0|
manager GET /v1/site/report
csv customer,orders,quantity,registered,planned,settled,identified,shipped,quarantined,scrapped,serials_left|
  acme-semiconductors.plant_1.east,1,1,0,0,0,1,0,0,0,0|
"#;

/// Rows that are put into the tables before a conversation goes on.
#[derive(Clone, Copy)]
pub enum Rows {
    None,
    /// 4,094 orders behind the first.
    Orders,
    /// 9,998 devices behind the first.
    Devices,
    /// 499 devices behind the first: a page that is exactly full.
    Page,
    /// 1,000 devices behind the first: two pages and a device.
    Pages,
    /// 16,390 entries of a chip, by as many requests.
    Entries,
    /// 66,001 records with addresses.
    Records,
}

/// A conversation for a site in two parts, between which rows are put into the tables and the keeper's
/// store is opened again.
#[derive(Drop)]
pub struct Limit<'a> {
    pub site: &'a str,
    pub first: &'a str,
    pub rows: Rows,
    pub rest: &'a str,
}

/// Puts an order behind the first, with a number and an address of its own.
fn add_order<K: Keep>(
    alloc: Global,
    keep: &mut K,
    first: &OrderRow,
    number: u64,
) -> Result<(), Fail>
    requires { (1001 ≤ number) × (number < 10000) }
{
    let name = format!(in alloc; "order-of-thirty-two-letters.{number}")?;
    let order = OfCustomer {
        customer: first.customer,
        row: Order {
            name: Name::parse(name.as_str()).ok_or("no name")?,
            range: SerialRange::new("A", 4, number, 1)?,
            mac: Some(Mac::new(0x0200_0000_0000 + (number - 1001))),
            cursor: number,
            ..first.row
        },
    };
    if keep.order(&order.customer, &order.row.name)?.is_some() {
        return Err(Fail::from("the order is there"));
    }
    Ok(keep.commit(&[Write::AddOrder(order)])?)
}

/// Puts 4,094 orders behind the first, as requests would.
fn add_orders<K: Keep>(alloc: Global, keep: &mut K) -> Result<(), Fail> {
    let customer = Name::parse("acme").ok_or("no name")?;
    let name = Name::parse("order-of-thirty-two-letters.1001").ok_or("no name")?;
    let first = keep.order(&customer, &name)?.ok_or("no order")?;
    for number in 1002..5096 {
        add_order(alloc, keep, &first, number)?;
    }
    Ok(())
}

/// Puts a device beside the first, with a chip of its own.
fn add_device<K: Keep>(
    alloc: Global,
    keep: &mut K,
    first: &DeviceRow,
    number: u64,
) -> Result<(), Fail> {
    let chip = format!(in alloc; "{number:012}")?;
    let mut row = *first;
    row.row.chip = Chip::parse(chip.as_str()).ok_or("no chip")?;
    let is_placed = keep.device(&row.customer, &row.row.chip)?.is_none()
        && keep.order(&row.customer, &row.row.order)?.is_some()
        && keep.link(&row.customer, &row.row.map)?.is_some();
    if !is_placed {
        return Err(Fail::from("no place for the device"));
    }
    Ok(keep.commit(&[Write::AddDevice(Boxed::new(alloc, row)?)])?)
}

/// Puts 9,998 devices beside the first.
fn add_devices<K: Keep>(alloc: Global, keep: &mut K) -> Result<(), Fail> {
    let customer = Name::parse("acme").ok_or("no name")?;
    let chip = Chip::parse("00000000000a").ok_or("no chip")?;
    let first = keep.device(&customer, &chip)?.ok_or("no device")?;
    for number in 0..9998 {
        add_device(alloc, keep, &first, number)?;
    }
    Ok(())
}

/// Puts devices beside the first, whose chips come behind it: one for each number up to `end`,
/// without it.
fn add_behind<K: Keep>(alloc: Global, keep: &mut K, first: u64, end: u64) -> Result<(), Fail> {
    let customer = Name::parse("acme").ok_or("no name")?;
    let chip = Chip::parse("00000000000a").ok_or("no chip")?;
    let device = keep.device(&customer, &chip)?.ok_or("no device")?;
    for number in first..end {
        add_device(alloc, keep, &device, number)?;
    }
    Ok(())
}

/// Has 16,390 read-backs in one stream for the sample site.
fn add_entries<K: Count>(alloc: Global, keep: &mut K) -> Result<(), Fail> {
    let conversation = numbered(alloc, SHORT, "#", 5, 16_395)?;
    let exchanges = exchanges(alloc, conversation.as_str())?;
    let (asked, wanted) = streams_of(alloc, exchanges.as_slice())?;
    let (served, written) = serve(alloc, keep, asked.as_slice(), 65_536)?;
    if served != Served::Ended || written.bytes() != wanted.as_slice() {
        return Err(Fail::from("a read-back has another reply"));
    }
    Ok(())
}

/// Puts a record beside the first, with a serial number, a key, a chip and an address of its own.
fn add_record<K: Keep>(
    alloc: Global,
    keep: &mut K,
    first: &GivenRow,
    number: u64,
) -> Result<(), Fail>
    requires { number < 2 ^ 32 }
{
    let serial = format!(in alloc; "B{number}")?;
    let chip = format!(in alloc; "{number:012}")?;
    let mut record = *first;
    record.row.serial = Serial::parse(serial.as_str()).ok_or("no serial number")?;
    record.row.key = KeyDigest::of(serial.as_bytes());
    record.row.chip = Chip::parse(chip.as_str());
    record.row.mac = Some(Mac::new(0x0200_0000_0000 + number));
    if keep
        .given(&record.row.issuer, record.row.serial.as_str())?
        .is_some()
    {
        return Err(Fail::from("the record is there"));
    }
    Ok(keep.commit(&[Write::AddGiven(record)])?)
}

/// Puts 66,001 records beside the first.
fn add_records<K: Keep>(alloc: Global, keep: &mut K) -> Result<(), Fail> {
    let issuer = Name::parse("acme-ca").ok_or("no name")?;
    let first = keep.given(&issuer, "A10000")?.ok_or("no record")?;
    for number in 10_000..76_001 {
        add_record(alloc, keep, &first, number)?;
    }
    Ok(())
}

impl Rows {
    /// Puts the rows into the tables.
    fn add<K: Count>(self, alloc: Global, keep: &mut K) -> Result<(), Fail> {
        match self {
            Rows::None => Ok(()),
            Rows::Orders => add_orders(alloc, keep),
            Rows::Devices => add_devices(alloc, keep),
            Rows::Page => add_behind(alloc, keep, 100, 599),
            Rows::Pages => add_behind(alloc, keep, 1_000, 2_000),
            Rows::Entries => add_entries(alloc, keep),
            Rows::Records => add_records(alloc, keep),
        }
    }
}

impl Limit<'_> {
    /// Holds a part of the conversation: what differs first.
    fn first_in_part<K: Count>(
        &self,
        alloc: Global,
        keep: &mut K,
        part: &str,
    ) -> Result<String, Fail> {
        let exchanges = exchanges(alloc, part)?;
        first_difference_for(alloc, keep, self.site, exchanges.as_slice())
    }
}

impl KeeperCase for Limit<'_> {
    fn first_difference<K: Fresh>(&self, alloc: Global) -> Result<String, Fail> {
        let mut keep = K::of_site(alloc, self.site)?;
        let found = self.first_in_part(alloc, &mut keep, self.first)?;
        if !found.is_empty() {
            return Ok(found);
        }
        self.rows.add(alloc, &mut keep)?;
        let mut keep = keep.reopened(alloc, self.site)?;
        self.first_in_part(alloc, &mut keep, self.rest)
    }
}

/// The last orders that a customer may have, and the report of all 4,096.
fn last_orders(alloc: Global) -> Result<String, AllocError> {
    let lines = numbered(alloc, ORDER_LINE, "#", 1001, 5097)?;
    format!(in alloc; "{LAST_ORDER}{REPORT}{lines}\n")
}

/// A page of 500 devices behind which there are none; and with one more, that page and the next.
fn full_pages(alloc: Global) -> Result<String, AllocError> {
    let listed = numbered(alloc, LISTED, "#", 100, 599)?;
    format!(in alloc;
        "{FIRST_PAGE}{LISTED_FIRST}{listed}],\"next\":null}}\n{ONE_MORE}{FIRST_PAGE}{LISTED_FIRST}{listed}],\"next\":\"000000000598\"}}\n{NEXT_PAGE}"
    )
}

/// The devices of numbers of four digits, as a page lists them.
fn listed(alloc: Global, first: u64, end: u64) -> Result<String, AllocError> {
    let listed = LISTED.replace(alloc, "000000000#", "00000000#")?;
    let all = numbered(alloc, listed.as_str(), "#", first, end)?;
    String::from_str(alloc, all.as_str().strip_prefix(",").unwrap_or(""))
}

/// Three pages of 1,001 devices: the first with 499 behind it, 500, and the last.
fn three_pages(alloc: Global) -> Result<String, AllocError> {
    let mut pages = format!(in alloc; "{FIRST_PAGE}{LISTED_FIRST},")?;
    pages.push_str(listed(alloc, 1000, 1499)?.as_str())?;
    pages.push_str(SECOND_PAGE)?;
    pages.push_str(listed(alloc, 1499, 1999)?.as_str())?;
    pages.push_str(THIRD_PAGE)?;
    pages.push_str(listed(alloc, 1999, 2000)?.as_str())?;
    pages.push_str("],\"next\":null}\n")?;
    Ok(pages)
}

/// All but the last of 10,000 numbers, imported in parts of up to 500.
fn all_but_one_imported(alloc: Global) -> Result<String, AllocError> {
    let mut text = String::from_str(alloc, FIRST_DEVICE)?;
    for part in 0..20u64 {
        let first = 10_000 + 500 * part;
        let end = (first + 500).min(19_999);
        let head = numbered(alloc, IMPORT, "#", part + 4, part + 5)?;
        let records = numbered(alloc, RECORD, "#", first, end)?;
        let added = end.saturating_sub(first);
        let import = format!(in alloc;
            "{head}{records}\"}}\n200 {{\"added\":{added},\"present\":0}}\n"
        )?;
        text.push_str(import.as_str())?;
    }
    Ok(text)
}

/// The entries of a ledger where 16,390 read-backs are short; and what comes then.
fn thousands_of_entries(alloc: Global) -> Result<String, AllocError> {
    let entries = numbered(alloc, ENTRY, "#", 3, 16_393)?;
    format!(in alloc; "{LEDGER}{entries}]}}\n{BURNT}{LEDGER}{entries}{LAST_ENTRIES}]}}\n")
}

/// Requests of one seat, in one stream and in one list.
#[derive(Drop)]
struct Requests<'a> {
    conversation: &'a str,
}

impl KeeperCase for Requests<'_> {
    fn first_difference<K: Fresh>(&self, alloc: Global) -> Result<String, Fail> {
        let exchanges = exchanges(alloc, self.conversation)?;
        let (asked, wanted) = streams_of(alloc, exchanges.as_slice())?;
        let (served, written) = serve(alloc, &mut K::fresh(alloc)?, asked.as_slice(), 65_536)?;
        let got = written.bytes();
        if served != Served::Ended || got != wanted.as_slice() {
            let (count, all) = (got.len(), wanted.len());
            return Ok(format!(in alloc; "{served:?}, {count} bytes of {all}")?);
        }
        first_difference_in_list(alloc, &mut K::fresh(alloc)?, SITE, exchanges.as_slice())
    }
}

/// A customer with as many orders as it may have, each with an address, is refused one more.
#[test]
fn orders_with_addresses_are_made_to_the_limit(rt: HostRuntime) -> Result<(), Fail> {
    let rest = last_orders(rt.alloc())?;
    let limit = Limit {
        site: SITE_WITH_ROOM,
        first: FIRST_ORDER,
        rows: Rows::Orders,
        rest: rest.as_str(),
    };
    assert_eq!(rt; over_each(rt.alloc(), &limit)?.as_str(), "");
    Ok(())
}

#[test]
fn devices_are_registered_to_the_limit(rt: HostRuntime) -> Result<(), Fail> {
    let limit = Limit {
        site: SITE,
        first: FIRST_DEVICE,
        rows: Rows::Devices,
        rest: LAST_DEVICE,
    };
    assert_eq!(rt; over_each(rt.alloc(), &limit)?.as_str(), "");
    Ok(())
}

#[test]
fn a_full_page_tells_of_more_where_there_are_more(rt: HostRuntime) -> Result<(), Fail> {
    let rest = full_pages(rt.alloc())?;
    let limit = Limit {
        site: SITE,
        first: FIRST_DEVICE,
        rows: Rows::Page,
        rest: rest.as_str(),
    };
    assert_eq!(rt; over_each(rt.alloc(), &limit)?.as_str(), "");
    Ok(())
}

#[test]
fn pages_go_on_behind_the_second(rt: HostRuntime) -> Result<(), Fail> {
    let rest = three_pages(rt.alloc())?;
    let limit = Limit {
        site: SITE,
        first: FIRST_DEVICE,
        rows: Rows::Pages,
        rest: rest.as_str(),
    };
    assert_eq!(rt; over_each(rt.alloc(), &limit)?.as_str(), "");
    Ok(())
}

#[test]
fn the_last_of_ten_thousand_numbers_is_found(rt: HostRuntime) -> Result<(), Fail> {
    let first = all_but_one_imported(rt.alloc())?;
    let limit = Limit {
        site: SITE,
        first: first.as_str(),
        rows: Rows::None,
        rest: LAST_NUMBER,
    };
    assert_eq!(rt; over_each(rt.alloc(), &limit)?.as_str(), "");
    Ok(())
}

#[test]
fn ledgers_go_on_behind_ten_thousand_entries(rt: HostRuntime) -> Result<(), Fail> {
    let rest = thousands_of_entries(rt.alloc())?;
    let limit = Limit {
        site: SITE,
        first: PLANNED,
        rows: Rows::Entries,
        rest: rest.as_str(),
    };
    assert_eq!(rt; over_each(rt.alloc(), &limit)?.as_str(), "");
    Ok(())
}

/// A store of so many records is opened again, and reported.
#[test]
fn records_with_addresses_may_be_sixty_six_thousand(rt: HostRuntime) -> Result<(), Fail> {
    let limit = Limit {
        site: SITE_WITH_ROOM,
        first: FIRST_RECORD,
        rows: Rows::Records,
        rest: NEXT_RECORD,
    };
    assert_eq!(rt; over_each(rt.alloc(), &limit)?.as_str(), "");
    Ok(())
}

#[test]
fn names_may_have_32_characters(rt: HostRuntime) -> Result<(), Fail> {
    let limit = Limit {
        site: SITE_OF_LONG_NAMES,
        first: LONG_NAMES,
        rows: Rows::None,
        rest: "",
    };
    assert_eq!(rt; over_each(rt.alloc(), &limit)?.as_str(), "");
    Ok(())
}

#[test]
fn thousands_of_requests_are_served(rt: HostRuntime) -> Result<(), Fail> {
    let conversation = numbered(rt.alloc(), NO_RECORDS, "#", 1, 5202)?;
    let requests = Requests {
        conversation: conversation.as_str(),
    };
    assert_eq!(rt; over_each(rt.alloc(), &requests)?.as_str(), "");
    Ok(())
}
