//! Which requests walk over rows, and which commit: a conversation in parts, each with the visits and
//! the commits that were made up to its end. What a part doesn't visit it reads by keys.
use crate::counting::CountingKeep;
use office_core::{Keep, Sink};
use std::alloc::Global;
use std::test::Fail;
use test_fixtures::conversations::{exchanges, is_unanswered};
use test_support::conversation::{difference_over, first_difference};
use text_core::{Chip, Name, Serial};
use yield_counts::Counted;

/// The parts, each under its name, with the visits and the commits.
const VISITS: &[(&str, &str, u64, u64)] = &[
    (
        "an order walks over orders, and a map over links",
        BEGINNING,
        2,
        2,
    ),
    (
        "a customer's devices are counted once, and found by their chips",
        BY_KEYS,
        3,
        9,
    ),
    ("a ledger is walked over", LEDGER, 4, 9),
    ("a page of devices is one walk", PAGE, 6, 9),
    ("what isn't accepted commits nothing", REFUSED, 6, 9),
    (
        "an order with addresses walks over orders once",
        WITH_ADDRESSES,
        7,
        10,
    ),
    (
        "an order is shown behind imported numbers after one walk over them",
        IMPORTED,
        8,
        11,
    ),
    (
        "a first report walks over orders, and over the serial numbers of each",
        FIRST_REPORT,
        11,
        11,
    ),
    (
        "a later report walks over orders alone",
        LATER_REPORT,
        12,
        12,
    ),
];

/// An order, which is compared with the customer's other orders, and a map, which is counted among
/// its maps.
const BEGINNING: &str = r#"
@ map
"#;

/// A device until it is shipped, another until it is scrapped, a repeat and what is shown then.
const BY_KEYS: &str = r#"
a1 POST /v1/device {"nr":3,"chip":"00000000000a","order":"o1","map":"$DIGEST","blocks":<>}
200 {"bits":[],"chip":"00000000000a","keys":{},"map":"$DIGEST","order":"o1",
  "pending":{"batch1":$NONE,"batch2":$NONE},"reason":null,"serial":null,"state":"registered"}
a1 POST /v1/plan {"nr":4,"chip":"00000000000a","wishes":[{"kind":"bit","field":"JTAG_DISABLE","index":0}]}
200 {"batch1":{"bits":[{"block":0,"mask":"00000040","word":6}],"keys":{}},"batch2":$NONE,
  "state":"awaiting1"}
a1 POST /v1/readback {"nr":5,"chip":"00000000000a","blocks":<0.6=00000040>}
200 {"outcome":"match","rest":$NONE,"state":"settled"}
# a repeat
a1 POST /v1/readback {"nr":5,"chip":"00000000000a","blocks":<0.6=00000040>}
200 {"outcome":"match","rest":$NONE,"state":"settled"}
a1 POST /v1/identity {"nr":6,"chip":"00000000000a","public_key":"616263"}
200 {"chip":"00000000000a","issuer":"acme-ca",
  "key_sha256":"ba7816bf8f01cfea414140de5dae2223b00361a396177a9cb410ff61f20015ad","mac":null,
  "not_after":"99991231235959Z","not_before":null,"serial":"A998"}
a1 POST /v1/ship {"nr":7,"chip":"00000000000a"}
200 {"chip":"00000000000a","state":"shipped"}
a1 POST /v1/device {"nr":8,"chip":"00000000000b","order":"o1","map":"$DIGEST","blocks":<>}
200 {"bits":[],"chip":"00000000000b","keys":{},"map":"$DIGEST","order":"o1",
  "pending":{"batch1":$NONE,"batch2":$NONE},"reason":null,"serial":null,"state":"registered"}
a1 POST /v1/scrap {"nr":9,"chip":"00000000000b"}
200 {"chip":"00000000000b","state":"scrapped"}
a1 GET /v1/device?chip=00000000000a
200 {"bits":[{"block":0,"mask":"00000040","word":6}],"chip":"00000000000a","keys":{},
  "map":"$DIGEST","order":"o1","pending":{"batch1":$NONE,"batch2":$NONE},"reason":null,
  "serial":"A998","state":"shipped"}
a1 GET /v1/identity?chip=00000000000a
200 {"chip":"00000000000a","issuer":"acme-ca",
  "key_sha256":"ba7816bf8f01cfea414140de5dae2223b00361a396177a9cb410ff61f20015ad","mac":null,
  "not_after":"99991231235959Z","not_before":null,"serial":"A998"}
a1 GET /v1/order?name=o1
200 {"first":998,"issuer":"acme-ca","mac":null,"macs":0,"name":"o1","next":"A999","not_before":null,
  "prefix":"A","quantity":2,"width":3}
"#;

/// The entries of a device.
const LEDGER: &str = r#"
a1 GET /v1/ledger?chip=00000000000b
200 {"chip":"00000000000b","entries":[
  {"bits":[],"event":"registered","keys":{},"n":1,"note":"","seat":"a1"},
  {"bits":[],"event":"scrapped","keys":{},"n":2,"note":"","seat":"a1"}]}
"#;

/// The first page of devices, and the one behind the first device.
const PAGE: &str = r#"
a1 GET /v1/devices?after=
200 {"devices":[
  {"chip":"00000000000a","order":"o1","reason":null,"serial":"A998","state":"shipped"},
  {"chip":"00000000000b","order":"o1","reason":null,"serial":null,"state":"scrapped"}],"next":null}
a1 GET /v1/devices?after=00000000000a
200 {"devices":[
  {"chip":"00000000000b","order":"o1","reason":null,"serial":null,"state":"scrapped"}],"next":null}
"#;

/// Another body of the last number, a number that skips one, a device that isn't there, and a repeat.
const REFUSED: &str = r#"
a1 POST /v1/ship {"nr":9,"chip":"00000000000b"}
409 {"error":"other_body","no":12}
a1 POST /v1/ship {"nr":11,"chip":"00000000000b"}
409 {"error":"wrong_number","expected":10,"no":11}
a1 POST /v1/ship {"nr":10,"chip":"00000000000c"}
404 {"error":"unknown_device","no":15}
a1 POST /v1/scrap {"nr":9,"chip":"00000000000b"}
200 {"chip":"00000000000b","state":"scrapped"}
"#;

/// An order whose range and addresses are compared with the customer's other orders.
const WITH_ADDRESSES: &str = r#"
a1 POST /v1/order {"nr":10,"name":"o2","issuer":"acme-ca","prefix":"B","width":3,"first":1,"quantity":2,"macs":1}
200 {"first":1,"issuer":"acme-ca","mac":"020000000010","macs":1,"name":"o2","next":"B001",
  "not_before":null,"prefix":"B","quantity":2,"width":3}
"#;

/// The first number of an order is imported, with a serial number that is none of its own. What is
/// shown as next is the second.
const IMPORTED: &str = r#"
a1 POST /v1/import {"nr":11,"issuer":"acme-ca","csv":"serial,key_sha256\nB001,ca978112ca1bbdcafac231b39a23dc4da786eff8147c4e72b9807785afee48bb\nZ1,3e23e8160039594a33894f6564e1b1348bbd7a0088d42c4acb73eeaed59c009d\n"}
200 {"added":2,"present":0}
a1 GET /v1/order?name=o2
200 {"first":1,"issuer":"acme-ca","mac":"020000000010","macs":1,"name":"o2","next":"B002",
  "not_before":null,"prefix":"B","quantity":2,"width":3}
"#;

/// A report of two orders.
const FIRST_REPORT: &str = r#"
a1 GET /v1/report
csv order,quantity,registered,planned,settled,identified,shipped,quarantined,scrapped,serials_left|
  o1,2,0,0,0,0,1,0,1,1|
  o2,2,0,0,0,0,0,0,0,1|
"#;

/// A report behind another device.
const LATER_REPORT: &str = r#"
a1 POST /v1/device {"nr":12,"chip":"00000000000c","order":"o2","map":"$DIGEST","blocks":<>}
200 {"bits":[],"chip":"00000000000c","keys":{},"map":"$DIGEST","order":"o2",
  "pending":{"batch1":$NONE,"batch2":$NONE},"reason":null,"serial":null,"state":"registered"}
a1 GET /v1/report
csv order,quantity,registered,planned,settled,identified,shipped,quarantined,scrapped,serials_left|
  o1,2,0,0,0,0,1,0,1,1|
  o2,2,1,0,0,0,0,0,0,1|
"#;

/// Holds a conversation in which an allocation may be refused: the first request that is answered
/// with 503, or by the stream's end, though something was committed, or that doesn't get its reply
/// when it is sent again.
fn first_unanswered_commit(
    alloc: Global,
    keep: &mut Counted<CountingKeep>,
    conversation: &str,
) -> Result<String, Fail> {
    for exchange in exchanges(alloc, conversation)? {
        let commits = keep.keeper().commits();
        let mut found = difference_over(alloc, keep, exchange)?;
        if is_unanswered(found.as_str()) && keep.keeper().commits() == commits {
            found = difference_over(alloc, keep, exchange)?;
        }
        if !found.is_empty() {
            return Ok(found);
        }
    }
    Ok(String::new(alloc))
}

/// Wants any row, and does nothing with it.
#[derive(Drop)]
struct Nothing;

impl<R> Sink<R> for Nothing {
    ghost takes = { λ _ _ _ _. Unit {0} };

    fn take(&mut self, _row: &R) -> bool {
        true
    }
}

/// Makes a visit of each of the eight kinds.
fn visit_each<K: Keep>(keep: &mut K) -> Result<(), Fail> {
    let name = Name::parse("acme").ok_or("no name")?;
    let chip = Chip::parse("00000000000a").ok_or("no chip")?;
    let serial = Serial::parse("A998").ok_or("no serial number")?;
    keep.visit_orders(&name, &mut Nothing)?;
    keep.visit_claims(&name, &mut Nothing)?;
    keep.visit_links(&name, &mut Nothing)?;
    keep.visit_devices(&name, &mut Nothing)?;
    keep.visit_devices_behind(&name, &chip, &mut Nothing)?;
    keep.visit_given(&name, &mut Nothing)?;
    keep.visit_serials_behind(&name, &serial, &mut Nothing)?;
    keep.visit_ledger(&name, &chip, &mut Nothing)?;
    Ok(())
}

/// How many visits are counted after one of each of the eight kinds.
fn visits_of_each_kind(alloc: Global) -> Result<u64, Fail> {
    let mut keep = CountingKeep::new(alloc);
    visit_each(&mut keep)?;
    Ok(keep.visits())
}

/// Holds the parts over one keeper: the first with another reply, or with other visits or commits.
fn first_other_count(alloc: Global, keep: &mut Counted<CountingKeep>) -> Result<String, Fail> {
    for row in VISITS {
        let found = first_difference(alloc, keep, row.1)?;
        if !found.is_empty() {
            return Ok(found);
        }
        let (visits, commits) = (keep.keeper().visits(), keep.keeper().commits());
        if visits != row.2 || commits != row.3 {
            return Ok(format!(in alloc; "{}: {visits} visits, {commits} commits", row.0)?);
        }
    }
    Ok(String::new(alloc))
}

/// One request after another over one keeper that counts: an order, a map, a ledger, a page of devices,
/// a number behind imported ones and a first report are walked for, and nothing else is. What is accepted commits once, and
/// nothing else commits.
#[test]
fn only_what_is_listed_is_walked_for(rt: HostRuntime) -> Result<(), Fail> {
    let mut keep = Counted::over(rt.alloc(), CountingKeep::new(rt.alloc()));
    let found = first_other_count(rt.alloc(), &mut keep)?;
    assert_eq!(rt; found.as_str(), "");
    Ok(())
}

#[test]
fn each_kind_of_visit_counts(rt: HostRuntime) -> Result<(), Fail> {
    assert_eq!(rt; visits_of_each_kind(rt.alloc())?, 8);
    Ok(())
}

/// By hand, `rt try --test --fail-alloc N`: it holds where the server is refused an allocation.
/// None is asked for between a commit and its reply, so a request that is answered 503 has
/// committed nothing.
#[test]
fn what_is_committed_is_answered(rt: HostRuntime) -> Result<(), Fail> {
    let mut keep = Counted::over(rt.alloc(), CountingKeep::new(rt.alloc()));
    for row in VISITS {
        let found = first_unanswered_commit(rt.alloc(), &mut keep, row.1)?;
        assert_eq!(rt; found.as_str(), "", "{}", row.0);
    }
    Ok(())
}
