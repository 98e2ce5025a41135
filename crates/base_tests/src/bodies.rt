//! Refusals, and the bodies that answer orders, identities, shipped and scrapped devices and imports.

use crate::replies::difference;
use fuse_plan::PlanFault;
use id_ranges::{KeyDigest, Mac, NotBefore, SerialRange};
use office_commands::{Refusal, identity_body, import_body, order_body, refused, state_body};
use office_tables::{DeviceState, Given, Order};
use std::alloc::Global;
use std::str;
use std::test::Fail;
use text_core::{Chip, Name, Serial, Time};

/// The numbers of refusals, with their status and their body.
const REFUSALS: &[(u8, u16, &str)] = &[
    (11, 409, r#"{"error":"wrong_number","expected":7,"no":11}"#),
    (28, 422, r#"{"error":"no_lock","no":28}"#),
    (29, 422, r#"{"error":"bad_map","fault":8,"no":29}"#),
    (30, 422, r#"{"error":"bad_serial","no":30}"#),
    (32, 409, r#"{"error":"exhausted","no":32}"#),
    (35, 409, r#"{"error":"key_bound","no":35}"#),
    (
        38,
        409,
        r#"{"error":"import_conflict","no":38,"serial":"Z2"}"#,
    ),
    (42, 422, r#"{"error":"bad_not_before","no":42}"#),
];

const ORDER: &str = r#"
{"first":998,"issuer":"acme-ca","mac":null,"macs":0,"name":"o1","next":"A998","not_before":null,
  "prefix":"A","quantity":2,"width":3}
"#;

const FULL_ORDER: &str = r#"
{"first":998,"issuer":"acme-ca","mac":"020000000010","macs":2,"name":"o1","next":null,
  "not_before":"20240229120000Z","prefix":"A","quantity":2,"width":3}
"#;

const IDENTITY: &str = r#"
{"chip":"00000000000a","issuer":"acme-ca",
  "key_sha256":"ba7816bf8f01cfea414140de5dae2223b00361a396177a9cb410ff61f20015ad","mac":null,
  "not_after":"99991231235959Z","not_before":null,"serial":"A998"}
"#;

const ADDRESSED: &str = r#"
{"chip":"00000000000a","issuer":"acme-ca",
  "key_sha256":"ba7816bf8f01cfea414140de5dae2223b00361a396177a9cb410ff61f20015ad",
  "mac":"020000000010","not_after":"99991231235959Z","not_before":"20240229120000Z","serial":"A998"}
"#;

/// Where a device stands, and the body that tells it.
const STATES: &[(DeviceState, &str)] = &[
    (
        DeviceState::Shipped,
        r#"{"chip":"00000000000a","state":"shipped"}"#,
    ),
    (
        DeviceState::Scrapped,
        r#"{"chip":"00000000000a","state":"scrapped"}"#,
    ),
];

/// Serial numbers that an import gave and those that were given already, and the body.
const COUNTS: &[(u64, u64, &str)] = &[
    (1, 0, r#"{"added":1,"present":0}"#),
    (0, 500, r#"{"added":0,"present":500}"#),
];

/// The refusal of a number.
fn refusal(number: u8) -> Option<Refusal> {
    match number {
        11 => Some(Refusal::WrongNumber(7)),
        28 => Some(Refusal::BadPlan(PlanFault::NoLock)),
        29 => Some(Refusal::BadMap(8)),
        30 => Some(Refusal::BadSerial),
        32 => Some(Refusal::Exhausted),
        35 => Some(Refusal::KeyBound),
        38 => Some(Refusal::ImportConflict(Serial::parse("Z2")?)),
        42 => Some(Refusal::BadNotBefore),
        _ => None,
    }
}

/// What differs where the refusal of a number is answered.
fn difference_of_refusal(
    alloc: Global,
    number: u8,
    status: u16,
    wanted: &str,
) -> Result<String, Fail> {
    let reply = refused(alloc, refusal(number).ok_or("no refusal")?)?;
    let body = str::from_utf8(reply.body.as_bytes()).unwrap_or("no text");
    if reply.status.code() != status {
        return Ok(format!(in alloc; "{status} -> {} {body}", reply.status.code())?);
    }
    difference(alloc, wanted, body)
}

/// An order of two serial numbers, without addresses and a beginning of validity.
fn open_order() -> Option<Order> {
    Some(Order {
        name: Name::parse("o1")?,
        issuer: Name::parse("acme-ca")?,
        range: SerialRange::new("A", 3, 998, 2).ok()?,
        macs: 0,
        mac: None,
        cursor: 998,
        not_before: None,
    })
}

/// An order with addresses and a beginning of validity, all of whose serial numbers are given.
fn full_order(order: Order) -> Option<Order> {
    Some(Order {
        macs: 2,
        mac: Some(Mac::parse("020000000010")?),
        cursor: 1000,
        not_before: NotBefore::read("20240229120000Z").ok(),
        ..order
    })
}

/// What differs first where orders are shown, with a next serial number and without one, and so
/// without a beginning of validity and with one.
fn difference_of_orders(alloc: Global) -> Result<String, Fail> {
    let order = open_order().ok_or("no order")?;
    let body = order_body(alloc, &order, Some("A998"))?;
    let found = difference(alloc, ORDER, body.as_str())?;
    if !found.is_empty() {
        return Ok(found);
    }
    let full = full_order(order).ok_or("no order")?;
    let body = order_body(alloc, &full, None)?;
    difference(alloc, FULL_ORDER, body.as_str())
}

/// The row of an identity's record.
fn given(mac: Option<Mac>, not_before: Option<NotBefore>) -> Option<Given> {
    Some(Given {
        issuer: Name::parse("acme-ca")?,
        serial: Serial::parse("A998")?,
        key: KeyDigest::of(b"abc"),
        chip: Chip::parse("00000000000a"),
        mac,
        not_after: Time::no_end(),
        not_before,
    })
}

/// What differs where an identity is shown.
fn difference_of_identity(
    alloc: Global,
    mac: Option<Mac>,
    not_before: Option<NotBefore>,
    wanted: &str,
) -> Result<String, Fail> {
    let given = given(mac, not_before).ok_or("no record")?;
    let chip = Chip::parse("00000000000a").ok_or("no chip")?;
    let body = identity_body(alloc, &chip, &given)?;
    difference(alloc, wanted, body.as_str())
}

/// What differs first where identities are shown, without an address and a beginning of validity
/// and with both.
fn difference_of_identities(alloc: Global) -> Result<String, Fail> {
    let found = difference_of_identity(alloc, None, None, IDENTITY)?;
    if !found.is_empty() {
        return Ok(found);
    }
    let mac = Mac::parse("020000000010").ok_or("no address")?;
    let not_before = NotBefore::read("20240229120000Z").map_err(|_| "no beginning")?;
    difference_of_identity(alloc, Some(mac), Some(not_before), ADDRESSED)
}

/// What differs where a device's state is told.
fn difference_of_state(alloc: Global, state: DeviceState, wanted: &str) -> Result<String, Fail> {
    let chip = Chip::parse("00000000000a").ok_or("no chip")?;
    let body = state_body(alloc, &chip, state)?;
    difference(alloc, wanted, body.as_str())
}

/// What differs where an import's counts are told.
fn difference_of_import(
    alloc: Global,
    added: u64,
    present: u64,
    wanted: &str,
) -> Result<String, Fail> {
    let body = import_body(alloc, added, present)?;
    difference(alloc, wanted, body.as_str())
}

#[test]
fn answers_refusals(rt: HostRuntime) -> Result<(), Fail> {
    let alloc = rt.alloc();
    for row in REFUSALS {
        let found = difference_of_refusal(alloc, row.0, row.1, row.2)?;
        assert_eq!(rt; found.as_str(), "");
    }
    Ok(())
}

#[test]
fn shows_orders_and_identities(rt: HostRuntime) -> Result<(), Fail> {
    let alloc = rt.alloc();
    for row in STATES {
        assert_eq!(rt; difference_of_state(alloc, row.0, row.1)?.as_str(), "");
    }
    for row in COUNTS {
        assert_eq!(rt;
            difference_of_import(alloc, row.0, row.1, row.2)?.as_str(),
            ""
        );
    }
    assert_eq!(rt; difference_of_orders(alloc)?.as_str(), "");
    assert_eq!(rt; difference_of_identities(alloc)?.as_str(), "");
    Ok(())
}
