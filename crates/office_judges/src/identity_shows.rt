// What the identities of a customer's devices show.
ghost use Rattle.std.specs.Prelude.{◌≡◌, IfOk, List, ℕ};
ghost use Rattle.http_replies.specs.Prelude.{answer_of};
ghost use Rattle.office_commands.specs.Prelude.{idevid_in, identity_body};
ghost use Rattle.office_rules.specs.Prelude.{found_or, identity_in_sight, office_sight, own_record, own_row, record_of_chip, show_reply};
ghost use Rattle.office_tables.specs.Prelude.{ReadsOnly};

use http_replies::Reply;
use office_commands::{Refusal, Show, accepted, identity_body, refused};
use office_tables::{Device, Given, GivenRow, Keep, Unkept};
use site_core::Customer;
use std::alloc::{AllocError, Global};
use text_core::{Chip, Name, Serial};

/// The record of a row, where the row is the customer's.
fn own_row(customer: &Name, given: GivenRow) -> Option<Given>
    ensures { result ≡ own_row customer.now given }
{
    if *customer == given.customer {
        Some(given.row)
    } else {
        None
    }
}

/// A record, where it is of the chip.
fn record_of_chip(chip: &Chip, given: Given) -> Option<Given>
    ensures { result ≡ record_of_chip chip.now given }
{
    match given.chip {
        Some(own) if *chip == own => Some(given),
        _ => None,
    }
}

/// A customer's record of a serial number of an issuer, if the customer has one.
fn find_record<K: Keep>(
    keep: &mut K,
    customer: &Name,
    issuer: &Name,
    serial: &Serial,
) -> Result<Option<Given>, Unkept>
    ensures { ReadsOnly K.Keep keep.old keep.new result (λ t found.
        found ≡ own_record customer.now issuer.now serial.now t) }
{
    let Some(given) = keep.given(issuer, serial.as_str())? else {
        return Ok(None);
    };
    Ok(own_row(customer, given))
}

/// The record of a device's identity, if it has one. It asks that an honest keeper is open, as it is
/// after an answer.
fn find_identity<K: Keep>(
    keep: &mut K,
    customer: &Customer,
    device: &Device,
) -> Result<Option<Given>, Unkept>
    requires { K.is_honest keep.old → K.is_open keep.old }
    ensures { ReadsOnly K.Keep keep.old keep.new result (λ t found. (seat : List ℕ) →
        found ≡ identity_in_sight (office_sight customer.now seat t) device.now) }
{
    let Some(serial) = device.serial else {
        return Ok(None);
    };
    let Some(order) = keep.order(&customer.name(), &device.order)? else {
        return Ok(None);
    };
    let Some(given) = find_record(keep, &customer.name(), &order.row.issuer, &serial)? else {
        return Ok(None);
    };
    Ok(record_of_chip(&device.chip, given))
}

/// The reply that shows the identity of a chip by its record, or that the device has none.
fn identity_reply(alloc: Global, chip: &Chip, found: Option<Given>) -> Result<Reply, AllocError>
    ensures { IfOk result (λ reply. answer_of reply
        ≡ found_or Refusal.WrongState (λ g. identity_body chip.now (idevid_in g)) found) }
{
    match found {
        Some(given) => Ok(accepted(identity_body(alloc, chip, &given)?)),
        None => refused(alloc, Refusal::WrongState),
    }
}

/// Shows the identity of a customer's device, as it was given, or refuses one of a device that isn't
/// there or that has none.
pub fn show_identity<K: Keep>(
    alloc: Global,
    keep: &mut K,
    customer: &Customer,
    chip: &Chip,
) -> Result<Reply, Unkept>
    ensures { ReadsOnly K.Keep keep.old keep.new result (λ t reply.
        (seat : List ℕ) → answer_of reply ≡
        show_reply (office_sight customer.now seat t) (Show.Identity chip.now)) }
{
    let Some(device) = keep.device(&customer.name(), chip)? else {
        return Ok(refused(alloc, Refusal::UnknownDevice)?);
    };
    let found = find_identity(keep, customer, &device.row)?;
    Ok(identity_reply(alloc, chip, found)?)
}
