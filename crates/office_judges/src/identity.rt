// The identities of devices.
ghost use Rattle.std.specs.Prelude.{◌≡◌, IfOk, Some};
ghost use Rattle.office_tables.specs.Prelude.{ReadsOnly, is_one_of, order_at};
ghost use Rattle.office_rules.specs.Prelude.{identified_from, first_address, step_of_identity};
ghost use Rattle.office_judges.specs.Prelude.{IsIdentified, IsNextNumber, numbered, IsJudged, Judges};

use crate::Accepted;
use crate::found_device::{find_device, map_of};
use crate::records::row_of;
use crate::serials::find_next;
use crate::steps::{accept_step, without_addition};
use fusemap_core::FuseMap;
use id_ranges::{IdevidRecord, KeyDigest, Mac};
use office_commands::{Change, NewIdentity, Refusal, identity_body};
use office_rules::DeviceStep;
use office_tables::{
    Cursor, Device, DeviceState, Event, Keep, OfCustomer, Order, OrderRow, Unkept, Write,
};
use site_core::Customer;
use std::alloc::Global;
use text_core::{Name, Serial};

/// How many hardware addresses there are: 2^48.
const ADDRESSES: u64 = 0x1_0000_0000_0000;

/// What a device gets with a number of its order.
#[derive(Drop)]
pub struct Numbered {
    /// The device's record.
    pub idevid: IdevidRecord,
    /// The order's cursor, above the number.
    pub cursor: Cursor,
}

/// The order of a device. It fails where it isn't there, which sound tables exclude.
fn order_of<K: Keep>(keep: &mut K, customer: &Customer, device: &Device) -> Result<OrderRow, Unkept>
    ensures { ReadsOnly K.Keep keep.old keep.new result (λ t order.
        order_at customer.now.name device.now.order t ≡ Some order) }
{
    keep.order(&customer.name(), &device.order)?
        .ok_or(Unkept::without_error())
}

/// Whether a device is identified from this state: a settled one is.
fn is_identified_from(state: DeviceState) -> bool
    ensures { result ≡ is_one_of identified_from state }
{
    matches!(state, DeviceState::Settled)
}

/// The first of the addresses that a number of an order owns. `None` where the order has none. It
/// fails where there is no such address, which sound tables exclude.
fn first_address(order: &Order, number: u64) -> Result<Option<Mac>, Unkept>
    ensures { IfOk result (λ mac. mac ≡ first_address order.now number) }
{
    let Some(start) = order.mac else {
        return Ok(None);
    };
    let place = number.saturating_sub(order.range.first());
    let offset = place
        .checked_mul(u64::from(order.macs))
        .ok_or(Unkept::without_error())?;
    match start.value().checked_add(offset) {
        Some(value) if value < ADDRESSES => Ok(Some(Mac::new(value))),
        _ => Err(Unkept::without_error()),
    }
}

/// What a device gets with this number of its order.
fn with_number(
    order: &Order,
    number: u64,
    serial: Serial,
    key: KeyDigest,
) -> Result<Numbered, Unkept>
    ensures { IfOk result (λ n. n ≡ numbered order.now (number, serial) key) }
{
    let mac = first_address(order, number)?;
    let above = number.checked_add(1).ok_or(Unkept::without_error())?;
    Ok(Numbered {
        idevid: IdevidRecord::of(order.issuer, serial, key, mac, order.not_before),
        cursor: Cursor {
            order: order.name,
            number: above,
        },
    })
}

/// What a device gets with the next number of its order, or the lowest refusal of it.
fn next_number<K: Keep>(
    keep: &mut K,
    device: &Device,
    order: &Order,
    key: &KeyDigest,
) -> Result<Numbered, Refusal>
    requires { K.is_honest keep.old → K.is_open keep.old }
    ensures { Judges K.Keep keep.old keep.new result (λ t next.
        IsNextNumber t device.now order.now key.now next) }
{
    if !is_identified_from(device.state) {
        return Err(Refusal::WrongState);
    }
    let (number, serial) = find_next(keep, order)?.ok_or(Refusal::Exhausted)?;
    if keep.given_by_key(&order.issuer, key)?.is_some() {
        return Err(Refusal::KeyBound);
    }
    Ok(with_number(order, number, serial, *key)?)
}

/// The step that gives a device its serial number.
fn step_of_identity(map: &FuseMap, device: &Device, serial: Serial) -> DeviceStep
    ensures { result ≡ step_of_identity serial map.now device.now }
{
    let device = Device {
        state: DeviceState::Identified,
        serial: Some(serial),
        ..*device
    };
    without_addition(map, Event::Identified(serial), device)
}

/// The identity of a device that gets this: its step, its record and the cursor of its order, with
/// the body that shows the record.
fn accept_identity<K: Keep>(
    alloc: Global,
    keep: &mut K,
    customer: &Customer,
    seat: &Name,
    map: &FuseMap,
    device: &Device,
    next: &Numbered,
) -> Result<Accepted, Unkept>
    ensures { ReadsOnly K.Keep keep.old keep.new result (λ t accepted.
        IsIdentified customer.now seat.now t map.now device.now next.now accepted) }
{
    let row = row_of(&next.idevid, Some(device.chip));
    let body = identity_body(alloc, &device.chip, &row)?;
    let step = step_of_identity(map, device, next.idevid.serial());
    let Accepted { body, mut writes } = accept_step(alloc, keep, customer, seat, &step, body)?;
    let customer = customer.name();
    writes.push(Write::AddGiven(OfCustomer { customer, row }))?;
    writes.push(Write::SetCursor(OfCustomer {
        customer,
        row: next.cursor,
    }))?;
    Ok(Accepted { body, writes })
}

/// What the identity of a device comes to: the lowest refusal that holds, or the device with the
/// least serial number of its order that isn't given in its issuer, its record, an entry of its
/// ledger and the body that shows the record. It reads only. `Refusal::Unkept` is want of memory or
/// a failing store.
pub(crate) fn judge_identity<K: Keep>(
    alloc: Global,
    keep: &mut K,
    customer: &Customer,
    seat: &Name,
    identity: &NewIdentity,
) -> Result<Accepted, Refusal>
    ensures { Judges K.Keep keep.old keep.new result (λ t judgement.
        IsJudged customer.now seat.now t (Change.Identify identity.now) judgement) }
{
    let found = find_device(keep, customer, &identity.chip)?.ok_or(Refusal::UnknownDevice)?;
    let map = map_of(&found)?;
    let order = order_of(keep, customer, &found.device)?;
    let next = next_number(keep, &found.device, &order.row, &identity.key)?;
    Ok(accept_identity(alloc, keep, customer, seat, map, &found.device, &next)?)
}
