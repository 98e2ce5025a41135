// What a list of writes makes of what is counted.
ghost use Rattle.std.specs.Prelude.{◌≡◌, List, filter_map, find, IfSome, option_copied};
ghost use Rattle.office_tables.specs.declared.rows.OfCustomer.{OfCustomer};
ghost use Rattle.office_tables.specs.declared.rows.Device.{Device};
ghost use Rattle.office_tables.specs.declared.rows.Write.{Write};
ghost use Rattle.office_tables.specs.Prelude.{device_cmp, is_device, CanWrite, IsAscending, IsFree, Tables, Writes, Written};
ghost use Rattle.yield_counts.specs.Counting.{AreCounted};
ghost use Rattle.yield_counts.specs.Counts.{has_issued_in};
ghost use Rattle.yield_counts.specs.Left.{AreLeft};
ghost use Rattle.yield_counts.specs.Changes.{put_of, AreAmong, IsAnswerOf, IsChangeOf};

use crate::devices::DeviceCounts;
use crate::left::LeftCounts;
use office_tables::{DeviceRow, Write};
use text_core::{Chip, Name};

/// The devices that a list of writes puts, as far as that is known.
#[derive(Clone, Copy, Drop)]
pub(crate) enum PutDevices<'a> {
    Nothing,
    One(&'a DeviceRow),
    Several,
}

/// The device that a write puts.
fn device_in(write: &Write) -> Option<&DeviceRow>
    ensures { option_copied result ≡ put_of write.now }
{
    match write {
        Write::AddDevice(device) => Some(device.get()),
        Write::PutDevice(device) => Some(device.get()),
        _ => None,
    }
}

/// The devices that the writes put.
fn devices_in(writes: &[Write]) -> PutDevices<'_>
    ensures { AreAmong result (filter_map put_of writes.now) }
{
    let mut found = None;
    for write in writes {
        if let Some(row) = device_in(write) {
            if found.is_some() {
                return PutDevices::Several;
            }
            found = Some(row);
        }
    }
    match found {
        Some(row) => PutDevices::One(row),
        None => PutDevices::Nothing,
    }
}

/// What the tables have for the device of a customer's chip.
#[derive(Clone, Copy, Drop)]
pub(crate) struct DeviceAnswer {
    pub(crate) customer: Name,
    pub(crate) chip: Chip,
    pub(crate) row: Option<DeviceRow>,
}

/// The row with the key of a device, if that is what the answer is of.
fn known_row(answer: &Option<DeviceAnswer>, device: &DeviceRow) -> Option<Option<DeviceRow>>
    ensures { (rows : List (OfCustomer Device)) → IsAnswerOf answer.now rows
        → IfSome result (λ row. row
        ≡ find (is_device device.now.customer device.now.row.chip) rows) }
{
    match answer {
        Some(answer) if answer.customer == device.customer && answer.chip == device.row.chip =>
            Some(answer.row),
        _ => None,
    }
}

/// The devices that the writes put, and in the place of which one, by the answer that is known.
pub(crate) fn change_of<'a>(
    writes: &'a [Write],
    answer: &Option<DeviceAnswer>,
) -> (PutDevices<'a>, Option<DeviceRow>)
    ensures { (rows : List (OfCustomer Device)) → IsAnswerOf answer.now rows
        → IsChangeOf writes.now rows result.0 result.1 }
{
    let put = devices_in(writes);
    let PutDevices::One(row) = put else {
        return (put, None);
    };
    match known_row(answer, row) {
        Some(old) => (put, old),
        None => (PutDevices::Several, None),
    }
}

/// Counts what the writes made of the devices.
pub(crate) fn follow_devices(counts: &mut DeviceCounts, put: PutDevices<'_>, old: Option<DeviceRow>)
    ensures { (writes : List Write) (t after : Tables) → IsAscending device_cmp t.devices
        → IsChangeOf writes t.devices put.entry old → Written writes t after
        → AreCounted t.devices counts.old → AreCounted after.devices counts.new }
{
    match put {
        PutDevices::Nothing => {}
        PutDevices::One(row) => counts.put(row, old),
        PutDevices::Several => counts.clear(),
    }
}

/// Counts the serial number that a write gave, if it gave one.
fn follow_write(counts: &mut LeftCounts, write: &Write)
    ensures { (t after : Tables) → IsFree write.now t → Writes write.now t after
        → AreLeft (has_issued_in t) counts.old → AreLeft (has_issued_in after) counts.new }
{
    if let Write::AddGiven(row) = write {
        counts.take(&row.row.issuer, &row.row.serial);
    }
}

/// Counts the serial numbers that the writes gave.
pub(crate) fn follow_given(counts: &mut LeftCounts, writes: &[Write])
    ensures { (t after : Tables) → CanWrite writes.now t → Written writes.now t after
        → AreLeft (has_issued_in t) counts.old → AreLeft (has_issued_in after) counts.new }
{
    for write in writes {
        follow_write(counts, write);
    }
}
