// Walks over the rows, for what isn't counted yet.
ghost use Rattle.std.specs.Prelude.{◌≡◌, ◌-◌, true, IfOk};
ghost use Rattle.office_tables.specs.Prelude.{ReadsOnly};
ghost use Rattle.yield_counts.specs.Counting.{AreColumnsOf};
ghost use Rattle.yield_counts.specs.Counts.{count_unused, has_issued_in};
ghost use Rattle.yield_counts.specs.Walks.{CountsDevice, TakesSerial};

use crate::columns::OrderColumns;
use crate::serials::has_serial;
use id_ranges::SerialRange;
use office_tables::{DeviceRow, Keep, Sink, Unkept};
use std::alloc::Global;
use text_core::{Name, Serial};

/// A customer's devices that were met so far.
#[derive(Drop)]
struct DeviceScan {
    orders: OrderColumns,
    /// There was no memory for a number, or no room.
    failed: Option<Unkept>,
}

impl Sink<DeviceRow> for DeviceScan {
    ghost takes = { CountsDevice };

    fn take(&mut self, row: &DeviceRow) -> bool {
        if let Err(unkept) = self.orders.add(&row.row) {
            self.failed = Some(unkept);
            return false;
        }
        true
    }
}

/// Counts a customer's devices, by one walk.
pub(crate) fn count_devices<K: Keep>(
    alloc: Global,
    keep: &mut K,
    customer: &Name,
) -> Result<OrderColumns, Unkept>
    ensures { ReadsOnly K.Keep keep.old keep.new result (λ t orders.
        AreColumnsOf customer.now t.devices orders) }
{
    let mut scan = DeviceScan {
        orders: OrderColumns::new(alloc),
        failed: None,
    };
    keep.visit_devices(customer, &mut scan)?;
    match scan.failed {
        None => Ok(scan.orders),
        Some(unkept) => Err(unkept),
    }
}

/// The serial numbers of a range, without those given ones that were met so far.
#[derive(Drop)]
struct SerialScan {
    range: SerialRange,
    last: Serial,
    left: u64,
}

impl Sink<Serial> for SerialScan {
    ghost takes = { TakesSerial };

    fn take(&mut self, serial: &Serial) -> bool {
        if self.last < *serial {
            return false;
        }
        if has_serial(&self.range, serial) {
            self.left = self.left.saturating_sub(1);
        }
        true
    }
}

/// Counts the serial numbers of a range that aren't given in an issuer: by one walk over those given
/// ones that stand between its first and its last.
pub(crate) fn count_left<K: Keep>(
    keep: &mut K,
    issuer: &Name,
    range: &SerialRange,
) -> Result<u64, Unkept>
    ensures { ReadsOnly K.Keep keep.old keep.new result (λ t left.
        left ≡ count_unused (has_issued_in t issuer.now) range.now) }
{
    keep.fact_ascending();
    let first = range.text(range.first());
    let is_given = keep.given(issuer, first.as_str())?.is_some();
    let mut scan = SerialScan {
        range: *range,
        last: range.text(range.first() + range.quantity() - 1),
        left: range.quantity() - u64::from(is_given),
    };
    keep.visit_serials_behind(issuer, &first, &mut scan)?;
    Ok(scan.left)
}
