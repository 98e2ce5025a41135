// A customer's devices, counted by order and column of states.
ghost use Rattle.std.specs.Prelude.{◌≡◌, ◌+◌, ◌-◌, ℕ, List, OnOk, bytes_eq, if◌then◌else◌, slice_set};
ghost use Rattle.yield_counts.specs.Counting.{columns_at, count_at, in_column, taken_in_column, with_one};

use crate::count::{COLUMNS, Columns};
use office_tables::{Device, DeviceState, Unkept, one_more};
use std::alloc::Global;
use std::collections::BTreeMap;
use text_core::Name;

/// How many of a customer's devices are in each column of states, by order. Where there are no
/// numbers of an order, it has no devices.
#[derive(Drop)]
pub(crate) struct OrderColumns {
    orders: BTreeMap<Name, Columns>,
}

/// The numbers with one device more in a state. `None` where the tables have no room for its number.
fn with_one(numbers: &Columns, state: DeviceState) -> Option<Columns>
    ensures { result ≡ with_one state numbers.now }
{
    let column = state.row().column;
    let mut counted = *numbers;
    counted[column] = one_more(numbers[column])?;
    Some(counted)
}

impl OrderColumns {
    /// No devices. This takes no memory.
    pub(crate) fn new(alloc: Global) -> OrderColumns
        ensures { (order : List ℕ) (column : ℕ) → count_at order column result ≡ 0 }
    {
        OrderColumns {
            orders: BTreeMap::new(alloc),
        }
    }

    /// How many devices of an order are in each column.
    pub(crate) fn of_order(&self, order: &Name) -> Columns
        ensures { result ≡ columns_at order.now self.now }
    {
        self.orders.get(order).copied().unwrap_or([0; COLUMNS])
    }

    /// Sets the numbers of an order.
    fn set(&mut self, order: &Name, numbers: Columns) -> Result<(), Unkept>
        ensures { OnOk result ((o : List ℕ) → columns_at o self.new
            ≡ (if bytes_eq o order.now then numbers else columns_at o self.old)) }
    {
        self.orders.insert(*order, numbers)?;
        Ok(())
    }

    /// Counts one more device.
    pub(crate) fn add(&mut self, device: &Device) -> Result<(), Unkept>
        ensures { OnOk result ((order : List ℕ) (column : ℕ) → count_at order column self.new
            ≡ count_at order column self.old + in_column order column device.now) }
    {
        let Some(numbers) = with_one(&self.of_order(&device.order), device.state) else {
            return Err(Unkept::without_error());
        };
        self.set(&device.order, numbers)
    }

    /// Counts one device less.
    fn remove(&mut self, device: &Device) -> Result<(), Unkept>
        ensures { OnOk result ((order : List ℕ) (column : ℕ) → count_at order column self.new
            ≡ count_at order column self.old - in_column order column device.now) }
    {
        let mut numbers = self.of_order(&device.order);
        let column = device.state.row().column;
        numbers[column] = numbers[column].saturating_sub(1);
        self.set(&device.order, numbers)
    }

    /// Counts a device, and no longer the one that it took the place of.
    pub(crate) fn put(&mut self, device: &Device, replaced: Option<Device>) -> Result<(), Unkept>
        ensures { OnOk result ((order : List ℕ) (column : ℕ) → count_at order column self.new
            ≡ count_at order column self.old + in_column order column device.now
            - taken_in_column order column replaced) }
    {
        self.add(device)?;
        if let Some(old) = replaced {
            self.remove(&old)?;
        }
        Ok(())
    }
}
