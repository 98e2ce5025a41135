// The devices of the customers that were counted.
ghost use Rattle.std.specs.Prelude.{◌≡◌, List, Some, IfSome, find, option_map};
ghost use Rattle.office_tables.specs.declared.rows.OfCustomer.{OfCustomer};
ghost use Rattle.office_tables.specs.declared.rows.Device.{Device};
ghost use Rattle.office_tables.specs.Prelude.{device_cmp, is_device, with_row, IsAscending};
ghost use Rattle.yield_counts.specs.Counting.{columns_at, columns_known, AreColumnsOf, AreCounted};

use crate::columns::OrderColumns;
use crate::count::Columns;
use office_tables::{Device, DeviceRow};
use std::alloc::Global;
use std::collections::BTreeMap;
use text_core::Name;

/// The devices of the customers that were counted. Those of another customer are to be counted.
#[derive(Drop)]
pub(crate) struct DeviceCounts {
    customers: BTreeMap<Name, OrderColumns>,
}

/// The device of a customer's row, if there is one.
fn row_of(row: Option<DeviceRow>) -> Option<Device>
    ensures { result ≡ option_map (λ d. d.row) row }
{
    match row {
        Some(row) => Some(row.row),
        None => None,
    }
}

impl DeviceCounts {
    /// No customer was counted. This takes no memory.
    pub(crate) fn new(alloc: Global) -> DeviceCounts
        ensures { (rows : List (OfCustomer Device)) → AreCounted rows result }
    {
        DeviceCounts {
            customers: BTreeMap::new(alloc),
        }
    }

    /// How many devices of a customer's order are in each column, if the customer was counted.
    pub(crate) fn of_order(&self, customer: &Name, order: &Name) -> Option<Columns>
        ensures { result ≡ columns_known customer.now order.now self.now }
    {
        match self.customers.get(customer) {
            Some(orders) => Some(orders.of_order(order)),
            None => None,
        }
    }

    /// Keeps the devices of a customer, if there is memory for it.
    pub(crate) fn keep(&mut self, customer: &Name, orders: OrderColumns)
        ensures { (rows : List (OfCustomer Device)) → AreCounted rows self.old
            → AreColumnsOf customer.now rows orders → AreCounted rows self.new }
    {
        match self.customers.insert(*customer, orders) {
            Ok(_) => {}
            Err(_) => {}
        }
    }

    /// Forgets all customers. This takes no memory.
    pub(crate) fn clear(&mut self)
        ensures { (rows : List (OfCustomer Device)) → AreCounted rows self.new }
    {
        self.customers.clear();
    }

    /// Counts a device that was written, and no longer the one that it took the place of. Where there
    /// is no memory for it, its customer is to be counted anew.
    pub(crate) fn put(&mut self, row: &DeviceRow, replaced: Option<DeviceRow>)
        ensures { (rows : List (OfCustomer Device)) → IsAscending device_cmp rows
            → replaced ≡ find (is_device row.now.customer row.now.row.chip) rows
            → AreCounted rows self.old → AreCounted (with_row device_cmp row.now rows) self.new }
    {
        let Some(mut orders) = self.customers.remove(&row.customer) else {
            return;
        };
        if let Ok(()) = orders.put(&row.row, row_of(replaced)) {
            self.keep(&row.customer, orders);
        }
    }
}
