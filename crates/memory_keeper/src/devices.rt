// The devices of all customers.
ghost use Rattle.std.specs.Prelude.{◌≡◌, [], filter, find, OnOk, OnErr, OnSome, IfSome, IfNone, Some, option_copied};
ghost use Rattle.office_tables.specs.Prelude.{Visits, places_taken, device_cmp, is_device, is_device_behind, is_of, rows_of, with_row, IsAscending};
ghost use Rattle.memory_keeper.specs.Counting.{CountsPlace};
ghost use Rattle.memory_keeper.specs.Unplaced.{unplaced, without};

use crate::rows::DeviceKey;
use crate::table::Table;
use office_tables::{DeviceRow, Sink, Unkept};
use std::alloc::Global;
use std::marker::Model;
use text_core::{Chip, Name};

/// How many devices of an order a walk has met that take a place of it, as far as 64 bits count.
#[derive(Drop)]
struct PlaceScan {
    order: Name,
    taken: u64,
}

impl Sink<DeviceRow> for PlaceScan {
    ghost takes = { CountsPlace };

    fn take(&mut self, row: &DeviceRow) -> bool {
        if row.row.order == self.order && !row.row.state.is_given_up() {
            self.taken = self.taken.saturating_add(1);
        }
        true
    }
}

/// The devices.
#[derive(Drop)]
pub(crate) struct Devices {
    rows: Table<DeviceRow>,
}

impl Model for Devices {
    ghost use Rattle.std.specs.Prelude.{ℕ, List};
    ghost use Rattle.office_tables.specs.declared.rows.OfCustomer.{OfCustomer};
    ghost use Rattle.office_tables.specs.declared.rows.Device.{Device};

    ghost Value = { List (OfCustomer Device) };

    ghost view = { λ d. d.rows };
}

impl Devices {
    /// No devices.
    pub(crate) fn new(alloc: Global) -> Devices
        ensures { result ≡ [] }
    {
        Devices {
            rows: Table::new(alloc),
        }
    }

    /// The devices stand in the order of their keys. It does nothing.
    pub(crate) fn fact_ascending(&self)
        ensures { IsAscending device_cmp self.now }
    {
        self.rows.fact_ascending();
    }

    /// A customer's device.
    pub(crate) fn get(&self, customer: &Name, chip: &Chip) -> Option<&DeviceRow>
        ensures { option_copied result ≡ find (is_device customer.now chip.now) self.now }
    {
        self.rows.get(&DeviceKey::of_row(*customer, *chip))
    }

    /// How many of a customer's devices take a place of an order, by a walk over them.
    pub(crate) fn places_taken(&self, customer: &Name, order: &Name) -> u64
        ensures { result ≡ places_taken order.now (rows_of customer.now self.now) }
    {
        // The walk meets no more devices than there are rows, so 64 bits count them.
        let _count = self.rows.len();
        let mut scan = PlaceScan {
            order: *order,
            taken: 0,
        };
        self.visit(customer, &mut scan);
        scan.taken
    }

    /// Adds a device. One that is there stays as it is.
    pub(crate) fn add(&mut self, row: &DeviceRow) -> Result<(), Unkept>
        ensures placed { OnOk result (self.new ≡ with_row device_cmp row.now self.old) }
        ensures undone { OnOk result (without (is_device row.now.customer row.now.row.chip) self.new
            ≡ self.old) }
        ensures err { OnErr result (self.new ≡ self.old) }
    {
        if self.get(&row.customer, &row.row.chip).is_some() {
            return Err(Unkept::without_error());
        }
        self.rows.insert(*row)?;
        Ok(())
    }

    /// Puts a device in place of the one that has its chip, and gives that one. Where there is none,
    /// nothing changes. This takes no memory.
    pub(crate) fn replace(&mut self, row: &DeviceRow) -> Option<DeviceRow>
        ensures placed { OnSome result (self.new ≡ with_row device_cmp row.now self.old) }
        ensures undone { IfSome result (λ old. unplaced device_cmp old (Some old) self.new
            ≡ self.old) }
        ensures other_rows { self.new ≡ unplaced device_cmp row.now (Some row.now) self.old }
        ensures none { IfNone result (self.new ≡ self.old) }
    {
        let old = self.rows.replace(*row)?;
        Some(old)
    }

    /// Takes a device out again. This takes no memory.
    pub(crate) fn remove(&mut self, customer: &Name, chip: &Chip)
        ensures { self.new ≡ without (is_device customer.now chip.now) self.old }
    {
        self.rows.remove(&DeviceKey::of_row(*customer, *chip));
    }

    /// Hands a customer's devices to the sink, in the order of their chips, while it goes on.
    pub(crate) fn visit<S: Sink<DeviceRow>>(&self, customer: &Name, sink: &mut S)
        ensures { Visits S.takes sink.old (filter (is_of customer.now) self.now) sink.new }
    {
        let first = DeviceKey::start(customer);
        let last = DeviceKey::end(customer);
        self.rows.visit(first, last, sink);
    }

    /// Hands those of a customer's devices whose chips come behind one to the sink, in the order of
    /// their chips, while it goes on.
    pub(crate) fn visit_behind<S: Sink<DeviceRow>>(
        &self,
        customer: &Name,
        chip: &Chip,
        sink: &mut S,
    )
        ensures { Visits S.takes sink.old (filter (is_device_behind customer.now chip.now) self.now)
            sink.new }
    {
        let first = DeviceKey::of_row(*customer, *chip);
        let last = DeviceKey::end(customer);
        self.rows.visit_behind(first, last, sink);
    }
}
