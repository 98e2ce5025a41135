// A keeper that counts.
ghost use Rattle.std.specs.Prelude.{◌≡◌, ℕ, slice_index};
ghost use Rattle.office_tables.specs.Prelude.{ReadsOnly};
ghost use Rattle.yield_counts.specs.Counting.{count_of};
ghost use Rattle.yield_counts.specs.Counts.{count_unused, has_issued_in};

use crate::count::{Columns, Count, OrderCounts, places_in};
use crate::devices::DeviceCounts;
use crate::left::LeftCounts;
use crate::walks::{count_devices, count_left};
use crate::written::{DeviceAnswer, change_of, follow_devices, follow_given};
use fusemap_core::FuseMap;
use id_ranges::{KeyDigest, SerialRange};
use office_tables::{
    DeviceRow, EntryRow, GivenRow, Keep, LinkRow, MapRow, OrderClaim, OrderRow, SeatRow, Sink,
    Unkept, Write,
};
use std::alloc::Global;
use std::marker::Model;
use text_core::{Chip, Digest, Name, Serial};

/// A keeper over another one, which counts with each commit what has become of the devices and the
/// serial numbers of orders.
#[derive(Drop)]
pub struct Counted<K: Keep> {
    keep: K,
    alloc: Global,
    devices: DeviceCounts,
    left: LeftCounts,
    /// What the keeper answered last of a device, until the next commit.
    answer: Option<DeviceAnswer>,
}

// What is counted is right while the keeper is open.
impl<K: Keep> Model for Counted<K> {
    ghost use Rattle.yield_counts.specs.Kept.{AreKept};

    ghost Value = { K };

    ghost view = { λ c. c.keep };

    ghost invariant = { λ c. K.is_open c.keep → AreKept (K.tables c.keep) c.devices c.left c.answer };
}

impl<K: Keep> Counted<K> {
    /// Over a keeper.
    pub fn over(alloc: Global, keep: K) -> Counted<K>
        ensures { result ≡ keep }
    {
        Counted {
            keep,
            alloc,
            devices: DeviceCounts::new(alloc),
            left: LeftCounts::new(alloc),
            answer: None,
        }
    }

    /// The keeper, as it stands.
    pub fn keeper(&self) -> &K
        ensures { result.now ≡ self.now }
    {
        &self.keep
    }

    /// The keeper, with which the counts end.
    pub fn into_keep(self) -> K
        ensures { result ≡ self }
    {
        let Counted {
            keep,
            alloc: _,
            devices: _,
            left: _,
            answer: _,
        } = self;
        keep
    }
}

impl<K: Keep> Counted<K> {
    /// How many devices of a customer's order are in each column of states. Where the customer wasn't
    /// counted, all its devices are, and their numbers kept, if there is memory for them.
    fn columns(&mut self, customer: &Name, order: &Name) -> Result<Columns, Unkept>
        requires open { K.is_honest self.old → K.is_open self.old }
        ensures { ReadsOnly K.Keep self.old self.new result (λ t numbers. (column : ℕ)
            → slice_index numbers column
            ≡ count_of customer.now order.now column t.devices) }
    {
        if let Some(numbers) = self.devices.of_order(customer, order) {
            return Ok(numbers);
        }
        let orders = count_devices(self.alloc, &mut self.keep, customer)?;
        let numbers = orders.of_order(order);
        self.devices.keep(customer, orders);
        Ok(numbers)
    }

    /// How many serial numbers of a range aren't given in an issuer. Where the range wasn't counted,
    /// it is, and its number kept, if there is memory for it.
    fn unused(&mut self, issuer: &Name, range: &SerialRange) -> Result<u64, Unkept>
        requires open { K.is_honest self.old → K.is_open self.old }
        ensures { ReadsOnly K.Keep self.old self.new result (λ t left.
            left ≡ count_unused (has_issued_in t issuer.now) range.now) }
    {
        if let Some(left) = self.left.of_range(issuer, range) {
            return Ok(left);
        }
        let left = count_left(&mut self.keep, issuer, range)?;
        self.left.keep(issuer, range, left);
        Ok(left)
    }
}

impl<K: Keep> Count for Counted<K> {
    fn count_order(
        &mut self,
        customer: &Name,
        order: &Name,
        issuer: &Name,
        range: &SerialRange,
    ) -> Result<OrderCounts, Unkept> {
        // A store that is shut tells nothing.
        self.keep.map(0)?;
        Ok(OrderCounts {
            devices: self.columns(customer, order)?,
            left: self.unused(issuer, range)?,
        })
    }
}

// Each call is the keeper's. A commit is counted too.
impl<K: Keep> Keep for Counted<K> {
    ghost tables = { K.tables };

    ghost is_open = { K.is_open };

    ghost is_honest = { K.is_honest };

    ghost may_leave = { K.may_leave };

    ghost tells_text = { K.tells_text };

    ghost commits = { K.commits };

    ghost has_just_committed = { K.has_just_committed };

    fn fact_ascending(&self) {
        self.keep.fact_ascending();
    }

    fn seat(&mut self, name: &Name) -> Result<Option<SeatRow>, Unkept> {
        self.keep.seat(name)
    }

    fn order(&mut self, customer: &Name, name: &Name) -> Result<Option<OrderRow>, Unkept> {
        self.keep.order(customer, name)
    }

    fn link(&mut self, customer: &Name, digest: &Digest) -> Result<Option<LinkRow>, Unkept> {
        self.keep.link(customer, digest)
    }

    fn map(&mut self, id: u64) -> Result<Option<MapRow>, Unkept> {
        self.keep.map(id)
    }

    fn fuse_map(&mut self, id: u64) -> Result<Option<FuseMap>, Unkept> {
        self.keep.fuse_map(id)
    }

    fn map_with(&mut self, body: &str) -> Result<Option<u64>, Unkept> {
        self.keep.map_with(body)
    }

    fn device(&mut self, customer: &Name, chip: &Chip) -> Result<Option<DeviceRow>, Unkept> {
        let found = self.keep.device(customer, chip);
        if let Ok(row) = &found {
            self.answer = Some(DeviceAnswer {
                customer: *customer,
                chip: *chip,
                row: *row,
            });
        }
        found
    }

    fn places_taken(&mut self, customer: &Name, order: &Name) -> Result<u64, Unkept> {
        // A store that is shut tells nothing.
        self.keep.map(0)?;
        let numbers = self.columns(customer, order)?;
        let Some(places) = places_in(&numbers) else {
            return Err(Unkept::without_error());
        };
        Ok(places)
    }

    fn given(&mut self, issuer: &Name, serial: &str) -> Result<Option<GivenRow>, Unkept> {
        self.keep.given(issuer, serial)
    }

    fn given_by_key(&mut self, issuer: &Name, key: &KeyDigest) -> Result<Option<GivenRow>, Unkept> {
        self.keep.given_by_key(issuer, key)
    }

    fn last_entry(&mut self, customer: &Name, chip: &Chip) -> Result<u64, Unkept> {
        self.keep.last_entry(customer, chip)
    }

    fn visit_orders<S: Sink<OrderRow>>(
        &mut self,
        customer: &Name,
        sink: &mut S,
    ) -> Result<(), Unkept> {
        self.keep.visit_orders(customer, sink)
    }

    fn visit_claims<S: Sink<OrderClaim>>(
        &mut self,
        customer: &Name,
        sink: &mut S,
    ) -> Result<(), Unkept> {
        self.keep.visit_claims(customer, sink)
    }

    fn visit_links<S: Sink<LinkRow>>(
        &mut self,
        customer: &Name,
        sink: &mut S,
    ) -> Result<(), Unkept> {
        self.keep.visit_links(customer, sink)
    }

    fn visit_devices<S: Sink<DeviceRow>>(
        &mut self,
        customer: &Name,
        sink: &mut S,
    ) -> Result<(), Unkept> {
        self.keep.visit_devices(customer, sink)
    }

    fn visit_devices_behind<S: Sink<DeviceRow>>(
        &mut self,
        customer: &Name,
        chip: &Chip,
        sink: &mut S,
    ) -> Result<(), Unkept> {
        self.keep.visit_devices_behind(customer, chip, sink)
    }

    fn visit_given<S: Sink<GivenRow>>(
        &mut self,
        issuer: &Name,
        sink: &mut S,
    ) -> Result<(), Unkept> {
        self.keep.visit_given(issuer, sink)
    }

    fn visit_serials_behind<S: Sink<Serial>>(
        &mut self,
        issuer: &Name,
        serial: &Serial,
        sink: &mut S,
    ) -> Result<(), Unkept> {
        self.keep.visit_serials_behind(issuer, serial, sink)
    }

    fn visit_ledger<S: Sink<EntryRow>>(
        &mut self,
        customer: &Name,
        chip: &Chip,
        sink: &mut S,
    ) -> Result<(), Unkept> {
        self.keep.visit_ledger(customer, chip, sink)
    }

    fn commit(&mut self, writes: &[Write]) -> Result<(), Unkept> {
        self.keep.fact_ascending();
        let (put, old) = change_of(writes, &self.answer);
        self.answer = None;
        match self.keep.commit(writes) {
            Ok(()) => {
                follow_devices(&mut self.devices, put, old);
                follow_given(&mut self.left, writes);
                Ok(())
            }
            Err(unkept) => Err(unkept),
        }
    }

    ghost only_committed = { K.only_committed };

    ghost stands = { K.stands };

    ghost clean = { K.clean };
}
