//! A keeper that counts its visits and commits, so that a test can tell which requests walk over
//! rows, and which have changed them.
ghost use Rattle.std.specs.Prelude.{◌≡◌, ◌+◌, ◌-◌, ◌^◌, min, refl};

use fusemap_core::FuseMap;
use id_ranges::KeyDigest;
use office_core::{
    DeviceRow, EntryRow, GivenRow, Keep, LinkRow, MapRow, MemKeep, OrderClaim, OrderRow, SeatRow,
    Sink, Unkept, Write,
};
use std::alloc::Global;
use text_core::{Chip, Digest, Name, Serial};

/// A keeper in memory that counts the visits and the commits that are made of it.
#[derive(Drop)]
pub struct CountingKeep {
    keep: MemKeep,
    visits: u64,
    commits: u64,
}

impl CountingKeep {
    /// A keeper of no rows, of which no visit was made and no commit.
    pub fn new(alloc: Global) -> CountingKeep
        ensures visits { result.visits ≡ 0 }
        ensures commits { result.commits ≡ 0 }
    {
        CountingKeep {
            keep: MemKeep::new(alloc),
            visits: 0,
            commits: 0,
        }
    }

    /// How many visits were made.
    pub fn visits(&self) -> u64
        ensures { result ≡ self.now.visits }
    {
        self.visits
    }

    /// How many commits were made.
    pub fn commits(&self) -> u64
        ensures { result ≡ self.now.commits }
    {
        self.commits
    }

    /// Counts a visit, and stays at the largest number.
    fn count(&mut self)
        ensures keep { self.new.keep ≡ self.old.keep }
        ensures commits { self.new.commits ≡ self.old.commits }
        ensures visits { self.new.visits ≡ min (self.old.visits + 1) (2 ^ 64 - 1) }
    {
        self.visits = self.visits.saturating_add(1);
    }
}

impl Keep for CountingKeep {
    ghost tables = { λ k. ⟦<MemKeep as Keep>⟧.tables k.keep };

    ghost is_open = { λ k. ⟦<MemKeep as Keep>⟧.is_open k.keep };

    ghost is_honest = { λ k. ⟦<MemKeep as Keep>⟧.is_honest k.keep };

    ghost may_leave = { λ k. ⟦<MemKeep as Keep>⟧.may_leave k.keep };

    ghost tells_text = { λ k. ⟦<MemKeep as Keep>⟧.tells_text k.keep };

    ghost commits = { λ k. k.commits };

    ghost has_just_committed = { λ _. Unit {0} };

    fn fact_ascending(&self) {
        self.keep.fact_ascending();
    }

    fn seat(&mut self, name: &Name) -> Result<Option<SeatRow>, Unkept> {
        self.keep.seat(name)
    }

    fn order(&mut self, customer: &Name, name: &Name) -> Result<Option<OrderRow>, Unkept> {
        self.keep.order(customer, name)
    }

    fn link(&mut self, customer: &Name, digest: &Digest) -> Result<Option<LinkRow>, Unkept> {
        self.keep.link(customer, digest)
    }

    fn map(&mut self, id: u64) -> Result<Option<MapRow>, Unkept> {
        self.keep.map(id)
    }

    fn fuse_map(&mut self, id: u64) -> Result<Option<FuseMap>, Unkept> {
        self.keep.fuse_map(id)
    }

    fn map_with(&mut self, body: &str) -> Result<Option<u64>, Unkept> {
        self.keep.map_with(body)
    }

    fn device(&mut self, customer: &Name, chip: &Chip) -> Result<Option<DeviceRow>, Unkept> {
        self.keep.device(customer, chip)
    }

    fn places_taken(&mut self, customer: &Name, order: &Name) -> Result<u64, Unkept> {
        self.keep.places_taken(customer, order)
    }

    fn given(&mut self, issuer: &Name, serial: &str) -> Result<Option<GivenRow>, Unkept> {
        self.keep.given(issuer, serial)
    }

    fn given_by_key(&mut self, issuer: &Name, key: &KeyDigest) -> Result<Option<GivenRow>, Unkept> {
        self.keep.given_by_key(issuer, key)
    }

    fn last_entry(&mut self, customer: &Name, chip: &Chip) -> Result<u64, Unkept> {
        self.keep.last_entry(customer, chip)
    }

    fn visit_orders<S: Sink<OrderRow>>(
        &mut self,
        customer: &Name,
        sink: &mut S,
    ) -> Result<(), Unkept> {
        self.count();
        self.keep.visit_orders(customer, sink)
    }

    fn visit_claims<S: Sink<OrderClaim>>(
        &mut self,
        customer: &Name,
        sink: &mut S,
    ) -> Result<(), Unkept> {
        self.count();
        self.keep.visit_claims(customer, sink)
    }

    fn visit_links<S: Sink<LinkRow>>(
        &mut self,
        customer: &Name,
        sink: &mut S,
    ) -> Result<(), Unkept> {
        self.count();
        self.keep.visit_links(customer, sink)
    }

    fn visit_devices<S: Sink<DeviceRow>>(
        &mut self,
        customer: &Name,
        sink: &mut S,
    ) -> Result<(), Unkept> {
        self.count();
        self.keep.visit_devices(customer, sink)
    }

    fn visit_devices_behind<S: Sink<DeviceRow>>(
        &mut self,
        customer: &Name,
        chip: &Chip,
        sink: &mut S,
    ) -> Result<(), Unkept> {
        self.count();
        self.keep.visit_devices_behind(customer, chip, sink)
    }

    fn visit_given<S: Sink<GivenRow>>(
        &mut self,
        issuer: &Name,
        sink: &mut S,
    ) -> Result<(), Unkept> {
        self.count();
        self.keep.visit_given(issuer, sink)
    }

    fn visit_serials_behind<S: Sink<Serial>>(
        &mut self,
        issuer: &Name,
        serial: &Serial,
        sink: &mut S,
    ) -> Result<(), Unkept> {
        self.count();
        self.keep.visit_serials_behind(issuer, serial, sink)
    }

    fn visit_ledger<S: Sink<EntryRow>>(
        &mut self,
        customer: &Name,
        chip: &Chip,
        sink: &mut S,
    ) -> Result<(), Unkept> {
        self.count();
        self.keep.visit_ledger(customer, chip, sink)
    }

    fn commit(&mut self, writes: &[Write]) -> Result<(), Unkept> {
        self.keep.commit(writes)?;
        self.commits = self.commits.saturating_add(1);
        Ok(())
    }

    ghost only_committed = { λ _ _ _ left. left };

    ghost stands = { λ _ _. refl };

    ghost clean = { λ _ _. tt };
}
