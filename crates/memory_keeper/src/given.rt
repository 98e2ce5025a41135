// The records of serial numbers, over all customers.
ghost use Rattle.std.specs.Prelude.{◌≡◌, ◌&&◌, ◌||◌, not, ℕ, List, [], Some, None, true, false, filter, find, map, if◌then◌else◌, OnOk, OnErr, option_copied};
ghost use Rattle.text_core.specs.Prelude.{is_serial};
ghost use Rattle.office_tables.specs.Prelude.{Visits, given_cmp, is_address, is_bound, is_serial_of};
ghost use Rattle.office_tables.specs.Prelude.{is_given_behind, is_of_issuer, with_row, IsAddressFree, IsAscending};
ghost use Rattle.memory_keeper.specs.Indexing.{has_mac, serial_of};
ghost use Rattle.memory_keeper.specs.Unplaced.{without};

use crate::rows::{GivenKey, Point};
use crate::table::Table;
use id_ranges::{KeyDigest, Mac};
use office_tables::{GivenRow, Sink, Unkept};
use std::alloc::Global;
use std::collections::{BTreeMap, BTreeSet};
use std::marker::Model;
use text_core::{Name, Serial};

/// The serial number of each key, by issuer and key, and the addresses that are given.
#[derive(Drop)]
struct GivenIndex {
    serials: BTreeMap<(Name, KeyDigest), Serial>,
    macs: BTreeSet<Mac>,
}

impl GivenIndex {
    /// The serial number of a key in an issuer.
    fn serial(&self, issuer: &Name, key: &KeyDigest) -> Option<Serial>
        ensures { result ≡ serial_of issuer.now key.now self.now }
    {
        self.serials.get(&(*issuer, *key)).copied()
    }

    /// Whether an address is given.
    fn has(&self, mac: Option<Mac>) -> bool
        ensures { result ≡ has_mac mac self.now }
    {
        mac.is_some_and(|mac| self.macs.contains(&mac))
    }

    /// Adds a record whose key isn't taken in its issuer, nor its address.
    fn add(&mut self, row: &GivenRow) -> Result<(), Unkept>
        requires free_key { serial_of row.now.row.issuer row.now.row.key self.old ≡ None }
        requires free_mac { has_mac row.now.row.mac self.old ≡ false }
        ensures ok_serials { OnOk result ((issuer key : List ℕ)
            → serial_of issuer key self.new ≡ (if is_bound issuer key row.now
            then Some row.now.row.serial else serial_of issuer key self.old)) }
        ensures ok_macs { OnOk result ((mac : ℕ) → has_mac (Some mac) self.new
            ≡ (is_address mac row.now.row.mac || has_mac (Some mac) self.old)) }
        ensures err_serials { OnErr result ((issuer key : List ℕ)
            → serial_of issuer key self.new ≡ serial_of issuer key self.old) }
        ensures err_macs { OnErr result ((mac : ℕ) → has_mac (Some mac) self.new
            ≡ has_mac (Some mac) self.old) }
    {
        let key = (row.row.issuer, row.row.key);
        self.serials.insert(key, row.row.serial)?;
        let Some(mac) = row.row.mac else {
            return Ok(());
        };
        match self.macs.insert(mac) {
            Ok(_) => Ok(()),
            Err(refused) => {
                self.serials.remove(&key);
                Err(Unkept::from(refused))
            }
        }
    }

    /// Takes a record out again. This takes no memory.
    fn remove(&mut self, row: &GivenRow)
        ensures serials { (issuer key : List ℕ) → serial_of issuer key self.new
            ≡ (if is_bound issuer key row.now then None else serial_of issuer key self.old) }
        ensures macs { (mac : ℕ) → has_mac (Some mac) self.new
            ≡ (not (is_address mac row.now.row.mac) && has_mac (Some mac) self.old) }
    {
        self.serials.remove(&(row.row.issuer, row.row.key));
        if let Some(mac) = row.row.mac {
            self.macs.remove(&mac);
        }
    }
}

/// The records, and the indexes by which they are found.
#[derive(Drop)]
pub(crate) struct GivenRows {
    rows: Table<GivenRow>,
    index: GivenIndex,
}

impl Model for GivenRows {
    ghost use Rattle.std.specs.Prelude.{List};
    ghost use Rattle.office_tables.specs.declared.rows.OfCustomer.{OfCustomer};
    ghost use Rattle.office_tables.specs.declared.rows.Given.{Given};
    ghost use Rattle.memory_keeper.specs.Indexing.{AreIndexed};

    ghost Value = { List (OfCustomer Given) };

    ghost view = { λ g. g.rows };

    ghost invariant = { λ g. AreIndexed g.rows g.index };
}

impl GivenRows {
    /// No records.
    pub(crate) fn new(alloc: Global) -> GivenRows
        ensures { result ≡ [] }
    {
        GivenRows {
            rows: Table::new(alloc),
            index: GivenIndex {
                serials: BTreeMap::new(alloc),
                macs: BTreeSet::new(alloc),
            },
        }
    }

    /// The records stand in the order of their keys. It does nothing.
    pub(crate) fn fact_ascending(&self)
        ensures { IsAscending given_cmp self.now }
    {
        self.rows.fact_ascending();
    }

    /// The record of a serial number of an issuer. There is none where the text is no serial
    /// number.
    pub(crate) fn get(&self, issuer: &Name, serial: &str) -> Option<&GivenRow>
        ensures { option_copied result ≡ find (is_serial_of issuer.now serial.now) self.now }
    {
        let rows = &self.rows;
        let serial = Serial::parse(serial)?;
        rows.get(&given_key(*issuer, Point::At(serial)))
    }

    /// The record that a key has in an issuer.
    pub(crate) fn get_by_key(&self, issuer: &Name, key: &KeyDigest) -> Option<&GivenRow>
        ensures { option_copied result ≡ find (is_bound issuer.now key.now) self.now }
    {
        let serial = self.index.serial(issuer, key)?;
        self.rows.get(&given_key(*issuer, Point::At(serial)))
    }

    /// Adds a record. It is refused where its serial number or its key is taken in its issuer, or
    /// its address.
    pub(crate) fn add(&mut self, row: &GivenRow) -> Result<(), Unkept>
        ensures free { OnOk result (IsAddressFree row.now.row.mac self.old) }
        ensures placed { OnOk result (self.new ≡ with_row given_cmp row.now self.old) }
        ensures undone { OnOk result (without (is_serial_of row.now.row.issuer row.now.row.serial)
            self.new ≡ self.old) }
        ensures err { OnErr result (self.new ≡ self.old) }
    {
        if self.is_taken(row) {
            return Err(Unkept::without_error());
        }
        self.index.add(row)?;
        match self.rows.insert_copy(row) {
            Ok(()) => Ok(()),
            Err(refused) => {
                self.index.remove(row);
                Err(Unkept::from(refused))
            }
        }
    }

    /// Whether a record has the serial number or the key in its issuer, or the address.
    fn is_taken(&self, row: &GivenRow) -> bool
        ensures serial { result ≡ false → find (is_serial_of row.now.row.issuer row.now.row.serial)
            self.now ≡ None }
        ensures key { result ≡ false → find (is_bound row.now.row.issuer row.now.row.key) self.now
            ≡ None }
        ensures address { result ≡ false → IsAddressFree row.now.row.mac self.now }
        ensures is_serial { is_serial row.now.row.serial ≡ true }
    {
        let given = &row.row;
        self.get(&given.issuer, given.serial.as_str()).is_some()
            || self.index.serial(&given.issuer, &given.key).is_some()
            || self.index.has(given.mac)
    }

    /// Takes a record out again. This takes no memory.
    pub(crate) fn remove(&mut self, row: &GivenRow)
        ensures { self.new ≡ without (is_serial_of row.now.row.issuer row.now.row.serial) self.old }
    {
        let key = given_key(row.row.issuer, Point::At(row.row.serial));
        if let Some(removed) = self.rows.remove(&key) {
            self.index.remove(&removed);
        }
    }

    /// Hands the records of an issuer to the sink, in the order of their serial numbers, while it
    /// goes on.
    pub(crate) fn visit<S: Sink<GivenRow>>(&self, issuer: &Name, sink: &mut S)
        ensures { Visits S.takes sink.old (filter (is_of_issuer issuer.now) self.now) sink.new }
    {
        let first = given_key(*issuer, Point::Start);
        let last = given_key(*issuer, Point::End);
        self.rows.visit(first, last, sink);
    }

    /// Hands those of an issuer's serial numbers that come behind one to the sink, in their order,
    /// while it goes on.
    pub(crate) fn visit_serials_behind<S: Sink<Serial>>(
        &self,
        issuer: &Name,
        serial: &Serial,
        sink: &mut S,
    )
        ensures { Visits S.takes sink.old
            (map (λ g. g.row.serial) (filter (is_given_behind issuer.now serial.now) self.now))
            sink.new }
    {
        let first = given_key(*issuer, Point::At(*serial));
        let last = given_key(*issuer, Point::End);
        self.rows.visit_parts_behind::<Serial, S>(first, last, sink);
    }
}

/// The key of a point among the records of an issuer.
fn given_key(issuer: Name, point: Point<Serial>) -> GivenKey
    ensures { result ≡ record { issuer = issuer; point = point } }
{
    GivenKey { issuer, point }
}
