// Pages of a customer's devices.
ghost use Rattle.std.specs.Prelude.{◌≡◌, if◌then◌else◌, None};
ghost use Rattle.office_tables.specs.Prelude.{rows_of, ReadsOnly, Visits};
ghost use Rattle.office_rules.specs.Prelude.{devices_behind, last_chip};
ghost use Rattle.office_judges.specs.Prelude.{visited_behind, GathersPage, IsPage};

use office_tables::{Device, DeviceRow, Keep, Sink, Unkept};
use std::alloc::Global;
use text_core::{Chip, Name};

/// How many devices a page shows at most.
const PAGE_LIMIT: usize = 500;

/// A page that is filled with the devices that are met.
#[derive(Drop)]
struct PageScan {
    devices: Vec<Device>,
    /// The page was full, and one more device was met.
    has_more: bool,
    /// There was no memory for a device.
    failed: Option<Unkept>,
}

impl Sink<DeviceRow> for PageScan {
    ghost takes = { GathersPage };

    fn take(&mut self, row: &DeviceRow) -> bool {
        if self.devices.as_slice().len() >= PAGE_LIMIT {
            self.has_more = true;
            return false;
        }
        if let Err(refused) = self.devices.push(row.row) {
            self.failed = Some(Unkept::from(refused));
            return false;
        }
        true
    }
}

/// A page of devices.
#[derive(Drop)]
pub(crate) struct Page {
    /// In the order of their chips.
    pub(crate) devices: Vec<Device>,
    /// The chip behind which the next page begins, where there is one.
    pub(crate) next: Option<Chip>,
}

/// Fills a page with a customer's devices: those behind a chip, or from the first on. Behind a full
/// page one more is read.
fn fill_page<K: Keep>(
    keep: &mut K,
    customer: &Name,
    after: Option<Chip>,
    scan: &mut PageScan,
) -> Result<(), Unkept>
    ensures { ReadsOnly K.Keep keep.old keep.new result (λ t _.
        Visits GathersPage scan.old (visited_behind customer.now after t.devices) scan.new) }
{
    match after {
        None => keep.visit_devices(customer, scan),
        Some(chip) => keep.visit_devices_behind(customer, &chip, scan),
    }
}

/// The chip of the last of devices, if there is one.
fn last_chip(devices: &[Device]) -> Option<Chip>
    ensures { result ≡ last_chip devices.now }
{
    Some(devices.last()?.chip)
}

/// The chip behind which the next page begins, where this one leaves some.
fn next_of(scan: &PageScan) -> Option<Chip>
    ensures { result ≡ (if scan.now.has_more then last_chip scan.now.devices.items else None) }
{
    if scan.has_more {
        last_chip(scan.devices.as_slice())
    } else {
        None
    }
}

/// The page of a customer's devices behind a chip, or the first one.
pub(crate) fn page_behind<K: Keep>(
    alloc: Global,
    keep: &mut K,
    customer: &Name,
    after: Option<Chip>,
) -> Result<Page, Unkept>
    ensures { ReadsOnly K.Keep keep.old keep.new result (λ t page.
        IsPage (devices_behind after (rows_of customer.now t.devices)) page) }
{
    let mut scan = PageScan {
        devices: Vec::new(alloc),
        has_more: false,
        failed: None,
    };
    fill_page(keep, customer, after, &mut scan)?;
    match scan.failed {
        None => {
            let next = next_of(&scan);
            Ok(Page {
                devices: scan.devices,
                next,
            })
        }
        Some(unkept) => Err(unkept),
    }
}
