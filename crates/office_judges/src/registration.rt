// The registration of devices.
ghost use Rattle.std.specs.Prelude.{◌≡◌, Some};
ghost use Rattle.office_rules.specs.Prelude.{map_named};
ghost use Rattle.office_judges.specs.Prelude.{IsJudged, Judges};

use crate::Accepted;
use crate::device::{device_to_register, first_step};
use crate::found_map::find_map;
use crate::steps::step_writes;
use fusemap_core::FuseMap;
use office_commands::{Change, NewDevice, Refusal, device_body};
use office_tables::{Boxed, Keep, OfCustomer, Write};
use site_core::Customer;
use std::alloc::Global;
use text_core::Name;

/// The registration of a device whose map is known.
fn judge_with_map<K: Keep>(
    alloc: Global,
    keep: &mut K,
    customer: &Customer,
    seat: &Name,
    device: &NewDevice,
    map: &FuseMap,
) -> Result<Accepted, Refusal>
    requires { K.is_open keep.old → map_named customer.now.name device.now.map (K.tables keep.old)
        ≡ Some map.now }
    ensures { Judges K.Keep keep.old keep.new result (λ t judgement.
        IsJudged customer.now seat.now t (Change.RegisterDevice device.now) judgement) }
{
    let row = device_to_register(keep, customer, device, map)?;
    let body = device_body(alloc, Some(map), &row)?;
    let customer = customer.name();
    let put = Write::AddDevice(Boxed::new(alloc, OfCustomer { customer, row })?);
    let writes = step_writes(alloc, keep, &customer, seat, &first_step(row), put)?;
    Ok(Accepted { body, writes })
}

/// What the registration of a device comes to: the lowest refusal that holds, or the device's row,
/// an entry of its ledger and the body that shows it. It reads only. `Refusal::Unkept` is want of
/// memory or a failing store.
pub fn judge_device<K: Keep>(
    alloc: Global,
    keep: &mut K,
    customer: &Customer,
    seat: &Name,
    device: &NewDevice,
) -> Result<Accepted, Refusal>
    ensures { Judges K.Keep keep.old keep.new result (λ t judgement.
        IsJudged customer.now seat.now t (Change.RegisterDevice device.now) judgement) }
{
    match find_map(keep, &customer.name(), &device.map)? {
        Some(map) => judge_with_map(alloc, keep, customer, seat, device, &map),
        None => Err(Refusal::UnknownMap),
    }
}
