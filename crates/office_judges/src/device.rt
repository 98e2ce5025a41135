// The device that is to be registered.
ghost use Rattle.std.specs.Prelude.{◌≡◌, List, None, ℕ};
ghost use Rattle.text_core.specs.Prelude.{first_that_holds};
ghost use Rattle.fuse_image.specs.Prelude.{redacted};
ghost use Rattle.office_rules.specs.Prelude.{unless_refused, office_sight, device_of_registration, first_step, readback_refusals};
ghost use Rattle.office_judges.specs.Prelude.{registration_refusals_by_map, IsUnlessRefused, Judges};

use crate::plan::no_pending;
use fuse_columns::{encode_bits, encode_keys, encode_todo};
use fuse_plan::{ReadBack, fits, has_coding_scheme, redact, shows_what_is_hidden};
use fusemap_core::FuseMap;
use office_commands::{NewDevice, Refusal};
use office_rules::DeviceStep;
use office_tables::{Device, DeviceState, Event, Keep};
use site_core::Customer;

/// A device as it is registered, by its map.
fn device_of_registration(map: &FuseMap, device: &NewDevice, readback: &ReadBack) -> Device
    ensures { result ≡ device_of_registration map.now device.now readback.now }
{
    Device {
        chip: device.chip,
        order: device.order,
        map: device.map,
        state: DeviceState::Registered,
        bits: encode_bits(map, &readback.ones),
        keys: encode_keys(map, &readback.shown),
        todo: encode_todo(map, &no_pending()),
        serial: None,
    }
}

/// A device as it is registered with what its chip shows, or the lowest refusal of that.
fn device_of_chip(map: &FuseMap, device: &NewDevice) -> Result<Device, Refusal>
    ensures { result
        ≡ unless_refused (first_that_holds (readback_refusals device.now.blocks map.now))
        (device_of_registration map.now device.now (redacted map.now device.now.blocks)) }
{
    if !fits(map, &device.blocks) {
        return Err(Refusal::BadReadback);
    }
    let readback = redact(map, &device.blocks);
    if has_coding_scheme(map, &readback) {
        return Err(Refusal::CodingScheme);
    }
    if shows_what_is_hidden(map, &readback) {
        return Err(Refusal::BadReadback);
    }
    Ok(device_of_registration(map, device, &readback))
}

/// The device that is to be registered, or the lowest refusal that holds.
pub(crate) fn device_to_register<K: Keep>(
    keep: &mut K,
    customer: &Customer,
    device: &NewDevice,
    map: &FuseMap,
) -> Result<Device, Refusal>
    ensures { Judges K.Keep keep.old keep.new result (λ t judged. (seat : List ℕ) → IsUnlessRefused
        (registration_refusals_by_map (office_sight customer.now seat t) device.now map.now)
        (λ row. row ≡ device_of_registration map.now device.now (redacted map.now device.now.blocks))
        judged) }
{
    let order = keep
        .order(&customer.name(), &device.order)?
        .ok_or(Refusal::UnknownOrder)?;
    if keep.device(&customer.name(), &device.chip)?.is_some() {
        return Err(Refusal::Exists);
    }
    let order = order.row;
    if keep.places_taken(&customer.name(), &order.name)? >= order.range.quantity() {
        return Err(Refusal::QuantityReached);
    }
    device_of_chip(map, device)
}

/// The first step of a device: all that is known of it is added.
pub(crate) fn first_step(device: Device) -> DeviceStep
    ensures { result ≡ first_step device }
{
    DeviceStep {
        device,
        event: Event::Registered,
        bits: device.bits,
        keys: device.keys,
    }
}
