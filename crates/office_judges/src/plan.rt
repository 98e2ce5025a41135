// Plans of devices.
ghost use Rattle.std.specs.Prelude.{◌≡◌};
ghost use Rattle.fuse_image.specs.Prelude.{no_pending};
ghost use Rattle.office_rules.specs.Prelude.{known_of, state_of_pending, step_of_plan};
ghost use Rattle.office_judges.specs.Prelude.{IsActedOn};

use crate::act::Acted;
use crate::steps::without_addition;
use fuse_columns::{decode_bits, decode_keys, encode_todo};
use fuse_image::{Bits, Image, Keys, Pending};
use fuse_plan::plan;
use fusemap_core::FuseMap;
use office_commands::{Action, Refusal, Wishes, plan_body};
use office_rules::DeviceStep;
use office_tables::{Device, DeviceState, Event};
use std::alloc::Global;

/// What is known to be burnt of a device.
pub(crate) fn known_of(map: &FuseMap, device: &Device) -> Image
    ensures { result ≡ known_of map.now device.now }
{
    Image {
        burnt: decode_bits(map, &device.bits),
        keys: decode_keys(map, &device.keys),
    }
}

/// Where a device stands that has this work: an empty batch is skipped.
pub(crate) fn state_of_pending(work: &Pending) -> DeviceState
    ensures { result ≡ state_of_pending work.now }
{
    if !(work.first.is_empty() && work.keys.is_empty()) {
        return DeviceState::AwaitingFirst;
    }
    if work.second.is_empty() {
        DeviceState::Settled
    } else {
        DeviceState::AwaitingSecond
    }
}

/// Nothing is to be burnt.
pub(crate) fn no_pending() -> Pending
    ensures { result ≡ no_pending }
{
    Pending {
        first: Bits::empty(),
        second: Bits::empty(),
        keys: Keys::empty(),
    }
}

/// The step that gives a device its work.
fn step_of_plan(map: &FuseMap, device: &Device, work: &Pending) -> DeviceStep
    ensures { result ≡ step_of_plan work.now map.now device.now }
{
    let device = Device {
        state: state_of_pending(work),
        todo: encode_todo(map, work),
        ..*device
    };
    without_addition(map, Event::Planned, device)
}

/// The plan of what is to be burnt of a device, with the body that shows it, or the lowest refusal
/// of its wishes.
pub(crate) fn plan_device(
    alloc: Global,
    map: &FuseMap,
    device: &Device,
    wishes: &Wishes,
) -> Result<Acted, Refusal>
    ensures { IsActedOn (Action.Plan wishes.now) map.now device.now result }
{
    let work = match plan(map, &known_of(map, device), wishes.as_slice()) {
        Ok(work) => work,
        Err(fault) => return Err(Refusal::BadPlan(fault)),
    };
    let body = plan_body(alloc, map, &work, state_of_pending(&work))?;
    let step = step_of_plan(map, device, &work);
    Ok(Acted { step, body })
}
