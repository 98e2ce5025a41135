// The ends of devices: shipping and scrapping.
ghost use Rattle.std.specs.Prelude.{[]};
ghost use Rattle.office_commands.specs.Prelude.{state_body};
ghost use Rattle.office_rules.specs.Prelude.{without_addition};
ghost use Rattle.office_judges.specs.Prelude.{IsActedOn, IsActedUnless};

use crate::act::Acted;
use crate::plan::no_pending;
use crate::steps::without_addition;
use fuse_columns::encode_todo;
use fusemap_core::FuseMap;
use office_commands::{Action, Refusal, state_body};
use office_tables::{Device, DeviceState, Event};
use std::alloc::Global;

/// The step that ends a device's way through the line, with the body that tells its state.
fn end(alloc: Global, map: &FuseMap, event: Event, device: Device) -> Result<Acted, Refusal>
    ensures { IsActedUnless []
        (without_addition event map.now device, state_body device.chip device.state) result }
{
    let body = state_body(alloc, &device.chip, device.state)?;
    let step = without_addition(map, event, device);
    Ok(Acted { step, body })
}

/// The step that ships a device, with the body that answers it.
pub(crate) fn ship(alloc: Global, map: &FuseMap, device: &Device) -> Result<Acted, Refusal>
    ensures { IsActedOn Action.Ship map.now device.now result }
{
    let device = Device {
        state: DeviceState::Shipped,
        ..*device
    };
    end(alloc, map, Event::Shipped, device)
}

/// The step that scraps a device: nothing more is to be burnt of it, and its serial number stays.
pub(crate) fn scrap(alloc: Global, map: &FuseMap, device: &Device) -> Result<Acted, Refusal>
    ensures { IsActedOn Action.Scrap map.now device.now result }
{
    let device = Device {
        state: DeviceState::Scrapped,
        todo: encode_todo(map, &no_pending()),
        ..*device
    };
    end(alloc, map, Event::Scrapped, device)
}
