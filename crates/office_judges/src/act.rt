// What a device goes through: each action of a device with its fuse map, and what it comes to.
ghost use Rattle.office_judges.specs.Prelude.{IsActed, IsJudged, Judges};

use crate::Accepted;
use crate::end::{scrap, ship};
use crate::found_device::{find_device, map_of};
use crate::plan::plan_device;
use crate::read_back::read_back;
use crate::steps::accept_step;
use fusemap_core::FuseMap;
use office_commands::{Action, Change, Refusal};
use office_rules::DeviceStep;
use office_tables::{Device, DeviceState, Keep};
use site_core::Customer;
use std::alloc::Global;
use text_core::{Chip, Name};

/// What an action makes of a device, and the body that answers it.
#[derive(Drop)]
pub struct Acted {
    pub step: DeviceStep,
    pub body: String,
}

/// What an action makes of a device, if it goes on from the device's state, or the lowest refusal of
/// it. `Refusal::Unkept` is want of memory.
fn act(alloc: Global, map: &FuseMap, device: &Device, action: &Action) -> Result<Acted, Refusal>
    ensures { IsActed action.now map.now device.now result }
{
    match (action, device.state) {
        (Action::Plan(wishes), DeviceState::Registered | DeviceState::Settled) => {
            plan_device(alloc, map, device, wishes)
        }
        (Action::ReadBack(blocks), DeviceState::AwaitingFirst | DeviceState::AwaitingSecond) => {
            read_back(alloc, map, device, blocks)
        }
        (Action::Ship, DeviceState::Identified) => ship(alloc, map, device),
        (Action::Scrap, DeviceState::Shipped | DeviceState::Scrapped) => Err(Refusal::WrongState),
        (Action::Scrap, _) => scrap(alloc, map, device),
        _ => Err(Refusal::WrongState),
    }
}

/// What an action of a device comes to: the lowest refusal that holds, or the device as the action
/// leaves it, an entry of its ledger and the body that answers. It reads only. `Refusal::Unkept` is
/// want of memory or a failing store.
pub(crate) fn judge_action<K: Keep>(
    alloc: Global,
    keep: &mut K,
    customer: &Customer,
    seat: &Name,
    chip: &Chip,
    action: &Action,
) -> Result<Accepted, Refusal>
    ensures { Judges K.Keep keep.old keep.new result (λ t judgement.
        IsJudged customer.now seat.now t (Change.Act chip.now action.now) judgement) }
{
    let found = find_device(keep, customer, chip)?.ok_or(Refusal::UnknownDevice)?;
    let map = map_of(&found)?;
    let Acted { step, body } = act(alloc, map, &found.device, action)?;
    Ok(accept_step(alloc, keep, customer, seat, &step, body)?)
}
