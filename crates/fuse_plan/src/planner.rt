// The plan of some wishes.
ghost use Rattle.std.specs.Prelude.{◌≡◌, IfOk};
ghost use Rattle.fuse_image.specs.Prelude.{IsPending};
ghost use Rattle.fuse_plan.specs.Plans as plans;
ghost use Rattle.fuse_plan.specs.Prelude.{plan_of};

use crate::fault::PlanFault;
use crate::faults::lowest_fault;
use crate::fields::{fact_map, lock_positions};
use crate::wants::{missing, wants_of};
use crate::wish::Wish;
use fuse_image::{Image, Pending};
use fusemap_core::FuseMap;

/// The plan of the wishes: what they ask for and isn't burnt, the lock bits in the second batch. Or,
/// where the wishes aren't lawful, their lowest fault. A plan lies in the map: its bits outside key
/// fields, its keys at key fields.
pub fn plan(map: &FuseMap, image: &Image, wishes: &[Wish]) -> Result<Pending, PlanFault>
    ensures same { result ≡ plan_of map.now image.now wishes.now }
    ensures work { IfOk result (IsPending map.now) }
{
    fact_map(map);
    let wants = wants_of(map, wishes);
    let lacking = missing(image, &wants);
    lacking.keys.fact_digests();
    match lowest_fault(map, image, wishes, &wants, &lacking) {
        Some(fault) => Err(fault),
        None => Ok(batches(map, &lacking)),
    }
}

/// The batches of what is missing.
fn batches(map: &FuseMap, lacking: &Image) -> Pending
    ensures { result ≡ plans.batches map.now lacking.now }
{
    let locks = lock_positions(map);
    Pending {
        first: lacking.burnt.minus(&locks),
        second: lacking.burnt.meet(&locks),
        keys: lacking.keys,
    }
}
