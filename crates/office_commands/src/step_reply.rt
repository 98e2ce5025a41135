// What answers a plan and a read-back.
ghost use Rattle.std.specs.Prelude.{◌≡◌, All, IfOk, string_bytes};
ghost use Rattle.serde_json.specs.View.{view};
ghost use Rattle.fusemap_core.specs.Prelude.{IsSmall};
ghost use Rattle.office_commands.specs.StepReplies as replies;
ghost use Rattle.office_commands.specs.Prelude.{outcome_data, plan_data};

use crate::device_reply::batch_value;
use fuse_image::{Image, Keys, Pending};
use fusemap_core::{Field, FuseMap};
use office_tables::{DeviceState, Outcome};
use serde_json::{Value, json};
use std::alloc::{AllocError, Global};

fn plan_value(
    alloc: Global,
    fields: &[Field],
    work: &Pending,
    state: DeviceState,
) -> Result<Value, AllocError>
    requires { All IsSmall fields.now }
    ensures { IfOk result (λ v. view v ≡ plan_data fields.now work.now state) }
{
    let first = batch_value(alloc, fields, &work.first, &work.keys)?;
    let second = batch_value(alloc, fields, &work.second, &Keys::empty())?;
    json!(in alloc; { "batch1": first, "batch2": second, "state": state.text() })
}

/// The body that answers a plan: what is to be burnt in each batch, by the fuse map of the device,
/// and where the device stands then. It fails where there is no memory.
pub fn plan_body(
    alloc: Global,
    map: &FuseMap,
    work: &Pending,
    state: DeviceState,
) -> Result<String, AllocError>
    ensures { IfOk result (λ body. string_bytes body ≡ replies.plan_body map.now work.now state) }
{
    plan_value(alloc, map.fields(), work, state)?.to_string(alloc)
}

fn outcome_value(
    alloc: Global,
    fields: &[Field],
    outcome: Outcome,
    rest: &Image,
    state: DeviceState,
) -> Result<Value, AllocError>
    requires { All IsSmall fields.now }
    ensures { IfOk result (λ v. view v ≡ outcome_data fields.now outcome rest.now state) }
{
    let rest = batch_value(alloc, fields, &rest.burnt, &rest.keys)?;
    json!(in alloc; { "outcome": outcome.text(), "rest": rest, "state": state.text() })
}

/// The body that answers a read-back: what it came to, what of its batch is still to be burnt, by
/// the fuse map of the device, and where the device stands then. It fails where there is no memory.
pub fn outcome_body(
    alloc: Global,
    map: &FuseMap,
    outcome: Outcome,
    rest: &Image,
    state: DeviceState,
) -> Result<String, AllocError>
    ensures { IfOk result (λ body. string_bytes body
        ≡ replies.outcome_body map.now outcome rest.now state) }
{
    outcome_value(alloc, map.fields(), outcome, rest, state)?.to_string(alloc)
}
