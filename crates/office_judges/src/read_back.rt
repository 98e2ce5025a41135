// Read-backs of devices.
ghost use Rattle.std.specs.Prelude.{◌≡◌};
ghost use Rattle.fuse_plan.specs.Pending as pending;
ghost use Rattle.office_rules.specs.Prelude.{next_batch, outcome_for, outcome_of, pending_after, reads_redacted, reason_for, state_after, verdict_of_read_back};
ghost use Rattle.office_rules.specs.Prelude.{with_rest};
ghost use Rattle.office_judges.specs.Prelude.{IsActedOn};

use crate::act::Acted;
use crate::plan::{known_of, no_pending, state_of_pending};
use fuse_columns::{decode_todo, encode_bits, encode_keys, encode_todo};
use fuse_image::{Bits, BlockWords, Image, Keys, Pending};
use fuse_plan::{ChipFault, ReadBack, Verdict, compare, fits, redact};
use fusemap_core::FuseMap;
use office_commands::{Action, Refusal, outcome_body};
use office_rules::DeviceStep;
use office_tables::{Batches, Device, DeviceState, Event, Outcome, Reason};
use std::alloc::Global;

/// The batch that is burnt next, by which batches may be pending.
fn next_batch(batches: Batches, work: &Pending) -> Image
    ensures { result ≡ next_batch batches work.now }
{
    match batches {
        Batches::Both => Image {
            burnt: work.first,
            keys: work.keys,
        },
        Batches::Second => Image {
            burnt: work.second,
            keys: Keys::empty(),
        },
        Batches::Neither => Image::empty(),
    }
}

fn reason_for(fault: ChipFault) -> Reason
    ensures { result ≡ reason_for fault }
{
    match fault {
        ChipFault::Lost => Reason::Lost,
        ChipFault::Stray => Reason::Stray,
        ChipFault::Key => Reason::Key,
    }
}

fn outcome_for(fault: ChipFault) -> Outcome
    ensures { result ≡ outcome_for fault }
{
    match fault {
        ChipFault::Lost => Outcome::Lost,
        ChipFault::Stray => Outcome::Stray,
        ChipFault::Key => Outcome::Key,
    }
}

/// What a verdict is called in replies and ledgers.
fn outcome_of(verdict: &Verdict) -> Outcome
    ensures { result ≡ outcome_of verdict.now }
{
    match verdict {
        Verdict::Match => Outcome::Match,
        Verdict::Short(_) => Outcome::Short,
        Verdict::Fault(fault) => outcome_for(*fault),
    }
}

/// The rest that a verdict tells, nothing unless it is short.
fn rest_of(verdict: &Verdict) -> Image
    ensures { result ≡ pending.rest_of verdict.now }
{
    match verdict {
        Verdict::Short(rest) => *rest,
        _ => Image::empty(),
    }
}

/// The work with a rest in place of the batch that is burnt next.
fn with_rest(batches: Batches, rest: &Image, work: &Pending) -> Pending
    ensures { result ≡ with_rest batches rest.now work.now }
{
    match batches {
        Batches::Both => Pending {
            first: rest.burnt,
            second: work.second,
            keys: rest.keys,
        },
        Batches::Second => Pending {
            first: Bits::empty(),
            second: rest.burnt,
            keys: Keys::empty(),
        },
        Batches::Neither => *work,
    }
}

/// What is pending after a read-back: nothing where something is wrong.
fn pending_after(verdict: &Verdict, state: DeviceState, work: &Pending) -> Pending
    ensures { result ≡ pending_after verdict.now state work.now }
{
    match verdict {
        Verdict::Fault(_) => no_pending(),
        _ => with_rest(state.row().pending, &rest_of(verdict), work),
    }
}

fn state_after(verdict: &Verdict, state: DeviceState, work: &Pending) -> DeviceState
    ensures { result ≡ state_after verdict.now state work.now }
{
    match verdict {
        Verdict::Match => state_of_pending(&pending_after(verdict, state, work)),
        Verdict::Short(_) => state,
        Verdict::Fault(fault) => DeviceState::Quarantined(reason_for(*fault)),
    }
}

/// The step of a read-back, and the verdict that it comes to.
fn read_step(map: &FuseMap, device: &Device, readback: &ReadBack) -> (DeviceStep, Verdict)
    ensures step { result.0 ≡ (reads_redacted readback.now map.now device.now).0 }
    ensures verdict { result.1 ≡ verdict_of_read_back readback.now map.now device.now }
{
    let known = known_of(map, device);
    let work = decode_todo(map, &device.todo);
    let batch = next_batch(device.state.row().pending, &work);
    let (verdict, after) = compare(map, &known, &batch.burnt, &batch.keys, readback);
    let device = Device {
        state: state_after(&verdict, device.state, &work),
        bits: encode_bits(map, &after.burnt),
        keys: encode_keys(map, &after.keys),
        todo: encode_todo(map, &pending_after(&verdict, device.state, &work)),
        ..*device
    };
    let step = DeviceStep {
        device,
        event: Event::Read(outcome_of(&verdict)),
        bits: encode_bits(map, &after.burnt.minus(&known.burnt)),
        keys: encode_keys(map, &after.keys.minus(&known.keys)),
    };
    (step, verdict)
}

/// What a read-back makes of a device, with the body that tells its verdict, or the refusal of
/// words that don't fit the map.
pub(crate) fn read_back(
    alloc: Global,
    map: &FuseMap,
    device: &Device,
    words: &BlockWords,
) -> Result<Acted, Refusal>
    ensures { IsActedOn (Action.ReadBack words.now) map.now device.now result }
{
    if !fits(map, words) {
        return Err(Refusal::BadReadback);
    }
    let (step, verdict) = read_step(map, device, &redact(map, words));
    let (outcome, rest) = (outcome_of(&verdict), rest_of(&verdict));
    let body = outcome_body(alloc, map, outcome, &rest, step.device.state)?;
    Ok(Acted { step, body })
}
