// What answers an identity, the end of a device and an import.
ghost use Rattle.std.specs.Prelude.{◌≡◌, IfOk, string_bytes};
ghost use Rattle.serde_json.specs.View.{view};
ghost use Rattle.office_commands.specs.IdentityReplies as replies;
ghost use Rattle.office_commands.specs.Prelude.{idevid_in, identity_data, import_data, state_data};

use crate::reply::{mac_value, not_before_value};
use office_tables::{DeviceState, Given};
use serde_json::{Value, json};
use std::alloc::{AllocError, Global};
use text_core::Chip;

fn identity_value(alloc: Global, chip: &Chip, given: &Given) -> Result<Value, AllocError>
    ensures { IfOk result (λ v. view v ≡ identity_data chip.now (idevid_in given.now)) }
{
    let mac = mac_value(alloc, given.mac)?;
    let key = given.key.to_string(alloc)?;
    let not_before = not_before_value(alloc, given.not_before)?;
    json!(in alloc; {
        "chip": chip.as_str(),
        "issuer": given.issuer.as_str(),
        "key_sha256": key.as_str(),
        "mac": mac,
        "not_after": given.not_after.as_str(),
        "not_before": not_before,
        "serial": given.serial.as_str()
    })
}

/// The body that answers an identity, and that shows it again: the record of the device (IEEE
/// 802.1AR), by its row. It fails where there is no memory.
#[tactic(auto, unfolding(crate::specs::IdentityReplies::identity_body))]
pub fn identity_body(alloc: Global, chip: &Chip, given: &Given) -> Result<String, AllocError>
    ensures { IfOk result (λ body. string_bytes body
        ≡ replies.identity_body chip.now (idevid_in given.now)) }
{
    identity_value(alloc, chip, given)?.to_string(alloc)
}

fn state_value(alloc: Global, chip: &Chip, state: DeviceState) -> Result<Value, AllocError>
    ensures { IfOk result (λ v. view v ≡ state_data chip.now state) }
{
    json!(in alloc; { "chip": chip.as_str(), "state": state.text() })
}

/// The body that tells where a device stands. It fails where there is no memory.
#[tactic(auto, unfolding(crate::specs::IdentityReplies::state_body))]
pub fn state_body(alloc: Global, chip: &Chip, state: DeviceState) -> Result<String, AllocError>
    ensures { IfOk result (λ body. string_bytes body ≡ replies.state_body chip.now state) }
{
    state_value(alloc, chip, state)?.to_string(alloc)
}

fn import_value(alloc: Global, added: u64, present: u64) -> Result<Value, AllocError>
    ensures { IfOk result (λ v. view v ≡ import_data added present) }
{
    json!(in alloc; { "added": added, "present": present })
}

/// The body that answers an import: how many serial numbers it gave, and how many were given
/// already. It fails where there is no memory.
#[tactic(auto, unfolding(crate::specs::IdentityReplies::import_body))]
pub fn import_body(alloc: Global, added: u64, present: u64) -> Result<String, AllocError>
    ensures { IfOk result (λ body. string_bytes body ≡ replies.import_body added present) }
{
    import_value(alloc, added, present)?.to_string(alloc)
}
