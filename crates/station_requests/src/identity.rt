// The request for a device's identity.
ghost use Rattle.serde_json.specs.View.{view};
ghost use Rattle.station_requests.specs.Prelude.{identify_of, key_of_text, new_identity_of, ReadsAs};

use crate::change::request_for;
use crate::digest::named_members;
use hex::FromHexError;
use id_ranges::KeyDigest;
use members::in_json::{chip_member, text_member};
use office_commands::Refusal::{self, BadMember};
use office_commands::{Change, NewIdentity, Request};
use serde_json::Value;
use std::alloc::{AllocError, Global};

/// The path of identities.
pub const IDENTITY_PATH: &str = "/v1/identity";

/// The named members of a request for an identity.
const IDENTITY_MEMBERS: [&str; 3] = ["chip", "nr", "public_key"];

/// The fewest hexadecimal digits of a public key: those of one byte.
const LEAST_KEY_DIGITS: usize = 2;

/// The most hexadecimal digits of a public key: those of 1,024 bytes.
const MOST_KEY_DIGITS: usize = 2048;

/// The digest of the public key that a text has as hexadecimal digits of either case, if it has one.
fn read_key(alloc: Global, text: &str) -> Result<KeyDigest, Refusal>
    ensures { ReadsAs result (key_of_text text.now) }
{
    if text.len() < LEAST_KEY_DIGITS || MOST_KEY_DIGITS < text.len() {
        return Err(BadMember);
    }
    match hex::decode(alloc, text) {
        Ok(bytes) => Ok(KeyDigest::of(bytes.as_slice())),
        Err(FromHexError::OutOfMemory) => Err(Refusal::from(AllocError)),
        Err(_) => Err(BadMember),
    }
}

/// The identity that a body asks for, if its members are of their forms.
#[tactic(auto, unfolding(crate::specs::Identity::new_identity_of))]
fn new_identity(alloc: Global, value: &Value) -> Result<NewIdentity, Refusal>
    ensures { ReadsAs result (new_identity_of (view value.now)) }
{
    let chip = chip_member(value, "chip").ok_or(BadMember)?;
    let text = text_member(value, "public_key").ok_or(BadMember)?;
    let key = read_key(alloc, text)?;
    Ok(NewIdentity { chip, key })
}

/// The request that the body of `POST /v1/identity` asks for, if its members are of their forms.
#[tactic(auto, unfolding(crate::specs::Identity::identify_of))]
pub fn identity_request(alloc: Global, value: &Value) -> Result<Request, Refusal>
    ensures { ReadsAs result (identify_of (view value.now)) }
{
    let identity = new_identity(alloc, value)?;
    let members = named_members(alloc, value, &IDENTITY_MEMBERS)?;
    let change = Change::Identify(identity);
    request_for(alloc, value, IDENTITY_PATH, &members, change)
}
