// The requests about devices.
ghost use Rattle.std.specs.Prelude.{◌≡◌, IfOk, map};
ghost use Rattle.serde_json.specs.Data.{put};
ghost use Rattle.serde_json.specs.View.{view};
ghost use Rattle.text_core.specs.Prelude.{all_of, result_map};
ghost use Rattle.station_requests.specs.Prelude.{block_digest, block_in, blocks_member, chip_parameter, new_device_of, register_device_of, with_block_digests};
ghost use Rattle.station_requests.specs.Prelude.{after_parameter, ReadsAs, after_of_text, word_of_data, word_of_text};

use crate::change::request_for;
use crate::digest::found_members;
use crate::query::text_parameter;
use fuse_image::BlockWords;
use hex::FromHex;
use members::in_json::{chip_member, digest_member, name_member};
use members::read_all;
use office_commands::Refusal::{self, BadMember};
use office_commands::{Change, NewDevice, Request};
use serde_json::Value;
use std::alloc::{AllocError, Global};
use text_core::Chip;

/// The path of devices.
pub const DEVICE_PATH: &str = "/v1/device";

/// The path of lists of devices.
pub const DEVICES_PATH: &str = "/v1/devices";

/// The path of ledgers.
pub const LEDGER_PATH: &str = "/v1/ledger";

/// The named members of a registration, without its blocks.
const DEVICE_MEMBERS: [&str; 4] = ["chip", "map", "nr", "order"];

/// The word that eight hexadecimal digits of either case show, the highest first.
fn word_of_text(text: &str) -> Option<u32>
    ensures { result ≡ word_of_text text.now }
{
    let bytes = <[u8; 4] as FromHex>::from_hex(text).ok()?;
    Some(u32::from_be_bytes(bytes))
}

/// The word that a JSON value is, if it is one.
fn read_word(value: &Value) -> Option<u32>
    ensures { result ≡ word_of_data (view value.now) }
{
    word_of_text(value.as_str()?)
}

/// The words of a block, if the JSON value is an array of words.
#[tactic(auto, using(members::proofs::Lists::json_list))]
fn read_block(alloc: Global, value: &Value) -> Result<Vec<u32>, Refusal>
    ensures { ReadsAs (result_map (λ words. words.items) result) (block_in (view value.now)) }
{
    let values = value.as_array().ok_or(BadMember)?;
    read_all(alloc, values.as_slice(), read_word)?.ok_or(BadMember)
}

/// The words of blocks, if each JSON value is an array of words.
fn read_blocks(alloc: Global, values: &[Value]) -> Result<Vec<Vec<u32>>, Refusal>
    ensures { ReadsAs (result_map (λ blocks. map (λ words. words.items) blocks.items) result)
        (all_of block_in (map view values.now)) }
{
    let mut blocks = Vec::new(alloc);
    for value in values {
        let words = read_block(alloc, value)?;
        blocks.push(words)?;
    }
    Ok(blocks)
}

/// A member that is an array of 1 to 4 blocks of 1 to 8 words.
#[tactic(auto, using(members::proofs::Lists::json_list), unfolding(crate::specs::Device::blocks_member))]
pub fn blocks_member(alloc: Global, value: &Value, name: &str) -> Result<BlockWords, Refusal>
    ensures { ReadsAs result (blocks_member name.now (view value.now)) }
{
    let member = value.get(name).ok_or(BadMember)?;
    let values = member.as_array().ok_or(BadMember)?;
    let blocks = read_blocks(alloc, values.as_slice())?;
    BlockWords::new(blocks.as_slice()).ok_or(BadMember)
}

/// The digests of the blocks' bytes.
fn block_digests(alloc: Global, blocks: &BlockWords) -> Result<Vec<Value>, AllocError>
    ensures { IfOk result (λ digests. map view digests.items ≡ map block_digest blocks.now) }
{
    let mut digests = Vec::new(alloc);
    for index in 0..blocks.block_count() {
        let digest = blocks.digest(index);
        digests.push(Value::String(digest.to_string(alloc)?))?;
    }
    Ok(digests)
}

/// Those members of a value that have one of the names, and the digests of blocks among them, as an
/// object: what a request with blocks is known by when it is repeated.
pub fn with_block_digests(
    alloc: Global,
    value: &Value,
    names: &[&str],
    blocks: &BlockWords,
) -> Result<Value, AllocError>
    ensures { IfOk result (λ members. view members
        ≡ with_block_digests (map (λ n. n.now) names.now) (view value.now) blocks.now) }
{
    let mut members = found_members(alloc, value, names)?;
    let digests = Value::from(block_digests(alloc, blocks)?);
    serde_json::put(&mut members, alloc, "blocks", digests)?;
    Ok(Value::Object(members))
}

/// The device that a body asks for, if its members are of their forms.
#[tactic(auto, unfolding(crate::specs::Device::new_device_of))]
fn new_device(alloc: Global, value: &Value) -> Result<NewDevice, Refusal>
    ensures { ReadsAs result (new_device_of (view value.now)) }
{
    let chip = chip_member(value, "chip").ok_or(BadMember)?;
    let order = name_member(value, "order").ok_or(BadMember)?;
    let map = digest_member(value, "map").ok_or(BadMember)?;
    let blocks = blocks_member(alloc, value, "blocks")?;
    Ok(NewDevice {
        chip,
        order,
        map,
        blocks,
    })
}

/// The request that the body of `POST /v1/device` asks for, if its members are of their forms.
#[tactic(auto, unfolding(crate::specs::Device::register_device_of))]
pub fn register_device_request(alloc: Global, value: &Value) -> Result<Request, Refusal>
    ensures { ReadsAs result (register_device_of (view value.now)) }
{
    let device = new_device(alloc, value)?;
    let members = with_block_digests(alloc, value, &DEVICE_MEMBERS, &device.blocks)?;
    let change = Change::RegisterDevice(device);
    request_for(alloc, value, DEVICE_PATH, &members, change)
}

/// The chip that a query gives, if it gives just one.
pub fn chip_parameter(query: &[u8]) -> Option<Chip>
    ensures { result ≡ chip_parameter query.now }
{
    Chip::parse(text_parameter(query, b"chip")?)
}

/// Where a list of devices begins: behind a chip, or at the first device where the text is empty.
fn after_of_text(text: &str) -> Option<Option<Chip>>
    ensures { result ≡ after_of_text text.now }
{
    if text.is_empty() {
        return Some(None);
    }
    Some(Some(Chip::parse(text)?))
}

/// Where the list of devices begins that a query asks for, if it says so just once.
pub fn after_parameter(query: &[u8]) -> Option<Option<Chip>>
    ensures { result ≡ after_parameter query.now }
{
    after_of_text(text_parameter(query, b"after")?)
}
