// What a station hears in a reply.
ghost use Rattle.std.specs.Prelude.{◌≡◌, IfSome, length, map};
ghost use Rattle.serde_json.specs.View.{view};
ghost use Rattle.seat_ask.specs.Prelude.{IsReply, agrees, has_all, heard_of, is_reply_to, refusal_in, reply_has};

use http_frames::fields::{is_field_present, read_body_size};
use httparse::Status;
use httparse::spans::{HeaderSpan, parse_response};
use members::in_json::{text_member, whole_member};
use serde_json::Value;

/// What a reply says.
#[derive(Clone, Copy, Debug, PartialEq, Eq)]
pub enum Heard {
    /// The request was done: the reply is the server's, and of this request.
    Done,
    /// It was refused by this number, and the number that is expected, 0 where it says none.
    Refused(u8, u64),
    /// Nothing: it is another's page.
    Nothing,
}

/// Where a reply lies in the bytes that came.
#[derive(Clone, Copy)]
pub struct ReplyCut {
    /// Its status.
    pub status: u16,
    /// Where its body begins.
    pub start: usize,
    /// Where its body ends.
    pub end: usize,
}

/// The reply at the front of the bytes that came, if it is whole, and its head says how long it is.
pub fn cut_reply(bytes: &[u8], spans: &mut [HeaderSpan]) -> Option<ReplyCut>
    ensures { IfSome result (IsReply bytes.now) }
{
    let head = match parse_response(bytes, spans) {
        Ok(Status::Complete(head)) => head,
        _ => return None,
    };
    let fields = &spans[..head.headers];
    if !is_field_present(bytes, fields, b"content-length") {
        return None;
    }
    let size = match read_body_size(bytes, fields) {
        Ok(size) => size as usize,
        Err(_) => return None,
    };
    if bytes.len() - head.len < size {
        return None;
    }
    Some(ReplyCut {
        status: head.code,
        start: head.len,
        end: head.len + size,
    })
}

/// The members of the reply that is an order.
const ORDER_NAMES: [&str; 10] = [
    "first",
    "issuer",
    "mac",
    "macs",
    "name",
    "next",
    "not_before",
    "prefix",
    "quantity",
    "width",
];

/// The members of the reply that is a device.
const DEVICE_NAMES: [&str; 9] = [
    "bits", "chip", "keys", "map", "order", "pending", "reason", "serial", "state",
];

/// The members of the reply that is an identity.
const IDENTITY_NAMES: [&str; 7] = [
    "chip",
    "issuer",
    "key_sha256",
    "mac",
    "not_after",
    "not_before",
    "serial",
];

/// Whether a value has each of these members.
fn has_all(value: &Value, names: &[&str]) -> bool
    ensures { result ≡ has_all (view value.now) (map (λ name. name.now) names.now) }
{
    for name in names {
        if value.get(*name).is_none() {
            return false;
        }
    }
    true
}

/// Whether a value has the members of a reply to a request of this path.
fn reply_has(path: &str, told: &Value) -> bool
    ensures { result ≡ reply_has path.now (view told.now) }
{
    match path {
        "/v1/order" => has_all(told, &ORDER_NAMES),
        "/v1/map" => has_all(told, &["map"]),
        "/v1/device" => has_all(told, &DEVICE_NAMES),
        "/v1/plan" => has_all(told, &["batch1", "batch2", "state"]),
        "/v1/readback" => has_all(told, &["outcome", "rest", "state"]),
        "/v1/identity" => has_all(told, &IDENTITY_NAMES),
        "/v1/ship" => has_all(told, &["chip", "state"]),
        "/v1/scrap" => has_all(told, &["chip", "state"]),
        "/v1/import" => has_all(told, &["added", "present"]),
        _ => false,
    }
}

/// Whether a text of this name is the same in both, where both have one.
fn agrees(name: &str, asked: &Value, told: &Value) -> bool
    ensures { result ≡ agrees name.now (view asked.now) (view told.now) }
{
    match (text_member(asked, name), text_member(told, name)) {
        (Some(asked), Some(told)) => asked == told,
        _ => true,
    }
}

/// The refusal that a reply says.
fn refusal_in(told: &Value) -> Heard
    ensures { result ≡ refusal_in (view told.now) }
{
    let Some(no) = whole_member(told, "no", 1, 255) else {
        return Heard::Nothing;
    };
    match whole_member(told, "expected", 1, 9007199254740992) {
        Some(expected) => Heard::Refused(no as u8, expected),
        None if no == 11 => Heard::Nothing,
        None => Heard::Refused(no as u8, 0),
    }
}

/// What the reply with this status and this body says, to a request of this path and these members.
pub fn heard_in(status: u16, path: &str, asked: &Value, told: &Value) -> Heard
    ensures { result ≡ heard_of status path.now (view asked.now) (view told.now) }
{
    if status != 200 {
        return refusal_in(told);
    }
    if reply_has(path, told) && agrees("chip", asked, told) && agrees("name", asked, told) {
        Heard::Done
    } else {
        Heard::Nothing
    }
}
