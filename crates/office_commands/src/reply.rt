// What a seat is answered.
ghost use Rattle.std.specs.Prelude.{◌≡◌, IfOk, option_map, string_bytes};
ghost use Rattle.serde_json.specs.View.{view};
ghost use Rattle.http_replies.specs.Prelude.{answer_of, bytes_of_body, kind_of_body};
ghost use Rattle.http_replies.specs.declared.Kind.{Kind};
ghost use Rattle.office_commands.specs.Prelude.{refusal_body, acceptance, refusal, text_data, order_data, map_data, unkept};
ghost use Rattle.id_ranges.specs.Prelude.{mac_text};
ghost use Rattle.office_commands.specs.Replies as replies;

use crate::Refusal;
use crate::refusal::RefusalRow;
use http_replies::{Body, Reply, Status};
use id_ranges::{Mac, NotBefore};
use office_tables::{Order, Unkept};
use serde_json::{Value, json};
use std::alloc::{AllocError, Global};
use text_core::Digest;

/// The reply to an accepted request: status 200 with a JSON text.
pub fn accepted(body: String) -> Reply
    ensures { answer_of result ≡ acceptance (string_bytes body) }
{
    Reply {
        status: Status::Success,
        body: Body::Json(body),
    }
}

/// The reply to what is refused by its name and its number alone.
fn constant(row: RefusalRow) -> Reply
    ensures { answer_of result ≡ record {
      status = row.status;
      kind = Kind.Json;
      body = row.text.now;
    } }
{
    Reply {
        status: row.status,
        body: Body::Constant(row.text),
    }
}

/// The reply to a request that finds no memory or a failing store: status 503 with a constant. It
/// takes no memory.
pub fn unavailable(cause: Unkept) -> Reply
    ensures { answer_of result ≡ refusal unkept }
{
    constant(Refusal::Unkept(cause).row())
}

/// The reply to a request without the token of a caller: status 401 with a constant. It takes no
/// memory.
pub fn unknown_token() -> Reply
    ensures { answer_of result ≡ refusal Refusal.UnknownToken }
{
    constant(Refusal::UnknownToken.row())
}

/// The reply to a refused request. Only those that name a number or a serial number take memory.
pub fn refused(alloc: Global, reason: Refusal) -> Result<Reply, AllocError>
    ensures { IfOk result (λ reply. answer_of reply ≡ refusal reason) }
{
    Ok(Reply {
        status: reason.status(),
        body: refusal_text(alloc, reason)?,
    })
}

fn refusal_text(alloc: Global, reason: Refusal) -> Result<Body, AllocError>
    ensures kind { IfOk result (λ body. kind_of_body body ≡ Kind.Json) }
    ensures text { IfOk result (λ body. bytes_of_body body ≡ refusal_body reason) }
{
    let RefusalRow {
        number,
        name,
        text,
        ..
    } = reason.row();
    Ok(Body::Constant(match reason {
        Refusal::WrongNumber(expected) => {
            return Ok(Body::Json(format!(in alloc;
                "{{\"error\":\"{name}\",\"expected\":{expected},\"no\":{number}}}"
            )?));
        }
        Refusal::BadMap(fault) => {
            return Ok(Body::Json(format!(in alloc;
                "{{\"error\":\"{name}\",\"fault\":{fault},\"no\":{number}}}"
            )?));
        }
        Refusal::ImportConflict(serial) => {
            let serial = serial.as_str();
            return Ok(Body::Json(format!(in alloc;
                "{{\"error\":\"{name}\",\"no\":{number},\"serial\":\"{serial}\"}}"
            )?));
        }
        _ => text,
    }))
}

/// A text in JSON, `null` where there is none. Fails where memory runs out.
pub(crate) fn text_value(alloc: Global, text: Option<&str>) -> Result<Value, AllocError>
    ensures { IfOk result (λ v. view v ≡ text_data (option_map (λ t. t.now) text.entry)) }
{
    match text {
        Some(text) => Value::try_from_str(alloc, text),
        None => Ok(Value::Null),
    }
}

/// An address in JSON as twelve hexadecimal digits, `null` where there is none. Fails where memory runs out.
pub(crate) fn mac_value(alloc: Global, mac: Option<Mac>) -> Result<Value, AllocError>
    ensures { IfOk result (λ v. view v ≡ text_data (option_map mac_text mac)) }
{
    match mac {
        Some(mac) => Ok(Value::String(mac.to_string(alloc)?)),
        None => Ok(Value::Null),
    }
}

/// A beginning of validity in JSON, `null` where there is none. Fails where memory runs out.
pub(crate) fn not_before_value(
    alloc: Global,
    not_before: Option<NotBefore>,
) -> Result<Value, AllocError>
    ensures { IfOk result (λ v. view v ≡ text_data not_before) }
{
    match not_before {
        Some(not_before) => Value::try_from_str(alloc, not_before.as_str()),
        None => Ok(Value::Null),
    }
}

fn order_value(alloc: Global, order: &Order, next: Option<&str>) -> Result<Value, AllocError>
    ensures { IfOk result (λ v. view v ≡ order_data order.now
        (option_map (λ t. t.now) next.entry)) }
{
    let mac = mac_value(alloc, order.mac)?;
    let next = text_value(alloc, next)?;
    let not_before = not_before_value(alloc, order.not_before)?;
    json!(in alloc; {
        "first": order.range.first(),
        "issuer": order.issuer.as_str(),
        "mac": mac,
        "macs": order.macs,
        "name": order.name.as_str(),
        "next": next,
        "not_before": not_before,
        "prefix": order.range.prefix().as_str(),
        "quantity": order.range.quantity(),
        "width": order.range.width()
    })
}

/// The body that shows an order with its next serial number, if there is one.
#[tactic(auto, unfolding(crate::specs::Replies::order_body))]
pub fn order_body(alloc: Global, order: &Order, next: Option<&str>) -> Result<String, AllocError>
    ensures { IfOk result (λ body. string_bytes body ≡ replies.order_body order.now
        (option_map (λ t. t.now) next.entry)) }
{
    order_value(alloc, order, next)?.to_string(alloc)
}

fn map_value(alloc: Global, digest: &Digest) -> Result<Value, AllocError>
    ensures { IfOk result (λ v. view v ≡ map_data digest.now) }
{
    let text = digest.to_string(alloc)?;
    json!(in alloc; { "map": text.as_str() })
}

/// The body that names a fuse map by the digest of its text, in lower case.
#[tactic(auto, unfolding(crate::specs::Replies::map_body))]
pub fn map_body(alloc: Global, digest: &Digest) -> Result<String, AllocError>
    ensures { IfOk result (λ body. string_bytes body ≡ replies.map_body digest.now) }
{
    map_value(alloc, digest)?.to_string(alloc)
}
