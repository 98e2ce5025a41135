// The bytes that a station sends.
ghost use Rattle.std.specs.Prelude.{◌≡◌, ◌++◌, IfOk, string_bytes};
ghost use Rattle.serde_json.specs.View.{view};
ghost use Rattle.seat_ask.specs.Prelude.{IsTextOf, numbered, numbered_in, request_bytes, size_bytes, target_bytes, token_bytes};

use crate::reading::TextFault::{self, OtherForm};
use crate::reading::read_value;
use serde_json::Value;
use std::alloc::{AllocError, Global};

/// The body of a request with this number, by the text of its members. A number that is among them
/// gives way to this one.
///
/// # Errors
///
/// `OtherForm` where the text is no JSON object, or `NoMemory`.
pub fn body_text(alloc: Global, number: u64, members: &[u8]) -> Result<String, TextFault>
    ensures { IsTextOf (numbered_in number members.now) result }
{
    let value = read_value(alloc, members)?;
    numbered_text(alloc, number, value)
}

/// The text of an object with this number among its members.
fn numbered_text(alloc: Global, number: u64, value: Value) -> Result<String, TextFault>
    ensures { IsTextOf (numbered number (view value)) result }
{
    let Value::Object(mut members) = value else {
        return Err(OtherForm);
    };
    serde_json::put(&mut members, alloc, "nr", Value::from(number))?;
    Ok(Value::Object(members).to_string(alloc)?)
}

/// The request line of a POST, and where it goes.
fn target_text(alloc: Global, path: &str, host: &str) -> Result<String, AllocError>
    ensures { IfOk result (λ text. string_bytes text ≡ target_bytes path.now host.now) }
{
    format!(in alloc; "POST {path} HTTP/1.1\r\nHost: {host}\r\n")
}

/// Whose request it is.
fn token_text(alloc: Global, token: &str) -> Result<String, AllocError>
    ensures { IfOk result (λ text. string_bytes text ≡ token_bytes token.now) }
{
    format!(in alloc; "Authorization: Bearer {token}\r\n")
}

/// How long its body is, and the end of its head.
fn size_text(alloc: Global, size: usize) -> Result<String, AllocError>
    ensures { IfOk result (λ text. string_bytes text ≡ size_bytes size) }
{
    format!(in alloc;
        "Content-Type: application/json\r\nContent-Length: {size}\r\nConnection: close\r\n\r\n"
    )
}

/// One text behind another.
fn joined(alloc: Global, first: &str, second: &str) -> Result<String, AllocError>
    ensures { IfOk result (λ text. string_bytes text ≡ first.now ++ second.now) }
{
    format!(in alloc; "{first}{second}")
}

/// A request as it is sent, over a connection that ends behind its reply.
pub fn request_text(
    alloc: Global,
    host: &str,
    token: &str,
    path: &str,
    body: &str,
) -> Result<String, AllocError>
    ensures { IfOk result (λ text. string_bytes text
        ≡ request_bytes host.now token.now path.now body.now) }
{
    let target = target_text(alloc, path, host)?;
    let token = token_text(alloc, token)?;
    let size = size_text(alloc, body.len())?;
    let front = joined(alloc, target.as_str(), token.as_str())?;
    let rest = joined(alloc, size.as_str(), body)?;
    joined(alloc, front.as_str(), rest.as_str())
}
