//! Conversations with the server: texts of requests, each with the reply that it must get.
//!
//! The line of a request is its caller, the method, the target and the body, and the line after it
//! is the status and the body of the reply. That of a report is `csv` and its text, with `|` for
//! each line feed. A reply may go on over lines that begin with a space: it is its lines without
//! the spaces in front of them, one after another. Empty lines and those that begin with `#` say
//! nothing.
//!
//! A conversation may begin with a line `@ NAME`: the requests and replies of a prelude come first.
pub mod beginnings;
pub mod devices;
pub mod edges;
pub mod growths;
pub mod identities;
pub mod maps;
pub mod orders;
mod placeholders;
pub mod plans;
mod preludes;
pub mod reports;
pub mod runs;

pub use placeholders::filled;
use placeholders::filled_bytes;
use preludes::parts_of_prelude;
use std::alloc::{AllocError, Global};
use std::str;
use std::test::Fail;

/// A request of a conversation with the reply that it must get.
#[derive(Clone, Copy)]
pub struct Exchange<'a> {
    /// The name of the prelude in which it stands, or nothing.
    pub prelude: &'a str,
    /// The number of the request's line, from 1 on: in its conversation, or in its part of the
    /// prelude. Behind `r#"` a text begins with an empty line.
    pub line: usize,
    /// The request, as a line.
    pub asked: &'a str,
    /// The reply, over one line or more.
    pub wanted: &'a str,
}

/// The callers of the sample site and of those that grew from it, seats and the manager, and their
/// tokens.
const TOKENS: &[(&str, &str)] = &[
    ("a1", "abc"),
    ("b1", "hello"),
    ("b2", "world"),
    ("c1", "key"),
    ("manager", "test"),
];

/// A token that nobody has.
const NO_TOKEN: &str = "zzz";

/// Statuses and their phrases (RFC 9110, section 15).
const PHRASES: &[(&str, &str)] = &[
    ("200", "OK"),
    ("400", "Bad Request"),
    ("403", "Forbidden"),
    ("404", "Not Found"),
    ("409", "Conflict"),
    ("422", "Unprocessable Entity"),
    ("503", "Service Unavailable"),
];

/// What a table has beside a name.
fn listed(table: &'static [(&'static str, &'static str)], name: &str) -> Option<&'static str> {
    for row in table {
        if row.0 == name {
            return Some(row.1);
        }
    }
    None
}

/// The bytes of the request of a line.
///
/// # Errors
///
/// The line isn't of a request, or memory runs out.
pub fn request(alloc: Global, line: &str) -> Result<Vec<u8>, Fail> {
    let (caller, rest) = line.split_once(" ").ok_or("no caller")?;
    let (method, rest) = rest.split_once(" ").ok_or("no method")?;
    let (target, body) = rest.split_once(" ").unwrap_or((rest, ""));
    let token = listed(TOKENS, caller).unwrap_or(NO_TOKEN);
    let body = filled_bytes(alloc, body)?;
    let size = body.len();
    let head = format!(in alloc;
        "{method} {target} HTTP/1.1\r\nAuthorization: Bearer {token}\r\nContent-Length: {size}\r\n\r\n"
    )?;
    let mut bytes = head.as_bytes().to_vec(alloc)?;
    bytes.extend_from_slice(body.as_slice())?;
    Ok(bytes)
}

/// What stands on lines of which each goes on with the one before: each without the spaces in front
/// of it, one after another. No text in quotation marks has a line feed, so they stand between
/// members.
///
/// # Errors
///
/// Memory runs out.
pub fn joined(alloc: Global, lines: &str) -> Result<String, AllocError> {
    let mut text = String::new(alloc);
    for line in lines.lines() {
        text.push_str(line.trim_start())?;
    }
    Ok(text)
}

/// The bytes of a reply.
///
/// # Errors
///
/// The lines aren't of a reply, or memory runs out.
pub fn reply(alloc: Global, lines: &str) -> Result<String, Fail> {
    let line = joined(alloc, lines)?;
    let (status, body) = line.as_str().split_once(" ").ok_or("no status")?;
    if status == "csv" {
        return report(alloc, body);
    }
    let phrase = listed(PHRASES, status).ok_or("no such status")?;
    let body = filled(alloc, body)?;
    let size = body.len();
    Ok(format!(in alloc;
        "HTTP/1.1 {status} {phrase}\r\nContent-Type: application/json\r\nContent-Length: {size}\r\n\r\n{body}"
    )?)
}

/// The bytes of the reply with a report.
fn report(alloc: Global, lines: &str) -> Result<String, Fail> {
    let text = lines.replace(alloc, "|", "\n")?;
    let size = text.len();
    Ok(format!(in alloc;
        "HTTP/1.1 200 OK\r\nContent-Type: text/csv\r\nContent-Length: {size}\r\n\r\n{text}"
    )?)
}

/// Whether a line says nothing.
fn is_silent(line: &str) -> bool {
    line.is_empty() || line.starts_with("#")
}

/// The name of the prelude with which a conversation begins, or nothing.
fn name_of_prelude(conversation: &str) -> &str {
    for line in conversation.lines() {
        if !is_silent(line) {
            return line.strip_prefix("@ ").unwrap_or("");
        }
    }
    ""
}

/// Whether a line is a request, or the first line of a reply.
fn is_said(line: &str) -> bool {
    !is_silent(line) && !line.starts_with(" ") && !line.starts_with("@ ")
}

/// Why a text has no exchanges, or nothing where it has. A line that names a prelude may stand in
/// front of all that it asks for, and in no prelude.
fn fault_of(prelude: &str, text: &str) -> &'static str {
    let mut is_begun = !prelude.is_empty();
    let mut is_asked = false;
    let mut may_go_on = false;
    for line in text.split("\n") {
        if line.starts_with(" ") {
            if !may_go_on {
                return "no reply goes on";
            }
        } else if is_silent(line) {
            may_go_on = false;
        } else if line.starts_with("@ ") {
            if is_begun {
                return "a prelude behind the beginning";
            }
            is_begun = true;
        } else {
            may_go_on = is_asked;
            is_asked = !is_asked;
            is_begun = true;
        }
    }
    if is_asked {
        "a request without a reply"
    } else {
        ""
    }
}

/// The reply that begins at a place of a text: its line, and those with which it goes on.
fn reply_at(text: &str, start: usize) -> Option<&str> {
    let mut end = start;
    for line in text.get(start..)?.split("\n") {
        if start < end && !line.starts_with(" ") {
            break;
        }
        end = end.saturating_add(line.len()).saturating_add(1);
    }
    text.get(start..end.saturating_sub(1))
}

/// Puts the exchanges of a text behind others.
fn push_exchanges<'a>(
    exchanges: &mut Vec<Exchange<'a>>,
    prelude: &'a str,
    text: &'a str,
) -> Result<(), Fail> {
    let fault = fault_of(prelude, text);
    if !fault.is_empty() {
        return Err(Fail::from(fault));
    }
    let mut asked = None;
    let mut start = 0usize;
    for (index, line) in text.split("\n").enumerate() {
        if is_said(line) {
            if let Some((line_asked, request)) = asked {
                exchanges.push(Exchange {
                    prelude,
                    line: line_asked,
                    asked: request,
                    wanted: reply_at(text, start).unwrap_or(line),
                })?;
                asked = None;
            } else {
                asked = Some((index.saturating_add(1), line));
            }
        }
        start = start.saturating_add(line.len()).saturating_add(1);
    }
    Ok(())
}

/// The requests of a conversation, each with its reply, those of its prelude first.
///
/// # Errors
///
/// The text isn't a conversation, or memory runs out.
pub fn exchanges(alloc: Global, conversation: &str) -> Result<Vec<Exchange<'_>>, Fail> {
    let mut exchanges = Vec::new(alloc);
    let prelude = name_of_prelude(conversation);
    for part in parts_of_prelude(prelude).ok_or("no such prelude")? {
        push_exchanges(&mut exchanges, prelude, part)?;
    }
    push_exchanges(&mut exchanges, "", conversation)?;
    Ok(exchanges)
}

/// What stands between the reply that a request must get and what it got.
const GOT: &str = " -> ";

/// An exchange whose request got something else: where it stands, what it asks, the reply that it
/// must get, and behind an arrow what it got.
///
/// # Errors
///
/// Memory runs out.
pub fn told(
    alloc: Global,
    exchange: Exchange<'_>,
    wanted: &str,
    got: &str,
) -> Result<String, AllocError> {
    let Exchange {
        prelude,
        line,
        asked,
        ..
    } = exchange;
    let mark = if prelude.is_empty() { "" } else { "@ " };
    let gap = if prelude.is_empty() { "" } else { ", " };
    format!(in alloc; "{mark}{prelude}{gap}line {line}: {asked}: {wanted}{GOT}{got}")
}

/// The reply with 503, which is always this one.
const UNKEPT: &str =
    "HTTP/1.1 503 Service Unavailable\r\nContent-Type: application/json\r\nContent-Length: 26\r\n\r\n{\"error\":\"unkept\",\"no\":50}";

/// Whether what was told is that a request got 503, as it must stand, or no reply.
pub fn is_unanswered(found: &str) -> bool {
    match found.split_once(GOT) {
        Some((_, got)) => got.is_empty() || got == UNKEPT,
        None => false,
    }
}

/// What the request of an exchange got where it isn't the reply that it must get: nothing where it
/// is.
///
/// # Errors
///
/// The exchange has no reply, or memory runs out.
pub fn difference(alloc: Global, exchange: Exchange<'_>, got: &[u8]) -> Result<String, Fail> {
    let wanted = reply(alloc, exchange.wanted)?;
    if got == wanted.as_bytes() {
        return Ok(String::new(alloc));
    }
    let said = str::from_utf8(got).unwrap_or("no text");
    Ok(told(alloc, exchange, wanted.as_str(), said)?)
}
