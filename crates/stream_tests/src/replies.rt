//! What a client got, as a text: the statuses and the lengths of the replies.
use std::alloc::Global;
use std::test::Fail;

/// The end of a reply's head.
const HEAD_END: &str = "\r\n\r\n";

/// The field of a head that says how long the body is.
const LENGTH: &str = "Content-Length: ";

/// The reply in front of a text: its status and its body's length with a colon between them, and what
/// follows it.
fn first_reply(alloc: Global, got: &str) -> Result<Option<(String, &str)>, Fail> {
    let Some((head, behind)) = got.split_once(HEAD_END) else {
        return Ok(None);
    };
    let (_, length) = head.split_once(LENGTH).ok_or("no length")?;
    let length = length.split("\r\n").next().unwrap_or("");
    let count = length.parse::<usize>().map_err(|_| "no number")?;
    let status = head.split(' ').nth(1).ok_or("no status")?;
    match behind.get(count..) {
        Some(rest) => Ok(Some((format!(in alloc; "{status}:{length}")?, rest))),
        None => Ok(None),
    }
}

/// Puts a reply that comes so often behind a text.
fn push_run(alloc: Global, told: &mut String, count: usize, reply: &str) -> Result<(), Fail> {
    let comma = if told.is_empty() { "" } else { " " };
    let run = match count {
        0 => return Ok(()),
        1 => format!(in alloc; "{comma}{reply}")?,
        _ => format!(in alloc; "{comma}{count}x{reply}")?,
    };
    Ok(told.push_str(run.as_str())?)
}

/// The replies that some bytes are: of each its status and its body's length, of equal ones behind each
/// other how many, and how many bytes are left behind all of them.
pub fn told_replies(alloc: Global, got: &[u8]) -> Result<String, Fail> {
    let mut rest = str::from_utf8(got).map_err(|_| "no text")?;
    let mut told = String::new(alloc);
    let mut last = String::new(alloc);
    let mut count = 0usize;
    for _reply in 0..got.len() {
        let Some((reply, behind)) = first_reply(alloc, rest)? else {
            break;
        };
        if reply.as_str() != last.as_str() {
            push_run(alloc, &mut told, count, last.as_str())?;
            last = reply;
            count = 0;
        }
        count = count.saturating_add(1);
        rest = behind;
    }
    push_run(alloc, &mut told, count, last.as_str())?;
    if !rest.is_empty() || told.is_empty() {
        let part = format!(in alloc; "{} bytes", rest.len())?;
        push_run(alloc, &mut told, 1, part.as_str())?;
    }
    Ok(told)
}
