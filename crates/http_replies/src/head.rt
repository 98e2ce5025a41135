//! Writes what stands in front of a reply's body.

ghost use Rattle.std.specs.Prelude.{◌≡◌, ◌+◌, ◌<◌, ◌≤◌, ◌++◌, length, take, codes, decimal};
ghost use Rattle.http_replies.specs.Prelude.{answer_of, code_of, phrase_of, line_if, head_text};

use crate::{Flags, Reply, Status};
use itoa::Buffer;

/// Room for the longest head of a reply, in bytes.
pub const HEAD_ROOM: usize = 256;

/// Puts a text behind the first `at` bytes, and answers where it ends.
fn put(room: &mut [u8], at: usize, text: &[u8]) -> usize
    requires { at + length text.now ≤ length room.old }
    ensures end { result ≡ at + length text.now }
    ensures text { take result room.new ≡ take at room.old ++ text.now }
{
    let end = at + text.len();
    room[at..end].copy_from_slice(text);
    end
}

/// Puts a number in decimal digits behind the first `at` bytes, and answers where it ends.
fn put_number(room: &mut [u8], at: usize, number: u64) -> usize
    requires { at + 20 ≤ length room.old }
    ensures short { (at ≤ result) × (result ≤ at + 20) }
    ensures text { take result room.new ≡ take at room.old ++ decimal number }
{
    let mut digits = Buffer::new();
    put(room, at, digits.format(number).as_bytes())
}

/// Puts a line behind the first `at` bytes if it is to be there, and answers where the bytes end.
fn put_if(room: &mut [u8], at: usize, holds: bool, line: &[u8]) -> usize
    requires { at + length line.now ≤ length room.old }
    ensures short { (at ≤ result) × (result ≤ at + length line.now) }
    ensures text { take result room.new ≡ take at room.old ++ line_if holds line.now }
{
    if holds { put(room, at, line) } else { at }
}

/// Writes the status line without its end (RFC 9112, section 4).
fn put_status(room: &mut [u8], status: Status) -> usize
    requires { 64 ≤ length room.old }
    ensures short { (0 < result) × (result ≤ 51) }
    ensures text { take result room.new ≡ codes "HTTP/1.1 " ++ decimal (code_of status) ++ codes " "
        ++ phrase_of status }
{
    let mut at = put(room, 0, b"HTTP/1.1 ");
    at = put_number(room, at, u64::from(status.code()));
    at = put(room, at, b" ");
    put(room, at, status.phrase().as_bytes())
}

/// Writes what stands in front of the body, up to and with the empty line, and answers how many
/// bytes that is (RFC 9112, section 2.1). It takes no memory. `Content-Length` is the body's size,
/// whatever the request's method was.
pub fn reply_head(reply: &Reply, flags: Flags, room: &mut [u8; HEAD_ROOM]) -> usize
    ensures within { (0 < result) × (result ≤ 256) }
    ensures text { take result room.new ≡ head_text (answer_of reply.now) flags.is_last }
{
    let mut at = put_status(room, reply.status);
    at = put(room, at, b"\r\nContent-Type: ");
    at = put(room, at, reply.kind().media_type().as_bytes());
    at = put(room, at, b"\r\nContent-Length: ");
    at = put_number(room, at, reply.body.as_bytes().len() as u64);
    at = put(room, at, b"\r\n");
    at = put_if(
        room,
        at,
        reply.status.asks_token(),
        b"WWW-Authenticate: Bearer\r\n",
    );
    at = put_if(room, at, flags.is_last, b"Connection: close\r\n");
    put(room, at, b"\r\n")
}
