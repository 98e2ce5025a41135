//! Writes replies, and counts the calls of the writer.

ghost use Rattle.std.specs.Prelude.{◌≡◌, ◌≢◌, ◌+◌, ◌<◌, [], false, length};
ghost use Rattle.http_frames.specs.Prelude.{unread};
ghost use Rattle.http_replies.specs.Prelude.{answer_of, reply_text};
ghost use Rattle.http_frames.specs.Prelude.{HasCallsLeft, Sending, SendsWithinCalls};

use crate::buffer::{Buffer, CALL_LIMIT};
use crate::transfer::{Drain, Transfer};
use http_replies::{Flags, HEAD_ROOM, Reply, reply_head};

/// What became of some bytes.
#[derive(Clone, Copy)]
pub enum Sent {
    /// All of them were written.
    All,
    /// The writer failed, or took none of some bytes. A front of them was written.
    Fault,
    /// The stream has made all its calls. A front of them was written.
    TurnLimit,
}

/// Writes all the bytes, or a front of them where the writer fails or no call is left. An interrupted call is made again.
pub fn write_all<W: Drain>(writer: &mut W, bytes: &[u8], buffer: &mut Buffer) -> Sent
    requires { HasCallsLeft (W.calls writer.old) buffer.old.calls }
    ensures sent { Sending (W.written writer.old) (W.written writer.new) bytes.now result }
    ensures counted { SendsWithinCalls W.Drain writer.old writer.new buffer.old buffer.new result }
    ensures some { 0 < length bytes.now → result ≡ Sent.All → buffer.old.calls < buffer.new.calls }
{
    let mut rest = bytes;
    while !rest.is_empty() {
        if buffer.is_out_of_calls() {
            return Sent::TurnLimit;
        }
        buffer.count_call();
        match writer.write(rest) {
            Transfer::Moved(0) | Transfer::Failed => return Sent::Fault,
            Transfer::Moved(count) => rest = &rest[count..],
            Transfer::Interrupted => {}
        }
    }
    Sent::All
}

/// Writes the head of a reply and its body, or a front of them. It takes no memory: the room for the head is the caller's.
fn write_parts<W: Drain>(
    writer: &mut W,
    buffer: &mut Buffer,
    room: &mut [u8; HEAD_ROOM],
    reply: &Reply,
    flags: Flags,
) -> Sent
    requires { HasCallsLeft (W.calls writer.old) buffer.old.calls }
    ensures sent { Sending (W.written writer.old) (W.written writer.new)
        (reply_text (answer_of reply.now) flags.is_head flags.is_last) result }
    ensures counted { SendsWithinCalls W.Drain writer.old writer.new buffer.old buffer.new result }
    ensures some { result ≡ Sent.All → buffer.old.calls < buffer.new.calls }
{
    let len = reply_head(reply, flags, room);
    match write_all(writer, &room[..len], buffer) {
        Sent::All => {}
        Sent::Fault => return Sent::Fault,
        Sent::TurnLimit => return Sent::TurnLimit,
    }
    if flags.is_head {
        return Sent::All;
    }
    write_all(writer, reply.body.as_bytes(), buffer)
}

/// Asks the writer whether it takes more, behind a whole reply that isn't the stream's last one,
/// where something of the next request was read already. Where the writer takes no more, or no call
/// is left to ask it, the stream ends with that reply.
fn end_reply<W: Drain>(writer: &mut W, buffer: &mut Buffer) -> Sent
    requires { HasCallsLeft (W.calls writer.old) buffer.old.calls }
    ensures written { W.written writer.new ≡ W.written writer.old }
    ensures counted { SendsWithinCalls W.Drain writer.old writer.new buffer.old buffer.new result }

    // Behind a reply behind which nothing was read the writer isn't asked; else it is, once.
    ensures unasked { unread buffer.old ≡ []
        → (result ≡ Sent.All) × (buffer.new.calls ≡ buffer.old.calls) }
    ensures asked { 0 < length (unread buffer.old) → result ≢ Sent.TurnLimit
        → buffer.new.calls ≡ buffer.old.calls + 1 }
    ensures unaskable { result ≡ Sent.TurnLimit → buffer.new.calls ≡ buffer.old.calls }
{
    if !buffer.has_unread() {
        return Sent::All;
    }
    if buffer.is_out_of_calls() {
        return Sent::TurnLimit;
    }
    buffer.count_call();
    if writer.goes_on() {
        Sent::All
    } else {
        Sent::Fault
    }
}

/// Writes a reply, or a front of it (RFC 9112, section 2.1). It takes no memory: the room for the head is the caller's.
///
/// Where the reply isn't the stream's last one and something of the next request was read already,
/// the writer is asked behind it whether it takes more. `Fault` where it doesn't: the reply was
/// written whole then.
pub fn write_reply<W: Drain>(
    writer: &mut W,
    buffer: &mut Buffer,
    room: &mut [u8; HEAD_ROOM],
    reply: &Reply,
    flags: Flags,
) -> Sent
    requires { HasCallsLeft (W.calls writer.old) buffer.old.calls }
    ensures sent { Sending (W.written writer.old) (W.written writer.new)
        (reply_text (answer_of reply.now) flags.is_head flags.is_last) result }
    ensures counted { SendsWithinCalls W.Drain writer.old writer.new buffer.old buffer.new result }
    ensures some { result ≡ Sent.All → buffer.old.calls < buffer.new.calls }

    // The next request isn't served before the writer was asked whether it takes more.
    ensures asked { result ≡ Sent.All → flags.is_last ≡ false → 0 < length (unread buffer.old)
        → buffer.old.calls + 1 < buffer.new.calls }
{
    match write_parts(writer, buffer, room, reply, flags) {
        Sent::All if !flags.is_last => end_reply(writer, buffer),
        sent => sent,
    }
}
