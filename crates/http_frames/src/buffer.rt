//! The bytes of a stream that were read and not yet served.

ghost use Rattle.std.specs.Prelude.{◌≡◌, ◌+◌, ◌-◌, ◌<◌, ◌≤◌, ◌^◌, [], ◌↔◌, ◌==◌, true, IsTrue, length, take, drop, IfOk, Option, vec_len};
ghost use Rattle.http_frames.specs.Transfers.{ReadsBytes, failures_of};
ghost use Rattle.http_frames.specs.Looks.{IsLook};
ghost use Rattle.http_frames.specs.Buffers.{unread, count_of, KeepsBytes, IsFramed, IsEnd, faults_of, end_of_framed};

use crate::frame::Framed;
use crate::look;
use crate::transfer::{Source, Transfer};
use httparse::spans::{EMPTY_HEADER_SPAN, HeaderSpan};
use std::alloc::{AllocError, Global};
use std::marker::Model;

/// The room for a head of 8,192 bytes and a body of 65,536 bytes.
pub const ROOM: usize = 73_728;

/// How many calls of its reader and its writer together a stream may make. A call that is interrupted counts.
pub const CALL_LIMIT: u32 = 16_777_216;

/// The bytes, spans and count of calls of one stream. It is made once, and takes no memory later.
#[derive(Drop)]
pub struct Buffer {
    bytes: Vec<u8>,
    spans: [HeaderSpan; 64],
    len: usize,
    taken: usize,
    calls: u32,
}

impl Model for Buffer {
    ghost use Rattle.std.specs.Prelude.{◌≡◌, ◌≤◌, take, vec_len};
    ghost use Rattle.http_frames.specs.Buffers.{BufferValue};

    ghost Value = { BufferValue };

    ghost view = { λ b. record {
      window = take b.len b.bytes.items;
      taken = b.taken;
      spans = b.spans;
      calls = b.calls;
    } };

    ghost invariant = { λ b. (vec_len b.bytes ≡ 73728) × (b.len ≤ 73728) × (b.taken ≤ b.len)
        × (b.calls ≤ 16777216) };
}

/// Moves the bytes from `from` up to `len` to the front.
fn move_down(bytes: &mut [u8], from: usize, len: usize)
    requires { (from ≤ len) × (len ≤ length bytes.old) }
    ensures { take (len - from) bytes.new ≡ drop from (take len bytes.old) }
{
    bytes.copy_within(from..len, 0);
}

/// Reads behind the first `len` bytes.
fn read_behind<R: Source>(reader: &mut R, bytes: &mut [u8], len: usize) -> Transfer
    requires room { len ≤ length bytes.old }
    requires calls { R.calls reader.old + 1 < 2 ^ 64 }
    ensures counted { R.calls reader.new ≡ R.calls reader.old + 1 }
    ensures failed { R.failures reader.new ≡ R.failures reader.old + failures_of result }
    ensures most { len + count_of result ≤ length bytes.new }
    ensures before { take len bytes.new ≡ take len bytes.old }
    ensures bytes { ReadsBytes (R.left reader.old) (R.left reader.new) (drop len bytes.new) result }
{
    reader.read(&mut bytes[len..])
}

/// Reads behind the first `len` bytes: with the bytes that are left, the first ones are the same bytes as before.
fn read_more<R: Source>(reader: &mut R, bytes: &mut [u8], len: usize) -> Transfer
    requires room { len ≤ length bytes.old }
    requires calls { R.calls reader.old + 1 < 2 ^ 64 }
    ensures counted { R.calls reader.new ≡ R.calls reader.old + 1 }
    ensures failed { R.failures reader.new ≡ R.failures reader.old + failures_of result }
    ensures most { len + count_of result ≤ length bytes.new }
    ensures still { count_of result ≡ 0 → take (len + count_of result) bytes.new
        ≡ take len bytes.old }
    ensures bytes { KeepsBytes (take len bytes.old) (R.left reader.old)
        (take (len + count_of result) bytes.new) (R.left reader.new)
        (len < length bytes.old × result ≡ Transfer.Moved 0) }
{
    read_behind(reader, bytes, len)
}

/// The memory of a buffer.
fn make_room(alloc: Global) -> Result<Vec<u8>, AllocError>
    ensures { IfOk result (λ bytes. vec_len bytes ≡ ROOM) }
{
    vec![in alloc; 0; ROOM]
}

impl Buffer {
    /// An empty buffer. No other call takes memory.
    pub fn new(alloc: Global) -> Result<Buffer, AllocError>
        ensures empty { IfOk result (λ buffer. (buffer.window ≡ []) × (buffer.taken ≡ 0)) }
        ensures uncalled { IfOk result (λ buffer. buffer.calls ≡ 0) }
    {
        Ok(Buffer {
            bytes: make_room(alloc)?,
            spans: [EMPTY_HEADER_SPAN; 64],
            len: 0,
            taken: 0,
            calls: 0,
        })
    }

    /// The bytes that were read and not yet given up, those of the last request first.
    pub fn window(&self) -> &[u8]
        ensures { result.now ≡ self.now.window }
    {
        &self.bytes[..self.len]
    }

    /// Where the fields of the last request stand in the window.
    pub(crate) fn spans(&self) -> &[HeaderSpan]
        ensures { result.now ≡ self.now.spans }
    {
        &self.spans
    }

    /// Counts a call of the reader or the writer.
    pub fn count_call(&mut self)
        requires { self.old.calls < CALL_LIMIT }
        ensures { self.new ≡ record self.old { calls = self.old.calls + 1 } }
    {
        self.calls += 1;
    }

    /// Whether no byte is held.
    fn is_empty(&self) -> bool
        requires { self.now.taken ≡ 0 }
        ensures { result ≡ true ↔ (self.now.window ≡ []) }
    {
        self.len == 0
    }

    /// Whether bytes were read that no request took yet.
    pub fn has_unread(&self) -> bool
        ensures { IsTrue result ↔ (0 < length (unread self.now)) }
    {
        self.taken < self.len
    }

    /// Whether the stream has made all its calls.
    pub fn is_out_of_calls(&self) -> bool
        ensures limit { self.now.calls ≤ CALL_LIMIT }
        ensures out { result ≡ (self.now.calls == CALL_LIMIT) }
    {
        self.calls == CALL_LIMIT
    }

    /// Gives up the bytes of the last request.
    fn discard_taken(&mut self)
        ensures { self.new ≡ record self.old { window = unread self.old; taken = 0 } }
    {
        move_down(&mut self.bytes, self.taken, self.len);
        self.len -= self.taken;
        self.taken = 0;
    }

    /// What stands at the front of the bytes, whose request is then taken.
    fn look(&mut self) -> Option<Framed>
        requires { self.old.taken ≡ 0 }
        ensures window { self.new.window ≡ self.old.window }
        ensures calls { self.new.calls ≡ self.old.calls }
        ensures limit { self.new.calls ≤ CALL_LIMIT }
        ensures taken { self.new.taken ≡ end_of_framed result }
        ensures look { IsLook self.new.window self.new.spans result }
    {
        let found = look::look(&self.bytes[..self.len], &mut self.spans);
        if let Some(Framed::Request(frame)) = &found {
            self.taken = frame.end;
        }
        found
    }

    /// Reads more bytes.
    fn fill<R: Source>(&mut self, reader: &mut R) -> Transfer
        requires calls { self.old.calls < CALL_LIMIT }
        requires reader { R.calls reader.old + 1 < 2 ^ 64 }
        ensures counted { R.calls reader.new ≡ R.calls reader.old + 1 }
        ensures failed { R.failures reader.new ≡ R.failures reader.old + failures_of result }
        ensures still { count_of result ≡ 0 → self.new.window ≡ self.old.window }
        ensures taken { self.new.taken ≡ self.old.taken }
        ensures calls { self.new.calls ≡ self.old.calls + 1 }
        ensures bytes { KeepsBytes self.old.window (R.left reader.old) self.new.window
            (R.left reader.new)
            (length self.old.window < ROOM × result ≡ Transfer.Moved 0) }
    {
        self.count_call();
        let moved = read_more(reader, &mut self.bytes, self.len);
        if let Transfer::Moved(count) = moved {
            self.len += count;
        }
        moved
    }
}

/// Cuts the next request from the stream, or says what is there instead (RFC 9112, section 6.3). It takes no memory.
///
/// What the contract says of a request or a refusal holds of the bytes in the buffer alone. These
/// and the bytes that are left are the bytes that there were. So it holds of the stream, in whatever
/// pieces it came.
pub fn read_request<R: Source>(reader: &mut R, buffer: &mut Buffer) -> Framed
    requires { R.calls reader.old + 2 ^ 25 < 2 ^ 64 + buffer.old.calls }
    ensures framed { IsFramed buffer.new result }
    ensures bytes { KeepsBytes (unread buffer.old) (R.left reader.old) buffer.new.window
        (R.left reader.new) (IsEnd result) }
    ensures calls { R.calls reader.new + buffer.old.calls ≡ R.calls reader.old + buffer.new.calls }
    ensures limit { (buffer.old.calls ≤ buffer.new.calls) × (buffer.new.calls ≤ CALL_LIMIT) }
    ensures failures { R.failures reader.new ≡ R.failures reader.old + faults_of result }
{
    buffer.discard_taken();
    loop {
        if let Some(framed) = buffer.look() {
            return framed;
        }
        if buffer.is_out_of_calls() {
            return Framed::TurnLimit;
        }
        match buffer.fill(reader) {
            Transfer::Moved(0) if buffer.is_empty() => return Framed::Nothing,
            Transfer::Moved(0) => return Framed::Cut,
            Transfer::Moved(_) | Transfer::Interrupted => {}
            Transfer::Failed => return Framed::ReadFault,
        }
    }
}
