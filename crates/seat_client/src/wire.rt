// One request over a connection of its own, and its reply.
ghost use Rattle.std.specs.Prelude.{◌≡◌, ◌-◌, IfOk, IfSome, Some, drop, option_map, take};
ghost use Rattle.serde_json.specs.View.{view};
ghost use Rattle.members.specs.Prelude.{json_of};
ghost use Rattle.seat_ask.specs.Prelude.{IsReply};

use crate::choices::read_text;
use crate::failure::AskFailure;
use httparse::spans::{EMPTY_HEADER_SPAN, HeaderSpan};
use seat_ask::{ReplyCut, cut_reply};
use serde_json::Value;
use std::alloc::Global;
use std::io::{ErrorKind, Read, Write};
use std::net::{OpenStream, TcpStream};
use std::time::{Duration, Instant};

/// The most bytes of a reply: a head of 8,192 and a body of 65,536.
const REPLY_LIMIT: usize = 73_728;

/// How many bytes one read takes at the most.
const PIECE: usize = 4096;

/// How long a whole reply is waited for, in seconds.
const WHOLE_SECONDS: u64 = 90;

/// How long one read waits, in seconds.
const READ_SECONDS: u64 = 1;

/// A reply as it was heard: its status and its members.
#[derive(Drop)]
pub struct Told {
    pub status: u16,
    pub members: Value,
}

/// Sends a request, and gives the reply that came; none where there is no whole one.
pub fn exchange(
    rt: &HostRuntime,
    alloc: Global,
    host: &str,
    request: &str,
) -> Result<Option<Told>, AskFailure> {
    match sent(rt, host, request) {
        Some(stream) => received(rt, alloc, stream),
        None => Ok(None),
    }
}

/// The connection over which the request was sent.
fn sent(rt: &HostRuntime, host: &str, request: &str) -> Option<TcpStream> {
    let mut stream = TcpStream::connect(rt, host).ok()?;
    let wait = Some(Duration::from_secs(READ_SECONDS));
    let whole = Some(Duration::from_secs(WHOLE_SECONDS));
    stream.set_nodelay(true).ok()?;
    stream.set_read_timeout(wait).ok()?;
    stream.set_write_timeout(whole).ok()?;
    stream.write_all(request.as_bytes()).ok()?;
    Some(stream)
}

/// The reply that comes over a connection.
fn received(
    rt: &HostRuntime,
    alloc: Global,
    mut stream: TcpStream,
) -> Result<Option<Told>, AskFailure> {
    let mut bytes = Vec::new(alloc);
    let Ok(start) = Instant::now(rt) else {
        return Ok(None);
    };
    for _turn in 0..u32::MAX {
        if bytes.len() >= REPLY_LIMIT || is_over(rt, start) {
            return Ok(None);
        }
        let mut piece = [0; PIECE];
        match stream.read(&mut piece) {
            Ok(0) => return Ok(None),
            Ok(count) => bytes.extend_from_slice(&piece[..count])?,
            Err(error) if is_wait(error.kind()) => {}
            Err(_) => return Ok(None),
        }
        if let Some(cut) = whole(bytes.as_slice()) {
            return told_in(alloc, bytes.as_slice(), cut);
        }
    }
    Ok(None)
}

/// Whether a read may be made again.
fn is_wait(kind: ErrorKind) -> bool {
    kind == ErrorKind::WouldBlock || kind == ErrorKind::TimedOut || kind == ErrorKind::Interrupted
}

/// Whether the reply was waited for long enough.
fn is_over(rt: &HostRuntime, start: Instant) -> bool {
    match start.elapsed(rt) {
        Ok(waited) => waited >= Duration::from_secs(WHOLE_SECONDS),
        Err(_) => true,
    }
}

/// Where the reply lies at the front of what came.
fn whole(bytes: &[u8]) -> Option<ReplyCut>
    ensures { IfSome result (IsReply bytes.now) }
{
    let mut spans: [HeaderSpan; 64] = [EMPTY_HEADER_SPAN; 64];
    cut_reply(bytes, &mut spans)
}

/// The status and the members of the reply at the front of what came; none where its body is no JSON.
fn told_in(alloc: Global, bytes: &[u8], cut: ReplyCut) -> Result<Option<Told>, AskFailure>
    requires { IsReply bytes.now cut }
    ensures members { IfOk result (λ found. option_map (λ told. view told.members) found
        ≡ json_of (take (cut.end - cut.start) (drop cut.start bytes.now))) }
    ensures status { IfOk result (λ found. IfSome found (λ told. told.status ≡ cut.status)) }
{
    let body = &bytes[cut.start..cut.end];
    match read_text(alloc, body)? {
        Some(members) => Ok(Some(Told {
            status: cut.status,
            members,
        })),
        None => Ok(None),
    }
}
