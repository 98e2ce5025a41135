//! What the bytes read so far begin with.

ghost use Rattle.std.specs.Prelude.{◌≡◌, ◌<◌, ◌≤◌, ◌==◌, ◌||◌, length, All, bytes_eq, codes};
ghost use Rattle.httparse.specs.Spans.{IsHeaderWithin, IsWithin, span_bytes};
ghost use Rattle.http_frames.specs.Prelude.{headers_at, asks_close, IsHeadFound, IsLook};

use crate::buffer::ROOM;
use crate::fields::{FrameRefusal, is_close_asked, read_body_size};
use crate::frame::{Frame, Framed};
use http::Method;
use httparse::Status;
use httparse::spans::{HeaderSpan, RequestSpans, parse_request};

/// The room for a head, in bytes. The empty lines in front of it count.
pub const HEAD_LIMIT: usize = 8192;

/// What the search for a head came to.
#[derive(Clone, Copy)]
enum HeadFound {
    /// A whole head.
    Whole(RequestSpans),
    /// Part of a head, so that more bytes are wanted.
    Part,
    /// What is no head, whatever bytes follow, or none in all the room.
    Bad,
}

/// Looks for a head in the first bytes of the window (RFC 9112, section 2.1).
fn find_head(window: &[u8], spans: &mut [HeaderSpan]) -> HeadFound
    requires { length spans.old ≡ 64 }
    ensures { IsHeadFound window.now spans.new result }
{
    let front = &window[..HEAD_LIMIT.min(window.len())];
    match parse_request(front, spans) {
        Ok(Status::Complete(head)) => HeadFound::Whole(head),
        Ok(Status::Partial) => {
            if window.len() < HEAD_LIMIT {
                HeadFound::Part
            } else {
                HeadFound::Bad
            }
        }
        Err(_) => HeadFound::Bad,
    }
}

/// Whether the method is `HEAD`.
fn has_head_method(window: &[u8], head: RequestSpans) -> bool
    requires { IsWithin (length window.now) head.method }
    ensures { result ≡ bytes_eq (span_bytes window.now head.method) (codes "HEAD") }
{
    head.method.of(window) == Method::HEAD.as_str().as_bytes()
}

/// Whether the stream ends after a request with these fields and this minor version.
fn is_last_request(window: &[u8], fields: &[HeaderSpan], version: u8) -> bool
    requires { All (IsHeaderWithin (length window.now)) fields.now }
    ensures { result ≡ ((version == 0) || asks_close (headers_at window.now fields.now)) }
{
    version == 0 || is_close_asked(window, fields)
}

/// What stands at the front of the window: a whole request or a refusal, and nothing where more bytes are wanted.
pub fn look(window: &[u8], spans: &mut [HeaderSpan]) -> Option<Framed>
    requires spans { length spans.old ≡ 64 }
    requires room { length window.now ≤ ROOM }
    ensures { IsLook window.now spans.new result }
{
    if window.is_empty() {
        return None;
    }
    let head = match find_head(window, spans) {
        HeadFound::Part => return None,
        HeadFound::Bad => return Some(Framed::Refused(FrameRefusal::BadHead, false)),
        HeadFound::Whole(head) => head,
    };
    let fields = &spans[..head.headers];
    let is_head = has_head_method(window, head);
    let size = match read_body_size(window, fields) {
        Err(refusal) => return Some(Framed::Refused(refusal, is_head)),
        Ok(size) => size as usize,
    };
    if window.len() - head.len < size {
        return None;
    }
    Some(Framed::Request(Frame {
        head,
        end: head.len + size,
        is_head,
        is_last: is_last_request(window, fields, head.version),
    }))
}
