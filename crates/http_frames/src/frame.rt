//! What is cut from a stream.

ghost use Rattle.std.specs.Prelude.{◌≡◌, All, length, option_map};
ghost use Rattle.httparse.specs.Spans.{IsHeaderWithin};
ghost use Rattle.http_frames.specs.Prelude.{headers_at, token_in_headers, Request, headers_of, IsFrameAt};

use crate::buffer::Buffer;
use crate::fields::{FrameRefusal, read_token};
use httparse::spans::{HeaderSpan, RequestSpans};

/// Where a request stands in a buffer, until the buffer cuts the next one.
#[derive(Clone, Copy)]
pub struct Frame {
    /// The parts of the head.
    pub head: RequestSpans,
    /// Where the body ends, in bytes of the buffer's window. It begins where the head ends.
    pub end: usize,
    /// The method is `HEAD`, so the reply leaves out the body's bytes (RFC 9110, section 9.3.2).
    pub is_head: bool,
    /// The stream ends after the reply: the request is of HTTP/1.0 or asks for it (RFC 9112, section 9.6).
    pub is_last: bool,
}

/// What stands at the front of a stream.
#[derive(Clone, Copy)]
pub enum Framed {
    /// A whole request.
    Request(Frame),
    /// The stream has ended between two requests.
    Nothing,
    /// The stream has ended inside a request.
    Cut,
    /// The bytes are refused, with whether a head with method `HEAD` was read.
    Refused(FrameRefusal, bool),
    /// The reader failed.
    ReadFault,
    /// The stream has made all the calls that it may make.
    TurnLimit,
}

impl Frame {
    /// The request's method (RFC 9112, section 3.1).
    pub fn method(self, buffer: &Buffer) -> &[u8]
        requires { (request : Request) × IsFrameAt buffer.now.window buffer.now.spans self request }
        ensures { (request : Request) → IsFrameAt buffer.now.window buffer.now.spans self request
            → result.now ≡ request.head.method }
    {
        self.head.method.of(buffer.window())
    }

    /// The request's target, as it was sent (RFC 9112, section 3.2).
    pub fn target(self, buffer: &Buffer) -> &[u8]
        requires { (request : Request) × IsFrameAt buffer.now.window buffer.now.spans self request }
        ensures { (request : Request) → IsFrameAt buffer.now.window buffer.now.spans self request
            → result.now ≡ request.head.target }
    {
        self.head.path.of(buffer.window())
    }

    /// The request's body (RFC 9112, section 6).
    pub fn body(self, buffer: &Buffer) -> &[u8]
        requires { (request : Request) × IsFrameAt buffer.now.window buffer.now.spans self request }
        ensures { (request : Request) → IsFrameAt buffer.now.window buffer.now.spans self request
            → result.now ≡ request.body }
    {
        &buffer.window()[self.head.len..self.end]
    }

    /// Where the names and values of the request's fields stand in the buffer's window.
    pub fn fields(self, buffer: &Buffer) -> &[HeaderSpan]
        requires { (request : Request) × IsFrameAt buffer.now.window buffer.now.spans self request }
        ensures within { All (IsHeaderWithin (length buffer.now.window)) result.now }
        ensures fields { (request : Request) → IsFrameAt buffer.now.window buffer.now.spans self
            request
            → headers_at buffer.now.window result.now ≡ headers_of request.head }
    {
        &buffer.spans()[..self.head.headers]
    }

    /// The bearer token of the request, if it has one (RFC 6750, section 2.1).
    pub fn token(self, buffer: &Buffer) -> Option<&[u8]>
        requires { (request : Request) × IsFrameAt buffer.now.window buffer.now.spans self request }
        ensures { (request : Request) → IsFrameAt buffer.now.window buffer.now.spans self request
            → option_map (λ token. token.now) result ≡ token_in_headers (headers_of request.head) }
    {
        read_token(buffer.window(), self.fields(buffer))
    }
}
