//! Streams of HTTP requests, in whatever pieces they come, with interruptions and with failures.

ghost use Rattle.std.specs.Prelude.{◌≡◌, ◌+◌, ◌%◌};
ghost use Rattle.http_frames.specs.Prelude.{Request, IsFrameAt};

use http_frames::buffer::Buffer;
use http_frames::fields::{Occurrence, only_parameter, split_target};
use http_frames::frame::Frame;
use http_frames::memory::{Failing, Interrupted, Pieces, Written};
use http_frames::{Served, Service, serve_stream};
use http_replies::{Body, Reply, Status};
use std::alloc::{AllocError, Global};

/// The most bytes that a call reads and that one writes, and the calls after which reading and
/// writing fail. Each second call is interrupted, which isn't counted.
type Limits = (usize, usize, u32, u32);

const PLAIN: Limits = (3, 4096, u32::MAX, u32::MAX);

/// A stream, its limits, how it ends, and what is replied.
type StreamRow = (&'static [u8], Limits, Served, &'static [u8]);

const STREAMS: &[StreamRow] = &[
    (b"", PLAIN, Served::Ended, b""),
    (
        b"POST /a HTTP/1.1\r\nContent-Length: 2\r\n\r\n{",
        PLAIN,
        Served::Cut,
        b"",
    ),
    (b"GET /", PLAIN, Served::Cut, b""),
    (
        b"POST /a HTTP/1.1\r\nContent-Length: 2\r\n\r\n{}",
        PLAIN,
        Served::Ended,
        b"HTTP/1.1 200 OK\r\nContent-Type: text/csv\r\nContent-Length: 18\r\n\r\nPOST,/a,none,-,{},",
    ),
    (
        b"POST /a HTTP/1.1\r\nContent-Length: 65537\r\n\r\n",
        PLAIN,
        Served::Closed,
        b"HTTP/1.1 413 Payload Too Large\r\nContent-Type: application/json\r\nContent-Length: 28\r\nConnection: close\r\n\r\n{\"error\":\"too_large\",\"no\":3}",
    ),
    (
        b"GET / HTTP/1.1\r\nContent-Length: 99999999999999999999999999\r\nTransfer-Encoding: chunked\r\n\r\n",
        PLAIN,
        Served::Closed,
        b"HTTP/1.1 413 Payload Too Large\r\nContent-Type: application/json\r\nContent-Length: 28\r\nConnection: close\r\n\r\n{\"error\":\"too_large\",\"no\":3}",
    ),
    (
        b"POST /a HTTP/1.1\r\ncontent-length: 1\r\nContent-Length: 1\r\n\r\n{",
        PLAIN,
        Served::Closed,
        b"HTTP/1.1 400 Bad Request\r\nContent-Type: application/json\r\nContent-Length: 29\r\nConnection: close\r\n\r\n{\"error\":\"bad_length\",\"no\":2}",
    ),
    (
        b"GET / HTTP/1.1\r\nContent-Length:\r\n\r\n",
        PLAIN,
        Served::Closed,
        b"HTTP/1.1 400 Bad Request\r\nContent-Type: application/json\r\nContent-Length: 29\r\nConnection: close\r\n\r\n{\"error\":\"bad_length\",\"no\":2}",
    ),
    (
        b"HEAD /a HTTP/1.1\r\nTransfer-Encoding: x\r\n\r\n",
        PLAIN,
        Served::Closed,
        b"HTTP/1.1 501 Not Implemented\r\nContent-Type: application/json\r\nContent-Length: 26\r\nConnection: close\r\n\r\n",
    ),
    (
        b"GET / HTTP/1.1\r\nTransfer-Encoding: identity\r\n\r\n",
        PLAIN,
        Served::Closed,
        b"HTTP/1.1 501 Not Implemented\r\nContent-Type: application/json\r\nContent-Length: 26\r\nConnection: close\r\n\r\n{\"error\":\"chunked\",\"no\":4}",
    ),
    (b"\x00", PLAIN, Served::Closed, BAD_HEAD),
    (
        b"GET /a HTTP/1.1\r\nConnection: a , CLOSE\r\n\r\nGET",
        PLAIN,
        Served::Closed,
        b"HTTP/1.1 200 OK\r\nContent-Type: text/csv\r\nContent-Length: 15\r\nConnection: close\r\n\r\nGET,/a,none,-,,",
    ),
    (
        b"GET / HTTP/1.1\r\ncontent-LENGTH:\t0005 \r\nConnection: keep-alive , Close\r\nAuthorization: bearer  a b\r\n\r\n12345",
        PLAIN,
        Served::Closed,
        b"HTTP/1.1 200 OK\r\nContent-Type: text/csv\r\nContent-Length: 21\r\nConnection: close\r\n\r\nGET,/,none,a b,12345,",
    ),
    (
        b"GET / HTTP/1.1\r\nConnection: closed\r\nAuthorization: Bearer   \r\n\r\n",
        PLAIN,
        Served::Ended,
        b"HTTP/1.1 200 OK\r\nContent-Type: text/csv\r\nContent-Length: 14\r\n\r\nGET,/,none,-,,",
    ),
    (
        b"GET / HTTP/1.1\r\nAuthorization: Bearer\tx\r\n\r\n",
        PLAIN,
        Served::Ended,
        b"HTTP/1.1 200 OK\r\nContent-Type: text/csv\r\nContent-Length: 14\r\n\r\nGET,/,none,-,,",
    ),
    (
        b"GET / HTTP/1.1\r\nAuthorization: Bearer x\r\nAuthorization: Bearer x\r\n\r\n",
        PLAIN,
        Served::Ended,
        b"HTTP/1.1 200 OK\r\nContent-Type: text/csv\r\nContent-Length: 14\r\n\r\nGET,/,none,-,,",
    ),
    (
        b"GET /a%20b?chip=x=y&order&chip2=&order=1? HTTP/1.1\r\n\r\n",
        PLAIN,
        Served::Ended,
        b"HTTP/1.1 200 OK\r\nContent-Type: text/csv\r\nContent-Length: 18\r\n\r\nGET,/a%20b,x=y,-,,",
    ),
    (
        b"GET /?chip2=1&chip HTTP/1.1\r\n\r\n",
        PLAIN,
        Served::Ended,
        b"HTTP/1.1 200 OK\r\nContent-Type: text/csv\r\nContent-Length: 10\r\n\r\nGET,/,,-,,",
    ),
    (
        b"GET /?chip&order&chip=1? HTTP/1.1\r\n\r\n",
        PLAIN,
        Served::Ended,
        b"HTTP/1.1 200 OK\r\nContent-Type: text/csv\r\nContent-Length: 18\r\n\r\nGET,/,repeated,-,,",
    ),
    (
        b"GET /unknown HTTP/1.1\r\n\r\n",
        PLAIN,
        Served::Ended,
        b"HTTP/1.1 401 Unauthorized\r\nContent-Type: application/json\r\nContent-Length: 2\r\nWWW-Authenticate: Bearer\r\n\r\n{}",
    ),
    (TWO, (1, 5, u32::MAX, u32::MAX), Served::Closed, TWO_REPLIES),
    (TWO, (7, 5, u32::MAX, u32::MAX), Served::Closed, TWO_REPLIES),
    (
        TWO,
        (4096, 5, u32::MAX, u32::MAX),
        Served::Closed,
        TWO_REPLIES,
    ),
    (TWO, (9, 0, u32::MAX, u32::MAX), Served::WriteFault, b""),
    (TWO, (1, 5, 69, u32::MAX), Served::ReadFault, b""),
    (
        TWO,
        (4096, 1, u32::MAX, 9),
        Served::WriteFault,
        b"HTTP/1.1 ",
    ),
    // Behind the first reply the writer is asked whether it takes more, where more was read already.
    (
        TWO,
        (4096, 4096, u32::MAX, 2),
        Served::WriteFault,
        ONE_REPLY,
    ),
    (
        TWO,
        (4096, 4096, u32::MAX, 3),
        Served::WriteFault,
        ONE_REPLY,
    ),
    (TWO, (4096, 4096, u32::MAX, 4), Served::Closed, TWO_REPLIES),
    (TWO, (1, 4096, u32::MAX, 3), Served::Closed, TWO_REPLIES),
];

/// Two requests, of which the second ends the stream.
const TWO: &[u8] =
    b"\r\nPOST /a?b HTTP/1.1\r\ncontent-length: 02\r\nAUTHORIZATION:bearer t\r\n\r\n{}HEAD * HTTP/1.0\n\n";

const ONE_REPLY: &[u8] =
    b"HTTP/1.1 200 OK\r\nContent-Type: text/csv\r\nContent-Length: 18\r\n\r\nPOST,/a,none,t,{},";

const TWO_REPLIES: &[u8] =
    b"HTTP/1.1 200 OK\r\nContent-Type: text/csv\r\nContent-Length: 18\r\n\r\nPOST,/a,none,t,{},HTTP/1.1 200 OK\r\nContent-Type: text/csv\r\nContent-Length: 15\r\nConnection: close\r\n\r\n";

const BAD_HEAD: &[u8] =
    b"HTTP/1.1 400 Bad Request\r\nContent-Type: application/json\r\nContent-Length: 27\r\nConnection: close\r\n\r\n{\"error\":\"bad_head\",\"no\":1}";

/// Counts the requests, and answers each with its parts.
#[derive(Drop)]
struct Echo {
    alloc: Global,
}

impl Service<u8> for Echo {
    ghost steps = { λ _ old request answer new. new ≡ (old + 1) % 256 };

    fn answer(&self, state: &mut u8, frame: Frame, buffer: &Buffer) -> Reply {
        *state = state.wrapping_add(1);
        if frame.target(buffer) == b"/unknown".as_slice() {
            return Reply {
                status: Status::Unauthorized,
                body: Body::Constant("{}"),
            };
        }
        match parts_of(self.alloc, frame, buffer) {
            Ok(parts) => Reply {
                status: Status::Success,
                body: Body::Report(parts),
            },
            Err(_) => Reply {
                status: Status::Unavailable,
                body: Body::Constant(""),
            },
        }
    }
}

/// The method, the path, the parameter `chip`, the token ("-" for none) and the body of a request,
/// with a comma behind each.
fn parts_of(alloc: Global, frame: Frame, buffer: &Buffer) -> Result<Vec<u8>, AllocError>
    requires { (request : Request) × IsFrameAt buffer.now.window buffer.now.spans frame request }
{
    let (path, query) = split_target(frame.target(buffer));
    let token = frame.token(buffer).unwrap_or(b"-");
    let parts = [
        frame.method(buffer),
        path,
        chip_of(query),
        token,
        frame.body(buffer),
    ];
    let mut text = Vec::new(alloc);
    for part in parts {
        text.extend_from_slice(part)?;
        text.push(b',')?;
    }
    Ok(text)
}

/// The parameter `chip` of a query.
fn chip_of(query: &[u8]) -> &[u8] {
    match only_parameter(query, b"chip") {
        Occurrence::Absent => b"none",
        Occurrence::Once(value) => value,
        Occurrence::Repeated => b"repeated",
    }
}

/// Whether a stream ends so, with these bytes written.
fn is_served(alloc: Global, stream: &[u8], limits: Limits, end: Served, replies: &[u8]) -> bool {
    let (step, room, reads, writes) = limits;
    if step == 0 {
        return false;
    }
    let service = Echo { alloc };
    let mut count = 0;
    let mut reader = Interrupted::new(Failing::new(Pieces::new(stream, step), reads));
    let written = Written::new(Vec::new(alloc), room);
    let mut writer = Interrupted::new(Failing::new(written, writes));
    let served = serve_stream(alloc, &service, &mut count, &mut reader, &mut writer);
    served == end && writer.inner().inner().bytes() == replies
}

#[test]
fn serves_streams(rt: HostRuntime) {
    let alloc = rt.alloc();
    for row in STREAMS {
        assert!(rt;
            is_served(alloc, row.0, row.1, row.2, row.3),
            "{:?} {:?}",
            row.0,
            row.1
        );
    }
    assert!(rt; is_served(alloc, &[b'a'; 8192], PLAIN, Served::Closed, BAD_HEAD));
}
