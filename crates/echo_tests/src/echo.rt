//! A service that answers each request with its target. What `serve_stream` promises of any service
//! (`run`) it promises of this one, over any reader and writer: which bytes are a request, and that
//! each has its reply.

ghost use Rattle.std.specs.Prelude.{◌≡◌};

use http_frames::buffer::Buffer;
use http_frames::frame::Frame;
use http_frames::memory::{Pieces, Written};
use http_frames::{Served, Service, serve_stream};
use http_replies::{Body, Reply, Status};
use std::alloc::Global;

/// Answers each request with its target, and keeps no state.
#[derive(Drop)]
struct Echo {
    alloc: Global,
}

impl Service<u8> for Echo {
    ghost steps = { λ _ old request answer new. new ≡ old };

    fn answer(&self, state: &mut u8, frame: Frame, buffer: &Buffer) -> Reply {
        match frame.target(buffer).to_vec(self.alloc) {
            Ok(target) => Reply {
                status: Status::Success,
                body: Body::Report(target),
            },
            Err(_) => Reply {
                status: Status::Unavailable,
                body: Body::Constant(""),
            },
        }
    }
}

const ASKED: &[u8] = b"GET /hello HTTP/1.1\r\n\r\nGET /a?b HTTP/1.1\r\nConnection: close\r\n\r\n";

const REPLIED: &[u8] =
    b"HTTP/1.1 200 OK\r\nContent-Type: text/csv\r\nContent-Length: 6\r\n\r\n/helloHTTP/1.1 200 OK\r\nContent-Type: text/csv\r\nContent-Length: 4\r\nConnection: close\r\n\r\n/a?b";

#[test]
fn answers_with_the_target(rt: HostRuntime) {
    let alloc = rt.alloc();
    let mut reader = Pieces::new(ASKED, 3);
    let mut writer = Written::new(Vec::new(alloc), 4096);
    let served = serve_stream(alloc, &Echo { alloc }, &mut 0, &mut reader, &mut writer);
    assert!(rt; served == Served::Closed);
    assert!(rt; writer.bytes() == REPLIED);
}
