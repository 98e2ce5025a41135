//! Streams of requests, and what is written for them.
use crate::conversations::filled;
use std::alloc::Global;
use std::test::Fail;

/// A request for an order, which comes in an empty store.
pub const ORDER: &str =
    "POST /v1/order HTTP/1.1\r\nAuthorization: Bearer abc\r\nContent-Length: 96\r\n\r\n{\"nr\":1,\"name\":\"o1\",\"issuer\":\"acme-ca\",\"prefix\":\"A\",\"width\":3,\"first\":998,\"quantity\":2,\"macs\":0}";

/// The reply to it.
pub const ORDERED: &str =
    "HTTP/1.1 200 OK\r\nContent-Type: application/json\r\nContent-Length: 132\r\n\r\n{\"first\":998,\"issuer\":\"acme-ca\",\"mac\":null,\"macs\":0,\"name\":\"o1\",\"next\":\"A998\",\"not_before\":null,\"prefix\":\"A\",\"quantity\":2,\"width\":3}";

/// The request without its last byte.
pub const CUT_ORDER: &str =
    "POST /v1/order HTTP/1.1\r\nAuthorization: Bearer abc\r\nContent-Length: 96\r\n\r\n{\"nr\":1,\"name\":\"o1\",\"issuer\":\"acme-ca\",\"prefix\":\"A\",\"width\":3,\"first\":998,\"quantity\":2,\"macs\":0";

/// The head of a request whose body comes in chunks.
pub const IN_CHUNKS: &str = "POST /v1/order HTTP/1.1\r\nTransfer-Encoding: chunked\r\n\r\n";

/// The reply to it.
pub const CHUNKS_REFUSED: &str =
    "HTTP/1.1 501 Not Implemented\r\nContent-Type: application/json\r\nContent-Length: 26\r\nConnection: close\r\n\r\n{\"error\":\"chunked\",\"no\":4}";

/// The reply to a head that is longer than a head may be.
pub const BAD_HEAD: &str =
    "HTTP/1.1 400 Bad Request\r\nContent-Type: application/json\r\nContent-Length: 27\r\nConnection: close\r\n\r\n{\"error\":\"bad_head\",\"no\":1}";

/// How many bytes there are of a head that is none.
pub const LONG_HEAD: usize = 8192;

/// The text of a stream or of what is written, in which `$ORDER` stands for the order and `$ORDERED` for its
/// reply.
///
/// # Errors
///
/// Memory runs out.
pub fn with_orders(alloc: Global, text: &str) -> Result<String, Fail> {
    let text = text.replace(alloc, "$ORDERED", ORDERED)?;
    let text = text.as_str().replace(alloc, "$ORDER", ORDER)?;
    filled(alloc, text.as_str())
}
