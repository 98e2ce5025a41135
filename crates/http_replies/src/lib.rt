//! Replies of an HTTP/1.1 server with a body of JSON or CSV, and the bytes in front of their bodies
//! (RFC 9110, RFC 9112).
//!
//! `reply_head` writes exactly the status line and fields of a reply into 256 bytes, without
//! memory.
#![tactic(auto)]

ghost use Rattle.std.specs.Prelude.{◌≡◌, ◌<◌, ◌≤◌, length};
ghost use Rattle.http_replies.specs.Prelude.{code_of, phrase_of, media_type_of, asks_token, is_unavailable, kind_of_body, bytes_of_body, answer_of};

use http::StatusCode;

mod head;

pub use crate::head::{HEAD_ROOM, reply_head};

/// The statuses of the server's replies (RFC 9110, section 15).
#[derive(Clone, Copy)]
pub enum Status {
    /// 200: the request was carried out.
    Success,
    /// 400: the request cannot be read.
    BadRequest,
    /// 401: the request has no token, or one that nobody owns.
    Unauthorized,
    /// 403: the owner of the token may not do this.
    Forbidden,
    /// 404: what the request names is not there.
    NotFound,
    /// 409: what is there already does not allow it.
    Conflict,
    /// 413: the body is too large.
    TooLarge,
    /// 422: the request can be read, and asks for what is not allowed.
    Unprocessable,
    /// 501: the request needs what the server does not have, as a transfer coding.
    NotImplemented,
    /// 503: the request cannot be served now.
    Unavailable,
}

/// What a body is.
#[derive(Clone, Copy)]
pub enum Kind {
    /// A JSON text (RFC 8259).
    Json,
    /// Comma-separated values (RFC 4180).
    Csv,
}

/// The body of a reply.
#[derive(Drop)]
pub enum Body {
    /// A JSON text that takes no memory, as that of a refusal.
    Constant(&'static str),
    /// A JSON text.
    Json(String),
    /// The bytes of a report as comma-separated values.
    Report(Vec<u8>),
}

/// A reply to a request. The fields of its head follow from these two (RFC 9110, sections 8.3, 8.6 and 11.6.1).
#[derive(Drop)]
pub struct Reply {
    /// What came of the request.
    pub status: Status,
    /// The JSON text or the report that says more.
    pub body: Body,
}

/// How a reply is sent, which the request and its stream decide.
#[derive(Clone, Copy)]
pub struct Flags {
    /// The request's method is `HEAD`, so the body's bytes are left out (RFC 9110, section 9.3.2).
    pub is_head: bool,
    /// The stream ends after the reply (RFC 9112, section 9.6).
    pub is_last: bool,
}

impl Status {
    /// The status as a number, from 200 to 503 (RFC 9110, section 15).
    pub fn code(self) -> u16
        ensures code { result ≡ code_of self }
        ensures short { result < 1000 }
    {
        match self {
            Status::Success => 200,
            Status::BadRequest => 400,
            Status::Unauthorized => 401,
            Status::Forbidden => 403,
            Status::NotFound => 404,
            Status::Conflict => 409,
            Status::TooLarge => 413,
            Status::Unprocessable => 422,
            Status::NotImplemented => 501,
            Status::Unavailable => 503,
        }
    }

    /// The phrase that follows the number in a status line (RFC 9112, section 4), of at most 21 bytes.
    pub fn phrase(self) -> &'static str
        ensures phrase { result.now ≡ phrase_of self }
        ensures short { length result.now ≤ 21 }
    {
        let status = match self {
            Status::Success => StatusCode::OK,
            Status::BadRequest => StatusCode::BAD_REQUEST,
            Status::Unauthorized => StatusCode::UNAUTHORIZED,
            Status::Forbidden => StatusCode::FORBIDDEN,
            Status::NotFound => StatusCode::NOT_FOUND,
            Status::Conflict => StatusCode::CONFLICT,
            Status::TooLarge => StatusCode::PAYLOAD_TOO_LARGE,
            Status::Unprocessable => StatusCode::UNPROCESSABLE_ENTITY,
            Status::NotImplemented => StatusCode::NOT_IMPLEMENTED,
            Status::Unavailable => StatusCode::SERVICE_UNAVAILABLE,
        };
        status.canonical_reason().unwrap_or("")
    }

    /// Whether the request could not be served now.
    pub fn is_unavailable(self) -> bool
        ensures { result ≡ is_unavailable self }
    {
        matches!(self, Status::Unavailable)
    }

    /// Whether the reply asks for a token (RFC 6750, section 3).
    fn asks_token(self) -> bool
        ensures { result ≡ asks_token self }
    {
        matches!(self, Status::Unauthorized)
    }
}

impl Kind {
    /// The media type, of at most 16 bytes (RFC 9110, section 8.3.1).
    pub fn media_type(self) -> &'static str
        ensures name { result.now ≡ media_type_of self }
        ensures short { length result.now ≤ 16 }
    {
        match self {
            Kind::Json => "application/json",
            Kind::Csv => "text/csv",
        }
    }
}

impl Body {
    /// The bytes of the body.
    pub fn as_bytes(&self) -> &[u8]
        ensures { result.now ≡ bytes_of_body self.now }
    {
        match self {
            Body::Constant(text) => text.as_bytes(),
            Body::Json(text) => text.as_bytes(),
            Body::Report(bytes) => bytes.as_slice(),
        }
    }

    /// What the body is.
    fn kind(&self) -> Kind
        ensures { result ≡ kind_of_body self.now }
    {
        match self {
            Body::Constant(_) | Body::Json(_) => Kind::Json,
            Body::Report(_) => Kind::Csv,
        }
    }
}

impl Reply {
    /// What the body is.
    pub fn kind(&self) -> Kind
        ensures { result ≡ (answer_of self.now).kind }
    {
        self.body.kind()
    }
}
