//! What the fields of a request's head say of its body, its connection and its caller, and how its target
//! is split (RFC 9110, RFC 9112, RFC 6750).

ghost use Rattle.std.specs.Prelude.{◌≡◌, ℕ, List, length, reverse, Option, option_map, option_to_list, ◌++◌, All, codes};
ghost use Rattle.httparse.specs.Grammar.{skip_ows, trim_ows};
ghost use Rattle.httparse.specs.Spans.{IsHeaderWithin};
ghost use Rattle.http_frames.specs.Prelude.{frame_refusal_number, same_ignoring_case, values_named, has_field, size_of_value, body_size, has_close, asks_close};
ghost use Rattle.http_frames.specs.Prelude.{skip_spaces, bearer_token, token_in_headers, IsOccurrence, headers_at, path_of, query_of, parameters_named};
ghost use Rattle.http_frames.specs.Prelude.{before_byte, after_byte, piece_values, IsCut};

use httparse::is_space_or_tab;
use httparse::spans::HeaderSpan;
use thiserror::Error;

/// The greatest size of a body, in bytes.
pub const BODY_LIMIT: u32 = 65_536;

/// Why a request cannot be cut from its stream (RFC 9112, section 6.3). The stream ends after the reply that says so.
#[derive(Clone, Copy, Debug, PartialEq, Eq, Error)]
pub enum FrameRefusal {
    /// The bytes are no head, or no head of at most 8,192 bytes with at most 64 fields (1).
    #[error("the bytes are no head of a request")]
    BadHead,
    /// There is more than one `Content-Length` field, or its value isn't decimal digits alone (2).
    #[error("Content-Length is repeated or no number")]
    BadLength,
    /// `Content-Length` is above [`BODY_LIMIT`] (3).
    #[error("the body is too large")]
    TooLarge,
    /// There is a `Transfer-Encoding` field, whatever its value (4).
    #[error("transfer codings are not supported")]
    Chunked,
}

impl FrameRefusal {
    /// The number of the refusal, 1 to 4.
    pub fn number(self) -> u8
        ensures { result ≡ frame_refusal_number self }
    {
        match self {
            FrameRefusal::BadHead => 1,
            FrameRefusal::BadLength => 2,
            FrameRefusal::TooLarge => 3,
            FrameRefusal::Chunked => 4,
        }
    }
}

/// How often a field or a parameter with some name occurs, with its value where that is just once.
#[derive(Clone, Copy)]
pub enum Occurrence<'a> {
    /// There is none.
    Absent,
    /// There is just one, and this is its value.
    Once(&'a [u8]),
    /// There are two or more.
    Repeated,
}

/// The bytes from the first that is no space or tab (RFC 9110, section 5.6.3).
fn trim_start(mut s: &[u8]) -> &[u8]
    ensures { result.now ≡ skip_ows s.now }
{
    while let [first, rest @ ..] = s
        && is_space_or_tab(*first)
    {
        s = rest;
    }
    s
}

/// The bytes up to the last that is no space or tab.
fn trim_end(mut s: &[u8]) -> &[u8]
    ensures { result.now ≡ reverse (skip_ows (reverse s.now)) }
{
    while let [rest @ .., last] = s
        && is_space_or_tab(*last)
    {
        s = rest;
    }
    s
}

/// The bytes without the spaces and tabs around them.
fn trim(s: &[u8]) -> &[u8]
    ensures { result.now ≡ trim_ows s.now }
{
    trim_end(trim_start(s))
}

/// Whether two texts are the same but for the case of ASCII letters.
fn is_same_ignoring_case(a: &[u8], b: &[u8]) -> bool
    ensures { result ≡ same_ignoring_case a.now b.now }
{
    a.eq_ignore_ascii_case(b)
}

/// The value of the only field with the name, in any case (RFC 9110, section 5.1). The fields are those that the spans cover.
pub fn only_value<'b>(buf: &'b [u8], spans: &[HeaderSpan], name: &[u8]) -> Occurrence<'b>
    requires { All (IsHeaderWithin (length buf.now)) spans.now }
    ensures { IsOccurrence (values_named name.now (headers_at buf.now spans.now)) result }
{
    let mut found = Occurrence::Absent;
    for span in spans {
        let is_named = is_same_ignoring_case(span.name.of(buf), name);
        found = found_more(found, is_named.then_some(span.value.of(buf)));
    }
    found
}

/// Whether one of the fields that the spans cover has the name, in any case.
pub fn is_field_present(buf: &[u8], spans: &[HeaderSpan], name: &[u8]) -> bool
    requires { All (IsHeaderWithin (length buf.now)) spans.now }
    ensures { result ≡ has_field name.now (headers_at buf.now spans.now) }
{
    for field in spans {
        if is_same_ignoring_case(field.name.of(buf), name) {
            return true;
        }
    }
    false
}

/// The size that the value of a `Content-Length` field gives, in bytes (RFC 9110, section 8.6).
fn read_size(value: &[u8]) -> Result<u32, FrameRefusal>
    ensures { result ≡ size_of_value value.now }
{
    if value.is_empty() {
        return Err(FrameRefusal::BadLength);
    }
    let mut size: u32 = 0;
    for digit in value {
        if !digit.is_ascii_digit() {
            return Err(FrameRefusal::BadLength);
        }
        // A size above the limit stays just above it, however many digits follow.
        size = (size * 10 + u32::from(*digit - b'0')).min(BODY_LIMIT + 1);
    }
    if size > BODY_LIMIT {
        return Err(FrameRefusal::TooLarge);
    }
    Ok(size)
}

/// The size of the body that the fields announce, in bytes: 0 without a `Content-Length` field (RFC 9112, section 6.3).
///
/// The refusals are `BadLength`, `TooLarge` and `Chunked`, and where more than one holds it is the first of them.
pub fn read_body_size(buf: &[u8], spans: &[HeaderSpan]) -> Result<u32, FrameRefusal>
    requires { All (IsHeaderWithin (length buf.now)) spans.now }
    ensures { result ≡ body_size (headers_at buf.now spans.now) }
{
    let size = match only_value(buf, spans, b"content-length") {
        Occurrence::Absent => 0,
        Occurrence::Once(value) => read_size(value)?,
        Occurrence::Repeated => return Err(FrameRefusal::BadLength),
    };
    if is_field_present(buf, spans, b"transfer-encoding") {
        return Err(FrameRefusal::Chunked);
    }
    Ok(size)
}

/// Cuts at the first such byte, and leaves it out.
fn cut_at(bytes: &[u8], byte: u8) -> Option<(&[u8], &[u8])>
    ensures { IsCut byte bytes.now result }
{
    let at = bytes.iter().position(|b| *b == byte)?;
    Some((&bytes[..at], &bytes[at + 1..]))
}

/// Whether an element of a list is `close`, in any case and with spaces and tabs around it.
fn is_close(piece: &[u8]) -> bool
    ensures { result ≡ same_ignoring_case (trim_ows piece.now) (codes "close") }
{
    is_same_ignoring_case(trim(piece), b"close")
}

/// Whether a comma list has the element `close` (RFC 9110, sections 5.6.1 and 7.6.1).
fn lists_close(value: &[u8]) -> bool
    ensures { result ≡ has_close value.now }
{
    let mut rest = value;
    while let Some((piece, after)) = cut_at(rest, b',') {
        if is_close(piece) {
            return true;
        }
        rest = after;
    }
    is_close(rest)
}

/// Whether a `Connection` field has the element `close`, so that the stream ends after the reply (RFC 9112, section 9.6).
pub fn is_close_asked(buf: &[u8], spans: &[HeaderSpan]) -> bool
    requires { All (IsHeaderWithin (length buf.now)) spans.now }
    ensures { result ≡ asks_close (headers_at buf.now spans.now) }
{
    for span in spans {
        if is_same_ignoring_case(span.name.of(buf), b"connection")
            && lists_close(span.value.of(buf))
        {
            return true;
        }
    }
    false
}

/// The bytes from the first that is no space.
fn after_spaces(mut s: &[u8]) -> &[u8]
    ensures { result.now ≡ skip_spaces s.now }
{
    while let [b' ', rest @ ..] = s {
        s = rest;
    }
    s
}

/// The bearer token of the value of an `Authorization` field (RFC 6750, section 2.1): what follows
/// `Bearer`, in any case, and one or more spaces. An empty token is none.
fn read_bearer(value: &[u8]) -> Option<&[u8]>
    ensures { option_map (λ token. token.now) result ≡ bearer_token value.now }
{
    if value.len() <= 6 {
        return None;
    }
    if !is_same_ignoring_case(&value[..6], b"bearer") {
        return None;
    }
    if value[6] != b' ' {
        return None;
    }
    let token = after_spaces(&value[6..]);
    if token.is_empty() {
        return None;
    }
    Some(token)
}

/// The bearer token of the only `Authorization` field, and none where that field is absent, is repeated or has another form (RFC 6750, section 2.1).
pub fn read_token<'b>(buf: &'b [u8], spans: &[HeaderSpan]) -> Option<&'b [u8]>
    requires { All (IsHeaderWithin (length buf.now)) spans.now }
    ensures { option_map (λ token. token.now) result
        ≡ token_in_headers (headers_at buf.now spans.now) }
{
    match only_value(buf, spans, b"authorization") {
        Occurrence::Once(value) => read_bearer(value),
        _ => None,
    }
}

/// The bytes in front of the first such byte, and those after it.
fn split_once(bytes: &[u8], byte: u8) -> (&[u8], &[u8])
    ensures before { result.0.now ≡ before_byte byte bytes.now }
    ensures after { result.1.now ≡ after_byte byte bytes.now }
{
    match cut_at(bytes, byte) {
        Some(parts) => parts,
        None => (bytes, &[]),
    }
}

/// The path and the query of a target: what stands in front of its first `?`, and what stands
/// behind it (RFC 9112, section 3.2.1). Neither is percent-decoded. Without a `?` the query is
/// empty.
pub fn split_target(target: &[u8]) -> (&[u8], &[u8])
    ensures path { result.0.now ≡ path_of target.now }
    ensures query { result.1.now ≡ query_of target.now }
{
    split_once(target, b'?')
}

/// The value of a piece of a query, if the piece has the name. A piece without `=` is a name with an empty value.
fn value_of_piece<'q>(piece: &'q [u8], name: &[u8]) -> Option<&'q [u8]>
    ensures { option_to_list (option_map (λ value. value.now) result)
        ≡ piece_values name.now piece.now }
{
    let (key, value) = split_once(piece, b'=');
    if key == name { Some(value) } else { None }
}

/// What is found after one more value.
fn found_more<'q>(found: Occurrence<'q>, more: Option<&'q [u8]>) -> Occurrence<'q>
    ensures { (values : List (List ℕ)) → IsOccurrence values found.entry
        → IsOccurrence (values ++ option_to_list (option_map (λ value. value.now) more.entry)) result }
{
    match (found, more) {
        (_, None) => found,
        (Occurrence::Absent, Some(value)) => Occurrence::Once(value),
        _ => Occurrence::Repeated,
    }
}

/// The value of the only parameter of a query with the name, which is not percent-decoded. The
/// parameters stand between `&`, each as a name, `=` and a value, or as a name alone, whose value
/// is empty.
pub fn only_parameter<'q>(query: &'q [u8], name: &[u8]) -> Occurrence<'q>
    ensures { IsOccurrence (parameters_named name.now query.now) result }
{
    let mut found = Occurrence::Absent;
    let mut rest = query;
    while let Some((piece, after)) = cut_at(rest, b'&') {
        found = found_more(found, value_of_piece(piece, name));
        rest = after;
    }
    found_more(found, value_of_piece(rest, name))
}
