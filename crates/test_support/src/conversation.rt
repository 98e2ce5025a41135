//! Conversations that are held with the server over a keeper.
ghost use Rattle.std.specs.Prelude.{◌<◌};
ghost use Rattle.http_frames.specs.Prelude.{HasCallsLeft};

use http_frames::memory::{Pieces, Written};
use site_core::read_site;
use station_api::{Drain, Served, Source, serve_stream};
use std::alloc::Global;
use std::test::Fail;
use test_fixtures::conversations::{
    Exchange, difference, exchanges, is_unanswered, reply, request,
};
use test_fixtures::samples::SITE;
use yield_counts::Count;

/// Serves a stream for the site of a text: how it ended. It alone names the server, since each call of it
/// costs the prover half a minute.
pub fn served_by<K: Count, R: Source, W: Drain>(
    alloc: Global,
    keep: &mut K,
    site: &str,
    reader: &mut R,
    writer: &mut W,
) -> Result<Served, Fail>
    requires reader { HasCallsLeft (R.calls reader.old) 0 }
    requires writer { HasCallsLeft (W.calls writer.old) 0 }
{
    let site = read_site(alloc, site)?;
    Ok(serve_stream(alloc, keep, &site, reader, writer))
}

/// Serves a stream that comes in pieces of `step` bytes for the site of a text: how it ended, and what
/// was written.
pub fn serve_for<K: Count>(
    alloc: Global,
    keep: &mut K,
    site: &str,
    stream: &[u8],
    step: usize,
) -> Result<(Served, Written), Fail>
    requires { 0 < step }
{
    let mut reader = Pieces::new(stream, step);
    let mut writer = Written::new(Vec::new(alloc), 4096);
    let served = served_by(alloc, keep, site, &mut reader, &mut writer)?;
    Ok((served, writer))
}

/// Serves a stream that comes in pieces of `step` bytes for the sample site: how it ended, and what was
/// written.
pub fn serve<K: Count>(
    alloc: Global,
    keep: &mut K,
    stream: &[u8],
    step: usize,
) -> Result<(Served, Written), Fail>
    requires { 0 < step }
{
    serve_for(alloc, keep, SITE, stream, step)
}

/// What the request of an exchange gets for the site of a text where it isn't the reply that it
/// must get: nothing where it is, and the stream ends with it.
pub fn difference_for<K: Count>(
    alloc: Global,
    keep: &mut K,
    site: &str,
    exchange: Exchange<'_>,
) -> Result<String, Fail> {
    let stream = request(alloc, exchange.asked)?;
    let (served, writer) = serve_for(alloc, keep, site, stream.as_slice(), 4096)?;
    let found = difference(alloc, exchange, writer.bytes())?;
    if served != Served::Ended && found.is_empty() {
        return Ok(format!(in alloc;
            "line {}: {}: the end {served:?}",
            exchange.line, exchange.asked
        )?);
    }
    Ok(found)
}

/// What the request of an exchange gets for the sample site where it isn't the reply that it must get:
/// nothing where it is, and the stream ends with it.
pub fn difference_over<K: Count>(
    alloc: Global,
    keep: &mut K,
    exchange: Exchange<'_>,
) -> Result<String, Fail> {
    difference_for(alloc, keep, SITE, exchange)
}

/// Makes exchanges for the site of a text, a stream for each: the first request that doesn't get its
/// reply, and what it got.
pub fn first_difference_for<K: Count>(
    alloc: Global,
    keep: &mut K,
    site: &str,
    exchanges: &[Exchange<'_>],
) -> Result<String, Fail> {
    for exchange in exchanges {
        let found = difference_for(alloc, keep, site, *exchange)?;
        if !found.is_empty() {
            return Ok(found);
        }
    }
    Ok(String::new(alloc))
}

/// Makes exchanges for the sample site, a stream for each: the first request that doesn't get its reply,
/// and what it got.
pub fn first_difference_of<K: Count>(
    alloc: Global,
    keep: &mut K,
    exchanges: &[Exchange<'_>],
) -> Result<String, Fail> {
    first_difference_for(alloc, keep, SITE, exchanges)
}

/// Holds a conversation: the first request that doesn't get its reply, and what it got.
pub fn first_difference<K: Count>(
    alloc: Global,
    keep: &mut K,
    conversation: &str,
) -> Result<String, Fail> {
    let exchanges = exchanges(alloc, conversation)?;
    first_difference_of(alloc, keep, exchanges.as_slice())
}

/// Holds a conversation in which an allocation may be refused: a request that is answered with 503,
/// or by the stream's end, is sent again and gets its reply then.
pub fn first_difference_after_want<K: Count>(
    alloc: Global,
    keep: &mut K,
    conversation: &str,
) -> Result<String, Fail> {
    for exchange in exchanges(alloc, conversation)? {
        let mut found = difference_over(alloc, keep, exchange)?;
        if is_unanswered(found.as_str()) {
            found = difference_over(alloc, keep, exchange)?;
        }
        if !found.is_empty() {
            return Ok(found);
        }
    }
    Ok(String::new(alloc))
}

/// The exchanges of two conversations in turns, `a` for the next of the first and `b` for one of the
/// other.
pub fn in_turns<'a>(
    alloc: Global,
    first: &'a str,
    other: &'a str,
    turns: &str,
) -> Result<Vec<Exchange<'a>>, Fail> {
    let mut first = exchanges(alloc, first)?.into_iter();
    let mut other = exchanges(alloc, other)?.into_iter();
    let mut both = Vec::new(alloc);
    for turn in turns.chars() {
        let next = if turn == 'a' {
            first.next()
        } else {
            other.next()
        };
        both.push(next.ok_or("no exchange is left")?)?;
    }
    Ok(both)
}

/// The stream of the requests of exchanges, and that of the replies that they must get.
pub fn streams_of(alloc: Global, exchanges: &[Exchange<'_>]) -> Result<(Vec<u8>, Vec<u8>), Fail> {
    let mut asked = Vec::new(alloc);
    let mut wanted = Vec::new(alloc);
    for exchange in exchanges {
        asked.extend_from_slice(request(alloc, exchange.asked)?.as_slice())?;
        wanted.extend_from_slice(reply(alloc, exchange.wanted)?.as_bytes())?;
    }
    Ok((asked, wanted))
}
