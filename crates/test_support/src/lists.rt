//! Conversations that are held by lists of requests, with no stream between the seats and the office.
ghost use Rattle.std.specs.Prelude.{◌<◌, All, IfOk};
ghost use Rattle.site_core.specs.Prelude.{IsSeatCaller};

use office_core::site::{Caller, Site};
use office_core::{Keep, Reply, SeatRequest, replay};
use site_core::read_site;
use station_api::{Buffer, Framed, Parsed, Pieces, parse_command, read_request};
use std::alloc::Global;
use std::str;
use std::test::Fail;
use test_fixtures::conversations::{Exchange, filled, joined, request, told};

/// What a seat of the site asks by the bytes of a request, which are read through a buffer with no unread
/// byte, or why it asks nothing.
fn asked_by(
    alloc: Global,
    site: &Site,
    buffer: &mut Buffer,
    bytes: &[u8],
) -> Result<SeatRequest, &'static str>
    ensures { IfOk result (λ asked. IsSeatCaller site.now asked.caller) }
{
    let mut reader = Pieces::new(bytes, 4096);
    let Framed::Request(frame) = read_request(&mut reader, buffer) else {
        return Err("no request");
    };
    let Some(token) = frame.token(buffer) else {
        return Err("no token");
    };
    let Some(Caller::Seat(caller)) = site.who(token) else {
        return Err("no seat");
    };
    match parse_command(alloc, Caller::Seat(caller), frame, buffer) {
        Ok(Parsed::Office(request)) => Ok(SeatRequest { caller, request }),
        _ => Err("no request to the office"),
    }
}

/// What a seat of the site asks by a line.
fn seat_request(
    alloc: Global,
    site: &Site,
    buffer: &mut Buffer,
    line: &str,
) -> Result<SeatRequest, Fail>
    ensures { IfOk result (λ asked. IsSeatCaller site.now asked.caller) }
{
    let bytes = request(alloc, line)?;
    Ok(asked_by(alloc, site, buffer, bytes.as_slice())?)
}

/// What seats of the site ask in exchanges, one after another.
pub fn seat_requests(
    alloc: Global,
    site: &Site,
    exchanges: &[Exchange<'_>],
) -> Result<Vec<SeatRequest>, Fail>
    ensures { IfOk result
        (λ requests. All (λ asked. IsSeatCaller site.now asked.caller) requests.items) }
{
    let mut buffer = Buffer::new(alloc)?;
    let mut requests = Vec::new(alloc);
    for exchange in exchanges {
        requests.push(seat_request(alloc, site, &mut buffer, exchange.asked)?)?;
    }
    Ok(requests)
}

/// What the request of an exchange got, as a line, where it isn't the reply that it must get:
/// nothing where it is.
fn difference(alloc: Global, exchange: Exchange<'_>, reply: &Reply) -> Result<String, Fail> {
    let status = reply.status.code();
    let body = str::from_utf8(reply.body.as_bytes()).unwrap_or("no text");
    let got = format!(in alloc; "{status} {body}")?;
    let wanted = joined(alloc, exchange.wanted)?;
    let wanted = filled(alloc, wanted.as_str())?;
    if got.as_str() == wanted.as_str() {
        return Ok(String::new(alloc));
    }
    Ok(told(alloc, exchange, wanted.as_str(), got.as_str())?)
}

/// The first of exchanges whose request didn't get its reply, and what it got.
pub fn first_difference_among(
    alloc: Global,
    exchanges: &[Exchange<'_>],
    replies: &[Reply],
) -> Result<String, Fail> {
    if replies.len() != exchanges.len() {
        return Ok(format!(in alloc; "{} replies to {} requests", replies.len(), exchanges.len())?);
    }
    for (exchange, reply) in exchanges.iter().zip(replies.iter()) {
        let found = difference(alloc, *exchange, reply)?;
        if !found.is_empty() {
            return Ok(found);
        }
    }
    Ok(String::new(alloc))
}

/// Asks what is asked in exchanges by one list, of the seats of a text's site: the first request that
/// doesn't get its reply, and what it got.
pub fn first_difference_in_list<K: Keep>(
    alloc: Global,
    keep: &mut K,
    site: &str,
    exchanges: &[Exchange<'_>],
) -> Result<String, Fail> {
    let site = read_site(alloc, site)?;
    let requests = seat_requests(alloc, &site, exchanges)?;
    let replies = replay(alloc, keep, &site, requests.as_slice())?;
    first_difference_among(alloc, exchanges, replies.as_slice())
}
