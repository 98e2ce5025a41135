//! The connections that come to a listener, one of which may be accepted while another is served.
ghost use Rattle.std.specs.Prelude.{◌≡◌, ◌+◌, ◌<◌, ◌^◌, IfErr, OnOk};

use crate::accepting::{NextAccept, next_accept, pause};
use crate::failure::Failure;
use std::cell::Cell;
use std::net::OpenListener;
use std::time::{Clock, Instant};

/// A listener, and the connection that it gave while another was served. While one is served the
/// listener doesn't block.
#[derive(Drop)]
pub struct Arrivals<'a, L, S: Drop> {
    listener: &'a L,
    next: Cell<Option<S>>,
    /// How many connections were given to be served.
    given: u32,
}

/// How many connections a listener gave to be served. `Arrivals` counts them, and nobody else makes one.
#[derive(Clone, Copy, Debug, PartialEq, Eq, Drop)]
pub struct ConnectionCount {
    number: u32,
}

impl ConnectionCount {
    /// The number, 0 to 2^32 - 1.
    pub fn number(self) -> u32
        ensures { result ≡ self.number }
    {
        self.number
    }
}

impl<'a, S: Drop, L: OpenListener<Stream = S>> Arrivals<'a, L, S> {
    /// The connections that will come to a listener.
    pub fn of(listener: &'a L) -> Arrivals<'a, L, S>
        ensures { result.given ≡ 0 }
    {
        Arrivals {
            listener,
            next: Cell::new(None),
            given: 0,
        }
    }

    /// How many connections were given to be served. One that waits and wasn't given is closed.
    pub fn end(self) -> ConnectionCount
        ensures { result.number ≡ self.entry.given }
    {
        ConnectionCount { number: self.given }
    }

    /// Whether a connection waits. It is accepted then, and is the next one.
    pub fn one_waits(&self) -> bool {
        let next = match self.next.replace(None) {
            Some(stream) => Some(stream),
            None => accepted_at_once(self.listener),
        };
        let one_waits = next.is_some();
        self.next.set(next);
        one_waits
    }

    /// The next connection, which is waited for by this clock. Behind it the listener doesn't block.
    ///
    /// # Errors
    ///
    /// `AcceptFailed` where waiting for it fails.
    pub fn next<R: Clock>(&mut self, clock: &R) -> Result<S, Failure<'static>>
        requires { self.old.given + 1 < 2 ^ 32 }
        ensures counted { OnOk result (self.new.given ≡ self.old.given + 1) }
        ensures failed { IfErr result (λ failure. failure ≡ Failure.AcceptFailed) }
    {
        let stream = match self.next.replace(None) {
            Some(stream) => stream,
            None => wait_for_one(clock, self.listener)?,
        };
        self.given += 1;
        Ok(stream)
    }
}

/// A connection that waits at a listener that doesn't block, if one does. Where accepting it fails,
/// waiting for the next one will tell.
fn accepted_at_once<S: Drop, L: OpenListener<Stream = S>>(listener: &L) -> Option<S> {
    match listener.accept() {
        Ok((stream, _)) => Some(stream),
        Err(_) => None,
    }
}

/// The next connection of a listener, which blocks until it comes and not behind it.
fn wait_for_one<R: Clock, S: Drop, L: OpenListener<Stream = S>>(
    clock: &R,
    listener: &L,
) -> Result<S, Failure<'static>>
    ensures { IfErr result (λ failure. failure ≡ Failure.AcceptFailed) }
{
    if listener.set_nonblocking(false).is_err() {
        return Err(Failure::AcceptFailed);
    }
    let stream = next_connection(clock, listener)?;
    if listener.set_nonblocking(true).is_err() {
        return Err(Failure::AcceptFailed);
    }
    Ok(stream)
}

/// The moment that a clock tells.
fn moment<R: Clock>(clock: &R) -> Result<Instant, Failure<'static>>
    ensures { IfErr result (λ failure. failure ≡ Failure.AcceptFailed) }
{
    match Instant::now(clock) {
        Ok(now) => Ok(now),
        Err(_) => Err(Failure::AcceptFailed),
    }
}

/// The next connection of a listener. One that is gone before it is accepted is passed over, and
/// errors that pass are, with a pause behind each.
fn next_connection<R: Clock, S: Drop, L: OpenListener<Stream = S>>(
    clock: &R,
    listener: &L,
) -> Result<S, Failure<'static>>
    ensures { IfErr result (λ failure. failure ≡ Failure.AcceptFailed) }
{
    let mut failing_since = None;
    for _try in 0..u64::MAX {
        let error = match listener.accept() {
            Ok((stream, _)) => return Ok(stream),
            Err(error) => error,
        };
        let now = moment(clock)?;
        let since = failing_since.unwrap_or(now);
        match next_accept(&error, since, now) {
            NextAccept::AtOnce => failing_since = None,
            NextAccept::AfterPause => {
                failing_since = Some(since);
                clock.sleep(pause());
            }
            NextAccept::Never => return Err(Failure::AcceptFailed),
        }
    }
    Err(Failure::AcceptFailed)
}
