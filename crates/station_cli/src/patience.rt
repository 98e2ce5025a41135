//! How long a connection may wait for its client, while others wait for it.
ghost use Rattle.std.specs.Prelude.{◌↔◌, ◌≤◌, IsTrue};
ghost use Rattle.std.specs.Duration.{as_nanos};
ghost use Rattle.station_cli.specs.Prelude.{AreOfProgram, GivesWay, IsOver, IsOutOfTime, IsTooLong, IsTurnOver, IsNextRead, MayLook};

use std::time::{Duration, Instant};

/// How many milliseconds the bytes of a client are waited for at a time. Between two such waits the
/// listener is asked whether another connection waits.
pub const SLICE_MILLISECONDS: u64 = 50;

/// How many seconds a new connection may say nothing, where another one waits.
pub const FIRST_BYTE_SECONDS: u64 = 2;

/// How many seconds a connection of which no request is under way may say nothing, where no other one
/// waits.
pub const SILENCE_SECONDS: u64 = 10;

/// How many seconds a request may take, from its first byte on.
pub const REQUEST_SECONDS: u64 = 10;

/// How many seconds a client may take for the bytes of a reply.
pub const REPLY_SECONDS: u64 = 10;

/// How many milliseconds a connection of which one request follows the other may go on, where another
/// one waits.
pub const TURN_MILLISECONDS: u64 = 400;

/// How many seconds a connection may last, where another one waits.
pub const CONNECTION_SECONDS: u64 = 60;

/// How long a connection may wait for its client.
#[derive(Clone, Copy)]
pub struct Bounds {
    /// One wait for bytes, after which the listener is asked. It isn't 0. A connection of which a
    /// request was answered, and that says nothing for as long, gives way to another.
    pub slice: Duration,
    /// A connection of which one request follows the other, since another waits.
    pub turn: Duration,
    /// The first byte of a new connection, where another one waits.
    pub first_byte: Duration,
    /// The first byte of a request, where no other connection waits.
    pub silence: Duration,
    /// A request, from its first byte on.
    pub request: Duration,
    /// The waits of one reply for the client to take it.
    pub reply: Duration,
    /// The connection, where another one waits.
    pub connection: Duration,
}

impl Bounds {
    /// The bounds of the program.
    pub fn of_program() -> Bounds
        ensures { AreOfProgram result }
    {
        Bounds {
            slice: Duration::from_millis(SLICE_MILLISECONDS),
            turn: Duration::from_millis(TURN_MILLISECONDS),
            first_byte: Duration::from_secs(FIRST_BYTE_SECONDS),
            silence: Duration::from_secs(SILENCE_SECONDS),
            request: Duration::from_secs(REQUEST_SECONDS),
            reply: Duration::from_secs(REPLY_SECONDS),
            connection: Duration::from_secs(CONNECTION_SECONDS),
        }
    }
}

/// What is waited for.
#[derive(Clone, Copy)]
pub enum Awaited {
    /// The first byte of a new connection.
    FirstByte,
    /// The first byte of a request behind others.
    NextRequest,
    /// The rest of a request of which something was read.
    RestOfRequest,
}

/// A wait for a client.
#[derive(Clone, Copy)]
pub struct Wait {
    /// What is waited for.
    pub awaited: Awaited,
    /// Since when: for the rest of a request since its first byte was read.
    pub since: Instant,
    /// When the connection began to be served.
    pub opened: Instant,
    /// Whether another connection waits.
    pub another_waits: bool,
    /// Since when it waits, as far as the listener was asked; of no meaning where none waits.
    pub another_since: Instant,
}

/// Whether so much time is no less than a bound.
pub(crate) fn has_reached(time: Duration, bound: Duration) -> bool
    ensures { IsTrue result ↔ (as_nanos bound ≤ as_nanos time) }
{
    time.checked_sub(bound).is_some()
}

/// Whether a connection of which no request is under way gives way to another one.
fn gives_way(bounds: &Bounds, wait: &Wait, now: Instant) -> bool
    ensures { IsTrue result ↔ GivesWay bounds.now wait.now now }
{
    wait.another_waits
        && (has_reached(now.duration_since(wait.since), bounds.slice)
            || has_reached(now.duration_since(wait.another_since), bounds.turn))
}

/// Whether a wait for this is too long.
fn is_too_long(bounds: &Bounds, wait: &Wait, now: Instant) -> bool
    ensures { IsTrue result ↔ IsTooLong bounds.now wait.now now wait.now.awaited }
{
    let waited = now.duration_since(wait.since);
    match wait.awaited {
        Awaited::FirstByte => {
            (wait.another_waits && has_reached(waited, bounds.first_byte))
                || has_reached(waited, bounds.silence)
        }
        Awaited::NextRequest => {
            gives_way(bounds, wait, now) || has_reached(waited, bounds.silence)
        }
        Awaited::RestOfRequest => has_reached(waited, bounds.request),
    }
}

/// Whether the connection has lasted too long for another one that waits.
fn is_out_of_time(bounds: &Bounds, wait: &Wait, now: Instant) -> bool
    ensures { IsTrue result ↔ IsOutOfTime bounds.now wait.now now }
{
    wait.another_waits && has_reached(now.duration_since(wait.opened), bounds.connection)
}

/// Whether the turn of a connection is over whose next request was read already, so that its client
/// is waited for no more. It is over where another connection waits, and has waited for its turn. It
/// is also over where another waits, and this connection has lasted too long for it.
pub fn is_turn_over(bounds: &Bounds, wait: &Wait, now: Instant) -> bool
    ensures { IsTrue result ↔ IsTurnOver bounds.now wait.now now }
{
    (wait.another_waits && has_reached(now.duration_since(wait.another_since), bounds.turn))
        || is_out_of_time(bounds, wait, now)
}

/// Whether a client is waited for no longer, at this moment.
fn is_over(bounds: &Bounds, wait: &Wait, now: Instant) -> bool
    ensures { IsTrue result ↔ IsOver bounds.now wait.now now }
{
    is_too_long(bounds, wait, now) || is_out_of_time(bounds, wait, now)
}

/// Whether what a client that isn't waited for has sent already is read: that of one of which no
/// request is under way, while the connection has its time.
fn may_look(bounds: &Bounds, wait: &Wait, now: Instant) -> bool
    ensures { IsTrue result ↔ MayLook bounds.now wait.now now }
{
    !matches!(wait.awaited, Awaited::RestOfRequest) && !is_out_of_time(bounds, wait, now)
}

/// What is done for a client next.
#[derive(Clone, Copy)]
pub enum NextRead {
    /// It is waited for.
    Wait,
    /// What it has sent already is read, and where there is nothing the connection ends.
    Look,
    /// The connection ends.
    End,
}

/// What is done for a client next, at this moment.
pub fn next_read(bounds: &Bounds, wait: &Wait, now: Instant) -> NextRead
    ensures { IsNextRead bounds.now wait.now now result }
{
    if !is_over(bounds, wait, now) {
        return NextRead::Wait;
    }
    if may_look(bounds, wait, now) {
        NextRead::Look
    } else {
        NextRead::End
    }
}

/// Whether a client has taken too long for the bytes of a reply.
pub fn is_untaken(bounds: &Bounds, waited: Duration) -> bool
    ensures { IsTrue result ↔ (as_nanos bounds.now.reply ≤ as_nanos waited) }
{
    has_reached(waited, bounds.reply)
}
