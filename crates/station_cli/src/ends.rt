//! The two ends of a connection: what its client sends, and what it is sent. They fail once the client
//! has taken too long.
ghost use Rattle.std.specs.Prelude.{◌≡◌, ◌≢◌, ◌⊎◌, ◌↔◌, ◌≤◌, ◌<◌, ◌+◌, ◌-◌, ◌^◌, min, length, false, Option, IfSome, IsTrue, MatchResult, None, unwrap_or};
ghost use Rattle.std.specs.IoError.{error_kind};
ghost use Rattle.http_frames.specs.Prelude.{MovesAtMost, ReadsBytes, WritesBytes};
ghost use Rattle.station_cli.specs.Prelude.{moved_or_failed};

use crate::arrivals::Arrivals;
use crate::patience::{Awaited, Bounds, NextRead, Wait, is_turn_over, is_untaken, next_read};
use http_frames::buffer::ROOM;
use station_api::{Drain, Source, Transfer};
use std::cell::Cell;
use std::io;
use std::io::{ErrorKind, Read, Write};
use std::net::{OpenListener, OpenStream};
use std::time::{Clock, Duration, Instant};

/// A connection that is served, while others may come: what its two ends share.
#[derive(Drop)]
pub struct Line<'a, R, L, S: Drop> {
    clock: &'a R,
    arrivals: &'a Arrivals<'a, L, S>,
    bounds: Bounds,
    opened: Instant,
    /// How long the client was waited for to take what it is sent, since it was last read.
    untaken: Cell<Duration>,
    /// Since when another connection may wait: the last look that found none. One that waits does so to the end.
    another_since: Cell<Instant>,
}

/// Whether a call that failed so may be made again: nothing came or was taken in its time.
fn is_for_later(error: &io::Error) -> bool
    ensures { IsTrue result ↔ ((error_kind error.now ≡ ErrorKind.WouldBlock)
        ⊎ (error_kind error.now ≡ ErrorKind.TimedOut)
        ⊎ (error_kind error.now ≡ ErrorKind.Interrupted)) }
{
    let kind = error.kind();
    kind == ErrorKind::WouldBlock || kind == ErrorKind::TimedOut || kind == ErrorKind::Interrupted
}

/// What a call of a stream did: it may be made again where nothing came or was taken in its time.
fn transfer_of(outcome: io::Result<usize>) -> Transfer
    ensures { MatchResult outcome (λ count. result ≡ Transfer.Moved count)
        (λ _. (result ≡ Transfer.Interrupted) ⊎ (result ≡ Transfer.Failed)) }
{
    match outcome {
        Ok(count) => Transfer::Moved(count),
        Err(error) if is_for_later(&error) => Transfer::Interrupted,
        Err(_) => Transfer::Failed,
    }
}

/// Since when another connection may wait, now that one is seen to wait, which may have since a moment
/// before, or none is.
fn waits_since(another_waits: bool, before: Instant, now: Instant) -> Instant
    ensures waits { IsTrue another_waits → result ≡ before }
    ensures none { ¬ IsTrue another_waits → result ≡ now }
{
    if another_waits { before } else { now }
}

impl<'a, R: Clock, S: Drop, L: OpenListener<Stream = S>> Line<'a, R, L, S> {
    /// A connection that begins to be served now, where the clock tells the time.
    pub fn begin(
        clock: &'a R,
        arrivals: &'a Arrivals<'a, L, S>,
        bounds: Bounds,
    ) -> io::Result<Line<'a, R, L, S>> {
        let opened = Instant::now(clock)?;
        Ok(Line {
            clock,
            arrivals,
            bounds,
            opened,
            untaken: Cell::new(Duration::ZERO),
            another_since: Cell::new(opened),
        })
    }

    /// The moment, if the clock tells it.
    fn now(&self) -> Option<Instant> {
        Instant::now(self.clock).ok()
    }

    /// A wait of the client since a moment, now that another connection waits or none does.
    fn client_wait(
        &self,
        awaited: Awaited,
        since: Instant,
        another_waits: bool,
        now: Instant,
    ) -> Wait
        ensures awaited { result.awaited ≡ awaited }
        ensures since { result.since ≡ since }
        ensures opened { result.opened ≡ self.now.opened }
        ensures waits { result.another_waits ≡ another_waits }

        // Where another one waits it is the moment of the last look that found none, which is in a cell.
        ensures none { ¬ IsTrue another_waits → result.another_since ≡ now }
    {
        let another_since = waits_since(another_waits, self.another_since.get(), now);
        self.another_since.set(another_since);
        Wait {
            awaited,
            since,
            opened: self.opened,
            another_waits,
            another_since,
        }
    }

    /// What is done for the client next, if the clock tells the time.
    fn next_read(&self, awaited: Awaited, since: Instant) -> Option<NextRead> {
        let another_waits = self.arrivals.one_waits();
        let now = self.now()?;
        let wait = self.client_wait(awaited, since, another_waits, now);
        Some(next_read(&self.bounds, &wait, now))
    }

    /// Whether the client's next request, of which something was read already, is served, if the clock
    /// tells the time.
    fn goes_on(&self) -> Option<bool> {
        let another_waits = self.arrivals.one_waits();
        let now = self.now()?;
        let wait = self.client_wait(Awaited::NextRequest, now, another_waits, now);
        Some(!is_turn_over(&self.bounds, &wait, now))
    }

    /// Counts a wait of the client for what it is sent, which began at a moment.
    fn count_wait(&self, began: Instant) -> Option<()> {
        let waited = self.now()?.duration_since(began);
        self.untaken.set(self.untaken.get().saturating_add(waited));
        Some(())
    }
}

/// Reads once, for as long as a wait is.
fn read_once<I: Read>(stream: &mut I, room: &mut [u8]) -> Transfer
    ensures most { MovesAtMost result (length room.new) }
    ensures bytes { ReadsBytes (I.remaining stream.old) (I.remaining stream.new) room.new result }
{
    transfer_of(stream.read(room))
}

/// What the client of a connection sends. It tells the bytes that its stream tells: those of a socket
/// no contract can say.
#[derive(Drop)]
pub struct ClientReader<'a, R, L, S: Drop, I: Drop> {
    line: &'a Line<'a, R, L, S>,
    stream: I,
    /// Whether nothing was read yet.
    is_new: bool,
    /// Whether the stream couldn't be made to wait again: nothing more is read then.
    is_stuck: bool,
    /// How many bytes of requests that weren't answered were held behind the last read.
    held: usize,
    /// When the wait for the request under way began, or its first byte was read.
    begun: Instant,
    calls: u64,
    failures: u64,
    ghost bounded: { failures ≤ calls },
}

impl<'a, R: Clock, S: Drop, L: OpenListener<Stream = S>, I: Read + OpenStream + Drop> ClientReader<
    'a,
    R,
    L,
    S,
    I,
> {
    /// What a client sends on a connection of which nothing was read.
    pub fn new(line: &'a Line<'a, R, L, S>, stream: I) -> ClientReader<'a, R, L, S, I>
        ensures stream { result.stream ≡ stream }
        ensures calls { result.calls ≡ 0 }
        ensures failures { result.failures ≡ 0 }
    {
        ClientReader {
            line,
            stream,
            is_new: true,
            is_stuck: false,
            held: 0,
            begun: line.opened,
            calls: 0,
            failures: 0,
        }
    }

    /// The stream, behind what was read of it.
    pub fn into_stream(self) -> I
        ensures { result ≡ self.entry.stream }
    {
        let ClientReader {
            line: _,
            stream,
            is_new: _,
            is_stuck: _,
            held: _,
            begun: _,
            calls: _,
            failures: _,
        } = self;
        stream
    }

    /// What is waited for where so many bytes of a request are held.
    fn awaited(&self, held: usize) -> Awaited
        ensures rest { 0 < held → result ≡ Awaited.RestOfRequest }
        ensures first { held ≡ 0 → IsTrue self.now.is_new → result ≡ Awaited.FirstByte }
        ensures next { held ≡ 0 → ¬ IsTrue self.now.is_new → result ≡ Awaited.NextRequest }
    {
        if held > 0 {
            Awaited::RestOfRequest
        } else if self.is_new {
            Awaited::FirstByte
        } else {
            Awaited::NextRequest
        }
    }

    /// Reads what is there already, and waits for nothing.
    fn read_at_once(&mut self, room: &mut [u8]) -> Transfer
        ensures most { MovesAtMost result (length room.new) }
        ensures bytes { ReadsBytes (I.remaining self.old.stream) (I.remaining self.new.stream)
            room.new result }
        ensures calls { self.new.calls ≡ self.old.calls }
        ensures failures { self.new.failures ≡ self.old.failures }
    {
        if self.stream.set_nonblocking(true).is_err() {
            return Transfer::Failed;
        }
        let done = read_once(&mut self.stream, room);
        self.is_stuck = self.stream.set_nonblocking(false).is_err();
        done
    }

    /// Reads once, as is done for the client next. `Interrupted` where it is waited for on.
    fn read_as(&mut self, next: NextRead, room: &mut [u8]) -> Transfer
        ensures most { MovesAtMost result (length room.new) }
        ensures bytes { ReadsBytes (I.remaining self.old.stream) (I.remaining self.new.stream)
            room.new result }
        ensures calls { self.new.calls ≡ self.old.calls }
        ensures failures { self.new.failures ≡ self.old.failures }
    {
        match next {
            NextRead::Wait => read_once(&mut self.stream, room),
            NextRead::Look => match self.read_at_once(room) {
                Transfer::Interrupted => Transfer::Failed,
                done => done,
            },
            NextRead::End => Transfer::Failed,
        }
    }

    /// Reads what comes while the client is waited for: how many bytes, 0 at the stream's end. `None`
    /// where its time is over or the stream fails.
    fn read_in_time(&mut self, awaited: Awaited, room: &mut [u8]) -> Option<usize>
        ensures count { IfSome result (λ count. count ≤ length room.new) }
        ensures bytes { ReadsBytes (I.remaining self.old.stream) (I.remaining self.new.stream)
            room.new (moved_or_failed result) }
        ensures calls { self.new.calls ≡ self.old.calls }
        ensures failures { self.new.failures ≡ self.old.failures }
    {
        for _wait in 0..u64::MAX {
            let next = self.line.next_read(awaited, self.begun)?;
            match self.read_as(next, room) {
                Transfer::Moved(count) => return Some(count),
                Transfer::Interrupted => {}
                Transfer::Failed => return None,
            }
        }
        None
    }

    /// Reads what comes in time. The buffer of a stream gives all its room where it holds nothing of a
    /// request, and as much less as it holds.
    fn read_request_bytes(&mut self, room: &mut [u8]) -> Option<usize>
        ensures count { IfSome result (λ count. count ≤ length room.new) }
        ensures bytes { ReadsBytes (I.remaining self.old.stream) (I.remaining self.new.stream)
            room.new (moved_or_failed result) }
        ensures calls { self.new.calls ≡ self.old.calls }
        ensures failures { self.new.failures ≡ self.old.failures }
    {
        let now = self.line.now()?;
        let held = ROOM.saturating_sub(room.len());
        self.note_wait(held, now);
        let count = self.read_in_time(self.awaited(held), room)?;
        let came = self.line.now();
        self.note_read(held, count, came);
        Some(count)
    }

    /// Notes that bytes are waited for from now on, where so many are held. Where these aren't those of
    /// the last read, a request was answered since, and the next one is waited for from now on.
    fn note_wait(&mut self, held: usize, now: Instant)
        ensures next { (held ≡ 0) ⊎ (held ≢ self.old.held) → self.new.begun ≡ now }
        ensures rest { held ≢ 0 → held ≡ self.old.held → self.new.begun ≡ self.old.begun }
        ensures stream { self.new.stream ≡ self.old.stream }
        ensures calls { self.new.calls ≡ self.old.calls }
        ensures failures { self.new.failures ≡ self.old.failures }
    {
        if held == 0 || held != self.held {
            self.begun = now;
        }
    }

    /// Notes that so many bytes were read where so many were held, which came at a moment, if the clock
    /// told it. A request whose first byte came is waited for from its coming on.
    fn note_read(&mut self, held: usize, count: usize, came: Option<Instant>)
        ensures first { held ≡ 0 → self.new.begun ≡ unwrap_or came self.old.begun }
        ensures rest { held ≢ 0 → self.new.begun ≡ self.old.begun }
        ensures is_new { self.new.is_new ≡ false }
        ensures held { self.new.held ≡ min (held + count) (2 ^ 64 - 1) }
        ensures stream { self.new.stream ≡ self.old.stream }
        ensures calls { self.new.calls ≡ self.old.calls }
        ensures failures { self.new.failures ≡ self.old.failures }
    {
        if held == 0 {
            self.begun = came.unwrap_or(self.begun);
        }
        self.is_new = false;
        self.held = held.saturating_add(count);
    }
}

impl<'a, R: Clock, S: Drop, L: OpenListener<Stream = S>, I: Read + OpenStream + Drop> Source
    for ClientReader<'a, R, L, S, I> {
    ghost left = { λ s. I.remaining s.stream };

    ghost calls = { λ s. s.calls };

    ghost failures = { λ s. s.failures };

    fn read(&mut self, room: &mut [u8]) -> Transfer {
        self.calls += 1;
        self.line.untaken.set(Duration::ZERO);
        let read = if self.is_stuck {
            None
        } else {
            self.read_request_bytes(room)
        };
        match read {
            Some(count) => Transfer::Moved(count),
            None => {
                self.failures += 1;
                Transfer::Failed
            }
        }
    }
}

/// What the client of a connection is sent. It tells the bytes that its stream tells: what a socket
/// takes no contract can say.
#[derive(Drop)]
pub struct ClientWriter<'a, R, L, S: Drop, O: Drop> {
    line: &'a Line<'a, R, L, S>,
    stream: O,
    calls: u64,
    failures: u64,
    ghost bounded: { failures ≤ calls },
}

impl<'a, R: Clock, S: Drop, L: OpenListener<Stream = S>, O: Write + Drop> ClientWriter<
    'a,
    R,
    L,
    S,
    O,
> {
    /// What a client is sent on a connection on which nothing was written.
    pub fn new(line: &'a Line<'a, R, L, S>, stream: O) -> ClientWriter<'a, R, L, S, O>
        ensures stream { result.stream ≡ stream }
        ensures calls { result.calls ≡ 0 }
        ensures failures { result.failures ≡ 0 }
    {
        ClientWriter {
            line,
            stream,
            calls: 0,
            failures: 0,
        }
    }

    /// The stream, with what was written to it.
    pub fn into_stream(self) -> O
        ensures { result ≡ self.entry.stream }
    {
        let ClientWriter {
            line: _,
            stream,
            calls: _,
            failures: _,
        } = self;
        stream
    }

    /// Writes once, for as long as a wait is.
    fn write_once(&mut self, bytes: &[u8]) -> Transfer
        ensures most { MovesAtMost result (length bytes.now) }
        ensures bytes { WritesBytes (O.contents self.old.stream) (O.contents self.new.stream)
            bytes.now result }
        ensures calls { self.new.calls ≡ self.old.calls }
        ensures failures { self.new.failures ≡ self.old.failures }
    {
        transfer_of(self.stream.write(bytes))
    }

    /// Writes what the client takes: how many bytes. `None` where it has taken too long for a reply or
    /// the stream fails.
    fn write_in_time(&mut self, bytes: &[u8]) -> Option<usize>
        ensures count { IfSome result (λ count. count ≤ length bytes.now) }
        ensures bytes { WritesBytes (O.contents self.old.stream) (O.contents self.new.stream)
            bytes.now (moved_or_failed result) }
        ensures calls { self.new.calls ≡ self.old.calls }
        ensures failures { self.new.failures ≡ self.old.failures }
    {
        for _wait in 0..u64::MAX {
            if is_untaken(&self.line.bounds, self.line.untaken.get()) {
                return None;
            }
            let began = self.line.now()?;
            let done = self.write_once(bytes);
            let is_counted = self.line.count_wait(began).is_some();
            match done {
                Transfer::Moved(count) => return Some(count),
                Transfer::Interrupted if is_counted => {}
                _ => return None,
            }
        }
        None
    }
}

impl<'a, R: Clock, S: Drop, L: OpenListener<Stream = S>, O: Write + Drop> Drain
    for ClientWriter<'a, R, L, S, O> {
    ghost written = { λ s. O.contents s.stream };

    ghost calls = { λ s. s.calls };

    ghost failures = { λ s. s.failures };

    fn write(&mut self, bytes: &[u8]) -> Transfer {
        self.calls += 1;
        match self.write_in_time(bytes) {
            Some(count) if count > 0 || bytes.is_empty() => Transfer::Moved(count),
            _ => {
                self.failures += 1;
                Transfer::Failed
            }
        }
    }

    fn goes_on(&mut self) -> bool {
        self.calls += 1;
        let goes_on = self.line.goes_on().unwrap_or(false);
        if !goes_on {
            self.failures += 1;
        }
        goes_on
    }
}
