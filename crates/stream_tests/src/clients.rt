//! Simulated clients: connections to a listener, over which time passes where something is waited for.
ghost use Rattle.std.specs.Prelude.{None};

use crate::connections::served_over_memory;
use crate::replies::told_replies;
use station_cli::{Bounds, Duplex, Failure};
use std::alloc::Global;
use std::cell::{Cell, RefCell};
use std::io;
use std::io::{ErrorKind, Read, Write};
use std::net::{OpenListener, OpenStream, SocketAddr};
use std::test::Fail;
use std::time::{Clock, Duration};

/// How long a client is waited for where no time-out was set, in milliseconds: thirty years.
const FOR_EVER: u64 = 1_000_000_000_000;

/// How much later what is written comes to a client whose connection holds back what is short.
const HELD_BACK: u64 = 40;

/// A time in milliseconds, that passes where something is waited for, by a clock that has run before.
#[derive(Drop)]
pub struct Time {
    begun: u64,
    now: Cell<u64>,
}

impl Time {
    /// The time at which all begins, by a clock that has run for so long.
    pub fn new(begun: u64) -> Time {
        Time {
            begun,
            now: Cell::new(0),
        }
    }

    /// Waits until a moment, or for so long if that is earlier: whether the moment has come.
    fn waits_until(&self, moment: u64, longest: u64) -> bool {
        let now = self.now.get();
        let end = now.saturating_add(longest);
        self.now.set(moment.max(now).min(end));
        moment <= end
    }

    /// Lets so much time pass.
    fn passes(&self, time: u64) {
        self.now.set(self.now.get().saturating_add(time));
    }
}

impl Clock for Time {
    fn monotonic(&self) -> io::Result<Duration> {
        Ok(Duration::from_millis(self.begun.saturating_add(self.now.get())))
    }

    fn since_1970(&self) -> io::Result<Duration> {
        self.monotonic()
    }

    fn sleep(&self, duration: Duration) {
        self.passes(milliseconds(duration));
    }
}

/// How many milliseconds a time has.
fn milliseconds(time: Duration) -> u64 {
    let seconds = time.as_secs().saturating_mul(1000);
    seconds.saturating_add(u64::from(time.subsec_millis()))
}

/// What a client sends at once: when, in milliseconds, and a text so many times behind each other. In
/// each a `#` stands for how many there are up to it, in four places with spaces in front, and an `@`
/// for the same with zeros. An empty text closes its side.
pub type Sent = (u64, &'static str, usize);

/// How a client takes what it is sent.
#[derive(Clone, Copy)]
pub enum Taking {
    /// Whole, each part after so many milliseconds.
    After(u64),
    /// This many bytes at a time, and then no more for as long as the server waits.
    AtMost(usize),
    /// It has gone.
    Gone,
    /// At once. Its stream can't be made to wait again once it didn't.
    Stuck,
}

/// What a client does: when it comes, in milliseconds, what it sends, and how it takes what it is sent.
pub type Script = (u64, &'static [Sent], Taking);

/// What a client got, and when its connection was closed.
#[derive(Drop)]
pub struct Outcome {
    got: RefCell<Vec<u8>>,
    closed: Cell<u64>,
}

impl Outcome {
    /// That of a client that has got nothing, in this memory.
    fn new(memory: Vec<u8>) -> Outcome {
        Outcome {
            got: RefCell::new(memory),
            closed: Cell::new(0),
        }
    }

    /// The statuses and the lengths of the replies that it got, and when its connection was closed.
    pub fn told(&self, alloc: Global) -> Result<String, Fail> {
        let got = self.got.try_borrow().map_err(|_| "still served")?;
        let replies = told_replies(alloc, got.as_slice())?;
        Ok(format!(in alloc; "{replies} until {}", self.closed.get())?)
    }
}

/// A connection of a simulated client. It sends the parts of which it has some left.
pub struct Client<'a> {
    time: &'a Time,
    parts: &'a [(u64, String)],
    taking: Taking,
    outcome: &'a Outcome,
    sent: usize,
    sent_of_part: usize,
    is_sent_at_once: Cell<bool>,
    is_waited_for: Cell<bool>,
    read_wait: Cell<u64>,
    write_wait: Cell<u64>,
}

/// What a simulated client is sent.
#[derive(Drop)]
pub struct ToClient<'a> {
    time: &'a Time,
    taking: Taking,
    outcome: &'a Outcome,
    is_sent_at_once: bool,
    write_wait: u64,
}

impl Client<'_> {
    /// How long a read waits.
    fn longest(&self) -> u64 {
        if self.is_waited_for.get() {
            self.read_wait.get()
        } else {
            0
        }
    }

    /// How a read ends in whose time nothing came. A signal ends each wait for a part of an odd place.
    fn nothing(&self) -> io::Error {
        if self.is_waited_for.get() && self.sent % 2 == 1 {
            io::Error::from(ErrorKind::Interrupted)
        } else {
            io::Error::from(ErrorKind::WouldBlock)
        }
    }
}

impl ToClient<'_> {
    /// How many of so many bytes the client takes now. Time passes where it doesn't take them at once.
    fn taken(&self, count: usize) -> io::Result<usize> {
        if !self.is_sent_at_once {
            self.time.passes(HELD_BACK);
        }
        match self.taking {
            Taking::Stuck => Ok(count),
            Taking::After(time) => {
                self.time.passes(time);
                Ok(count)
            }
            Taking::AtMost(most) => {
                if most < count {
                    self.time.passes(self.write_wait);
                }
                if most == 0 && count > 0 {
                    return Err(io::Error::from(ErrorKind::WouldBlock));
                }
                Ok(count.min(most))
            }
            Taking::Gone => {
                self.time.passes(1);
                Err(io::Error::from(ErrorKind::BrokenPipe))
            }
        }
    }
}

impl<'a> Duplex for Client<'a> {
    type Incoming = Client<'a>;

    type Outgoing = ToClient<'a>;

    ghost sends = { λ _. None };

    ghost got = { λ _. None };

    fn split(self) -> io::Result<(Client<'a>, ToClient<'a>)> {
        let outgoing = ToClient {
            time: self.time,
            taking: self.taking,
            outcome: self.outcome,
            is_sent_at_once: self.is_sent_at_once.get(),
            write_wait: self.write_wait.get(),
        };
        Ok((self, outgoing))
    }
}

impl Drop for Client<'_> {
    fn drop(self) {
        self.outcome.closed.set(self.time.now.get());
        let Client {
            time: _,
            parts: _,
            taking: _,
            outcome: _,
            sent: _,
            sent_of_part: _,
            is_sent_at_once: _,
            is_waited_for: _,
            read_wait: _,
            write_wait: _,
        } = self;
    }
}

/// How many milliseconds are waited for a client for which this is set.
fn wait_of(set: Option<Duration>) -> u64 {
    match set {
        Some(wait) => milliseconds(wait),
        None => FOR_EVER,
    }
}

impl OpenStream for Client<'_> {
    fn set_nodelay(&self, nodelay: bool) -> io::Result<()> {
        self.is_sent_at_once.set(nodelay);
        Ok(())
    }

    fn set_nonblocking(&self, nonblocking: bool) -> io::Result<()> {
        if matches!(self.taking, Taking::Stuck) && !nonblocking {
            return Err(io::Error::from(ErrorKind::Other));
        }
        self.is_waited_for.set(!nonblocking);
        Ok(())
    }

    fn set_read_timeout(&self, dur: Option<Duration>) -> io::Result<()> {
        self.read_wait.set(wait_of(dur));
        Ok(())
    }

    fn set_write_timeout(&self, dur: Option<Duration>) -> io::Result<()> {
        self.write_wait.set(wait_of(dur));
        Ok(())
    }
}

impl Read for Client<'_> {
    fn read(&mut self, buf: &mut [u8]) -> io::Result<usize> {
        let longest = self.longest();
        let Some((moment, text)) = self.parts.get(self.sent) else {
            self.time.passes(longest);
            return Err(self.nothing());
        };
        if !self.time.waits_until(*moment, longest) {
            return Err(self.nothing());
        }
        let rest = text.as_bytes().get(self.sent_of_part..).unwrap_or(b"");
        let count = rest.len().min(buf.len());
        buf[..count].copy_from_slice(&rest[..count]);
        self.sent_of_part = self.sent_of_part.saturating_add(count);
        if count == rest.len() {
            self.sent = self.sent.saturating_add(1);
            self.sent_of_part = 0;
        }
        Ok(count)
    }
}

impl Write for ToClient<'_> {
    fn write(&mut self, buf: &[u8]) -> io::Result<usize> {
        let count = self.taken(buf.len())?.min(buf.len());
        match self.outcome.got.try_borrow_mut() {
            Ok(mut got) => got.extend_from_slice(&buf[..count])?,
            Err(_) => return Err(io::Error::from(ErrorKind::Other)),
        }
        Ok(count)
    }

    fn flush(&mut self) -> io::Result<()> {
        Ok(())
    }
}

/// Errors of the system with which accepting a connection fails first: the number of each, and how
/// often it fails so.
pub type Failing = &'static [(i32, usize)];

/// A listener to which clients come in the order of their scripts. Where no more come, waiting fails.
#[derive(Drop)]
struct Clients<'a> {
    time: &'a Time,
    failing: Failing,
    scripts: &'a [Script],
    parts: &'a [Vec<(u64, String)>],
    outcomes: &'a [Outcome],
    failed: Cell<usize>,
    come: Cell<usize>,
    blocks: Cell<bool>,
}

impl Clients<'_> {
    /// The number of the error with which the next call fails, if one does.
    fn failure(&self) -> Option<i32> {
        let mut before = self.failed.get();
        for (number, count) in self.failing {
            if before < *count {
                self.failed.set(self.failed.get().saturating_add(1));
                return Some(*number);
            }
            before = before.saturating_sub(*count);
        }
        None
    }
}

impl<'a> OpenListener for Clients<'a> {
    type Stream = Client<'a>;

    fn accept(&self) -> io::Result<(Client<'a>, SocketAddr)> {
        if let Some(number) = self.failure() {
            return Err(io::Error::from_raw_os_error(number));
        }
        let place = self.come.get();
        let longest = if self.blocks.get() { FOR_EVER } else { 0 };
        let (Some(script), Some(parts), Some(outcome)) = (
            self.scripts.get(place),
            self.parts.get(place),
            self.outcomes.get(place),
        ) else {
            let kind = if self.blocks.get() {
                ErrorKind::Other
            } else {
                ErrorKind::WouldBlock
            };
            return Err(io::Error::from(kind));
        };
        if !self.time.waits_until(script.0, longest) {
            return Err(io::Error::from(ErrorKind::WouldBlock));
        }
        self.come.set(place.saturating_add(1));
        let client = Client {
            time: self.time,
            parts: parts.as_slice(),
            taking: script.2,
            outcome,
            sent: 0,
            sent_of_part: 0,
            is_sent_at_once: Cell::new(false),
            is_waited_for: Cell::new(true),
            read_wait: Cell::new(FOR_EVER),
            write_wait: Cell::new(FOR_EVER),
        };
        Ok((client, SocketAddr::from(([127, 0, 0, 1], 1))))
    }

    fn set_nonblocking(&self, nonblocking: bool) -> io::Result<()> {
        self.blocks.set(!nonblocking);
        Ok(())
    }
}

/// A text so many times behind each other, with how many there are in the place of `#` and of `@`.
fn counted(alloc: Global, text: &str, times: usize) -> Result<String, Fail> {
    if !text.contains('#') && !text.contains('@') {
        return Ok(text.repeat(alloc, times)?);
    }
    let mut all = String::new(alloc);
    for nth in 1..=times {
        let one = text.replace(alloc, "#", format!(in alloc; "{nth:4}")?.as_str())?;
        let one = one.replace(alloc, "@", format!(in alloc; "{nth:04}")?.as_str())?;
        all.push_str(one.as_str())?;
    }
    Ok(all)
}

/// What a client sends at which moments.
fn parts_of(alloc: Global, script: &Script) -> Result<Vec<(u64, String)>, Fail> {
    let mut parts = Vec::new(alloc);
    for (moment, text, times) in script.1 {
        parts.push((*moment, counted(alloc, text, *times)?))?;
    }
    Ok(parts)
}

/// What is to be simulated.
#[derive(Drop)]
pub struct Scene<'a> {
    /// The text of the site.
    pub site: &'a str,
    /// How many milliseconds the clock has run when all begins.
    pub begun: u64,
    /// How accepting a connection fails first.
    pub failing: Failing,
    /// The clients, in the order in which they come.
    pub scripts: &'a [Script],
    /// How many connections are waited for.
    pub count: u32,
}

/// Serves simulated clients over memory without rows, at the bounds of the program: how many were
/// accepted, or the failure, and what each got.
pub fn served_clients(
    alloc: Global,
    scene: &Scene<'_>,
) -> Result<(Result<u32, Failure<'static>>, Vec<Outcome>), Fail> {
    let mut outcomes = Vec::new(alloc);
    let mut parts = Vec::new(alloc);
    for script in scene.scripts {
        outcomes.push(Outcome::new(Vec::new(alloc)))?;
        parts.push(parts_of(alloc, script)?)?;
    }
    let time = Time::new(scene.begun);
    let clients = Clients {
        time: &time,
        failing: scene.failing,
        scripts: scene.scripts,
        parts: parts.as_slice(),
        outcomes: outcomes.as_slice(),
        failed: Cell::new(0),
        come: Cell::new(0),
        blocks: Cell::new(true),
    };
    let bounds = Bounds::of_program();
    let accepted = served_over_memory(&time, alloc, scene.site, &clients, bounds, scene.count)?;
    Ok((accepted, outcomes))
}
