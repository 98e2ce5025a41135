//! Readers and writers over memory, readers and writers that are interrupted or fail, and those of std with their calls counted.

ghost use Rattle.std.specs.Prelude.{◌≡◌, ◌+◌, ◌^◌, ◌<◌, ◌≤◌, ◌==◌, not, if◌then◌else◌, Some, None};

use crate::transfer::{Drain, Source, Transfer};
use std::io::{ErrorKind, Read, Write};

/// Bytes in memory, which come in pieces of at most `step`.
#[derive(Drop)]
pub struct Pieces<'a> {
    rest: &'a [u8],
    step: usize,
    calls: u64,
    ghost some: { 0 < step },
}

impl<'a> Pieces<'a> {
    /// A reader of the bytes, in pieces of at most `step`.
    pub fn new(rest: &'a [u8], step: usize) -> Pieces<'a>
        requires { 0 < step }
        ensures left { ⟦<Pieces<'a> as Source>⟧.left result ≡ Some rest.now }
        ensures calls { ⟦<Pieces<'a> as Source>⟧.calls result ≡ 0 }
        ensures step { result.step ≡ step }
    {
        Pieces {
            rest,
            step,
            calls: 0,
        }
    }
}

impl<'a> Source for Pieces<'a> {
    ghost left = { λ s. Some s.rest.now };

    ghost calls = { λ s. s.calls };

    ghost failures = { λ s. 0 };

    fn read(&mut self, room: &mut [u8]) -> Transfer {
        self.calls += 1;
        let count = self.rest.len().min(room.len()).min(self.step);
        let (front, rest) = self.rest.split_at(count);
        room[..count].copy_from_slice(front);
        self.rest = rest;
        Transfer::Moved(count)
    }
}

/// What was written, in memory. A call takes at most `step` bytes.
#[derive(Drop)]
pub struct Written {
    bytes: Vec<u8>,
    step: usize,
    calls: u64,
    failures: u64,
    ghost bounded: { failures ≤ calls },
}

impl Written {
    /// A writer behind the bytes. With a `step` of 0 each call takes none, and fails.
    pub fn new(bytes: Vec<u8>, step: usize) -> Written
        ensures written { ⟦<Written as Drain>⟧.written result ≡ Some bytes.items }
        ensures calls { ⟦<Written as Drain>⟧.calls result ≡ 0 }
        ensures step { result.step ≡ step }
    {
        Written {
            bytes,
            step,
            calls: 0,
            failures: 0,
        }
    }

    /// All the bytes.
    pub fn bytes(&self) -> &[u8]
        ensures { ⟦<Written as Drain>⟧.written self.now ≡ Some result.now }
    {
        &self.bytes
    }
}

impl Drain for Written {
    ghost written = { λ s. Some s.bytes.items };

    ghost calls = { λ s. s.calls };

    ghost failures = { λ s. s.failures };

    fn write(&mut self, bytes: &[u8]) -> Transfer {
        self.calls += 1;
        let count = bytes.len().min(self.step);
        if count == 0 && !bytes.is_empty() {
            self.failures += 1;
            return Transfer::Moved(0);
        }
        match self.bytes.extend_from_slice(&bytes[..count]) {
            Ok(()) => Transfer::Moved(count),
            Err(_) => {
                self.failures += 1;
                Transfer::Failed
            }
        }
    }

    fn goes_on(&mut self) -> bool {
        self.calls += 1;
        true
    }
}

/// A reader or writer whose every second call that moves bytes is interrupted, the first one too.
#[derive(Drop)]
pub struct Interrupted<T: Drop> {
    inner: T,
    interruptions: u64,
    is_next: bool,
}

impl<T: Drop> Interrupted<T> {
    /// The reader or writer `inner`, with interruptions.
    pub fn new(inner: T) -> Interrupted<T>
        ensures inner { result.inner ≡ inner }
        ensures none { result.interruptions ≡ 0 }
    {
        Interrupted {
            inner,
            interruptions: 0,
            is_next: true,
        }
    }

    /// The reader or writer itself.
    pub fn inner(&self) -> &T
        ensures { result.now ≡ self.now.inner }
    {
        &self.inner
    }

    /// Whether this call is interrupted, which is then counted.
    fn interrupts(&mut self) -> bool
        requires { self.old.interruptions + 1 < 2 ^ 64 }
        ensures inner { self.new.inner ≡ self.old.inner }
        ensures counted { self.new.interruptions ≡ self.old.interruptions +
            (if result then 1 else 0) }
        ensures in_turn { (result ≡ self.old.is_next) × (self.new.is_next ≡ not self.old.is_next) }
    {
        if !self.is_next {
            self.is_next = true;
            return false;
        }
        self.is_next = false;
        self.interruptions += 1;
        true
    }
}

impl<R: Source + Drop> Source for Interrupted<R> {
    ghost left = { λ s. R.left s.inner };

    ghost calls = { λ s. R.calls s.inner + s.interruptions };

    ghost failures = { λ s. R.failures s.inner };

    fn read(&mut self, room: &mut [u8]) -> Transfer {
        if self.interrupts() {
            return Transfer::Interrupted;
        }
        self.inner.read(room)
    }
}

impl<W: Drain + Drop> Drain for Interrupted<W> {
    ghost written = { λ s. W.written s.inner };

    ghost calls = { λ s. W.calls s.inner + s.interruptions };

    ghost failures = { λ s. W.failures s.inner };

    fn write(&mut self, bytes: &[u8]) -> Transfer {
        if self.interrupts() {
            return Transfer::Interrupted;
        }
        self.inner.write(bytes)
    }

    fn goes_on(&mut self) -> bool {
        self.inner.goes_on()
    }
}

/// A reader or writer that fails once it has made some calls. Over [`Pieces`] or [`Written`] with a step of 1 that is after so many bytes.
#[derive(Drop)]
pub struct Failing<T: Drop> {
    inner: T,
    calls_left: u32,
    failures: u64,
}

impl<T: Drop> Failing<T> {
    /// The reader or writer `inner`, which makes `calls` calls and then fails at each.
    pub fn new(inner: T, calls: u32) -> Failing<T>
        ensures inner { result.inner ≡ inner }
        ensures none { result.failures ≡ 0 }
        ensures calls { result.calls_left ≡ calls }
    {
        Failing {
            inner,
            calls_left: calls,
            failures: 0,
        }
    }

    /// The reader or writer itself.
    pub fn inner(&self) -> &T
        ensures { result.now ≡ self.now.inner }
    {
        &self.inner
    }

    /// Whether this call fails, which is then counted.
    fn fails(&mut self) -> bool
        requires { self.old.failures + 1 < 2 ^ 64 }
        ensures inner { self.new.inner ≡ self.old.inner }
        ensures counted { self.new.failures ≡ self.old.failures + (if result then 1 else 0) }
        ensures at_the_end { result ≡ (self.old.calls_left == 0) }
    {
        if self.calls_left > 0 {
            self.calls_left -= 1;
            return false;
        }
        self.failures += 1;
        true
    }
}

impl<R: Source + Drop> Source for Failing<R> {
    ghost left = { λ s. R.left s.inner };

    ghost calls = { λ s. R.calls s.inner + s.failures };

    ghost failures = { λ s. R.failures s.inner + s.failures };

    fn read(&mut self, room: &mut [u8]) -> Transfer {
        if self.fails() {
            return Transfer::Failed;
        }
        self.inner.read(room)
    }
}

impl<W: Drain + Drop> Drain for Failing<W> {
    ghost written = { λ s. W.written s.inner };

    ghost calls = { λ s. W.calls s.inner + s.failures };

    ghost failures = { λ s. W.failures s.inner + s.failures };

    fn write(&mut self, bytes: &[u8]) -> Transfer {
        if self.fails() {
            return Transfer::Failed;
        }
        self.inner.write(bytes)
    }

    fn goes_on(&mut self) -> bool {
        !self.fails() && self.inner.goes_on()
    }
}

/// A reader or writer of std with its calls counted. It tells the bytes that the reader or writer tells: those of a file or a socket no contract can say.
#[derive(Drop)]
pub struct Counted<T: Drop> {
    inner: T,
    calls: u64,
    failures: u64,
    ghost bounded: { failures ≤ calls },
}

impl<T: Drop> Counted<T> {
    /// The reader or writer `inner`, at which no call was counted yet.
    pub fn new(inner: T) -> Counted<T>
        ensures inner { result.inner ≡ inner }
        ensures calls { result.calls ≡ 0 }
        ensures failures { result.failures ≡ 0 }
    {
        Counted {
            inner,
            calls: 0,
            failures: 0,
        }
    }

    /// The reader or writer itself, behind the calls.
    pub fn into_inner(self) -> T
        ensures { result ≡ self.inner }
    {
        let Counted {
            inner,
            calls: _,
            failures: _,
        } = self;
        inner
    }
}

impl<R: Read + Drop> Source for Counted<R> {
    ghost left = { λ s. R.remaining s.inner };

    ghost calls = { λ s. s.calls };

    ghost failures = { λ s. s.failures };

    fn read(&mut self, room: &mut [u8]) -> Transfer {
        self.calls += 1;
        match self.inner.read(room) {
            Ok(count) => Transfer::Moved(count),
            Err(error) if error.kind() == ErrorKind::Interrupted => Transfer::Interrupted,
            Err(_) => {
                self.failures += 1;
                Transfer::Failed
            }
        }
    }
}

impl<W: Write + Drop> Drain for Counted<W> {
    ghost written = { λ s. W.contents s.inner };

    ghost calls = { λ s. s.calls };

    ghost failures = { λ s. s.failures };

    fn write(&mut self, bytes: &[u8]) -> Transfer {
        self.calls += 1;
        match self.inner.write(bytes) {
            Ok(0) if !bytes.is_empty() => {
                self.failures += 1;
                Transfer::Moved(0)
            }
            Ok(count) => Transfer::Moved(count),
            Err(error) if error.kind() == ErrorKind::Interrupted => Transfer::Interrupted,
            Err(_) => {
                self.failures += 1;
                Transfer::Failed
            }
        }
    }

    fn goes_on(&mut self) -> bool {
        self.calls += 1;
        true
    }
}
