//! What bytes come from and go to, one call at a time.

ghost use Rattle.std.specs.Prelude.{◌≡◌, ℕ, ◌+◌, ◌<◌, ◌^◌, List, length, Option, if◌then◌else◌};
ghost use Rattle.http_frames.specs.Transfers.{MovesAtMost, failures_of, write_failures, ReadsBytes, WritesBytes};

/// What one call of a reader or writer did.
#[derive(Clone, Copy)]
pub enum Transfer {
    /// This many bytes were moved.
    Moved(usize),
    /// No byte was moved, and the call may be made again.
    Interrupted,
    /// No byte was moved, and none will be.
    Failed,
}

/// What bytes come from.
pub trait Source {
    /// The bytes that are left, where the reader tells them.
    ghost left: { Self → Option (List ℕ) };
    /// How many calls were made.
    ghost calls: { Self → ℕ };
    /// How many of them failed.
    ghost failures: { Self → ℕ };

    /// Moves bytes to the front of the room. None are moved into some room at the end alone.
    fn read(&mut self, room: &mut [u8]) -> Transfer
        requires { calls self.old + 1 < 2 ^ 64 }
        ensures counted { calls self.new ≡ calls self.old + 1 }
        ensures failed { failures self.new ≡ failures self.old + failures_of result }
        ensures most { MovesAtMost result (length room.new) }
        ensures bytes { ReadsBytes (left self.old) (left self.new) room.new result };
}

/// What bytes go to.
pub trait Drain {
    /// The bytes that were written, where the writer tells them.
    ghost written: { Self → Option (List ℕ) };
    /// How many calls were made.
    ghost calls: { Self → ℕ };
    /// How many of them failed. A call that takes none of some bytes is one of them, and one that
    /// says that nothing more is taken.
    ghost failures: { Self → ℕ };

    /// Takes a front of the bytes.
    fn write(&mut self, bytes: &[u8]) -> Transfer
        requires { calls self.old + 1 < 2 ^ 64 }
        ensures counted { calls self.new ≡ calls self.old + 1 }
        ensures failed { failures self.new ≡ failures self.old + write_failures bytes.now result }
        ensures most { MovesAtMost result (length bytes.now) }
        ensures bytes { WritesBytes (written self.old) (written self.new) bytes.now result };

    /// Whether more is taken: asked behind a whole reply, where something of the next request was
    /// read already. No byte is moved.
    fn goes_on(&mut self) -> bool
        requires { calls self.old + 1 < 2 ^ 64 }
        ensures counted { calls self.new ≡ calls self.old + 1 }
        ensures failed { failures self.new ≡ failures self.old + (if result then 0 else 1) }
        ensures bytes { written self.new ≡ written self.old };
}
