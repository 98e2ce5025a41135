// How asking ends.
ghost use Rattle.std.specs.Prelude.{◌≡◌};
ghost use Rattle.seat_ask.specs.Prelude.{status_of};

/// What became of a request, as the one who asked is told.
#[derive(Clone, Copy, Debug, PartialEq, Eq)]
pub enum End {
    /// It was done.
    Done,
    /// It was refused by this number, and not done.
    Refused(u8),
    /// The station stopped, now or before: a person looks why.
    Stopped,
    /// A refusal didn't say whether it was done before. It stays under way.
    Unsure,
    /// No reply came. It stays under way.
    Waits,
}

impl End {
    /// The status with which the program ends: 0 where the request was done, 101 to 150 where it was
    /// refused and not done, 100 by a refusal that the API doesn't list, and 3, 4 or 5 else.
    pub fn status(self) -> u8
        ensures { result ≡ status_of self }
    {
        match self {
            End::Done => 0,
            End::Refused(code) if code < 51 => 100 + code,
            End::Refused(_) => 100,
            End::Stopped => 3,
            End::Unsure => 4,
            End::Waits => 5,
        }
    }
}
