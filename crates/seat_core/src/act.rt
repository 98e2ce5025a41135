// What a station does at an event.
ghost use Rattle.std.specs.Prelude.{◌≡◌, ◌≤◌, length};

use crate::request::{Outcome, Sent, Stop};
use std::marker::Model;

/// What is shown to a person.
#[derive(Clone, Copy)]
pub enum Trouble {
    /// No reply came. The request may be done, and stays under way.
    Waits,
    /// The request was refused by this number, which doesn't say whether it was done before. A
    /// person mends the token or the client.
    Unsure(u8),
    /// The station stopped. A person has to look why.
    Stopped(Stop),
    /// Another request is under way, or the number isn't known yet.
    Busy,
    /// A late copy of the request of this name was accepted, which was refused before.
    LateCopy(u64),
}

/// One thing that a station does. Each is done before the next: a write is synced.
#[derive(Clone, Copy)]
pub enum Act {
    /// Writes the log's line of a request.
    LogRequest(Sent),
    /// Writes the log's line of what became of the request with this number.
    LogOutcome(u64, Outcome),
    /// Writes the log's line of a number that a person had the station go on with.
    LogNumber(u64),
    /// Writes the station's file: what the machine's `file` is behind the event.
    Write,
    /// Waits for a while, longer each time.
    Pause,
    /// Sends a request, with the bytes that it has by its number and its name.
    Send(Sent),
    /// Sends the request by which the server tells the expected number and changes nothing.
    AskNumber,
    /// Tells whoever wanted a request what became of it.
    Tell(u64, Outcome),
    /// Shows a person what is wrong.
    Show(Trouble),
}

/// How many acts an event leads to at the most.
pub const MOST_ACTS: usize = 7;

/// What a station does at an event, in order: at most `MOST_ACTS` acts, which lie in place.
#[derive(Drop)]
pub struct Acts {
    places: [Act; MOST_ACTS],
    count: usize,
}

impl Model for Acts {
    ghost use Rattle.std.specs.Prelude.{List, take, ◌≤◌};
    ghost use Rattle.seat_core.specs.declared.act.Act.{Act};

    ghost Value = { List Act };

    ghost view = { λ a. take a.count a.places };

    ghost invariant = { λ a. a.count ≤ 7 };
}

impl Acts {
    /// These acts, of which there are at most `MOST_ACTS`.
    pub(crate) fn of(acts: &[Act]) -> Acts
        requires { length acts.now ≤ MOST_ACTS }
        ensures { result ≡ acts.now }
    {
        let count = acts.len();
        let mut places = [Act::Write; MOST_ACTS];
        places[..count].copy_from_slice(acts);
        Acts { places, count }
    }

    /// The acts, the first first.
    pub fn as_slice(&self) -> &[Act]
        ensures { result.now ≡ self.now }
    {
        &self.places[..self.count]
    }
}
