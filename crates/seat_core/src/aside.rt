// The requests that are kept aside: those of which a late copy may come.
ghost use Rattle.std.specs.Prelude.{◌≡◌, ◌≤◌, ◌<◌, ◌==◌, not, [], IfOk, filter, length, vec_capacity};
ghost use Rattle.seat_core.specs.Aside.{newest_of};

use std::alloc::{AllocError, Global};
use std::marker::Model;

/// How many requests are kept aside at the most: the oldest are forgotten.
pub const MOST_ASIDE: usize = 16;

/// The names of the requests that are kept aside, the oldest first, each once. Its memory is there
/// from the beginning.
#[derive(Drop)]
pub struct KeptAside {
    requests: Vec<u64>,
}

impl Model for KeptAside {
    ghost use Rattle.std.specs.Prelude.{List, ℕ, length, vec_capacity, ◌≤◌};

    ghost Value = { List ℕ };

    ghost view = { λ a. a.requests.items };

    ghost invariant = { λ a. (length a.requests.items ≤ 16) × (16 ≤ vec_capacity a.requests) };
}

impl KeptAside {
    ghost use Rattle.seat_core.specs.Aside.{aside_with};

    /// None yet. An error is want of memory.
    pub fn new(alloc: Global) -> Result<KeptAside, AllocError>
        ensures { IfOk result (λ aside. aside ≡ []) }
    {
        let requests = Vec::with_capacity(alloc, MOST_ASIDE)?;
        Ok(KeptAside { requests })
    }

    /// The names, the oldest first.
    pub fn as_slice(&self) -> &[u64]
        ensures { result.now ≡ self.now }
    {
        self.requests.as_slice()
    }

    /// Keeps a request aside, as the newest one. Where there are `MOST_ASIDE` others, the oldest
    /// goes.
    pub fn keep(&mut self, request: u64)
        ensures { self.new ≡ aside_with request self.old }
    {
        take_out(&mut self.requests, request);
        make_room(&mut self.requests);
        self.requests.push_reserved(request);
    }

    /// Forgets all: behind an accepted request no copy of an earlier one is accepted.
    pub fn forget_all(&mut self)
        ensures { self.new ≡ [] }
    {
        self.requests.clear();
    }
}

/// Takes a request out, where it is there.
fn take_out(requests: &mut Vec<u64>, request: u64)
    ensures items { requests.new.items ≡ filter (λ kept. not (kept == request)) requests.old.items }
    ensures length { length requests.new.items ≤ length requests.old.items }
    ensures capacity { vec_capacity requests.new ≡ vec_capacity requests.old }
{
    requests.retain(|kept| *kept != request);
}

/// Makes room for one more: the oldest request goes where there are `MOST_ASIDE`.
fn make_room(requests: &mut Vec<u64>)
    requires { length requests.old.items ≤ MOST_ASIDE }
    ensures items { requests.new.items ≡ newest_of requests.old.items }
    ensures room { length requests.new.items < MOST_ASIDE }
    ensures capacity { vec_capacity requests.new ≡ vec_capacity requests.old }
{
    if requests.len() == MOST_ASIDE {
        requests.remove(0);
    }
}
