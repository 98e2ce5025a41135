// Lists of requests, one after another.
ghost use Rattle.std.specs.Prelude.{◌≡◌, ◌+◌, ◌≤◌, ◌++◌, ◌∷◌, [], All, List, length, IsOk, IfOk, IfSome, OnErr, vec_capacity, vec_len};
ghost use Rattle.std.specs.List.{AllByRecursion};
ghost use Rattle.http_replies.specs.declared.Reply.{Reply as AReply};
ghost use Rattle.site_core.specs.Prelude.{IsSeatCaller, PoolsDisjoint, Ownership, ownership_of, IsSite};
ghost use Rattle.office_tables.specs.Prelude.{Stands, Tables};
ghost use Rattle.office_laws.specs.Prelude.{AreSeats, IsSeat};
ghost use Rattle.office_core.specs.Prelude.{Answered, AreGrown, BeginGrown, KeepsPromises, call_of, calls_in, calls_of_parts, exchanges_in, exchanges_of_parts};
ghost use Rattle.office_core.specs.Prelude.{last_owners, sites_of};

use crate::office::answer;
use http_replies::Reply;
use office_commands::Request;
use office_tables::{Keep, Unkept};
use site_core::{SeatCaller, Site};
use std::alloc::Global;

/// A request of a seat of a site.
#[derive(Drop)]
pub struct SeatRequest {
    pub caller: SeatCaller,
    pub request: Request,
}

/// Requests of the seats of a site, as its text stood then.
#[derive(Clone, Copy)]
pub struct Part<'a> {
    pub site: &'a Site,
    pub requests: &'a [SeatRequest],
}

/// A fact: the caller is a seat of the site, and asks for what a seat can ask for. Nothing happens.
fn fact_seat(site: &Site, asked: &SeatRequest)
    requires { IsSeatCaller site.now asked.now.caller }
    ensures apart { PoolsDisjoint (ownership_of site.now) }
    ensures seat { IsSeat (ownership_of site.now) (call_of site.now asked.now) }
{
    asked.request.fact_in_range();
    let _customer = site.customer(asked.caller);
}

/// Answers requests one after another, where there is room for the replies.
fn answer_all<K: Keep>(
    alloc: Global,
    keep: &mut K,
    site: &Site,
    requests: &[SeatRequest],
    replies: &mut Vec<Reply>,
) -> Result<(), Unkept>
    requires callers { All (λ asked. IsSeatCaller site.now asked.caller) requests.now }
    requires room { vec_len replies.old + length requests.now ≤ vec_capacity replies.old }
    ensures ok { IsOk result }
    ensures len { vec_len replies.new ≡ vec_len replies.old + length requests.now }
    ensures capacity { vec_capacity replies.old ≤ vec_capacity replies.new }
    ensures site { IsSite site.now }
    ensures was_open { K.is_open keep.new → K.is_open keep.old }
    ensures was_honest { K.is_honest keep.new → K.is_honest keep.old }
    ensures seats { AllByRecursion (λ c. PoolsDisjoint (ownership_of site.now)
        × IsSeat (ownership_of site.now) c)
        (calls_in site.now requests.now) }
    ensures run { (added : List AReply)
        × (replies.new.items ≡ replies.old.items ++ added)
        × (length added ≡ length requests.now)
        × (K.is_honest keep.new → (t : Tables) → Stands K.is_open K.tables keep.old t
        → (t2 : Tables)
        × Answered K.Keep keep.old keep.new (exchanges_in site.now requests.now added) t t2) }
{
    site.fact_rules();
    for asked in requests {
        fact_seat(site, asked);
        replies.push(answer(alloc, keep, site, asked.caller, &asked.request))?;
    }
    Ok(())
}

/// Answers requests of a site's seats, one after another. It takes room for all replies first, and
/// answers `Err`, with nothing changed, only where that is refused; any later failure is that
/// request's 503.
///
/// Where the store is honest, the replies are those of a run of the office. From tables that are
/// sound for the site, or for one that it grew from:
///
/// - The tables stay sound.
/// - Each customer's replies and rows are those of the customer's own machine, run on the
///   customer's own requests alone.
/// - Nothing that was burnt is forgotten, and what is given stays.
/// - No identity gives what another gave.
/// - A request that comes again acts once.
///
/// A crash after the last reply leaves the tables of the run, or those after one step more, of a
/// request that was answered 503 since the last other reply.
pub fn replay<K: Keep>(
    alloc: Global,
    keep: &mut K,
    site: &Site,
    requests: &[SeatRequest],
) -> Result<Vec<Reply>, Unkept>
    requires { All (λ asked. IsSeatCaller site.now asked.caller) requests.now }
    ensures was_open { K.is_open keep.new → K.is_open keep.old }
    ensures was_honest { K.is_honest keep.new → K.is_honest keep.old }
    ensures err { OnErr result (keep.new ≡ keep.old) }
    ensures count { IfOk result (λ replies. length replies.items ≡ length requests.now) }
    ensures apart { IfOk result (λ _. PoolsDisjoint (ownership_of site.now)) }
    ensures seats { IfOk result (λ _.
        AllByRecursion (IsSeat (ownership_of site.now)) (calls_in site.now requests.now)) }
    ensures run { IfOk result (λ replies.
        KeepsPromises K.Keep (site.now ∷ []) keep.old keep.new
        (exchanges_in site.now requests.now replies.items)) }
{
    let mut replies = Vec::with_capacity(alloc, requests.len())?;
    answer_all(alloc, keep, site, requests, &mut replies)?;
    Ok(replies)
}

/// How many requests the parts have, if a number holds it.
fn count_requests(parts: &[Part<'_>]) -> Option<usize>
    ensures { IfSome result (λ count. count ≡ length (calls_of_parts parts.now)) }
{
    let mut count = 0usize;
    for part in parts {
        count = count.checked_add(part.requests.len())?;
    }
    Some(count)
}

/// Answers the requests of parts in turn, each part's under its own site, which is a growth of the
/// one before it: a run in which the site's text was changed in between. It takes room for all
/// replies first, and answers `Err`, with nothing changed, only where that is refused; any later
/// failure is that request's 503.
///
/// The promises are those of `replay`. A customer's own machine takes the customer's section from
/// the part that a request stands in. No parts get no replies, and change nothing.
pub fn replay_parts<K: Keep>(
    alloc: Global,
    keep: &mut K,
    parts: &[Part<'_>],
) -> Result<Vec<Reply>, Unkept>
    requires callers { All (λ part.
        All (λ asked. IsSeatCaller part.site.now asked.caller) part.requests.now) parts.now }
    requires grown { AreGrown (sites_of parts.now) }
    ensures was_open { K.is_open keep.new → K.is_open keep.old }
    ensures was_honest { K.is_honest keep.new → K.is_honest keep.old }
    ensures err { OnErr result (keep.new ≡ keep.old) }
    ensures count { IfOk result (λ replies.
        length replies.items ≡ length (calls_of_parts parts.now)) }
    ensures seats { IfOk result (λ _. (first : Ownership) → BeginGrown first (sites_of parts.now)
        → AreSeats first (calls_of_parts parts.now) (last_owners first (sites_of parts.now))) }
    ensures run { IfOk result (λ replies.
        KeepsPromises K.Keep (sites_of parts.now) keep.old keep.new
        (exchanges_of_parts parts.now replies.items)) }
{
    let Some(count) = count_requests(parts) else {
        return Err(Unkept::without_error());
    };
    let mut replies = Vec::with_capacity(alloc, count)?;
    for part in parts {
        answer_all(alloc, keep, part.site, part.requests, &mut replies)?;
    }
    Ok(replies)
}
