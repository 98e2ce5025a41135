//! A run that is stopped at each call of its store, and goes on over what is left.
use crate::disks::{
    FilesCase, InFiles, NO_STOP, Stop, Store, held_over, over_files, rows_in, undisturbed,
};
use std::alloc::Global;
use std::test::Fail;
use test_fixtures::conversations::runs::{BOOKS, RUN};
use test_fixtures::conversations::{Exchange, exchanges, is_unanswered};
use test_fixtures::samples::SITE;
use test_support::conversation::difference_for;
use yield_counts::Count;

/// More calls than a run makes.
const CALL_LIMIT: u64 = 20_000;

/// One stop of a run in so many is followed by a second one, at each call of the opening behind it.
const STOPS_OF_SECOND: u64 = 4;

/// The file of a store whose calls are counted.
#[derive(Clone, Copy)]
enum Counted {
    File,
    Log,
}

/// The stop after so many calls of a file.
fn stop_after(calls: u64, counted: Counted, loses_unsynced: bool) -> Stop {
    match counted {
        Counted::File => Stop {
            file_calls: calls,
            loses_unsynced,
            ..NO_STOP
        },
        Counted::Log => Stop {
            log_calls: calls,
            loses_unsynced,
            ..NO_STOP
        },
    }
}

/// A run that is stopped: exchanges over the bytes of a store, which is opened for the site of a text. So many
/// of them are made before the stop, and the others behind it.
#[derive(Clone, Copy)]
struct Run<'a> {
    store: &'a Store,
    site: &'a str,
    exchanges: &'a [Exchange<'a>],
    stopped: usize,
    /// All that stands in the store where nothing stops it: before it is opened, behind that, behind the
    /// first exchange, and so on.
    rows: &'a [String],
}

impl Run<'_> {
    /// All that stands in the store at a place of the run that nothing stops.
    fn rows_at(&self, place: usize) -> Result<&str, Fail> {
        let rows = self.rows.get(place).ok_or("fewer exchanges")?;
        Ok(rows.as_str())
    }
}

/// What became of a run that was stopped: the place up to which it came, 0 where the store isn't opened, 1 where
/// it is, 2 behind the first reply, and so on; what another request got that was answered; and what is left.
#[derive(Drop)]
struct Stopped {
    place: usize,
    found: String,
    left: Store,
}

/// Makes exchanges for the site of a text until a request isn't answered: how many got their replies,
/// and what the last got where it was answered with another one.
fn answered<K: Count>(
    alloc: Global,
    keep: &mut K,
    site: &str,
    run: &[Exchange<'_>],
) -> Result<(usize, String), Fail> {
    for (replies, exchange) in run.iter().enumerate() {
        let found = difference_for(alloc, keep, site, *exchange)?;
        if is_unanswered(found.as_str()) {
            return Ok((replies, String::new(alloc)));
        }
        if !found.is_empty() {
            return Ok((replies, found));
        }
    }
    Ok((run.len(), String::new(alloc)))
}

/// The first of exchanges, so many or all, and the others.
pub fn cut_at<'b, 'a>(
    exchanges: &'b [Exchange<'a>],
    count: usize,
) -> (&'b [Exchange<'a>], &'b [Exchange<'a>]) {
    exchanges.split_at(count.min(exchanges.len()))
}

/// Opens the store of a run with a stop to come, makes its first exchanges, and stops it behind them.
fn stopped_in<K: InFiles>(alloc: Global, run: Run<'_>, stop: Stop) -> Result<Stopped, Fail> {
    let (first, _) = cut_at(run.exchanges, run.stopped);
    match K::opened(alloc, run.store, run.site, stop)? {
        Ok(mut keep) => {
            let answers = answered(alloc, &mut keep, run.site, first);
            let left = keep.ended(alloc, stop.ending());
            let (replies, found) = answers?;
            Ok(Stopped {
                place: replies.saturating_add(1),
                found,
                left: left.ok_or("no memory for what is left")?,
            })
        }
        Err(unopened) => Ok(Stopped {
            place: 0,
            found: String::new(alloc),
            left: unopened.left,
        }),
    }
}

/// What is left of a store that is killed behind exchanges.
pub fn killed_behind<K: InFiles>(
    alloc: Global,
    store: &Store,
    site: &str,
    exchanges: &[Exchange<'_>],
) -> Result<Store, Fail> {
    let run = Run {
        store,
        site,
        exchanges,
        stopped: exchanges.len(),
        rows: &[],
    };
    let stopped = stopped_in::<K>(alloc, run, NO_STOP)?;
    Ok(stopped.left)
}

/// Makes exchanges over a store without a stop: what differs first, or that what stands there then isn't this,
/// and what is left.
fn difference_up_to<K: InFiles>(
    alloc: Global,
    store: &Store,
    site: &str,
    exchanges: &[Exchange<'_>],
    wanted: &str,
) -> Result<(String, Store), Fail> {
    let (found, left) = held_over::<K>(alloc, store, site, exchanges)?;
    if !found.is_empty() {
        return Ok((found, left));
    }
    let (rows, left) = K::changed(alloc, &left, "")?;
    if rows.as_str() != wanted {
        let found = format!(in alloc; "{wanted} -> {rows}")?;
        return Ok((found, left));
    }
    Ok((String::new(alloc), left))
}

/// Goes on over what a stop left: what differs first from the run that nothing stops. The next number of a seat
/// is accepted only where the one before it was, so the requests behind the stop ask for what was replied, too.
fn difference_in_rest<K: InFiles>(
    alloc: Global,
    run: Run<'_>,
    place: usize,
    left: &Store,
) -> Result<String, Fail> {
    let sent = place.saturating_sub(1);
    let (_, again) = cut_at(run.exchanges, sent);
    let (first, rest) = cut_at(again, 1);
    let wanted = run.rows_at(sent.saturating_add(2))?;
    let (found, store) = difference_up_to::<K>(alloc, left, run.site, first, wanted)?;
    if !found.is_empty() {
        return Ok(found);
    }
    let wanted = run.rows_at(run.exchanges.len().saturating_add(1))?;
    let (found, _) = difference_up_to::<K>(alloc, &store, run.site, rest, wanted)?;
    Ok(found)
}

/// What differs behind a stop from the run that nothing stops: what is left is what stands there at the place up
/// to which the run came, or what the request leaves that was cut off; and it goes on from there.
fn difference_behind<K: InFiles>(
    alloc: Global,
    run: Run<'_>,
    place: usize,
    left: &Store,
) -> Result<String, Fail> {
    let rows = rows_in::<K>(alloc, left)?;
    let before = run.rows_at(place)?;
    let behind = run.rows_at(place.saturating_add(1))?;
    if rows.as_str() != before && rows.as_str() != behind {
        return Ok(format!(in alloc; "{before} or {behind} -> {rows}")?);
    }
    difference_in_rest::<K>(alloc, run, place, left)
}

/// Stops the opening of what a stop left at each of its calls, and goes on: what differs first.
fn difference_behind_second<K: InFiles>(
    alloc: Global,
    run: Run<'_>,
    stopped: &Stopped,
    stops: (Counted, bool),
) -> Result<String, Fail> {
    let opening = Run {
        store: &stopped.left,
        stopped: 0,
        ..run
    };
    let mut last = Store::new(alloc);
    for calls in 0..CALL_LIMIT {
        let second = stopped_in::<K>(alloc, opening, stop_after(calls, stops.0, stops.1))?;
        if second.place > 0 {
            return Ok(String::new(alloc));
        }
        if !second.left.is_same(&last) {
            let found = difference_behind::<K>(alloc, run, stopped.place, &second.left)?;
            if !found.is_empty() {
                return Ok(format!(in alloc; "{calls} calls of the opening: {found}")?);
            }
        }
        last = second.left;
    }
    Ok(String::from_str(alloc, "an opening without an end")?)
}

/// What differs behind the stop after so many calls, and in a run for some of them behind a second one, too.
fn difference_of_stop<K: InFiles>(
    alloc: Global,
    run: Run<'_>,
    stopped: &Stopped,
    calls: u64,
    stops: (Counted, bool),
) -> Result<String, Fail> {
    if !stopped.found.is_empty() {
        return Ok(String::from_str(alloc, stopped.found.as_str())?);
    }
    let found = difference_behind::<K>(alloc, run, stopped.place, &stopped.left)?;
    if !found.is_empty() || run.stopped == 0 || calls % STOPS_OF_SECOND != 0 {
        return Ok(found);
    }
    difference_behind_second::<K>(alloc, run, stopped, stops)
}

/// Stops a run at each call of a file, until it makes fewer: what differs first. Where a stop leaves what the
/// one before it left, so does all that follows.
fn first_lost_at<K: InFiles>(
    alloc: Global,
    run: Run<'_>,
    stops: (Counted, bool),
) -> Result<String, Fail> {
    let (mut last, mut place) = (Store::new(alloc), run.exchanges.len());
    for calls in 0..CALL_LIMIT {
        let stopped = stopped_in::<K>(alloc, run, stop_after(calls, stops.0, stops.1))?;
        if stopped.place != place || !stopped.left.is_same(&last) {
            let found = difference_of_stop::<K>(alloc, run, &stopped, calls, stops)?;
            if !found.is_empty() {
                return Ok(format!(in alloc; "behind {calls} calls: {found}")?);
            }
        }
        if stopped.place > run.stopped {
            return Ok(String::new(alloc));
        }
        place = stopped.place;
        last = stopped.left;
    }
    Ok(String::from_str(alloc, "a run without an end")?)
}

/// All that stands in a store at each place of a run that nothing stops: before it is opened, behind that,
/// behind the first exchange, and so on.
pub fn rows_of_run<K: InFiles>(
    alloc: Global,
    store: &Store,
    site: &str,
    exchanges: &[Exchange<'_>],
) -> Result<Vec<String>, Fail> {
    let mut all = Vec::new(alloc);
    all.push(rows_in::<K>(alloc, store)?)?;
    for count in 0..exchanges.len() + 1 {
        let (made, _) = exchanges.split_at(count);
        all.push(undisturbed::<K>(alloc, store, site, made)?)?;
    }
    Ok(all)
}

/// Stops a run over a store, in which so many of the exchanges are made before the stop, at each call of either
/// file: what differs first from the run that nothing stops.
pub fn first_lost<K: InFiles>(
    alloc: Global,
    store: &Store,
    site: &str,
    exchanges: &[Exchange<'_>],
    stopped: usize,
    loses_unsynced: bool,
) -> Result<String, Fail> {
    let rows = rows_of_run::<K>(alloc, store, site, exchanges)?;
    let run = Run {
        store,
        site,
        exchanges,
        stopped,
        rows: rows.as_slice(),
    };
    let found = first_lost_at::<K>(alloc, run, (Counted::Log, loses_unsynced))?;
    if !found.is_empty() {
        return Ok(format!(in alloc; "the log: {found}")?);
    }
    first_lost_at::<K>(alloc, run, (Counted::File, loses_unsynced))
}

/// The exchanges of the run and those that show its books, and how many there are of the first.
pub fn run_and_books(alloc: Global) -> Result<(Vec<Exchange<'static>>, usize), Fail> {
    let mut all = exchanges(alloc, RUN)?;
    let count = all.len();
    all.extend_from_slice(exchanges(alloc, BOOKS)?.as_slice())?;
    Ok((all, count))
}

/// Stops the run over a new store: what differs first.
fn first_lost_of_run<K: InFiles>(alloc: Global, loses_unsynced: bool) -> Result<String, Fail> {
    let (all, count) = run_and_books(alloc)?;
    let new = Store::new(alloc);
    first_lost::<K>(alloc, &new, SITE, all.as_slice(), count, loses_unsynced)
}

/// A run that is killed.
struct KilledRun;

impl FilesCase for KilledRun {
    fn first_difference<K: InFiles>(alloc: Global) -> Result<String, Fail> {
        first_lost_of_run::<K>(alloc, false)
    }
}

/// A run whose power fails.
struct RunWithoutPower;

impl FilesCase for RunWithoutPower {
    fn first_difference<K: InFiles>(alloc: Global) -> Result<String, Fail> {
        first_lost_of_run::<K>(alloc, true)
    }
}

/// A run over files is stopped at each call of either, and so are some of the openings behind: what stands in
/// the tables is what stood there behind the last reply, or what the request leaves that was cut off; it gets its
/// reply when it is sent again, and the tables and the books are those of a run that nothing stops.
#[test]
fn a_killed_run_goes_on(rt: HostRuntime) -> Result<(), Fail> {
    assert_eq!(rt; over_files::<KilledRun>(rt.alloc())?.as_str(), "");
    Ok(())
}

/// A run over files is stopped at each call of either, and what wasn't synced is lost: the request that was cut off
/// gets its reply when it is sent again, and the tables and the books are those of a run that nothing stops.
#[test]
fn a_run_goes_on_after_a_power_cut(rt: HostRuntime) -> Result<(), Fail> {
    assert_eq!(rt; over_files::<RunWithoutPower>(rt.alloc())?.as_str(), "");
    Ok(())
}
