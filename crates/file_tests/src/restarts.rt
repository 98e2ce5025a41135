//! A store in files that crashes between two lists of requests, and whose site may grow there.
ghost use Rattle.std.specs.Prelude.{All};
ghost use Rattle.site_core.specs.Prelude.{IsGrowth, IsSeatCaller};

use crate::disks::{
    FilesCase, InFiles, NO_STOP, SqlFiles, Store, file_of, over_files, rows_in, undisturbed,
};
use crate::grown::held_over_growth;
use crate::stops::{cut_at, run_and_books};
use crash_laws::{Restarted, crash, replay_through_crash};
use office_core::{Reply, SeatRequest};
use site_core::{SiteText, read_site_text};
use sqlite::{Files, Options};
use sqlite_disk::{Fuse, Memory};
use std::alloc::Global;
use std::test::Fail;
use test_fixtures::conversations::growths::{GROWTHS, Growth};
use test_fixtures::conversations::{Exchange, exchanges};
use test_fixtures::samples::SITE;
use test_support::lists::{first_difference_among, seat_requests};

/// What a crash leaves of a store.
fn left_by(alloc: Global, keep: SqlFiles) -> Option<Store> {
    Store::of(alloc, &crash(keep))
}

/// The first request of two lists that didn't get its reply, and what it got, and what is left.
fn first_difference_in_both(
    alloc: Global,
    asked: (&[Exchange<'_>], &[Exchange<'_>]),
    replies: (&[Reply], &[Reply]),
    left: Option<Store>,
) -> Result<(String, Store), Fail> {
    let left = left.ok_or("no memory for what is left")?;
    let found = first_difference_among(alloc, asked.0, replies.0)?;
    if !found.is_empty() {
        return Ok((found, left));
    }
    Ok((first_difference_among(alloc, asked.1, replies.1)?, left))
}

/// Crashes at the end of two lists of requests: the first that didn't get its reply, and what it got, and what
/// is left.
fn ended(
    alloc: Global,
    asked: (&[Exchange<'_>], &[Exchange<'_>]),
    done: Restarted<Fuse<Memory>>,
) -> Result<(String, Store), Fail> {
    let Restarted {
        before,
        after,
        keep,
    } = done;
    let left = left_by(alloc, keep);
    first_difference_in_both(alloc, asked, (before.as_slice(), after.as_slice()), left)
}

/// Makes requests over new files in memory, crashes, and makes more over what is left.
fn restarted(
    alloc: Global,
    site: &SiteText,
    first: &[SeatRequest],
    grown: &SiteText,
    second: &[SeatRequest],
) -> Result<Restarted<Fuse<Memory>>, Fail>
    requires first { All (λ asked. IsSeatCaller site.now.site asked.caller) first.now }
    requires second { All (λ asked. IsSeatCaller grown.now.site asked.caller) second.now }
    requires grown { IsGrowth site.now.site grown.now.site }
{
    let files = Files {
        log: file_of(alloc, &[], NO_STOP.log_calls)?,
        db: file_of(alloc, &[], NO_STOP.file_calls)?,
    };
    let options = Options::new(7);
    Ok(replay_through_crash(alloc, files, options, site, first, grown, second)?)
}

/// Asks what is asked in exchanges, has the files in memory lose what wasn't synced, and asks for more
/// for the site of a text that is the sample's or grew from it: the first request that doesn't get its
/// reply, and what it got, and what another crash leaves at the end.
fn held_through_crash(
    alloc: Global,
    before: &[Exchange<'_>],
    next: &str,
    after: &[Exchange<'_>],
) -> Result<(String, Store), Fail> {
    let (site, grown) = (read_site_text(alloc, SITE)?, read_site_text(alloc, next)?);
    let first = seat_requests(alloc, site.site(), before)?;
    let second = seat_requests(alloc, grown.site(), after)?;
    if !site.site().is_growth(grown.site()) {
        return Err(Fail::from("no growth"));
    }
    let done = restarted(alloc, &site, first.as_slice(), &grown, second.as_slice())?;
    ended(alloc, (before, after), done)
}

/// Asks what is asked in exchanges, has the files in memory lose what wasn't synced, and asks for more: what differs
/// first, in a reply or in what stands in the store at the end, which must be this.
fn difference_through_crash<K: InFiles>(
    alloc: Global,
    before: &[Exchange<'_>],
    next: &str,
    after: &[Exchange<'_>],
    wanted: &str,
) -> Result<String, Fail> {
    let (found, left) = held_through_crash(alloc, before, next, after)?;
    if !found.is_empty() {
        return Ok(found);
    }
    let rows = rows_in::<K>(alloc, &left)?;
    if rows.as_str() != wanted {
        return Ok(format!(in alloc; "{wanted} -> {rows}")?);
    }
    Ok(found)
}

/// A run with a crash behind each of its requests, which is sent again after it, with no other and with those
/// that show the books: what differs first from the run that nothing stops.
fn first_difference_at_crashes<K: InFiles>(alloc: Global) -> Result<String, Fail> {
    let (all, run) = run_and_books(alloc)?;
    let all = all.as_slice();
    for sent in 0..run {
        let count = sent.saturating_add(1);
        let (before, _) = cut_at(all, count);
        let (_, again) = cut_at(all, sent);
        for after in &[cut_at(again, 1).0, again] {
            let after = *after;
            let (whole, _) = cut_at(all, sent.saturating_add(after.len()));
            let wanted = undisturbed::<K>(alloc, &Store::new(alloc), SITE, whole)?;
            let found = difference_through_crash::<K>(alloc, before, SITE, after, wanted.as_str())?;
            if !found.is_empty() {
                return Ok(format!(in alloc; "behind {count} requests: {found}")?);
            }
        }
    }
    Ok(String::new(alloc))
}

/// A growth of the sample site behind a crash: what differs first from a store that is closed where the other
/// crashes.
fn difference_at_growth<K: InFiles>(alloc: Global, growth: &Growth) -> Result<String, Fail> {
    let (found, closed) = held_over_growth::<K>(alloc, growth)?;
    if !found.is_empty() {
        return Ok(found);
    }
    let before = exchanges(alloc, growth.before)?;
    let after = exchanges(alloc, growth.after)?;
    let wanted = rows_in::<K>(alloc, &closed)?;
    difference_through_crash::<K>(
        alloc,
        before.as_slice(),
        growth.site,
        after.as_slice(),
        wanted.as_str(),
    )
}

/// A growth of the sample site behind a crash, for each growth: what differs first, behind the growth's name.
fn first_difference_at_growths<K: InFiles>(alloc: Global) -> Result<String, Fail> {
    for growth in GROWTHS {
        let found = difference_at_growth::<K>(alloc, growth)?;
        if !found.is_empty() {
            return Ok(format!(in alloc; "{}: {found}", growth.name)?);
        }
    }
    Ok(String::new(alloc))
}

/// A run with a crash behind each of its requests.
struct CrashedRun;

impl FilesCase for CrashedRun {
    fn first_difference<K: InFiles>(alloc: Global) -> Result<String, Fail> {
        first_difference_at_crashes::<K>(alloc)
    }
}

/// Growths behind a crash.
struct CrashedGrowths;

impl FilesCase for CrashedGrowths {
    fn first_difference<K: InFiles>(alloc: Global) -> Result<String, Fail> {
        first_difference_at_growths::<K>(alloc)
    }
}

/// A list of requests, a crash of the files and a list that begins with the last request again: what was
/// replied is there, the repeat gets its reply, and the tables are those of a run that nothing stops.
#[test]
fn lists_go_on_behind_a_crash(rt: HostRuntime) -> Result<(), Fail> {
    assert_eq!(rt; over_files::<CrashedRun>(rt.alloc())?.as_str(), "");
    Ok(())
}

/// A list of requests, a crash of the files, a growth of the site and a second list: what was replied is there,
/// and the tables are those of a store that was closed where this one crashed.
#[test]
fn grown_sites_go_on_behind_a_crash(rt: HostRuntime) -> Result<(), Fail> {
    assert_eq!(rt; over_files::<CrashedGrowths>(rt.alloc())?.as_str(), "");
    Ok(())
}
