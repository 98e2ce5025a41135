// Requests to a store in files, before a crash and after it.
ghost use Rattle.std.specs.Prelude.{◌≡◌, ◌∷◌, [], All, length, IsTrue, IfOk};
ghost use Rattle.std.specs.List.{AllByRecursion};
ghost use Rattle.sqlite.specs.Files.{over_files};
ghost use Rattle.site_core.specs.Prelude.{IsGrowth, IsSeatCaller, PoolsDisjoint, ownership_of, IsSite};
ghost use Rattle.office_laws.specs.Prelude.{IsSeat};
ghost use Rattle.office_core.specs.Prelude.{KeepsPromises, calls_in, exchanges_in};
ghost use Rattle.sqlite_wal.specs.Reads.{AreClean};
ghost use Rattle.office_store.specs.Prelude.{is_honest_at};
ghost use Rattle.crash_laws.specs.Restarting.{GoesOn, IsStopped};

use crate::crashing::{Crashable, crash, crash_files};
use crate::opening::open_files;
use http_replies::Reply;
use office_core::{Keep, SeatRequest, Unkept, replay};
use office_store::{OpenFault, SqlKeep, into_store};
use site_core::SiteText;
use sqlite::{FileStore, Files, Options};
use sqlite_disk::Disk;
use std::alloc::Global;
use thiserror::Error;

/// Why requests weren't answered.
#[derive(Clone, Copy, Debug, PartialEq, Eq, Drop, Error)]
pub enum Unserved {
    /// The store isn't opened.
    #[error("the store isn't opened")]
    NotOpened(#[from] OpenFault),
    /// There is no memory for the replies.
    #[error("there is no memory for the replies")]
    NoRoom,
}

impl From<Unkept> for Unserved {
    fn from(_: Unkept) -> Self {
        Unserved::NoRoom
    }
}

/// What requests got, and the files as the store left them.
pub struct Stopped<D: Disk> {
    /// The replies.
    pub replies: Vec<Reply>,
    /// The files, whose store is ended.
    pub files: Files<D>,
}

/// What requests got, and the store after them.
pub struct Restarted<D: Disk> {
    /// The replies before the crash.
    pub before: Vec<Reply>,
    /// The replies after it.
    pub after: Vec<Reply>,
    /// The store.
    pub keep: SqlKeep<FileStore<D>>,
}

/// Answers requests of the seats of a text's site, one after another.
fn replay_text<K: Keep>(
    alloc: Global,
    keep: &mut K,
    site: &SiteText,
    requests: &[SeatRequest],
) -> Result<Vec<Reply>, Unkept>
    requires { All (λ asked. IsSeatCaller site.now.site asked.caller) requests.now }
    ensures site { IsSite site.now.site }
    ensures was_honest { K.is_honest keep.new → K.is_honest keep.old }
    ensures count { IfOk result (λ replies. length replies.items ≡ length requests.now) }
    ensures apart { IfOk result (λ _. PoolsDisjoint (ownership_of site.now.site)) }
    ensures seats { IfOk result (λ _.
        AllByRecursion (IsSeat (ownership_of site.now.site)) (calls_in site.now.site requests.now)) }
    ensures run { IfOk result (λ replies.
        KeepsPromises K.Keep (site.now.site ∷ []) keep.old keep.new
        (exchanges_in site.now.site requests.now replies.items)) }
{
    replay(alloc, keep, site.site(), requests)
}

/// Answers requests of a site's seats over the store in files, and hands back the files, as a stop
/// behind the last of them finds them.
///
/// Where the disks return what was written, what was answered is there whatever a crash leaves of the
/// files, and so may be one step more, of a request that was answered 503 since the last one that wasn't.
///
/// # Errors
///
/// The store isn't opened, or there is no memory for the replies. The files are closed then.
pub fn replay_until_stop<D: Disk + Drop>(
    alloc: Global,
    files: Files<D>,
    options: Options,
    site: &SiteText,
    requests: &[SeatRequest],
) -> Result<Stopped<D>, Unserved>
    requires log { IsTrue (D.Disk.is_usable files.log) }
    requires db { IsTrue (D.Disk.is_usable files.db) }
    requires callers { All (λ asked. IsSeatCaller site.now.site asked.caller) requests.now }
    ensures count { IfOk result (λ done. length done.replies.items ≡ length requests.now) }
    ensures site { IfOk result (λ _. IsSite site.now.site) }
    ensures apart { IfOk result (λ _. PoolsDisjoint (ownership_of site.now.site)) }
    ensures seats { IfOk result (λ _.
        AllByRecursion (IsSeat (ownership_of site.now.site)) (calls_in site.now.site requests.now)) }
    ensures run { IfOk result (λ done. AreClean D.Disk done.files.log done.files.db
        → IsStopped D.Disk (ownership_of site.now.site) files
        (exchanges_in site.now.site requests.now done.replies.items) done.files) }
{
    let mut keep = open_files(alloc, files, options, site)?;
    let replies = replay_text(alloc, &mut keep, site, requests);
    let files = into_store(keep).close();
    match replies {
        Ok(replies) => Ok(Stopped { replies, files }),
        Err(_) => Err(Unserved::NoRoom),
    }
}

/// Answers requests of a site's seats over the store in files, until these crash; opens what is left
/// for the site as it stands then, which may have grown, and answers more requests over it.
///
/// Where the disks return what was written, what was answered before the crash is there after it. One
/// step more may be there too, of a request that was answered 503 since the last one that wasn't.
///
/// What was answered before, that step and what is answered after are one run. From tables that are
/// sound for the first site, or for one that it grew from, all is promised of it that is promised of a
/// run without a crash. So a request that was cut off is there whole or not at all. Where it is sent
/// again it acts once, and gets the reply of its one execution.
///
/// # Errors
///
/// The store isn't opened, before or after the crash, or there is no memory for the replies. The files
/// are closed then.
pub fn replay_through_crash<D: Crashable + Drop>(
    alloc: Global,
    files: Files<D>,
    options: Options,
    site: &SiteText,
    first: &[SeatRequest],
    grown: &SiteText,
    second: &[SeatRequest],
) -> Result<Restarted<D>, Unserved>
    requires log { IsTrue (D.Disk.is_usable files.log) }
    requires db { IsTrue (D.Disk.is_usable files.db) }
    requires first { All (λ asked. IsSeatCaller site.now.site asked.caller) first.now }
    requires second { All (λ asked. IsSeatCaller grown.now.site asked.caller) second.now }
    requires grown { IsGrowth site.now.site grown.now.site }
    ensures count { IfOk result (λ done. (length done.before.items ≡ length first.now)
        × (length done.after.items ≡ length second.now)) }
    ensures run { IfOk result (λ done. is_honest_at over_files done.keep.conn
        → ∥ GoesOn D.Disk D.Crashable.crashed site.now grown.now files
        (exchanges_in site.now.site first.now done.before.items)
        (exchanges_in grown.now.site second.now done.after.items) done.keep ∥₁) }
{
    let Stopped { replies, files } = replay_until_stop(alloc, files, options, site, first)?;
    let left = crash_files(files);
    let mut keep = open_files(alloc, left, options, grown)?;
    match replay_text(alloc, &mut keep, grown, second) {
        Ok(after) => Ok(Restarted {
            before: replies,
            after,
            keep,
        }),
        Err(_) => {
            drop(crash(keep));
            Err(Unserved::NoRoom)
        }
    }
}
