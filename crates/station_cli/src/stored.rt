//! A store in a file: how it is opened, and a replay over it.
ghost use Rattle.std.specs.Prelude.{◌≡◌, ◌⊎◌, IfOk, IfErr, IsErrAnd, IsOkAnd, IsTrue, MatchResult, Some};
ghost use Rattle.station_cli.specs.Prelude.{IsAnswered, AreUntouched, IsUnread, IsOfStore, IsOpening, Leaves, site_in, text_of_site};
ghost use Rattle.http_frames.specs.Prelude.{HasCallsLeft, StaysWithinCalls};
ghost use Rattle.office_store.specs.Prelude.{IsRefusal, open_fault_number};
ghost use Rattle.sqlite.specs.WalFiles.{image_at};
ghost use Rattle.station_api.specs.Prelude.{ServesOver};

use crate::failure::Failure;
use crate::job::StoreName;
use crate::site_file::site_of_file;
use office_core::Keep;
use office_store::{Absent, Closed, OpenFault, Refused, SqlKeep, close, open_or_hand_back};
use site_core::{Site, SiteText};
use sqlite::{Alter, FileFrom, FileStore};
use sqlite_disk::{Disk, Start};
use station_api::{Drain, Served, Source, serve_stream};
use std::alloc::Global;
use std::io;
use yield_counts::Counted;

/// A keeper whose statements may have a limit of steps. Code over any such keeper can't set another one.
pub trait Limited {
    /// Each statement has the limit of the program.
    ghost is_limited: { Self → Type 0 };
}

impl<S: Alter> Limited for SqlKeep<S> {
    ghost is_limited = { λ keep. keep.conn.step_limit ≡ Some 1000000000 };
}

impl<K: Keep + Limited> Limited for Counted<K> {
    ghost is_limited = { K.is_limited };
}

/// What a job over a store leaves of its files.
#[derive(Drop)]
pub enum LeftFiles<S: Drop, D: Disk + Drop> {
    /// They are as they were: this stands for what they hold, and an opening would have taken it.
    Untouched(S),
    /// What was handed back of the files of a store that wasn't opened.
    Refused(Refused<D>),
    /// The files of a store that was served over.
    Ended(Closed<D>),
}

/// What a job over a store came to.
#[derive(Drop)]
pub struct Done<'a, T: Drop, S: Drop, D: Disk + Drop> {
    /// Its result, or why it failed.
    pub result: Result<T, Failure<'a>>,
    /// What it left of the store's files.
    pub files: LeftFiles<S, D>,
}

/// Serves one stream over the store in a file, for the site that a file describes, by what reading the
/// file with this name gave. The store is closed at the end. Answers how the stream ended.
///
/// # Errors
///
/// The site's file wasn't read or describes no site, memory ran out, or the store isn't opened.
pub fn replay_stored<'a, S: Start, R: Source, W: Drain>(
    rt: &HostRuntime,
    alloc: Global,
    name: &'a str,
    file: io::Result<Vec<u8>>,
    store: StoreFile<'_, S>,
    reader: &mut R,
    writer: &mut W,
) -> Done<'a, Served, S, FileFrom<S>>
    requires reader { HasCallsLeft (R.calls reader.old) 0 }
    requires writer { HasCallsLeft (W.calls writer.old) 0 }
    ensures unread { IfErr file (λ error. IsErrAnd result.result (IsUnread name.entry error)) }

    // A file that describes no site is the failure, whatever the store and the stream.
    ensures no_site { IfOk file (λ bytes. IfErr (site_in name.entry bytes.items) (λ failure.
        (result.result ≡ Err failure) ⊎ (result.result ≡ Err Failure.NoMemory))) }

    // What fails where there is a site is memory or the store.
    ensures failed { IfOk file (λ bytes. IfOk (site_in name.entry bytes.items) (λ _.
        IfErr result.result (λ failure. (failure ≡ Failure.NoMemory) ⊎ IsOfStore failure))) }

    // Without a site no store is opened.
    ensures unread_site { IfErr file (λ _. AreUntouched result.files) }
    ensures unopened { IfOk file (λ bytes.
        IfErr (site_in name.entry bytes.items) (λ _. AreUntouched result.files)) }

    // The store was refused, or it was as its opening says, and the stream was served over it: its
    // requests lead from the tables of then to those that the files hold that come back.
    ensures books { IfOk file (λ bytes. IfOk (site_in name.entry bytes.items) (λ site.
        Leaves (text_of_site bytes.items site) (image_at S.Start) store.entry.name.now
        store.entry.absent (λ opened last. IsOkAnd result.result (λ served.
        ServesOver ⟦<SqlKeep<FileStore<FileFrom<S>>> as Keep>⟧ site (R.left reader.old)
        (R.left reader.new) (W.written writer.old) (W.written writer.new) served opened last))
        result.result result.files)) }

    // How it ended is what its bytes tell.
    ensures ended { IfOk result.result (IsAnswered (record {
      input_old = R.left reader.old;
      input_new = R.left reader.new;
      output_old = W.written writer.old;
      output_new = W.written writer.new;
    })) }

    // Nothing is read or written before the site is known and the store is open.
    ensures within { MatchResult result.result
        (StaysWithinCalls R.Source W.Drain reader.old reader.new writer.old writer.new)
        (λ _. (reader.new ≡ reader.old) × (writer.new ≡ writer.old)) }
{
    let site = match site_of_file(alloc, name, file) {
        Ok(site) => site,
        Err(failure) => {
            return Done {
                result: Err(failure),
                files: LeftFiles::Untouched(store.start),
            };
        }
    };
    replay_store(rt, alloc, &site, store, reader, writer)
}

/// Serves one stream over the store in a file, which is closed at the end.
fn replay_store<'a, S: Start, R: Source, W: Drain>(
    rt: &HostRuntime,
    alloc: Global,
    site: &SiteText,
    store: StoreFile<'_, S>,
    reader: &mut R,
    writer: &mut W,
) -> Done<'a, Served, S, FileFrom<S>>
    requires reader { HasCallsLeft (R.calls reader.old) 0 }
    requires writer { HasCallsLeft (W.calls writer.old) 0 }
    ensures failed { IfErr result.result (λ failure. (failure ≡ Failure.NoMemory)
        ⊎ IsOfStore failure) }
    ensures books { Leaves site.now (image_at S.Start) store.entry.name.now store.entry.absent
        (λ opened last. IsOkAnd result.result (λ served.
        ServesOver ⟦<SqlKeep<FileStore<FileFrom<S>>> as Keep>⟧ site.now.site (R.left reader.old)
        (R.left reader.new) (W.written writer.old) (W.written writer.new) served opened last))
        result.result result.files }
    ensures ended { IfOk result.result (IsAnswered (record {
      input_old = R.left reader.old;
      input_new = R.left reader.new;
      output_old = W.written writer.old;
      output_new = W.written writer.new;
    })) }
    ensures within { MatchResult result.result
        (StaysWithinCalls R.Source W.Drain reader.old reader.new writer.old writer.new)
        (λ _. (reader.new ≡ reader.old) × (writer.new ≡ writer.old)) }
{
    let keep = match open_limited(rt, alloc, store, site) {
        Ok(keep) => keep,
        Err(refused) => {
            return Done {
                result: Err(store_failure(refused.fault)),
                files: LeftFiles::Refused(refused),
            };
        }
    };
    let (served, keep) = replay_over(alloc, keep, site.site(), reader, writer);
    Done {
        result: Ok(served),
        files: LeftFiles::Ended(close(keep)),
    }
}

/// Serves one stream over a store, whose statements have the limit of steps, and which counts
/// meanwhile. Answers how it ended, and gives the store back.
fn replay_over<K: Keep + Limited, R: Source, W: Drain>(
    alloc: Global,
    keep: K,
    site: &Site,
    reader: &mut R,
    writer: &mut W,
) -> (Served, K)
    requires limit { K.is_limited keep }
    requires reader { HasCallsLeft (R.calls reader.old) 0 }
    requires writer { HasCallsLeft (W.calls writer.old) 0 }
    ensures was_honest { K.is_honest result.1 → K.is_honest keep }
    ensures run { ServesOver K.Keep site.now (R.left reader.old) (R.left reader.new)
        (W.written writer.old) (W.written writer.new) result.0 keep result.1 }
    ensures within { StaysWithinCalls R.Source W.Drain reader.old reader.new writer.old writer.new
        result.0 }
{
    let mut counted = Counted::over(alloc, keep);
    let served = serve_stream(alloc, &mut counted, site, reader, writer);
    (served, counted.into_keep())
}

/// Closes what a job left of a store's files.
pub fn put_away<S: Drop, D: Disk + Drop>(files: LeftFiles<S, D>) {
    if let LeftFiles::Ended(Closed::Uncopied(store)) = files {
        drop(store.close());
    }
}

/// How many steps a statement may take: a read of a hundred million rows takes fewer.
const STATEMENT_STEPS: u64 = 1_000_000_000;

/// A store that is served over.
#[derive(Drop)]
pub struct StoreFile<'a, S: Drop> {
    /// The name of its file.
    pub name: &'a str,
    /// What becomes of a name at which there is no store.
    pub absent: Absent,
    /// What stands for what its files hold.
    pub start: S,
}

impl<'a, S: Drop> StoreFile<'a, S> {
    /// The store that the command line names.
    pub fn of(named: &'a StoreName, start: S) -> StoreFile<'a, S>
        ensures name { result.name.now ≡ named.now.file }
        ensures existing { IsTrue named.now.is_existing → result.absent ≡ Absent.Refuse }
        ensures made { ¬ IsTrue named.now.is_existing → result.absent ≡ Absent.Make }
        ensures start { result.start ≡ start }
    {
        let absent = if named.is_existing {
            Absent::Refuse
        } else {
            Absent::Make
        };
        StoreFile {
            name: named.file.as_str(),
            absent,
            start,
        }
    }
}

/// Opens the store of a site, with the limit of steps for each statement. A fault comes with what is left
/// of the files.
pub fn open_limited<S: Start>(
    rt: &HostRuntime,
    alloc: Global,
    store: StoreFile<'_, S>,
    site: &SiteText,
) -> Result<SqlKeep<FileStore<FileFrom<S>>>, Refused<FileFrom<S>>>
    ensures opened { IfOk result (IsOpening site.now (image_at S.Start) store.entry.absent) }
    ensures refused { IfErr result (IsRefusal ⟦<FileFrom<S> as Disk>⟧ (image_at S.Start)
        store.entry.absent site.now store.entry.name.now) }
{
    let StoreFile {
        name,
        absent,
        start,
    } = store;
    match open_or_hand_back(rt, alloc, name, start, site, absent) {
        Ok(mut keep) => {
            keep.set_steps(STATEMENT_STEPS);
            Ok(keep)
        }
        Err(refused) => Err(refused),
    }
}

/// The failure that the fault of a store is.
pub fn store_failure(fault: OpenFault) -> Failure<'static>
    ensures { result ≡ Failure.StoreFault (open_fault_number fault) }
{
    Failure::StoreFault(fault.number())
}
