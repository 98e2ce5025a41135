//! Does the jobs of the command line.
ghost use Rattle.std.specs.Prelude.{◌≡◌, ◌≢◌, ◌≤◌, ◌⊎◌, ◌++◌, ◌∷◌, [], ℕ, List, Option, IfOk, IfErr, IsErrAnd, MatchResult, OnOk};
ghost use Rattle.std.specs.Io.KnownBytes.{Appends, Keeps};
ghost use Rattle.http_frames.specs.Prelude.{HasCallsLeft, StaysWithinCalls};
ghost use Rattle.office_tables.specs.Prelude.{no_rows};
ghost use Rattle.station_cli.specs.Prelude.{ComesTo, EndsAs, IsAnswered, IsBeforeStream, IsCheck};
ghost use Rattle.station_cli.specs.Prelude.{IsOfCheck, IsTold, IsToldFault, IsToldOf, IsUnread};
ghost use Rattle.station_cli.specs.Prelude.{map_line, map_of_file, Replays, result_of_ending, site_in, site_line, status_of};
ghost use Rattle.station_cli.specs.declared.job.Job.TheVariants.{CheckSite};
ghost use Rattle.text_core.specs.Prelude.{result_and_then};

use crate::failure::Failure;
use crate::job::{Job, StoreName};
use crate::map_file::{map_of_file, read_map_file, write_map_line};
use crate::serving::{Door, serve_site};
use crate::site_check::{check_file, check_files, write_site_line};
use crate::site_file::{read_site_file, site_of_file};
use crate::stored::{Done, StoreFile, put_away, replay_stored};
use crate::telling::{tell, tell_fault};
use office_core::MemKeep;
use site_core::Site;
use site_faults::ToldFault;
use sqlite_disk::{Disk, Start};
use station_api::{Counted, Drain, Served, Source, serve_stream};
use std::alloc::Global;
use std::io;
use std::io::{Read, Write};
use text_core::Text;

/// What a job came to: the status that the program ends with, and the job's input and output behind it.
#[derive(Drop)]
pub struct Finished<R: Drop, W: Drop> {
    /// 0, or 1 where the job failed.
    pub status: u8,
    /// The input, behind what was read of it.
    pub input: R,
    /// The output, with what was written to it.
    pub output: W,
}

/// Does a job: reads the file that it names, then its input, writes its output, and writes one line
/// on `err` where it fails. Answers the status that the program ends with: 0, or 1 where it failed.
///
/// `start` stands for what a store's files hold, of which the clauses of its opening speak, and says
/// how a crash is read. The program passes `Unknown`, and a theorem over the program is of any.
pub fn run<R: Read + Drop, W: Write + Drop, E: Write, S: Start>(
    rt: &HostRuntime,
    alloc: Global,
    job: &Job,
    input: R,
    output: W,
    err: &mut E,
    start: S,
) -> Finished<R, W>
    ensures status { result.status ≤ 1 }
    ensures prints_nothing { result.status ≡ 0 → Keeps (E.contents err.old) (E.contents err.new) }

    // The status and what is told are those of one outcome: the job was done, and its output says so,
    // or it failed by a failure that it may have.
    ensures ends { EndsAs job.now (record {
      input_old = R.remaining input;
      input_new = R.remaining result.input;
      output_old = W.contents output;
      output_new = W.contents result.output;
    }) result.status (E.contents err.old) (E.contents err.new) }
{
    match job {
        Job::CheckSite { site, old } => {
            let mut output = output;
            let status = check_site(rt, alloc, site, old, &mut output, err);
            Finished {
                status,
                input,
                output,
            }
        }
        _ => {
            let done = outcome(rt, alloc, job, input, output, start);
            Finished {
                status: finish(alloc, done.result, err),
                input: done.input,
                output: done.output,
            }
        }
    }
}

/// How a job ended, and its input and output as they were then.
#[derive(Drop)]
struct JobResult<'a, R: Drop, W: Drop> {
    result: Result<(), Failure<'a>>,
    input: R,
    output: W,
}

/// Does a job other than the check of a site.
fn outcome<'a, R: Read + Drop, W: Write + Drop, S: Start>(
    rt: &HostRuntime,
    alloc: Global,
    job: &'a Job,
    input: R,
    mut output: W,
    start: S,
) -> JobResult<'a, R, W>
    requires { ¬ IsCheck job.now }
    ensures { ComesTo job.now (record {
      input_old = R.remaining input;
      input_new = R.remaining result.input;
      output_old = W.contents output;
      output_new = W.contents result.output;
    }) result.result }
{
    match job {
        Job::Serve {
            site,
            store,
            port,
            connections,
        } => {
            let name = site.as_str();
            let file = read_site_file(rt, alloc, name);
            let store = StoreFile::of(store, start);
            let door = Door {
                port: *port,
                connections: *connections,
            };
            let done = serve_site(rt, alloc, name, file, store, door, &mut output);
            JobResult {
                result: result_of(done),
                input,
                output,
            }
        }
        Job::Replay { site, store } => {
            let mut reader = Counted::new(input);
            let mut writer = Counted::new(output);
            let served = served_by(rt, alloc, site, store, start, &mut reader, &mut writer);
            JobResult {
                result: result_of_stream(served),
                input: reader.into_inner(),
                output: writer.into_inner(),
            }
        }
        Job::CheckMap { map } => {
            let name = map.as_str();
            let file = read_map_file(rt, alloc, name);
            JobResult {
                result: check_map(alloc, name, file, &mut output),
                input,
                output,
            }
        }
        Job::CheckSite { .. } => unreachable!(),
    }
}

/// Serves one stream for the site in a file, over the store that is named, or over a keeper in memory.
/// What is left of the store's files is closed. Answers how the stream ended.
fn served_by<'a, R: Source, W: Drain, S: Start>(
    rt: &HostRuntime,
    alloc: Global,
    site: &'a Text,
    store: &'a Option<StoreName>,
    start: S,
    reader: &mut R,
    writer: &mut W,
) -> Result<Served, Failure<'a>>
    requires reader { HasCallsLeft (R.calls reader.old) 0 }
    requires writer { HasCallsLeft (W.calls writer.old) 0 }
    ensures failed { IfErr result (IsBeforeStream site.now store.now) }

    // How the stream ended is what its bytes tell.
    ensures ended { IfOk result (IsAnswered (record {
      input_old = R.left reader.old;
      input_new = R.left reader.new;
      output_old = W.written writer.old;
      output_new = W.written writer.new;
    })) }
{
    let name = site.as_str();
    let file = read_site_file(rt, alloc, name);
    match store {
        Some(store) => {
            let store = StoreFile::of(store, start);
            let done = replay_stored(rt, alloc, name, file, store, reader, writer);
            put_away(done.files);
            done.result
        }
        None => replay(alloc, name, file, reader, writer),
    }
}

/// What a job over a store says of a failure. What is left of the store's files is closed.
fn result_of<T: Drop, S: Drop, D: Disk + Drop>(done: Done<'_, T, S, D>) -> Result<(), Failure<'_>>
    ensures { MatchResult done.entry.result (λ _. result ≡ Ok tt)
        (λ failure. result ≡ Err failure) }
{
    put_away(done.files);
    match done.result {
        Ok(_) => Ok(()),
        Err(failure) => Err(failure),
    }
}

/// Serves one stream over a keeper in memory that has no rows, for the site that a file describes,
/// by what reading the file with this name gave. Answers how the stream ended.
///
/// # Errors
///
/// The site's file wasn't read or describes no site, or memory ran out.
fn replay<'a, R: Source, W: Drain>(
    alloc: Global,
    name: &'a str,
    file: io::Result<Vec<u8>>,
    reader: &mut R,
    writer: &mut W,
) -> Result<Served, Failure<'a>>
    requires reader { HasCallsLeft (R.calls reader.old) 0 }
    requires writer { HasCallsLeft (W.calls writer.old) 0 }
    ensures unread { IfErr file (λ error. IsErrAnd result (IsUnread name.entry error)) }

    // A file that describes no site is the failure, whatever the stream.
    ensures no_site { IfOk file (λ bytes. IfErr (site_in name.entry bytes.items) (λ failure.
        (result ≡ Err failure) ⊎ (result ≡ Err Failure.NoMemory))) }

    // What fails where there is a site is memory.
    ensures failed { IfOk file (λ bytes. IfOk (site_in name.entry bytes.items) (λ _.
        IfErr result (λ failure. failure ≡ Failure.NoMemory))) }

    // The stream is served from no rows on, where the reader and the writer tell their bytes.
    ensures served { IfOk file (λ bytes. IfOk (site_in name.entry bytes.items) (λ site.
        IfOk result (Replays site no_rows (R.left reader.old) (R.left reader.new)
        (W.written writer.old) (W.written writer.new)))) }

    // How it ended is what its bytes tell.
    ensures ended { IfOk result (IsAnswered (record {
      input_old = R.left reader.old;
      input_new = R.left reader.new;
      output_old = W.written writer.old;
      output_new = W.written writer.new;
    })) }

    // Nothing is read or written before the site is known.
    ensures within { MatchResult result
        (StaysWithinCalls R.Source W.Drain reader.old reader.new writer.old writer.new)
        (λ _. (reader.new ≡ reader.old) × (writer.new ≡ writer.old)) }
{
    let site = site_of_file(alloc, name, file)?;
    let mut keep = yield_counts::Counted::over(alloc, MemKeep::new(alloc));
    Ok(serve_stream(alloc, &mut keep, site.site(), reader, writer))
}

/// Writes the line of the fuse map that a file describes, by what reading the file with this name
/// gave.
fn check_map<'a, W: Write>(
    alloc: Global,
    name: &'a str,
    file: io::Result<Vec<u8>>,
    output: &mut W,
) -> Result<(), Failure<'a>>
    ensures unread { IfErr file (λ error. IsErrAnd result (IsUnread name.entry error)) }
    ensures no_map { IfOk file (λ bytes. IfErr (map_of_file name.entry bytes.items) (λ failure.
        (result ≡ Err failure) ⊎ (result ≡ Err Failure.NoMemory))) }

    // The line of a map is written, unless that fails or memory runs out.
    ensures map { IfOk file (λ bytes.
        IfOk (map_of_file name.entry bytes.items) (λ map. MatchResult result
        (λ _. Appends (W.contents output.old) (W.contents output.new) (map_line map ++ 10 ∷ []))
        (λ failure. (failure ≡ Failure.WriteFailed) ⊎ (failure ≡ Failure.NoMemory)))) }

    // Nothing is written before the map is known.
    ensures prints_nothing { IfErr result (λ failure. failure ≢ Failure.WriteFailed
        → Keeps (W.contents output.old) (W.contents output.new)) }
{
    let map = map_of_file(alloc, name, file)?;
    match write_map_line(&map, output) {
        Ok(()) => Ok(()),
        Err(_) => Err(Failure::WriteFailed),
    }
}

/// Checks the site in a file, from the one in an old file where one is named, and writes its line, or
/// why it isn't accepted. Answers the status of the job.
fn check_site<W: Write, E: Write>(
    rt: &HostRuntime,
    alloc: Global,
    site: &Text,
    old: &Option<Text>,
    output: &mut W,
    err: &mut E,
) -> u8
    ensures { (bytes : Option (List ℕ)) → EndsAs (CheckSite site.now old.now) (record {
      input_old = bytes;
      input_new = bytes;
      output_old = W.contents output.old;
      output_new = W.contents output.new;
    }) result (E.contents err.old) (E.contents err.new) }
{
    match checked_site(rt, alloc, site, old) {
        Ok(checked) => tell_checked(alloc, checked, output, err),
        Err(failure) => finish(alloc, Err(failure), err),
    }
}

/// What the site in a file comes to, from the one in an old file where one is named.
fn checked_site<'a>(
    rt: &HostRuntime,
    alloc: Global,
    site: &'a Text,
    old: &'a Option<Text>,
) -> Result<Result<Site, ToldFault>, Failure<'a>>
    ensures told { IfOk result (IsToldOf site.now old.now) }
    ensures failed { IfErr result (IsOfCheck site.now old.now) }
{
    let name = site.as_str();
    let file = read_site_file(rt, alloc, name);
    match old {
        Some(old) => {
            let old_name = old.as_str();
            let old_file = read_site_file(rt, alloc, old_name);
            check_files(alloc, name, file, old_name, old_file)
        }
        None => check_file(alloc, name, file),
    }
}

/// Writes the line of a site, or why it isn't accepted. Answers the status of the job.
fn tell_checked<W: Write, E: Write>(
    alloc: Global,
    checked: Result<Site, ToldFault>,
    output: &mut W,
    err: &mut E,
) -> u8
    // The line of a site is written, unless that fails.
    ensures site { IfOk checked (λ site. ((result ≡ 0)
        × Appends (W.contents output.old) (W.contents output.new) (site_line site ++ 10 ∷ [])
        × Keeps (E.contents err.old) (E.contents err.new))
        ⊎ ((result ≡ 1) × (IsTold Failure.WriteFailed (E.contents err.old) (E.contents err.new)
        ⊎ IsTold Failure.NoMemory (E.contents err.old) (E.contents err.new)))) }

    // A fault is told, and nothing is written then.
    ensures fault { IfErr checked (λ fault. (result ≡ 1)
        × (IsToldFault fault (E.contents err.old) (E.contents err.new)
        ⊎ IsTold Failure.NoMemory (E.contents err.old) (E.contents err.new))) }
    ensures prints_nothing { IfErr checked (λ _.
        Keeps (W.contents output.old) (W.contents output.new)) }
{
    match checked {
        Ok(site) => finish(alloc, line_written(&site, output), err),
        Err(fault) => tell_fault(alloc, &fault, err),
    }
}

/// Writes the line of a site.
fn line_written<W: Write>(site: &Site, output: &mut W) -> Result<(), Failure<'static>>
    ensures { MatchResult result
        (λ _. Appends (W.contents output.old) (W.contents output.new)
        (site_line site.now ++ 10 ∷ []))
        (λ failure. failure ≡ Failure.WriteFailed) }
{
    match write_site_line(site, output) {
        Ok(()) => Ok(()),
        Err(_error) => Err(Failure::WriteFailed),
    }
}

/// What the end of a stream says of a failure, or why none was served. That a stream ends inside a
/// request is no failure, nor that its last reply ends it.
fn result_of_stream(served: Result<Served, Failure<'_>>) -> Result<(), Failure<'_>>
    ensures { result ≡ result_and_then result_of_ending served.entry }
{
    match served? {
        Served::Ended | Served::Closed | Served::Cut => Ok(()),
        Served::ReadFault => Err(Failure::ReadFailed),
        Served::WriteFault => Err(Failure::WriteFailed),
        Served::TurnLimit => Err(Failure::TurnLimit),
        Served::NoMemory => Err(Failure::NoMemory),
    }
}

/// Writes the line of a failure, and answers the status of a job that ended so. What can't be written
/// is passed over.
fn finish<W: Write>(alloc: Global, done: Result<(), Failure<'_>>, err: &mut W) -> u8
    ensures status { result ≡ status_of done.entry }
    ensures prints_nothing { OnOk done.entry (Keeps (W.contents err.old) (W.contents err.new)) }
    ensures told { IfErr done.entry (λ failure.
        IsTold failure (W.contents err.old) (W.contents err.new)
        ⊎ IsTold Failure.NoMemory (W.contents err.old) (W.contents err.new)) }
{
    match done {
        Ok(()) => 0,
        Err(failure) => {
            tell(alloc, failure, err);
            1
        }
    }
}
