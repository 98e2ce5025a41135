// A store in files.
ghost use Rattle.std.specs.Prelude.{◌≡◌, ◌↔◌, IsTrue, IfOk, IfErr, IsErrAnd};
ghost use Rattle.sqlite.specs.Files.{file_state, over_files, HoldsDatabase};
ghost use Rattle.sqlite.specs.Recovery.{Image};
ghost use Rattle.sqlite.specs.Tree.{Trees};
ghost use Rattle.sqlite.specs.Held.{state};
ghost use Rattle.sqlite.specs.State.{HasCleanDisk, Survives};
ghost use Rattle.sqlite.specs.WalFiles.{image_at, outcomes};
ghost use Rattle.sqlite.specs.WalReads.{AreClean};
ghost use Rattle.office_store.specs.Prelude.{CanPrepareTables, FilesHeld, IsOpenedFor, IsPreparedFor, IsRefusal, IsTakenFrom, IsTurnedAway, LacksStore};
ghost use Rattle.office_store.specs.Prelude.{IsUnopened, TellsWhy};
ghost use Rattle.store_file.specs.Names.{NamesNoFile};

use crate::SqlKeep;
use crate::adopting::prepare_tables;
use crate::fault::OpenFault;
use site_core::SiteText;
use sqlite::{Alter, Connection, FileFrom, FileStore, Files};
use sqlite_disk::{Disk, Start};
use std::alloc::Global;
use std::fs;
use std::io::ErrorKind;
use store_file::{make_store_file, may_name_file};
use store_inspection::is_empty_schema;

/// What becomes of a path at which there is no store yet.
#[derive(Clone, Copy)]
pub enum Absent {
    /// One is made.
    Make,
    /// It is refused as other tables are, and nothing is made.
    Refuse,
}

/// Whether there is no file of this name, or one of no bytes.
fn is_missing(rt: &HostRuntime, path: &str) -> bool {
    match fs::metadata(rt, path) {
        Ok(file) => file.is_file() && file.len() == 0,
        Err(error) => error.kind() == ErrorKind::NotFound,
    }
}

/// What comes before a path is opened: where there is no file, or one of no bytes, that of a store is
/// made, or the path is refused where none is to be made. A path that names no file is refused.
fn prepare_file(
    rt: &HostRuntime,
    alloc: Global,
    path: &str,
    absent: Absent,
) -> Result<(), OpenFault>
    ensures refused { IfErr result (IsUnopened path.now absent) }
    ensures unnamed { NamesNoFile path.now → result ≡ Err OpenFault.Failed }
{
    if !may_name_file(path) {
        return Err(OpenFault::Failed);
    }
    match absent {
        Absent::Make => match make_store_file(rt, alloc, path) {
            Ok(()) => Ok(()),
            Err(_) => Err(OpenFault::Failed),
        },
        Absent::Refuse if is_missing(rt, path) => Err(OpenFault::OtherTables),
        Absent::Refuse => Ok(()),
    }
}

/// Whether a database has no store, where none is to be made.
fn lacks_store<S: Alter>(conn: &Connection<S>, absent: Absent) -> bool
    ensures { IsTrue result ↔ LacksStore absent (state S.Store conn.now).now }
{
    match absent {
        Absent::Make => false,
        Absent::Refuse => is_empty_schema(conn.schema()),
    }
}

/// Makes or tests the tables of a connection. Where that fails it hands the connection back.
pub(crate) fn prepare_or_hand_back<S: Alter>(
    alloc: Global,
    mut conn: Connection<S>,
    site: &SiteText,
    absent: Absent,
) -> Result<SqlKeep<S>, (OpenFault, Connection<S>)>
    requires { CanPrepareTables (state S.Store conn) }
    ensures opened { IfOk result (IsOpenedFor S.Store site.now absent
        (λ Says. Says (state S.Store conn).now.trees)) }
    ensures crash { IfOk result (λ keep. Survives (state S.Store conn) (state S.Store keep.conn)
        (IsPreparedFor site.now (state S.Store conn))) }
    ensures turned_away { IfErr result (λ e. IsTurnedAway S.Store absent site.now conn e.1 e.0) }
{
    if lacks_store(&conn, absent) {
        return Err((OpenFault::OtherTables, conn));
    }
    match prepare_tables(alloc, &mut conn, site) {
        Ok(()) => Ok(SqlKeep::over(alloc, conn, site.digest())),
        Err(fault) => Err((fault, conn)),
    }
}

/// What comes back where a store isn't opened.
#[derive(Drop)]
pub struct Refused<D: Disk> {
    /// Why.
    pub fault: OpenFault,
    /// The files, which are closed, where they were opened.
    pub files: Option<Files<D>>,
}

/// Closes a connection, and hands back its files. What isn't committed is lost.
fn close<D: Disk + Drop>(conn: Connection<FileStore<D>>) -> Files<D>
    ensures was_clean { AreClean D.Disk result.log result.db → HasCleanDisk (file_state conn) }
    ensures left { AreClean D.Disk result.log result.db → (left : Image)
        → outcomes D.Disk result.log result.db left
        → ∥ ((db : Trees) × (file_state conn).may_leave db × HoldsDatabase left db) ∥₁ }
{
    conn.into_store().close()
}

/// Opens the store of a site in the file at this path, for which what comes before was done.
fn open_file<S: Start>(
    rt: &HostRuntime,
    alloc: Global,
    path: &str,
    start: S,
    site: &SiteText,
    absent: Absent,
) -> Result<SqlKeep<FileStore<FileFrom<S>>>, Refused<FileFrom<S>>>
    ensures opened { IfOk result (IsOpenedFor over_files site.now absent
        (FilesHeld (image_at S.Start))) }
    ensures taken { IfOk result (IsTakenFrom (image_at S.Start) site.now) }
    ensures refused { IfErr result (IsRefusal ⟦<FileFrom<S> as Disk>⟧ (image_at S.Start) absent
        site.now path.now) }
{
    match Connection::open_from(rt, path, false, start) {
        Ok(conn) => match prepare_or_hand_back(alloc, conn, site, absent) {
            Ok(keep) => Ok(keep),
            Err((fault, conn)) => Err(Refused {
                fault,
                files: Some(close(conn)),
            }),
        },
        Err((_, Some(left))) => Err(Refused {
            fault: OpenFault::Failed,
            files: Some(left.into_files()),
        }),
        Err((_, None)) => Err(Refused {
            fault: OpenFault::Failed,
            files: None,
        }),
    }
}

/// Opens the store of a site: the database in the file at this path, with the log beside it in
/// `<path>-wal`. Where there is no such file, or one of no bytes, `absent` says whether one is made
/// (`make_store_file`), before it is opened. An empty database gets the tables of the office and the
/// site's text. One of an earlier version must be of this text, and gets what it lacks. One of this
/// version holds the text of a site of which this one must be a growth, and then holds this text.
///
/// `start` stands for what the files held as they were opened, of which the clauses speak. It also says how a
/// crash is read. A program passes `Unknown`, which supposes that a torn write leaves each byte old
/// or new, or `Wary`, which supposes less.
///
/// # Errors
///
/// - `OtherSite` where the database is another site's.
/// - `OtherTables` where its tables aren't the office's, or where there is no store and none is to
///   be made.
/// - `Failed` where a file can't be made, opened, read or written, where the path is empty, is
///   `:memory:` or begins with `file:`, and where there is no memory.
///
/// The files come back closed, where they were opened, and hold each row that was committed.
pub fn open_or_hand_back<S: Start>(
    rt: &HostRuntime,
    alloc: Global,
    path: &str,
    start: S,
    site: &SiteText,
    absent: Absent,
) -> Result<SqlKeep<FileStore<FileFrom<S>>>, Refused<FileFrom<S>>>
    ensures opened { IfOk result (IsOpenedFor over_files site.now absent
        (FilesHeld (image_at S.Start))) }
    ensures taken { IfOk result (IsTakenFrom (image_at S.Start) site.now) }
    ensures refused { IfErr result (IsRefusal ⟦<FileFrom<S> as Disk>⟧ (image_at S.Start) absent
        site.now path.now) }
    ensures unnamed { NamesNoFile path.now
        → IsErrAnd result (λ e. e.fault ≡ OpenFault.Failed) }
{
    match prepare_file(rt, alloc, path, absent) {
        Ok(()) => open_file(rt, alloc, path, start, site, absent),
        Err(fault) => Err(Refused { fault, files: None }),
    }
}

/// Opens the store of a site as `open_or_hand_back` does, and drops what is handed back.
///
/// # Errors
///
/// The faults of `open_or_hand_back`. The files are closed then, and no row that was committed is
/// changed.
pub fn open<S: Start>(
    rt: &HostRuntime,
    alloc: Global,
    path: &str,
    start: S,
    site: &SiteText,
    absent: Absent,
) -> Result<SqlKeep<FileStore<FileFrom<S>>>, OpenFault>
    ensures opened { IfOk result (IsOpenedFor over_files site.now absent
        (FilesHeld (image_at S.Start))) }
    ensures taken { IfOk result (IsTakenFrom (image_at S.Start) site.now) }
    ensures refused { TellsWhy (image_at S.Start) path.now absent site.now result }
    ensures unnamed { NamesNoFile path.now → result ≡ Err OpenFault.Failed }
{
    match open_or_hand_back(rt, alloc, path, start, site, absent) {
        Ok(keep) => Ok(keep),
        Err(refused) => Err(refused.fault),
    }
}
