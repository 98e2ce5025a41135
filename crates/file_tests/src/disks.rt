//! Stores in files that are in memory, and what a stop leaves of them.
ghost use Rattle.std.specs.Prelude.{IsTrue, IfOk};

use office_store::{Handed, OpenFault, SqlKeep, adopt};
use site_core::read_site_text;
use sqlite::{Alter, Connection, FileStore, Files, Options};
use sqlite_disk::{Crash, Disk, Fuse, Memory};
use std::alloc::Global;
use std::test::Fail;
use test_fixtures::conversations::plans::PLANS;
use test_fixtures::conversations::{Exchange, exchanges};
use test_fixtures::samples::SITE;
use test_support::conversation::first_difference_for;
use test_support::stores::{rows_of, tell_of};
use yield_counts::{Count, Counted};

/// The keeper over a database in files in memory. [`over_files`] alone names it beside the methods that
/// have one: each call that names it costs the prover half a minute.
pub type SqlFiles = SqlKeep<FileStore<Fuse<Memory>>>;

/// When a store is stopped: how many calls its file and its log answer before they fail each further
/// one, and whether what wasn't synced is lost then, as where the power fails.
#[derive(Clone, Copy)]
pub struct Stop {
    pub file_calls: u64,
    pub log_calls: u64,
    pub loses_unsynced: bool,
}

impl Stop {
    /// How a keeper ends that is stopped so.
    pub fn ending(self) -> Ending {
        Ending::Stopped {
            loses_unsynced: self.loses_unsynced,
        }
    }
}

/// No stop.
pub const NO_STOP: Stop = Stop {
    file_calls: u64::MAX,
    log_calls: u64::MAX,
    loses_unsynced: false,
};

/// The bytes of a store: those of its file and those of its log.
#[derive(Drop)]
pub struct Store {
    pub file: Vec<u8>,
    pub log: Vec<u8>,
}

impl Store {
    /// The bytes of a store that isn't made yet.
    pub fn new(alloc: Global) -> Store {
        Store {
            file: Vec::new(alloc),
            log: Vec::new(alloc),
        }
    }

    /// Whether another store has the same bytes.
    pub fn is_same(&self, other: &Store) -> bool {
        self.file.as_slice() == other.file.as_slice() && self.log.as_slice() == other.log.as_slice()
    }

    /// The bytes of files, or none where there is no memory.
    pub fn of(alloc: Global, files: &Files<Fuse<Memory>>) -> Option<Store> {
        Some(Store {
            file: files.db.inner().bytes().to_vec(alloc).ok()?,
            log: files.log.inner().bytes().to_vec(alloc).ok()?,
        })
    }

    /// The bytes that a stop leaves of files, or none where there is no memory.
    fn left_of(
        alloc: Global,
        mut files: Files<Fuse<Memory>>,
        loses_unsynced: bool,
    ) -> Option<Store> {
        if loses_unsynced {
            files.db.crash();
            files.log.crash();
        }
        Store::of(alloc, &files)
    }
}

/// A file in memory that has these bytes, and answers so many calls. All tests take files of this one
/// type, since for each type the whole of the database is compiled once more.
pub fn file_of(alloc: Global, bytes: &[u8], calls: u64) -> Result<Fuse<Memory>, Fail>
    ensures { IfOk result (λ file. IsTrue (⟦<Fuse<Memory> as Disk>⟧.is_usable file)) }
{
    let mut memory = Memory::new(alloc);
    memory.write_at(0, bytes)?;
    memory.sync()?;
    let file = Fuse::new(memory, calls);
    if !file.may_be_used() {
        return Err(Fail::from("a file that can't be used"));
    }
    Ok(file)
}

/// A store that isn't opened: the number of the fault, and what is left.
#[derive(Drop)]
pub struct Unopened {
    pub fault: u8,
    pub left: Store,
}

/// How a keeper over files ends.
#[derive(Clone, Copy)]
pub enum Ending {
    /// It is closed.
    Closed,
    /// It is stopped: all that was written is left, or what was synced alone.
    Stopped { loses_unsynced: bool },
}

impl Ending {
    /// Whether it is closed.
    fn is_closed(self) -> bool {
        matches!(self, Ending::Closed)
    }

    /// Whether what wasn't synced is lost.
    fn loses_unsynced(self) -> bool {
        match self {
            Ending::Closed => false,
            Ending::Stopped { loses_unsynced } => loses_unsynced,
        }
    }
}

/// A keeper over the files of a store. It has no drop, so that nothing proves again how each part of a
/// database in files is dropped.
pub trait InFiles: Count {
    /// The keeper over files of these bytes for the site of a text, with a stop to come, or the fault
    /// and what the opening left.
    fn opened(
        alloc: Global,
        store: &Store,
        site: &str,
        stop: Stop,
    ) -> Result<Result<Self, Unopened>, Fail>;

    /// All that stands in files of these bytes once they are changed by SQL, as a text, and the bytes that
    /// they leave where they are closed. Nothing else opens them.
    fn changed(alloc: Global, store: &Store, change: &str) -> Result<(String, Store), Fail>;

    /// The bytes that it leaves where it ends, or none where it can't be closed.
    fn ended(self, alloc: Global, ending: Ending) -> Option<Store>;
}

/// A case of stores in files.
pub trait FilesCase {
    /// What differs first, as a text that is empty where nothing does.
    fn first_difference<K: InFiles>(alloc: Global) -> Result<String, Fail>;
}

/// What differs first in a case, over files in memory.
pub fn over_files<C: FilesCase>(alloc: Global) -> Result<String, Fail> {
    C::first_difference::<Counted<SqlFiles>>(alloc)
}

/// All that stands in a database once it is changed by SQL.
fn rows_after<S: Alter>(
    alloc: Global,
    conn: &mut Connection<S>,
    change: &str,
) -> Result<String, Fail> {
    conn.execute_batch(change)?;
    rows_of(alloc, conn)
}

/// A database in files in memory.
type InMemory = Connection<FileStore<Fuse<Memory>>>;

/// The database in files of these bytes, with a stop to come, or what the opening left.
fn connected(
    alloc: Global,
    store: &Store,
    stop: Stop,
) -> Result<Result<InMemory, Option<Store>>, Fail> {
    let files = Files {
        log: file_of(alloc, store.log.as_slice(), stop.log_calls)?,
        db: file_of(alloc, store.file.as_slice(), stop.file_calls)?,
    };
    match Connection::open_files(alloc, files, Options::new(7)) {
        Ok(conn) => Ok(Ok(conn)),
        Err((_, left)) => Ok(Err(Store::left_of(alloc, left.into_files(), stop.loses_unsynced))),
    }
}

/// The files of a database that is closed, or is left as it stands, and whether that went well.
fn files_of(conn: InMemory, is_closed: bool) -> (Files<Fuse<Memory>>, bool) {
    if !is_closed {
        return (conn.into_store().close(), true);
    }
    match conn.close_files() {
        Ok(files) => (files, true),
        Err((_, store)) => (store.close(), false),
    }
}

/// The store of what is handed back where no keeper is had.
fn store_of(handed: Handed<FileStore<Fuse<Memory>>>) -> FileStore<Fuse<Memory>> {
    match handed {
        Handed::Connection(conn) => conn.into_store(),
        Handed::Store(store) => store,
    }
}

/// A store that isn't opened, by its fault and what is left of it.
fn not_opened(fault: OpenFault, left: Option<Store>) -> Result<Unopened, Fail> {
    Ok(Unopened {
        fault: fault.number(),
        left: left.ok_or("no memory for what is left")?,
    })
}

impl InFiles for Counted<SqlFiles> {
    fn opened(
        alloc: Global,
        store: &Store,
        site: &str,
        stop: Stop,
    ) -> Result<Result<Counted<SqlFiles>, Unopened>, Fail> {
        let site = read_site_text(alloc, site)?;
        let conn = match connected(alloc, store, stop)? {
            Ok(conn) => conn,
            Err(left) => return Ok(Err(not_opened(OpenFault::Failed, left)?)),
        };
        match adopt(alloc, conn, &site) {
            Ok(keep) => Ok(Ok(Counted::over(alloc, keep))),
            Err((fault, handed)) => {
                let files = store_of(handed).close();
                let left = Store::left_of(alloc, files, stop.loses_unsynced);
                Ok(Err(not_opened(fault, left)?))
            }
        }
    }

    fn changed(alloc: Global, store: &Store, change: &str) -> Result<(String, Store), Fail> {
        let Ok(mut conn) = connected(alloc, store, NO_STOP)? else {
            return Err(Fail::from("the files aren't opened"));
        };
        let rows = rows_after(alloc, &mut conn, change);
        let (files, _) = files_of(conn, true);
        let left = Store::left_of(alloc, files, false);
        Ok((rows?, left.ok_or("no memory for what is left")?))
    }

    fn ended(self, alloc: Global, ending: Ending) -> Option<Store> {
        let (files, is_well) = files_of(self.into_keep().into_connection(), ending.is_closed());
        if !is_well {
            return None;
        }
        Store::left_of(alloc, files, ending.loses_unsynced())
    }
}

/// All that stands in a store in files, as a text.
pub fn rows_in<K: InFiles>(alloc: Global, store: &Store) -> Result<String, Fail> {
    let (rows, _) = K::changed(alloc, store, "")?;
    Ok(rows)
}

/// Whether a store in files tells of a text.
pub fn is_told<K: InFiles>(alloc: Global, store: &Store, text: &str) -> Result<bool, Fail> {
    let rows = rows_in::<K>(alloc, store)?;
    tell_of(alloc, rows.as_str(), text)
}

/// Opens a store for the site of a text and closes it: the number of the fault, or 0, and what is left.
pub fn opened_and_closed<K: InFiles>(
    alloc: Global,
    store: &Store,
    site: &str,
) -> Result<(u8, Store), Fail> {
    match K::opened(alloc, store, site, NO_STOP)? {
        Ok(keep) => Ok((
            0,
            keep.ended(alloc, Ending::Closed)
                .ok_or("the store isn't closed")?,
        )),
        Err(unopened) => Ok((unopened.fault, unopened.left)),
    }
}

/// Opens a store for the site of a text without a stop, makes exchanges and closes it: what differs first, and
/// what is left.
pub fn held_over<K: InFiles>(
    alloc: Global,
    store: &Store,
    site: &str,
    exchanges: &[Exchange<'_>],
) -> Result<(String, Store), Fail> {
    let Ok(mut keep) = K::opened(alloc, store, site, NO_STOP)? else {
        return Err(Fail::from("the store isn't opened"));
    };
    let found = first_difference_for(alloc, &mut keep, site, exchanges);
    let closed = keep.ended(alloc, Ending::Closed);
    Ok((found?, closed.ok_or("the store isn't closed")?))
}

/// All that stands in a store in files behind exchanges that each get their reply, where nothing stops them.
pub fn undisturbed<K: InFiles>(
    alloc: Global,
    store: &Store,
    site: &str,
    exchanges: &[Exchange<'_>],
) -> Result<String, Fail> {
    let (found, left) = held_over::<K>(alloc, store, site, exchanges)?;
    if !found.is_empty() {
        return Err(Fail::from(found));
    }
    rows_in::<K>(alloc, &left)
}

/// Holds a conversation over a store that is closed after each request and opened for the next one:
/// the first request that doesn't get its reply, and what it got.
fn first_difference_opened_anew<K: InFiles>(
    alloc: Global,
    conversation: &str,
) -> Result<String, Fail> {
    let mut store = Store::new(alloc);
    for exchange in exchanges(alloc, conversation)? {
        let (found, left) = held_over::<K>(alloc, &store, SITE, &[exchange])?;
        if !found.is_empty() {
            return Ok(found);
        }
        store = left;
    }
    Ok(String::new(alloc))
}

/// The conversations about plans, over a store that is opened anew for each request.
struct PlansOpenedAnew;

impl FilesCase for PlansOpenedAnew {
    fn first_difference<K: InFiles>(alloc: Global) -> Result<String, Fail> {
        for row in PLANS {
            let found = first_difference_opened_anew::<K>(alloc, row.1)?;
            if !found.is_empty() {
                return Ok(format!(in alloc; "{}: {found}", row.0)?);
            }
        }
        Ok(String::new(alloc))
    }
}

/// The conversations about plans, over a store whose files are closed after each request and opened
/// again.
#[test]
fn stores_are_opened_anew_between_requests(rt: HostRuntime) -> Result<(), Fail> {
    assert_eq!(rt; over_files::<PlansOpenedAnew>(rt.alloc())?.as_str(), "");
    Ok(())
}
