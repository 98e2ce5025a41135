// The end of a keeper over files, whose log is copied into the database file.
ghost use Rattle.std.specs.Prelude.{◌≡◌};
ghost use Rattle.sqlite.specs.Held.{state};
ghost use Rattle.sqlite.specs.Tree.{Trees};
ghost use Rattle.store_inspection.specs.Prelude.{IsOfSite};
ghost use Rattle.office_store.specs.Prelude.{is_honest_at, is_open_at};
ghost use Rattle.office_store.specs.Prelude.{IsLeftOf};

use crate::SqlKeep;
use sqlite::{Alter, Connection, FileStore, Files};
use sqlite_disk::Disk;

/// What a keeper over files leaves of them.
#[derive(Drop)]
pub enum Closed<D: Disk + Drop> {
    /// The files, both closed. The log was copied into the database file.
    Copied(Files<D>),
    /// The store, whose log couldn't be copied: the next opening finds in the log what the database
    /// file lacks.
    Uncopied(FileStore<D>),
}

/// The connection with which a keeper ends.
fn connection_of<S: Alter>(keep: SqlKeep<S>) -> Connection<S>
    ensures same { result ≡ keep.conn }
    ensures left { is_honest_at S.Store keep.conn → (db : Trees)
        → (state S.Store keep.conn).may_leave db → IsOfSite keep.site db }
    ensures may { is_open_at S.Store keep.conn
        → (state S.Store keep.conn).may_leave (state S.Store keep.conn).committed.trees }
{
    keep.into_connection()
}

/// Ends a keeper over files: copies its log into the database file, and closes both. Where that fails
/// nothing is lost, and the store comes back. What is handed back holds the database that the keeper
/// last committed or, of a store that isn't copied, one that a crash may leave; and that is a store of
/// the keeper's site.
pub fn close<D: Disk + Drop>(keep: SqlKeep<FileStore<D>>) -> Closed<D>
    ensures { IsLeftOf keep result }
{
    let conn = connection_of(keep);
    match conn.close_files() {
        Ok(files) => Closed::Copied(files),
        Err((_, store)) => Closed::Uncopied(store),
    }
}
