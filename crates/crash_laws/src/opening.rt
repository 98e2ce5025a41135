// A keeper over files of any disk.
ghost use Rattle.std.specs.Prelude.{◌≡◌, IsTrue, IfOk};
ghost use Rattle.sqlite.specs.Files.{image_of, over_files};
ghost use Rattle.sqlite.specs.Held.{state};
ghost use Rattle.sqlite.specs.State.{HasCleanDisk};
ghost use Rattle.sqlite_wal.specs.Reads.{AreClean};
ghost use Rattle.office_tables.specs.Prelude.{Tables};
ghost use Rattle.office_store.specs.Prelude.{FilesHeld, HasTablesOf, IsOpenedFor};
ghost use Rattle.office_store.specs.declared.opening.Absent.TheVariants.{Make};
ghost use Rattle.office_store.specs.Prelude.{is_honest_at, is_open_at, may_leave_at, tables_of};

use office_store::{Handed, OpenFault, SqlKeep, adopt};
use site_core::SiteText;
use sqlite::{Alter, Connection, FileStore, Files, Options};
use sqlite_disk::Disk;
use std::alloc::Global;

/// A keeper of a connection to the store of a site. A fault comes with the store.
fn adopted<S: Alter + Drop>(
    alloc: Global,
    conn: Connection<S>,
    site: &SiteText,
) -> Result<SqlKeep<S>, (OpenFault, S)>
    requires { HasCleanDisk (state S.Store conn) → is_open_at S.Store conn }
    ensures opened { IfOk result (IsOpenedFor S.Store site.now Make
        (λ Says. Says (state S.Store conn).committed.trees)) }
    ensures was_honest { IfOk result (λ keep.
        is_honest_at S.Store keep.conn → is_honest_at S.Store conn) }
    ensures tables { IfOk result (λ keep.
        is_honest_at S.Store keep.conn → tables_of S.Store keep.conn ≡ tables_of S.Store conn) }
    ensures only_committed { IfOk result (λ keep. is_honest_at S.Store keep.conn
        → (left : Tables) → may_leave_at S.Store keep.conn left → left ≡ tables_of S.Store keep.conn) }
{
    match adopt(alloc, conn, site) {
        Ok(keep) => Ok(keep),
        Err((fault, Handed::Connection(conn))) => Err((fault, conn.into_store())),
        Err((fault, Handed::Store(store))) => Err((fault, store)),
    }
}

/// Opens the store of a site in files of any disk: a database and its log. It makes the tables of an
/// empty store, and tests those of another, as `office_store::open` does. The site must be a growth of
/// the one whose text the store holds, which then holds this text.
///
/// # Errors
///
/// `OtherSite` where the database is another site's, `OtherTables` where its tables aren't the
/// office's, and `Failed` where a file can't be read or written, and where there is no memory. The
/// files are closed then.
pub fn open_files<D: Disk + Drop>(
    alloc: Global,
    files: Files<D>,
    options: Options,
    site: &SiteText,
) -> Result<SqlKeep<FileStore<D>>, OpenFault>
    requires log { IsTrue (D.Disk.is_usable files.log) }
    requires db { IsTrue (D.Disk.is_usable files.db) }
    ensures opened { IfOk result (IsOpenedFor over_files site.now Make
        (FilesHeld (image_of D.Disk files))) }
    ensures was_honest { IfOk result (λ keep.
        is_honest_at over_files keep.conn → AreClean D.Disk files.log files.db) }
    ensures tables { IfOk result (λ keep. is_honest_at over_files keep.conn
        → HasTablesOf (image_of D.Disk files) (tables_of over_files keep.conn)) }
    ensures only_committed { IfOk result (λ keep. is_honest_at over_files keep.conn
        → (left : Tables) → may_leave_at over_files keep.conn left → left ≡ tables_of over_files keep.conn) }
{
    let conn = match Connection::open_files(alloc, files, options) {
        Ok(conn) => conn,
        Err((_, left)) => {
            drop(left.into_files());
            return Err(OpenFault::Failed);
        }
    };
    match adopted(alloc, conn, site) {
        Ok(keep) => Ok(keep),
        Err((fault, store)) => {
            drop(store.close());
            Err(fault)
        }
    }
}
