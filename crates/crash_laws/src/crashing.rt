// What a crash leaves of files, and of a store in them.
ghost use Rattle.std.specs.Prelude.{IsTrue};
ghost use Rattle.sqlite.specs.Files.{image_of, over_files};
ghost use Rattle.sqlite.specs.Recovery.{Image};
ghost use Rattle.sqlite_wal.specs.Files.{outcomes};
ghost use Rattle.sqlite_wal.specs.Reads.{AreClean};
ghost use Rattle.office_store.specs.Prelude.{is_honest_at, may_leave_at};
ghost use Rattle.crash_laws.specs.Crashing.{AreCrashed, HaveCrashed, IsCrashed, LeaveStore};

use office_store::{SqlKeep, into_store};
use sqlite::{FileStore, Files};
use sqlite_disk::Crash;

/// A file that can be made to crash, of which a clause can say that it was.
///
/// What the kit says of a crash (`IsCrashed`) is so of a file that may be used and doesn't crash, too.
/// What `crashed` is isn't known to code over any such file, so nothing but a crash makes it true there.
pub trait Crashable: Crash {
    /// A crash made the second of the first.
    ghost crashed: { Self → Self → Type 0 };

    /// Crashes.
    fn crash_file(&mut self)
        ensures crashed { crashed self.old self.new }
        ensures kit { IsCrashed Self.Disk self.old self.new };
}

// Each file that the kit lets crash is one.
impl<D: Crash> Crashable for D {
    ghost crashed = { IsCrashed D.Disk };

    fn crash_file(&mut self) {
        self.crash();
    }
}

/// Crashes under files: what their disks leave of them. It is one of the images that a crash may leave,
/// and a further crash may leave no other.
pub fn crash_files<D: Crashable>(mut files: Files<D>) -> Files<D>
    ensures log { IsTrue (D.Disk.is_usable result.log) }
    ensures db { IsTrue (D.Disk.is_usable result.db) }
    ensures crashed { AreCrashed D.Crashable.crashed files result }
    ensures image { outcomes D.Disk files.log files.db (image_of D.Disk result) }
    ensures no_more { (image : Image) → outcomes D.Disk result.log result.db image
        → outcomes D.Disk files.log files.db image }
    ensures was_honest { AreClean D.Disk result.log result.db
        → AreClean D.Disk files.log files.db }
{
    files.log.crash_file();
    files.db.crash_file();
    files
}

/// Ends a keeper and crashes under its files: what their disks leave of them. Whatever could be left of
/// them, and whatever a further crash leaves, holds a store of the keeper's site, and who opens it finds
/// tables that the keeper could leave.
pub fn crash<D: Crashable + Drop>(keep: SqlKeep<FileStore<D>>) -> Files<D>
    ensures log { IsTrue (D.Disk.is_usable result.log) }
    ensures db { IsTrue (D.Disk.is_usable result.db) }
    ensures was_honest { AreClean D.Disk result.log result.db → is_honest_at over_files keep.conn }
    ensures crashed { HaveCrashed D.Disk D.Crashable.crashed keep.site
        (may_leave_at over_files keep.conn) result }
    ensures leaves { AreClean D.Disk result.log result.db
        → LeaveStore D.Disk result keep.site (may_leave_at over_files keep.conn) }
{
    let stopped = into_store(keep).close();
    crash_files(stopped)
}
