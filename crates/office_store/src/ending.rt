// The end of a keeper over files.
ghost use Rattle.std.specs.Prelude.{ℕ, List};
ghost use Rattle.sqlite.specs.Files.{over_files, HoldsDatabase};
ghost use Rattle.sqlite.specs.Recovery.{Image};
ghost use Rattle.sqlite.specs.Tree.{Trees};
ghost use Rattle.sqlite.specs.View.{IsClean};
ghost use Rattle.sqlite_store.specs.FileStore as files;
ghost use Rattle.office_tables.specs.Prelude.{Tables};
ghost use Rattle.office_store.specs.Prelude.{HasTablesOf};
ghost use Rattle.office_store.specs.Prelude.{is_honest_at, may_leave_at, tells_text_at};
ghost use Rattle.store_inspection.specs.Prelude.{HoldsSite, IsOfSite};

use crate::SqlKeep;
use sqlite::FileStore;
use sqlite_disk::Disk;

/// Ends a keeper over files, and hands back its store. Whatever a crash leaves in the files then holds
/// a store of the keeper's site, and whoever opens it finds tables that the keeper could leave. It tells
/// of the text of the site that the keeper told of.
pub fn into_store<D: Disk + Drop>(keep: SqlKeep<FileStore<D>>) -> FileStore<D>
    ensures was_honest { IsClean (files.view result) → is_honest_at over_files keep.conn }
    ensures held { IsClean (files.view result) → (left : Image)
        → (files.state result).may_leave left
        → ∥ ((db : Trees) × HoldsDatabase left db × IsOfSite keep.site db) ∥₁ }
    ensures found { IsClean (files.view result) → (left : Image)
        → (files.state result).may_leave left
        → (tables : Tables) → HasTablesOf left tables → ∥ may_leave_at over_files keep.conn tables ∥₁ }
    ensures told { IsClean (files.view result) → (text : List ℕ)
        → tells_text_at over_files keep.conn text → (left : Image)
        → (files.state result).may_leave left
        → ∥ ((db : Trees) × HoldsDatabase left db × HoldsSite text db) ∥₁ }
{
    let conn = keep.into_connection();
    conn.into_store()
}
