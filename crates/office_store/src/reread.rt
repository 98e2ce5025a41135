// A store that is read anew, before it is asked whether it can be the office's.
ghost use Rattle.std.specs.Prelude.{◌≡◌, false, IsTrue, IfOk, IfErr};
ghost use Rattle.sqlite.specs.State.{HasCleanDisk};
ghost use Rattle.sqlite.specs.Tree.{Trees};
ghost use Rattle.sqlite.specs.Held.{state};
ghost use Rattle.office_sql.specs.Prelude.{no_schema};
ghost use Rattle.office_store.specs.Prelude.{FindsVersion, IsNoStore};

use sqlite::{Alter, Connection, Error, ErrorCode};
use std::alloc::Global;

/// Reads the store anew. What isn't committed is lost. Where that fails it hands the store back.
pub fn reread<S: Alter + Drop>(
    alloc: Global,
    conn: Connection<S>,
) -> Result<Connection<S>, (Error, S)>
    ensures found { IfOk result (λ c. HasCleanDisk (state S.Store c)
        → FindsVersion (state S.Store c).now) }
    ensures idle { IfOk result (λ c. c.in_transaction ≡ false) }
    ensures shows_committed { IfOk result (λ c. HasCleanDisk (state S.Store c)
        → (state S.Store c).now ≡ (state S.Store c).committed) }
    ensures open { IfOk result (λ c. HasCleanDisk (state S.Store c)
        → IsTrue (state S.Store c).is_open) }
    ensures clean { IfOk result (λ c. HasCleanDisk (state S.Store c)
        → HasCleanDisk (state S.Store conn)) }
    ensures tables { IfOk result (λ c. HasCleanDisk (state S.Store c)
        → (state S.Store c).now.trees ≡ (state S.Store conn).committed.trees) }
    ensures bare { IfOk result (λ c. HasCleanDisk (state S.Store c)
        → (state S.Store c).now.schema ≡ no_schema → IsNoStore (state S.Store c).now.trees) }
    ensures crash { IfOk result (λ c. HasCleanDisk (state S.Store c) → (db : Trees)
        → (state S.Store c).may_leave db → (state S.Store conn).may_leave db) }
    ensures left { IfErr result (λ e. (db : Trees) → S.Store.recovers e.1 db
        → (state S.Store conn).may_leave db) }
{
    let store = conn.into_store();
    if store.is_broken() {
        return Err((Error::SqliteFailure(ErrorCode::Closed), store));
    }
    Connection::over(alloc, store)
}
