// Rows of a query as what they stand for: the first alone, or all, which a sink takes one at a time.
ghost use Rattle.std.specs.Prelude.{◌≡◌, IfOk, List, OnOk, false, option_map, slice_get};
ghost use Rattle.sqlite.specs.Given.{Returns};
ghost use Rattle.sqlite.specs.Held.{state};
ghost use Rattle.sqlite.specs.Listing.{understood};
ghost use Rattle.sqlite.specs.State.{HasCleanDisk, IsUnchanged, Survives};
ghost use Rattle.sqlite.specs.Values.{bound};
ghost use Rattle.sqlite.specs.declared.types.Value.{Value};
ghost use Rattle.office_sql.specs.Change.{Rests};
ghost use Rattle.office_sql.specs.Visiting.{HasVisited};

use crate::read::DAMAGED;
use office_tables::Sink;
use sqlite::types::ValueRef;
use sqlite::{Alter, Connection, Error, Row};

/// No table has as many rows.
const TOO_MANY_ROWS: u64 = u64::MAX;

/// What a row of a query is read as.
pub(crate) trait ReadRow: Sized {
    /// What the columns of a row stand for.
    ghost reads: { List Value → Self };

    /// Reads a row. A column that isn't of its form is the fault of a damaged database.
    fn read_row(row: &Row) -> Result<Self, Error>
        ensures { IfOk result (λ it. it ≡ reads row.now) };
}

/// What the first of the rows is read as, if there is one.
pub(crate) fn first_row<R: ReadRow>(rows: &[Row]) -> Result<Option<R>, Error>
    ensures { IfOk result (λ found. found ≡ option_map R.reads (slice_get rows.now 0)) }
{
    match rows.first() {
        Some(row) => Ok(Some(R::read_row(row)?)),
        None => Ok(None),
    }
}

/// Hands the rows of a query to the sink, one at a time, while it goes on. The rows behind aren't
/// read. At an error the sink may have taken some.
pub(crate) fn visit_rows<S: Alter, R: ReadRow + Drop, K: Sink<R>>(
    conn: &mut Connection<S>,
    sql: &str,
    params: &[ValueRef<'_>],
    sink: &mut K,
) -> Result<(), Error>
    requires { ¬ Returns (understood conn.old.schema sql.now) }
    ensures visited { HasCleanDisk (state S.Store conn.new)
        → OnOk result
        (HasVisited K.takes R.reads sql.now (bound params.now) (state S.Store conn.old)
        (state S.Store conn.new) sink.old sink.new) }
    ensures same { HasCleanDisk (state S.Store conn.new)
        → OnOk result (IsUnchanged (state S.Store conn.old) (state S.Store conn.new)) }
    ensures rests { HasCleanDisk (state S.Store conn.new)
        → Rests (state S.Store conn.old) (state S.Store conn.new) }
    ensures mode { conn.old.in_transaction ≡ false → conn.new.in_transaction ≡ false }
    ensures crash { Survives (state S.Store conn.old) (state S.Store conn.new) (λ _. ⊥) }
{
    let mut rows = conn.query(sql, params)?;
    'rows: for _ in 0..TOO_MANY_ROWS {
        let Some(row) = rows.next()? else {
            return Ok(());
        };
        let item = R::read_row(row)?;
        if !sink.take(&item) {
            return Ok(());
        }
    }
    Err(DAMAGED)
}
