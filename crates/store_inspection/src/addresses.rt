// Whether no two records have one address.
ghost use Rattle.std.specs.Prelude.{◌≡◌, ◌↔◌, [], IfOk, OnOk, IsTrue, false};
ghost use Rattle.sqlite.specs.Given.{Returns};
ghost use Rattle.sqlite.specs.Held.{state};
ghost use Rattle.sqlite.specs.Listing.{understood};
ghost use Rattle.sqlite.specs.Order.{column, bytes};
ghost use Rattle.sqlite.specs.State.{HasCleanDisk, IsUnchanged, Survives};
ghost use Rattle.office_sql.specs.Prelude.{Rests};
ghost use Rattle.store_inspection.specs.Prelude.{shows_again, HasApartAddresses, HasWalked, IsFound, Sees, Tests};
ghost use Rattle.store_inspection.specs.declared.version.Version.{Version};

use office_sql::DAMAGED;
use sqlite::types::ValueRef;
use sqlite::{Alter, Connection, Error, ErrorCode, Row};

/// No table has as many rows.
const TOO_MANY_ROWS: u64 = u64::MAX;

/// Reads the addresses of all records in their order.
const SELECT_ADDRESSES: &str = "SELECT mac FROM given WHERE mac >= '' ORDER BY mac";

fn shown_text(row: &Row) -> Result<&[u8], Error>
    ensures { IfOk result (λ text. text.now ≡ bytes (column row.now 0)) }
{
    match row.get_ref(0)? {
        ValueRef::Text(text) => Ok(text),
        _ => Err(DAMAGED),
    }
}

/// Whether a row shows the text that the last one showed.
fn is_again(last: &Option<Row>, row: &Row) -> Result<bool, Error>
    ensures { IfOk result (λ again. again ≡ shows_again last.now row.now) }
{
    match last {
        Some(last) => Ok(shown_text(row)? == shown_text(last)?),
        None => Ok(false),
    }
}

fn copy_of(row: &Row) -> Result<Row, Error>
    ensures { IfOk result (λ copy. copy ≡ row.now) }
{
    row.copy()
        .map_err(|_| Error::SqliteFailure(ErrorCode::OutOfMemory))
}

/// Whether no row of a query shows the text that the one before it showed. One row is kept at a time.
fn has_no_repeat<S: Alter>(conn: &mut Connection<S>, sql: &str) -> Result<bool, Error>
    requires { ¬ Returns (understood conn.old.schema sql.now) }
    ensures walked { HasCleanDisk (state S.Store conn.new)
        → IfOk result (HasWalked sql.now (state S.Store conn.old) (state S.Store conn.new)) }
    ensures same { HasCleanDisk (state S.Store conn.new)
        → OnOk result (IsUnchanged (state S.Store conn.old) (state S.Store conn.new)) }
    ensures rests { HasCleanDisk (state S.Store conn.new)
        → Rests (state S.Store conn.old) (state S.Store conn.new) }
    ensures mode { conn.old.in_transaction ≡ false → conn.new.in_transaction ≡ false }
    ensures crash { Survives (state S.Store conn.old) (state S.Store conn.new) (λ _. ⊥) }
{
    let mut last = None;
    let mut rows = conn.query(sql, &[])?;
    'rows: for _ in 0..TOO_MANY_ROWS {
        let Some(row) = rows.next()? else {
            return Ok(true);
        };
        if is_again(&last, row)? {
            return Ok(false);
        }
        last = Some(copy_of(row)?);
    }
    Err(DAMAGED)
}

/// Whether no two records have one address, by one walk over the index of addresses.
pub fn has_apart_addresses<S: Alter>(conn: &mut Connection<S>) -> Result<bool, Error>
    requires { (version : Version) × Sees (IsFound version) (state S.Store conn.old) }
    ensures { Tests S.Store conn.old conn.new result (λ db apart.
        IsTrue apart ↔ HasApartAddresses db) }
{
    has_no_repeat(conn, SELECT_ADDRESSES)
}
