// The table that tells of the store itself.
ghost use Rattle.std.specs.Prelude.{◌≡◌, ◌≢◌, [], ◌∷◌, length, map, IfSome, IfNone};
ghost use Rattle.std.specs.List.{AllByRecursion};
ghost use Rattle.sqlite.specs.Held.{state};
ghost use Rattle.sqlite.specs.Order.{bytes, column};
ghost use Rattle.office_sql.specs.Prelude.{IsBlob, number_in_cell};
ghost use Rattle.store_inspection.specs.Prelude.{IsFound, Sees, Tests, meta_of, metas_in, IsMetaOf, ShowMeta, TellNoSite};
ghost use Rattle.store_inspection.specs.declared.version.Version.{Version};

use sqlite::types::ValueRef;
use sqlite::{Alter, Connection, Error, Row};
use text_core::Digest;

/// The number of the one row of `meta`.
pub const META_ID: u64 = 1;

/// Reads the rows that may tell of the store itself.
const SELECT_META: &str = "SELECT id, schema, site FROM meta ORDER BY id";

/// What a store tells of itself: the row's own number, the number of the schema, and whose site it
/// is of.
#[derive(Clone, Copy, Drop)]
pub struct Meta {
    pub id: u64,
    pub schema: u64,
    pub site: Digest,
}

fn meta_rows<S: Alter>(conn: &mut Connection<S>) -> Result<Vec<Row>, Error>
    requires { (version : Version) × Sees (IsFound version) (state S.Store conn.old) }
    ensures { Tests S.Store conn.old conn.new result (λ db rows. ShowMeta db rows.items) }
{
    conn.query_all(SELECT_META, &[])
}

/// A whole number that isn't below zero, if the column is one.
fn number_at(row: &Row, at: usize) -> Option<u64>
    ensures some { IfSome result (λ number. number ≡ number_in_cell (column row.now at)) }
    ensures none { IfNone result (number_in_cell (column row.now at) ≡ 0) }
{
    match row.get_ref(at) {
        Ok(ValueRef::Int(number)) => u64::try_from(number).ok(),
        _ => None,
    }
}

/// The name of a site, if the blob of the column is as long as one.
fn site_at(row: &Row, at: usize) -> Option<Digest>
    ensures some { IfSome result (λ site. site ≡ bytes (column row.now at)) }
    ensures none { IfNone result (IsBlob at row.now → length (bytes (column row.now at)) ≢ 32) }
{
    let Ok(ValueRef::Blob(blob)) = row.get_ref(at) else {
        return None;
    };
    let Ok(bytes) = <[u8; 32]>::try_from(blob) else {
        return None;
    };
    Some(Digest::from_bytes(bytes))
}

/// A row of `meta`, if each column is of its form.
fn read_meta(row: &Row) -> Option<Meta>
    ensures some { IfSome result (λ meta. meta ≡ meta_of row.now) }
    ensures none { IfNone result (IsBlob 2 row.now
        → (version : Version) → TellNoSite version (meta_of row.now ∷ [])) }
{
    Some(Meta {
        id: number_at(row, 0)?,
        schema: number_at(row, 1)?,
        site: site_at(row, 2)?,
    })
}

/// The row of `meta`, if there is one and no other, and each column is of its form.
fn only_meta(rows: &[Row]) -> Option<Meta>
    ensures some { IfSome result (λ meta. map meta_of rows.now ≡ meta ∷ []) }
    ensures none { IfNone result (AllByRecursion (IsBlob 2) rows.now
        → (version : Version) → TellNoSite version (map meta_of rows.now)) }
{
    match rows {
        [row] => read_meta(row),
        _ => None,
    }
}

/// What the store tells of itself, if `meta` has one row, of which each column is of its form.
pub fn meta_row<S: Alter>(conn: &mut Connection<S>) -> Result<Option<Meta>, Error>
    requires { (version : Version) × Sees (IsFound version) (state S.Store conn.old) }
    ensures { Tests S.Store conn.old conn.new result (λ db meta. IsMetaOf (metas_in db) meta) }
{
    let rows = meta_rows(conn)?;
    Ok(only_meta(rows.as_slice()))
}
