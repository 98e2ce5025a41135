// The table of maps.
ghost use Rattle.std.specs.Prelude.{◌≡◌, pos, ◌∷◌, IfOk, IsTrue, map, filter, option_map, slice_get};
ghost use Rattle.sqlite.specs.Held.{state};
ghost use Rattle.sqlite.specs.Order.{column};
ghost use Rattle.office_tables.specs.declared.rows.Write.TheVariants.{AddMap as TheMap};
ghost use Rattle.office_tables.specs.Prelude.{has_id, has_body, map_at, map_with, IsFree};
ghost use Rattle.office_sql.specs.Prelude.{number_in_cell, map_in_row, tables_in, Wrote, GainsMap, SqlReads, SqlWrites, HasOffice};

use crate::links::add_link;
use crate::number::whole;
use crate::read::{DAMAGED, owned_text_at, whole_at};
use office_tables::{Link, MapRow, NewMap, OfCustomer};
use sqlite::{Alter, Connection, Error, Row, Transaction, params};
use std::alloc::Global;

/// Reads the map with a number.
const SELECT_MAP: &str = "SELECT id, body FROM map WHERE id = ?1 ORDER BY id";

/// Reads the map with a text.
const SELECT_MAP_WITH_BODY: &str = "SELECT id, body FROM map WHERE body = ?1 ORDER BY id";

/// Adds a map, whose number SQL draws.
const INSERT_INTO_MAP: &str = "INSERT INTO map (body, digest) VALUES (?1, ?2)";

fn id_rows<S: Alter>(conn: &mut Connection<S>, id: u64) -> Result<Vec<Row>, Error>
    requires { HasOffice (state S.Store conn.old) }
    ensures { SqlReads S.Store conn.old conn.new result (λ t rows.
        map (λ r. map_in_row (column r 0 ∷ r)) rows.items ≡ filter (has_id id) t.maps) }
{
    let id = whole(id)?;
    conn.query_all(SELECT_MAP, params![id])
}

fn body_rows<S: Alter>(conn: &mut Connection<S>, body: &str) -> Result<Vec<Row>, Error>
    requires { HasOffice (state S.Store conn.old) }
    ensures { SqlReads S.Store conn.old conn.new result (λ t rows.
        map (λ r. map_in_row (column r 0 ∷ r)) rows.items ≡ filter (has_body body.now) t.maps) }
{
    conn.query_all(SELECT_MAP_WITH_BODY, params![body])
}

fn read_map(alloc: Global, row: &Row) -> Result<MapRow, Error>
    ensures { IfOk result (λ map. map ≡ map_in_row (column row.now 0 ∷ row.now)) }
{
    Ok(MapRow {
        id: whole_at(row, 0)?,
        body: owned_text_at(alloc, row, 1)?,
    })
}

fn first_map(alloc: Global, rows: &[Row]) -> Result<Option<MapRow>, Error>
    ensures { IfOk result (λ map. map
        ≡ option_map (λ r. map_in_row (column r 0 ∷ r)) (slice_get rows.now 0)) }
{
    match rows.first() {
        Some(row) => Ok(Some(read_map(alloc, row)?)),
        None => Ok(None),
    }
}

fn first_id(rows: &[Row]) -> Result<Option<u64>, Error>
    ensures { IfOk result (λ id. id
        ≡ option_map (λ r. number_in_cell (column r 0)) (slice_get rows.now 0)) }
{
    match rows.first() {
        Some(row) => Ok(Some(whole_at(row, 0)?)),
        None => Ok(None),
    }
}

/// The map with a number.
pub fn map_row<S: Alter>(
    alloc: Global,
    conn: &mut Connection<S>,
    id: u64,
) -> Result<Option<MapRow>, Error>
    requires { HasOffice (state S.Store conn.old) }
    ensures { SqlReads S.Store conn.old conn.new result (λ t row. row ≡ map_at id t) }
{
    let rows = id_rows(conn, id)?;
    first_map(alloc, rows.as_slice())
}

/// The number of the map with a text.
pub fn map_id<S: Alter>(conn: &mut Connection<S>, body: &str) -> Result<Option<u64>, Error>
    requires { HasOffice (state S.Store conn.old) }
    ensures { SqlReads S.Store conn.old conn.new result (λ t id. id
        ≡ option_map (λ m. m.id) (map_with body.now t)) }
{
    let rows = body_rows(conn, body)?;
    first_id(rows.as_slice())
}

fn number_of(rowid: i64) -> Result<u64, Error>
    ensures { IfOk result (λ number. rowid ≡ pos number) }
{
    u64::try_from(rowid).map_err(|_| DAMAGED)
}

// Adds the row of a map, and answers its number.
fn new_map<S: Alter>(tx: &mut Transaction<'_, S>, map: &OfCustomer<NewMap>) -> Result<u64, Error>
    requires { HasOffice (state S.Store tx.old.conn.now) }
    ensures same_reference { tx.new.conn.ghost_name ≡ tx.old.conn.ghost_name }
    ensures changes { SqlWrites S.Store tx.old.conn.now tx.new.conn.now result (λ old new id.
        GainsMap map.now id old new) }
{
    tx.execute(
        INSERT_INTO_MAP,
        params![map.row.body.as_str(), map.row.digest.as_bytes().as_slice()],
    )?;
    number_of(tx.last_insert_rowid())
}

/// Adds a new map, and its customer's link to it.
pub(crate) fn add_map<S: Alter>(
    tx: &mut Transaction<'_, S>,
    map: &OfCustomer<NewMap>,
) -> Result<(), Error>
    requires office { HasOffice (state S.Store tx.old.conn.now) }
    requires free { IsTrue (state S.Store tx.old.conn.now).is_open
        → IsFree (TheMap map.now) (tables_in (state S.Store tx.old.conn.now).now.trees) }
    ensures same_reference { tx.new.conn.ghost_name ≡ tx.old.conn.ghost_name }
    ensures changes { SqlWrites S.Store tx.old.conn.now tx.new.conn.now result (λ old new _.
        Wrote (TheMap map.now) old new) }
{
    let id = new_map(tx, map)?;
    let link = OfCustomer {
        customer: map.customer,
        row: Link {
            digest: map.row.digest,
            map: id,
        },
    };
    add_link(tx, &link)
}
