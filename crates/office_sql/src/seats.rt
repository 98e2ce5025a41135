// The table of seats.
ghost use Rattle.std.specs.Prelude.{◌≡◌, ◌==◌, ◌∷◌, pos, IfOk, IsTrue, MatchBool, None, map, filter, option_map, slice_get};
ghost use Rattle.sqlite.specs.Held.{state};
ghost use Rattle.sqlite.specs.declared.types.Value.TheVariants.{Null};
ghost use Rattle.office_tables.specs.Prelude.{is_seat, seat_at};
ghost use Rattle.office_tables.specs.declared.rows.Write.TheVariants.{PutSeat as ThePut};
ghost use Rattle.office_sql.specs.Prelude.{seat_in_row, SqlReads, SqlWrites, HasOffice, Wrote, LacksSeat, tables_in};

use crate::number::whole;
use crate::read::{digest_at, name_at, owned_text_at, whole_at};
use office_tables::{OfCustomer, SeatRow, SeatState};
use sqlite::{Alter, Connection, Error, Row, Transaction, params};
use std::alloc::Global;
use text_core::Name;

/// Reads the row of a seat.
const SELECT_SEAT: &str =
    "SELECT name, customer, last, digest, reply FROM seat WHERE name = ?1 ORDER BY name";

/// Writes the row of a seat that has one.
const UPDATE_OF_SEAT: &str =
    "UPDATE seat SET customer = ?2, last = ?3, digest = ?4, reply = ?5 WHERE name = ?1";

/// Adds the row of a seat.
const INSERT_INTO_SEAT: &str =
    "INSERT INTO seat (name, customer, last, digest, reply) VALUES (?1, ?2, ?3, ?4, ?5)";

fn seat_rows<S: Alter>(conn: &mut Connection<S>, name: &Name) -> Result<Vec<Row>, Error>
    requires { HasOffice (state S.Store conn.old) }
    ensures { SqlReads S.Store conn.old conn.new result (λ t rows.
        map (λ r. seat_in_row (Null ∷ r)) rows.items ≡ filter (is_seat name.now) t.seats) }
{
    conn.query_all(SELECT_SEAT, params![name.as_str()])
}

fn read_seat(alloc: Global, row: &Row) -> Result<SeatRow, Error>
    ensures { IfOk result (λ seat. seat ≡ seat_in_row (Null ∷ row.now)) }
{
    Ok(OfCustomer {
        customer: name_at(row, 1)?,
        row: SeatState {
            name: name_at(row, 0)?,
            last: whole_at(row, 2)?,
            digest: digest_at(row, 3)?,
            reply: owned_text_at(alloc, row, 4)?,
        },
    })
}

fn first_seat(alloc: Global, rows: &[Row]) -> Result<Option<SeatRow>, Error>
    ensures { IfOk result (λ seat. seat
        ≡ option_map (λ r. seat_in_row (Null ∷ r)) (slice_get rows.now 0)) }
{
    match rows.first() {
        Some(row) => Ok(Some(read_seat(alloc, row)?)),
        None => Ok(None),
    }
}

/// The row of a seat.
pub fn seat_row<S: Alter>(
    alloc: Global,
    conn: &mut Connection<S>,
    name: &Name,
) -> Result<Option<SeatRow>, Error>
    requires { HasOffice (state S.Store conn.old) }
    ensures { SqlReads S.Store conn.old conn.new result (λ t row. row ≡ seat_at name.now t) }
{
    let rows = seat_rows(conn, name)?;
    first_seat(alloc, rows.as_slice())
}

// Sets the row of a seat, and answers how many it has.
fn set_seat<S: Alter>(
    tx: &mut Transaction<'_, S>,
    seat: &SeatRow,
    last: i64,
) -> Result<usize, Error>
    requires office { HasOffice (state S.Store tx.old.conn.now) }
    requires last { last ≡ pos seat.now.row.last }
    ensures same_reference { tx.new.conn.ghost_name ≡ tx.old.conn.ghost_name }
    ensures changes { SqlWrites S.Store tx.old.conn.now tx.new.conn.now result (λ old new count.
        MatchBool (count == 0) (LacksSeat seat.now.row.name old new)
        (Wrote (ThePut seat.now) old new)) }
{
    tx.execute(
        UPDATE_OF_SEAT,
        params![
            seat.row.name.as_str(),
            seat.customer.as_str(),
            last,
            seat.row.digest.as_bytes().as_slice(),
            seat.row.reply.as_str()
        ],
    )
}

// Adds a row for a seat that has none.
fn new_seat<S: Alter>(
    tx: &mut Transaction<'_, S>,
    seat: &SeatRow,
    last: i64,
) -> Result<usize, Error>
    requires office { HasOffice (state S.Store tx.old.conn.now) }
    requires free { IsTrue (state S.Store tx.old.conn.now).is_open
        → seat_at seat.now.row.name (tables_in (state S.Store tx.old.conn.now).now.trees) ≡ None }
    requires last { last ≡ pos seat.now.row.last }
    ensures same_reference { tx.new.conn.ghost_name ≡ tx.old.conn.ghost_name }
    ensures changes { SqlWrites S.Store tx.old.conn.now tx.new.conn.now result (λ old new _.
        Wrote (ThePut seat.now) old new) }
{
    tx.execute(
        INSERT_INTO_SEAT,
        params![
            seat.row.name.as_str(),
            seat.customer.as_str(),
            last,
            seat.row.digest.as_bytes().as_slice(),
            seat.row.reply.as_str()
        ],
    )
}

/// Puts the row of a seat in place of the one that has its name, if there is one.
pub(crate) fn put_seat<S: Alter>(tx: &mut Transaction<'_, S>, seat: &SeatRow) -> Result<(), Error>
    requires office { HasOffice (state S.Store tx.old.conn.now) }
    ensures same_reference { tx.new.conn.ghost_name ≡ tx.old.conn.ghost_name }
    ensures changes { SqlWrites S.Store tx.old.conn.now tx.new.conn.now result (λ old new _.
        Wrote (ThePut seat.now) old new) }
{
    let last = whole(seat.row.last)?;
    let count = set_seat(tx, seat, last)?;
    if count == 0 {
        new_seat(tx, seat, last)?;
    }
    Ok(())
}
