// The table of links.
ghost use Rattle.std.specs.Prelude.{◌≡◌, ◌∷◌, IsTrue, map, filter};
ghost use Rattle.sqlite.specs.Held.{state};
ghost use Rattle.sqlite.specs.declared.types.Value.TheVariants.{Null};
ghost use Rattle.office_tables.specs.declared.rows.Write.TheVariants.{AddLink as TheLink};
ghost use Rattle.office_tables.specs.Prelude.{Visits, is_link, is_of, link_at, IsFree};
ghost use Rattle.office_sql.specs.Prelude.{link_in_row, tables_in, Wrote, SqlReads, SqlWrites, HasOffice};

use crate::number::whole;
use crate::read::{digest_at, name_at, whole_at};
use crate::visit::{ReadRow, first_row, visit_rows};
use office_tables::{Link, LinkRow, OfCustomer, Sink};
use sqlite::{Alter, Connection, Error, Row, Transaction, params};
use std::alloc::Global;
use text_core::{Digest, Name};

/// Reads a customer's link to a map, by the digest of the map's text.
const SELECT_LINK: &str =
    "SELECT customer, digest, map FROM link WHERE customer = ?1 AND digest = ?2 ORDER BY customer, digest";

/// Reads a customer's links.
const SELECT_LINKS: &str =
    "SELECT customer, digest, map FROM link WHERE customer = ?1 ORDER BY customer, digest";

/// Adds a customer's link to a map.
const INSERT_INTO_LINK: &str = "INSERT INTO link (customer, digest, map) VALUES (?1, ?2, ?3)";

fn link_rows<S: Alter>(
    conn: &mut Connection<S>,
    customer: &Name,
    digest: &Digest,
) -> Result<Vec<Row>, Error>
    requires { HasOffice (state S.Store conn.old) }
    ensures { SqlReads S.Store conn.old conn.new result (λ t rows.
        map (λ r. link_in_row (Null ∷ r)) rows.items
        ≡ filter (is_link customer.now digest.now) t.links) }
{
    conn.query_all(
        SELECT_LINK,
        params![customer.as_str(), digest.as_bytes().as_slice()],
    )
}

/// A customer's link to a map, by the digest of the map's text.
pub fn link_row<S: Alter>(
    conn: &mut Connection<S>,
    customer: &Name,
    digest: &Digest,
) -> Result<Option<LinkRow>, Error>
    requires { HasOffice (state S.Store conn.old) }
    ensures { SqlReads S.Store conn.old conn.new result (λ t row. row
        ≡ link_at customer.now digest.now t) }
{
    let rows = link_rows(conn, customer, digest)?;
    first_row(rows.as_slice())
}

impl ReadRow for LinkRow {
    ghost reads = { λ r. link_in_row (Null ∷ r) };

    fn read_row(row: &Row) -> Result<LinkRow, Error> {
        Ok(OfCustomer {
            customer: name_at(row, 0)?,
            row: Link {
                digest: digest_at(row, 1)?,
                map: whole_at(row, 2)?,
            },
        })
    }
}

/// Hands a customer's links to the sink, by digest, while it goes on.
pub fn visit_links<S: Alter, K: Sink<LinkRow>>(
    conn: &mut Connection<S>,
    customer: &Name,
    sink: &mut K,
) -> Result<(), Error>
    requires { HasOffice (state S.Store conn.old) }
    ensures { SqlReads S.Store conn.old conn.new result (λ t _.
        Visits K.takes sink.old (filter (is_of customer.now) t.links) sink.new) }
{
    visit_rows::<S, LinkRow, K>(conn, SELECT_LINKS, params![customer.as_str()], sink)
}

/// Adds a customer's link to a map.
pub(crate) fn add_link<S: Alter>(tx: &mut Transaction<'_, S>, link: &LinkRow) -> Result<(), Error>
    requires office { HasOffice (state S.Store tx.old.conn.now) }
    requires free { IsTrue (state S.Store tx.old.conn.now).is_open
        → IsFree (TheLink link.now) (tables_in (state S.Store tx.old.conn.now).now.trees) }
    ensures same_reference { tx.new.conn.ghost_name ≡ tx.old.conn.ghost_name }
    ensures changes { SqlWrites S.Store tx.old.conn.now tx.new.conn.now result (λ old new _.
        Wrote (TheLink link.now) old new) }
{
    let map = whole(link.row.map)?;
    tx.execute(
        INSERT_INTO_LINK,
        params![
            link.customer.as_str(),
            link.row.digest.as_bytes().as_slice(),
            map
        ],
    )?;
    Ok(())
}
