// The table of given serial numbers.
ghost use Rattle.std.specs.Prelude.{◌≡◌, ℕ, Some, IfOk, IsTrue, map, filter, option_map, option_and_then, string_bytes};
ghost use Rattle.sqlite.specs.Held.{state};
ghost use Rattle.office_tables.specs.Prelude.{Visits, IsAddressFree, IsFree, is_serial_of, is_bound};
ghost use Rattle.office_tables.specs.Prelude.{is_given_behind, is_of_issuer, has_address, given_at, given_by_key};
ghost use Rattle.office_tables.specs.declared.rows.Write.TheVariants.{AddGiven as TheGiven};
ghost use Rattle.id_ranges.specs.Mac as spec;
ghost use Rattle.id_ranges.specs.Prelude.{mac_of_text};
ghost use Rattle.office_sql.specs.Prelude.{Looks, text_if, mac_if, joined_given, given_columns, tables_in, SqlAdds, Wrote, SqlReads, SqlWrites, HasOffice};
ghost use Rattle.office_sql.specs.Prelude.{HasOfficeSchema};
ghost use Rattle.sqlite.specs.Order.{bytes, column};
ghost use Rattle.office_sql.specs.OfficeTable as table;

use crate::address::address_text;
use crate::not_before::not_before_text;
use crate::read::{
    DAMAGED, chip_if_at, key_at, mac_if_at, name_at, not_before_if_at, serial_at, time_at,
};
use crate::visit::{ReadRow, first_row, visit_rows};
use id_ranges::{KeyDigest, Mac, NotBefore};
use office_tables::{Given, GivenRow, OfCustomer, Sink};
use sqlite::{Alter, Connection, Error, Row, Transaction, params};
use std::alloc::Global;
use text_core::{Chip, Name, Serial};

// Reads the records that pass the tests, each with its beginning of validity, by issuer and serial
// number.
macro_rules! given_where {
    ($tests:literal) => {
        concat!(
            "SELECT given.issuer, given.serial, customer, key, chip, mac, not_after, not_before FROM given ",
            "JOIN given_start ON given_start.issuer = given.issuer AND given_start.serial = given.serial WHERE ",
            $tests,
            " ORDER BY given.issuer, given.serial"
        )
    };
}

/// Reads the record of a serial number of an issuer.
const SELECT_GIVEN: &str = given_where!("given.issuer = ?1 AND given.serial = ?2");

/// Reads the record of a key in an issuer.
const SELECT_GIVEN_BY_KEY: &str = given_where!("given.issuer = ?1 AND key = ?2");

/// Reads the records of an issuer.
const SELECT_GIVEN_OF_ISSUER: &str = given_where!("given.issuer = ?1");

/// Reads those of an issuer's given serial numbers that come behind one.
const SELECT_SERIALS_BEHIND: &str =
    "SELECT serial FROM given WHERE issuer = ?1 AND serial > ?2 ORDER BY issuer, serial";

/// Reads the records with an address, of any issuer.
const SELECT_GIVEN_WITH_ADDRESS: &str = given_where!("mac = ?1");

/// Adds a record.
const INSERT_INTO_GIVEN: &str =
    "INSERT INTO given (issuer, serial, customer, key, chip, mac, not_after) VALUES (?1, ?2, ?3, ?4, ?5, ?6, ?7)";

/// Adds the beginning of validity of a record.
const INSERT_INTO_GIVEN_START: &str =
    "INSERT INTO given_start (issuer, serial, not_before) VALUES (?1, ?2, ?3)";

fn rows_at<S: Alter>(
    conn: &mut Connection<S>,
    issuer: &Name,
    serial: &str,
) -> Result<Vec<Row>, Error>
    requires { HasOffice (state S.Store conn.old) }
    ensures { SqlReads S.Store conn.old conn.new result (λ t rows. map joined_given rows.items
        ≡ filter (is_serial_of issuer.now serial.now) t.given) }
{
    conn.query_all(SELECT_GIVEN, params![issuer.as_str(), serial])
}

fn rows_by_key<S: Alter>(
    conn: &mut Connection<S>,
    issuer: &Name,
    key: &KeyDigest,
) -> Result<Vec<Row>, Error>
    requires { HasOffice (state S.Store conn.old) }
    ensures { SqlReads S.Store conn.old conn.new result (λ t rows. map joined_given rows.items
        ≡ filter (is_bound issuer.now key.now) t.given) }
{
    conn.query_all(
        SELECT_GIVEN_BY_KEY,
        params![issuer.as_str(), key.as_bytes().as_slice()],
    )
}

fn device_at(row: &Row) -> Result<(Option<Chip>, Option<Mac>), Error>
    ensures { IfOk result (λ device. (device.0 ≡ text_if (column row.now 4))
        × (device.1 ≡ mac_if (column row.now 5))) }
{
    Ok((chip_if_at(row, 4)?, mac_if_at(row, 5)?))
}

// The record that a row of given says, by what `device_at` answers for the row and the beginning of
// validity that stands in it.
fn read_given(
    row: &Row,
    chip: Option<Chip>,
    mac: Option<Mac>,
    not_before: Option<NotBefore>,
) -> Result<GivenRow, Error>
    requires chip { chip ≡ text_if (column row.now 4) }
    requires mac { mac ≡ mac_if (column row.now 5) }
    requires not_before { not_before ≡ text_if (column row.now 7) }
    ensures { IfOk result (λ given. given ≡ joined_given row.now) }
{
    Ok(OfCustomer {
        customer: name_at(row, 2)?,
        row: Given {
            issuer: name_at(row, 0)?,
            serial: serial_at(row, 1)?,
            key: key_at(row, 3)?,
            chip,
            mac,
            not_after: time_at(row, 6)?,
            not_before,
        },
    })
}

/// The record of a serial number of an issuer.
pub fn given_row<S: Alter>(
    conn: &mut Connection<S>,
    issuer: &Name,
    serial: &str,
) -> Result<Option<GivenRow>, Error>
    requires { HasOffice (state S.Store conn.old) }
    ensures { SqlReads S.Store conn.old conn.new result (λ t row. row
        ≡ given_at issuer.now serial.now t) }
{
    let rows = rows_at(conn, issuer, serial)?;
    first_row(rows.as_slice())
}

/// The record of a key in an issuer.
pub fn given_by_key<S: Alter>(
    conn: &mut Connection<S>,
    issuer: &Name,
    key: &KeyDigest,
) -> Result<Option<GivenRow>, Error>
    requires { HasOffice (state S.Store conn.old) }
    ensures { SqlReads S.Store conn.old conn.new result (λ t row. row
        ≡ given_by_key issuer.now key.now t) }
{
    let rows = rows_by_key(conn, issuer, key)?;
    first_row(rows.as_slice())
}

impl ReadRow for GivenRow {
    ghost reads = { joined_given };

    fn read_row(row: &Row) -> Result<GivenRow, Error> {
        let (chip, mac) = device_at(row)?;
        let not_before = not_before_if_at(row, 7)?;
        read_given(row, chip, mac, not_before)
    }
}

/// Hands the records of an issuer to the sink, by serial number, while it goes on.
pub fn visit_given<S: Alter, K: Sink<GivenRow>>(
    conn: &mut Connection<S>,
    issuer: &Name,
    sink: &mut K,
) -> Result<(), Error>
    requires { HasOffice (state S.Store conn.old) }
    ensures { SqlReads S.Store conn.old conn.new result (λ t _.
        Visits K.takes sink.old (filter (is_of_issuer issuer.now) t.given) sink.new) }
{
    visit_rows::<S, GivenRow, K>(conn, SELECT_GIVEN_OF_ISSUER, params![issuer.as_str()], sink)
}

impl ReadRow for Serial {
    ghost reads = { λ r. bytes (column r 0) };

    fn read_row(row: &Row) -> Result<Serial, Error> {
        serial_at(row, 0)
    }
}

/// Hands those of an issuer's given serial numbers that come behind one to the sink, in their order,
/// while it goes on.
pub fn visit_serials_behind<S: Alter, K: Sink<Serial>>(
    conn: &mut Connection<S>,
    issuer: &Name,
    serial: &Serial,
    sink: &mut K,
) -> Result<(), Error>
    requires { HasOffice (state S.Store conn.old) }
    ensures { SqlReads S.Store conn.old conn.new result (λ t _.
        Visits K.takes sink.old (map (λ g. g.row.serial)
        (filter (is_given_behind issuer.now serial.now) t.given)) sink.new) }
{
    visit_rows::<S, Serial, K>(
        conn,
        SELECT_SERIALS_BEHIND,
        params![issuer.as_str(), serial.as_str()],
        sink,
    )
}

fn rows_with_address<S: Alter>(tx: &mut Transaction<'_, S>, text: &str) -> Result<Vec<Row>, Error>
    requires { HasOffice (state S.Store tx.old.conn.now) }
    ensures same_reference { tx.new.conn.ghost_name ≡ tx.old.conn.ghost_name }
    ensures looks { Looks S.Store tx.old.conn.now tx.new.conn.now result (λ t rows. (mac : ℕ)
        → mac_of_text text.now ≡ Some mac
        → map joined_given rows.items ≡ filter (has_address mac) t.given) }
{
    tx.query_all(SELECT_GIVEN_WITH_ADDRESS, params![text])
}

fn find_text_free<S: Alter>(tx: &mut Transaction<'_, S>, text: &str) -> Result<(), Error>
    requires { HasOffice (state S.Store tx.old.conn.now) }
    ensures same_reference { tx.new.conn.ghost_name ≡ tx.old.conn.ghost_name }
    ensures looks { Looks S.Store tx.old.conn.now tx.new.conn.now result (λ t _.
        IsAddressFree (mac_of_text text.now) t.given) }
{
    let rows = rows_with_address(tx, text)?;
    if rows.is_empty() {
        Ok(())
    } else {
        Err(DAMAGED)
    }
}

fn find_address_free<S: Alter>(
    tx: &mut Transaction<'_, S>,
    address: &Option<String>,
) -> Result<(), Error>
    requires { HasOffice (state S.Store tx.old.conn.now) }
    ensures same_reference { tx.new.conn.ghost_name ≡ tx.old.conn.ghost_name }
    ensures looks { Looks S.Store tx.old.conn.now tx.new.conn.now result (λ t _.
        IsAddressFree (option_and_then mac_of_text (option_map (λ s.
        string_bytes s) address.now)) t.given) }
{
    match address {
        Some(text) => find_text_free(tx, text.as_str()),
        None => Ok(()),
    }
}

fn chip_text(chip: &Option<Chip>) -> Option<&str>
    ensures { option_map (λ text. text.now) result ≡ chip.now }
{
    match chip {
        Some(chip) => Some(chip.as_str()),
        None => None,
    }
}

// Adds the row of a record, with the text of its address.
fn insert_given<S: Alter>(
    tx: &mut Transaction<'_, S>,
    given: &GivenRow,
    address: &Option<String>,
) -> Result<usize, Error>
    requires schema { HasOfficeSchema (state S.Store tx.old.conn.now) }
    requires address_is { option_map (λ t. string_bytes t) address.now
        ≡ option_map spec.mac_text given.now.row.mac }
    ensures same_reference { tx.new.conn.ghost_name ≡ tx.old.conn.ghost_name }
    ensures changes { SqlWrites S.Store tx.old.conn.now tx.new.conn.now result (λ old new _.
        SqlAdds table.given (given_columns given.now) old new) }
{
    tx.execute(
        INSERT_INTO_GIVEN,
        params![
            given.row.issuer.as_str(),
            given.row.serial.as_str(),
            given.customer.as_str(),
            given.row.key.as_bytes().as_slice(),
            chip_text(&given.row.chip),
            address,
            given.row.not_after.as_str()
        ],
    )
}

// Adds a record and its beginning of validity, with the text of its address.
fn insert_record<S: Alter>(
    tx: &mut Transaction<'_, S>,
    given: &GivenRow,
    address: &Option<String>,
) -> Result<(), Error>
    requires office { HasOffice (state S.Store tx.old.conn.now) }
    requires free { IsTrue (state S.Store tx.old.conn.now).is_open
        → IsFree (TheGiven given.now) (tables_in (state S.Store tx.old.conn.now).now.trees) }
    requires address_is { option_map (λ t. string_bytes t) address.now
        ≡ option_map spec.mac_text given.now.row.mac }
    requires address_back { option_and_then mac_of_text (option_map (λ t.
        string_bytes t) address.now) ≡ given.now.row.mac }
    requires address_free { IsTrue (state S.Store tx.old.conn.now).is_open
        → IsAddressFree given.now.row.mac
        (tables_in (state S.Store tx.old.conn.now).now.trees).given }
    ensures same_reference { tx.new.conn.ghost_name ≡ tx.old.conn.ghost_name }
    ensures changes { SqlWrites S.Store tx.old.conn.now tx.new.conn.now result (λ old new _.
        Wrote (TheGiven given.now) old new) }
{
    insert_given(tx, given, address)?;
    tx.execute(
        INSERT_INTO_GIVEN_START,
        params![
            given.row.issuer.as_str(),
            given.row.serial.as_str(),
            not_before_text(&given.row.not_before)
        ],
    )?;
    Ok(())
}

/// Adds the record of a serial number and its beginning of validity, unless another record has its
/// address.
pub(crate) fn add_given<S: Alter>(
    alloc: Global,
    tx: &mut Transaction<'_, S>,
    given: &GivenRow,
) -> Result<(), Error>
    requires office { HasOffice (state S.Store tx.old.conn.now) }
    requires free { IsTrue (state S.Store tx.old.conn.now).is_open
        → IsFree (TheGiven given.now) (tables_in (state S.Store tx.old.conn.now).now.trees) }
    ensures same_reference { tx.new.conn.ghost_name ≡ tx.old.conn.ghost_name }
    ensures changes { SqlWrites S.Store tx.old.conn.now tx.new.conn.now result (λ old new _.
        Wrote (TheGiven given.now) old new) }
{
    let address = address_text(alloc, given.row.mac)?;
    find_address_free(tx, &address)?;
    insert_record(tx, given, &address)
}
