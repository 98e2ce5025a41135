// The table of devices.
ghost use Rattle.std.specs.Prelude.{◌≡◌, ◌∷◌, IsTrue, IfOk, map, filter, option_map};
ghost use Rattle.sqlite.specs.declared.types.Value.TheVariants.{Null};
ghost use Rattle.sqlite.specs.Held.{state};
ghost use Rattle.sqlite.specs.Order.{column, bytes};
ghost use Rattle.sqlite.specs.Values.{bound};
ghost use Rattle.office_tables.specs.Prelude.{state_row, Visits, is_of, is_device, is_device_behind, device_at, IsFree, reason_text};
ghost use Rattle.office_tables.specs.declared.rows.Write.TheVariants.{AddDevice as TheNewDevice, PutDevice as TheDevice};
ghost use Rattle.office_sql.specs.Prelude.{SqlReads, SqlWrites, HasOffice, Wrote, order_state, order_state_in, device_in_row, device_columns, tables_in};
ghost use Rattle.office_sql.specs.Prelude.{state_in, text_if};

use crate::read::{
    DAMAGED, chip_at, column_at, digest_at, name_at, serial_if_at, text_at, text_if_at,
};
use crate::visit::{ReadRow, first_row, visit_rows};
use office_tables::{Device, DeviceRow, DeviceState, OfCustomer, Sink};
use sqlite::types::{ToSql, ValueRef};
use sqlite::{Alter, Connection, Error, Row, Transaction, params};
use std::alloc::Global;
use text_core::{Chip, Name, Serial};

// A text with the columns of a device.
macro_rules! device_text {
    ($before:literal, $($behind:literal),+) => {
        concat!($before, "customer, chip, ord, map, state, reason, bits, keys, todo, serial", $($behind),+)
    };
}

// Reads the devices that pass the tests, by customer and chip.
macro_rules! devices_where {
    ($tests:literal) => {
        device_text!("SELECT ", " FROM device WHERE ", $tests, " ORDER BY customer, chip")
    };
}

/// Reads the device of a customer's chip.
const SELECT_DEVICE: &str = devices_where!("customer = ?1 AND chip = ?2");

/// Reads a customer's devices.
const SELECT_DEVICES: &str = devices_where!("customer = ?1");

/// Reads those of a customer's devices whose chips come behind one.
const SELECT_DEVICES_BEHIND: &str = devices_where!("customer = ?1 AND chip > ?2");

/// Reads the orders and states of a customer's devices.
const SELECT_STATES: &str =
    "SELECT ord, state, reason FROM device WHERE customer = ?1 ORDER BY customer, chip";

/// Adds a device.
const INSERT_INTO_DEVICE: &str = device_text!(
    "INSERT INTO device (",
    ") VALUES (?1, ?2, ?3, ?4, ?5, ?6, ?7, ?8, ?9, ?10)"
);

/// Writes all that a device may change.
const UPDATE_OF_DEVICE: &str =
    "UPDATE device SET ord = ?3, map = ?4, state = ?5, reason = ?6, bits = ?7, keys = ?8, todo = ?9, serial = ?10 WHERE customer = ?1 AND chip = ?2";

/// The order of a device, and where the device stands on its way through the line.
#[derive(Clone, Copy, Drop)]
pub struct OrderState {
    /// The name of the order.
    pub order: Name,
    pub state: DeviceState,
}

fn device_rows<S: Alter>(
    conn: &mut Connection<S>,
    customer: &Name,
    chip: &Chip,
) -> Result<Vec<Row>, Error>
    requires { HasOffice (state S.Store conn.old) }
    ensures { SqlReads S.Store conn.old conn.new result (λ t rows.
        map (λ r. device_in_row (Null ∷ r)) rows.items
        ≡ filter (is_device customer.now chip.now) t.devices) }
{
    conn.query_all(SELECT_DEVICE, params![customer.as_str(), chip.as_str()])
}

fn state_rows<S: Alter>(conn: &mut Connection<S>, customer: &Name) -> Result<Vec<Row>, Error>
    requires { HasOffice (state S.Store conn.old) }
    ensures { SqlReads S.Store conn.old conn.new result (λ t rows. map order_state_in rows.items
        ≡ map order_state (filter (is_of customer.now) t.devices)) }
{
    conn.query_all(SELECT_STATES, params![customer.as_str()])
}

fn state_at(row: &Row, text: usize, reason: usize) -> Result<DeviceState, Error>
    ensures { IfOk result (λ state. state
        ≡ state_in (bytes (column row.now text)) (text_if (column row.now reason))) }
{
    DeviceState::parse(text_at(row, text)?, text_if_at(row, reason)?).ok_or(DAMAGED)
}

/// The device of a row, whose serial number the caller reads: the proof of a function that makes a
/// list of devices needs a value of the number's type in that function.
fn read_device(row: &Row, serial: Option<Serial>) -> Result<DeviceRow, Error>
    ensures { IfOk result (λ device. serial ≡ text_if (column row.now 9)
        → device ≡ device_in_row (Null ∷ row.now)) }
{
    Ok(OfCustomer {
        customer: name_at(row, 0)?,
        row: Device {
            chip: chip_at(row, 1)?,
            order: name_at(row, 2)?,
            map: digest_at(row, 3)?,
            state: state_at(row, 4, 5)?,
            bits: column_at(row, 6)?,
            keys: column_at(row, 7)?,
            todo: column_at(row, 8)?,
            serial,
        },
    })
}

fn read_state(row: &Row) -> Result<OrderState, Error>
    ensures { IfOk result (λ state. state ≡ order_state_in row.now) }
{
    Ok(OrderState {
        order: name_at(row, 0)?,
        state: state_at(row, 1, 2)?,
    })
}

fn read_states(alloc: Global, rows: &[Row]) -> Result<Vec<OrderState>, Error>
    ensures { IfOk result (λ states. states.items ≡ map order_state_in rows.now) }
{
    let mut states = Vec::new(alloc);
    for row in rows {
        states.push(read_state(row)?)?;
    }
    Ok(states)
}

/// The row of a device.
pub fn device_row<S: Alter>(
    conn: &mut Connection<S>,
    customer: &Name,
    chip: &Chip,
) -> Result<Option<DeviceRow>, Error>
    requires { HasOffice (state S.Store conn.old) }
    ensures { SqlReads S.Store conn.old conn.new result (λ t row. row
        ≡ device_at customer.now chip.now t) }
{
    let rows = device_rows(conn, customer, chip)?;
    first_row(rows.as_slice())
}

impl ReadRow for DeviceRow {
    ghost reads = { λ r. device_in_row (Null ∷ r) };

    fn read_row(row: &Row) -> Result<DeviceRow, Error> {
        let serial = serial_if_at(row, 9)?;
        read_device(row, serial)
    }
}

/// Hands a customer's devices to the sink, by chip, while it goes on.
pub fn visit_devices<S: Alter, K: Sink<DeviceRow>>(
    conn: &mut Connection<S>,
    customer: &Name,
    sink: &mut K,
) -> Result<(), Error>
    requires { HasOffice (state S.Store conn.old) }
    ensures { SqlReads S.Store conn.old conn.new result (λ t _.
        Visits K.takes sink.old (filter (is_of customer.now) t.devices) sink.new) }
{
    visit_rows::<S, DeviceRow, K>(conn, SELECT_DEVICES, params![customer.as_str()], sink)
}

/// Hands those of a customer's devices whose chips come behind one to the sink, by chip, while it
/// goes on.
pub fn visit_devices_behind<S: Alter, K: Sink<DeviceRow>>(
    conn: &mut Connection<S>,
    customer: &Name,
    chip: &Chip,
    sink: &mut K,
) -> Result<(), Error>
    requires { HasOffice (state S.Store conn.old) }
    ensures { SqlReads S.Store conn.old conn.new result (λ t _.
        Visits K.takes sink.old (filter (is_device_behind customer.now chip.now) t.devices)
        sink.new) }
{
    visit_rows::<S, DeviceRow, K>(
        conn,
        SELECT_DEVICES_BEHIND,
        params![customer.as_str(), chip.as_str()],
        sink,
    )
}

/// The orders and states of a customer's devices, by chip.
pub fn order_states<S: Alter>(
    alloc: Global,
    conn: &mut Connection<S>,
    customer: &Name,
) -> Result<Vec<OrderState>, Error>
    requires { HasOffice (state S.Store conn.old) }
    ensures { SqlReads S.Store conn.old conn.new result (λ t states. states.items
        ≡ map order_state (filter (is_of customer.now) t.devices)) }
{
    let rows = state_rows(conn, customer)?;
    read_states(alloc, rows.as_slice())
}

fn reason_text_of(state: DeviceState) -> Option<&'static str>
    ensures { option_map (λ t. t.now) result ≡ option_map reason_text (state_row state).reason }
{
    match state.reason() {
        Some(reason) => Some(reason.text()),
        None => None,
    }
}

fn serial_text(device: &Device) -> Option<&str>
    ensures { option_map (λ t. t.now) result ≡ device.now.serial }
{
    match &device.serial {
        Some(serial) => Some(serial.as_str()),
        None => None,
    }
}

fn values_of(device: &DeviceRow) -> [ValueRef<'_>; 10]
    ensures { bound result ≡ device_columns device.now }
{
    let row = &device.row;
    [
        device.customer.as_str().to_sql(),
        row.chip.as_str().to_sql(),
        row.order.as_str().to_sql(),
        row.map.as_bytes().as_slice().to_sql(),
        row.state.text().to_sql(),
        reason_text_of(row.state).to_sql(),
        row.bits.as_bytes().to_sql(),
        row.keys.as_bytes().to_sql(),
        row.todo.as_bytes().to_sql(),
        serial_text(row).to_sql(),
    ]
}

fn insert_device<S: Alter>(tx: &mut Transaction<'_, S>, device: &DeviceRow) -> Result<usize, Error>
    requires office { HasOffice (state S.Store tx.old.conn.now) }
    requires free { IsTrue (state S.Store tx.old.conn.now).is_open
        → IsFree (TheNewDevice device.now) (tables_in (state S.Store tx.old.conn.now).now.trees) }
    ensures same_reference { tx.new.conn.ghost_name ≡ tx.old.conn.ghost_name }
    ensures changes { SqlWrites S.Store tx.old.conn.now tx.new.conn.now result (λ old new _.
        Wrote (TheNewDevice device.now) old new) }
{
    tx.execute(INSERT_INTO_DEVICE, &values_of(device))
}

fn update_device<S: Alter>(tx: &mut Transaction<'_, S>, device: &DeviceRow) -> Result<usize, Error>
    requires { HasOffice (state S.Store tx.old.conn.now) }
    ensures same_reference { tx.new.conn.ghost_name ≡ tx.old.conn.ghost_name }
    ensures changes { SqlWrites S.Store tx.old.conn.now tx.new.conn.now result (λ old new count.
        count ≡ 1 → Wrote (TheDevice device.now) old new) }
{
    tx.execute(UPDATE_OF_DEVICE, &values_of(device))
}

/// Adds a device.
pub(crate) fn add_device<S: Alter>(
    tx: &mut Transaction<'_, S>,
    device: &DeviceRow,
) -> Result<(), Error>
    requires office { HasOffice (state S.Store tx.old.conn.now) }
    requires free { IsTrue (state S.Store tx.old.conn.now).is_open
        → IsFree (TheNewDevice device.now) (tables_in (state S.Store tx.old.conn.now).now.trees) }
    ensures same_reference { tx.new.conn.ghost_name ≡ tx.old.conn.ghost_name }
    ensures changes { SqlWrites S.Store tx.old.conn.now tx.new.conn.now result (λ old new _.
        Wrote (TheNewDevice device.now) old new) }
{
    insert_device(tx, device)?;
    Ok(())
}

/// Puts a device in place of the one with its chip.
pub(crate) fn put_device<S: Alter>(
    tx: &mut Transaction<'_, S>,
    device: &DeviceRow,
) -> Result<(), Error>
    requires { HasOffice (state S.Store tx.old.conn.now) }
    ensures same_reference { tx.new.conn.ghost_name ≡ tx.old.conn.ghost_name }
    ensures changes { SqlWrites S.Store tx.old.conn.now tx.new.conn.now result (λ old new _.
        Wrote (TheDevice device.now) old new) }
{
    let count = update_device(tx, device)?;
    if count == 1 { Ok(()) } else { Err(DAMAGED) }
}
