// The table of orders.
ghost use Rattle.std.specs.Prelude.{◌≡◌, pos, IfOk, IsTrue, map, filter, option_map, string_bytes};
ghost use Rattle.id_ranges.specs.Mac as spec;
ghost use Rattle.sqlite.specs.Held.{state};
ghost use Rattle.sqlite.specs.Order.{column};
ghost use Rattle.office_tables.specs.Prelude.{claim_of, Visits, is_of, is_order, order_at, IsFree};
ghost use Rattle.office_tables.specs.declared.rows.Write.TheVariants.{AddOrder as TheOrder, SetCursor as TheCursor};
ghost use Rattle.office_sql.specs.Prelude.{SqlReads, SqlWrites, HasOffice, HasOfficeSchema, SqlAdds, Wrote, tables_in, joined_order, order_columns, mac_if};
ghost use Rattle.office_sql.specs.Prelude.{claim_in, number_in_cell, text_if};
ghost use Rattle.office_sql.specs.OfficeTable as table;

use crate::address::address_text;
use crate::not_before::not_before_text;
use crate::number::whole;
use crate::read::{DAMAGED, mac_if_at, name_at, not_before_if_at, text_at, whole_at};
use crate::visit::{ReadRow, first_row, visit_rows};
use id_ranges::{Mac, NotBefore, SerialRange};
use office_tables::{Cursor, OfCustomer, Order, OrderClaim, OrderRow, Sink};
use sqlite::{Alter, Connection, Error, Row, Transaction, params};
use std::alloc::Global;
use text_core::{LARGEST_WHOLE, Name};

/// How many devices an order is for at most. A row with more is damaged.
const LARGEST_QUANTITY: u64 = 10_000;

/// How many addresses a device of an order has at most. A row with more is damaged.
const LARGEST_MACS: u8 = 4;

/// Reads an order of a customer, with its beginning of validity.
const SELECT_ORDER: &str =
    "SELECT orders.customer, name, issuer, prefix, width, first, quantity, macs, mac, cursor, not_before FROM orders JOIN order_start ON order_start.customer = orders.customer AND ord = name WHERE orders.customer = ?1 AND name = ?2 ORDER BY orders.customer, name";

/// Reads a customer's orders, each with its beginning of validity.
const SELECT_ORDERS: &str =
    "SELECT orders.customer, name, issuer, prefix, width, first, quantity, macs, mac, cursor, not_before FROM orders JOIN order_start ON order_start.customer = orders.customer AND ord = name WHERE orders.customer = ?1 ORDER BY orders.customer, name";

/// Reads what a customer's orders have taken.
const SELECT_CLAIMS: &str =
    "SELECT issuer, prefix, width, first, quantity, macs, mac FROM orders WHERE customer = ?1 ORDER BY customer, name";

/// Adds an order.
const INSERT_INTO_ORDERS: &str =
    "INSERT INTO orders (customer, name, issuer, prefix, width, first, quantity, macs, mac, cursor) VALUES (?1, ?2, ?3, ?4, ?5, ?6, ?7, ?8, ?9, ?10)";

/// Adds the beginning of validity of an order.
const INSERT_INTO_ORDER_START: &str =
    "INSERT INTO order_start (customer, ord, not_before) VALUES (?1, ?2, ?3)";

/// Writes the cursor of an order.
const UPDATE_OF_CURSOR: &str = "UPDATE orders SET cursor = ?3 WHERE customer = ?1 AND name = ?2";

fn order_rows<S: Alter>(
    conn: &mut Connection<S>,
    customer: &Name,
    name: &Name,
) -> Result<Vec<Row>, Error>
    requires { HasOffice (state S.Store conn.old) }
    ensures { SqlReads S.Store conn.old conn.new result (λ t rows. map joined_order rows.items
        ≡ filter (is_order customer.now name.now) t.orders) }
{
    conn.query_all(SELECT_ORDER, params![customer.as_str(), name.as_str()])
}

fn small_at(row: &Row, at: usize) -> Result<u8, Error>
    ensures { IfOk result (λ number. number ≡ number_in_cell (column row.now at)) }
{
    u8::try_from(whole_at(row, at)?).map_err(|_| DAMAGED)
}

fn macs_at(row: &Row, at: usize) -> Result<u8, Error>
    ensures { IfOk result (λ number. number ≡ number_in_cell (column row.now at)) }
{
    let macs = small_at(row, at)?;
    if macs <= LARGEST_MACS {
        Ok(macs)
    } else {
        Err(DAMAGED)
    }
}

fn range(prefix: &str, width: u8, first: u64, quantity: u64) -> Result<SerialRange, Error>
    ensures { IfOk result (λ range. range
        ≡ record { prefix = prefix.now; width = width; first = first; quantity = quantity }) }
{
    let has_width = 1 <= width && width <= 9;
    let has_quantity = 1 <= quantity && quantity <= LARGEST_QUANTITY;
    if !has_width || !has_quantity || LARGEST_WHOLE < first {
        return Err(DAMAGED);
    }
    SerialRange::new(prefix, width, first, quantity).map_err(|_| DAMAGED)
}

// The order that a row says, by the address and the beginning of validity that stand in it.
fn read_order(row: &Row, mac: Option<Mac>, not_before: Option<NotBefore>) -> Result<OrderRow, Error>
    requires mac { mac ≡ mac_if (column row.now 8) }
    requires not_before { not_before ≡ text_if (column row.now 10) }
    ensures { IfOk result (λ order. order ≡ joined_order row.now) }
{
    Ok(OfCustomer {
        customer: name_at(row, 0)?,
        row: Order {
            name: name_at(row, 1)?,
            issuer: name_at(row, 2)?,
            range: range(
                text_at(row, 3)?,
                small_at(row, 4)?,
                whole_at(row, 5)?,
                whole_at(row, 6)?,
            )?,
            macs: macs_at(row, 7)?,
            mac,
            cursor: whole_at(row, 9)?,
            not_before,
        },
    })
}

/// The row of an order.
pub fn order_row<S: Alter>(
    conn: &mut Connection<S>,
    customer: &Name,
    name: &Name,
) -> Result<Option<OrderRow>, Error>
    requires { HasOffice (state S.Store conn.old) }
    ensures { SqlReads S.Store conn.old conn.new result (λ t row. row
        ≡ order_at customer.now name.now t) }
{
    let rows = order_rows(conn, customer, name)?;
    first_row(rows.as_slice())
}

impl ReadRow for OrderRow {
    ghost reads = { joined_order };

    fn read_row(row: &Row) -> Result<OrderRow, Error> {
        let mac = mac_if_at(row, 8)?;
        let not_before = not_before_if_at(row, 10)?;
        read_order(row, mac, not_before)
    }
}

/// Hands a customer's orders to the sink, by name, while it goes on.
pub fn visit_orders<S: Alter, K: Sink<OrderRow>>(
    conn: &mut Connection<S>,
    customer: &Name,
    sink: &mut K,
) -> Result<(), Error>
    requires { HasOffice (state S.Store conn.old) }
    ensures { SqlReads S.Store conn.old conn.new result (λ t _.
        Visits K.takes sink.old (filter (is_of customer.now) t.orders) sink.new) }
{
    visit_rows::<S, OrderRow, K>(conn, SELECT_ORDERS, params![customer.as_str()], sink)
}

impl ReadRow for OrderClaim {
    ghost reads = { claim_in };

    fn read_row(row: &Row) -> Result<OrderClaim, Error> {
        let mac = mac_if_at(row, 6)?;
        read_claim(row, mac)
    }
}

// What the order of a row has taken, by the address that stands in it.
fn read_claim(row: &Row, mac: Option<Mac>) -> Result<OrderClaim, Error>
    requires { mac ≡ mac_if (column row.now 6) }
    ensures { IfOk result (λ claim. claim ≡ claim_in row.now) }
{
    Ok(OrderClaim {
        issuer: name_at(row, 0)?,
        range: range(
            text_at(row, 1)?,
            small_at(row, 2)?,
            whole_at(row, 3)?,
            whole_at(row, 4)?,
        )?,
        macs: macs_at(row, 5)?,
        mac,
    })
}

/// Hands what a customer's orders have taken to the sink, by name, while it goes on.
pub fn visit_claims<S: Alter, K: Sink<OrderClaim>>(
    conn: &mut Connection<S>,
    customer: &Name,
    sink: &mut K,
) -> Result<(), Error>
    requires { HasOffice (state S.Store conn.old) }
    ensures { SqlReads S.Store conn.old conn.new result (λ t _.
        Visits K.takes sink.old (map (λ o. claim_of o.row) (filter (is_of customer.now) t.orders)) sink.new) }
{
    visit_rows::<S, OrderClaim, K>(conn, SELECT_CLAIMS, params![customer.as_str()], sink)
}

// Adds the row of an order, with the text of its address.
fn insert_order<S: Alter>(
    tx: &mut Transaction<'_, S>,
    order: &OrderRow,
    address: &Option<String>,
) -> Result<usize, Error>
    requires schema { HasOfficeSchema (state S.Store tx.old.conn.now) }
    requires address_is { option_map (λ t. string_bytes t) address.now
        ≡ option_map spec.mac_text order.now.row.mac }
    ensures same_reference { tx.new.conn.ghost_name ≡ tx.old.conn.ghost_name }
    ensures changes { SqlWrites S.Store tx.old.conn.now tx.new.conn.now result (λ old new _.
        SqlAdds table.orders (order_columns order.now) old new) }
{
    let range = order.row.range;
    let prefix = range.prefix();
    let first = whole(range.first())?;
    let quantity = whole(range.quantity())?;
    let cursor = whole(order.row.cursor)?;
    tx.execute(
        INSERT_INTO_ORDERS,
        params![
            order.customer.as_str(),
            order.row.name.as_str(),
            order.row.issuer.as_str(),
            prefix.as_str(),
            u32::from(range.width()),
            first,
            quantity,
            u32::from(order.row.macs),
            address,
            cursor
        ],
    )
}

/// Adds an order, and its beginning of validity.
pub(crate) fn add_order<S: Alter>(
    alloc: Global,
    tx: &mut Transaction<'_, S>,
    order: &OrderRow,
) -> Result<(), Error>
    requires office { HasOffice (state S.Store tx.old.conn.now) }
    requires free { IsTrue (state S.Store tx.old.conn.now).is_open
        → IsFree (TheOrder order.now) (tables_in (state S.Store tx.old.conn.now).now.trees) }
    ensures same_reference { tx.new.conn.ghost_name ≡ tx.old.conn.ghost_name }
    ensures changes { SqlWrites S.Store tx.old.conn.now tx.new.conn.now result (λ old new _.
        Wrote (TheOrder order.now) old new) }
{
    let address = address_text(alloc, order.row.mac)?;
    insert_order(tx, order, &address)?;
    tx.execute(
        INSERT_INTO_ORDER_START,
        params![
            order.customer.as_str(),
            order.row.name.as_str(),
            not_before_text(&order.row.not_before)
        ],
    )?;
    Ok(())
}

// Sets the cursor of an order, and answers of how many.
fn update_cursor<S: Alter>(
    tx: &mut Transaction<'_, S>,
    cursor: &OfCustomer<Cursor>,
    number: i64,
) -> Result<usize, Error>
    requires office { HasOffice (state S.Store tx.old.conn.now) }
    requires number { number ≡ pos cursor.now.row.number }
    ensures same_reference { tx.new.conn.ghost_name ≡ tx.old.conn.ghost_name }
    ensures changes { SqlWrites S.Store tx.old.conn.now tx.new.conn.now result (λ old new count.
        count ≡ 1 → Wrote (TheCursor cursor.now) old new) }
{
    tx.execute(
        UPDATE_OF_CURSOR,
        params![cursor.customer.as_str(), cursor.row.order.as_str(), number],
    )
}

/// Sets the cursor of an order that is there.
pub(crate) fn set_cursor<S: Alter>(
    tx: &mut Transaction<'_, S>,
    cursor: &OfCustomer<Cursor>,
) -> Result<(), Error>
    requires office { HasOffice (state S.Store tx.old.conn.now) }
    ensures same_reference { tx.new.conn.ghost_name ≡ tx.old.conn.ghost_name }
    ensures changes { SqlWrites S.Store tx.old.conn.now tx.new.conn.now result (λ old new _.
        Wrote (TheCursor cursor.now) old new) }
{
    let number = whole(cursor.row.number)?;
    if update_cursor(tx, cursor, number)? != 1 {
        return Err(DAMAGED);
    }
    Ok(())
}
