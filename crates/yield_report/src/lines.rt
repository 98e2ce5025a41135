// The lines of a report, one for each order.
ghost use Rattle.std.specs.Prelude.{◌≡◌, ◌↔◌, map, IfSome, IsSome};
ghost use Rattle.office_tables.specs.Prelude.{rows_of, ReadsOnly};
ghost use Rattle.yield_report.specs.Prelude.{has_issued_in, head_of, line_of, line_with, AreStorable, AreWhole, GathersOrder};

use crate::yields::{Yield, are_storable};
use id_ranges::SerialRange;
use office_tables::{Keep, Order, OrderRow, Sink, Unkept};
use std::alloc::Global;
use text_core::Name;
use yield_counts::{Count, OrderCounts};

/// An order with its numbers.
#[derive(Clone, Copy, Drop)]
pub(crate) struct OrderLine {
    pub(crate) name: Name,
    pub(crate) numbers: Yield,
}

/// What a line is of.
#[derive(Clone, Copy, Drop)]
struct OrderHead {
    name: Name,
    issuer: Name,
    range: SerialRange,
}

/// The orders that were met so far.
#[derive(Drop)]
struct OrderScan {
    orders: Vec<OrderHead>,
    /// There was no memory for an order.
    failed: Option<Unkept>,
}

impl Sink<OrderRow> for OrderScan {
    ghost takes = { GathersOrder };

    fn take(&mut self, row: &OrderRow) -> bool {
        if let Err(refused) = self.orders.push(head_of(&row.row)) {
            self.failed = Some(Unkept::from(refused));
            return false;
        }
        true
    }
}

/// What the line of an order is of.
fn head_of(order: &Order) -> OrderHead
    ensures { result ≡ head_of order.now }
{
    OrderHead {
        name: order.name,
        issuer: order.issuer,
        range: order.range,
    }
}

/// What the lines of a customer's orders are of, in the order of their names.
fn orders_of<K: Keep>(
    alloc: Global,
    keep: &mut K,
    customer: &Name,
) -> Result<Vec<OrderHead>, Unkept>
    ensures { ReadsOnly K.Keep keep.old keep.new result (λ t orders.
        orders.items ≡ map head_of (rows_of customer.now t.orders)) }
{
    let mut scan = OrderScan {
        orders: Vec::new(alloc),
        failed: None,
    };
    keep.visit_orders(customer, &mut scan)?;
    match scan.failed {
        None => Ok(scan.orders),
        Some(unkept) => Err(unkept),
    }
}

/// The line of an order, by what is counted of it. `None` where the tables have no room for a number.
fn line_with(order: &OrderHead, counts: &OrderCounts) -> Option<OrderLine>
    ensures line { IfSome result (λ line. line ≡ line_with order.now counts.now) }
    ensures fits { IsSome result ↔ AreStorable (line_with order.now counts.now).numbers }
{
    let in_column = counts.devices;
    let numbers = [
        order.range.quantity(),
        in_column[0],
        in_column[1],
        in_column[2],
        in_column[3],
        in_column[4],
        in_column[5],
        in_column[6],
        counts.left,
    ];
    if !are_storable(&numbers) {
        return None;
    }
    Some(OrderLine {
        name: order.name,
        numbers,
    })
}

/// The line of a customer's order. `Err` also where the tables have no room for a number.
fn order_line<K: Count>(
    keep: &mut K,
    customer: &Name,
    order: &OrderHead,
) -> Result<OrderLine, Unkept>
    ensures { ReadsOnly K.Keep keep.old keep.new result (λ t line.
        (line ≡ line_of (has_issued_in t) (rows_of customer.now t.devices) order.now)
        × AreStorable line.numbers) }
{
    let counts = keep.count_order(customer, &order.name, &order.issuer, &order.range)?;
    match line_with(order, &counts) {
        Some(line) => Ok(line),
        None => Err(Unkept::without_error()),
    }
}

/// A line for each of a customer's orders, in the order of their names, with all its numbers.
pub(crate) fn whole_lines<K: Count>(
    alloc: Global,
    keep: &mut K,
    customer: &Name,
) -> Result<Vec<OrderLine>, Unkept>
    ensures { ReadsOnly K.Keep keep.old keep.new result (λ t lines.
        AreWhole customer.now t lines.items) }
{
    let orders = orders_of(alloc, keep, customer)?;
    let mut lines = Vec::new(alloc);
    for order in &orders {
        lines.push(order_line(keep, customer, order)?)?;
    }
    Ok(lines)
}
