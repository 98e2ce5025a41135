// The report of a customer.
ghost use Rattle.std.specs.Prelude.{◌≡◌, IfOk};
ghost use Rattle.office_tables.specs.Prelude.{ReadsOnly};
ghost use Rattle.yield_report.specs.Prelude.{IsOrderReport, lines_text};

use crate::lines::{OrderLine, whole_lines};
use crate::rows::{append_named, append_order_header};
use office_tables::Unkept;
use std::alloc::{AllocError, Global};
use text_core::Name;
use yield_counts::Count;

/// The text of a customer's report.
fn order_text(alloc: Global, lines: &[OrderLine]) -> Result<Vec<u8>, AllocError>
    ensures { IfOk result (λ text. text.items ≡ lines_text lines.now) }
{
    let mut text = Vec::new(alloc);
    append_order_header(alloc, &mut text)?;
    for line in lines {
        append_named(alloc, &mut text, &line.name, &line.numbers)?;
    }
    Ok(text)
}

/// The yield report of a customer as comma-separated text (RFC 4180): a header, and a line for each
/// of its orders, in the order of their names. A line says how many devices of the order are in each
/// state, and how many of its serial numbers are left. What is held are the orders and their lines,
/// about 300 bytes an order, and the text.
///
/// `Err` is want of memory, a keeper's fault, or a number past 9223372036854775807, and nothing else.
pub fn order_report<K: Count>(
    alloc: Global,
    keep: &mut K,
    customer: &Name,
) -> Result<Vec<u8>, Unkept>
    ensures { ReadsOnly K.Keep keep.old keep.new result (λ t text.
        IsOrderReport customer.now t text.items) }
{
    let lines = whole_lines(alloc, keep, customer)?;
    Ok(order_text(alloc, lines.as_slice())?)
}
