// The report of a site.
ghost use Rattle.std.specs.Prelude.{◌≡◌, ◌↔◌, ◌<◌, ⊤, IfSome, IsSome};
ghost use Rattle.office_tables.specs.Prelude.{ReadsOnly};
ghost use Rattle.yield_report.specs.Prelude.{number_count, sum_at, total, customer_line_in, IsSiteReport, numbers_in, with_report_row, FitsCustomer, storable};
ghost use Rattle.yield_report.specs.Prelude.{AreStorable};

use crate::lines::{OrderLine, whole_lines};
use crate::names::customer_names;
use crate::rows::{append_customer, append_site_header};
use crate::yields::{NUMBERS, Yield};
use office_tables::{Keep, LARGEST_NUMBER, Unkept};
use site_core::Site;
use std::alloc::Global;
use text_core::Name;
use yield_counts::Count;

/// The sum of the numbers of all lines at a place. `None` where the tables have no room for it.
fn sum_at(lines: &[OrderLine], place: usize) -> Option<u64>
    requires { place < number_count }
    ensures { result ≡ storable (sum_at (numbers_in lines.now) place) }
{
    let mut sum: u64 = 0;
    for line in lines {
        sum = sum.saturating_add(line.numbers[place]);
    }
    if sum <= LARGEST_NUMBER {
        Some(sum)
    } else {
        None
    }
}

/// The sums of the numbers of all lines. `None` where the tables have no room for one of them.
fn total(lines: &[OrderLine]) -> Option<Yield>
    ensures sums { IfSome result (λ sums. sums ≡ total (numbers_in lines.now)) }
    ensures fits { IsSome result ↔ AreStorable (total (numbers_in lines.now)) }
{
    let mut sums = [0; NUMBERS];
    for place in 0..NUMBERS {
        sums[place] = sum_at(lines, place)?;
    }
    Some(sums)
}

/// Asks whether the store is open, by a look-up of the map with the number 0, so that the report of
/// a site without customers asks it too.
fn ask_open<K: Keep>(keep: &mut K) -> Result<(), Unkept>
    ensures { ReadsOnly K.Keep keep.old keep.new result (λ _ _. ⊤) }
{
    keep.map(0)?;
    Ok(())
}

/// Appends the line of a customer.
fn append_line<K: Count>(
    alloc: Global,
    keep: &mut K,
    text: &mut Vec<u8>,
    customer: &Name,
) -> Result<(), Unkept>
    ensures { ReadsOnly K.Keep keep.old keep.new result (λ t _.
        (text.new.items ≡ with_report_row text.old.items (customer_line_in t customer.now))
        × FitsCustomer t customer.now) }
{
    let lines = whole_lines(alloc, keep, customer)?;
    let count = lines.len() as u64;
    if count > LARGEST_NUMBER {
        return Err(Unkept::without_error());
    }
    let Some(sums) = total(lines.as_slice()) else {
        return Err(Unkept::without_error());
    };
    append_customer(alloc, text, customer, count, &sums)?;
    Ok(())
}

/// The manager's yield report of a site as comma-separated text (RFC 4180): a header, and a line
/// for each of its customers, in the order of their names. A line says how many orders the customer
/// has, and the sums of the numbers of its orders. What is held are the orders and lines of one
/// customer, about 300 bytes an order, and the text.
///
/// `Err` is want of memory, a keeper's fault, or a number past 9223372036854775807, and nothing else.
pub fn site_report<K: Count>(alloc: Global, keep: &mut K, site: &Site) -> Result<Vec<u8>, Unkept>
    ensures { ReadsOnly K.Keep keep.old keep.new result (λ t text.
        IsSiteReport site.now t text.items) }
{
    ask_open(keep)?;
    let names = customer_names(alloc, site)?;
    let mut text = Vec::new(alloc);
    append_site_header(alloc, &mut text)?;
    for customer in &names {
        append_line(alloc, keep, &mut text, customer)?;
    }
    Ok(text)
}
