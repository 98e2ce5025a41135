// What is counted of an order, and who knows it.
ghost use Rattle.std.specs.Prelude.{◌≡◌, ◌≤◌, ◌^◌, IfNone, IfSome};
ghost use Rattle.office_tables.specs.Prelude.{LooksUp};
ghost use Rattle.yield_counts.specs.Counts.{places_in, AreCountsOf};

use id_ranges::SerialRange;
use office_tables::{Keep, Unkept};
use text_core::Name;

/// How many columns of states there are.
pub const COLUMNS: usize = 7;

/// How many devices are in each column of states.
pub type Columns = [u64; COLUMNS];

/// How many columns have devices that take a place of their order: all but the last two, of the
/// quarantined and of the scrapped ones.
const PLACED_COLUMNS: usize = 5;

/// How many devices of these columns take a place of their order, if 64 bits count them.
pub(crate) fn places_in(numbers: &Columns) -> Option<u64>
    ensures places { IfSome result (λ places. places ≡ places_in numbers.now) }
    ensures fits { IfNone result (2 ^ 64 ≤ places_in numbers.now) }
{
    let mut places: u64 = 0;
    for number in &numbers[..PLACED_COLUMNS] {
        places = places.checked_add(*number)?;
    }
    Some(places)
}

/// What is counted of an order.
#[derive(Clone, Copy, Drop)]
pub struct OrderCounts {
    /// How many of its devices are in each column of states.
    pub devices: Columns,
    /// How many of its serial numbers aren't given in their issuer, whoever gave the others.
    pub left: u64,
}

/// A keeper that counts.
pub trait Count: Keep {
    /// What is counted of a customer's order with this name, whose serial numbers are a range of an
    /// issuer.
    fn count_order(
        &mut self,
        customer: &Name,
        order: &Name,
        issuer: &Name,
        range: &SerialRange,
    ) -> Result<OrderCounts, Unkept>
        ensures { LooksUp Self.is_open Self.is_honest Self.may_leave Self.tells_text Self.tables
            Self.commits self.old self.new result
            (λ t counts. AreCountsOf customer.now order.now issuer.now range.now t counts) };
}
