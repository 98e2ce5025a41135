// The numbers of a line of a report.
ghost use Rattle.std.specs.Prelude.{◌≡◌, ◌↔◌, true};
ghost use Rattle.yield_report.specs.Prelude.{AreStorable};

use office_tables::LARGEST_NUMBER;
use yield_counts::COLUMNS;

/// How many numbers a line has: the quantity, one a column of states, and how many serial numbers are
/// left.
pub(crate) const NUMBERS: usize = COLUMNS + 2;

/// The numbers of a line of a report, in the order of their names: those of one order, or the sums
/// over a customer's orders. In a report none is past 9223372036854775807.
pub(crate) type Yield = [u64; NUMBERS];

/// The names of the numbers, in their order.
pub(crate) const NAMES: [&str; NUMBERS] = [
    // how many serial numbers there are, which are as many as the devices that were ordered
    "quantity",
    // how many devices are registered and not planned yet
    "registered",
    // how many devices await either batch of their plan
    "planned",
    // how many devices have nothing pending and no serial number yet
    "settled",
    // how many devices have a serial number and aren't shipped yet
    "identified",
    // how many devices are shipped
    "shipped",
    // how many devices are quarantined, for whatever reason
    "quarantined",
    // how many devices are scrapped
    "scrapped",
    // how many of the serial numbers aren't given in their issuer, whoever gave the others
    "serials_left",
];

/// Whether the tables have room for all numbers of a line.
pub(crate) fn are_storable(numbers: &Yield) -> bool
    ensures { (result ≡ true) ↔ AreStorable numbers.now }
{
    for number in numbers {
        if *number > LARGEST_NUMBER {
            return false;
        }
    }
    true
}
