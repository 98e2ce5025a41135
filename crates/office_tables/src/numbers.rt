// The whole numbers that a table has room for.
ghost use Rattle.std.specs.Prelude.{◌≡◌};
ghost use Rattle.office_tables.specs.Prelude.{one_more};

/// The largest whole number that a table has room for.
pub const LARGEST_NUMBER: u64 = 9223372036854775807;

/// One more, where a table has room for it.
pub fn one_more(number: u64) -> Option<u64>
    ensures { result ≡ one_more number }
{
    if number < LARGEST_NUMBER {
        Some(number + 1)
    } else {
        None
    }
}
