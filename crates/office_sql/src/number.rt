// Whole numbers on their way into a table.
ghost use Rattle.std.specs.Prelude.{◌≡◌, pos, IfOk};

use sqlite::{Error, ErrorCode};

/// The number as an INTEGER, which is at most 9,223,372,036,854,775,807.
pub(crate) fn whole(number: u64) -> Result<i64, Error>
    ensures { IfOk result (λ value. value ≡ pos number) }
{
    i64::try_from(number).map_err(|_| Error::SqliteFailure(ErrorCode::TooBig))
}
