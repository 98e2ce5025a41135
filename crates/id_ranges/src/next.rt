// The next serial number of a range.
ghost use Rattle.std.specs.Prelude.{◌≡◌, IfOk, ok_or};
ghost use Rattle.std.specs.BTreeSet.{contains};
ghost use Rattle.std.specs.Cmp.Lexicographic.{slice_cmp};
ghost use Rattle.std.specs.Ordering.{nat_cmp};
ghost use Rattle.text_core.specs.Prelude.{GivesUnless};
ghost use Rattle.id_ranges.specs.Prelude.{Looked, IsOneFrom};
ghost use Rattle.id_ranges.specs.NextSerial as spec;

use crate::fault::RangeFault;
use crate::look_up::Given;
use crate::serial_range::SerialRange;
use std::collections::BTreeSet;
use text_core::Serial;

/// The least of the range's numbers that isn't below the cursor and whose serial number isn't given,
/// with its serial number. `Exhausted` where there is none, and `Unread` where a look-up had no
/// answer, and only there. It takes no memory.
///
/// That is so where the state is honest afterwards. Wherever it isn't, the state was still changed by
/// look-ups alone, and an answer is still a number of the range that isn't below the cursor.
pub fn next_serial_from<S, G: Given<S>>(
    range: &SerialRange,
    cursor: u64,
    given: &G,
    state: &mut S,
) -> Result<(u64, Serial), RangeFault>
    ensures looked { Looked (G.looks given.now) (G.fails given.now) state.old state.new result }
    ensures within { IfOk result (IsOneFrom cursor range.now) }
    ensures exact { G.is_honest given.now state.new
        → GivesUnless RangeFault.Unread result
        (ok_or (spec.next_serial_from cursor (G.tells given.now state.old) range.now) RangeFault.Exhausted) }
{
    let end = range.first() + range.quantity();
    let mut number = range.first().max(cursor);
    while number < end {
        let past = given.end_of_given(state, range, number)?;
        if past == number {
            return Ok((number, range.text(number)));
        }
        number = past;
    }
    Err(RangeFault::Exhausted)
}

/// The least of the range's numbers whose serial number isn't in the set, with its serial number.
/// `Exhausted` where there is none. It takes no memory.
pub fn next_serial(
    range: &SerialRange,
    given: &BTreeSet<Serial>,
) -> Result<(u64, Serial), RangeFault>
    ensures { result ≡ ok_or (spec.next_serial (contains (slice_cmp nat_cmp) given.now) range.now)
        RangeFault.Exhausted }
{
    next_serial_from(range, 0, given, &mut ())
}
