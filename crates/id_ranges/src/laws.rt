// What holds of ranges and their serial numbers.
ghost use Rattle.id_ranges.specs.Prelude.{MeetsIsTested, TextsAreSerials, NumbersDiffer, WidthsDiffer, NextIsLeast, NoneIsLeft, CursorSkipsIssued};

/// The test whether two ranges meet says whether they are of one prefix and width and have a number in
/// common.
pub fn meets_is_tested()
    ensures { MeetsIsTested }
{}

/// Each number of a range has a serial number of its own, of 1 to 64 capital letters, digits and
/// hyphens, and ranges of one prefix and two widths have none in common.
pub fn serials_are_distinct()
    ensures serials { TextsAreSerials }
    ensures numbers { NumbersDiffer }
    ensures widths { WidthsDiffer }
{}

/// The next serial number is that of the least number that isn't below the cursor and isn't given,
/// and there is none just where there is no such number.
pub fn next_is_least()
    ensures next { NextIsLeast }
    ensures none { NoneIsLeft }
{}

/// A cursor that skips given serial numbers alone changes no next serial number.
pub fn cursor_skips_given()
    ensures { CursorSkipsIssued }
{}
