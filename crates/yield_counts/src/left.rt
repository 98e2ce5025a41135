// The ranges of serial numbers that were counted.
ghost use Rattle.std.specs.Prelude.{◌≡◌, List, All, IfSome, map, true};
ghost use Rattle.id_ranges.specs.Prelude.{TextSet};
ghost use Rattle.yield_counts.specs.Counts.{count_unused, HasIssued};
ghost use Rattle.yield_counts.specs.Left.{less_one, AgreeOff, AreLeft, AreLeftOf, IsGivenToo};

use crate::serials::has_serial;
use id_ranges::SerialRange;
use std::alloc::Global;
use std::collections::BTreeMap;
use text_core::{Name, Serial};

/// A range of serial numbers of an issuer, and how many of them aren't given in it.
#[derive(Clone, Copy, Drop)]
pub(crate) struct RangeLeft {
    range: SerialRange,
    left: u64,
}

/// The ranges that were counted, by issuer. Another range is to be counted.
#[derive(Drop)]
pub(crate) struct LeftCounts {
    alloc: Global,
    issuers: BTreeMap<Name, Vec<RangeLeft>>,
}

/// Whether two ranges are one.
fn is_range(one: &SerialRange, other: &SerialRange) -> bool
    ensures { result ≡ true → one.now ≡ other.now }
{
    one.prefix() == other.prefix()
        && one.width() == other.width()
        && one.first() == other.first()
        && one.quantity() == other.quantity()
}

/// How many serial numbers of a range aren't given, if the range was counted.
fn left_in(ranges: &[RangeLeft], range: &SerialRange) -> Option<u64>
    ensures { (given : TextSet) → AreLeftOf given ranges.now
        → IfSome result (λ left. left ≡ count_unused given range.now) }
{
    for one in ranges {
        if is_range(&one.range, range) {
            return Some(one.left);
        }
    }
    None
}

/// Counts that one more serial number is given, where it is one of the range.
fn take_one(one: &mut RangeLeft, serial: &Serial)
    ensures { one.new ≡ less_one serial.now one.old }
{
    if has_serial(&one.range, serial) {
        one.left = one.left.saturating_sub(1);
    }
}

/// Counts that one more serial number is given.
fn take_in(ranges: &mut Vec<RangeLeft>, serial: &Serial)
    ensures { ranges.new.items ≡ map (less_one serial.now) ranges.old.items }
{
    for one in ranges.iter_mut() {
        take_one(one, serial);
    }
}

impl LeftCounts {
    /// No range was counted. This takes no memory.
    pub(crate) fn new(alloc: Global) -> LeftCounts
        ensures { (given : HasIssued) → AreLeft given result }
    {
        LeftCounts {
            alloc,
            issuers: BTreeMap::new(alloc),
        }
    }

    /// How many serial numbers of a range aren't given in an issuer, if the range was counted.
    pub(crate) fn of_range(&self, issuer: &Name, range: &SerialRange) -> Option<u64>
        ensures { (given : HasIssued) → AreLeft given self.now
            → IfSome result (λ left. left ≡ count_unused (given issuer.now) range.now) }
    {
        match self.issuers.get(issuer) {
            Some(ranges) => left_in(ranges, range),
            None => None,
        }
    }

    /// Keeps the number of a range, if there is memory for it.
    pub(crate) fn keep(&mut self, issuer: &Name, range: &SerialRange, left: u64)
        ensures { (given : HasIssued) → AreLeft given self.old
            → left ≡ count_unused (given issuer.now) range.now → AreLeft given self.new }
    {
        let mut ranges = self.take_out(issuer);
        // A range's width says that the range is one.
        let _width = range.width();
        let one = RangeLeft {
            range: *range,
            left,
        };
        if let Ok(()) = ranges.push(one) {
            self.put(issuer, ranges);
        }
    }

    /// Takes the ranges of an issuer out, which are to be counted then.
    fn take_out(&mut self, issuer: &Name) -> Vec<RangeLeft>
        ensures ranges { (given : HasIssued) → AreLeft given self.old
            → AreLeftOf (given issuer.now) result.items }
        ensures others { (given after : HasIssued) → AreLeft given self.old
            → AgreeOff issuer.now given after → AreLeft after self.new }
    {
        match self.issuers.remove(issuer) {
            Some(ranges) => ranges,
            None => Vec::new(self.alloc),
        }
    }

    /// Keeps the ranges of an issuer, if there is memory for them.
    fn put(&mut self, issuer: &Name, ranges: Vec<RangeLeft>)
        ensures { (given : HasIssued) → AreLeft given self.old
            → AreLeftOf (given issuer.now) ranges.items → AreLeft given self.new }
    {
        match self.issuers.insert(*issuer, ranges) {
            Ok(_) => {}
            Err(_) => {}
        }
    }

    /// Counts that a serial number is given in an issuer, where it wasn't.
    pub(crate) fn take(&mut self, issuer: &Name, serial: &Serial)
        ensures { (given after : HasIssued) → IsGivenToo issuer.now serial.now given after
            → AreLeft given self.old → AreLeft after self.new }
    {
        let mut ranges = self.take_out(issuer);
        take_in(&mut ranges, serial);
        self.put(issuer, ranges);
    }
}
