// The lowest free block of addresses.
ghost use Rattle.std.specs.Prelude.{◌≡◌, ◌<◌, ◌≤◌, ◌^◌, ℕ, true, false, find, Any, IfOk, OnErr, ok_or};
ghost use Rattle.id_ranges.specs.Blocks as spec;
ghost use Rattle.id_ranges.specs.Prelude.{is_free, starts, reserved_start, IsBlockWithin};

use crate::fault::RangeFault;
use crate::mac::Mac;
use crate::pool::MacPool;

/// The first address of a free block: `count` consecutive addresses within one pool, none of which
/// is in a reserved interval. An interval is its first address and its length. It is the lowest
/// free block of the first pool, in the order given, that has one. `NoMacRoom` where no pool has
/// one.
#[tactic(auto, using(crate::proofs::ReservedStart::pool_steps))]
pub fn reserve(pools: &[MacPool], reserved: &[(Mac, u64)], count: u64) -> Result<Mac, RangeFault>
    requires { 1 ≤ count }
    ensures exact { result
        ≡ ok_or (reserved_start pools.now reserved.now count) RangeFault.NoMacRoom }
    ensures within { IfOk result (λ first. Any (IsBlockWithin (first, count)) pools.now) }
    ensures free { IfOk result (λ first. is_free reserved.now count first ≡ true) }
    ensures full { OnErr result ((start : ℕ) → Any (IsBlockWithin (start, count)) pools.now
        → is_free reserved.now count start ≡ false) }
{
    for pool in pools {
        if let Some(start) = start_in(pool, reserved, count) {
            return Ok(start);
        }
    }
    Err(RangeFault::NoMacRoom)
}

/// The first address of the lowest free block of this pool.
fn start_in(pool: &MacPool, reserved: &[(Mac, u64)], count: u64) -> Option<Mac>
    requires { 1 ≤ count }
    ensures { result ≡ find (is_free reserved.now count) (starts count pool.now) }
{
    if pool.count() < count {
        return None;
    }
    let last = pool.first().value() + (pool.count() - count);
    let mut start = pool.first().value();
    while start <= last {
        let end = end_of_meeting(reserved, start, count);
        if end == start {
            return Some(Mac::new(start));
        }
        start = end;
    }
    None
}

/// The end of those intervals that one walk finds to meet the block of `count` addresses, which goes
/// from this address on, and from the end of each that it finds. The address itself where none
/// meets it.
fn end_of_meeting(reserved: &[(Mac, u64)], start: u64, count: u64) -> u64
    requires count { 1 ≤ count }
    requires below { start < 2 ^ 48 }
    ensures past { start ≤ result }
    ensures taken { (k : ℕ) → start ≤ k → k < result → is_free reserved.now count k ≡ false }
    ensures free { result ≡ start → is_free reserved.now count start ≡ true }
{
    let mut end = start;
    for interval in reserved {
        if meets(end, count, interval) {
            end = interval.0.value().saturating_add(interval.1);
        }
    }
    end
}

/// Whether an interval has an address of the block of `count` addresses from this one on.
fn meets(start: u64, count: u64, interval: &(Mac, u64)) -> bool
    requires { 1 ≤ count }
    ensures { result ≡ spec.blocks_overlap (start, count) interval.now }
{
    let (first, length) = *interval;
    let first = first.value();
    if first <= start {
        start - first < length
    } else {
        length != 0 && first - start < count
    }
}
