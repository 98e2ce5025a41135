// Look-ups of given serial numbers.
ghost use Rattle.std.specs.Prelude.{◌≡◌, ◌+◌, ◌≤◌, List, ℕ, Bool, IfOk, OnOk, OnErr, refl, ⊤};
ghost use Rattle.std.specs.BTreeSet.{contains};
ghost use Rattle.std.specs.Cmp.Lexicographic.{slice_cmp};
ghost use Rattle.std.specs.Ordering.{nat_cmp};
ghost use Rattle.id_ranges.specs.NextSerial.{EndsGiven};
ghost use Rattle.id_ranges.specs.Range.{Has};
ghost use Rattle.id_ranges.specs.declared.fault.RangeFault.TheVariants as faults;

use crate::fault::RangeFault;
use crate::serial_range::SerialRange;
use std::collections::BTreeSet;
use text_core::Serial;
use thiserror::Error;

/// A look-up had no answer.
#[derive(Clone, Copy, Debug, Error)]
#[error("a serial number couldn't be looked up")]
pub struct Unread;

impl From<Unread> for RangeFault {
    ghost from_gives = { λ _ fault. fault ≡ faults.Unread };

    fn from(_: Unread) -> RangeFault {
        RangeFault::Unread
    }
}

/// Tells which serial numbers are given, by a state that each look-up is lent: as a database that
/// keeps them, since no value holds a `&mut`.
pub trait Given<S> {
    /// The state can be relied on: what it tells is so.
    ghost is_honest: { Self → S → Type 0 };

    /// The serial numbers that are given, by a state.
    ghost tells: { Self → S → List ℕ → Bool };

    /// What look-ups that are answered, none or more of them, may make of a state.
    ghost looks: { Self → S → S → Type 0 };

    /// What one that isn't answered may make of it.
    ghost fails: { Self → S → S → Type 0 };

    /// An end of numbers that are given one behind another, from a number of the range on: the
    /// number itself where its serial number isn't given, and nowhere else.
    fn end_of_given(&self, state: &mut S, range: &SerialRange, number: u64) -> Result<u64, Unread>
        requires { Has range.now number }
        ensures ok { OnOk result (looks self.now state.old state.new) }
        ensures err { OnErr result (fails self.now state.old state.new) }
        ensures within { IfOk result (λ end. (number ≤ end)
            × (end ≤ range.now.first + range.now.quantity)) }
        ensures answer { is_honest self.now state.new → IfOk result (λ end.
            EndsGiven (tells self.now state.old) range.now number end) };

    /// To look nothing up leaves the state as it is.
    ghost none: { (g : Self) (s : S) → looks g s s };

    /// Look-ups and further ones are look-ups.
    ghost more: { (g : Self) (old mid new : S) → looks g old mid → looks g mid new
        → looks g old new };

    /// A state that is honest after look-ups was honest before them.
    ghost was_honest: { (g : Self) (old new : S) → looks g old new → is_honest g new
        → is_honest g old };

    /// Look-ups don't change what is given.
    ghost same: { (g : Self) (old new : S) → looks g old new → is_honest g new
        → tells g new ≡ tells g old };
}

/// A set in memory answers each look-up, and needs no state.
impl Given<()> for BTreeSet<Serial> {
    ghost is_honest = { λ _ _. ⊤ };

    ghost tells = { λ set _ text. contains (slice_cmp nat_cmp) set text };

    ghost looks = { λ _ _ _. ⊤ };

    ghost fails = { λ _ _ _. ⊥ };

    fn end_of_given(
        &self,
        _state: &mut (),
        range: &SerialRange,
        number: u64,
    ) -> Result<u64, Unread> {
        let end = range.first() + range.quantity();
        if self.contains(&range.text(number)) {
            Ok(end.min(number + 1))
        } else {
            Ok(number)
        }
    }

    ghost none = { λ _ _. tt };

    ghost more = { λ _ _ _ _ _ _. tt };

    ghost was_honest = { λ _ _ _ _ _. tt };

    ghost same = { λ _ _ _ _ _. refl };
}
