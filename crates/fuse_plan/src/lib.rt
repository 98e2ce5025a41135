//! Plans of burning fuses: what wishes ask for in two batches, or the lowest fault of the wishes;
//! and the verdict of a read-back, which compares what a chip shows with what was to be burnt.
//! Nothing here takes memory. `plan`, `fits`, `redact` and `compare` are all that a tool for fuses
//! needs.
//!
//! `plan` gives the work of some wishes on a chip, or the lowest of the ten faults of the wishes.
//! The work is what the chip lacks of the wishes, in two batches: the bits of the lock fields are
//! in the second one, all else, with the keys, is in the first. It is exact both ways: there is a
//! plan exactly where no fault holds, and it burns what is missing and nothing else.
//!
//! `compare` gives the verdict of a read-back on a batch (lost, stray, key, short with its rest, or
//! match) and what is known to be burnt after it. Neither has a premise on the image.
//!
//! Laws:
//!
//! - Where the batch stays readable, the verdict is a match exactly where the read-back is what the
//!   chip shows once the whole batch is burnt (`match_law`).
//! - A plan is pending work on its chip (`plan_law`), and so is what a read-back leaves of it
//!   (`first_rest_law`, `second_rest_law`, `rest_law`, `rests_in_map`).
//! - No read lock hides a lock field (`locks_show`).
//!
//! `Number::parse` reads exactly 1 to 64 hexadecimal digits.
#![tactic(auto)]

mod comparison;
mod fault;
mod faults;
mod fields;
mod laws;
mod number;
mod planner;
mod values;
mod verdict;
mod wants;
mod wish;

pub use comparison::compare;
pub use fault::PlanFault;
pub use fuse_image::{ReadBack, fits, has_coding_scheme, redact, shows_what_is_hidden};
pub use laws::{
    batch_laws, first_rest_law, locks_show, match_law, plan_law, rest_law, rests_in_map,
    second_rest_law,
};
pub use number::Number;
pub use planner::plan;
pub use verdict::{ChipFault, Verdict};
pub use wish::{Want, Wish};
