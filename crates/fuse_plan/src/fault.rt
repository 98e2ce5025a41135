// The faults of wishes.
ghost use Rattle.std.specs.Prelude.{◌≡◌};
ghost use Rattle.fuse_plan.specs.Prelude.{plan_fault_number};

use thiserror::Error;

/// Why there is no plan for some wishes, in the order of the faults' numbers: where several hold, the
/// first is told.
#[derive(Clone, Copy, PartialEq, Eq, Debug, Error)]
pub enum PlanFault {
    /// The map has no field of that name (1).
    #[error("the map has no field of that name")]
    UnknownField,
    /// The field has no bit of that index (2).
    #[error("the field has no bit of that index")]
    UnmappedBit,
    /// The value has a 1 at or above the number of the field's bits (3).
    #[error("the value has more bits than the field")]
    ValueTooWide,
    /// A bit that is to be 0 is burnt (4).
    #[error("a bit that is to be 0 is burnt")]
    ClearsBurnt,
    /// A bit is to be 1 and 0, or a field is to hold two keys (5).
    #[error("the wishes contradict one another")]
    Contradiction,
    /// A key is wished for a plain field, a bit or a value for a key field, or a 1 for the coding
    /// field (6).
    #[error("the wish isn't of a kind that the field takes")]
    WrongKind,
    /// The key block is known to hold another key (7).
    #[error("the key block holds another key")]
    OtherKey,
    /// What is missing is write-protected, and can't be burnt any more (8).
    #[error("what is missing is write-protected")]
    WriteProtected,
    /// What is missing is read-protected, and couldn't be read back (9).
    #[error("what is missing is read-protected")]
    Hidden,
    /// The field has no such lock (10).
    #[error("the field has no such lock")]
    NoLock,
}

impl PlanFault {
    /// The number of the fault, 1 to 10.
    pub fn number(self) -> u8
        ensures { result ≡ plan_fault_number self }
    {
        match self {
            PlanFault::UnknownField => 1,
            PlanFault::UnmappedBit => 2,
            PlanFault::ValueTooWide => 3,
            PlanFault::ClearsBurnt => 4,
            PlanFault::Contradiction => 5,
            PlanFault::WrongKind => 6,
            PlanFault::OtherKey => 7,
            PlanFault::WriteProtected => 8,
            PlanFault::Hidden => 9,
            PlanFault::NoLock => 10,
        }
    }
}
