// Why a store isn't opened.
ghost use Rattle.std.specs.Prelude.{◌≡◌};
ghost use Rattle.office_store.specs.Prelude.{open_fault_number};
ghost use Rattle.office_store.specs.declared.fault.OpenFault.TheVariants as faults;

use sqlite::Error;
use thiserror::Error as Faulty;

/// Why a store isn't opened.
#[derive(Clone, Copy, Debug, PartialEq, Eq, Drop, Faulty)]
pub enum OpenFault {
    /// The store is of another site.
    #[error("the store is of another site")]
    OtherSite,
    /// The store has other tables than those of a version, tells of another one, doesn't tell the
    /// beginning of validity of an order or a record, or has one address in two records; or there is
    /// none, where none is to be made.
    #[error("the store has other tables")]
    OtherTables,
    /// The store failed, or there is no memory.
    #[error("the store failed, or there is no memory")]
    Failed,
}

impl From<Error> for OpenFault {
    ghost from_gives = { λ _ fault. fault ≡ faults.Failed };

    fn from(_: Error) -> OpenFault {
        OpenFault::Failed
    }
}

impl OpenFault {
    /// The number of the fault, 1 to 3, as the program's line tells it.
    pub fn number(self) -> u8
        ensures { result ≡ open_fault_number self }
    {
        match self {
            OpenFault::OtherSite => 1,
            OpenFault::OtherTables => 2,
            OpenFault::Failed => 3,
        }
    }
}
