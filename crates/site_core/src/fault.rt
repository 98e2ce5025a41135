// The faults of a site's text.
ghost use Rattle.std.specs.Prelude.{◌≡◌};
ghost use Rattle.site_core.specs.Prelude.{site_fault_number, site_fault_of_document};
ghost use Rattle.site_core.specs.declared.fault.SiteFault.TheVariants.{OutOfMemory};

use members::DocumentFault;
use std::alloc::{AllocError, AllocFailed};
use thiserror::Error;

/// Why a text is no site, in the order of the faults' numbers: where several hold, the first is
/// told. A text of more than 1,048,576 bytes isn't read, and has the fault `OverLimit` alone.
#[derive(Clone, Copy, PartialEq, Eq, Debug, Error)]
pub enum SiteFault {
    /// The text is no TOML document (1).
    #[error("the text is no TOML document")]
    NotToml,
    /// A member is missing, or not of its type or range (2).
    #[error("a member is missing, or not of its type or range")]
    BadMember,
    /// A customer, an issuer, a seat or a token comes twice over the whole site (3).
    #[error("a customer, an issuer, a seat or a token comes twice")]
    Repeated,
    /// Two pools have an address in common (4).
    #[error("two pools have an address in common")]
    PoolsMeet,
    /// An address of a pool is a group address, or has more than 48 bits (5).
    #[error("an address of a pool is a group address, or has more than 48 bits")]
    BadPool,
    /// The text is too long, there are too many customers, or a customer has too many seats, issuers
    /// or pools (6).
    #[error("the text is too long, or there are too many customers, seats, issuers or pools")]
    OverLimit,
    /// Memory ran out (7).
    #[error("out of memory")]
    OutOfMemory,
}

impl SiteFault {
    /// The number of the fault, 1 to 7.
    pub fn number(self) -> u8
        ensures { result ≡ site_fault_number self }
    {
        match self {
            SiteFault::NotToml => 1,
            SiteFault::BadMember => 2,
            SiteFault::Repeated => 3,
            SiteFault::PoolsMeet => 4,
            SiteFault::BadPool => 5,
            SiteFault::OverLimit => 6,
            SiteFault::OutOfMemory => 7,
        }
    }
}

impl From<AllocError> for SiteFault {
    ghost from_gives = { λ _ fault. fault ≡ OutOfMemory };

    fn from(_error: AllocError) -> SiteFault {
        SiteFault::OutOfMemory
    }
}

impl<T: Drop> From<AllocFailed<T>> for SiteFault {
    ghost from_gives = { λ _ fault. fault ≡ OutOfMemory };

    fn from(_error: AllocFailed<T>) -> SiteFault {
        SiteFault::OutOfMemory
    }
}

impl From<DocumentFault> for SiteFault {
    ghost from_gives = { λ found fault. fault ≡ site_fault_of_document found };

    fn from(found: DocumentFault) -> SiteFault {
        match found {
            DocumentFault::NotDocument => SiteFault::NotToml,
            DocumentFault::OutOfMemory => SiteFault::OutOfMemory,
        }
    }
}
