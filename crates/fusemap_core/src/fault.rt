// The faults of a map's text.
ghost use Rattle.std.specs.Prelude.{◌≡◌};
ghost use Rattle.fusemap_core.specs.Prelude.{map_fault_number, map_fault_of_document};
ghost use Rattle.fusemap_core.specs.declared.fault.MapFault.TheVariants.{OutOfMemory};

use members::DocumentFault;
use std::alloc::{AllocError, AllocFailed};
use thiserror::Error;

/// Why a text is no fuse map, in the order of the faults' numbers: where several hold, the first is
/// told. A text of more than 32,768 bytes isn't read, and has the fault `BadMember` alone.
#[derive(Clone, Copy, PartialEq, Eq, Debug, Error)]
pub enum MapFault {
    /// The text is no TOML document (1).
    #[error("the text is no TOML document")]
    NotToml,
    /// The text is too long, or a member is missing, or not of its type or range (2).
    #[error("the text is too long, or a member is missing, or not of its type or range")]
    BadMember,
    /// Two fields have one name (3).
    #[error("two fields have one name")]
    NameTwice,
    /// A field lies in no block, or ends after its block's last bit (4).
    #[error("a field lies in no block, or ends after its block's last bit")]
    OutOfBlock,
    /// Two fields have a position in common (5).
    #[error("two fields have a position in common")]
    FieldsOverlap,
    /// A lock field or the coding field isn't there, is a key field or is another of the three, or
    /// a lock field has a read lock (6).
    #[error("a lock field or the coding field isn't one that can be it")]
    BadLockField,
    /// The number of a lock isn't that of a bit of its lock field (7).
    #[error("the number of a lock isn't that of a bit of its lock field")]
    BadLockIndex,
    /// A key field isn't a whole block of 8 words, or lacks a lock (8).
    #[error("a key field isn't a whole block of 8 words, or lacks a lock")]
    BadKeyField,
    /// Memory ran out (9).
    #[error("out of memory")]
    OutOfMemory,
}

impl MapFault {
    /// The number of the fault, 1 to 9.
    pub fn number(self) -> u8
        ensures { result ≡ map_fault_number self }
    {
        match self {
            MapFault::NotToml => 1,
            MapFault::BadMember => 2,
            MapFault::NameTwice => 3,
            MapFault::OutOfBlock => 4,
            MapFault::FieldsOverlap => 5,
            MapFault::BadLockField => 6,
            MapFault::BadLockIndex => 7,
            MapFault::BadKeyField => 8,
            MapFault::OutOfMemory => 9,
        }
    }
}

impl From<AllocError> for MapFault {
    ghost from_gives = { λ _ fault. fault ≡ OutOfMemory };

    fn from(_error: AllocError) -> MapFault {
        MapFault::OutOfMemory
    }
}

impl<T: Drop> From<AllocFailed<T>> for MapFault {
    ghost from_gives = { λ _ fault. fault ≡ OutOfMemory };

    fn from(_error: AllocFailed<T>) -> MapFault {
        MapFault::OutOfMemory
    }
}

impl From<DocumentFault> for MapFault {
    ghost from_gives = { λ found fault. fault ≡ map_fault_of_document found };

    fn from(found: DocumentFault) -> MapFault {
        match found {
            DocumentFault::NotDocument => MapFault::NotToml,
            DocumentFault::OutOfMemory => MapFault::OutOfMemory,
        }
    }
}
