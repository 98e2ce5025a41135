// The identities that a seat can ask for, and the serial numbers that it can import.

use id_ranges::{ImportRows, KeyDigest};
use text_core::{Chip, Name};

/// A device that is to get its serial number, with the digest of its public key.
#[derive(Clone, Copy, Drop)]
pub struct NewIdentity {
    pub chip: Chip,
    pub key: KeyDigest,
}

/// Serial numbers that were handed out elsewhere.
#[derive(Drop)]
pub struct NewImport {
    /// The issuer of the serial numbers.
    pub issuer: Name,
    /// The serial numbers with their keys. `None` where a text isn't a serial number.
    pub rows: Option<ImportRows>,
}
