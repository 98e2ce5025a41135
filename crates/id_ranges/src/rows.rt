// The rows of an import.
ghost use Rattle.std.specs.Prelude.{◌≡◌};

use crate::KeyDigest;
use std::marker::Model;
use text_core::Serial;

/// One row of an import: a serial number of the issuer, and the digest of the key that it is given with.
#[derive(Clone, Copy, Drop)]
pub struct ImportRow {
    pub serial: Serial,
    pub key: KeyDigest,
}

/// The rows of an import, in the order of its text. Clauses see them as a list.
#[derive(Drop)]
pub struct ImportRows {
    rows: Vec<ImportRow>,
}

impl Model for ImportRows {
    ghost use Rattle.std.specs.Prelude.{List};
    ghost use Rattle.id_ranges.specs.declared.rows.ImportRow.{ImportRow};

    ghost Value = { List ImportRow };

    ghost view = { λ r. r.rows.items };
}

impl ImportRows {
    /// These rows.
    pub fn new(rows: Vec<ImportRow>) -> ImportRows
        ensures { result ≡ rows.items }
    {
        ImportRows { rows }
    }

    /// The rows in turn.
    pub fn as_slice(&self) -> &[ImportRow]
        ensures { result.now ≡ self.now }
    {
        self.rows.as_slice()
    }
}
