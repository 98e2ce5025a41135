//! Stores of schema 1 as the first programs wrote them: in their `given` an address is a key for itself, as
//! the format has it. All else is as in the store of schema 1.
use crate::earlier::Earlier;
use crate::samples::{OTHER_SITE, SITE, SITE_WITH_A_POOL};
use crate::schema_one::{BEFORE_GIVEN, BEHIND_GIVEN, LIFE, SHOWN};

/// `given` of the programs of 2026-11-23, which name the key behind the others.
const EARLIEST_GIVEN: &str =
    "CREATE TABLE given (issuer TEXT NOT NULL, serial TEXT NOT NULL, customer TEXT NOT NULL, key BLOB NOT NULL, chip TEXT, mac TEXT, not_after TEXT NOT NULL, PRIMARY KEY (issuer, serial), UNIQUE (issuer, key), UNIQUE (mac)) STRICT;\n";

/// `given` of the programs of 2026-11-24, which name it at the column.
const EARLY_GIVEN: &str =
    "CREATE TABLE given (issuer TEXT NOT NULL, serial TEXT NOT NULL, customer TEXT NOT NULL, key BLOB NOT NULL, chip TEXT, mac TEXT UNIQUE, not_after TEXT NOT NULL, PRIMARY KEY (issuer, serial), UNIQUE (issuer, key)) STRICT;\n";

/// A store of the former.
pub const EARLIEST: Earlier = Earlier {
    schema: 1,
    sql: &[BEFORE_GIVEN, EARLIEST_GIVEN, BEHIND_GIVEN],
    shown: SHOWN,
    life: LIFE,
};

/// A store of the latter.
pub const EARLY: Earlier = Earlier {
    schema: 1,
    sql: &[BEFORE_GIVEN, EARLY_GIVEN, BEHIND_GIVEN],
    shown: SHOWN,
    life: LIFE,
};

/// Changes of either store by SQL, the text of the site for which it is adopted then, and the number of the
/// fault, 0 where there is none.
pub const CHANGED_EARLY: &[(&str, &str, u8)] = &[
    ("", SITE, 0),
    ("", OTHER_SITE, 1),
    ("", SITE_WITH_A_POOL, 1),
    ("UPDATE meta SET schema = 2", SITE, 2),
    ("UPDATE ledger SET n = -1 WHERE id = 34", SITE, 2),
    ("CREATE INDEX address ON given (mac)", SITE, 2),
    ("DROP TABLE ledger; DROP TABLE given", SITE, 2),
];
