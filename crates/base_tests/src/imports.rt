//! Texts of imports, and the rows that are read from them.

use id_ranges::{ImportRow, KeyDigest, read_rows};
use std::alloc::Global;

/// What stands for a part of a text: `H` for the header, `#` and `%` for the digests of the messages
/// `abc` and `hello`, `@` for the first in capital letters, and `!` for 63 of its digits.
const PARTS: &[(&str, &str)] = &[
    ("H", "serial,key_sha256"),
    ("#", ABC),
    ("%", HELLO),
    (
        "@",
        "BA7816BF8F01CFEA414140DE5DAE2223B00361A396177A9CB410FF61F20015AD",
    ),
    (
        "!",
        "ba7816bf8f01cfea414140de5dae2223b00361a396177a9cb410ff61f20015a",
    ),
];

const ABC: &str = "ba7816bf8f01cfea414140de5dae2223b00361a396177a9cb410ff61f20015ad";

const HELLO: &str = "2cf24dba5fb0a30e26e83b2ac5b9e29e1b161e5c1fa7425e73043362938b9824";

/// A serial number of 64 characters.
const LONGEST: &str = "0123456789-0123456789-0123456789-0123456789-0123456789-012345678";

/// Serial numbers, each with its key.
type Rows = &'static [(&'static str, &'static str)];

/// What a text is read as: its rows, `Some(None)` for a bad serial number, and `None` for no import.
type Told = Option<Option<Rows>>;

const NO_IMPORT: Told = None;

const BAD_SERIAL: Told = Some(None);

const NO_ROWS: Told = Some(Some(&[]));

const ONE: Told = Some(Some(&[("Z1", ABC)]));

const TWO: Told = Some(Some(&[("Z1", ABC), ("Z2", HELLO)]));

const IMPORTS: &[(&str, Told)] = &[
    ("H\nZ1,#\n", ONE),
    ("H\nZ1,#", ONE),
    ("H\nZ1,@\n", ONE),
    ("H\nZ1,#\nZ2,%\n", TWO),
    ("H\r\nZ1,#\r\nZ2,%\r\n", TWO),
    (
        "H\nZ2,%\nZ2,%\n",
        Some(Some(&[("Z2", HELLO), ("Z2", HELLO)])),
    ),
    ("\"serial\",\"key_sha256\"\n\"Z1\",\"#\"\nZ2,\"%\"\n", TWO),
    ("\n\nH\n\n\nZ1,#\n\n", ONE),
    ("\u{feff}H\nZ1,#\n", ONE),
    ("\u{feff}\u{feff}H\nZ1,#\n", NO_IMPORT),
    (
        "H\n0123456789-0123456789-0123456789-0123456789-0123456789-012345678,#\n",
        Some(Some(&[(LONGEST, ABC)])),
    ),
    ("H", NO_ROWS),
    ("H\n", NO_ROWS),
    ("H\r\n", NO_ROWS),
    ("", NO_IMPORT),
    ("\n", NO_IMPORT),
    ("\u{feff}", NO_IMPORT),
    ("Z1,#\n", NO_IMPORT),
    ("serial,key\nZ1,#\n", NO_IMPORT),
    ("key_sha256,serial\n#,Z1\n", NO_IMPORT),
    ("Serial,key_sha256\nZ1,#\n", NO_IMPORT),
    (" H\nZ1,#\n", NO_IMPORT),
    ("serial\n", NO_IMPORT),
    ("H,\n", NO_IMPORT),
    ("H\nZ1\n", NO_IMPORT),
    ("H\nZ1,#,\n", NO_IMPORT),
    ("H\nZ1,#\nZ2,%,Z3\n", NO_IMPORT),
    ("H\nZ1,!\n", NO_IMPORT),
    ("H\nZ1,#0\n", NO_IMPORT),
    ("H\nZ1,!g\n", NO_IMPORT),
    ("H\nZ1,\n", NO_IMPORT),
    ("H\nZ1, #\n", NO_IMPORT),
    ("H\na,#\nZ1,!\n", NO_IMPORT),
    ("H\na,#\nZ1\n", NO_IMPORT),
    ("H\na,#\n", BAD_SERIAL),
    ("H\nZ1,#\na,%\nZ2,%\n", BAD_SERIAL),
    ("H\n,#\n", BAD_SERIAL),
    ("H\n Z1,#\n", BAD_SERIAL),
    ("H\n\"Z,1\",#\n", BAD_SERIAL),
    ("H\n\u{e9},#\n", BAD_SERIAL),
    (
        "H\n0123456789-0123456789-0123456789-0123456789-0123456789-0123456789,#\n",
        BAD_SERIAL,
    ),
];

/// How many rows a text has, and how many are read of it, if it is an import.
const COUNTS: &[(usize, Option<usize>)] = &[(500, Some(500)), (501, None), (700, None)];

/// The text with its parts in the place of what stands for them.
fn filled(alloc: Global, text: &str) -> Option<String> {
    let mut filled = String::from_str(alloc, text).ok()?;
    for part in PARTS {
        filled = filled.replace(alloc, part.0, part.1).ok()?;
    }
    Some(filled)
}

/// Whether these are the rows.
fn are_rows(rows: &[ImportRow], wanted: &[(&str, &str)]) -> bool {
    if rows.len() != wanted.len() {
        return false;
    }
    for index in 0..rows.len() {
        let (serial, key) = wanted[index];
        let row = rows[index];
        if row.serial.as_str() != serial || KeyDigest::parse(key) != Some(row.key) {
            return false;
        }
    }
    true
}

/// Whether a text is read so.
fn is_told(alloc: Global, text: &str, told: &Told) -> Option<bool> {
    let text = filled(alloc, text)?;
    let found = read_rows(alloc, text.as_str()).ok()?;
    match (&found, told) {
        (Some(Some(rows)), Some(Some(wanted))) => Some(are_rows(rows.as_slice(), wanted)),
        (Some(None), Some(None)) => Some(true),
        (None, None) => Some(true),
        _ => Some(false),
    }
}

/// How many rows are read of a text of so many. An outer `None` stands for want of memory.
fn count_of(alloc: Global, count: usize) -> Option<Option<usize>> {
    let rows = "Z1,#\n".repeat(alloc, count).ok()?;
    let text = filled(alloc, format!(in alloc; "H\n{rows}").ok()?.as_str())?;
    match read_rows(alloc, text.as_str()).ok()? {
        Some(Some(rows)) => Some(Some(rows.as_slice().len())),
        _ => Some(None),
    }
}

#[test]
fn reads_imports(rt: HostRuntime) {
    for row in IMPORTS {
        assert!(rt;
            is_told(rt.alloc(), row.0, &row.1) == Some(true),
            "{:?}",
            row.0
        );
    }
    for row in COUNTS {
        assert!(rt; count_of(rt.alloc(), row.0) == Some(row.1), "{}", row.0);
    }
}
