//! Ranges of serial numbers, the serial numbers that they give, and the records of identities.

use id_ranges::{IdevidRecord, KeyDigest, NotBefore, RangeFault, SerialRange, next_serial};
use std::alloc::Global;
use std::collections::BTreeSet;
use text_core::{LARGEST_WHOLE, Name, Serial};

/// A prefix, a width, a first number and how many numbers there are.
type Numbers = (&'static str, u8, u64, u64);

/// Numbers that are a range, and its serial numbers.
const RANGES: &[(Numbers, &[&str])] = &[
    (("A", 3, 998, 2), &["A998", "A999"]),
    (("A-", 3, 998, 1), &["A-998"]),
    (("A-", 6, 42, 1), &["A-000042"]),
    (("A-", 1, 0, 1), &["A-0"]),
    (("A", 2, 9, 2), &["A09", "A10"]),
    (("A", 9, 999999999, 1), &["A999999999"]),
    ((LONGEST, 1, 9, 1), &["ABCDEFGHIJKLMNOPQRSTUVWXYZ-012899"]),
];

/// A prefix of 32 characters.
const LONGEST: &str = "ABCDEFGHIJKLMNOPQRSTUVWXYZ-01289";

/// A prefix of 33 characters.
const TOO_LONG: &str = "ABCDEFGHIJKLMNOPQRSTUVWXYZ-012893";

/// Numbers that are no range, and their lowest fault.
const NO_RANGES: &[(Numbers, RangeFault)] = &[
    (("A", 3, 998, 3), RangeFault::TooWide),
    (("A-", 2, 1000, 1), RangeFault::TooWide),
    (("A", 9, 1000000000, 1), RangeFault::TooWide),
    (
        ("A", 9, 9007199254740991, 9007199254740991),
        RangeFault::TooWide,
    ),
    (("a", 3, 998, 2), RangeFault::BadText),
    (("", 3, 998, 2), RangeFault::BadText),
    ((TOO_LONG, 3, 998, 2), RangeFault::BadText),
    (("a", 3, 998, 3), RangeFault::BadText),
];

/// Two ranges, and whether they meet.
const MEETINGS: &[(Numbers, Numbers, bool)] = &[
    (("A", 3, 10, 5), ("A", 3, 10, 5), true),
    (("A", 3, 10, 5), ("A", 3, 14, 1), true),
    (("A", 3, 10, 5), ("A", 3, 0, 11), true),
    (("A", 3, 10, 5), ("A", 3, 0, 100), true),
    (("A", 3, 10, 5), ("A", 3, 15, 1), false),
    (("A", 3, 10, 5), ("A", 3, 0, 10), false),
    (("A", 3, 10, 5), ("A", 4, 10, 5), false),
    (("A", 3, 10, 5), ("A0", 3, 10, 5), false),
    (("A", 3, 10, 5), ("B", 3, 10, 5), false),
    (("A", 3, 100, 1), ("A1", 2, 0, 1), false),
];

/// A range, serial numbers that are given, and the next number with its serial number.
type NextRow = (
    Numbers,
    &'static [&'static str],
    Option<(u64, &'static str)>,
);

const NEXT: &[NextRow] = &[
    (("A", 3, 998, 2), &[], Some((998, "A998"))),
    (("A", 3, 998, 2), &["A998"], Some((999, "A999"))),
    (("A", 3, 998, 2), &["A999"], Some((998, "A998"))),
    (
        ("A", 3, 998, 2),
        &["A0998", "B998", "998"],
        Some((998, "A998")),
    ),
    (("A", 3, 998, 2), &["A999", "A998"], None),
];

/// Texts, and whether an identity can have one as its serial number.
const IDENTITIES: &[(&str, bool)] = &[
    ("A998", true),
    ("-", true),
    ("A99a", false),
    ("", false),
    ("A.1", false),
];

/// Texts, and whether a validity can begin then: by the forms of the text, by the days of the years and
/// months, and by the hours, minutes and seconds.
const BEGINNINGS: &[(&str, bool)] = &[
    ("20240229120000Z", true),
    ("202402291200Z", false),
    ("202402291200000", false),
    ("202402291200000Z", false),
    ("20240229120000z", false),
    ("202402291200\u{662}Z", false),
    ("", false),
    ("99991231235959Z", true),
    ("00000229000000Z", true),
    ("20000229235959Z", true),
    ("20230229120000Z", false),
    ("19000229000000Z", false),
    ("20240431000000Z", false),
    ("20240430000000Z", true),
    ("20240831000000Z", true),
    ("20240832000000Z", false),
    ("20240230000000Z", false),
    ("20240001000000Z", false),
    ("20241301000000Z", false),
    ("20240100000000Z", false),
    ("20240229235959Z", true),
    ("20240229240000Z", false),
    ("20240229126000Z", false),
    ("20240229120060Z", false),
];

/// The range of these numbers. `None` where they aren't those that a range may be asked of.
fn range_of(numbers: &Numbers) -> Option<Result<SerialRange, RangeFault>> {
    let (prefix, width, first, quantity) = *numbers;
    if width == 0 || 9 < width || LARGEST_WHOLE < first {
        return None;
    }
    if quantity == 0 || LARGEST_WHOLE < quantity {
        return None;
    }
    Some(SerialRange::new(prefix, width, first, quantity))
}

/// The range that these numbers are.
fn range(numbers: &Numbers) -> Option<SerialRange> {
    range_of(numbers)?.ok()
}

/// Whether these are the serial numbers of a range.
fn has_serials(range: &SerialRange, serials: &[&str]) -> bool {
    if range.quantity() != serials.len() as u64 {
        return false;
    }
    for index in 0..serials.len() {
        let number = range.first() + index as u64;
        if range.text(number).as_str() != serials[index] {
            return false;
        }
    }
    true
}

/// Whether numbers are a range of these serial numbers.
fn is_range(numbers: &Numbers, serials: &[&str]) -> bool {
    match range(numbers) {
        Some(range) => has_serials(&range, serials),
        None => false,
    }
}

/// Why numbers are no range.
fn fault_of(numbers: &Numbers) -> Option<RangeFault> {
    range_of(numbers)?.err()
}

/// Whether two ranges meet, either way round.
fn meet(first: &Numbers, second: &Numbers) -> Option<[bool; 2]> {
    let (first, second) = (range(first)?, range(second)?);
    Some([first.meets(&second), second.meets(&first)])
}

/// The set of these serial numbers.
fn set_of(alloc: Global, serials: &[&str]) -> Option<BTreeSet<Serial>> {
    let mut set = BTreeSet::new(alloc);
    for text in serials {
        set.insert(Serial::parse(text)?).ok()?;
    }
    Some(set)
}

/// Whether a row's next serial number is given.
fn is_next(alloc: Global, row: &NextRow) -> Option<bool> {
    let given = set_of(alloc, row.1)?;
    match (next_serial(&range(&row.0)?, &given), row.2) {
        (Ok((number, serial)), Some((wanted, text))) => {
            Some(number == wanted && serial.as_str() == text)
        }
        (Err(fault), None) => Some(fault == RangeFault::Exhausted),
        _ => Some(false),
    }
}

/// Whether a text is a serial number in a record without an end. Any other is a `BadText`.
fn is_identity(serial: &str) -> Option<bool> {
    let issuer = Name::parse("acme-ca")?;
    match IdevidRecord::new(issuer, serial, KeyDigest::of(b"abc"), None, None) {
        Ok(record) => {
            if record.not_after().as_str() != "99991231235959Z" {
                return None;
            }
            Some(record.serial().as_str() == serial)
        }
        Err(RangeFault::BadText) => Some(false),
        Err(_) => None,
    }
}

/// Whether a text is a beginning that a record has. Any other is a `BadNotBefore`.
fn is_beginning(text: &str) -> Option<bool> {
    let not_before = match NotBefore::read(text) {
        Ok(not_before) => not_before,
        Err(RangeFault::BadNotBefore) => return Some(false),
        Err(_) => return None,
    };
    let issuer = Name::parse("acme-ca")?;
    let key = KeyDigest::of(b"abc");
    let record = IdevidRecord::new(issuer, "A998", key, None, Some(not_before)).ok()?;
    Some(record.not_before()?.as_str() == text)
}

#[test]
fn makes_and_compares_ranges(rt: HostRuntime) {
    for row in RANGES {
        assert!(rt; is_range(&row.0, row.1), "{:?}", row.0);
    }
    for row in NO_RANGES {
        assert!(rt; fault_of(&row.0) == Some(row.1), "{:?}", row.0);
    }
    for row in MEETINGS {
        assert!(rt; meet(&row.0, &row.1) == Some([row.2; 2]), "{:?}", row.1);
    }
}

#[test]
fn gives_serials_and_records(rt: HostRuntime) {
    for row in NEXT {
        assert!(rt; is_next(rt.alloc(), row) == Some(true), "{:?}", row.1);
    }
    for row in IDENTITIES {
        assert!(rt; is_identity(row.0) == Some(row.1), "{}", row.0);
    }
}

#[test]
fn reads_beginnings(rt: HostRuntime) {
    for row in BEGINNINGS {
        assert!(rt; is_beginning(row.0) == Some(row.1), "{}", row.0);
    }
}
