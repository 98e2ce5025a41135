//! Hardware addresses and their pools.

use id_ranges::{Mac, MacPool, RangeFault, reserve};

/// Texts, and the addresses that they are.
const ADDRESSES: &[(&str, Option<u64>)] = &[
    ("000000000000", Some(0)),
    ("020000000010", Some(0x0200_0000_0010)),
    ("0123456789ab", Some(0x0123_4567_89ab)),
    ("ffffffffffff", Some(0xffff_ffff_ffff)),
    ("", None),
    ("02000000001", None),
    ("0200000000100", None),
    ("02000000001A", None),
    ("02:000000010", None),
    ("02000000001g", None),
];

/// A first address and a count, and whether they are a pool of individual addresses.
const POOLS: &[(&str, u64, bool)] = &[
    ("000000000000", 1, true),
    ("020000000010", 4, true),
    ("020000000000", 16777216, true),
    ("02fffffffffe", 2, true),
    ("feffffffffff", 1, true),
    ("020000000010", 0, false),
    ("020000000000", 16777217, false),
    ("02ffffffffff", 2, false),
    ("00ffffffffff", 2, false),
    ("010000000000", 2, false),
    ("010000000000", 1, false),
    ("feffffffffff", 2, false),
    ("ffffffffffff", 1, false),
    ("ffffffffffff", 2, false),
];

/// A pool or an interval: its first address and how many there are.
type Run = (&'static str, u64);

/// Two pools, two reserved intervals, how many addresses are asked for, and the first that is given.
type ReserveRow = (Run, Run, Run, Run, u64, Option<u64>);

const RESERVED: &[ReserveRow] = &[
    (LOW, HIGH, NONE, NONE, 3, Some(0x0200_0000_0010)),
    (
        LOW,
        HIGH,
        ("020000000010", 3),
        NONE,
        2,
        Some(0x0200_0000_0020),
    ),
    (LOW, HIGH, ("020000000010", 3), ("020000000020", 2), 3, None),
    (
        LOW,
        HIGH,
        ("020000000020", 2),
        ("020000000010", 3),
        1,
        Some(0x0200_0000_0013),
    ),
    (
        EIGHT,
        OTHER,
        ("020000000012", 0),
        NONE,
        8,
        Some(0x0200_0000_0010),
    ),
    (
        EIGHT,
        OTHER,
        ("020000000012", 1),
        NONE,
        2,
        Some(0x0200_0000_0010),
    ),
    (
        EIGHT,
        OTHER,
        ("020000000012", 1),
        NONE,
        3,
        Some(0x0200_0000_0013),
    ),
    (EIGHT, OTHER, ("020000000012", u64::MAX), NONE, 3, None),
    (
        EIGHT,
        OTHER,
        ("020000000012", u64::MAX),
        NONE,
        u64::MAX,
        None,
    ),
    (
        EIGHT,
        OTHER,
        ("000000000000", 0x0200_0000_0014),
        NONE,
        4,
        Some(0x0200_0000_0014),
    ),
];

const LOW: Run = ("020000000010", 4);

const HIGH: Run = ("020000000020", 4);

const EIGHT: Run = ("020000000010", 8);

const OTHER: Run = ("000000000000", 1);

const NONE: Run = ("020000000010", 0);

/// The address that a text is.
fn address_of(text: &str) -> Option<u64> {
    Some(Mac::parse(text)?.value())
}

fn pool(first: &str, count: u64) -> Option<MacPool> {
    MacPool::new(Mac::parse(first)?, count)
}

/// The first address that is given, or an inner `None` where no pool has room.
fn reserved_of_row(row: &ReserveRow) -> Option<Option<u64>> {
    let (first, second, third, fourth, count, _) = *row;
    let pools = [pool(first.0, first.1)?, pool(second.0, second.1)?];
    let reserved = [
        (Mac::parse(third.0)?, third.1),
        (Mac::parse(fourth.0)?, fourth.1),
    ];
    if count == 0 {
        return None;
    }
    match reserve(&pools, &reserved, count) {
        Ok(first) => Some(Some(first.value())),
        Err(RangeFault::NoMacRoom) => Some(None),
        Err(_) => None,
    }
}

#[test]
fn tells_addresses_and_pools(rt: HostRuntime) {
    for row in ADDRESSES {
        assert!(rt; address_of(row.0) == row.1, "{}", row.0);
    }
    for row in POOLS {
        assert!(rt;
            pool(row.0, row.1).is_some() == row.2,
            "{} {}",
            row.0,
            row.1
        );
    }
}

#[test]
fn gives_addresses(rt: HostRuntime) {
    for row in RESERVED {
        assert!(rt; reserved_of_row(row) == Some(row.5), "{}", row.4);
    }
}
