//! Sites: the sample read whole, its callers, the faults of texts that are near it, and which of them
//! are growths of it.

use crate::changes::{changed, numbered, padded};
use site_core::{Caller, Site, SiteFault, read_site, read_site_text};
use std::alloc::Global;
use std::test::Fail;
use test_fixtures::full_site::full_site;
use test_fixtures::samples::{SITE, SITE_WITH_A_CUSTOMER, SITE_WITH_A_POOL};
use text_core::Digest;

const OF_ABC: &str = "ba7816bf8f01cfea414140de5dae2223b00361a396177a9cb410ff61f20015ad";

const OF_ABC_IN_CAPITALS: &str = "BA7816BF8F01CFEA414140DE5DAE2223B00361A396177A9CB410FF61F20015AD";

const OF_HELLO: &str = "2cf24dba5fb0a30e26e83b2ac5b9e29e1b161e5c1fa7425e73043362938b9824";

const OF_TEST: &str = "9f86d081884c7d659a2feaa0c55ad015a3bf4f1b2b0b822cd15d6c15b0f00a08";

/// A digest that is no token's of the sample.
const OF_OTHER: &str = "60303ae22b998861bce3b28f33eec1be758a213c86c93c076dbe9f558c11c752";

/// A part of the sample, what stands there in its place, and the fault: the lowest where there are
/// several. The last rows are whole texts.
const CHANGES: &[(&str, &str, u8)] = &[
    ("name = \"bolt\"", "name = \"acme\"", 3),
    ("bolt-ca", "acme-ca", 3),
    (
        "[\"acme-ca\"]",
        "[\"acme-ca\", \"acme-cb\", \"acme-ca\"]",
        3,
    ),
    ("name = \"b1\"", "name = \"a1\"", 3),
    (OF_HELLO, OF_ABC_IN_CAPITALS, 3),
    (OF_TEST, OF_ABC, 3),
    (OF_TEST, OF_ABC_IN_CAPITALS, 3),
    ("020000000020", "020000000013", 4),
    ("020000000020", "020000000014", 0),
    ("020000000020", "02000000000c", 0),
    ("020000000020", "02000000000d", 4),
    (
        "\"020000000010\"\ncount = 4",
        "\"00ffffffffff\"\ncount = 2",
        5,
    ),
    (
        "\"020000000010\"\ncount = 4",
        "\"02ffffffffff\"\ncount = 2",
        5,
    ),
    (
        "\"020000000010\"\ncount = 4",
        "\"02ffffffffff\"\ncount = 1",
        0,
    ),
    ("020000000010", "010000000000", 5),
    ("020000000010", "ffffffffffff", 5),
    (
        "\"020000000010\"\ncount = 4",
        "\"feffffffffff\"\ncount = 2",
        5,
    ),
    ("count = 4", "count = 0", 2),
    ("count = 4", "count = 16777217", 2),
    (
        "\"020000000010\"\ncount = 4",
        "\"060000000000\"\ncount = 16777216",
        0,
    ),
    ("count = 4", "count = \"4\"", 2),
    ("020000000010", "02000000001", 2),
    ("020000000010", "02000000001A", 2),
    ("name = \"acme\"\n", "", 2),
    ("issuer = [\"acme-ca\"]\n", "", 2),
    ("[\"acme-ca\"]", "\"acme-ca\"", 2),
    ("[\"acme-ca\"]", "[]", 0),
    ("[\"acme-ca\"]", "[\"acme ca\"]", 2),
    ("name = \"a1\"\n", "", 2),
    (OF_ABC, "ba78", 2),
    ("[manager]\ntoken", "[manager]\nother", 2),
    ("name = \"acme\"", "name = \"acme\"\nplace = 1", 0),
    ("[manager]", "[manager]\nname = 2", 0),
    ("name = \"acme\"", "name = acme", 1),
    ("name = \"acme\"", "name = \"acme\"\nname = \"acme\"", 1),
    (SITE, "", 2),
    (SITE, "customer", 1),
    (SITE, "customer = []", 0),
    (SITE, "customer = 1", 2),
    (SITE, "customer = [1]", 2),
    (SITE, "other = 1", 2),
    (SITE, "customer = []\nmanager = 1", 2),
    (SITE, "customer = []\nother = 1", 0),
    (
        SITE,
        "customer = [{ name = \"a\", issuer = [], pool = 1 }]",
        2,
    ),
    (
        SITE,
        "customer = [{ name = \"a\", issuer = [], seat = 1 }]",
        2,
    ),
    (
        SITE,
        "[[customer]]\nname = \"a\"\nissuer = [\"1\", \"2\", \"3\", \"4\", \"5\", \"6\", \"7\", \"8\", \"9\"]\n",
        6,
    ),
    (
        SITE,
        "[[customer]]\nname = \"a\"\nissuer = [\"1\", \"2\", \"3\", \"4\", \"5\", \"6\", \"7\", \"8\", \"9\"]\npool = [{ first = \"010000000000\", count = 2 }]\n",
        5,
    ),
    (
        SITE,
        "[[customer]]\nname = \"a\"\nissuer = [\"1\", \"2\", \"3\", \"4\", \"5\", \"6\", \"7\", \"8\", \"9\"]\npool = [{ first = \"010000000000\", count = 2 }, { first = \"010000000001\", count = 2 }]\n",
        4,
    ),
    (
        SITE,
        "[[customer]]\nname = \"a\"\nissuer = [\"1\", \"2\", \"3\", \"4\", \"5\", \"6\", \"7\", \"8\", \"8\"]\n",
        3,
    ),
    (
        SITE,
        "[[customer]]\nname = \"a\"\nissuer = [\"1\", \"2\", \"3\", \"4\", \"5\", \"6\", \"7\", \"8\", \"8\"]\npool = [{ first = \"010000000000\", count = 2 }, { first = \"010000000001\", count = 2 }]\n",
        3,
    ),
    (
        SITE,
        "[[customer]]\nname = \"a\"\nissuer = [\"1\", \"2\", \"3\", \"4\", \"5\", \"6\", \"7\", \"8\", \"8\"]\npool = 1\n",
        2,
    ),
    (
        SITE,
        "[[customer]]\nname = \"a\"\nissuer = [\"1\", \"2\", \"3\", \"4\", \"5\", \"6\", \"7\", \"8\", \"8\"]\npool = \n",
        1,
    ),
];

/// How many customers beside the last, how many seats, issuers and pools the last has, and the fault.
type CrowdRow = (u16, u16, u16, u16, u8);

const CROWDS: &[CrowdRow] = &[
    (0, 64, 8, 16, 0),
    (0, 65, 8, 16, 6),
    (0, 64, 9, 16, 6),
    (0, 64, 8, 17, 6),
    (0, 0, 0, 0, 0),
    (63, 0, 0, 0, 0),
    (64, 0, 0, 0, 6),
];

const CUSTOMER: &str = "[[customer]]\nname = \"c#\"\nissuer = []\n";

const POOL: &str = "[[customer.pool]]\nfirst = \"02000000#\"\ncount = 1\n";

const SEAT: &str = r#"[[customer.seat]]
name = "s#"
token = "000000000000000000000000000000000000000000000000000000000000#"
"#;

/// What a text begins with, how long it is with spaces behind that, and the fault.
const LENGTHS: &[(&str, usize, u8)] = &[
    ("customer = []\n#", 1048576, 0),
    ("customer = []\n#", 1048577, 6),
    ("no TOML", 1048576, 1),
    ("no TOML", 1048577, 6),
];

/// The number of a text's fault, or 0 where it has none.
fn fault_number(alloc: Global, text: &str) -> u8 {
    match read_site(alloc, text) {
        Ok(_) => 0,
        Err(fault) => fault.number(),
    }
}

/// Whether the customers, their issuers, and the pools of the first are the sample's.
fn is_sample(site: &Site) -> bool {
    let [acme, bolt] = site.customers() else {
        return false;
    };
    let ([own], [other], [low, high]) = (acme.issuers(), bolt.issuers(), acme.pools()) else {
        return false;
    };
    own.as_str() == "acme-ca"
        && other.as_str() == "bolt-ca"
        && acme.has_issuer(own)
        && !acme.has_issuer(other)
        && (low.first().value(), low.count()) == (0x0200_0000_0010, 4)
        && (high.first().value(), high.count()) == (0x0200_0000_0020, 4)
        && bolt.pools().is_empty()
        && site.has_manager()
}

/// Whether a token is a seat's, by the names of the customer and the seat.
fn is_seats(site: &Site, token: &[u8], customer: &str, seat: &str) -> bool {
    match site.who(token) {
        Some(Caller::Seat(caller)) => {
            site.customer(caller).name().as_str() == customer && site.seat(caller).as_str() == seat
        }
        _ => false,
    }
}

/// Whether each token is its holder's, and no other token is anyone's.
fn knows_callers(site: &Site) -> bool {
    is_seats(site, b"abc", "acme", "a1")
        && is_seats(site, b"hello", "bolt", "b1")
        && matches!(site.who(b"test"), Some(Caller::Manager))
        && site.who(b"").is_none()
        && site.who(b"abd").is_none()
}

/// The sample is read whole. By hand, where an allocation is refused: all the same, or the fault is
/// want of memory.
#[test]
fn reads_the_sample(rt: HostRuntime) {
    match read_site(rt.alloc(), SITE) {
        Ok(site) => assert!(rt; is_sample(&site) && knows_callers(&site)),
        Err(fault) => assert!(rt; fault == SiteFault::OutOfMemory),
    }
}

/// The fault of the sample with a part changed.
fn fault_of_change(alloc: Global, part: &str, new: &str) -> Option<u8> {
    let text = changed(alloc, SITE, part, new)?;
    Some(fault_number(alloc, text.as_str()))
}

/// The fault of so many customers, seats, issuers and pools. The last customer has all of them.
fn fault_of_crowd(alloc: Global, row: &CrowdRow) -> Option<u8> {
    let customers = numbered(alloc, "", CUSTOMER, row.0)?;
    let issuers = numbered(
        alloc,
        "[[customer]]\nname = \"a\"\nissuer = [",
        "\"i#\",",
        row.2,
    )?;
    let pools = numbered(alloc, "]\n", POOL, row.3)?;
    let seats = numbered(alloc, "", SEAT, row.1)?;
    let text = format!(in alloc; "{customers}{issuers}{pools}{seats}").ok()?;
    Some(fault_number(alloc, text.as_str()))
}

/// The customer that is one too many behind a full site.
const ONE_MORE: &str = "[[customer]]\nname = \"d\"\nissuer = []\n";

/// Whether the last seat of a site in which each customer has all that it may have is the sample's
/// `a1`, and the number of the fault of the same site with one customer more.
fn ends_of_full_site(alloc: Global) -> Result<(bool, u8), Fail> {
    let mut text = full_site(alloc)?;
    let site = read_site(alloc, text.as_str())?;
    let is_known = is_seats(&site, b"abc", "acme", "a1");
    text.push_str(ONE_MORE)?;
    Ok((is_known, fault_number(alloc, text.as_str())))
}

/// The fault of a text with spaces behind it.
fn fault_of_length(alloc: Global, start: &str, length: usize) -> Option<u8> {
    let text = padded(alloc, start, "", length)?;
    Some(fault_number(alloc, text.as_str()))
}

#[test]
fn a_site_may_be_full(rt: HostRuntime) -> Result<(), Fail> {
    assert!(rt; ends_of_full_site(rt.alloc())? == (true, 6));
    Ok(())
}

#[test]
fn tells_faults(rt: HostRuntime) {
    let alloc = rt.alloc();
    for row in CHANGES {
        assert!(rt;
            fault_of_change(alloc, row.0, row.1) == Some(row.2),
            "{}",
            row.1
        );
    }
    for row in CROWDS {
        assert!(rt;
            fault_of_crowd(alloc, row) == Some(row.4),
            "{} {} {}",
            row.0,
            row.1,
            row.2
        );
    }
}

/// Each prefix of the sample is answered, and none with want of memory.
#[test]
fn keeps_limits(rt: HostRuntime) {
    let alloc = rt.alloc();
    for row in LENGTHS {
        assert!(rt;
            fault_of_length(alloc, row.0, row.1) == Some(row.2),
            "{}",
            row.1
        );
    }
    for length in 0..SITE.len() {
        assert!(rt; fault_number(alloc, SITE.get(..length).unwrap_or("")) <= 2);
    }
}

/// A part of the sample, what stands there in its place, whether the new site is a growth of the
/// sample's, and whether the sample's is a growth of the new one.
const GROWTHS: &[(&str, &str, bool, bool)] = &[
    ("[manager]", "[manager]", true, true),
    ("[manager]", "# for the office\n[manager]", true, true),
    ("[\"acme-ca\"]", "[\"acme-cb\", \"acme-ca\"]", true, false),
    (
        "020000000010\"\ncount = 4\n[[customer.pool]]\nfirst = \"020000000020",
        "020000000020\"\ncount = 4\n[[customer.pool]]\nfirst = \"020000000010",
        false,
        false,
    ),
    (OF_ABC, OF_OTHER, false, false),
    (
        "[manager]\ntoken = \"9f86d081884c7d659a2feaa0c55ad015a3bf4f1b2b0b822cd15d6c15b0f00a08\"\n",
        "",
        false,
        true,
    ),
    (OF_TEST, OF_OTHER, false, false),
    ("[\"acme-ca\"]", "[]", false, true),
    ("[\"acme-ca\"]", "[\"acme-cb\"]", false, false),
    (
        "[[customer.seat]]\nname = \"b1\"\ntoken = \"2cf24dba5fb0a30e26e83b2ac5b9e29e1b161e5c1fa7425e73043362938b9824\"\n",
        "",
        false,
        true,
    ),
    ("name = \"a1\"", "name = \"a2\"", false, false),
    (
        "[[customer.pool]]",
        "[[customer.pool]]\nfirst = \"020000000000\"\ncount = 4\n[[customer.pool]]",
        false,
        false,
    ),
    (
        "[[customer.pool]]\nfirst = \"020000000020\"\ncount = 4\n",
        "",
        false,
        true,
    ),
    ("count = 4", "count = 5", false, false),
    ("name = \"acme\"", "name = \"apex\"", false, false),
    (
        "[[customer.pool]]\nfirst = \"020000000020\"\ncount = 4\n[[customer.seat]]\nname = \"a1\"\ntoken = \"ba7816bf8f01cfea414140de5dae2223b00361a396177a9cb410ff61f20015ad\"\n[[customer]]\nname = \"bolt\"\nissuer = [\"bolt-ca\"]\n",
        "[[customer.seat]]\nname = \"a1\"\ntoken = \"ba7816bf8f01cfea414140de5dae2223b00361a396177a9cb410ff61f20015ad\"\n[[customer]]\nname = \"bolt\"\nissuer = [\"bolt-ca\"]\n[[customer.pool]]\nfirst = \"020000000020\"\ncount = 4\n",
        false,
        false,
    ),
    (SITE, "customer = []", false, true),
];

/// Whether each of two texts' sites is a growth of the other's: the second of the first, and the
/// first of the second.
fn growths(alloc: Global, first: &str, second: &str) -> Option<(bool, bool)> {
    let first = read_site(alloc, first).ok()?;
    let second = read_site(alloc, second).ok()?;
    Some((first.is_growth(&second), second.is_growth(&first)))
}

fn growths_of_change(alloc: Global, part: &str, new: &str) -> Option<(bool, bool)> {
    let text = changed(alloc, SITE, part, new)?;
    growths(alloc, SITE, text.as_str())
}

/// The sample with its customers in the other order.
fn rearranged(alloc: Global) -> Option<String> {
    let (acme, others) = SITE.split_once("[[customer]]\nname = \"bolt\"")?;
    let (bolt, manager) = others.split_once("[manager]")?;
    format!(in alloc; "[[customer]]\nname = \"bolt\"{bolt}{acme}[manager]{manager}").ok()
}

#[test]
fn tells_growths(rt: HostRuntime) {
    let alloc = rt.alloc();
    for row in GROWTHS {
        assert!(rt;
            growths_of_change(alloc, row.0, row.1) == Some((row.2, row.3)),
            "{}",
            row.1
        );
    }
    for grown in &[SITE_WITH_A_POOL, SITE_WITH_A_CUSTOMER] {
        assert!(rt; growths(alloc, SITE, grown) == Some((true, false)));
    }
    let other = rearranged(alloc).unwrap_or(String::new(alloc));
    assert!(rt; growths(alloc, SITE, other.as_str()) == Some((true, true)));
}

/// The sample is kept whole. By hand, where an allocation is refused: all the same, or the fault is
/// want of memory.
#[test]
fn keeps_a_text(rt: HostRuntime) {
    match read_site_text(rt.alloc(), SITE) {
        Ok(text) => assert!(rt;
            text.text() == SITE
                && is_sample(text.site())
                && text.digest() == Digest::of(SITE.as_bytes())
        ),
        Err(fault) => assert!(rt; fault == SiteFault::OutOfMemory),
    }
    let fault = read_site_text(rt.alloc(), "customer")
        .err()
        .map(SiteFault::number);
    assert!(rt; fault == Some(1) || fault == Some(7));
}
