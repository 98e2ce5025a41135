//! Texts and digests in place, and what the faults say.

use crate::changes::prints;
use fusemap_core::MapFault;
use id_ranges::{KeyDigest, Mac, RangeFault};
use site_core::SiteFault;
use std::alloc::Global;
use text_core::{Chip, Digest, Name, Prefix, Serial};

const NOTHING: [bool; 4] = [false, false, false, false];

const NAME: [bool; 4] = [true, false, false, false];

const NAME_AND_CHIP: [bool; 4] = [true, false, false, true];

const UP_TO_32: [bool; 4] = [true, true, true, false];

const UP_TO_64: [bool; 4] = [false, false, true, false];

/// Texts on both sides of the bounds of alphabets and lengths, and what they are.
const TEXTS: &[(&str, [bool; 4])] = &[
    ("", NOTHING),
    ("o", NAME),
    ("Zz.09_a-A", NAME),
    ("A-9", UP_TO_32),
    ("A.", NAME),
    ("A_", NAME),
    ("ABCDEFGHIJKLMNOPQRSTUVWXYZ-01289", UP_TO_32),
    ("ABCDEFGHIJKLMNOPQRSTUVWXYZ-012893", UP_TO_64),
    (
        "ABCDEFGHIJKLMNOPQRSTUVWXYZ-01289ABCDEFGHIJKLMNOPQRSTUVWXYZ-01289",
        UP_TO_64,
    ),
    (
        "ABCDEFGHIJKLMNOPQRSTUVWXYZ-01289ABCDEFGHIJKLMNOPQRSTUVWXYZ-012890",
        NOTHING,
    ),
    ("A/B", NOTHING),
    ("A:B", NOTHING),
    ("A@B", NOTHING),
    ("A[B", NOTHING),
    ("A`B", NOTHING),
    ("A{B", NOTHING),
    ("A B", NOTHING),
    ("\u{e4}", NOTHING),
    ("0123456789af", NAME_AND_CHIP),
    ("0123456789aF", NAME),
    ("0123456789ag", NAME),
    ("0123456789a", NAME),
    ("0123456789abc", NAME),
    ("0123456789a/", NOTHING),
];

/// The digest of the message `abc` in NIST's examples of SHA-256, and texts that are near it.
const DIGESTS: &[(&str, bool)] = &[
    (
        "ba7816bf8f01cfea414140de5dae2223b00361a396177a9cb410ff61f20015ad",
        true,
    ),
    (
        "BA7816BF8F01CFEA414140DE5DAE2223B00361A396177A9CB410FF61F20015AD",
        true,
    ),
    (
        "ba7816bf8f01cfea414140de5dae2223b00361a396177a9cb410ff61f20015ad0",
        false,
    ),
    ("ba78", false),
];

const NO_ROOM: &str = "no address pool has a free block of this length";

/// Whether a text is a name, a prefix, a serial number and a chip's identity.
fn kinds(text: &str) -> [bool; 4] {
    [
        Name::parse(text).is_some(),
        Prefix::parse(text).is_some(),
        Serial::parse(text).is_some(),
        Chip::parse(text).is_some(),
    ]
}

/// Whether a text is read as the digest of the message `abc`, of a text and of a key.
fn is_digest_of_abc(text: &str) -> bool {
    match (Digest::parse(text), KeyDigest::parse(text)) {
        (Some(digest), Some(key)) => {
            digest == Digest::of(b"abc") && *key.as_bytes() == *KeyDigest::of(b"abc").as_bytes()
        }
        _ => false,
    }
}

/// Whether digests and addresses print as lowercase digits, and faults as what they mean.
fn prints_values(alloc: Global) -> bool {
    prints(alloc, &Digest::of(b"abc"), DIGESTS[0].0)
        && prints(alloc, &Mac::new(0x0200_0000_001a), "02000000001a")
        && prints(alloc, &MapFault::NotToml, "the text is no TOML document")
        && prints(alloc, &SiteFault::OutOfMemory, "out of memory")
        && prints(alloc, &RangeFault::NoMacRoom, NO_ROOM)
}

#[test]
fn tells_texts(rt: HostRuntime) {
    for row in TEXTS {
        assert!(rt; kinds(row.0) == row.1, "{}", row.0);
    }
    for row in DIGESTS {
        assert!(rt; is_digest_of_abc(row.0) == row.1, "{}", row.0);
    }
    assert!(rt; prints_values(rt.alloc()));
}
