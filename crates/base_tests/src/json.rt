//! Bodies as JSON, and whole numbers in them.

use members::DocumentFault;
use members::in_json::{read_json, text_if_member, whole_member};
use std::alloc::Global;

/// The greatest whole number that a request may have.
const LARGEST_WHOLE: u64 = 9_007_199_254_740_991;

/// Bodies, the least and the greatest number that is wanted, and whether they are JSON, with the member
/// `n` where it is a whole number within these.
const BODIES: &[(&[u8], u64, u64, Option<Option<u64>>)] = &[
    (
        b"{\"n\":9007199254740991}",
        0,
        LARGEST_WHOLE,
        Some(Some(LARGEST_WHOLE)),
    ),
    (
        b"{\"n\":9007199254740991}",
        0,
        LARGEST_WHOLE - 1,
        Some(None),
    ),
    (b"{\"n\":9007199254740992}", 0, LARGEST_WHOLE, Some(None)),
    (
        b"{\"n\":18446744073709551616}",
        0,
        LARGEST_WHOLE,
        Some(None),
    ),
    (b"{\"n\":1,\"n\":2}", 2, 2, Some(Some(2))),
    (b"{\"n\":1,\"n\":2}", 3, 4, Some(None)),
    (b"{\"n\":1.0}", 0, LARGEST_WHOLE, Some(None)),
    (b"{\"n\":-0}", 0, LARGEST_WHOLE, Some(None)),
    (b"{\"n\":-1}", 0, LARGEST_WHOLE, Some(None)),
    (b"{\"n\":1e2}", 0, LARGEST_WHOLE, Some(None)),
    (b"{\"n\":\"1\"}", 0, LARGEST_WHOLE, Some(None)),
    (b"{\"n\":null}", 0, LARGEST_WHOLE, Some(None)),
    (b"{\"n\":true}", 0, LARGEST_WHOLE, Some(None)),
    (b"{\"n\":[1]}", 0, LARGEST_WHOLE, Some(None)),
    (b"", 0, LARGEST_WHOLE, None),
    (b"{", 0, LARGEST_WHOLE, None),
    (b"{} {}", 0, LARGEST_WHOLE, None),
    (b"<a/>", 0, LARGEST_WHOLE, None),
    (b"{\"n\":01}", 0, LARGEST_WHOLE, None),
    (b"{\"n\":1e999}", 0, LARGEST_WHOLE, None),
    (b"{\"n\":\"\\ud800\"}", 0, LARGEST_WHOLE, None),
    (b"{\"n\":\"\xff\"}", 0, LARGEST_WHOLE, None),
];

/// Bodies, and whether their member `n` is a text or missing, with the text.
const TEXTS: &[(&[u8], Option<Option<&str>>)] = &[
    (b"{\"n\":\"1\"}", Some(Some("1"))),
    (b"{\"n\":\"\"}", Some(Some(""))),
    (b"{\"n\":null}", Some(None)),
    (b"{\"m\":\"1\"}", Some(None)),
    (b"{\"n\":\"1\",\"n\":null}", Some(None)),
    (b"[\"n\"]", Some(None)),
    (b"{\"n\":1}", None),
    (b"{\"n\":false}", None),
    (b"{\"n\":[]}", None),
    (b"{\"n\":{}}", None),
];

/// The whole number of a body, if it is JSON. An outer `None` stands for want of memory.
fn whole_number(
    alloc: Global,
    body: &[u8],
    least: u64,
    greatest: u64,
) -> Option<Option<Option<u64>>> {
    match read_json(alloc, body) {
        Ok(value) => Some(Some(whole_member(&value, "n", least, greatest))),
        Err(DocumentFault::NotDocument) => Some(None),
        Err(DocumentFault::OutOfMemory) => None,
    }
}

/// Whether a body has this text as its member `n`. An outer `None` stands for want of memory, or for no
/// JSON.
fn has_text(alloc: Global, body: &[u8], wanted: Option<Option<&str>>) -> Option<bool> {
    let value = read_json(alloc, body).ok()?;
    Some(text_if_member(&value, "n") == wanted)
}

#[test]
fn reads_json(rt: HostRuntime) {
    for row in BODIES {
        let found = whole_number(rt.alloc(), row.0, row.1, row.2);
        assert!(rt; found == Some(row.3), "{:?}", row.0);
    }
}

#[test]
fn reads_missing_texts(rt: HostRuntime) {
    for row in TEXTS {
        assert!(rt;
            has_text(rt.alloc(), row.0, row.1) == Some(true),
            "{:?}",
            row.0
        );
    }
}
