//! The faults of texts that are near the sample fuse map.

use crate::changes::{changed, numbered, padded};
use fusemap_core::read_map;
use std::alloc::Global;
use test_fixtures::samples::MAP;

/// A part of the sample, what stands there in its place, and the fault. The last rows are whole texts.
const CHANGES: &[(&str, &str, u8)] = &[
    (
        "write = 14\n",
        "write = 14\n[[field]]\nname = \"JTAG_DISABLE\"\nblock = 0\nbit = 198\ncount = 1\nwrite = 14\n",
        3,
    ),
    ("\"BLOCK3\"", "\"BLOCK1\"", 3),
    ("bit = 198", "bit = 15", 5),
    ("write = 14", "write = 16", 7),
    ("read = 0\n", "", 8),
    ("write = 7\n", "", 8),
    ("count = 256", "count = 255", 8),
    (
        "block = 1\nbit = 0\ncount = 256",
        "block = 1\nbit = 1\ncount = 255",
        8,
    ),
    (
        "words = 7\n[[block]]\nwords = 8",
        "words = 8\n[[block]]\nwords = 7",
        4,
    ),
    ("words = 7", "words = 8", 0),
    ("words = 7", "words = 0", 2),
    ("words = 7", "words = 9", 2),
    ("words = 7", "words = \"7\"", 2),
    ("words = 7\n", "", 2),
    ("words = 7", "words = 7\n[[block]]\nwords = 7", 2),
    ("count = 2\n", "count = 2\nread = 3\n", 0),
    ("read = 2\n", "read = 2\nkey = true\n", 0),
    ("name = \"esp32-sample\"\n", "", 2),
    ("esp32-sample", "esp32 sample", 2),
    ("name = \"JTAG_DISABLE\"\n", "", 2),
    ("wr = \"WR_DIS\"\n", "", 2),
    ("rd = \"RD_DIS\"\n", "", 2),
    ("coding = \"CODING_SCHEME\"\n", "", 0),
    ("coding = \"CODING_SCHEME\"", "coding = 1", 2),
    ("name = \"esp32-sample\"", "name = esp32", 1),
    ("wr = \"WR_DIS\"", "wr = \"WR_DIS\"\nwr = \"WR_DIS\"", 1),
    ("wr = \"WR_DIS\"", "wr = \"NONE\"", 6),
    ("rd = \"RD_DIS\"", "rd = \"NONE\"", 6),
    ("coding = \"CODING_SCHEME\"", "coding = \"NONE\"", 6),
    ("wr = \"WR_DIS\"", "wr = \"BLOCK1\"", 6),
    ("rd = \"RD_DIS\"", "rd = \"BLOCK1\"", 6),
    ("coding = \"CODING_SCHEME\"", "coding = \"BLOCK1\"", 6),
    ("wr = \"WR_DIS\"", "wr = \"RD_DIS\"", 6),
    ("rd = \"RD_DIS\"", "rd = \"WR_DIS\"", 6),
    ("coding = \"CODING_SCHEME\"", "coding = \"WR_DIS\"", 6),
    ("coding = \"CODING_SCHEME\"", "coding = \"RD_DIS\"", 6),
    ("wr = \"WR_DIS\"", "wr = \"BLOCK3\"", 6),
    ("rd = \"RD_DIS\"", "rd = \"BLOCK3\"", 6),
    ("coding = \"CODING_SCHEME\"", "coding = \"BLOCK3\"", 0),
    ("count = 16\n", "count = 16\nread = 3\n", 6),
    ("count = 4\n", "count = 4\nread = 3\n", 6),
    ("count = 16\n", "count = 16\nwrite = 15\n", 0),
    ("count = 4\n", "count = 4\nwrite = 15\n", 0),
    (MAP, "", 2),
    (MAP, "name", 1),
    (MAP, "name = \"a\"\nwr = \"w\"\nrd = \"r\"\n", 2),
    (
        MAP,
        "name = \"a\"\nwr = \"w\"\nrd = \"r\"\nblock = [{ words = 1 }]\nfield = [{ name = \"w\", block = 0, bit = 0, count = 1 }, { name = \"r\", block = 0, bit = 1, count = 1 }]",
        0,
    ),
    (
        MAP,
        "name = \"a\"\nwr = \"w\"\nrd = \"r\"\nblock = []\nfield = [{ name = \"w\", block = 0, bit = 0, count = 1 }, { name = \"r\", block = 0, bit = 1, count = 1 }]",
        2,
    ),
    (
        MAP,
        "name = \"a\"\nwr = \"w\"\nrd = \"r\"\nblock = 1\nfield = [{ name = \"w\", block = 0, bit = 0, count = 1 }, { name = \"r\", block = 0, bit = 1, count = 1 }]",
        2,
    ),
    (
        MAP,
        "name = \"a\"\nwr = \"w\"\nrd = \"r\"\nblock = [1]\nfield = [{ name = \"w\", block = 0, bit = 0, count = 1 }, { name = \"r\", block = 0, bit = 1, count = 1 }]",
        2,
    ),
    (
        MAP,
        "name = \"a\"\nwr = \"w\"\nrd = \"r\"\nblock = { words = 1 }\nfield = [{ name = \"w\", block = 0, bit = 0, count = 1 }, { name = \"r\", block = 0, bit = 1, count = 1 }]",
        2,
    ),
    (
        MAP,
        "name = \"a\"\nwr = \"w\"\nrd = \"r\"\nblock = [{ words = 1 }]\n",
        2,
    ),
    (
        MAP,
        "name = \"a\"\nwr = \"w\"\nrd = \"r\"\nblock = [{ words = 1 }]\nfield = []\n",
        2,
    ),
    (
        MAP,
        "name = \"a\"\nwr = \"w\"\nrd = \"r\"\nblock = [{ words = 1 }]\nfield = [1]\n",
        2,
    ),
];

/// The line of the write lock field, the name and the other members of a further field, and the fault:
/// the lowest where there are several.
const FURTHER: &[(&str, &str, &str, u8)] = &[
    (SAME, "NEW", BAD_KEY, 8),
    (SAME, "NEW", BAD_INDEX, 7),
    ("wr = \"NEW\"\n", "NEW", BAD_INDEX, 6),
    ("wr = \"NEW\"\n", "NEW", OVERLAPPING, 5),
    ("wr = \"NEW\"\n", "NEW", OUTSIDE, 4),
    ("wr = \"NEW\"\n", "BLOCK1", OUTSIDE, 3),
    ("wr = 1\n", "BLOCK1", OUTSIDE, 2),
    ("wr = \n", "BLOCK1", OUTSIDE, 1),
    (SAME, "NEW", "block = 0\nbit = 216\ncount = 8", 0),
    (SAME, "NEW", "block = 0\nbit = 216\ncount = 9", 4),
    (SAME, "NEW", "block = 0\nbit = 223\ncount = 1", 0),
    (SAME, "NEW", "block = 0\nbit = 224\ncount = 1", 4),
    (SAME, "NEW", "block = 4\nbit = 0\ncount = 1", 4),
    (
        SAME,
        "NEW",
        "block = 9223372036854775807\nbit = 0\ncount = 1",
        4,
    ),
    (SAME, "NEW", "block = 0\nbit = 1000000000000\ncount = 1", 4),
    (
        SAME,
        "NEW",
        "block = 0\nbit = 9223372036854775807\ncount = 9223372036854775807",
        4,
    ),
    (
        SAME,
        "NEW",
        "block = 0\nbit = 216\ncount = 9223372036854775808",
        1,
    ),
    (SAME, "NEW", "block = -1\nbit = 0\ncount = 1", 2),
    (SAME, "NEW", "block = 0\nbit = -1\ncount = 1", 2),
    (SAME, "NEW", "block = 0\nbit = 216\ncount = 0", 2),
    (SAME, "NEW", "block = 0\nbit = 216", 2),
    (SAME, "NEW", "block = 0\nbit = 216\ncount = \"1\"", 2),
    (SAME, "NEW", "block = 0\nbit = 216\ncount = 1.0", 2),
    (SAME, "NEW", "block = 0\nbit = 191\ncount = 1", 0),
    (SAME, "NEW", "block = 0\nbit = 191\ncount = 2", 5),
    (SAME, "NEW", "block = 0\nbit = 20\ncount = 172", 0),
    (SAME, "NEW", "block = 0\nbit = 19\ncount = 1", 5),
    (SAME, "NEW", "block = 0\nbit = 100\ncount = 100", 5),
    (SAME, "NEW", "block = 3\nbit = 255\ncount = 1", 5),
    (
        SAME,
        "NEW",
        "block = 0\nbit = 216\ncount = 1\nwrite = 15",
        0,
    ),
    (
        SAME,
        "NEW",
        "block = 0\nbit = 216\ncount = 1\nwrite = 16",
        7,
    ),
    (SAME, "NEW", "block = 0\nbit = 216\ncount = 1\nread = 3", 0),
    (SAME, "NEW", "block = 0\nbit = 216\ncount = 1\nread = 4", 7),
    (
        SAME,
        "NEW",
        "block = 0\nbit = 216\ncount = 1\nwrite = 9223372036854775807",
        7,
    ),
    (
        SAME,
        "NEW",
        "block = 0\nbit = 216\ncount = 1\nwrite = -1",
        2,
    ),
    (
        SAME,
        "NEW",
        "block = 0\nbit = 216\ncount = 1\nread = true",
        2,
    ),
    (
        SAME,
        "NEW",
        "block = 0\nbit = 216\ncount = 1\nkey = false",
        0,
    ),
    (SAME, "NEW", "block = 0\nbit = 216\ncount = 1\nkey = 1", 2),
    (
        SAME,
        "NEW",
        "block = 0\nbit = 216\ncount = 8\nwrite = 1\nread = 1\nkey = true",
        8,
    ),
    (
        SAME,
        "NEW",
        "block = 0\nbit = 216\ncount = 1\nother = -1",
        0,
    ),
];

const SAME: &str = "wr = \"WR_DIS\"\n";

const BAD_KEY: &str = "block = 0\nbit = 216\ncount = 1\nkey = true";

const BAD_INDEX: &str = "block = 0\nbit = 216\ncount = 1\nkey = true\nwrite = 16";

const OVERLAPPING: &str = "block = 0\nbit = 15\ncount = 1\nkey = true\nwrite = 16";

const OUTSIDE: &str = "block = 0\nbit = 215\ncount = 10\nkey = true\nwrite = 16";

/// What stands behind the sample, how long the text is then with spaces behind it, and the fault.
const LENGTHS: &[(&str, usize, u8)] = &[
    ("", 32768, 0),
    ("", 32769, 2),
    ("#", 32768, 0),
    ("#", 32769, 2),
    ("no TOML", 32768, 1),
    ("no TOML", 32769, 2),
];

/// How many fields, and the fault.
const CROWDS: &[(u16, u8)] = &[(0, 2), (1, 6), (2, 0), (128, 0), (129, 2)];

const CROWD_HEAD: &str = "name = \"a\"\nwr = \"f0000\"\nrd = \"f0001\"\n[[block]]\nwords = 8\n";

const CROWD_FIELD: &str = "[[field]]\nname = \"f#\"\nblock = 0\nbit = 0x#\ncount = 1\n";

/// The number of a text's fault, or 0 where it has none.
fn fault_number(alloc: Global, text: &str) -> u8 {
    match read_map(alloc, text) {
        Ok(_) => 0,
        Err(fault) => fault.number(),
    }
}

/// The fault of the sample with a part changed.
fn fault_of_change(alloc: Global, part: &str, new: &str) -> Option<u8> {
    let text = changed(alloc, MAP, part, new)?;
    Some(fault_number(alloc, text.as_str()))
}

/// The fault of the sample with another line of the write lock field and a further field.
fn fault_of_further(alloc: Global, wr: &str, name: &str, members: &str) -> Option<u8> {
    let start = changed(alloc, MAP, SAME, wr)?;
    let text = format!(in alloc; "{start}[[field]]\nname = \"{name}\"\n{members}\n").ok()?;
    Some(fault_number(alloc, text.as_str()))
}

/// The fault of a text of so many fields, of which the first two are the lock fields.
fn fault_of_crowd(alloc: Global, count: u16) -> Option<u8> {
    let text = numbered(alloc, CROWD_HEAD, CROWD_FIELD, count)?;
    Some(fault_number(alloc, text.as_str()))
}

/// The fault of the sample with a text and spaces behind it.
fn fault_of_length(alloc: Global, end: &str, length: usize) -> Option<u8> {
    let text = padded(alloc, MAP, end, length)?;
    Some(fault_number(alloc, text.as_str()))
}

#[test]
fn tells_faults(rt: HostRuntime) {
    let alloc = rt.alloc();
    for row in CHANGES {
        assert!(rt;
            fault_of_change(alloc, row.0, row.1) == Some(row.2),
            "{}",
            row.1
        );
    }
    for row in FURTHER {
        assert!(rt;
            fault_of_further(alloc, row.0, row.1, row.2) == Some(row.3),
            "{}",
            row.2
        );
    }
}

/// Each prefix of the sample is answered, and none with want of memory.
#[test]
fn keeps_limits(rt: HostRuntime) {
    let alloc = rt.alloc();
    for row in CROWDS {
        assert!(rt; fault_of_crowd(alloc, row.0) == Some(row.1), "{}", row.0);
    }
    for row in LENGTHS {
        assert!(rt;
            fault_of_length(alloc, row.0, row.1) == Some(row.2),
            "{}",
            row.1
        );
    }
    for length in 0..MAP.len() {
        assert!(rt; fault_number(alloc, MAP.get(..length).unwrap_or("")) <= 8);
    }
}
