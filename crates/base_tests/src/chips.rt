//! The words of chips, and what is told of them with the sample map.

use crate::changes::changed;
use fuse_image::BlockWords;
use fuse_plan::{ReadBack, fits, has_coding_scheme, redact, shows_what_is_hidden};
use fusemap_core::{FuseMap, read_map};
use std::alloc::Global;
use std::test::Fail;
use test_fixtures::samples::MAP;
use text_core::Digest;

/// Eight words that hold the bytes 0 to 31, each its lowest byte first.
pub const COUNTED: [u32; 8] = [
    0x0302_0100,
    0x0706_0504,
    0x0b0a_0908,
    0x0f0e_0d0c,
    0x1312_1110,
    0x1716_1514,
    0x1b1a_1918,
    0x1f1e_1d1c,
];

/// The SHA-256 digest of the bytes 0 to 31.
pub const COUNTED_DIGEST: &str = "630dcd2966c4336691125448bbb25b4ff412a49c732db2c8abc1b8581bd710dd";

/// The SHA-256 digest of a byte 1 and 31 zeros.
const ONE_DIGEST: &str = "01d0fabd251fcbbe2b93b4b927b26ad2a1a99077152e45ded1e678afa45dbec5";

pub const ZEROS: [u32; 8] = [0, 0, 0, 0, 0, 0, 0, 0];

const FIRST: [u32; 8] = [1, 0, 0, 0, 0, 0, 0, 0];

const LAST: [u32; 8] = [0, 0, 0, 0, 0, 0, 0, 0x8000_0000];

/// How many words blocks have, whether they are taken as those of a chip, and whether they fit the
/// sample map.
const SHAPES: &[(&[usize], [bool; 2])] = &[
    (&[], [false, false]),
    (&[1], [true, false]),
    (&[1, 0], [false, false]),
    (&[8], [true, false]),
    (&[1, 9], [false, false]),
    (&[1, 1, 1, 1], [true, false]),
    (&[1, 1, 1, 1, 1], [false, false]),
    (&[7, 8, 8, 8], [true, true]),
    (&[8, 8, 8, 8], [true, false]),
    (&[7, 8, 8], [true, false]),
];

/// What a chip shows: its coding scheme, if any, and whether it shows what its locks hide.
type Shown = (bool, bool);

/// The first and the last word of block 0, the blocks 1 and 3, the digest that stands for block 1, and
/// what is shown.
type ChipRow = (u32, u32, [u32; 8], [u32; 8], &'static str, Shown);

const CHIPS: &[ChipRow] = &[
    (0, 0, ZEROS, ZEROS, "", (false, false)),
    (0, 1, ZEROS, ZEROS, "", (true, false)),
    (0, 2, ZEROS, ZEROS, "", (true, false)),
    (0, 4, ZEROS, ZEROS, "", (false, false)),
    (0, 0x40, FIRST, ZEROS, ONE_DIGEST, (false, false)),
    (0, 0x40, COUNTED, LAST, COUNTED_DIGEST, (false, false)),
    (0x0001_0000, 0, ZEROS, LAST, "", (false, false)),
    (
        0x0001_0000,
        0,
        COUNTED,
        ZEROS,
        COUNTED_DIGEST,
        (false, true),
    ),
    (
        0x0002_0000,
        0,
        COUNTED,
        LAST,
        COUNTED_DIGEST,
        (false, false),
    ),
    (
        0x0004_0000,
        0,
        COUNTED,
        ZEROS,
        COUNTED_DIGEST,
        (false, false),
    ),
    (0x0004_0000, 0, ZEROS, LAST, "", (false, true)),
    (0x0008_0000, 0, ZEROS, ZEROS, "", (false, false)),
];

/// A chip that hides its coding scheme, where the coding field has the read lock 3.
const CODING_HIDDEN: ChipRow = (0x0008_0000, 0, ZEROS, ZEROS, "", (true, false));

/// The words of a chip of the sample map: those of block 0, but for five zeros in the midst, and the
/// blocks 1 and 3. Block 2 is zeros.
pub fn chip(
    alloc: Global,
    first: u32,
    last: u32,
    block1: [u32; 8],
    block3: [u32; 8],
) -> Option<BlockWords> {
    let block0 = [first, 0, 0, 0, 0, 0, last];
    let mut blocks = Vec::new(alloc);
    for words in &[
        block0.as_slice(),
        block1.as_slice(),
        ZEROS.as_slice(),
        block3.as_slice(),
    ] {
        blocks.push(words.to_vec(alloc).ok()?).ok()?;
    }
    BlockWords::new(blocks.as_slice())
}

/// Whether blocks of zeros, of so many words, are taken, and whether they fit the map.
fn shape(alloc: Global, map: &FuseMap, counts: &[usize]) -> Option<[bool; 2]> {
    let mut blocks = Vec::new(alloc);
    for count in counts {
        blocks.push(vec![in alloc; 0; *count].ok()?).ok()?;
    }
    match BlockWords::new(blocks.as_slice()) {
        Some(words) => Some([true, fits(map, &words)]),
        None => Some([false, false]),
    }
}

#[test]
fn takes_words(rt: HostRuntime) -> Result<(), Fail> {
    let alloc = rt.alloc();
    let map = read_map(alloc, MAP)?;
    for row in SHAPES {
        assert!(rt; shape(alloc, &map, row.0) == Some(row.1), "{:?}", row.0);
    }
    Ok(())
}

/// Whether what a chip shows is as a row says. Of block 0 and block 3 each word is shown.
fn is_shown(map: &FuseMap, words: &BlockWords, row: &ChipRow) -> bool {
    let readback = redact(map, words);
    let ones = readback.ones.to_words();
    (ones[0], ones[6], ones[8], ones[31]) == (row.0, row.1, 0, row.3[7])
        && readback.shown.get(1) == Digest::parse(row.4)
        && readback.shown.get(3).is_none()
        && (
            has_coding_scheme(map, &readback),
            shows_what_is_hidden(map, &readback),
        ) == row.5
}

/// Whether a chip of the words of a row shows what the row says.
fn shows(alloc: Global, map: &FuseMap, row: &ChipRow) -> Option<bool> {
    let words = chip(alloc, row.0, row.1, row.2, row.3)?;
    Some(is_shown(map, &words, row))
}

/// Whether a hidden coding scheme is told, where the coding field has the read lock 3.
fn tells_hidden_coding(alloc: Global) -> Option<bool> {
    let text = changed(alloc, MAP, "count = 2\n", "count = 2\nread = 3\n")?;
    let map = read_map(alloc, text.as_str()).ok()?;
    shows(alloc, &map, &CODING_HIDDEN)
}

#[test]
fn tells_what_a_chip_shows(rt: HostRuntime) -> Result<(), Fail> {
    let alloc = rt.alloc();
    let map = read_map(alloc, MAP)?;
    for row in CHIPS {
        assert!(rt;
            shows(alloc, &map, row) == Some(true),
            "{} {} {}",
            row.0,
            row.1,
            row.4
        );
    }
    assert!(rt; tells_hidden_coding(alloc) == Some(true));
    Ok(())
}
