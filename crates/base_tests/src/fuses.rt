//! Sets of fuse positions, keys and images, and what the locks of the sample map hide and protect.

ghost use Rattle.std.specs.Prelude.{◌≡◌, ◌<◌};
ghost use Rattle.fuse_image.specs.Prelude.{IsPlace};

use fuse_image::{
    Bits, Image, Keys, hidden_positions, is_hidden_key, is_write_protected_key, key_positions,
    write_protected_positions,
};
use fusemap_core::{FuseMap, Pos, read_map};
use std::test::Fail;
use test_fixtures::samples::MAP;
use text_core::Digest;

/// A block, a first bit and how many bits, and the only word of them that isn't zero.
type RunRow = (u8, u16, u16, usize, u32);

const RUNS: &[RunRow] = &[
    (0, 0, 1, 0, 1),
    (0, 16, 4, 0, 0x000f_0000),
    (0, 198, 1, 6, 0x40),
    (1, 255, 1, 15, 0x8000_0000),
    (2, 7, 0, 16, 0),
    (3, 224, 32, 31, u32::MAX),
];

/// The first word that a chip shows, a position, and whether it is hidden and write-protected.
const POSITIONS: &[(u32, u8, u16, [bool; 2])] = &[
    (0x0001_0000, 1, 0, [true, false]),
    (0x0001_0000, 1, 255, [true, false]),
    (0x0001_0000, 2, 0, [false, false]),
    (0x0001_0000, 0, 16, [false, false]),
    (0x0004_0000, 3, 255, [true, false]),
    (0x0000_4000, 0, 198, [false, true]),
    (0x0000_4000, 0, 197, [false, false]),
];

/// The first word that a chip shows, a block, and whether it is a hidden key block and a
/// write-protected one.
const KEY_BLOCKS: &[(u32, u8, [bool; 2])] = &[
    (0x0001_0000, 1, [true, false]),
    (0x0001_0000, 2, [false, false]),
    (0x0004_0000, 3, [false, false]),
    (0x0004_0000, 1, [false, false]),
    (0x0000_0100, 2, [false, true]),
    (0x0000_0100, 1, [false, false]),
];

fn pos(block: u8, bit: u16) -> Pos
    requires { IsPlace (record { block = block; bit = bit }) }
    ensures { result ≡ record { block = block; bit = bit } }
{
    Pos { block, bit }
}

/// 32 words that are zero but for one.
fn words_with(word: usize, value: u32) -> [u32; 32]
    requires { word < 32 }
{
    let mut words = [0; 32];
    words[word] = value;
    words
}

/// Whether a run of positions is one word, and is read back from it.
fn is_word(row: &RunRow) -> bool {
    let (block, bit, count, word, value) = *row;
    if 4 <= block || 256 < bit || 256 - bit < count || 32 <= word {
        return false;
    }
    let first = Pos { block, bit };
    let words = words_with(word, value);
    let run = Bits::empty().with_run(first, count);
    run.to_words() == words && Bits::from_words(words).to_words() == words
}

/// Whether images are joined, taken apart and compared.
fn are_images_kept(one: Digest) -> bool {
    let image = Image::empty().with_bits(&[pos(0, 198)]).with_key(1, one);
    let all = image.join(&Image::from_words(words_with(6, 0x44)));
    let rest = all.minus(&image);
    image.has(pos(0, 198))
        && all.key_of(1) == Some(one)
        && image.is_within(&all)
        && !all.is_within(&image)
        && rest.to_words() == words_with(6, 4)
        && rest.key_of(1).is_none()
        && rest.minus(&all).is_empty()
}

/// Whether a position of the map is hidden, and whether it is write-protected.
fn locks_of(map: &FuseMap, first: u32, block: u8, bit: u16) -> [bool; 2] {
    let blocks = map.blocks();
    let place = usize::from(block);
    if blocks.len() <= place || 32 * u16::from(blocks[place]) <= bit {
        return [false, false];
    }
    let pos = Pos { block, bit };
    let image = Image::from_words(words_with(0, first));
    [image.hidden(map, pos), image.write_protected(map, pos)]
}

/// Whether a block is a hidden key block, and whether it is a write-protected one.
fn key_locks_of(map: &FuseMap, first: u32, block: u8) -> [bool; 2] {
    let burnt = Bits::from_words(words_with(0, first));
    [
        is_hidden_key(map, &burnt, block),
        is_write_protected_key(map, &burnt, block),
    ]
}

/// Whether a chip that hides the blocks 1 and 3 shows the rest, and whole fields are locked.
fn is_rest_visible(map: &FuseMap, digest: Digest) -> bool {
    let block1 = Bits::empty().with_run(pos(1, 0), 256);
    let burnt = Bits::from_words(words_with(0, 0x0005_4000));
    let image = Image {
        burnt: burnt.with_run(pos(3, 255), 1),
        keys: Keys::new([None, Some(digest), Some(digest), None]),
    };
    let shown = image.visible(map);
    let hidden = hidden_positions(map, &burnt);
    shown.to_words() == burnt.to_words()
        && shown.key_of(1).is_none()
        && shown.key_of(2) == Some(digest)
        && hidden.to_words() == block1.with_run(pos(3, 0), 256).to_words()
        && write_protected_positions(map, &burnt).to_words() == words_with(6, 0x40)
        && key_positions(map).to_words() == block1.with_run(pos(2, 0), 256).to_words()
}

#[test]
fn keeps_images_and_follows_locks(rt: HostRuntime) -> Result<(), Fail> {
    let map = read_map(rt.alloc(), MAP)?;
    let digest = Digest::of(b"key");
    for row in RUNS {
        assert!(rt; is_word(row), "{} {}", row.0, row.1);
    }
    for row in POSITIONS {
        assert!(rt;
            locks_of(&map, row.0, row.1, row.2) == row.3,
            "{} {}",
            row.0,
            row.2
        );
    }
    for row in KEY_BLOCKS {
        assert!(rt;
            key_locks_of(&map, row.0, row.1) == row.2,
            "{} {}",
            row.0,
            row.1
        );
    }
    assert!(rt; are_images_kept(digest) && is_rest_visible(&map, digest));
    Ok(())
}
