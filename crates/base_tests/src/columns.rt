//! The columns of bytes in which the tables keep a chip's fuses, by the sample map: 28 bytes of block
//! 0, 32 of each other, and key fields in the blocks 1 and 2.

ghost use Rattle.std.specs.Prelude.{◌<◌};

use fuse_columns::{decode_bits, encode_bits, encode_keys, encode_todo};
use fuse_image::{Bits, Image, Keys, Pending};
use fusemap_core::{FuseMap, Pos, read_map};
use std::test::Fail;
use test_fixtures::samples::MAP;
use text_core::{BitsBytes, Digest, KeysBytes, PendingBytes};

/// A position, and the byte of its column that isn't zero. A position of a key block has none.
const PLACES: &[(u8, u16, usize, u8)] = &[
    (0, 0, 0, 1),
    (0, 14, 1, 0x40),
    (0, 198, 24, 0x40),
    (1, 7, 28, 0),
    (3, 0, 92, 1),
    (3, 255, 123, 0x80),
];

/// A position, and whether a column whose bytes are all ones has it.
const ONES: &[(u8, u16, bool)] = &[
    (0, 0, true),
    (0, 223, true),
    (0, 224, false),
    (1, 0, false),
    (2, 255, false),
    (3, 255, true),
];

/// The set of one position.
fn bit(block: u8, bit: u16) -> Bits
    requires block { block < 4 }
    requires bit { bit < 256 }
{
    Bits::empty().with_run(Pos { block, bit }, 1)
}

/// Whether bytes are zeros but for one of them.
fn are_zeros_but(bytes: &[u8], place: usize, value: u8) -> bool {
    for index in 0..bytes.len() {
        let wanted = if index == place { value } else { 0 };
        if bytes[index] != wanted {
            return false;
        }
    }
    true
}

/// Whether a position's column is as its row says.
fn is_column(map: &FuseMap, row: &(u8, u16, usize, u8)) -> bool {
    if 4 <= row.0 || 256 <= row.1 {
        return false;
    }
    let column = encode_bits(map, &bit(row.0, row.1));
    column.as_bytes().len() == 124 && are_zeros_but(column.as_bytes(), row.2, row.3)
}

/// Whether a set has a position just where the row says so.
fn is_read(bits: Bits, row: &(u8, u16, bool)) -> bool {
    if 4 <= row.0 || 256 <= row.1 {
        return false;
    }
    let pos = Pos {
        block: row.0,
        bit: row.1,
    };
    let image = Image {
        burnt: bits,
        keys: Keys::empty(),
    };
    image.has(pos) == row.2
}

/// Whether a key of the second key field, and work in both batches, have their bytes.
fn are_keys_and_work(map: &FuseMap, digest: Digest) -> bool {
    let mut keys = [0; 66];
    keys[33] = 1;
    keys[34..66].copy_from_slice(digest.as_bytes());
    let mut todo = [0; 314];
    todo[24] = 0x40;
    todo[125] = 0x40;
    todo[248] = 1;
    todo[249..281].copy_from_slice(digest.as_bytes());
    let work = Pending {
        first: bit(0, 198),
        second: bit(0, 14),
        keys: Keys::empty().with(1, digest),
    };
    let column = encode_keys(map, &Keys::empty().with(2, digest));
    column.as_bytes() == keys.as_slice() && encode_todo(map, &work).as_bytes() == todo.as_slice()
}

/// Whether columns hold as many bytes as four blocks and four keys have, and no more.
fn have_room() -> bool {
    let ones = [255u8; 389];
    let ones = ones.as_slice();
    BitsBytes::from_bytes(&ones[..128]).is_some()
        && BitsBytes::from_bytes(&ones[..129]).is_none()
        && KeysBytes::from_bytes(&ones[..132]).is_some()
        && KeysBytes::from_bytes(&ones[..133]).is_none()
        && PendingBytes::from_bytes(&ones[..388]).is_some()
        && PendingBytes::from_bytes(ones).is_none()
}

#[test]
fn keeps_fuses_as_bytes(rt: HostRuntime) -> Result<(), Fail> {
    let map = read_map(rt.alloc(), MAP)?;
    for row in PLACES {
        assert!(rt; is_column(&map, row), "{} {}", row.0, row.1);
    }
    let ones = BitsBytes::from_bytes(&[255; 128]).ok_or("no room")?;
    let ones = decode_bits(&map, &ones);
    for row in ONES {
        assert!(rt; is_read(ones, row), "{} {}", row.0, row.1);
    }
    assert!(rt; are_keys_and_work(&map, Digest::of(b"key")) && have_room());
    Ok(())
}
