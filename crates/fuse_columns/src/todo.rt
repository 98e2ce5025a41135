// Pending work as bytes, and back.
ghost use Rattle.std.specs.Prelude.{◌≡◌, ◌+◌, length};
ghost use Rattle.fuse_columns.specs.Prelude.{bits_length, keys_length, todo_column, pending_in};
ghost use Rattle.fuse_image.specs.Prelude.{IsPending};

use crate::bits::{encode_bits, read_bits};
use crate::keys::{after, encode_keys, read_keys};
use fuse_image::Pending;
use fusemap_core::FuseMap;
use text_core::PendingBytes;

/// The bits of batch 1, the bits of batch 2 and the keys of batch 1 as bytes, each in the form that it
/// has in a column of its own.
pub fn encode_todo(map: &FuseMap, work: &Pending) -> PendingBytes
    ensures same { result ≡ todo_column map.now work.now }
    ensures length { length result
        ≡ bits_length map.now + (bits_length map.now + keys_length map.now) }
{
    let first = encode_bits(map, &work.first);
    let second = encode_bits(map, &work.second);
    let keys = encode_keys(map, &work.keys);
    let mut column = PendingBytes::empty();
    column.append(first.as_bytes());
    column.append(second.as_bytes());
    column.append(keys.as_bytes());
    column
}

/// The work that the bytes stand for, whatever they are: bits of the map's blocks outside key fields,
/// and keys at its key fields.
pub fn decode_todo(map: &FuseMap, column: &PendingBytes) -> Pending
    ensures same { result ≡ pending_in map.now column.now }
    ensures work { IsPending map.now result }
{
    let length = bits_length(map);
    let first = column.as_bytes();
    let second = after(first, length);
    let keys = after(second, length);
    Pending {
        first: read_bits(map, first),
        second: read_bits(map, second),
        keys: read_keys(map, keys),
    }
}

/// How many bytes the map's blocks have.
fn bits_length(map: &FuseMap) -> usize
    ensures { result ≡ bits_length map.now }
{
    let blocks = map.blocks();
    let mut words = 0;
    for count in blocks {
        words += usize::from(*count);
    }
    4 * words
}
