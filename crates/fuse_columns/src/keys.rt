// Tables of keys as bytes, and back.
ghost use Rattle.std.specs.Prelude.{◌≡◌, ◌+◌, ◌≤◌, ◌++◌, length, take, drop};
ghost use Rattle.fuse_columns.specs.KeysColumns as keys_columns;
ghost use Rattle.fuse_image.specs.Prelude.{AreKeysOf};
ghost use Rattle.fuse_columns.specs.Prelude.{key_blocks, key_bytes, keys_column, keys_in, keys_length};

use fuse_image::Keys;
use fusemap_core::{Field, FuseMap};
use text_core::{Digest, KeysBytes};

/// How many bytes there are for a key: one that says whether there is a key, and its digest.
const KEY_LENGTH: usize = 33;

/// A table of keys as 33 bytes for each key field of the map, in the map's order: 33 zeros where the
/// field's block has no key, else 1 and the key's SHA-256 digest.
pub fn encode_keys(map: &FuseMap, keys: &Keys) -> KeysBytes
    ensures same { result ≡ keys_column map.now keys.now }
    ensures length { length result ≡ keys_length map.now }
{
    let fields = map.fields();
    let mut column = KeysBytes::empty();
    for field in fields {
        if field.key {
            append_key(&mut column, keys.get(field.block));
        }
    }
    column
}

/// The keys of the map's key fields whose 33 bytes are 1 and a digest. Any other bytes of a field, or
/// fewer, stand for no key, and further ones mean nothing.
pub fn decode_keys(map: &FuseMap, column: &KeysBytes) -> Keys
    ensures same { result ≡ keys_in map.now column.now }
    ensures keys { AreKeysOf map.now result }
{
    read_keys(map, column.as_bytes())
}

/// The keys of the map's key fields that stand in bytes, wherever these lie.
pub(crate) fn read_keys(map: &FuseMap, bytes: &[u8]) -> Keys
    ensures { result ≡ keys_in map.now bytes.now }
{
    let fields = map.fields();
    Keys::new([
        key_in(fields, bytes, 0),
        key_in(fields, bytes, 1),
        key_in(fields, bytes, 2),
        key_in(fields, bytes, 3),
    ])
}

/// Appends the bytes of a key.
fn append_key(column: &mut KeysBytes, digest: Option<Digest>)
    requires { length column.old + 33 ≤ 132 }
    ensures value { column.new ≡ column.old ++ key_bytes digest }
    ensures length { length column.new ≡ length column.old + 33 }
{
    match digest {
        Some(digest) => {
            column.append(&[1]);
            column.append(digest.as_bytes());
        }
        None => column.append(&[0; KEY_LENGTH]),
    }
}

/// The key of a block, where the bytes have 33 for each key field.
fn key_in(fields: &[Field], bytes: &[u8], block: u8) -> Option<Digest>
    ensures { result ≡ keys_columns.key_in_bytes (key_blocks fields.now) bytes.now block }
{
    let mut rest = bytes;
    for field in fields {
        if field.key {
            if field.block == block {
                return key_of(rest);
            }
            rest = after(rest, KEY_LENGTH);
        }
    }
    None
}

/// The key that the first 33 bytes stand for: none, if there are fewer.
fn key_of(bytes: &[u8]) -> Option<Digest>
    ensures { result ≡ keys_columns.key_of_bytes (take 33 bytes.now) }
{
    if bytes.len() < KEY_LENGTH || bytes[0] != 1 {
        return None;
    }
    let mut digest = [0; 32];
    digest.copy_from_slice(&bytes[1..KEY_LENGTH]);
    Some(Digest::from_bytes(digest))
}

/// The bytes after the first ones.
pub(crate) fn after(bytes: &[u8], count: usize) -> &[u8]
    ensures { result.now ≡ drop count bytes.now }
{
    if count >= bytes.len() {
        return &[];
    }
    &bytes[count..]
}
