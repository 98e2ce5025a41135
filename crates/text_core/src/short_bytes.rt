// Lists of bytes that lie in place.
ghost use Rattle.std.specs.Prelude.{◌≡◌, ◌+◌, ◌≤◌, [], ◌++◌, length};
ghost use Rattle.text_core.specs.ShortBytes.{bytes_within, zeros};

use std::marker::Model;

/// A list of at most `N` bytes that lies in place and takes no memory. The array has zeros after
/// them.
#[derive(Clone, Copy)]
pub struct ShortBytes<const N: usize> {
    array: [u8; N],
    len: usize,
}

// Clauses see the bytes.
impl<const N: usize> Model for ShortBytes<N> {
    ghost use Rattle.std.specs.Prelude.{List, ℕ, take, length, ◌++◌, ◌-◌, replicate};
    ghost use Rattle.text_core.specs.InPlace.{AreAtFront};
    ghost use Rattle.text_core.specs.InFront.{array_again, length_again};

    ghost Value = { List ℕ };

    ghost view = { λ a. take a.len a.array };

    ghost invariant = { λ a. AreAtFront N 0 a.array a.len };

    ghost inverse = { λ bytes. record { array = bytes ++ replicate (N - length bytes) 0; len = length bytes } };

    ghost inverse_ok = { λ a h i. record {
      array = array_again N 0 a.array a.len h i;
      len = length_again N 0 a.array a.len h i;
    } };
}

impl<const N: usize> ShortBytes<N> {
    /// No byte.
    pub fn empty() -> Self
        ensures { result ≡ [] }
    {
        ShortBytes {
            array: [0; N],
            len: 0,
        }
    }

    /// These bytes, if there are at most `N`.
    pub fn from_bytes(bytes: &[u8]) -> Option<Self>
        ensures { result ≡ bytes_within N bytes.now }
    {
        if bytes.len() > N {
            return None;
        }
        let mut column = Self::empty();
        column.append(bytes);
        Some(column)
    }

    /// The bytes.
    pub fn as_bytes(&self) -> &[u8]
        ensures same { result.now ≡ self.now }
        ensures few { length result.now ≤ N }
    {
        &self.array[..self.len]
    }

    /// As many zeros.
    pub fn cleared(&self) -> Self
        ensures { result ≡ zeros (length self.now) }
    {
        ShortBytes {
            array: [0; N],
            len: self.len,
        }
    }

    /// Puts further bytes after these.
    pub fn append(&mut self, bytes: &[u8])
        requires { length self.old + length bytes.now ≤ N }
        ensures { self.new ≡ self.old ++ bytes.now }
    {
        let end = self.len + bytes.len();
        let array = &mut self.array[..];
        array[self.len..end].copy_from_slice(bytes);
        self.len = end;
    }
}

/// A set of fuse positions as the bytes of all blocks of its fuse map, block 0 first, with zeros for
/// key blocks. Byte i of a block holds its bits 8i to 8i+7, the lowest bit first. A map has at most
/// 4 blocks of 32 bytes.
pub type BitsBytes = ShortBytes<128>;

/// The SHA-256 digests of a chip's keys as 33 bytes for each key field of its fuse map, in the map's
/// order: 33 zeros where there is no key, else 1 and the digest. A map has at most 4 key fields.
pub type KeysBytes = ShortBytes<132>;

/// What is still to be burnt: the bits of batch 1, the bits of batch 2, and the keys of batch 1, each
/// in the forms of their own columns.
pub type PendingBytes = ShortBytes<388>;
