// The digests of public keys.
ghost use Rattle.std.specs.Prelude.{◌≡◌, Some};
ghost use Rattle.hex.specs.Hex.{encode_lower};
ghost use Rattle.sha2.specs.Sha256.{sha256};
ghost use Rattle.text_core.specs.Prelude.{digest_of_text};

use std::fmt;
use std::marker::Model;
use text_core::Digest;

/// The digest of a public key: SHA-256 (FIPS 180-4) over the bytes of the key's
/// SubjectPublicKeyInfo (RFC 5280, section 4.1.2.7) as they were handed in. It is printed as 64
/// lowercase hexadecimal digits.
#[derive(Clone, Copy, PartialEq, Eq, PartialOrd, Ord)]
pub struct KeyDigest(Digest);

impl Model for KeyDigest {
    ghost use Rattle.std.specs.Prelude.{List, ℕ};

    ghost Value = { List ℕ };

    ghost view = { λ k. k.0 };

    ghost inverse = { λ bytes. record { 0 = bytes } };
}

impl KeyDigest {
    /// The digest of a key, of which these are the bytes of the SubjectPublicKeyInfo.
    pub fn of(key_info: &[u8]) -> KeyDigest
        ensures { result ≡ sha256 key_info.now }
    {
        KeyDigest(Digest::of(key_info))
    }

    /// The digest that has these bytes, as a table keeps them.
    pub fn from_bytes(bytes: [u8; 32]) -> KeyDigest
        ensures { result ≡ bytes }
    {
        KeyDigest(Digest::from_bytes(bytes))
    }

    /// Reads 64 hexadecimal digits of either case.
    pub fn parse(text: &str) -> Option<KeyDigest>
        ensures { result ≡ digest_of_text text.now }
    {
        Some(KeyDigest(Digest::parse(text)?))
    }

    /// The 32 bytes of the digest.
    pub fn as_bytes(&self) -> &[u8; 32]
        ensures { result.now ≡ self.now }
    {
        self.0.as_bytes()
    }
}

impl fmt::Display for KeyDigest {
    ghost output = { λ digest. Some (encode_lower digest) };

    fn fmt<W: fmt::Write>(&self, f: &mut fmt::Formatter<W>) -> fmt::Result {
        self.0.fmt(f)
    }
}
