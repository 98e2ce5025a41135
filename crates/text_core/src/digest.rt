// SHA-256 digests.
ghost use Rattle.std.specs.Prelude.{◌≡◌, Some};
ghost use Rattle.hex.specs.Hex.{encode_lower};
ghost use Rattle.sha2.specs.Sha256.{sha256};
ghost use Rattle.text_core.specs.Digest.{digest_of_text};

use hex::FromHex;
use sha2::Sha256;
use std::fmt;
use std::marker::Model;

/// A SHA-256 digest (FIPS 180-4). It is printed as 64 lowercase hexadecimal digits.
#[derive(Clone, Copy, PartialEq, Eq, PartialOrd, Ord)]
pub struct Digest {
    bytes: [u8; 32],
}

impl Model for Digest {
    ghost use Rattle.std.specs.Prelude.{List, ℕ};

    ghost Value = { List ℕ };

    ghost view = { λ d. d.bytes };

    ghost inverse = { λ bytes. record { bytes = bytes } };
}

impl Digest {
    /// The digest of these bytes.
    pub fn from_bytes(bytes: [u8; 32]) -> Digest
        ensures { result ≡ bytes }
    {
        Digest { bytes }
    }

    /// The digest of a message.
    pub fn of(message: &[u8]) -> Digest
        ensures { result ≡ sha256 message.now }
    {
        Digest {
            bytes: <Sha256 as sha2::Digest>::digest(message),
        }
    }

    /// Reads 64 hexadecimal digits of either case.
    pub fn parse(text: &str) -> Option<Digest>
        ensures { result ≡ digest_of_text text.now }
    {
        let bytes = <[u8; 32] as FromHex>::from_hex(text).ok()?;
        Some(Digest { bytes })
    }

    /// The bytes of the digest.
    pub fn as_bytes(&self) -> &[u8; 32]
        ensures { result.now ≡ self.now }
    {
        &self.bytes
    }
}

impl fmt::Display for Digest {
    ghost output = { λ digest. Some (encode_lower digest) };

    fn fmt<W: fmt::Write>(&self, f: &mut fmt::Formatter<W>) -> fmt::Result {
        let mut digits = [0u8; 64];
        if hex::encode_to_slice(&self.bytes, &mut digits).is_err() {
            return Err(fmt::Error);
        }
        match str::from_utf8(&digits) {
            Ok(text) => f.write_str(text),
            Err(_) => Err(fmt::Error),
        }
    }
}
