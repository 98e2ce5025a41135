// Tables of the digests of keys, by block.
ghost use Rattle.std.specs.Prelude.{◌≡◌, ◌<◌, ◌↔◌, IsTrue, IfSome, Some, None, is_some, is_none, length, if◌then◌else◌};
ghost use Rattle.std.specs.FinMap as map;
ghost use Rattle.std.specs.List.{list_all};
ghost use Rattle.std.specs.Option.{option_or};
ghost use Rattle.fuse_image.specs.Keys.{AreAmong, AreDigests, AreEachAmong, HoldsDigests, has_no_key, keys_union, table, keys_without};

use std::marker::Model;
use text_core::Digest;

/// A table from key blocks, by their numbers 0 to 3, to the SHA-256 digests of their keys (the key
/// blocks of ESP32's eFuse controller). It takes no memory.
#[derive(Clone, Copy)]
pub struct Keys {
    digests: [Option<Digest>; 4],
}

impl Model for Keys {
    ghost use Rattle.std.specs.FinMap as map;
    ghost use Rattle.std.specs.Coded.{coded_ℕ, coded_list};
    ghost use Rattle.std.proofs.Common.{ap};
    ghost use Rattle.fuse_image.specs.Keys.{KeyTable, table, AreDigests, digests_of, digests_again};

    ghost Value = { KeyTable };

    ghost coded = { map.code coded_ℕ (coded_list coded_ℕ) };

    ghost view = { λ a. table a.digests };

    ghost invariant = { λ a. AreDigests a.digests };

    ghost inverse = { λ t. record { digests = digests_of t } };

    ghost inverse_ok = { λ a h. ap (λ digests. record { digests = digests }) (digests_again a.digests h) };
}

impl Keys {
    /// No key.
    pub fn empty() -> Keys
        ensures { result ≡ map.empty }
    {
        Keys {
            digests: [None, None, None, None],
        }
    }

    /// The keys of blocks 0 to 3.
    pub fn new(digests: [Option<Digest>; 4]) -> Keys
        ensures { result ≡ table digests }
    {
        Keys { digests }
    }

    /// The digest of the key of a block, if it has one.
    pub fn get(&self, block: u8) -> Option<Digest>
        requires { block < 4 }
        ensures { result ≡ map.get self.now block }
    {
        self.digests[usize::from(block)]
    }

    /// These, with this digest at the block in place of any other.
    pub fn with(&self, block: u8, digest: Digest) -> Keys
        requires { block < 4 }
        ensures { result ≡ map.insert self.now block digest }
    {
        Keys {
            digests: [
                replaced(self.digests[0], digest, block == 0),
                replaced(self.digests[1], digest, block == 1),
                replaced(self.digests[2], digest, block == 2),
                replaced(self.digests[3], digest, block == 3),
            ],
        }
    }

    /// The keys of both. Where both have one, it is its own.
    pub fn join(&self, other: &Keys) -> Keys
        ensures { result ≡ keys_union self.now other.now }
    {
        Keys {
            digests: [
                either(self.get(0), other.get(0)),
                either(self.get(1), other.get(1)),
                either(self.get(2), other.get(2)),
                either(self.get(3), other.get(3)),
            ],
        }
    }

    /// The keys of the blocks at which the other has none.
    pub fn minus(&self, other: &Keys) -> Keys
        ensures { result ≡ keys_without self.now other.now }
    {
        Keys {
            digests: [
                unless_there(self.get(0), other.get(0)),
                unless_there(self.get(1), other.get(1)),
                unless_there(self.get(2), other.get(2)),
                unless_there(self.get(3), other.get(3)),
            ],
        }
    }

    /// Whether there is no key.
    pub fn is_empty(&self) -> bool
        ensures { result ≡ has_no_key self.now }
    {
        are_none(&self.digests)
    }

    /// Whether the other has each of these keys, with the same digest.
    pub fn is_within(&self, other: &Keys) -> bool
        ensures { IsTrue result ↔ AreAmong self.now other.now }
    {
        are_among(&self.digests, &other.digests)
    }

    /// A fact: each digest has 32 bytes. Nothing happens.
    pub fn fact_digests(&self)
        ensures { HoldsDigests self.now }
    {
        fact_digest(self.digests[0]);
        fact_digest(self.digests[1]);
        fact_digest(self.digests[2]);
        fact_digest(self.digests[3]);
    }
}

/// A fact: a digest has 32 bytes. Nothing happens.
fn fact_digest(digest: Option<Digest>)
    ensures { IfSome digest (λ bytes. length bytes ≡ 32) }
{
    if let Some(digest) = digest {
        let _bytes = digest.as_bytes();
    }
}

fn are_none(digests: &[Option<Digest>]) -> bool
    ensures { result ≡ list_all is_none digests.now }
{
    digests.iter().all(|digest| digest.is_none())
}

fn either(own: Option<Digest>, other: Option<Digest>) -> Option<Digest>
    ensures { result ≡ option_or own other }
{
    if own.is_some() { own } else { other }
}

fn unless_there(own: Option<Digest>, other: Option<Digest>) -> Option<Digest>
    ensures { result ≡ (if is_some other then None else own) }
{
    if other.is_some() { None } else { own }
}

fn replaced(own: Option<Digest>, digest: Digest, is_here: bool) -> Option<Digest>
    ensures { result ≡ (if is_here then Some digest else own) }
{
    if is_here { Some(digest) } else { own }
}

fn are_among(own: &[Option<Digest>], other: &[Option<Digest>]) -> bool
    requires own { AreDigests own.now }
    requires other { AreDigests other.now }
    ensures { IsTrue result ↔ AreEachAmong own.now other.now 4 }
{
    for block in 0..4 {
        if !is_among(own[block], other[block]) {
            return false;
        }
    }
    true
}

/// Whether there is no digest, or the other is the same.
fn is_among(own: Option<Digest>, other: Option<Digest>) -> bool
    ensures { IsTrue result ↔ IfSome own (λ digest. other ≡ Some digest) }
{
    match own {
        Some(digest) => other == Some(digest),
        None => true,
    }
}
