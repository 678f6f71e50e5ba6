ghost use Rattle.std.specs.Prelude.{◌≡◌, ◌++◌};
ghost use Rattle.definitions.specs.Tags.{hmac};
ghost use Rattle.authenticators.specs.Keyed.{AreStates};

use crate::mac::{KeyStates, KeyedHashers};
use std::marker::Model;

/// The key of two parties, made ready for tags: with it stand the hashers that have taken its
/// blocks, so that no tag hashes these again, and the hash values after these, for tags in lanes.
/// Contracts see the 32 bytes of the key.
#[derive(Drop)]
pub struct SharedKey {
    bytes: [u8; 32],
    hashers: KeyedHashers,
    states: KeyStates,
}

impl Model for SharedKey {
    ghost use Rattle.definitions.specs.Bytes.{Bytes};
    ghost use Rattle.authenticators.specs.Keyed.{AreStates, IsKeyed};

    ghost Value = { Bytes };

    ghost view = { λ k. k.bytes };

    ghost invariant = { λ k. IsKeyed k.bytes k.hashers × AreStates k.bytes k.states };
}

impl SharedKey {
    /// The key of these bytes. It takes no memory.
    pub fn new(bytes: [u8; 32]) -> SharedKey
        ensures { result ≡ bytes }
    {
        let hashers = KeyedHashers::new(&bytes);
        let states = KeyStates::new(&bytes);
        SharedKey {
            bytes,
            hashers,
            states,
        }
    }

    /// The bytes of the key.
    pub(crate) fn bytes(&self) -> &[u8; 32]
        ensures { result.now ≡ self.now }
    {
        &self.bytes
    }

    /// The hash values after its blocks.
    pub(crate) fn states(&self) -> &KeyStates
        ensures { AreStates self.now result.now }
    {
        &self.states
    }

    /// The same key again. It takes no memory.
    pub(crate) fn copied(&self) -> SharedKey
        ensures { result ≡ self.now }
    {
        SharedKey {
            bytes: self.bytes,
            hashers: self.hashers.copied(),
            states: self.states.copied(),
        }
    }

    /// The HMAC under this key of a text that is given in two parts.
    pub(crate) fn hmac_of_parts(&self, head: &[u8], rest: &[u8]) -> [u8; 32]
        ensures { result ≡ hmac self.now (head.now ++ rest.now) }
    {
        self.hashers.copied().hmac_of_parts(head, rest)
    }
}
