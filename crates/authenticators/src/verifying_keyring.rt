ghost use Rattle.std.specs.Prelude.{◌≡◌, ◌<◌, ◌↔◌, IsSome, IsOk, IsTrue, IfSome, IfOk, OnErr};
ghost use Rattle.std.specs.List.{All};
ghost use Rattle.ids.specs.Sizes.{IsRoom, replicas};
ghost use Rattle.definitions.specs.Keyrings.{is_peer, keyring_of, verify};

use crate::keyring::Keyring;
use ids::{Config, Fault, Kind, PartyId, ReplicaId};
use std::alloc::{AllocError, Global};
use std::marker::Model;

/// The keys of a replica, for who checks frames to it and makes none: it verifies tags, and gives none away.
#[derive(Drop)]
pub struct VerifyingKeyring {
    keyring: Keyring,
}

impl Model for VerifyingKeyring {
    ghost use Rattle.std.specs.Prelude.{◌<◌};
    ghost use Rattle.ids.specs.Sizes.{replicas};
    ghost use Rattle.definitions.specs.Keyrings.{Keys};

    ghost Value = { Keys };

    ghost view = { λ k. k.keyring };

    ghost invariant = { λ k. k.keyring.party < replicas k.keyring.sizes };
}

impl VerifyingKeyring {
    /// The keyring, where it is a replica's.
    pub(crate) fn new(keyring: Keyring) -> Option<VerifyingKeyring>
        ensures exactly { IsSome result ↔ (keyring.party < replicas keyring.sizes) }
        ensures made { IfSome result (λ k. k ≡ keyring) }
    {
        let n = keyring.config().n();
        if keyring.party().0 >= u16::from(n) {
            return None;
        }
        Some(VerifyingKeyring { keyring })
    }

    /// The replica whose keys these are.
    pub fn replica(&self) -> ReplicaId
        ensures party { result ≡ self.now.party }
        ensures replica { self.now.party < replicas self.now.sizes }
    {
        // For the proof: there are few replicas.
        let _most = self.keyring.config().n();
        ReplicaId(self.keyring.party().0 as u8)
    }

    /// The sizes that it was made with.
    pub fn config(&self) -> Config
        ensures { result ≡ self.now.sizes }
    {
        self.keyring.config()
    }

    /// Whether this is the tag of a content from a sender, as [`Keyring::verify`] says.
    pub fn verify(&self, label: Kind, from: PartyId, content: &[u8], tag: &[u8; 32]) -> bool
        requires { IsTrue (is_peer self.now from) }
        ensures { result ≡ verify (keyring_of self.now) label from content.now tag.now }
    {
        self.keyring.verify(label, from, content, tag)
    }

    /// Says that tags of a content from four senders are going to be verified. Where it remembers tags, those that
    /// aren't known are hashed together, and `verify` finds them.
    pub fn foresee(&self, label: Kind, from: &[PartyId; 4], content: &[u8])
        requires { All (λ sender. IsTrue (is_peer self.now sender)) from.now }
    {
        self.keyring.foresee(label, from, content);
    }

    /// The keyring that it is, for who may make tags with it.
    pub(crate) fn as_keyring(&self) -> &Keyring
        ensures keys { result.now ≡ self.now }
        ensures replica { self.now.party < replicas self.now.sizes }
    {
        &self.keyring
    }

    /// The same keys, with room to remember tags, as [`Keyring::remembering`] says.
    pub(crate) fn remembering(self, alloc: Global) -> Result<VerifyingKeyring, AllocError>
        ensures { IfOk result (λ k. k ≡ self) }
    {
        let keyring = self.keyring.remembering(alloc)?;
        Ok(VerifyingKeyring { keyring })
    }

    /// A second keyring of the same keys.
    pub(crate) fn duplicate(&self, alloc: Global) -> Result<VerifyingKeyring, AllocError>
        ensures { IfOk result (λ k. k ≡ self.now) }
    {
        let keyring = self.keyring.duplicate(alloc)?;
        Ok(VerifyingKeyring { keyring })
    }

    /// The same keys, where caches have room for so many keys: 1 to `MOST_KEYS`, else `BadKeys`.
    pub(crate) fn with_most_keys(self, most_keys: usize) -> Result<VerifyingKeyring, Fault>
        ensures made { IfOk result (λ k. k
            ≡ record self { sizes = record self.sizes { most_keys = most_keys } }) }
        ensures refused { OnErr result (result ≡ Err Fault.BadKeys) }
        ensures only { IsOk result ↔ IsRoom most_keys }
    {
        let keyring = self.keyring.with_most_keys(most_keys)?;
        Ok(VerifyingKeyring { keyring })
    }
}
