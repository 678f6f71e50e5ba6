ghost use Rattle.std.specs.Prelude.{◌≡◌, ◌<◌, ◌↔◌, IsSome, IsOk, IfSome, IfOk, OnErr};
ghost use Rattle.ids.specs.Sizes.{IsRoom, replicas};

use crate::keyring::Keyring;
use crate::verifying_keyring::VerifyingKeyring;
use ids::{Config, Fault, ReplicaId};
use std::alloc::{AllocError, Global};
use std::marker::Model;

/// The keys of a replica: a keyring whose party is one of the replicas of its sizes.
///
/// Whoever has one is a replica: with it frames to a replica are checked, and a replica's own frames are made.
/// Who only checks is lent a [`VerifyingKeyring`].
#[derive(Drop)]
pub struct ReplicaKeyring {
    verifying: VerifyingKeyring,
}

impl Model for ReplicaKeyring {
    ghost use Rattle.definitions.specs.Keyrings.{Keys};

    ghost Value = { Keys };

    ghost view = { λ k. k.verifying };
}

impl ReplicaKeyring {
    /// The keyring, where it is a replica's.
    pub fn new(keyring: Keyring) -> Option<ReplicaKeyring>
        ensures exactly { IsSome result ↔ (keyring.party < replicas keyring.sizes) }
        ensures made { IfSome result (λ k. k ≡ keyring) }
    {
        let verifying = VerifyingKeyring::new(keyring)?;
        Some(ReplicaKeyring { verifying })
    }

    /// The same keys, with room to remember tags, as [`Keyring::remembering`] says.
    pub fn remembering(self, alloc: Global) -> Result<ReplicaKeyring, AllocError>
        ensures { IfOk result (λ k. k ≡ self) }
    {
        let verifying = self.verifying.remembering(alloc)?;
        Ok(ReplicaKeyring { verifying })
    }

    /// A second keyring of the same keys, for a replica whose keys are wanted in two places.
    pub fn duplicate(&self, alloc: Global) -> Result<ReplicaKeyring, AllocError>
        ensures { IfOk result (λ k. k ≡ self.now) }
    {
        let verifying = self.verifying.duplicate(alloc)?;
        Ok(ReplicaKeyring { verifying })
    }

    /// The same keys, in a deployment whose caches have room for so many keys: 1 to `MOST_KEYS`, else
    /// `BadKeys`.
    pub fn with_most_keys(self, most_keys: usize) -> Result<ReplicaKeyring, Fault>
        ensures made { IfOk result (λ k. k
            ≡ record self { sizes = record self.sizes { most_keys = most_keys } }) }
        ensures refused { OnErr result (result ≡ Err Fault.BadKeys) }
        ensures only { IsOk result ↔ IsRoom most_keys }
    {
        let verifying = self.verifying.with_most_keys(most_keys)?;
        Ok(ReplicaKeyring { verifying })
    }

    /// The replica whose keys these are.
    pub fn replica(&self) -> ReplicaId
        ensures party { result ≡ self.now.party }
        ensures replica { self.now.party < replicas self.now.sizes }
    {
        self.verifying.replica()
    }

    /// The sizes that it was made with.
    pub fn config(&self) -> Config
        ensures { result ≡ self.now.sizes }
    {
        self.verifying.config()
    }

    /// The keyring that it is, to make tags and to verify them.
    pub fn as_keyring(&self) -> &Keyring
        ensures keys { result.now ≡ self.now }
        ensures replica { self.now.party < replicas self.now.sizes }
    {
        self.verifying.as_keyring()
    }

    /// The same keys, for who may only verify with them.
    pub fn verifying(&self) -> &VerifyingKeyring
        ensures { result.now ≡ self.now }
    {
        &self.verifying
    }
}
