//! The keys of who takes frames for a replica.

ghost use Rattle.std.specs.Prelude.{◌≡◌, ◌<◌, IfOk, OnErr};
ghost use Rattle.ids.specs.Sizes.{replicas};
ghost use Rattle.definitions.specs.Checks.{identity_of};
ghost use Rattle.definitions.specs.Frames.{spelling};
ghost use Rattle.definitions.specs.Sendings.{fetch_frame};

use crate::to_one::fetch_frame;
use authenticators::{ReplicaKeyring, VerifyingKeyring};
use ids::{Config, Digest, Fault, ReplicaId};
use std::alloc::Global;
use std::marker::Model;

/// The keys of a replica, for who takes frames for it: with them frames are checked, and the blocks that frames
/// lack are asked for. Nothing else is made with them: no vote, no proposal, no announcement, no reply, and no
/// block. So whoever has no more than these says in the replica's name only what a step of it gave out.
#[derive(Drop)]
pub struct WorkerKeyring {
    keyring: ReplicaKeyring,
}

impl Model for WorkerKeyring {
    ghost use Rattle.definitions.specs.Keyrings.{Keys};

    ghost Value = { Keys };

    ghost view = { λ k. k.keyring };
}

impl WorkerKeyring {
    /// The keys of a replica's worker.
    pub fn new(keyring: ReplicaKeyring) -> WorkerKeyring
        ensures { result ≡ keyring }
    {
        WorkerKeyring { keyring }
    }

    /// The replica whose keys these are.
    pub fn replica(&self) -> ReplicaId
        ensures party { result ≡ self.now.party }
        ensures replica { self.now.party < replicas self.now.sizes }
    {
        self.keyring.replica()
    }

    /// The sizes that it was made with.
    pub fn config(&self) -> Config
        ensures { result ≡ self.now.sizes }
    {
        self.keyring.config()
    }

    /// The keys to check frames with.
    pub fn verifying(&self) -> &VerifyingKeyring
        ensures { result.now ≡ self.now }
    {
        self.keyring.verifying()
    }

    /// The question to a replica for the block of a digest: a Fetch frame.
    #[tactic(auto, unfolding(definitions::specs::Sendings::fetch_frame))]
    pub fn fetch_frame(
        &self,
        alloc: Global,
        to: ReplicaId,
        block: &Digest,
    ) -> Result<Vec<u8>, Fault>
        requires other { to < replicas self.now.sizes }
        ensures made { IfOk result
            (λ frame. frame.items ≡ spelling (fetch_frame (identity_of self.now) to block.now)) }
        ensures memory { OnErr result (result ≡ Err Fault.Memory) }
    {
        fetch_frame(alloc, &self.keyring, to, block)
    }
}
