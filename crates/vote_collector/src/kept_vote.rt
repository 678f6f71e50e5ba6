//! One vote that is kept.

ghost use Rattle.std.specs.Prelude.{◌≡◌, IfOk};
ghost use Rattle.frames_view.specs.Views.{vote_of};

use frames_view::VoteView;
use ids::ReplicaId;
use std::alloc::{AllocError, Global};
use std::marker::Model;

/// A vote of its own, as `VoteView` is one that is lent.
#[derive(Debug, Drop)]
pub struct KeptVote {
    voter: ReplicaId,
    /// Its tag for each replica.
    vector: Vec<u8>,
}

impl Model for KeptVote {
    ghost use Rattle.definitions.specs.Frames.{Vote};

    ghost Value = { Vote };

    ghost view = { λ k. record { voter = k.voter; vector = k.vector.items } };
}

impl KeptVote {
    /// A copy of a vote.
    pub fn copy(alloc: Global, vote: &VoteView) -> Result<KeptVote, AllocError>
        ensures { IfOk result (λ k. k ≡ vote_of vote.now) }
    {
        let vector = Vec::from_slice(alloc, vote.vector())?;
        Ok(KeptVote {
            voter: vote.voter(),
            vector,
        })
    }

    /// Whose vote it is.
    pub fn voter(&self) -> ReplicaId
        ensures { result ≡ self.now.voter }
    {
        self.voter
    }

    /// Its voter's tag for each replica.
    pub fn vector(&self) -> &[u8]
        ensures { result.now ≡ self.now.vector }
    {
        &self.vector
    }
}
