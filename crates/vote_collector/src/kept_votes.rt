//! The votes that are kept for one block.

ghost use Rattle.std.specs.Prelude.{◌≡◌, ◌≤◌, ◌++◌, ◌∷◌, [], IfOk, OnOk, OnErr, length, nat_lt, ◌==◌};
ghost use Rattle.std.specs.List.{position, position_or_len, list_any, flat_map};
ghost use Rattle.definitions.specs.Frames.{vote_bytes};
ghost use Rattle.definitions.specs.States.{insert_vote};
ghost use Rattle.frames_view.specs.Views.{vote_of};
ghost use Rattle.vote_collector.specs.Collecting.{has_voter};

use crate::kept_vote::KeptVote;
use frames_view::{VoteView, write_certified_vote};
use ids::{Fault, Height, ReplicaId};
use std::alloc::{AllocError, Global};
use std::marker::Model;

/// The votes for a block of this height, by number of voter.
#[derive(Drop)]
pub(crate) struct KeptVotes {
    height: Height,
    votes: Vec<KeptVote>,
}

impl Model for KeptVotes {
    ghost use Rattle.vote_collector.specs.Collecting.{Entry};

    ghost Value = { Entry };

    ghost view = { λ k. record { height = k.height; votes = k.votes.items } };
}

impl KeptVotes {
    /// A block's first vote.
    pub(crate) fn new(
        alloc: Global,
        height: Height,
        vote: KeptVote,
    ) -> Result<KeptVotes, AllocError>
        ensures { IfOk result (λ k. k ≡ record { height = height; votes = vote ∷ [] }) }
    {
        let mut votes = Vec::new(alloc);
        votes.push(vote)?;
        Ok(KeptVotes { height, votes })
    }

    /// Whether the block is higher than this.
    pub(crate) fn is_above(&self, height: Height) -> bool
        ensures { result ≡ nat_lt height self.now.height }
    {
        self.height > height
    }

    /// The votes.
    pub(crate) fn votes(&self) -> &[KeptVote]
        ensures { result.now ≡ self.now.votes }
    {
        &self.votes
    }

    /// Puts a vote into its place by number of voter.
    pub(crate) fn insert(&mut self, vote: KeptVote) -> Result<(), AllocError>
        ensures inserted { OnOk result
            (self.new ≡ record self.old { votes = insert_vote vote self.old.votes }) }
        ensures unchanged { OnErr result (self.new ≡ self.old) }
    {
        let place = place_of(self.votes.as_slice(), vote.voter());
        self.votes.insert(place, vote)?;
        Ok(())
    }
}

/// Whether one of the votes is of this voter.
pub(crate) fn has_voter(votes: &[KeptVote], voter: ReplicaId) -> bool
    ensures { result ≡ has_voter voter votes.now }
{
    votes.iter().any(|vote| vote.voter() == voter)
}

/// The place before the first vote of a greater voter.
pub(crate) fn place_of(votes: &[KeptVote], voter: ReplicaId) -> usize
    ensures place { result ≡ position_or_len (λ b. nat_lt voter b.voter) votes.now }
    ensures within { result ≤ length votes.now }
{
    first_above(votes, voter).unwrap_or(votes.len())
}

fn first_above(votes: &[KeptVote], voter: ReplicaId) -> Option<usize>
    ensures { result ≡ position (λ b. nat_lt voter b.voter) votes.now }
{
    votes.iter().position(|vote| voter < vote.voter())
}

/// The bytes of the votes, one after the other.
fn write_votes(votes: &[KeptVote], bytes: &mut Vec<u8>) -> Result<(), Fault>
    ensures bytes { OnOk result (bytes.new.items ≡ bytes.old.items ++ flat_map vote_bytes votes.now) }
    ensures memory { OnErr result (result ≡ Err Fault.Memory) }
{
    for vote in votes {
        write_certified_vote(vote.voter(), vote.vector(), bytes)?;
    }
    Ok(())
}

/// The bytes of the votes with another one in its place, one after the other.
pub(crate) fn spelled(alloc: Global, votes: &[KeptVote], vote: &VoteView) -> Result<Vec<u8>, Fault>
    ensures bytes { IfOk result
        (λ bytes. bytes.items ≡ flat_map vote_bytes (insert_vote (vote_of vote.now) votes.now)) }
    ensures memory { OnErr result (result ≡ Err Fault.Memory) }
{
    let (before, behind) = votes.split_at(place_of(votes, vote.voter()));
    let mut bytes = Vec::new(alloc);
    write_votes(before, &mut bytes)?;
    write_certified_vote(vote.voter(), vote.vector(), &mut bytes)?;
    write_votes(behind, &mut bytes)?;
    Ok(bytes)
}
