//! Votes that are collected.

ghost use Rattle.std.specs.Prelude.{◌≡◌, [], IfOk, OnOk, OnErr};
ghost use Rattle.ids.specs.Sizes.{quorum};
ghost use Rattle.definitions.specs.FrameLimits.{IsVote};
ghost use Rattle.frames_view.specs.Views.{vote_of};
ghost use Rattle.vote_collector.specs.declared.added.Added.TheVariants.{Complete};
ghost use Rattle.vote_collector.specs.Collecting.{votes_for, judged, with_vote, kept_above};
ghost use Rattle.vote_collector.specs.Lawful.{made_with};

use crate::added::Added;
use crate::kept_blocks::{add_to, drop_from};
use crate::kept_vote::KeptVote;
use crate::kept_votes::{KeptVotes, has_voter, spelled};
use frames_view::{CertificateBuf, VoteView};
use ids::{Config, Digest, Fault, Height, ReplicaId};
use std::alloc::{AllocError, Global};
use std::collections::BTreeMap;
use std::marker::Model;

/// Votes for blocks, by the digests of the blocks.
#[derive(Drop)]
pub struct Collector {
    alloc: Global,
    config: Config,
    blocks: BTreeMap<Digest, KeptVotes>,
}

impl Model for Collector {
    ghost use Rattle.vote_collector.specs.Collecting.{Collected, AreVotesOf};

    ghost Value = { Collected };

    ghost view = { λ c. record { sizes = c.config; kept = c.blocks.entries } };

    ghost invariant = { λ c. AreVotesOf c.config c.blocks.entries };
}

impl Collector {
    /// No votes yet. It takes no memory.
    pub fn new(alloc: Global, config: Config) -> Collector
        ensures { result ≡ record { sizes = config; kept = [] } }
    {
        Collector {
            alloc,
            config,
            blocks: BTreeMap::new(alloc),
        }
    }

    /// The votes that are kept for a digest.
    fn votes(&self, digest: &Digest) -> &[KeptVote]
        ensures { result.now ≡ votes_for digest.now self.now.kept }
    {
        match self.blocks.get(digest) {
            Some(kept) => kept.votes(),
            None => &[],
        }
    }

    /// What a vote of this voter is to the votes that are kept for a digest. It takes no memory.
    pub fn judge(&self, digest: &Digest, voter: ReplicaId) -> Added
        ensures { result ≡ judged (quorum self.now.sizes) voter (votes_for digest.now self.now.kept) }
    {
        let votes = self.votes(digest);
        if has_voter(votes, voter) {
            Added::Doubled
        } else if votes.len() + 1 == usize::from(self.config.quorum()) {
            Added::Complete
        } else {
            Added::First
        }
    }

    /// The certificate of a vote and those that are kept for a digest, by number of voter. It is
    /// asked where `judge` says `Complete`, and its one refusal is `Memory`.
    pub fn completed(&self, digest: &Digest, vote: &VoteView) -> Result<CertificateBuf, Fault>
        requires vote { IsVote self.now.sizes (vote_of vote.now) }
        requires complete { judged (quorum self.now.sizes) vote.now.voter
            (votes_for digest.now self.now.kept) ≡ Complete }
        ensures made { IfOk result (λ q. q ≡ made_with digest.now (vote_of vote.now) self.now.kept) }
        ensures memory { OnErr result (result ≡ Err Fault.Memory) }
    {
        let quorum = self.config.quorum();
        let bytes = spelled(self.alloc, self.votes(digest), vote)?;
        Ok(CertificateBuf::of_votes(&self.config, *digest, quorum, bytes))
    }

    /// A copy of a vote, for `add`.
    pub fn keep(&self, vote: &VoteView) -> Result<KeptVote, AllocError>
        ensures { IfOk result (λ k. k ≡ vote_of vote.now) }
    {
        KeptVote::copy(self.alloc, vote)
    }

    /// Adds a vote to those for the block of this digest and height. Where memory is refused, nothing changes.
    pub fn add(&mut self, digest: Digest, height: Height, vote: KeptVote) -> Result<(), AllocError>
        requires { IsVote self.old.sizes vote }
        ensures kept { OnOk result
            (self.new ≡ record self.old { kept = with_vote digest height vote self.old.kept }) }
        ensures unchanged { OnErr result (self.new ≡ self.old) }
    {
        add_to(self.alloc, &mut self.blocks, digest, height, vote)
    }

    /// Forgets all votes for blocks of at most this height. It takes no memory.
    pub fn drop_up_to(&mut self, height: Height)
        ensures { self.new ≡ record self.old { kept = kept_above height self.old.kept } }
    {
        drop_from(&mut self.blocks, height);
    }

    /// Forgets all votes. It takes no memory.
    pub fn forget_all(&mut self)
        ensures { self.new ≡ record self.old { kept = [] } }
    {
        self.blocks = BTreeMap::new(self.alloc);
    }
}
