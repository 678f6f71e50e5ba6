//! Votes.

ghost use Rattle.std.specs.Prelude.{◌≡◌, ◌+◌, ◌*◌, ◌≤◌, length, IfSome};
ghost use Rattle.definitions.specs.Slices.{LeftAt};
ghost use Rattle.definitions.specs.Tags.{tag_of};
ghost use Rattle.frames_view.specs.Parts.{vote_in};
ghost use Rattle.frames_view.specs.Views.{Gives, vote_of};
ghost use Rattle.frames_view.specs.Places.{IsVoteAt, vote_len};

use crate::cursor::{block_at, take_party, take_vector};
use crate::views::VoteView;
use ids::ReplicaId;

impl<'a> VoteView<'a> {
    /// Who votes.
    pub fn voter(&self) -> ReplicaId
        ensures { result ≡ (vote_of self.now).voter }
    {
        ReplicaId(self.voter)
    }

    /// Its tags, one for each replica.
    pub fn vector(&self) -> &'a [u8]
        ensures value { result.now ≡ (vote_of self.now).vector }
        ensures lent { result ≡ self.now.vector }
    {
        self.vector
    }

    /// Its tag for a replica.
    pub fn tag(&self, replica: ReplicaId) -> &'a [u8; 32]
        requires { 32 * replica + 32 ≤ length (vote_of self.now).vector }
        ensures { result.now ≡ tag_of (vote_of self.now).vector replica }
    {
        block_at(self.vector, 32 * usize::from(replica.0))
    }
}

/// A vote of one of so many replicas.
#[tactic(auto, unfolding(crate::specs::Parts::vote_in))]
pub(crate) fn take_vote(bytes: &[u8], replicas: u8) -> Option<(VoteView<'_>, &[u8])>
    ensures taken { Gives (λ p. (vote_of p.0, p.1.now)) result (vote_in replicas bytes.now) }
    ensures lent { IfSome result (λ p. IsVoteAt bytes.entry 0 p.0 × LeftAt bytes.entry (vote_len p.0) p.1) }
{
    let (voter, rest) = take_party(bytes, replicas)?;
    let (vector, rest) = take_vector(rest, replicas)?;
    Some((VoteView { voter, vector }, rest))
}
