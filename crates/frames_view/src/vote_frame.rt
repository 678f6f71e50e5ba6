//! Votes that are sent.

ghost use Rattle.std.specs.Prelude.{◌≡◌, IfSome};
ghost use Rattle.frames_view.specs.Fields.{frame_digest, frame_vote};
ghost use Rattle.frames_view.specs.Parts.{vote_frame_in};
ghost use Rattle.frames_view.specs.Views.{Gives, vote_of, vote_frame_of};
ghost use Rattle.frames_view.specs.Places.{IsVoteFrameAt};

use crate::cursor::take_32;
use crate::frame_views::VoteFrameView;
use crate::views::VoteView;
use crate::vote::take_vote;
use ids::Config;

impl<'a> VoteFrameView<'a> {
    /// The digest of the block that it is about.
    pub fn digest(&self) -> &'a [u8; 32]
        ensures value { result.now ≡ frame_digest (vote_frame_of self.now) }
        ensures lent { result ≡ self.now.digest }
    {
        self.digest
    }

    /// The vote.
    pub fn vote(&self) -> VoteView<'a>
        ensures value { vote_of result ≡ frame_vote (vote_frame_of self.now) }
        ensures lent { result ≡ self.now.vote }
    {
        self.vote
    }
}

#[tactic(auto, unfolding(crate::specs::Parts::vote_frame_in))]
pub(crate) fn take_vote_frame<'a>(
    config: &Config,
    bytes: &'a [u8],
) -> Option<(VoteFrameView<'a>, &'a [u8])>
    ensures taken { Gives (λ p. (vote_frame_of p.0, p.1.now)) result (vote_frame_in config.now bytes.now) }
    ensures lent { IfSome result (λ p. IsVoteFrameAt bytes.entry 0 p.0) }
{
    let (digest, rest) = take_32(bytes)?;
    let (vote, rest) = take_vote(rest, config.n())?;
    Some((VoteFrameView { digest, vote }, rest))
}
