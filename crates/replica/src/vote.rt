//! Votes.

ghost use Rattle.std.specs.Prelude.{◌≡◌, IfOk, OnErr, Some};
ghost use Rattle.replica.specs.declared.change.Growth.TheVariants as growths;
ghost use Rattle.definitions.specs.FrameLimits.{IsVote};
ghost use Rattle.frames_view.specs.Fields.{frame_digest, frame_vote};
ghost use Rattle.frames_view.specs.Views.{vote_of, vote_frame_of};
ghost use Rattle.replica.specs.Ballots.{vote_noted, vote_counted, vote_change, IsVoteDecided};
ghost use Rattle.ids.specs.Sizes.{quorum};
ghost use Rattle.vote_collector.specs.Collecting.{votes_for, judged};

use crate::change::{Change, Growth};
use crate::state::{High, State};
use crate::stored::{GotVote, StoredStep};
use frames_view::{VoteFrameView, VoteView};
use ids::{Digest, Fault};
use replica_rules::BlockRef;
use signed_frames::Out;
use std::alloc::AllocError;
use vote_collector::{Added, KeptVote};

/// A vote that is stored, and changes nothing else.
fn note(state: &State, block: BlockRef, vote: &VoteView) -> Result<Change, AllocError>
    ensures { IfOk result (λ d. d ≡ vote_noted state.now block (vote_of vote.now)) }
{
    let step = StoredStep::GotVote(GotVote {
        block: block.digest,
        vote: state.votes.keep(vote)?,
    });
    Ok(Change::noting(state, step, Out::none(state.alloc)))
}

/// The same, with a vote that is collected.
fn collecting(noted: Change, block: BlockRef, vote: KeptVote) -> Change
    ensures { result ≡ record noted { growth = growths.Vote block vote } }
{
    Change {
        growth: Growth::Vote(block, vote),
        ..noted
    }
}

/// The same, with a certificate that becomes the highest.
fn certifying(noted: Change, high: High) -> Change
    ensures { result ≡ record noted { high = Some high; leaf = high.block } }
{
    Change {
        leaf: high.block,
        high: Some(high),
        ..noted
    }
}

/// A vote for a block that is higher than that of the highest certificate: each voter's first one
/// is collected, and the one that completes a quorum makes the certificate.
fn count(state: &State, block: BlockRef, vote: &VoteView) -> Result<Change, Fault>
    requires { IsVote state.now.votes.sizes (vote_of vote.now) }
    ensures made { IfOk result (λ d. d ≡ vote_counted state.now block (vote_of vote.now)
        (judged (quorum state.now.votes.sizes) (vote_of vote.now).voter
        (votes_for block.digest state.now.votes.kept))) }
    ensures memory { OnErr result (result ≡ Err Fault.Memory) }
{
    match state.votes.judge(&block.digest, vote.voter()) {
        Added::Doubled => Ok(note(state, block, vote)?),
        Added::First => {
            let kept = state.votes.keep(vote)?;
            let noted = note(state, block, vote)?;
            Ok(collecting(noted, block, kept))
        }
        Added::Complete => {
            let certificate = state.votes.completed(&block.digest, vote)?;
            let noted = note(state, block, vote)?;
            Ok(certifying(noted, High { block, certificate }))
        }
    }
}

/// A vote for a block of the tree.
fn take_vote(state: &State, block: BlockRef, vote: &VoteView) -> Result<Change, Fault>
    requires { IsVote state.now.votes.sizes (vote_of vote.now) }
    ensures made { IfOk result (λ d. d ≡ vote_change state.now block (vote_of vote.now)) }
    ensures memory { OnErr result (result ≡ Err Fault.Memory) }
{
    if block.height > state.high.block.height {
        count(state, block, vote)
    } else {
        Ok(note(state, block, vote)?)
    }
}

/// What a vote comes to: `UnknownParent` where its block isn't in the tree.
pub(crate) fn decide_vote(state: &State, vote: &VoteFrameView) -> Result<Change, Fault>
    requires { IsVote state.now.votes.sizes (frame_vote (vote_frame_of vote.now)) }
    ensures { IsVoteDecided state.now (frame_digest (vote_frame_of vote.now))
        (frame_vote (vote_frame_of vote.now)) result }
{
    let digest = Digest(*vote.digest());
    let Some(height) = state.tree.height(&digest) else {
        return Err(Fault::UnknownParent);
    };
    take_vote(state, BlockRef { digest, height }, &vote.vote())
}
