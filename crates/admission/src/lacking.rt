//! Whom to ask for the block that a frame lacks.

ghost use Rattle.std.specs.Prelude.{◌≡◌, ◌<◌, IfSome};
ghost use Rattle.ids.specs.Sizes.{replicas};
ghost use Rattle.frames_view.specs.Views.{frame_of};
ghost use Rattle.admission.specs.Lacking.{lacked, IsLackedBy};

use frames_view::{Frame, ReadFrame};
use ids::{Config, Digest, ReplicaId};

/// The sender of a frame that was read, and the block that a replica needs to take it: as `missing` of its bytes.
pub fn missing_of(read: &ReadFrame<'_>) -> Option<(ReplicaId, Digest)>
    ensures lacked { result ≡ lacked read.now.sizes (frame_of read.now.frame) }
    ensures replica { IfSome result (λ m. m.0 < replicas read.now.sizes) }
{
    let (sender, block) = match read.frame() {
        Frame::Proposal(proposal) => (
            read.config().leader(proposal.view()),
            proposal.core().parent(),
        ),
        Frame::Block(block) => (block.sender(), block.core().parent()),
        Frame::Vote(vote) => (vote.vote().voter(), vote.digest()),
        Frame::NewView(new_view) => (new_view.sender(), new_view.certificate().digest()),
        Frame::Request(_) | Frame::Reply(_) | Frame::Fetch(_) => return None,
    };
    Some((sender, Digest(*block)))
}

/// The sender of a frame, and the block that a replica needs to take it: the parent of the frame's
/// block, or the block that is voted for or certified.
///
/// After `UnknownParent` the receiver asks this sender for this block.
pub fn missing(config: &Config, bytes: &[u8]) -> Option<(ReplicaId, Digest)>
    ensures replica { IfSome result (λ m. m.0 < replicas config.now) }
    ensures lacked { IsLackedBy config.now bytes.now result }
{
    match ReadFrame::new(config, bytes) {
        Ok(read) => missing_of(&read),
        Err(_) => None,
    }
}
