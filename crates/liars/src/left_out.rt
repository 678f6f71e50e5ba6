//! Votes that are right for all but one replica.

ghost use Rattle.std.specs.Prelude.{◌≡◌, ◌-◌, ◌*◌, ◌++◌, IfOk, OnErr, map, replicate, take};
ghost use Rattle.ids.specs.Sizes.{replicas};
ghost use Rattle.definitions.specs.Frames.{spelling, vote};
ghost use Rattle.definitions.specs.Tags.{tag_len};
ghost use Rattle.frames_view.specs.Views.{vote_of};
ghost use Rattle.signed_frames.specs.Outs.{sent_of};
ghost use Rattle.liars.specs.Lies.{IsTold, but_last, leaving_out};

use crate::lone::first;
use crate::plain::one;
use authenticators::ReplicaKeyring;
use frame_writers::write_vote;
use frames_view::{Frame, VoteFrameView, read};
use ids::{Config, Digest, Fault, Kind};
use signed_frames::Sending;
use std::alloc::{AllocError, Global};

/// The tags of a vote, with zero bytes for the last replica.
fn but_last(alloc: Global, config: Config, vector: &[u8]) -> Result<Vec<u8>, AllocError>
    ensures { IfOk result (λ tags. tags.items ≡ but_last config vector.now) }
{
    let others = usize::from(config.n() - 1);
    let none = vec![in alloc; 0u8; 32]?;
    let mut tags = Vec::from_slice(alloc, first(vector, 32 * others))?;
    tags.extend_from_slice(&none)?;
    Ok(tags)
}

/// A vote that is right for all but the last replica.
fn vote_but_last(alloc: Global, config: Config, view: &VoteFrameView<'_>) -> Result<Vec<u8>, Fault>
    ensures made { IfOk result (λ frame. frame.items ≡ spelling (vote view.now.digest.now (record {
      voter = view.now.vote.voter;
      vector = but_last config view.now.vote.vector.now;
    }))) }
    ensures memory { OnErr result (result ≡ Err Fault.Memory) }
{
    let (block, vote) = (Digest(*view.digest()), view.vote());
    let tags = but_last(alloc, config, vote.vector())?;
    let mut frame = Vec::new(alloc);
    write_vote(&block, vote.voter(), &tags, &mut frame)?;
    Ok(frame)
}

/// What a replica sends that leaves the last one out.
pub(crate) fn with_one_left_out(
    alloc: Global,
    keyring: &ReplicaKeyring,
    sending: Sending,
) -> Result<Vec<Sending>, Fault>
    ensures lies { IfOk result (λ out. IsTold (leaving_out keyring.now) keyring.now.sizes (sent_of sending)
        (map sent_of out.items)) }
    ensures memory { OnErr result (result ≡ Err Fault.Memory) }
{
    let config = keyring.config();
    match read(&config, &sending.frame) {
        Ok(Frame::Proposal(_)) => Ok(Vec::new(alloc)),
        Ok(Frame::Vote(view)) => {
            let frame = vote_but_last(alloc, config, &view)?;
            let (to, kind) = (sending.to, Kind::Vote);
            Ok(one(alloc, Sending { to, kind, frame })?)
        }
        _ => Ok(one(alloc, sending)?),
    }
}
