//! What comes to a replica over its link.

ghost use Rattle.std.specs.Prelude.{◌≡◌, ◌+◌, length};
ghost use Rattle.tuning.specs.declared.links.TheConstants.{PARCEL_SIZE};
ghost use Rattle.fabric.specs.Sizes.{with_all, with_one};

use bytes::Bytes;
use catching_up::Question;
use ids::{Digest, ReplicaId, View};
use suspicion::ReplicaSet;
use tuning::PARCEL_SIZE;

/// How much a frame takes of its sender's share, at a replica's link and at a client's.
pub(crate) fn frame_size(frame: &Bytes) -> usize
    ensures { result ≡ length frame.now + PARCEL_SIZE }
{
    frame.len() + PARCEL_SIZE
}

/// How much is taken with one frame more. More than 2^64 - 1 counts as that.
fn with_one(size: usize, frame: &Bytes) -> usize
    ensures { result ≡ with_one size frame.now }
{
    size.saturating_add(frame_size(frame))
}

/// How much is taken with these frames, too.
fn with_all(size: usize, frames: &[Bytes]) -> usize
    ensures { result ≡ with_all size frames.now }
{
    let mut size = size;
    for frame in frames {
        size = with_one(size, frame);
    }
    size
}

/// What a replica recorded, as its answer to a question.
#[derive(Drop)]
pub struct Answer {
    pub question: Question,
    /// Frames that brought blocks, the lowest first.
    pub frames: Vec<Bytes>,
    /// The newest frame of each replica that announced a view.
    pub announced: Vec<Bytes>,
    /// Whether nothing was recorded behind these frames.
    pub is_last: bool,
}

/// From where a leader begins anew, and how many empty blocks are to stand on that before a request does.
#[derive(Clone, Copy, Debug, PartialEq, Eq)]
pub struct Base {
    /// Its lock. None for the block that its last proposal certifies.
    pub lock: Option<Digest>,
    pub climb: u64,
}

/// What comes to a replica over its link, which its workers share.
#[derive(Drop)]
pub enum Parcel {
    /// A frame, as it was sent.
    Frame {
        /// The frames that are handed to one replica's link are numbered from 1. At 2^64 - 1 the
        /// number stays.
        number: u64,
        /// The replica that handed it in, if one did.
        from: Option<ReplicaId>,
        bytes: Bytes,
    },
    /// A client's request, as it came to another replica, which passes it on. It comes to no replica as a frame.
    Passed {
        from: ReplicaId,
        bytes: Bytes,
    },
    /// What another replica found of votes in a certificate of this one: these weren't right for it.
    Doubted {
        from: ReplicaId,
        voters: ReplicaSet,
    },
    /// Another replica asks for what this one recorded.
    Asked {
        from: ReplicaId,
        question: Question,
    },
    /// What another replica recorded, if it was asked.
    Answered {
        from: ReplicaId,
        answer: Answer,
    },
    /// The replica is far behind, and is to look whether it asks.
    CatchUp,
    /// Leave to make a proposal.
    Beat,
    /// This view has lasted too long.
    Timeout(View),
    /// Leave to begin anew as leader.
    Lead(Base),
    /// Leave to prune the tree up to this height.
    Prune(u64),
    /// The worker that takes it ends.
    Stop,
}

impl Parcel {
    ghost use Rattle.fabric.specs.Parcels.{size_of};

    /// How much it takes of its sender's share.
    pub(crate) fn size(&self) -> usize
        ensures { result ≡ size_of self.now }
    {
        match self {
            Parcel::Frame { bytes, .. } | Parcel::Passed { bytes, .. } => frame_size(bytes),
            Parcel::Answered { answer, .. } => {
                with_all(with_all(PARCEL_SIZE, &answer.frames), &answer.announced)
            }
            _ => PARCEL_SIZE,
        }
    }
}
