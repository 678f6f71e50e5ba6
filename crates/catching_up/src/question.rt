use ids::{Height, ReplicaId};

/// A question for what a replica recorded from a height on.
#[derive(Clone, Copy, Debug, PartialEq, Eq)]
pub struct Question {
    pub to: ReplicaId,
    pub from: Height,
    /// The answer is to have so many bytes at most, or one frame.
    pub bytes: u64,
}
