//! What an audit answers.

use ids::{Digest, ReplicaId};

/// Where a core stands: it is that of genesis, or of the block that a replica admitted in a step, counted
/// from 0, the oldest.
#[derive(Clone, Copy, Debug)]
pub enum CorePlace {
    Genesis,
    Step { replica: ReplicaId, step: usize },
}

/// Why histories fork.
#[derive(Clone, Copy, Debug)]
pub enum Reason {
    /// The first step of the receiver behind its front counts the voter's vote for the block of this
    /// digest, and within its own front the voter gave none.
    Vote {
        receiver: ReplicaId,
        voter: ReplicaId,
        digest: Digest,
    },
    /// The first step of the receiver behind its front took the block of this digest because more than f
    /// replicas sent it, the sender among them, and within its own front the sender hadn't taken it.
    Take {
        receiver: ReplicaId,
        sender: ReplicaId,
        digest: Digest,
    },
    /// Two unequal cores have one digest.
    Collision {
        first: CorePlace,
        second: CorePlace,
    },
}

/// Whether the histories agree, and why where they don't.
#[derive(Clone, Copy, Debug)]
pub enum Verdict {
    Agree,
    Fork(Reason),
}

/// What windows show of the last executed blocks of replicas that may have pruned. Each is held against
/// the executed branch of the one that leads: the first of those that executed highest.
#[derive(Clone, Copy, Debug)]
pub enum WindowVerdict {
    /// All of them lie on that branch, by their digests.
    Agree,
    /// At the height of the lower one's block another block stands on that branch.
    Fork { lower: ReplicaId, higher: ReplicaId },
    /// No fork is shown; but at the height of the lower one's block the window shows none any more, so
    /// that nothing is known of it.
    Unmet { lower: ReplicaId, higher: ReplicaId },
}
