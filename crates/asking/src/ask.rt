//! What is asked.

use ids::{Digest, ReplicaId};

/// A question for the block of this digest: to one replica, or to all others where none is named.
#[derive(Clone, Copy, Debug, PartialEq, Eq)]
pub struct Ask {
    pub block: Digest,
    pub to: Option<ReplicaId>,
    /// Whether it was asked before.
    pub is_again: bool,
}
