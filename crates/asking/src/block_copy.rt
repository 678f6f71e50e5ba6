//! One copy of a block.

use bytes::Bytes;
use ids::ReplicaId;

/// A Block frame, as its sender sent it.
#[derive(Drop)]
pub struct BlockCopy {
    pub sender: ReplicaId,
    pub frame: Bytes,
}
