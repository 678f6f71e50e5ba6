//! Blocks that do not stand in the tree yet.

use ids::{Digest, Height};

/// A block that does not stand in the tree, but may be put on its parent there: what a vote for it hangs on.
#[derive(Clone, Copy)]
pub struct Candidate {
    /// The block that it stands on.
    pub parent: Digest,
    pub height: Height,
    /// The height of the block that it justifies.
    pub justify_height: Height,
    /// The tags of its own commands for this replica were found right.
    pub clear: bool,
}
