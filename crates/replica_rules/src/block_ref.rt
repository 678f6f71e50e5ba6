//! Blocks by their digest and height.

ghost use Rattle.std.specs.Prelude.{◌≡◌, []};
ghost use Rattle.replica_rules.specs.Ruled.{ref_of};
ghost use Rattle.replica_rules.specs.Chains.{justified_in};

use block_tree::Tree;
use frames_view::genesis_digest;
use ids::{Digest, Height};

/// A block, by its digest and its height.
#[derive(Clone, Copy, Debug, PartialEq, Eq)]
pub struct BlockRef {
    pub digest: Digest,
    pub height: Height,
}

impl BlockRef {
    /// Genesis.
    #[tactic(auto, unfolding(definitions::specs::Digests::digest_of))]
    pub fn genesis() -> BlockRef
        ensures { result ≡ ref_of [] }
    {
        BlockRef {
            digest: genesis_digest(),
            height: Height(0),
        }
    }
}

/// The block that the one of a digest justifies, where that one stands in the tree.
pub(crate) fn justified(tree: &Tree, digest: &Digest) -> Option<BlockRef>
    ensures { result ≡ justified_in digest.now tree.now.stored }
{
    let (digest, height) = tree.justified(digest)?;
    Some(BlockRef { digest, height })
}
