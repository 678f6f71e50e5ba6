//! The blocks below one, each justified by the one above it.

ghost use Rattle.std.specs.Prelude.{◌≡◌, ◌==◌, suc};
ghost use Rattle.replica_rules.specs.Chains.{chain_in, third_in, is_decisive};

use crate::block_ref::{BlockRef, justified};
use block_tree::Tree;
use ids::Height;

/// The block that one justifies, the block that this one justifies, and the block that this one justifies.
/// Where the second isn't the next one below the first, nothing is decided, and it stands for the third too.
#[derive(Clone, Copy)]
pub(crate) struct Chain {
    pub(crate) first: BlockRef,
    pub(crate) second: BlockRef,
    pub(crate) third: BlockRef,
}

impl Chain {
    /// Whether the three follow one another directly.
    pub(crate) fn decides(&self) -> bool
        ensures { result ≡ is_decisive self.now }
    {
        follows(self.second.height, self.third.height)
            && follows(self.first.height, self.second.height)
    }
}

/// Whether a height is the next one above another.
fn follows(upper: Height, lower: Height) -> bool
    ensures { result ≡ (upper == suc lower) }
{
    upper.0 > lower.0 && upper.0 - lower.0 == 1
}

/// The chain that begins with this block, where it stands in the tree.
pub(crate) fn chain_from(tree: &Tree, first: BlockRef) -> Option<Chain>
    ensures { result ≡ chain_in first tree.now.stored }
{
    let height = first.height;
    let second = justified(tree, &first.digest)?;
    let third = third_below(tree, height, &second)?;
    Some(Chain {
        first,
        second,
        third,
    })
}

/// The block that the second one justifies, under a first one of this height. The tree is asked for it
/// only where the second one is the next one below the first: a lower one need not stand there, and
/// another block may have its digest.
fn third_below(tree: &Tree, height: Height, second: &BlockRef) -> Option<BlockRef>
    ensures { result ≡ third_in height second.now tree.now.stored }
{
    if !follows(height, second.height) {
        return Some(*second);
    }
    justified(tree, &second.digest)
}
