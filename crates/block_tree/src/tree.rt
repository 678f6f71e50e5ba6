//! The tree.

ghost use Rattle.ids.specs.declared.limits.TheConstants.{MOST_BLOCKS};
ghost use Rattle.std.specs.Prelude.{◌≡◌, ◌≤◌, [], length};
ghost use Rattle.definitions.specs.Trees.{blocks};

use crate::counts::Counts;
use crate::forest::Forest;
use ids::Height;
use std::alloc::Global;
use std::hash::RandomState;
use std::marker::Model;

/// Blocks, each with its certificate and its clear mark, on branches that begin at genesis.
#[derive(Drop)]
pub struct Tree {
    pub(crate) alloc: Global,
    pub(crate) most: usize,
    pub(crate) forest: Forest,
    pub(crate) counts: Counts,
}

impl Model for Tree {
    ghost use Rattle.definitions.specs.Trees.{TreeState};
    ghost use Rattle.block_tree.specs.Nodes.{window, IsWhole};

    ghost Value = { TreeState };

    ghost view = { λ t. record {
      most = t.most;
      horizon = t.forest.horizon;
      stored = window t.forest;
    } };

    ghost invariant = { λ t. IsWhole t.most t.forest t.counts };
}

impl Tree {
    /// Genesis alone, with room for so many blocks, which are found by digest with this hasher. It takes no
    /// memory.
    pub fn new(alloc: Global, most: usize, hasher: RandomState) -> Tree
        requires { (1 ≤ most) × (most ≤ MOST_BLOCKS) }
        ensures { result ≡ record { most = most; horizon = 0; stored = [] } }
    {
        Tree {
            alloc,
            most,
            forest: Forest::new(alloc, hasher),
            counts: Counts::new(alloc),
        }
    }

    /// The horizon: no block may justify one below it, and a block stands until it is more than two
    /// below. It is 0 in a tree that was never pruned.
    pub fn horizon(&self) -> Height
        ensures { result ≡ self.now.horizon }
    {
        self.forest.horizon()
    }

    /// How many blocks stand in the tree, genesis among them.
    pub fn len(&self) -> usize
        ensures { result ≡ length (blocks self.now.stored) }
    {
        self.counts.total() + 1
    }
}
