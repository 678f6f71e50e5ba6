//! What is told of blocks, for proofs alone.

use crate::forest::Forest;
use crate::node::Node;
use ghost_list::Tells;
use std::marker::Model;

/// A stored block as the definitions have it. No value of it is made.
pub(crate) struct AStored;

impl Model for AStored {
    ghost use Rattle.std.specs.Prelude.{[], false};
    ghost use Rattle.definitions.specs.Trees.{Stored};

    ghost Value = { Stored };

    ghost view = { λ _. record {
      branch = [];
      certificate = record { digest = []; votes = [] };
      clear = false;
    } };
}

/// The newest block, over what stands of the older ones.
#[derive(Drop)]
pub(crate) struct Newest<'a> {
    pub(crate) node: &'a Node,
    pub(crate) forest: &'a Forest,
}

impl<'a> Tells<AStored> for Newest<'a> {
    ghost use Rattle.definitions.specs.Trees.{blocks};
    ghost use Rattle.block_tree.specs.Nodes.{stored_as, window};

    ghost tells = { λ n. stored_as n.node.now (blocks (window n.forest.now)) };
}
