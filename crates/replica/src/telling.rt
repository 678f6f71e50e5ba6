//! What is told of steps, for proofs alone.

use crate::stored::StoredStep;
use block_tree::Tree;
use ghost_list::Tells;
use std::marker::Model;

/// A step as the definitions have it. No value of it is made.
pub(crate) struct AStep;

impl Model for AStep {
    ghost use Rattle.definitions.specs.Chronicles.{Step, Step.noted, Note.beat};

    ghost Value = { Step };

    ghost view = { λ _. noted beat };
}

/// The newest step, over the tree after it.
#[derive(Drop)]
pub(crate) struct Newest<'a> {
    pub(crate) step: &'a StoredStep,
    pub(crate) tree: &'a Tree,
}

impl<'a> Tells<AStep> for Newest<'a> {
    ghost use Rattle.replica.specs.Replay.{step_of};

    ghost tells = { λ n. step_of n.step.now n.tree.now.stored };
}
