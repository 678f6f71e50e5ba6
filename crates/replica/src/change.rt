//! What a step changes.

ghost use Rattle.std.specs.Prelude.{◌≡◌};
ghost use Rattle.replica.specs.Changes.{noting};

use crate::state::{High, OwnProposal, State};
use crate::stored::StoredStep;
use block_tree::Node;
use ids::Height;
use mempool::Pending;
use pacemaker::Pacemaker;
use replica_rules::{BlockRef, Rules};
use signed_frames::Out;
use vote_collector::KeptVote;

/// What is added, or let go.
#[derive(Drop)]
pub(crate) enum Growth {
    Nothing,
    /// A new block of the tree.
    Block(Node),
    /// A vote that is collected, for this block.
    Vote(BlockRef, KeptVote),
    /// A request that waits.
    Request(Pending),
    /// Nothing: the tree is pruned to this horizon.
    Prune(Height),
    /// Nothing: collected votes and requests that wait are forgotten.
    Lead,
}

/// A step that is to stand: what it changes, and what it sends.
#[derive(Drop)]
pub(crate) struct Change {
    pub(crate) step: StoredStep,
    pub(crate) out: Out,
    pub(crate) growth: Growth,
    pub(crate) rules: Rules,
    /// What takes the place of the highest certificate.
    pub(crate) high: Option<High>,
    pub(crate) leaf: BlockRef,
    /// A new proposal of its own.
    pub(crate) own: Option<OwnProposal>,
    /// Where views were announced or a timeout came.
    pub(crate) pace: Option<Pacemaker>,
}

impl Change {
    /// A step that changes nothing beside the chronicle.
    pub(crate) fn noting(state: &State, step: StoredStep, out: Out) -> Change
        ensures { result ≡ noting state.now.variables step out }
    {
        Change {
            step,
            out,
            growth: Growth::Nothing,
            rules: state.rules,
            high: None,
            leaf: state.leaf,
            own: None,
            pace: None,
        }
    }
}
