//! The chronicle of a replica, as it is lent.

ghost use Rattle.std.specs.Prelude.{◌≡◌, [], ◌∷◌, length, reverse, option_map, MatchOption};
ghost use Rattle.definitions.specs.Audit.{gives_vote, takes, counted_by, counted_for, sent_by, core_in};
ghost use Rattle.frames_view.specs.Views.{core_of};
ghost use Rattle.replica.specs.Replay.{taken_new, replay};

use crate::stored::StoredStep;
use block_tree::{Node, Tree};
use frames_view::CoreView;
use ids::{Digest, ReplicaId};
use std::marker::Model;

/// The votes that a step counts: the voters of a new block's certificate whose tags verified, and the
/// digest of the block that they voted for.
#[derive(Drop)]
pub struct CountedVotes<'a> {
    pub voters: &'a [ReplicaId],
    pub block: Digest,
}

/// One step of a chronicle, lent.
#[derive(Drop)]
pub struct StepView<'a> {
    tree: &'a Tree,
    step: &'a StoredStep,
    /// How many blocks were inserted after this step.
    newer: usize,
}

impl<'a> Model for StepView<'a> {
    ghost use Rattle.std.specs.Prelude.{◌≡◌, ◌<◌, true, length, drop};
    ghost use Rattle.definitions.specs.Chronicles.{Step};
    ghost use Rattle.replica.specs.Replay.{is_new, step_of};

    ghost Value = { Step };

    ghost view = { λ s. step_of s.step.now (drop s.newer s.tree.now.stored) };

    ghost invariant = { λ s. is_new s.step.now ≡ true → s.newer < length s.tree.now.stored };
}

impl<'a> StepView<'a> {
    /// The core of the block that it admitted, as it came; none where it admitted no block.
    #[tactic(auto, unfolding(definitions::specs::Audit::core_in))]
    pub fn core(&self) -> Option<CoreView<'a>>
        ensures { option_map core_of result ≡ core_in (Some self.now) }
    {
        match self.step {
            StoredStep::TookNew(_) => Some(self.tree.nth_newest(self.newer).core()),
            StoredStep::TookAgain(taken) => Some(taken.again.core.view()),
            _ => None,
        }
    }

    /// Whether it gave a vote for the block of a digest.
    #[tactic(auto, unfolding(definitions::specs::Audit::gives_vote))]
    pub fn gives_vote(&self, block: &Digest) -> bool
        ensures { result ≡ gives_vote block.now self.now }
    {
        match self.step {
            StoredStep::TookNew(taken) => {
                taken.voted && self.tree.nth_newest(self.newer).digest() == *block
            }
            StoredStep::TookAgain(taken) => {
                taken.again.voted && taken.again.core.view().digest() == *block
            }
            _ => false,
        }
    }

    /// The votes that it counts; none where it took no new block.
    #[tactic(auto, unfolding(definitions::specs::Audit::counted_by, definitions::specs::Audit::counted_for))]
    pub fn counts(&self) -> Option<CountedVotes<'a>>
        ensures { MatchOption result (counted_by self.now ≡ [])
            (λ c. (c.voters.now ≡ counted_by self.now) × (c.block ≡ counted_for self.now)) }
    {
        match self.step {
            StoredStep::TookNew(taken) => Some(CountedVotes {
                voters: &taken.counted,
                block: Digest(*self.tree.nth_newest(self.newer).certificate().digest()),
            }),
            _ => None,
        }
    }

    /// The replicas that sent the new block that it took, where it was taken for their number; else none.
    #[tactic(auto, unfolding(definitions::specs::Audit::sent_by))]
    pub fn senders(&self) -> &'a [ReplicaId]
        ensures { result.now ≡ sent_by self.now }
    {
        match self.step {
            StoredStep::TookNew(taken) => &taken.senders,
            _ => &[],
        }
    }

    /// Whether it took the block of a digest, as a new one.
    #[tactic(auto, unfolding(definitions::specs::Audit::takes))]
    pub fn takes(&self, block: &Digest) -> bool
        ensures { result ≡ takes block.now self.now }
    {
        match self.step {
            StoredStep::TookNew(_) => self.tree.nth_newest(self.newer).digest() == *block,
            _ => false,
        }
    }
}

/// The steps of a replica that stand, or the oldest of them, lent. They are walked from the newest on.
#[derive(Drop)]
pub struct ChronicleView<'a> {
    tree: &'a Tree,
    steps: &'a [StoredStep],
    /// How many blocks were inserted after these steps.
    newer: usize,
}

impl<'a> Model for ChronicleView<'a> {
    ghost use Rattle.std.specs.Prelude.{◌≡◌, ◌+◌, length, drop, reverse};
    ghost use Rattle.definitions.specs.Chronicles.{Chronicle};
    ghost use Rattle.replica.specs.Replay.{taken_new, replay};

    ghost Value = { Chronicle };

    ghost view = { λ c. replay (reverse c.steps.now) (drop c.newer c.tree.now.stored) };

    ghost invariant = { λ c. taken_new (reverse c.steps.now) + c.newer ≡ length c.tree.now.stored };
}

impl<'a> ChronicleView<'a> {
    /// All steps, over the tree that they made.
    pub(crate) fn new(tree: &'a Tree, steps: &'a [StoredStep]) -> ChronicleView<'a>
        requires { taken_new (reverse steps.now) ≡ length tree.now.stored }
        ensures { result ≡ replay (reverse steps.now) tree.now.stored }
    {
        ChronicleView {
            tree,
            steps,
            newer: 0,
        }
    }

    /// How many steps there are.
    pub fn len(&self) -> usize
        ensures { result ≡ length self.now }
    {
        self.steps.len()
    }
}

/// The newest step comes first.
impl<'a> Iterator for ChronicleView<'a> {
    type Item = StepView<'a>;

    ghost use Rattle.std.specs.Iterator.{YieldsFirst, item_count};

    ghost next_gives = { YieldsFirst (λ left. left) };

    ghost remaining = { item_count (λ left. left) };

    fn next(&mut self) -> Option<StepView<'a>> {
        // For the proof: fewer blocks stand than fit any memory.
        let _blocks = self.tree.len();
        let (step, earlier) = self.steps.split_last()?;
        let newest = StepView {
            tree: self.tree,
            step,
            newer: self.newer,
        };
        self.steps = earlier;
        self.newer += step.inserted();
        Some(newest)
    }
}
