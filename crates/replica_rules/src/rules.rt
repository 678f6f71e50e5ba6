//! Voting, locking and deciding (HotStuff, PODC 2019, the safety rules, with clear blocks).

ghost use Rattle.std.specs.Prelude.{◌≡◌, [], true, max, Some, OnErr};
ghost use Rattle.definitions.specs.Trees.{blocks, find_in};
ghost use Rattle.definitions.specs.Chronicles.{Chronicle, Admitted};
ghost use Rattle.replica_rules.specs.Ruled.{ref_of, ruled_by};
ghost use Rattle.replica_rules.specs.Votes.{is_safe_in, may_vote_at, may_vote_in, may_vote_over};
ghost use Rattle.replica_rules.specs.Chains.{decides_against_in, executed_after, higher_of, ruled_after};
ghost use Rattle.replica_rules.specs.Chains.{decided_in};

use crate::block_ref::{BlockRef, justified};
use crate::candidate::Candidate;
use crate::chain::{Chain, chain_from};
use block_tree::Tree;
use ids::{Digest, Fault, Height};
use std::marker::Model;

/// What a replica keeps to vote, lock and decide: the greatest height that it voted for, its lock and its
/// last executed block.
#[derive(Clone, Copy)]
pub struct Rules {
    vheight: Height,
    lock: BlockRef,
    executed: BlockRef,
}

impl Model for Rules {
    ghost use Rattle.replica_rules.specs.Ruled.{Ruled};

    ghost Value = { Ruled };

    ghost view = { λ r. record { vheight = r.vheight; lock = r.lock; executed = r.executed } };

    ghost inverse = { λ r. record { vheight = r.vheight; lock = r.lock; executed = r.executed } };
}

impl Rules {
    /// The rules of a replica that has made no step: all of them are at genesis.
    #[tactic(auto, unfolding(definitions::specs::Chronicles::vheight, definitions::specs::Chronicles::lock, definitions::specs::Chronicles::executed, definitions::specs::Chronicles::decided, definitions::specs::Chronicles::decided_by, definitions::specs::Chronicles::taken_blocks, definitions::specs::Chronicles::voted_blocks, definitions::specs::Branches::highest, definitions::specs::Lists::greatest, definitions::specs::Digests::digest_of))]
    pub fn new() -> Rules
        ensures { result ≡ ruled_by [] }
    {
        Rules {
            vheight: Height(0),
            lock: BlockRef::genesis(),
            executed: BlockRef::genesis(),
        }
    }

    /// The greatest height that was voted for, 0 where there was no vote.
    pub fn vheight(&self) -> Height
        ensures { result ≡ self.now.vheight }
    {
        self.vheight
    }

    /// The block that is locked.
    pub fn lock(&self) -> BlockRef
        ensures { result ≡ self.now.lock }
    {
        self.lock
    }

    /// The last executed block.
    pub fn executed(&self) -> BlockRef
        ensures { result ≡ self.now.executed }
    {
        self.executed
    }

    /// Whether the block of this digest may be voted for: by height, lock and clear marks.
    ///
    /// It is false where the block does not stand in the tree.
    pub fn may_vote(&self, tree: &Tree, block: &Digest) -> bool
        ensures { result ≡ may_vote_in self.now block.now tree.now.stored }
    {
        let Some(height) = tree.height(block) else {
            return false;
        };
        let Some(justify_height) = tree.justify_height(block) else {
            return false;
        };
        self.may_vote_at(tree, block, height, justify_height)
    }

    /// The same of a block that does not stand in the tree, over its parent.
    ///
    /// It is safe where it is higher than all that was voted for, and its parent extends the lock
    /// or the block that it justifies is above the lock. It is clear where it is itself, and each
    /// block of its parent's branch above the one that it justifies. It is false where the parent
    /// does not stand in the tree.
    pub fn may_vote_on(&self, tree: &Tree, block: &Candidate) -> bool
        ensures { result ≡ may_vote_over self.now block.now tree.now.stored }
    {
        if !block.clear {
            return false;
        }
        self.may_vote_at(tree, &block.parent, block.height, block.justify_height)
    }

    /// Whether a block of this height, which justifies one of this height, may be voted for on a branch.
    fn may_vote_at(
        &self,
        tree: &Tree,
        branch: &Digest,
        height: Height,
        justify_height: Height,
    ) -> bool
        ensures { result ≡ may_vote_at self.now branch.now height justify_height tree.now.stored }
    {
        self.is_safe(tree, branch, height, justify_height)
            && tree.is_clear_above(branch, justify_height)
    }

    /// The same by height and lock alone.
    fn is_safe(&self, tree: &Tree, branch: &Digest, height: Height, justify_height: Height) -> bool
        ensures { result ≡ is_safe_in self.now branch.now height justify_height tree.now.stored }
    {
        if height <= self.vheight {
            return false;
        }
        if tree.extends(branch, &self.lock.digest) {
            return true;
        }
        justify_height > self.lock.height
    }

    /// Notes a vote for a block of this height.
    pub fn voted(&mut self, height: Height)
        ensures { self.new ≡ record self.old { vheight = max height self.old.vheight } }
    {
        if height > self.vheight {
            self.vheight = height;
        }
    }

    /// The rules after a new block that justifies this one, but for the vote: the lock rises, and
    /// the block that is decided becomes the last executed one where it is higher.
    ///
    /// `Conflict` comes where a block is decided that conflicts with the last executed one, or this
    /// one does not stand in the tree. The new block need not stand there. Where the one that it
    /// justifies does not, the rules stay as they are.
    pub fn taking(&self, tree: &Tree, justified: BlockRef) -> Result<Rules, Fault>
        ensures { result ≡ ruled_after self.now justified tree.now.stored }
    {
        let Some(chain) = chain_from(tree, justified) else {
            return Ok(*self);
        };
        if decides_against(tree, &self.executed, &chain) {
            return Err(Fault::Conflict);
        }
        Ok(Rules {
            vheight: self.vheight,
            lock: higher(self.lock, chain.second),
            executed: last_executed(self.executed, &chain),
        })
    }

    /// The block that the one of this digest decides, if it stands in the tree: three blocks in direct
    /// succession, each justified by the next one, decide the first of them.
    pub fn decided(tree: &Tree, block: &Digest) -> Option<Digest>
        ensures { result ≡ decided_in block.now tree.now.stored }
    {
        let first = justified(tree, block)?;
        let chain = chain_from(tree, first)?;
        if chain.decides() {
            Some(chain.third.digest)
        } else {
            None
        }
    }
}

/// Whether what a chain decides, if anything, conflicts with the last executed block.
fn decides_against(tree: &Tree, executed: &BlockRef, chain: &Chain) -> bool
    ensures { result ≡ decides_against_in executed.now chain.now tree.now.stored }
{
    let decided = &chain.third.digest;
    chain.decides()
        && !tree.extends(decided, &executed.digest)
        && !tree.extends(&executed.digest, decided)
}

/// The last executed block after one with this chain.
fn last_executed(executed: BlockRef, chain: &Chain) -> BlockRef
    ensures { result ≡ executed_after executed chain.now }
{
    if chain.decides() {
        higher(executed, chain.third)
    } else {
        executed
    }
}

/// The higher of two blocks, the first where they are equally high.
fn higher(first: BlockRef, second: BlockRef) -> BlockRef
    ensures { result ≡ higher_of first second }
{
    if second.height > first.height {
        second
    } else {
        first
    }
}
