//! What a replica keeps beside its keys.

ghost use Rattle.std.specs.Prelude.{◌≡◌, ◌≤◌, false, length, reverse, option_map, IfOk, OnOk, OnErr};
ghost use Rattle.std.specs.Prelude.{◌↔◌, IsTrue, IsSome};
ghost use Rattle.std.specs.Option.{unwrap_or, option_and_then};
ghost use Rattle.definitions.specs.Branches.{Branch};
ghost use Rattle.definitions.specs.Chronicles.{stored_blocks};
ghost use Rattle.definitions.specs.Digests.{digest_of};
ghost use Rattle.definitions.specs.Trees.{Stored, blocks, find_in};
ghost use Rattle.frames_view.specs.Views.{core_of};
ghost use Rattle.replica.specs.Careful as careful;
ghost use Rattle.replica.specs.Changes.{changed, tree_after, collected, pended, left_above, MayGrow, Fits};
ghost use Rattle.replica.specs.Execution.{seen_at};
ghost use Rattle.replica.specs.Locked.{HasBlock, over_in};
ghost use Rattle.replica.specs.Logs.{Logs};
ghost use Rattle.replica.specs.Replay.{is_pruning, replay};

use crate::branch::{digest_at, justifies_below, over_block};
use crate::change::{Change, Growth};
use crate::chronicle::ChronicleView;
use crate::step_log::StepLog;
use crate::stored::StoredStep;
use crate::telling::{AStep, Newest};
use block_tree::Tree;
use frames_view::{CertificateBuf, CoreView};
use ghost_list::GhostList;
use ids::{Digest, Height};
use mempool::Mempool;
use pacemaker::Pacemaker;
use replica_rules::{BlockRef, Rules};
use signed_frames::Out;
use std::alloc::{AllocError, Global};
use std::marker::Model;
use vote_collector::Collector;

/// The highest certificate, with the block that it is for.
#[derive(Drop)]
pub(crate) struct High {
    pub(crate) block: BlockRef,
    pub(crate) certificate: CertificateBuf,
}

/// The own last proposal: the bytes of its core, and the certificate that it was made with.
#[derive(Drop)]
pub(crate) struct OwnProposal {
    pub(crate) core: Vec<u8>,
    pub(crate) certificate: CertificateBuf,
}

impl Model for OwnProposal {
    ghost use Rattle.replica.specs.Kept.{Own};

    ghost Value = { Own };

    ghost view = { λ p. record { core = p.core.items; certificate = p.certificate } };
}

/// As many steps may stand. A replica that makes a million in a second makes so many in 146,000 years.
const MOST_STEPS: usize = 1 << 62;

/// The running variables of a replica, and its chronicle.
#[derive(Drop)]
pub(crate) struct State {
    pub(crate) alloc: Global,
    pub(crate) tree: Tree,
    pub(crate) rules: Rules,
    pub(crate) high: High,
    /// The block that the next proposal stands on.
    pub(crate) leaf: BlockRef,
    pub(crate) own: Option<OwnProposal>,
    pub(crate) pace: Pacemaker,
    /// Votes for blocks above that of the highest certificate.
    pub(crate) votes: Collector,
    /// The requests that wait.
    pub(crate) pool: Mempool,
    /// How many steps stand.
    pub(crate) count: usize,
    /// Which they are, newest first. It exists in proofs alone.
    pub(crate) chronicle: GhostList<AStep>,
}

impl Model for State {
    ghost use Rattle.std.specs.Prelude.{◌≡◌, ◌≤◌, ◌^◌, length};
    ghost use Rattle.replica.specs.Kept.{StateParts};

    ghost Value = { StateParts };

    ghost view = { λ s. record {
      variables = record {
        chronicle = s.chronicle.items;
        most = s.tree.most;
        horizon = s.tree.horizon;
        stored = s.tree.stored;
        rules = s.rules;
        high = s.high;
        leaf = s.leaf;
        own = s.own;
      };
      pace = s.pace;
      votes = s.votes;
      pending = s.pool;
    } };

    ghost invariant = { λ s. (s.count ≡ length s.chronicle.items) × (s.count ≤ 2 ^ 62) };
}

/// What is added takes its place, and what is let go goes. Memory is taken first.
fn grow(
    tree: &mut Tree,
    votes: &mut Collector,
    pool: &mut Mempool,
    growth: Growth,
) -> Result<(), AllocError>
    requires { MayGrow tree.old votes.old.sizes growth }
    ensures grown { OnOk result (tree.new ≡ tree_after growth tree.old) }
    ensures collected { OnOk result
        (votes.new ≡ record votes.old { kept = collected growth votes.old.kept }) }
    ensures pended { OnOk result (pool.new ≡ pended growth pool.old) }
    ensures same_tree { OnErr result (tree.new ≡ tree.old) }
    ensures same_votes { OnErr result (votes.new ≡ votes.old) }
    ensures same_pool { OnErr result (pool.new ≡ pool.old) }
{
    match growth {
        Growth::Nothing => Ok(()),
        Growth::Block(node) => tree.add(node),
        Growth::Vote(block, vote) => votes.add(block.digest, block.height, vote),
        Growth::Request(request) => pool.insert(request),
        Growth::Prune(horizon) => {
            tree.prune(horizon);
            Ok(())
        }
        Growth::Lead => {
            votes.forget_all();
            pool.forget_all();
            Ok(())
        }
    }
}

/// A certificate takes the place of the highest one.
fn raise(high: &mut High, raised: Option<High>)
    ensures { high.new ≡ unwrap_or raised high.old }
{
    if let Some(raised) = raised {
        *high = raised;
    }
}

/// The votes that are needed no more under another highest certificate go.
fn forget(votes: &mut Collector, raised: &Option<High>)
    ensures { votes.new ≡ record votes.old { kept = left_above raised.now votes.old.kept } }
{
    if let Some(raised) = raised {
        votes.drop_up_to(raised.block.height);
    }
}

impl State {
    /// How many steps stand.
    pub(crate) fn count(&self) -> usize
        ensures { result ≡ length self.now.variables.chronicle }
    {
        self.count
    }

    /// The horizon of its tree.
    pub(crate) fn horizon(&self) -> Height
        ensures { result ≡ self.now.variables.horizon }
    {
        self.tree.horizon()
    }

    /// The digest of the block of a height on the branch of the last executed block, as far as it is in
    /// reach.
    pub(crate) fn executed_block_at(&self, height: Height) -> Option<Digest>
        ensures { (
            let v = self.now.variables in
            result
            ≡ option_map digest_of
            (option_and_then (seen_at v.horizon height) (find_in v.rules.executed.digest (blocks v.stored)))) }
    {
        let last = self.rules.executed();
        digest_at(&self.tree, &last.digest, height)
    }

    /// Whether the block of a digest stands in the tree.
    pub(crate) fn knows(&self, block: &Digest) -> bool
        ensures { IsTrue result ↔ IsSome (find_in block.now (blocks self.now.variables.stored)) }
    {
        self.tree.contains(block)
    }

    /// The digest of the block of a height on the branch of a block of the tree, as far as it is in reach.
    pub(crate) fn block_below(&self, block: &Digest, height: Height) -> Option<Digest>
        ensures { (
            let v = self.now.variables in
            result
            ≡ option_map digest_of
            (option_and_then (seen_at v.horizon height) (find_in block.now (blocks v.stored)))) }
    {
        digest_at(&self.tree, block, height)
    }

    /// A block that justifies the lock and is itself justified, with its height: by the oldest block of the tree over
    /// such a one.
    pub(crate) fn over_lock(&self) -> Option<(Digest, Height)>
        ensures { (
            let v = self.now.variables in
            (lock : Branch) → HasBlock v.stored lock v.rules.lock.digest → result ≡ over_in lock v.stored) }
    {
        let lock = self.rules.lock();
        over_block(&self.tree, &lock.digest)
    }

    /// Whether the block of a core, on its parent in the tree, or one between it and the block that it justifies,
    /// justifies one below the lock.
    pub(crate) fn is_careless(&self, core: &CoreView<'_>) -> bool
        ensures { (
            let v = self.now.variables in
            v.horizon ≤ v.rules.lock.height
            → result ≡ careful.justifies_below v.rules.lock.height (core_of core.now) (blocks v.stored)) }
    {
        let lock = self.rules.lock();
        justifies_below(&self.tree, core, lock.height)
    }

    /// The steps that stand, where each block of the tree was taken by one of these. Oldest first.
    pub(crate) fn chronicle<'a>(&'a self, steps: &'a [StoredStep]) -> ChronicleView<'a>
        requires steps { replay (reverse steps.now) self.now.variables.stored ≡ self.now.variables.chronicle }
        requires blocks { stored_blocks self.now.variables.chronicle ≡ self.now.variables.stored }
        ensures { result ≡ self.entry.now.variables.chronicle }
    {
        ChronicleView::new(&self.tree, steps)
    }

    /// Makes a change, and writes its step down. The memory is taken first: where that is refused,
    /// nothing changed.
    pub(crate) fn commit<S: StepLog>(
        &mut self,
        change: Change,
        log: &mut S,
    ) -> Result<Out, AllocError>
        requires { Fits self.old change }
        ensures made { OnOk result (self.new ≡ changed change self.old) }
        ensures out { IfOk result (λ out. out ≡ change.out) }
        ensures logged { is_pruning change.step ≡ false
            → Logs (S.holds log.old) self.old.variables.stored self.old.variables.chronicle
            → Logs (S.holds log.new) self.new.variables.stored self.new.variables.chronicle }
        ensures unchanged { OnErr result (self.new ≡ self.old) }
    {
        let Change {
            step,
            out,
            growth,
            rules,
            high,
            leaf,
            own,
            pace,
        } = change;
        if self.count == MOST_STEPS {
            return Err(AllocError);
        }
        log.reserve()?;
        grow(&mut self.tree, &mut self.votes, &mut self.pool, growth)?;
        self.chronicle = self.chronicle.with(&Newest {
            step: &step,
            tree: &self.tree,
        });
        self.count += 1;
        log.push(step);
        self.rules = rules;
        self.leaf = leaf;
        forget(&mut self.votes, &high);
        raise(&mut self.high, high);
        self.own = own.or(self.own.take());
        self.pace = pace.unwrap_or(self.pace);
        Ok(out)
    }
}
