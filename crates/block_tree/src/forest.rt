//! Blocks by numbers, with links from each to its ancestors.

ghost use Rattle.ids.specs.declared.limits.TheConstants.{BELOW_HORIZON, MOST_BLOCKS};
ghost use Rattle.std.specs.Prelude.{◌≡◌, ◌+◌, ◌-◌, ◌<◌, ◌≤◌, List, [], ◌∷◌, length, drop, nat_lt};
ghost use Rattle.std.specs.List.{list_any};
ghost use Rattle.std.specs.Prelude.{option_map, bytes_eq, MatchOption, None, OnErr, OnOk};
ghost use Rattle.definitions.specs.Branches.{just1};
ghost use Rattle.definitions.specs.Digests.{digest_of};
ghost use Rattle.definitions.specs.Trees.{Stored, blocks};
ghost use Rattle.block_tree.specs.Nodes.{stored_as, window, IsNode, IsNodeOf, IsEntryAt, IsStoredAt};
ghost use Rattle.block_tree.specs.Numbers.{numbered};
ghost use Rattle.block_tree.specs.Finding.{stored_in, justifies_at, kept, kept_of};

use crate::index::Index;
use crate::links::Links;
use crate::node::{Node, is_same};
use crate::told::{AStored, Newest};
use frames_view::genesis_digest;
use ghost_list::GhostList;
use ids::{Digest, Height};
use std::alloc::{AllocError, Global};
use std::collections::VecDeque;
use std::hash::RandomState;
use std::marker::Model;

/// A block that stands, with its links.
#[derive(Drop)]
pub(crate) struct Entry {
    pub(crate) node: Node,
    pub(crate) links: Links,
}

/// The blocks that stand above a horizon. They have numbers in the order in which they were taken:
/// genesis has 0, and no number is used again.
///
/// A block that was pruned waits in the row until all older ones are pruned too.
#[derive(Drop)]
pub(crate) struct Forest {
    pub(crate) genesis: Digest,
    pub(crate) horizon: Height,
    /// The number of the oldest block in the row.
    pub(crate) first: u64,
    pub(crate) entries: VecDeque<Entry>,
    pub(crate) index: Index,
    /// Every block that was ever taken, newest first.
    pub(crate) all: GhostList<AStored>,
}

impl Model for Forest {
    ghost use Rattle.std.specs.Prelude.{reverse};
    ghost use Rattle.block_tree.specs.Nodes.{ForestState, IsForest};

    ghost Value = { ForestState };

    ghost view = { λ f. record { horizon = f.horizon; first = f.first; all = f.all.items } };

    ghost invariant = { λ f.
        IsForest (record { horizon = f.horizon; first = f.first; all = f.all.items }) f.genesis
        (reverse f.entries.items) f.index };
}

impl Forest {
    /// Genesis alone. It takes no memory.
    pub(crate) fn new(alloc: Global, hasher: RandomState) -> Forest
        ensures { result ≡ record { horizon = 0; first = 1; all = [] } }
    {
        Forest {
            genesis: genesis_digest(),
            horizon: Height(0),
            first: 1,
            entries: VecDeque::new(alloc),
            index: Index::new(alloc, hasher),
            all: GhostList::new(),
        }
    }

    /// The horizon.
    pub(crate) fn horizon(&self) -> Height
        ensures { result ≡ self.now.horizon }
    {
        self.horizon
    }

    /// The lowest height in reach.
    pub(crate) fn floor(&self) -> u64
        ensures { result ≡ self.now.horizon - BELOW_HORIZON }
    {
        self.horizon.lowest_kept().0
    }

    /// Whether this is the digest of genesis.
    pub(crate) fn is_genesis(&self, digest: &Digest) -> bool
        ensures { result ≡ bytes_eq (digest_of []) digest.now }
    {
        is_same(&self.genesis, digest)
    }

    /// The entry of the block of a number.
    pub(crate) fn entry_at(&self, number: u64) -> &Entry
        requires kept { self.now.first ≤ number }
        requires known { number ≤ length self.now.all }
        ensures { IsEntryAt self.now result.now number }
    {
        &self.entries[(number - self.first) as usize]
    }

    /// Whether the block of a number was pruned, and waits in the row.
    pub(crate) fn is_pruned(&self, number: u64) -> bool
        requires kept { self.now.first ≤ number }
        requires known { number ≤ length self.now.all }
        ensures { result
            ≡ nat_lt (length (numbered (blocks self.now.all) number)) (self.now.horizon - BELOW_HORIZON) }
    {
        // For the proof: no block has the number 0.
        let _first = self.first;
        self.entry_at(number).node.height().0 < self.floor()
    }

    /// The number of the block of a digest that stands above genesis.
    pub(crate) fn stored_number(&self, digest: &Digest) -> Option<u64>
        ensures { MatchOption result (stored_in digest.now (window self.now) ≡ None)
            (IsStoredAt self.now digest.now) }
    {
        let number = self.index.get(digest)?;
        if self.is_pruned(number) {
            return None;
        }
        Some(number)
    }

    /// The block of a digest that stands above genesis, with what came along.
    pub(crate) fn block(&self, digest: &Digest) -> Option<&Node>
        ensures kept { option_map (λ n. kept n.now) result
            ≡ option_map kept_of (stored_in digest.now (window self.now)) }
        ensures certified { option_map (λ n. n.now.certificate.digest) result
            ≡ option_map (λ s. digest_of (just1 s.branch)) (stored_in digest.now (window self.now)) }
    {
        let number = self.stored_number(digest)?;
        Some(&self.entry_at(number).node)
    }

    /// The block after which so many came that stand. In a tree that was pruned it is looked for from
    /// the newest one on, over those that wait.
    pub(crate) fn nth_newest(&self, newer: usize) -> &Node
        requires { newer < length (window self.now) }
        ensures { (s : Stored) (older : List Stored) → drop newer (window self.now) ≡ s ∷ older
            → IsNodeOf result.now s }
    {
        let mut at = self.first + self.entries.len() as u64 - 1;
        if self.floor() == 0 {
            return &self.entry_at(at - newer as u64).node;
        }
        let mut rest = newer;
        'back: while rest > 0 || self.is_pruned(at) {
            if !self.is_pruned(at) {
                rest -= 1;
            }
            at -= 1;
        }
        &self.entry_at(at).node
    }

    /// Whether a block that stands justifies the one of this digest and height.
    pub(crate) fn is_justified(&self, digest: &Digest, height: Height) -> bool
        ensures { result ≡ list_any (justifies_at digest.now height) (window self.now) }
    {
        // What justifies it is mostly among the newest.
        let floor = self.floor();
        self.entries.iter().rev().any(|entry| {
            entry.node.height().0 >= floor && entry.node.justifies(digest, height)
        })
    }

    /// Takes a new block. Its memory is taken first: where that is refused, nothing changed.
    pub(crate) fn push(&mut self, node: Node) -> Result<(), AllocError>
        requires fits { IsNode self.old.horizon node (blocks (window self.old)) }
        requires room { length (blocks (window self.old)) < MOST_BLOCKS }
        ensures taken { OnOk result (self.new
            ≡ record {
              horizon = self.old.horizon;
              first = self.old.first;
              all = stored_as node (blocks (window self.old)) ∷ self.old.all;
            }) }
        ensures unchanged { OnErr result (self.new ≡ self.old) }
    {
        let number = self.first + self.entries.len() as u64;
        if number == u64::MAX {
            return Err(AllocError);
        }
        let links = self.links_over(&node.core());
        let all = self.all.with(&Newest {
            node: &node,
            forest: self,
        });
        self.entries.reserve(1)?;
        self.index.insert(node.digest, number)?;
        self.entries.push_back(Entry { node, links }).unwrap();
        self.all = all;
        Ok(())
    }
}
