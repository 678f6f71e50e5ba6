//! Blocks by their numbers, and the way down a branch along the links.

ghost use Rattle.std.specs.Prelude.{◌≡◌, ◌+◌, ◌-◌, ◌<◌, ◌≤◌, ◌^◌, length, MatchOption, IsSome, None};
ghost use Rattle.std.specs.Prelude.{count_ones, option_map};
ghost use Rattle.std.specs.Option.{option_and_then};
ghost use Rattle.definitions.specs.Digests.{digest_of};
ghost use Rattle.definitions.specs.Trees.{blocks, find_in};
ghost use Rattle.frames_view.specs.Views.{core_of};
ghost use Rattle.block_tree.specs.Nodes.{block_in, branch_in, window, IsHere, IsBlockAt};
ghost use Rattle.block_tree.specs.Numbers.{numbered, IsDown, AreLinks};
ghost use Rattle.block_tree.specs.Finding.{IsSeen, at_height, turns_to};
ghost use Rattle.ids.specs.declared.limits.TheConstants.{BELOW_HORIZON};

use crate::forest::Forest;
use crate::links::Links;
use crate::turns::Turns;
use frames_view::CoreView;
use ids::{Digest, Height};

impl Forest {
    /// The number of the block of a digest: 0 for genesis, the others in the order in which they were
    /// taken.
    fn number(&self, digest: &Digest) -> Option<u64>
        ensures { MatchOption result (find_in digest.now (blocks (window self.now)) ≡ None)
            (IsBlockAt self.now digest.now) }
    {
        match self.stored_number(digest) {
            Some(number) => Some(number),
            None if self.is_genesis(digest) => Some(0),
            None => None,
        }
    }

    /// The height of the block of a number.
    fn height_at(&self, number: u64) -> Height
        requires { IsHere self.now number }
        ensures { result ≡ length (numbered (blocks self.now.all) number) }
    {
        if number == 0 {
            return Height(0);
        }
        self.entry_at(number).node.height()
    }

    /// The digest of the block of a number.
    fn digest_at(&self, number: u64) -> Digest
        requires { IsHere self.now number }
        ensures { result ≡ digest_of (numbered (blocks self.now.all) number) }
    {
        if number == 0 {
            return self.genesis;
        }
        self.entry_at(number).node.digest
    }

    /// The ancestor that a link leads to, `2^level` blocks down, where that one is in reach.
    fn link(&self, at: u64, level: usize) -> Option<u64>
        requires { IsHere self.now at }
        ensures { MatchOption result
            (length (numbered (blocks self.now.all) at) < 2 ^ level + (self.now.horizon - BELOW_HORIZON))
            (λ m. (2 ^ level + (self.now.horizon - BELOW_HORIZON) ≤ length (numbered (blocks self.now.all) at))
            × IsDown (blocks self.now.all) (2 ^ level) (numbered (blocks self.now.all) at) m) }
    {
        if at == 0 {
            return None;
        }
        let entry = self.entry_at(at);
        let ancestor = entry.links.get(level)?;
        let above = entry.node.height().0.saturating_sub(self.floor());
        if above < 1 << level {
            return None;
        }
        Some(ancestor)
    }

    /// Follows one link, and counts it.
    fn turn(&self, at: u64, level: usize, turns: &mut Turns) -> u64
        requires here { IsHere self.now at }
        requires high { 2 ^ level + (self.now.horizon - BELOW_HORIZON)
            ≤ length (numbered (blocks self.now.all) at) }
        requires room { turns.old + 1 < 2 ^ 64 }
        ensures down { IsDown (blocks self.now.all) (2 ^ level) (numbered (blocks self.now.all) at) result }
        ensures counted { turns.new ≡ turns.old + 1 }
    {
        turns.add_one();
        self.link(at, level).unwrap()
    }

    /// The ancestor so many blocks down, by one link for each one bit of the distance. It is in reach.
    fn descend(&self, from: u64, distance: u64, turns: &mut Turns) -> u64
        requires known { from < length (blocks self.now.all) }
        requires high { distance + (self.now.horizon - BELOW_HORIZON)
            ≤ length (numbered (blocks self.now.all) from) }
        requires room { turns.old + count_ones distance < 2 ^ 64 }
        ensures down { IsDown (blocks self.now.all) distance (numbered (blocks self.now.all) from) result }
        ensures counted { turns.new ≡ turns.old + count_ones distance }
    {
        // For the proof: a block in reach has not left the row.
        let _entries = &self.entries;
        let mut at = from;
        let mut level: usize = 0;
        let mut rest = distance;
        'descend: while rest > 0 {
            if rest % 2 == 1 {
                at = self.turn(at, level, turns);
            }
            rest /= 2;
            level += 1;
        }
        at
    }

    /// The block of this height on the branch of a block that stands and is no lower, and how many links
    /// lead to it.
    pub(crate) fn ancestor(
        &self,
        digest: &Digest,
        height: Height,
        turns: &mut Turns,
    ) -> Option<Digest>
        requires { turns.old < 2 ^ 63 }
        ensures seen { IsSeen self.now.horizon height
            → result
            ≡ option_map digest_of
            (option_and_then (at_height height) (find_in digest.now (blocks (window self.now)))) }
        ensures below { 0 < height → height + BELOW_HORIZON < self.now.horizon → result ≡ None }
        ensures counted { turns.new ≡ turns.old
            + turns_to self.now.horizon height (find_in digest.now (blocks (window self.now))) }
        ensures few { turns.new ≤ turns.old + 20 }
    {
        // For the proof: they make a tree, so a block has fewer ancestors in reach than blocks stand.
        let _entries = &self.entries;
        let from = self.number(digest)?;
        if height.0 < self.floor() {
            return if height.0 == 0 {
                Some(self.genesis)
            } else {
                None
            };
        }
        let top = self.height_at(from);
        if top.0 < height.0 {
            return None;
        }
        let ancestor = self.descend(from, top.0 - height.0, turns);
        Some(self.digest_at(ancestor))
    }

    /// The links of a block on its parent, which stands and is in reach.
    pub(crate) fn links_over(&self, core: &CoreView) -> Links
        requires stands { IsSome (find_in (core_of core.now).parent (blocks (window self.now))) }
        requires reach { self.now.horizon
            ≤ length (branch_in (core_of core.now).parent (blocks (window self.now))) + BELOW_HORIZON }
        ensures { AreLinks self.now.horizon (blocks self.now.all)
            (block_in (core_of core.now) (blocks (window self.now))) result }
    {
        // For the proof: they make a tree, so a block has fewer ancestors in reach than blocks stand.
        let _entries = &self.entries;
        let mut at = self.number(&Digest(*core.parent())).unwrap();
        let mut links = Links::new();
        links.push(at);
        let mut level: usize = 0;
        'build: while let Some(next) = self.link(at, level) {
            links.push(next);
            at = next;
            level += 1;
        }
        links
    }
}
