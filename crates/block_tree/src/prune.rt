//! Pruning: what is more than two below the horizon stands no more.

ghost use Rattle.std.specs.Prelude.{◌≡◌, ◌+◌, ◌≤◌, max, true, false, length};
ghost use Rattle.definitions.specs.Trees.{standing};
ghost use Rattle.block_tree.specs.Nodes.{IsTrimmed};

use crate::forest::Forest;
use crate::tree::Tree;
use ids::Height;

impl Forest {
    /// Raises the horizon. Nothing leaves the row yet.
    fn raise(&mut self, horizon: Height)
        requires { self.old.horizon ≤ horizon }
        ensures { self.new ≡ record { horizon = horizon; first = self.old.first; all = self.old.all } }
    {
        self.horizon = horizon;
    }

    /// Drops the oldest block of the row, where it was pruned, and says whether it did. Its memory is
    /// given back.
    fn drop_oldest(&mut self) -> bool
        ensures dropped { result ≡ true
            → (self.new
            ≡ record { horizon = self.old.horizon; first = self.old.first + 1; all = self.old.all })
            × (self.old.first ≤ length self.old.all) }
        ensures kept { result ≡ false → (self.new ≡ self.old) × IsTrimmed self.old }
    {
        if self.entries.is_empty() || !self.is_pruned(self.first) {
            return false;
        }
        let Some(entry) = self.entries.pop_front() else {
            return false;
        };
        self.index.remove(&entry.node.digest, self.first);
        self.first += 1;
        true
    }

    /// Raises the horizon, and drops what was pruned from the old end of the row: the oldest block
    /// that is left there stands.
    pub(crate) fn prune(&mut self, horizon: Height)
        requires { self.old.horizon ≤ horizon }
        ensures horizon { self.new.horizon ≡ horizon }
        ensures all { self.new.all ≡ self.old.all }
        ensures trimmed { IsTrimmed self.new }
    {
        self.raise(horizon);
        'drop: while self.drop_oldest() {}
    }
}

impl Tree {
    /// Raises the horizon: each block that is more than two below it is pruned, and gives its memory
    /// back. A horizon that is no higher than the tree's changes nothing. Genesis stays.
    pub fn prune(&mut self, horizon: Height)
        ensures { self.new
            ≡ record {
              most = self.old.most;
              horizon = max horizon self.old.horizon;
              stored = standing (max horizon self.old.horizon) self.old.stored;
            } }
    {
        if horizon.0 <= self.horizon().0 {
            return;
        }
        self.forest.prune(horizon);
        self.counts.prune(Height(self.forest.floor()));
    }
}
