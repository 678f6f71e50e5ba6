//! A row of replicas, which takes no memory of its own.

ghost use Rattle.std.specs.Prelude.{◌≡◌, ◌<◌, ◌++◌, ◌∷◌, [], length};

use ids::{MOST_REPLICAS, ReplicaId};
use std::marker::Model;

/// Some replicas, in the order in which they were counted.
#[derive(Drop)]
pub struct ReplicaRow {
    row: [ReplicaId; MOST_REPLICAS],
    count: usize,
}

impl Model for ReplicaRow {
    ghost use Rattle.std.specs.Prelude.{ℕ, List, ◌≤◌, take};
    ghost use Rattle.ids.specs.declared.limits.TheConstants.{MOST_REPLICAS};

    ghost Value = { List ℕ };

    ghost view = { λ v. take v.count v.row };

    ghost invariant = { λ v. v.count ≤ MOST_REPLICAS };
}

impl ReplicaRow {
    /// None yet.
    pub(crate) fn new() -> ReplicaRow
        ensures { result ≡ [] }
    {
        ReplicaRow {
            row: [ReplicaId(0); MOST_REPLICAS],
            count: 0,
        }
    }

    /// One more.
    pub(crate) fn push(&mut self, replica: ReplicaId)
        requires { length self.old < MOST_REPLICAS }
        ensures { self.new ≡ self.old ++ replica ∷ [] }
    {
        self.row[self.count] = replica;
        self.count += 1;
    }

    /// The replicas, in order.
    pub fn as_slice(&self) -> &[ReplicaId]
        ensures { result.now ≡ self.now }
    {
        &self.row[..self.count]
    }
}
