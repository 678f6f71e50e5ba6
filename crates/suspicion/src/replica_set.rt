//! Some replicas.

ghost use Rattle.std.specs.Prelude.{◌≡◌, ◌==◌, ◌<◌, ◌≤◌, ◌||◌, ◌&&◌, ℕ, nat_lt};
ghost use Rattle.ids.specs.declared.limits.TheConstants.{MOST_REPLICAS};
ghost use Rattle.suspicion.specs.ReplicaSets.{both, is_in, nobody, size, with_replica};

use ids::{MOST_REPLICAS, ReplicaId};
use std::marker::Model;

/// Some replicas of a deployment. One that none has is in no set.
#[derive(Clone, Copy)]
pub struct ReplicaSet {
    has: [bool; MOST_REPLICAS],
}

impl Model for ReplicaSet {
    ghost use Rattle.std.specs.Prelude.{Bool, List};

    ghost Value = { List Bool };

    ghost view = { λ set. set.has };

    ghost inverse = { λ has. record { has = has } };
}

impl ReplicaSet {
    /// Nobody.
    pub fn none() -> ReplicaSet
        ensures { result ≡ nobody }
    {
        ReplicaSet {
            has: [false; MOST_REPLICAS],
        }
    }

    /// One more.
    pub fn add(&mut self, replica: ReplicaId)
        ensures set { self.new ≡ with_replica self.old replica }
        ensures each { (other : ℕ) → is_in self.new other
            ≡ (is_in self.old other || other == replica && nat_lt other MOST_REPLICAS) }
    {
        let number = usize::from(replica.0);
        if number < MOST_REPLICAS {
            self.has[number] = true;
        }
    }

    /// Whether a replica is among them.
    pub fn has(&self, replica: ReplicaId) -> bool
        ensures { result ≡ is_in self.now replica }
    {
        self.has
            .get(usize::from(replica.0))
            .copied()
            .unwrap_or(false)
    }

    /// How many they are.
    pub fn len(&self) -> usize
        ensures size { result ≡ size self.now }
        ensures few { result ≤ MOST_REPLICAS }
    {
        self.has.iter().filter(|has| **has).count()
    }

    /// Those of both.
    pub fn or(&self, others: &ReplicaSet) -> ReplicaSet
        ensures { result ≡ both self.now others.now }
    {
        let mut all = *self;
        for number in 0..MOST_REPLICAS {
            all.has[number] = self.has[number] | others.has[number];
        }
        all
    }
}
