//! What each thread counts.

ghost use Rattle.std.specs.Prelude.{◌≡◌, ◌+◌, ◌<◌, ◌^◌};
ghost use Rattle.turns.specs.Shares.{with_more_steps};

use ids::ReplicaId;
use std::marker::Model;

/// One thread's part of the steps of a replica.
///
/// It can't be copied. Who keeps the replica makes it, keeps the same count for it, and takes none
/// whose count differs.
#[derive(Drop)]
pub struct Share {
    replica: ReplicaId,
    number: usize,
    count: usize,
}

impl Model for Share {
    ghost use Rattle.turns.specs.Shares.{ShareState};

    ghost Value = { ShareState };

    ghost view = { λ s. record { replica = s.replica; number = s.number; count = s.count } };
}

impl Share {
    /// The share of this number of a replica, which counts no step yet. For who keeps the replica.
    pub fn new(replica: ReplicaId, number: usize) -> Share
        ensures { result ≡ record { replica = replica; number = number; count = 0 } }
    {
        Share {
            replica,
            number,
            count: 0,
        }
    }

    /// Of which replica it is.
    pub fn replica(&self) -> ReplicaId
        ensures { result ≡ self.now.replica }
    {
        self.replica
    }

    /// Which of the replica's shares it is, from 0.
    pub fn number(&self) -> usize
        ensures { result ≡ self.now.number }
    {
        self.number
    }

    /// How many steps were made with it.
    pub fn count(&self) -> usize
        ensures { result ≡ self.now.count }
    {
        self.count
    }

    /// Counts so many steps more. For who keeps the replica.
    pub fn add(&mut self, steps: usize)
        requires room { self.old.count + steps < 2 ^ 64 }
        ensures { self.new ≡ with_more_steps self.old steps }
    {
        self.count += steps;
    }
}
