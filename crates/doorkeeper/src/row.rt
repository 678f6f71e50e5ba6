//! The counts of one height.

ghost use Rattle.std.specs.Prelude.{◌≡◌, ◌==◌, ◌+◌, ◌<◌, ℕ, get_or, if◌then◌else◌};

use ids::{MOST_REPLICAS, ReplicaId};
use std::marker::Model;

/// How many blocks of one height each replica brought.
#[derive(Clone, Copy)]
pub(crate) struct Row {
    counts: [u8; MOST_REPLICAS],
}

impl Model for Row {
    ghost use Rattle.std.specs.Prelude.{ℕ, List};

    ghost Value = { List ℕ };

    ghost view = { λ row. row.counts };

    ghost inverse = { λ counts. record { counts = counts } };
}

impl Row {
    /// None.
    pub(crate) fn new() -> Row
        ensures { (payer : ℕ) → get_or result payer 0 ≡ 0 }
    {
        Row {
            counts: [0; MOST_REPLICAS],
        }
    }

    /// How many a replica brought.
    pub(crate) fn of(&self, payer: ReplicaId) -> u8
        requires { payer < MOST_REPLICAS }
        ensures { result ≡ get_or self.now payer 0 }
    {
        self.counts[usize::from(payer.0)]
    }

    /// One more.
    pub(crate) fn add_one(&mut self, payer: ReplicaId)
        requires payer { payer < MOST_REPLICAS }
        requires few { get_or self.old payer 0 < 255 }
        ensures { (other : ℕ) → get_or self.new other 0
            ≡ (if other == payer then get_or self.old other 0 + 1 else get_or self.old other 0) }
    {
        self.counts[usize::from(payer.0)] += 1;
    }
}
