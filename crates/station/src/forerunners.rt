//! Whom the replica follows into a later view.

use clock::Forerunner;
use ids::{MOST_REPLICAS, ReplicaId};
use std::sync::{Mutex, Wait};
use suspicion::ReplicaSet;
use tuning::LOOK_MILLIS;

/// The other replicas, as far as each was ahead of this one, under their lock.
#[derive(Drop)]
pub(crate) struct Forerunners {
    of: Mutex<[Forerunner; MOST_REPLICAS]>,
    /// How many times as long as on one machine views may take.
    patience: u64,
}

impl Forerunners {
    /// Nobody was.
    pub(crate) fn none(patience: u64) -> Forerunners {
        Forerunners {
            of: Mutex::new([Forerunner::none(); MOST_REPLICAS]),
            patience,
        }
    }

    /// The replica's clock looks, once in `LOOK_MILLIS`, and finds these ahead. Whether it follows one of them.
    pub(crate) fn look<R: Wait>(&self, rt: &R, ahead: &ReplicaSet) -> bool {
        let passed = LOOK_MILLIS / self.patience.max(1);
        let mut follows = false;
        let mut of = self.of.lock(rt);
        for number in 0..MOST_REPLICAS as u8 {
            if let Some(forerunner) = of.get_mut(usize::from(number)) {
                follows |= forerunner.look(ahead.has(ReplicaId(number)), passed);
            }
        }
        follows
    }
}
