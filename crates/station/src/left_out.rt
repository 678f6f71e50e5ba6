//! Who has to count votes itself.

use ids::{Config, MOST_REPLICAS, ReplicaId};
use std::alloc::{AllocError, Global};
use std::sync::atomic::AtomicU64;
use std::sync::atomic::Ordering::SeqCst;
use suspicion::ReplicaSet;
use tuning::{LOOK_MILLIS, TROUBLE_MILLIS};

/// When each replica told last that votes in its leader's certificate weren't right for it; and when this one found that last of
/// its own. For as long as trouble lasts, votes go to who told it, too: so it counts quorums itself, and a liar whose votes are right for all but that one doesn't leave it behind.
/// Threads share it by reference.
#[derive(Drop)]
pub(crate) struct LeftOut {
    /// How often the replica's clock looked.
    looks: AtomicU64,
    /// One more than how often it had looked when each told it last; 0 where one never did.
    told: Vec<AtomicU64>,
    /// How many may be faulty.
    faults: usize,
}

impl LeftOut {
    /// Nobody is.
    pub(crate) fn none(alloc: Global, config: Config) -> Result<LeftOut, AllocError> {
        let mut told = Vec::new(alloc);
        for _ in 0..config.n() {
            told.push(AtomicU64::new(0))?;
        }
        Ok(LeftOut {
            looks: AtomicU64::new(0),
            told,
            faults: usize::from(config.faults()),
        })
    }

    /// The replica's clock looks, once in `LOOK_MILLIS`.
    pub(crate) fn look(&self) {
        let looks = self.looks.load(SeqCst).saturating_add(1);
        self.looks.store(looks, SeqCst);
    }

    /// A replica tells it, or this one finds it.
    pub(crate) fn hear(&self, from: ReplicaId) {
        if let Some(told) = self.told.get(usize::from(from.0)) {
            told.store(self.looks.load(SeqCst).saturating_add(1), SeqCst);
        }
    }

    /// Whether a replica told it at any time, and no more did than may be faulty: so the others can go on without it.
    pub(crate) fn is_one_of_few(&self, replica: ReplicaId) -> bool {
        let ever = self.told.iter().filter(|told| told.load(SeqCst) > 0);
        let told = self.told.get(usize::from(replica.0));
        ever.count() <= self.faults && told.is_some_and(|told| told.load(SeqCst) > 0)
    }

    /// Whether some told it of late, and no more than may be faulty.
    pub(crate) fn are_few(&self) -> bool {
        let many = self.all().len();
        0 < many && many <= self.faults
    }

    /// Whether a replica told it of late.
    pub(crate) fn has(&self, replica: ReplicaId) -> bool {
        let Some(told) = self.told.get(usize::from(replica.0)) else {
            return false;
        };
        let (told, looks) = (told.load(SeqCst), self.looks.load(SeqCst));
        told > 0 && looks.saturating_sub(told) < TROUBLE_MILLIS / LOOK_MILLIS
    }

    /// Who did.
    pub(crate) fn all(&self) -> ReplicaSet {
        let mut all = ReplicaSet::none();
        for number in 0..MOST_REPLICAS as u8 {
            if self.has(ReplicaId(number)) {
                all.add(ReplicaId(number));
            }
        }
        all
    }
}
