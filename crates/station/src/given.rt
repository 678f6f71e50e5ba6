//! What a replica gives to others that ask.

use catching_up::counted_until;
use ids::{Config, ReplicaId};
use std::alloc::{AllocError, Global};
use std::sync::atomic::AtomicU64;
use std::sync::atomic::Ordering::SeqCst;

/// Until when what each replica was given is counted, in one unit of time. Threads share it by reference; two that give at once may
/// count one.
#[derive(Drop)]
pub(crate) struct Given {
    /// Until how long ahead it may be.
    ahead: u64,
    until: Vec<AtomicU64>,
}

impl Given {
    /// Nothing was given, and what is may count so long ahead.
    pub(crate) fn none(alloc: Global, config: Config, ahead: u64) -> Result<Given, AllocError> {
        let mut until = Vec::new(alloc);
        for _ in 0..config.n() {
            until.push(AtomicU64::new(0))?;
        }
        Ok(Given { ahead, until })
    }

    /// Until when all that a replica was given is counted, with something now that costs so much; None where it was given too
    /// much of late.
    fn until_with(&self, to: ReplicaId, now: u64, cost: u64) -> Option<u64> {
        let until = self.until.get(usize::from(to.0))?;
        counted_until(self.ahead, until.load(SeqCst), now, cost)
    }

    /// Whether a replica may be given something now.
    pub(crate) fn may_give(&self, to: ReplicaId, now: u64) -> bool {
        self.until_with(to, now, 0).is_some()
    }

    /// Counts something now that costs so much, unless a replica was given too much of late. Whether it's given that.
    pub(crate) fn give(&self, to: ReplicaId, now: u64, cost: u64) -> bool {
        let next = self.until_with(to, now, cost);
        if let (Some(until), Some(next)) = (self.until.get(usize::from(to.0)), next) {
            until.store(next, SeqCst);
        }
        next.is_some()
    }
}
