//! Which blocks a replica gives to others that ask for them.

use crate::given::Given;
use ids::{Config, Digest, ReplicaId};
use std::alloc::{AllocError, Global};
use std::sync::atomic::AtomicU64;
use std::sync::atomic::Ordering::SeqCst;
use tuning::{BLOCK_MICROS, GIVEN_AHEAD_MILLIS, QUESTION_PAUSE_MILLIS};

/// The block that a replica was given last.
#[derive(Drop)]
struct Last {
    /// How its digest begins.
    begins: AtomicU64,
    /// When it was given, in milliseconds.
    at: AtomicU64,
}

/// What each replica was given that asked for blocks, in microseconds. Threads share it by reference.
#[derive(Drop)]
pub(crate) struct Supplied {
    /// What a block counts.
    cost: u64,
    given: Given,
    last: Vec<Last>,
}

/// How a digest begins, as a number.
fn beginning(block: &Digest) -> u64 {
    match block.0.first_chunk() {
        Some(bytes) => u64::from_be_bytes(*bytes),
        None => 0,
    }
}

/// Milliseconds as microseconds.
fn micros(millis: u64) -> u64 {
    millis.saturating_mul(1000)
}

impl Supplied {
    /// Nothing was given.
    pub(crate) fn none(alloc: Global, config: Config) -> Result<Supplied, AllocError> {
        let mut last = Vec::new(alloc);
        for _ in 0..config.n() {
            last.push(Last {
                begins: AtomicU64::new(0),
                at: AtomicU64::new(0),
            })?;
        }
        let cost = u64::from(config.faults()) * BLOCK_MICROS;
        let given = Given::none(alloc, config, micros(GIVEN_AHEAD_MILLIS))?;
        Ok(Supplied { cost, given, last })
    }

    /// Whether a replica was given this block last, and asks again sooner than a correct one does, which awaits an answer for
    /// `QUESTION_PAUSE_MILLIS` at least.
    fn has_just_got(&self, to: ReplicaId, block: &Digest, now: u64) -> bool {
        let Some(last) = self.last.get(usize::from(to.0)) else {
            return false;
        };
        let passed = now.saturating_sub(last.at.load(SeqCst));
        last.begins.load(SeqCst) == beginning(block) && passed < QUESTION_PAUSE_MILLIS / 2
    }

    /// Whether a replica that asks for a block now is given it: it has not just got it, and wasn't given too many of late.
    pub(crate) fn may_supply(&self, to: ReplicaId, block: &Digest, now: u64) -> bool {
        self.given.may_give(to, micros(now)) && !self.has_just_got(to, block, now)
    }

    /// A replica was given a block.
    pub(crate) fn supplied(&self, to: ReplicaId, block: &Digest, now: u64) {
        let _counted = self.given.give(to, micros(now), self.cost);
        if let Some(last) = self.last.get(usize::from(to.0)) {
            last.begins.store(beginning(block), SeqCst);
            last.at.store(now, SeqCst);
        }
    }
}
