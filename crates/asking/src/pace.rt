//! How many questions may go out, and how long answers are awaited.

ghost use Rattle.std.specs.Prelude.{◌≡◌, ◌≤◌, ◌<◌, ◌-◌, nat_le, IsTrue};
ghost use Rattle.asking.specs.Asking.{allows, blocks_among, counted, wait_after};
ghost use Rattle.tuning.specs.declared.asking.TheConstants.{QUESTION_PACE, QUESTION_PACE_MILLIS, QUESTION_PAUSE_MILLIS};

use std::marker::Model;
use tuning::{
    MOST_QUESTION_PAUSE_MILLIS, PAUSE_PART, QUESTION_PACE, QUESTION_PACE_MILLIS,
    QUESTION_PAUSE_MILLIS,
};

/// The questions of a short time, and how long answers take.
#[derive(Clone, Copy)]
pub(crate) struct Pace {
    /// When the time began, in milliseconds.
    since: u64,
    asked: u64,
    /// For how many milliseconds an answer is awaited at first.
    wait: u64,
}

/// For how long an answer is awaited behind one that took so many milliseconds, where it was awaited so long before.
fn wait_after(took: u64, wait: u64) -> u64
    ensures { result ≡ wait_after took wait }
{
    let less = wait - wait / PAUSE_PART;
    took.saturating_mul(2)
        .max(less)
        .max(QUESTION_PAUSE_MILLIS)
        .min(MOST_QUESTION_PAUSE_MILLIS)
}

impl Model for Pace {
    ghost use Rattle.std.specs.Prelude.{◌≤◌};
    ghost use Rattle.asking.specs.Asking as asking;
    ghost use Rattle.tuning.specs.declared.asking.TheConstants.{QUESTION_PACE, QUESTION_PACE_MILLIS};

    ghost Value = { asking.Pace };

    ghost view = { λ pace. record { since = pace.since; asked = pace.asked; wait = pace.wait } };

    ghost invariant = { λ pace. pace.asked ≤ QUESTION_PACE };

    ghost inverse = { λ pace. record { since = pace.since; asked = pace.asked; wait = pace.wait } };
}

/// For how many blocks questions may go out in the time that is counted, where each is asked of so many replicas.
pub(crate) fn blocks_among(replicas: u8) -> u64
    requires { 0 < replicas }
    ensures blocks { result ≡ blocks_among replicas }
    ensures few { result ≤ QUESTION_PACE }
{
    QUESTION_PACE / u64::from(replicas)
}

impl Pace {
    /// None went out.
    pub(crate) fn new() -> Pace
        ensures { result ≡ record { since = 0; asked = 0; wait = QUESTION_PAUSE_MILLIS } }
    {
        Pace {
            since: 0,
            asked: 0,
            wait: QUESTION_PAUSE_MILLIS,
        }
    }

    /// For how many milliseconds an answer is awaited at first.
    pub(crate) fn wait(&self) -> u64
        ensures { result ≡ self.now.wait }
    {
        self.wait
    }

    /// A block came so many milliseconds after it was asked for.
    pub(crate) fn answered(&mut self, took: u64)
        ensures { self.new ≡ record self.old { wait = wait_after took self.old.wait } }
    {
        self.wait = wait_after(took, self.wait);
    }

    /// Whether the time that is counted is over.
    fn is_over(&self, now: u64) -> bool
        ensures { result ≡ nat_le QUESTION_PACE_MILLIS (now - self.now.since) }
    {
        now.saturating_sub(self.since) >= QUESTION_PACE_MILLIS
    }

    /// Whether a question may go out, where so many may in the time that is counted.
    pub(crate) fn allows(&self, most: u64, now: u64) -> bool
        ensures allows { result ≡ allows most now self.now }
        ensures few { self.now.asked ≤ QUESTION_PACE }
    {
        self.is_over(now) || self.asked < most
    }

    /// One more went out.
    pub(crate) fn count(&mut self, most: u64, now: u64)
        requires allows { IsTrue (allows most now self.old) }
        requires few { most ≤ QUESTION_PACE }
        ensures counted { self.new ≡ counted now self.old }
        ensures few { self.new.asked ≤ QUESTION_PACE }
    {
        if self.is_over(now) {
            self.since = now;
            self.asked = 1;
        } else {
            self.asked += 1;
        }
    }
}
