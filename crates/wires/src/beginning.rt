//! Moments, in milliseconds since links were made.

use std::time::{Clock, Duration, Instant};

/// How many whole milliseconds there are in a while.
pub(crate) fn millis_of(passed: Duration) -> u64 {
    u64::try_from(passed.as_millis()).unwrap_or(u64::MAX)
}

/// When links were made. None where the clock can't be read: then no time passes for who stays out.
#[derive(Clone, Copy)]
pub(crate) struct Beginning(Option<Instant>);

impl Beginning {
    /// Now.
    pub(crate) fn new<R: Clock>(rt: &R) -> Beginning {
        Beginning(Instant::now(rt).ok())
    }

    /// The milliseconds since.
    pub(crate) fn millis<R: Clock>(&self, rt: &R) -> u64 {
        match self.0.and_then(|began| began.elapsed(rt).ok()) {
            Some(passed) => millis_of(passed),
            None => 0,
        }
    }
}
