//! What is told of certificates that replicas doubt.

use ids::MOST_REPLICAS;
use log::Log;
use station::Station;
use std::sync::Wait;

/// From which second on doubts of each replica may be told.
#[derive(Clone, Copy)]
pub(crate) struct Doubted {
    again: [u64; MOST_REPLICAS],
}

impl Doubted {
    /// None was told.
    pub(crate) fn none() -> Doubted {
        Doubted {
            again: [0; MOST_REPLICAS],
        }
    }

    /// Asks all replicas, in this second. Warns of what each has found, once a minute at most.
    pub(crate) fn look<R: Wait + Log>(&mut self, rt: &R, stations: &[Station<'_>], second: u64) {
        for station in stations {
            let place = usize::from(station.number().0);
            if let Some(again) = self.again.get(place).copied() {
                self.again[place] = station.warn_of_doubts(rt, again, second);
            }
        }
    }
}
