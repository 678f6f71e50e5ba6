//! How the parties' processes ended.

use std::sync::{Mutex, Wait};
use std::thread;
use std::time::{Clock, Duration};

/// Where each process leaves how it ended: replicas 0 to 3, fronts 0 and 1, and front 0 begun again.
#[derive(Drop)]
pub(crate) struct Endings {
    all: Mutex<[Option<&'static str>; 7]>,
}

/// How often is looked, before one is given up.
const LOOKS: u32 = 3000;

impl Endings {
    pub(crate) fn none() -> Endings {
        Endings {
            all: Mutex::new([None; 7]),
        }
    }

    /// The process of this place ended so.
    pub(crate) fn leave<R: Wait>(&self, rt: &R, place: usize, ending: &'static str) {
        if let Some(found) = self.all.lock(rt).get_mut(place) {
            *found = Some(ending);
        }
    }

    /// How the process of this place ended, if it did.
    fn found<R: Wait>(&self, rt: &R, place: usize) -> Option<&'static str> {
        self.all.lock(rt).get(place).copied().flatten()
    }

    /// How the process of this place ended, once it did.
    pub(crate) fn wait_for<R: Wait + Clock>(&self, rt: &R, place: usize) -> &'static str {
        for _ in 0..LOOKS {
            if let Some(ending) = self.found(rt, place) {
                return ending;
            }
            thread::sleep(rt, Duration::from_millis(10));
        }
        "goes on"
    }
}
