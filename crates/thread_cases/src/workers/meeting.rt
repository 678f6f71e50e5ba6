//! Where one thread waits for another.

use std::sync::atomic::AtomicBool;
use std::sync::atomic::Ordering::SeqCst;
use std::thread::yield_now;

/// How often who waits looks for the other, at most.
const MOST_TURNS: u32 = 10_000;

/// How often a turn yields: so that all turns together take some seconds, since a machine may be
/// busy with other things.
const YIELDS: u32 = 1000;

/// One thread waits here until another has come, or until it waited long enough.
#[derive(Drop)]
pub(crate) struct Meeting {
    come: AtomicBool,
    met: AtomicBool,
}

/// Lets other threads run.
fn stand_back() {
    for _ in 0..YIELDS {
        yield_now();
    }
}

impl Meeting {
    pub(crate) fn new() -> Meeting {
        Meeting {
            come: AtomicBool::new(false),
            met: AtomicBool::new(false),
        }
    }

    /// The other has come.
    pub(crate) fn come(&self) {
        self.come.store(true, SeqCst);
    }

    /// Waits until the other has come.
    pub(crate) fn wait(&self) {
        for _ in 0..MOST_TURNS {
            if self.come.load(SeqCst) {
                self.met.store(true, SeqCst);
                return;
            }
            stand_back();
        }
    }

    /// Whether who waited saw the other come.
    pub(crate) fn has_met(&self) -> bool {
        self.met.load(SeqCst)
    }
}
