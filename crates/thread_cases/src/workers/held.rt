//! A gate that holds the first frame.

use crate::workers::meeting::Meeting;
use crate::workers::seen::Seen;
use std::sync::atomic::AtomicBool;
use std::sync::atomic::Ordering::SeqCst;
use turns::Gate;

/// Holds frame 1 until frame 2 was stepped, if it is to, and notes whether frame 1 had been stepped by then, and
/// whether frame 3 was entered.
#[derive(Drop)]
pub(crate) struct Held<'s> {
    holds: bool,
    seen: &'s Seen,
    meeting: Meeting,
    stepped_before: AtomicBool,
    third: AtomicBool,
}

impl<'s> Held<'s> {
    /// A gate before the stand-ins that note what comes to them here.
    pub(crate) fn new(holds: bool, seen: &'s Seen) -> Held<'s> {
        Held {
            holds,
            seen,
            meeting: Meeting::new(),
            stepped_before: AtomicBool::new(false),
            third: AtomicBool::new(false),
        }
    }

    /// Whether frame 1 waited until frame 2 was stepped.
    pub(crate) fn has_met(&self) -> bool {
        self.meeting.has_met()
    }

    /// Whether the step of frame 1 had been made when it was let go.
    pub(crate) fn was_stepped_before(&self) -> bool {
        self.stepped_before.load(SeqCst)
    }

    /// Whether frame 3 was entered.
    pub(crate) fn saw_third(&self) -> bool {
        self.third.load(SeqCst)
    }
}

impl<'s> Gate for Held<'s> {
    fn enter(&self, frame: u64) {
        if frame == 3 {
            self.third.store(true, SeqCst);
        }
        if frame == 1 && self.holds {
            self.meeting.wait();
            self.stepped_before.store(self.seen.came(1), SeqCst);
        }
    }

    fn stepped(&self, frame: u64) {
        if frame == 2 {
            self.meeting.come();
        }
    }
}
