//! What a replica's workers and its clock tell each other of trouble.

use ids::View;
use std::sync::atomic::Ordering::SeqCst;
use std::sync::atomic::{AtomicBool, AtomicU64};

/// Whether there is trouble around a replica, and in which view it is, as its clock found last; and how many certificates
/// weren't good for it so far, or for others though it proposed them.
#[derive(Drop)]
pub(crate) struct TroubleSign {
    is_on: AtomicBool,
    doubted: AtomicU64,
    view: AtomicU64,
}

impl TroubleSign {
    /// There is none, and nothing was doubted.
    pub(crate) fn none() -> TroubleSign {
        TroubleSign {
            is_on: AtomicBool::new(false),
            doubted: AtomicU64::new(0),
            view: AtomicU64::new(0),
        }
    }

    /// One certificate more isn't good for the replica.
    pub(crate) fn doubt(&self) {
        self.doubted.fetch_add(1, SeqCst);
    }

    /// How many weren't.
    pub(crate) fn doubted(&self) -> u64 {
        self.doubted.load(SeqCst)
    }

    /// The clock found this.
    pub(crate) fn show(&self, is_on: bool, view: View) {
        self.view.store(view.0, SeqCst);
        self.is_on.store(is_on, SeqCst);
    }

    /// A leader is to begin anew: there is trouble from now on.
    pub(crate) fn raise(&self) {
        self.doubt();
        self.is_on.store(true, SeqCst);
    }

    /// The view.
    pub(crate) fn view(&self) -> View {
        View(self.view.load(SeqCst))
    }

    /// Whether there is trouble.
    pub(crate) fn is_on(&self) -> bool {
        self.is_on.load(SeqCst)
    }
}
