//! What a replica doubts of what it refused.

use authenticators::VerifyingKeyring;
use std::sync::atomic::AtomicBool;
use std::sync::atomic::Ordering::SeqCst;
use std::sync::{Mutex, Wait};
use suspicion::{Doubt, doubt_in};

/// What was found of frames that a replica refused. One of them is looked at each time that it is asked for, so that a
/// flood of bad frames costs no more.
#[derive(Drop)]
pub(crate) struct Doubts {
    is_asked: AtomicBool,
    found: Mutex<Option<Doubt>>,
}

impl Doubts {
    /// Nothing was found, and nothing is asked for.
    pub(crate) fn none() -> Doubts {
        Doubts {
            is_asked: AtomicBool::new(false),
            found: Mutex::new(None),
        }
    }

    /// Has a look at a frame that was refused, where one is asked for.
    pub(crate) fn look<R: Wait>(&self, rt: &R, keyring: &VerifyingKeyring, bytes: &[u8]) {
        if !self.is_asked.swap(false, SeqCst) {
            return;
        }
        if let Some(doubt) = doubt_in(keyring, bytes) {
            *self.found.lock(rt) = Some(doubt);
        }
    }

    /// What was found since it was asked for last. It asks for the next.
    pub(crate) fn take<R: Wait>(&self, rt: &R) -> Option<Doubt> {
        let found = self.found.lock(rt).take();
        self.is_asked.store(true, SeqCst);
        found
    }
}
