//! What the first thread of a front's process does while others serve.

use crate::numbering::Clerk;
use crate::wire_requests::WireRequests;
use log::{Log, info};
use std::rt::Files;
use std::sync::Wait;
use std::sync::atomic::AtomicBool;
use std::sync::atomic::Ordering::SeqCst;
use std::thread;
use std::time::{Clock, Duration};
use tuning::LOOK_MILLIS;

/// The clerk of a front, and what is told of it.
#[derive(Drop)]
pub(crate) struct Desk<'d, R> {
    pub(crate) clerk: Clerk<'d, R>,
    pub(crate) requests: &'d WireRequests,
    pub(crate) front: u8,
    /// Each how many seconds a line of status is logged. None for no lines.
    pub(crate) each: Option<u64>,
}

/// Tells how a front is.
fn tell_status<R: Wait + Log>(rt: &R, front: u8, requests: &WireRequests) {
    let (linked, replicas) = (requests.linked(rt), requests.replicas());
    let numbering = requests.numbering();
    let (asked, marked) = (numbering.asked().0, numbering.marked(rt).0);
    info!(rt; "front {front}: {linked} of {replicas} replicas linked; number {asked} asked for, all up to {marked} marked");
}

impl<'d, R: Files + AllocGlobal> Desk<'d, R> {
    /// Whether a line of status is due at a look, of which so many were before.
    fn is_due(&self, looks: u64) -> bool {
        let in_a_second = 1000 / LOOK_MILLIS;
        match self.each {
            Some(each) => looks % each.max(1).saturating_mul(in_a_second) == 0,
            None => false,
        }
    }

    /// Looks after numbers and the log again and again, until all is done.
    pub(crate) fn keep<W: Wait + Clock + Log>(mut self, rt: &W, is_done: &AtomicBool) {
        let requests = self.requests;
        for looks in 1..u64::MAX {
            if is_done.load(SeqCst) {
                break;
            }
            self.clerk.look(rt, requests.numbering());
            if self.is_due(looks) {
                tell_status(rt, self.front, requests);
            }
            thread::sleep(rt, Duration::from_millis(LOOK_MILLIS));
        }
    }
}
