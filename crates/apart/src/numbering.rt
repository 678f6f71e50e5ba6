//! The numbers that the clients of a front give.

use ids::Seq;
use state_marks::{Directory, Numbers};
use std::rt::Files;
use std::sync::atomic::AtomicU64;
use std::sync::atomic::Ordering::SeqCst;
use std::sync::{Mutex, Wait};
use tuning::NUMBERS_AHEAD;

/// Which numbers may be given: those that are marked. Threads share it by reference.
#[derive(Drop)]
pub(crate) struct Numbering {
    /// What its clerk marked last.
    marked: Mutex<Numbers>,
    /// The highest number that was asked for.
    asked: AtomicU64,
}

impl Numbering {
    /// These may be given.
    pub(crate) fn of(numbers: &Numbers) -> Numbering {
        Numbering {
            marked: Mutex::new(numbers.again()),
            asked: AtomicU64::new(numbers.behind().0),
        }
    }

    /// Whether a number may be given. It is asked for, at least.
    pub(crate) fn may_give<R: Wait>(&self, rt: &R, seq: Seq) -> bool {
        self.asked.fetch_max(seq.0, SeqCst);
        self.marked.lock(rt).covers(seq)
    }

    /// The highest number that was asked for.
    pub(crate) fn asked(&self) -> Seq {
        Seq(self.asked.load(SeqCst))
    }

    /// Up to which number all may be given.
    pub(crate) fn marked<R: Wait>(&self, rt: &R) -> Seq {
        self.marked.lock(rt).marked()
    }

    /// These may be given from now on.
    fn tell<R: Wait>(&self, rt: &R, numbers: &Numbers) {
        *self.marked.lock(rt) = numbers.again();
    }
}

/// Who marks numbers in the state directory of a front, before its clients come to them.
#[derive(Drop)]
pub(crate) struct Clerk<'d, R> {
    pub(crate) numbers: Numbers,
    pub(crate) directory: Directory<'d, R>,
}

impl<'d, R: Files + AllocGlobal> Clerk<'d, R> {
    /// Whether fewer than half of the numbers that are marked ahead of this one are left.
    fn are_few(&self, asked: Seq) -> bool {
        !self
            .numbers
            .covers(Seq(asked.0.saturating_add(NUMBERS_AHEAD / 2)))
    }

    /// Marks more numbers, where few are left, and tells so once they are marked. Where that fails it is tried again: clients
    /// wait, and give no number meanwhile.
    pub(crate) fn look<W: Wait>(&mut self, rt: &W, numbering: &Numbering) {
        let asked = numbering.asked();
        if !self.are_few(asked) {
            return;
        }
        let kept = self.numbers.mark(&mut self.directory, asked, NUMBERS_AHEAD);
        if kept.is_ok() {
            numbering.tell(rt, &self.numbers);
        }
    }
}
