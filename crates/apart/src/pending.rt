//! What came so far of a replica's answer.

use bytes::Bytes;
use catching_up::Question;
use fabric::Answer;
use ids::{Height, ReplicaId};
use std::alloc::Global;
use tuning::MOST_CATCH_UP_BYTES;

/// What came of the answer to a question, frame by frame: no more of each kind than a correct replica sends. What doesn't fit is
/// lost, and so is what came of another question.
#[derive(Drop)]
pub(crate) struct Pending {
    alloc: Global,
    from: Height,
    frames: Frames,
    announced: Frames,
}

/// Frames of one kind.
#[derive(Drop)]
struct Frames {
    all: Vec<Bytes>,
    bytes: u64,
}

impl Frames {
    fn none(alloc: Global) -> Frames {
        Frames {
            all: Vec::new(alloc),
            bytes: 0,
        }
    }

    /// One frame more, if there is room for it, and memory.
    fn add(&mut self, alloc: Global, frame: &[u8]) {
        let bytes = self.bytes.saturating_add(frame.len() as u64);
        if bytes > MOST_CATCH_UP_BYTES {
            return;
        }
        if let Ok(frame) = Bytes::copy_from_slice(alloc, frame) {
            if self.all.push(frame).is_ok() {
                self.bytes = bytes;
            }
        }
    }
}

impl Pending {
    /// Nothing came.
    pub(crate) fn none(alloc: Global) -> Pending {
        Pending {
            alloc,
            from: Height(0),
            frames: Frames::none(alloc),
            announced: Frames::none(alloc),
        }
    }

    /// What came is of the question from this height, or is forgotten.
    fn turn_to(&mut self, from: Height) {
        if self.from != from {
            *self = Pending::none(self.alloc);
            self.from = from;
        }
    }

    /// A recorded frame came.
    pub(crate) fn record(&mut self, from: Height, frame: &[u8]) {
        self.turn_to(from);
        self.frames.add(self.alloc, frame);
    }

    /// An announcement came.
    pub(crate) fn announce(&mut self, from: Height, frame: &[u8]) {
        self.turn_to(from);
        self.announced.add(self.alloc, frame);
    }

    /// All of a replica's answer to a question came, of which this is what is there.
    pub(crate) fn end(&mut self, to: ReplicaId, from: Height, bytes: u64, is_last: bool) -> Answer {
        self.turn_to(from);
        let Pending {
            frames,
            announced,
            ..
        } = std::mem::replace(self, Pending::none(self.alloc));
        Answer {
            question: Question { to, from, bytes },
            frames: frames.all,
            announced: announced.all,
            is_last,
        }
    }
}
