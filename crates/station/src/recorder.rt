//! What a replica recorded for others.

use crate::given::Given;
use crate::supplied::Supplied;
use bytes::Bytes;
use catching_up::Question;
use fabric::Answer;
use frame_record::{Announced, Announcements, FrameRecord, Recorded};
use frames_view::{CoreView, Frame, NewViewView};
use ids::{Config, Digest, Height, ReplicaId};
use std::alloc::{AllocError, Global};
use std::sync::{Mutex, Wait};
use tuning::{ANSWER_BYTES_A_MILLI, GIVEN_AHEAD_MILLIS, LEAST_ANSWER_MILLIS, MOST_CATCH_UP_BYTES};

/// A number of bytes as what memory is counted in.
fn size_of(bytes: u64) -> usize {
    usize::try_from(bytes).unwrap_or(usize::MAX)
}

/// For how long an answer counts of those that are given to one replica, where that asks for so many bytes.
fn cost_of(bytes: u64) -> u64 {
    let millis = bytes.min(MOST_CATCH_UP_BYTES) / ANSWER_BYTES_A_MILLI;
    millis.max(LEAST_ANSWER_MILLIS)
}

/// The frames that a replica took, each of the two kinds under a lock, and what it gave to whom. Threads share it by
/// reference.
#[derive(Drop)]
pub(crate) struct Recorder {
    frames: Mutex<FrameRecord>,
    announcements: Mutex<Announcements>,
    answers: Given,
    blocks: Supplied,
}

impl Recorder {
    /// Nothing was recorded, and what is may take so many megabytes.
    pub(crate) fn new(
        alloc: Global,
        config: Config,
        megabytes: u64,
    ) -> Result<Recorder, AllocError> {
        let most = size_of(megabytes.saturating_mul(1 << 20));
        Ok(Recorder {
            frames: Mutex::new(FrameRecord::new(alloc, most)),
            announcements: Mutex::new(Announcements::new(alloc, config)?),
            answers: Given::none(alloc, config, GIVEN_AHEAD_MILLIS)?,
            blocks: Supplied::none(alloc, config)?,
        })
    }

    /// A frame of these bytes was taken. The replica voted for its block, where this is one. For want of memory it isn't
    /// recorded.
    pub(crate) fn record<R: Wait>(
        &self,
        rt: &R,
        frame: &Frame<'_>,
        bytes: &Bytes,
        voted: Option<Digest>,
    ) {
        match frame {
            Frame::Proposal(proposal) => self.note_block(rt, &proposal.core(), bytes, voted),
            Frame::NewView(announcement) => self.note_view(rt, announcement, bytes),
            _ => {}
        }
    }

    /// An announcement was taken.
    fn note_view<R: Wait>(&self, rt: &R, announcement: &NewViewView<'_>, bytes: &Bytes) {
        let Ok(frame) = bytes.clone() else {
            return;
        };
        let view = announcement.view();
        let mut announcements = self.announcements.lock(rt);
        announcements.note(announcement.sender(), Announced { view, frame });
    }

    /// A proposal was taken.
    fn note_block<R: Wait>(
        &self,
        rt: &R,
        core: &CoreView<'_>,
        bytes: &Bytes,
        voted: Option<Digest>,
    ) {
        let Ok(frame) = bytes.clone() else {
            return;
        };
        let recorded = Recorded {
            height: core.height(),
            block: match voted {
                Some(block) => block,
                None => core.digest(),
            },
            frame,
        };
        let _refused = self.frames.lock(rt).put(recorded);
    }

    /// Whether a replica that asks for so many bytes now gets an answer: it wasn't given too much of late.
    pub(crate) fn may_answer(&self, from: ReplicaId, now: u64, bytes: u64) -> bool {
        self.answers.give(from, now, cost_of(bytes))
    }

    /// What others were given that asked for blocks.
    pub(crate) fn blocks(&self) -> &Supplied {
        &self.blocks
    }

    /// The answer to a question, of no more bytes than a correct replica asks for. The bytes of frames are shared.
    pub(crate) fn answer<R: Wait>(
        &self,
        rt: &R,
        alloc: Global,
        question: Question,
    ) -> Result<Answer, AllocError> {
        let most = size_of(question.bytes.min(MOST_CATCH_UP_BYTES));
        let batch = self.frames.lock(rt).from(alloc, question.from, most)?;
        let announced = self.announcements.lock(rt).frames(alloc)?;
        Ok(Answer {
            question,
            frames: batch.frames,
            announced,
            is_last: batch.is_last,
        })
    }

    /// The lowest height of a frame that it recorded; the greatest of all where there is none.
    pub(crate) fn lowest<R: Wait>(&self, rt: &R) -> Height {
        match self.frames.lock(rt).lowest() {
            Some(height) => height,
            None => Height(u64::MAX),
        }
    }
}
