//! The way out of a replica that lies.

use crate::beside::{Beside, Wrong};
use crate::station::Station;
use bytes::Bytes;
use catching_up::Question;
use fabric::{Outgoing, Post, Questioned, Recording, Sender};
use frames_view::Frame;
use ids::{Digest, Height, Kind, ReplicaId};
use liars::{Lies, Lying};
use signed_frames::{Sending, To};
use std::alloc::{AllocError, Global};
use std::sync::atomic::AtomicU64;
use std::sync::atomic::Ordering::SeqCst;
use std::sync::{Mutex, Wait};
use std::thread;
use std::time::{Clock, Duration, Instant};
use suspicion::ReplicaSet;
use tuning::LIAR_REST_MICROS;

/// What a worker of a replica that lies begins with.
#[derive(Drop)]
pub(crate) struct LiarStart {
    pub(crate) alloc: Global,
    pub(crate) lying: Lying,
    /// After how many seconds it falls silent. None for never.
    pub(crate) until: Option<u64>,
    /// How it lies outside of frames.
    pub(crate) beside: Beside,
}

/// What a liar hands to its own replica comes in a row of clients.
const AS_A_CLIENT: Sender = Sender::Front(0);

/// A post, behind a liar.
#[derive(Drop)]
pub(crate) struct LyingOut<'a, 'k, C, P> {
    clock: &'a C,
    /// When it began to lie. None where the clock can't be read: then it never falls silent.
    start: Option<Instant>,
    alloc: Global,
    lying: Mutex<Lying>,
    until: Option<u64>,
    post: &'a P,
    station: &'a Station<'k>,
    beside: Beside,
    /// How many answers or doubts it told.
    told: AtomicU64,
    /// How many of its frames the post hadn't carried when it looked last.
    refused: AtomicU64,
}

impl<'a, 'k, C: Clock, P: Post> LyingOut<'a, 'k, C, P> {
    /// The way out of a liar that begins now.
    pub(crate) fn new(
        clock: &'a C,
        liar: LiarStart,
        post: &'a P,
        station: &'a Station<'k>,
    ) -> LyingOut<'a, 'k, C, P> {
        let LiarStart {
            alloc,
            lying,
            until,
            beside,
        } = liar;
        LyingOut {
            clock,
            start: Instant::now(clock).ok(),
            alloc,
            lying: Mutex::new(lying),
            until,
            post,
            station,
            beside,
            told: AtomicU64::new(0),
            refused: AtomicU64::new(0),
        }
    }

    /// Some replicas, f in a row, others each time.
    fn some_others(&self) -> ReplicaSet {
        let config = self.post.config();
        let first = self.told.fetch_add(1, SeqCst);
        let mut some = ReplicaSet::none();
        for next in 0..u64::from(config.faults()) {
            let number = first.wrapping_add(next) % u64::from(config.n());
            some.add(ReplicaId(number as u8));
        }
        some
    }

    /// Tells whom it sends a vote that votes of some others weren't right.
    fn doubt_falsely<R: Wait>(&self, rt: &R, sending: &Sending) {
        if let (Beside::Doubts, Kind::Vote, To::Replica(to)) = (
            self.beside,
            sending.kind,
            sending.to,
        ) {
            let voters = self.some_others();
            self.post.doubt(rt, self.station.number(), to, voters);
        }
    }

    /// Answers a question wrongly.
    fn answer_wrongly<R: Wait>(
        &self,
        rt: &R,
        from: ReplicaId,
        question: Question,
    ) -> Result<(), AllocError> {
        let wrong = Wrong::of(self.told.fetch_add(1, SeqCst));
        let asked = match wrong {
            Wrong::Old => Question {
                from: Height(0),
                ..question
            },
            _ => question,
        };
        let mut answer = self.station.recorder().answer(rt, self.alloc, asked)?;
        answer.question = question;
        answer.frames = wrong.frames(self.alloc, answer.frames)?;
        self.post.answer(rt, self.station.number(), from, answer);
        Ok(())
    }

    /// Whether others didn't take something that it sent since it looked last.
    fn is_turned_away(&self) -> bool {
        let refused = self.post.refused(self.station.number());
        self.refused.swap(refused, SeqCst) != refused
    }

    /// Sends all, until others don't take something: then it waits a moment, as at a socket that is full, and the rest is lost. Else
    /// its thread would take the processors of those that it lies to, which elsewhere aren't on its machine.
    fn send_all<R: Wait>(&self, rt: &R, from: ReplicaId, out: Vec<Sending>) {
        for sending in out {
            self.post.send(rt, from, sending);
            if self.is_turned_away() {
                thread::sleep(self.clock, Duration::from_micros(LIAR_REST_MICROS));
                break;
            }
        }
    }

    /// Whether the liar has fallen silent.
    fn is_silent(&self) -> bool {
        let passed = self.start.and_then(|start| start.elapsed(self.clock).ok());
        match (passed, self.until) {
            (Some(passed), Some(seconds)) => passed >= Duration::from_secs(seconds),
            _ => false,
        }
    }
}

/// What the liar hands to its own replica comes over that one's link, as a client's frames do.
impl<C: Clock, P: Post> Outgoing for LyingOut<'_, '_, C, P> {
    fn send<R: Wait>(&self, rt: &R, from: ReplicaId, sending: Sending) {
        if self.is_silent() || self.station.inbox().is_ending(rt) {
            return;
        }
        self.doubt_falsely(rt, &sending);
        let Ok(Lies { out, own }) = self.lying.lock(rt).lie(self.alloc, sending) else {
            return;
        };
        for frame in own {
            if let Ok(bytes) = Bytes::from_vec(frame) {
                let _lost = self.station.inbox().hand_in_frame(rt, &AS_A_CLIENT, bytes);
            }
        }
        self.send_all(rt, from, out);
    }
}

/// It never comes back where it fell behind.
impl<C: Clock, P: Post> Recording for LyingOut<'_, '_, C, P> {
    fn record<R: Wait>(&self, rt: &R, frame: &Frame<'_>, bytes: &Bytes, voted: Option<Digest>) {
        if self.beside == Beside::Records {
            self.station.recorder().record(rt, frame, bytes, voted);
        }
    }

    fn answer<R: Wait + Clock>(&self, rt: &R, _alloc: Global, from: ReplicaId, question: Question) {
        if self.beside == Beside::Records && !self.is_silent() {
            let _lost = self.answer_wrongly(rt, from, question);
        }
    }
}

/// It asks for nothing that has no grounds.
impl<C, P> Questioned for LyingOut<'_, '_, C, P> {}
