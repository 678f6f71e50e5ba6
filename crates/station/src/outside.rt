//! What lies around the workers of a correct replica.

ghost use Rattle.std.specs.Prelude.{◌≡◌};

use crate::guarded::Guarded;
use crate::station::Station;
use asking::{Ask, BlockCopy};
use authenticators::VerifyingKeyring;
use bytes::Bytes;
use catching_up::Question;
use fabric::{Copies, CopyUse, Outgoing, Post, Questioned, Recording};
use frames_view::Frame;
use ids::{Digest, Height, ReplicaId, View};
use signed_frames::Sending;
use std::alloc::{AllocError, Global};
use std::sync::Wait;
use std::time::{Clock, Instant};
use suspicion::ReplicaSet;

/// The frames of copies.
fn copies_of(alloc: Global, copies: &[BlockCopy]) -> Result<Vec<Bytes>, AllocError> {
    let mut frames = Vec::new(alloc);
    for copy in copies {
        frames.push(copy.frame.clone()?)?;
    }
    Ok(frames)
}

/// Whether a block on this one is early: this one is asked for, and hasn't come.
fn is_early(guarded: &Guarded<'_>, parent: &Digest) -> bool {
    guarded.questions.is_wanted(parent) && !guarded.replica().knows(parent)
}

/// A post, and a replica's station: its sign of trouble, what it doubts, and its questions.
#[derive(Drop)]
pub(crate) struct Outside<'s, 'a, P> {
    post: &'s P,
    station: &'s Station<'a>,
    /// When its worker began. None where the clock can't be read: then no time passes for its questions.
    start: Option<Instant>,
}

impl<P: Post> Outside<'_, '_, P> {
    /// Tells all others whose votes weren't right for the replica: who leads does without them, and the others' votes go to it,
    /// too. Not while it is behind: it couldn't vote in their place, and no quorum would be left.
    fn tell_doubt<R: Wait>(&self, rt: &R, voters: ReplicaSet) {
        if !self.station.comeback().is_near(self.station.height(rt)) {
            return;
        }
        let own = self.station.number();
        for number in 0..self.post.config().n() {
            if number != own.0 {
                self.post.doubt(rt, own, ReplicaId(number), voters);
            }
        }
    }
}

impl<'s, 'a, P> Outside<'s, 'a, P> {
    /// What lies around a worker that begins now.
    pub(crate) fn new<R: Clock>(
        rt: &R,
        post: &'s P,
        station: &'s Station<'a>,
    ) -> Outside<'s, 'a, P> {
        Outside {
            post,
            station,
            start: Instant::now(rt).ok(),
        }
    }

    /// Whether votes weren't right for the replica of late.
    fn is_left_out(&self) -> bool {
        self.station.left_out().has(self.station.number())
    }

    /// Whether others have what the replica can't take alone: it is left out, and a little behind.
    fn goes_by_others(&self) -> bool {
        self.is_left_out() && self.station.comeback().trails()
    }

    /// The milliseconds since its worker began.
    fn now<R: Clock>(&self, rt: &R) -> u64 {
        let passed = self.start.and_then(|start| start.elapsed(rt).ok());
        match passed {
            Some(passed) => u64::try_from(passed.as_millis()).unwrap_or(u64::MAX),
            None => 0,
        }
    }
}

/// What it recorded, and how it comes back, has locks of its own.
impl<P: Post> Recording for Outside<'_, '_, P> {
    fn record<R: Wait>(&self, rt: &R, frame: &Frame<'_>, bytes: &Bytes, voted: Option<Digest>) {
        self.station.recorder().record(rt, frame, bytes, voted);
    }

    fn reach(&self) -> Option<Height> {
        self.station.comeback().reach()
    }

    fn trails(&self) -> bool {
        self.goes_by_others()
    }

    fn answer<R: Wait + Clock>(&self, rt: &R, alloc: Global, from: ReplicaId, question: Question) {
        let recorder = self.station.recorder();
        if !recorder.may_answer(from, self.now(rt), question.bytes) {
            return;
        }
        if let Ok(answer) = recorder.answer(rt, alloc, question) {
            self.post.answer(rt, self.station.number(), from, answer);
        }
    }

    fn may_supply<R: Wait + Clock>(&self, rt: &R, to: ReplicaId, block: &Digest) -> bool {
        let blocks = self.station.recorder().blocks();
        blocks.may_supply(to, block, self.now(rt))
    }

    fn supplied<R: Wait + Clock>(&self, rt: &R, to: ReplicaId, block: &Digest) {
        let blocks = self.station.recorder().blocks();
        blocks.supplied(to, block, self.now(rt));
    }

    fn awaits<R: Wait>(&self, rt: &R, question: &Question) -> bool {
        self.station.comeback().awaits(rt, question)
    }

    fn answered<R: Wait + Clock>(&self, rt: &R, question: &Question) {
        let (now, height) = (self.now(rt), self.station.height(rt));
        let comeback = self.station.comeback();
        comeback.answered(rt, now, height, question);
        self.catch_up(rt);
    }

    fn catch_up<R: Wait + Clock>(&self, rt: &R) {
        let (now, height) = (self.now(rt), self.station.height(rt));
        if let Some(question) = self.station.comeback().look(rt, now, height) {
            self.post.ask(rt, self.station.number(), question);
        }
    }
}

impl<P: Post> Outgoing for Outside<'_, '_, P> {
    fn send<R: Wait>(&self, rt: &R, from: ReplicaId, sending: Sending) {
        self.post.send(rt, from, sending);
    }

    fn pass_on<R: Wait>(&self, rt: &R, from: ReplicaId, to: Option<ReplicaId>, frame: Bytes) {
        self.post.pass_on(rt, from, to, frame);
    }

    fn in_trouble(&self) -> bool {
        self.station.trouble().is_on()
    }

    fn leads(&self) -> bool {
        let view = self.station.trouble().view();
        self.post.config().leader(view) == self.station.number()
    }

    fn passes_over<R: Wait>(&self, rt: &R, voter: ReplicaId) -> bool {
        self.station.passed_over().has(rt, voter)
    }

    fn millis<R: Clock>(&self, rt: &R) -> u64 {
        self.now(rt)
    }

    fn doubted<R: Wait>(&self, rt: &R, keyring: &VerifyingKeyring, bytes: &[u8]) {
        self.station.trouble().doubt();
        self.station.doubts().look(rt, keyring, bytes);
        self.passed(rt, keyring, bytes, true);
    }

    fn passed<R: Wait>(&self, rt: &R, keyring: &VerifyingKeyring, bytes: &[u8], in_view: bool) {
        let Some(doubt) = self.station.passed_over().look(rt, keyring, bytes) else {
            return;
        };
        self.station.left_out().hear(self.station.number());
        if in_view || self.station.is_alone() {
            self.tell_doubt(rt, doubt.wrong);
        }
    }

    fn hear_doubt<R: Wait>(&self, rt: &R, from: ReplicaId, voters: ReplicaSet) {
        let passed_over = self.station.passed_over();
        passed_over.hear(rt, self.leads(), from, &voters);
        self.station.left_out().hear(from);
    }

    fn left_out(&self) -> ReplicaSet {
        self.station.left_out().all()
    }

    fn view(&self) -> View {
        self.station.trouble().view()
    }
}

/// The questions stand under the replica's lock, where its doorkeeper learns on whose account a block comes.
impl<P: Post> Questioned for Outside<'_, '_, P> {
    /// The first question goes out after a pause: votes that give grounds are mostly on their way. To one that is left out they
    /// aren't, and others have the block.
    fn need<R: Wait + Clock>(&self, rt: &R, block: Digest, payer: ReplicaId) {
        let now = self.now(rt);
        let is_at_once = self.goes_by_others();
        let questions = &mut self.station.lock(rt).questions;
        let pause = if is_at_once { 0 } else { questions.wait() };
        let due = now.saturating_add(pause);
        let _refused = questions.need(block, payer, None, due);
    }

    fn wants<R: Wait>(&self, rt: &R, block: &Digest) -> bool {
        self.station.lock(rt).questions.is_wanted(block)
    }

    fn need_now<R: Wait + Clock>(&self, rt: &R, block: Digest, payer: ReplicaId) -> bool {
        let now = self.now(rt);
        let questions = &mut self.station.lock(rt).questions;
        questions.need(block, payer, None, now).is_ok()
    }

    fn need_ahead<R: Wait + Clock>(&self, rt: &R, block: Digest, payer: ReplicaId) -> bool {
        let now = self.now(rt);
        let mut guarded = self.station.lock(rt);
        if guarded.replica().knows(&block) {
            return true;
        }
        let questions = &mut guarded.questions;
        questions.has_room_ahead(payer) && questions.need(block, payer, None, now).is_ok()
    }

    fn forget<R: Wait>(&self, rt: &R, payer: ReplicaId) {
        self.station.lock(rt).questions.forget(payer);
    }

    fn need_below<R: Wait + Clock>(
        &self,
        rt: &R,
        block: &Digest,
        parent: Digest,
        sender: ReplicaId,
    ) {
        let now = self.now(rt);
        let whom = (!self.goes_by_others()).then_some(sender);
        let questions = &mut self.station.lock(rt).questions;
        let payer = questions.payer(block).unwrap_or(sender);
        let _refused = questions.need(parent, payer, whom, now);
        questions.wait_for(block, parent);
    }

    fn next<R: Wait + Clock>(&self, rt: &R) -> Option<Ask> {
        let now = self.now(rt);
        self.station.lock(rt).questions.next(now)
    }

    fn keep<R: Wait + Clock>(
        &self,
        rt: &R,
        alloc: Global,
        block: &Digest,
        sender: ReplicaId,
        copy: Bytes,
    ) -> Option<Vec<Bytes>> {
        let (now, faults) = (self.now(rt), self.post.config().faults());
        let questions = &mut self.station.lock(rt).questions;
        let senders = questions.keep(block, sender, copy).ok()?;
        if senders <= usize::from(faults) {
            questions.hasten(block, now);
            return None;
        }
        copies_of(alloc, questions.copies(block)).ok()
    }

    /// Of who is far behind, or left out and a little behind, no copy is tried alone: what others sent it wasn't good.
    fn use_of<R: Wait>(&self, rt: &R, block: &Digest, parent: &Digest, bytes: usize) -> CopyUse {
        let is_away = self.station.comeback().is_away();
        let goes_by_copies = is_away || self.goes_by_others();
        let guarded = self.station.lock(rt);
        let questions = &guarded.questions;
        if is_away && !questions.is_wanted(block) {
            return CopyUse::Nothing;
        }
        if !questions.is_wanted(block) {
            return CopyUse::Alone;
        }
        if !is_early(&guarded, parent) {
            return if goes_by_copies {
                CopyUse::Together
            } else {
                CopyUse::Alone
            };
        }
        if questions.copies(block).len() > usize::from(self.post.config().faults()) {
            CopyUse::Nothing
        } else if questions.may_wait(block, bytes) {
            CopyUse::Together
        } else {
            CopyUse::Alone
        }
    }

    fn keep_copy<R: Wait>(
        &self,
        rt: &R,
        alloc: Global,
        block: &Digest,
        parent: Digest,
        sender: ReplicaId,
        copy: Bytes,
    ) -> Option<Vec<Bytes>> {
        let mut guarded = self.station.lock(rt);
        let is_early = is_early(&guarded, &parent);
        let questions = &mut guarded.questions;
        let senders = questions.keep(block, sender, copy).ok()?;
        if is_early {
            questions.wait_for(block, parent);
            return None;
        }
        if senders <= usize::from(self.post.config().faults()) {
            return None;
        }
        copies_of(alloc, questions.copies(block)).ok()
    }

    fn close<R: Wait + Clock>(&self, rt: &R, alloc: Global, block: &Digest) -> Option<Copies> {
        let now = self.now(rt);
        let questions = &mut self.station.lock(rt).questions;
        let above = questions.above(block);
        questions.close(block, now);
        let block = above?;
        let frames = copies_of(alloc, questions.copies(&block)).ok()?;
        Some(Copies { block, frames })
    }
}
