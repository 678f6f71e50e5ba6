//! Frames that wait for a block.

use crate::ahead::Ahead;
use crate::arrived::Arrived;
use crate::queue::{Question, Queue};
use crate::requests::{Again, Entry, Requests};
use crate::unfounded::{Unfounded, UnfoundedList};
use admission::missing_of;
use bytes::Bytes;
use frames_view::Frame;
use ids::{ClientId, Config, Digest, ReplicaId, Seq};
use std::alloc::Global;
use std::collections::VecDeque;
use std::sync::atomic::Ordering::SeqCst;
use std::sync::atomic::{AtomicBool, AtomicU64};
use std::sync::{Mutex, Wait};
use std::thread;
use std::time::{Clock, Duration};
use tuning::{WORKER_CROWD, WORKER_HELD_MILLIS};

/// What a frame carries to its receiver's tree.
#[derive(Clone, Copy)]
pub(crate) enum Carried {
    /// No block.
    Nothing,
    /// A block that was asked for.
    Block(Digest),
    /// A block that the receiver may vote for.
    Proposal(Digest),
}

impl Carried {
    /// What a frame carries.
    pub(crate) fn of(frame: &Frame<'_>) -> Carried {
        match frame {
            Frame::Proposal(view) => Carried::Proposal(view.core().digest()),
            Frame::Block(view) => Carried::Block(view.core().digest()),
            _ => Carried::Nothing,
        }
    }

    /// The block.
    pub(crate) fn block(self) -> Option<Digest> {
        match self {
            Carried::Nothing => None,
            Carried::Block(block) | Carried::Proposal(block) => Some(block),
        }
    }

    /// Whether a frame that brings this does all that one does that brings the other.
    pub(crate) fn serves_for(self, other: Carried) -> bool {
        match other {
            Carried::Nothing => false,
            Carried::Block(block) => self.block() == Some(block),
            Carried::Proposal(block) => match self {
                Carried::Proposal(own) => own == block,
                _ => false,
            },
        }
    }
}

/// A frame that lacks a block.
#[derive(Drop)]
pub(crate) struct Waiting {
    /// Its number on the replica's link.
    pub(crate) number: u64,
    pub(crate) sender: ReplicaId,
    pub(crate) lacks: Digest,
    pub(crate) brings: Carried,
    pub(crate) bytes: Bytes,
    /// The first block that no waiting frame brought when it came, from the one that it lacks down.
    pub(crate) bottom: Digest,
    /// Whether its sender is asked. Who votes isn't: the block is on its way, and what is proposed on it asks, too.
    pub(crate) asks: bool,
    /// How many parcels must have been done before that.
    pub(crate) due: u64,
}

impl Waiting {
    /// A frame that came. None, where frames of this kind lack no block, and where memory is refused.
    pub(crate) fn new(arrived: &Arrived<'_>) -> Option<Waiting> {
        let (sender, lacks) = missing_of(&arrived.frame.read)?;
        Some(Waiting {
            number: arrived.frame.number,
            sender,
            lacks,
            brings: arrived.carried(),
            bytes: arrived.bytes.clone().ok()?,
            bottom: lacks,
            asks: !matches!(arrived.frame(), Frame::Vote(_)),
            due: 0,
        })
    }
}

/// Where the frames of one replica's link wait that lack a block, and proposals that lack grounds; and where requests are
/// kept, since a leader that begins anew forgets them. The replica's workers share it by reference.
///
/// `tuning` says how many wait at most, and with how many bytes; what comes then drives out the oldest. What is driven
/// out, or for which memory is refused, is lost, as on any network. So that none is lost while one worker
/// sleeps over the block that the others lack, the other holds back once many wait. Each call takes the lock
/// once at most, and holds it while it looks at the list; where nothing waits, no lock is taken.
#[derive(Drop)]
pub struct WaitingRoom {
    queue: Mutex<Queue>,
    /// How many workers the replica has.
    workers: usize,
    /// How many of them are busy with a parcel.
    busy: AtomicU64,
    /// How many parcels were done.
    done: AtomicU64,
    /// How many frames wait.
    waiting: AtomicU64,
    unfounded: Mutex<UnfoundedList>,
    /// How many proposals lack grounds.
    lacking_grounds: AtomicU64,
    /// How many frames were taken that may give grounds to another.
    news: AtomicU64,
    alloc: Global,
    requests: Mutex<Requests>,
    /// Whether anybody is suspected.
    suspects_any: AtomicBool,
    /// Whether some client may not be let in as others are.
    is_wary: AtomicBool,
    /// How many questions for requests are kept.
    questions: AtomicU64,
    ahead: Mutex<Ahead>,
}

impl WaitingRoom {
    /// A room in which nothing waits, for so many workers of a replica among these parties.
    pub fn new(alloc: Global, config: Config, workers: usize) -> WaitingRoom {
        WaitingRoom {
            queue: Mutex::new(Queue::new(alloc)),
            workers,
            busy: AtomicU64::new(0),
            done: AtomicU64::new(0),
            waiting: AtomicU64::new(0),
            unfounded: Mutex::new(UnfoundedList::new(alloc)),
            lacking_grounds: AtomicU64::new(0),
            news: AtomicU64::new(0),
            alloc,
            requests: Mutex::new(Requests::new(alloc, config)),
            suspects_any: AtomicBool::new(false),
            is_wary: AtomicBool::new(false),
            questions: AtomicU64::new(0),
            ahead: Mutex::new(Ahead::none(alloc)),
        }
    }

    /// Whether several workers share it.
    pub(crate) fn is_shared(&self) -> bool {
        self.workers > 1
    }

    /// Tells how many frames wait, before the lock is let go.
    fn tell(&self, waiting: usize) {
        self.waiting.store(waiting as u64, SeqCst);
    }

    /// Where many frames wait and another worker is busy, waits for it: it may sleep over the block that they
    /// lack, and what is taken meanwhile would wait too. Not for long: they may be a faulty replica's, and
    /// lack what never comes.
    pub(crate) fn hold_back<R: Clock>(&self, rt: &R) {
        for _ in 0..WORKER_HELD_MILLIS {
            if self.waiting.load(SeqCst) <= WORKER_CROWD || self.busy.load(SeqCst) == 0 {
                break;
            }
            thread::sleep(rt, Duration::from_millis(1));
        }
    }

    /// A worker begins with a parcel.
    pub(crate) fn begin(&self) {
        self.busy.fetch_add(1, SeqCst);
    }

    /// Lets a frame wait, unless one waits that does all that this one would. Its sender, unless it voted, is asked
    /// once all workers that are busy now are done: one of them may be taking the block that it
    /// lacks.
    pub(crate) fn wait<R: Wait>(&self, rt: &R, frame: Waiting) {
        let due = self
            .done
            .load(SeqCst)
            .saturating_add(self.busy.load(SeqCst));
        let mut queue = self.queue.lock(rt);
        queue.add(frame, due);
        self.tell(queue.len());
    }

    /// The oldest frame that lacks this block. It waits no longer.
    pub(crate) fn take_for<R: Wait>(&self, rt: &R, block: &Digest) -> Option<Waiting> {
        let mut queue = self.queue.lock(rt);
        let frame = queue.take_for(block);
        self.tell(queue.len());
        frame
    }

    /// The block of a waiting proposal that lacks this one.
    pub(crate) fn above<R: Wait>(&self, rt: &R, block: &Digest) -> Option<Digest> {
        self.queue.lock(rt).above(block)
    }

    /// Frames that lack this block are lost.
    pub(crate) fn lose_for<R: Wait>(&self, rt: &R, block: &Digest) {
        let mut queue = self.queue.lock(rt);
        queue.lose_for(block);
        self.tell(queue.len());
    }

    /// The frame of this number, where it waits. It waits no longer.
    pub(crate) fn take_number<R: Wait>(&self, rt: &R, number: u64) -> Option<Waiting> {
        let mut queue = self.queue.lock(rt);
        let frame = queue.take_number(number);
        self.tell(queue.len());
        frame
    }

    /// A worker is done with a parcel. Whom to ask now, and for which block, if for any: the first
    /// that no waiting frame brings, from the one down that a frame lacks.
    pub(crate) fn end<R: Wait>(&self, rt: &R) -> Option<Question> {
        self.busy.fetch_sub(1, SeqCst);
        let done = self.done.fetch_add(1, SeqCst).saturating_add(1);
        if self.is_empty() {
            return None;
        }
        self.queue.lock(rt).next_question(done)
    }

    /// Whether nothing waits.
    pub(crate) fn is_empty(&self) -> bool {
        self.waiting.load(SeqCst) == 0
    }

    /// These blocks are to be asked for next, on the account of who gave their frames, and no others any more.
    pub(crate) fn ask_next<R: Wait>(&self, rt: &R, giver: ReplicaId, blocks: VecDeque<Digest>) {
        self.ahead.lock(rt).begin(giver, blocks);
    }

    /// The block that is to be asked for next, if one is, and on whose account.
    pub(crate) fn next_ahead<R: Wait>(&self, rt: &R) -> Option<(ReplicaId, Digest)> {
        self.ahead.lock(rt).next()
    }

    /// It comes next again.
    pub(crate) fn put_back<R: Wait>(&self, rt: &R, giver: ReplicaId, block: Digest) {
        self.ahead.lock(rt).put_back(giver, block);
    }

    /// How many frames were taken that may give grounds to a proposal.
    pub(crate) fn news(&self) -> u64 {
        self.news.load(SeqCst)
    }

    /// One more was taken.
    pub(crate) fn has_news(&self) {
        self.news.fetch_add(1, SeqCst);
    }

    /// Lets a proposal wait for grounds.
    pub(crate) fn wait_for_grounds<R: Wait>(&self, rt: &R, frame: Unfounded) {
        let mut list = self.unfounded.lock(rt);
        list.add(frame);
        self.lacking_grounds.store(list.len() as u64, SeqCst);
    }

    /// The proposal that has waited for grounds since it was tried longest ago, where there was news since. It waits no
    /// longer.
    pub(crate) fn next_unfounded<R: Wait>(&self, rt: &R) -> Option<Unfounded> {
        if self.lacking_grounds.load(SeqCst) == 0 {
            return None;
        }
        let mut list = self.unfounded.lock(rt);
        let frame = list.next(self.news());
        self.lacking_grounds.store(list.len() as u64, SeqCst);
        frame
    }

    /// Keeps the last request of a client.
    pub(crate) fn keep_request<R: Wait>(&self, rt: &R, client: ClientId, seq: Seq, bytes: &Bytes) {
        self.requests.lock(rt).keep(client, seq, bytes);
    }

    /// Whether a client's last request came with these bytes.
    pub(crate) fn has_request<R: Wait>(&self, rt: &R, client: ClientId, bytes: &Bytes) -> bool {
        self.requests.lock(rt).has(client, bytes)
    }

    /// Keeps a replica's question for a client's request, which may come yet.
    pub(crate) fn wait_for_request<R: Wait>(
        &self,
        rt: &R,
        client: ClientId,
        from: ReplicaId,
        bytes: Bytes,
    ) {
        let mut requests = self.requests.lock(rt);
        let questions = requests.wait_for(client, from, bytes);
        self.questions.store(questions as u64, SeqCst);
    }

    /// Whether questions for requests are kept.
    pub(crate) fn has_questions(&self) -> bool {
        self.questions.load(SeqCst) > 0
    }

    /// Whether a replica asked for a client's request of these bytes, and has no answer. It has one now.
    pub(crate) fn answers<R: Wait>(
        &self,
        rt: &R,
        client: ClientId,
        from: ReplicaId,
        bytes: &Bytes,
    ) -> bool {
        let mut requests = self.requests.lock(rt);
        let (is_asked, questions) = requests.answer(client, from, bytes);
        self.questions.store(questions as u64, SeqCst);
        is_asked
    }

    /// Whether some client may not be let in as others are.
    pub(crate) fn is_wary(&self) -> bool {
        self.is_wary.load(SeqCst)
    }

    /// What is to be done at a moment with a client's request, by a replica that leads or doesn't.
    pub(crate) fn entry<R: Wait>(
        &self,
        rt: &R,
        client: ClientId,
        bytes: &Bytes,
        leads: bool,
        now: u64,
    ) -> Entry {
        let requests = self.requests.lock(rt);
        self.is_wary.store(requests.suspects.is_wary(now), SeqCst);
        requests.entry(client, bytes, leads, now)
    }

    /// A replica vouches for a client's request. Whether it is to be let in now.
    pub(crate) fn vouch<R: Wait>(
        &self,
        rt: &R,
        client: ClientId,
        from: ReplicaId,
        bytes: &Bytes,
        now: u64,
    ) -> bool {
        self.requests.lock(rt).vouch(client, from, bytes, now)
    }

    /// The replica begins anew as leader, from its lock or with what it certified. What is to be done with the requests that
    /// were kept.
    pub(crate) fn begin_trials<R: Wait>(&self, rt: &R, from_lock: bool, now: u64) -> Again {
        let mut requests = self.requests.lock(rt);
        if from_lock {
            requests.suspects.begin_with_others(now);
        } else {
            requests.suspects.begin(now);
        }
        self.suspects_any.store(true, SeqCst);
        self.is_wary.store(true, SeqCst);
        requests.again(self.alloc, true, now)
    }

    /// The request of the next trial, which begins now, if one may.
    pub(crate) fn next_trial<R: Wait>(&self, rt: &R, now: u64) -> Option<Bytes> {
        self.requests.lock(rt).next_trial(now)
    }

    /// What is on trial wasn't answered at once.
    pub(crate) fn wait_for_trial<R: Wait>(&self, rt: &R) {
        self.requests.lock(rt).suspects.wait();
    }

    /// A client's request was executed.
    pub(crate) fn serve<R: Wait>(&self, rt: &R, client: ClientId, seq: Seq) {
        self.requests.lock(rt).suspects.serve(client, seq);
    }

    /// Whether anybody is suspected.
    pub(crate) fn suspects_any(&self) -> bool {
        self.suspects_any.load(SeqCst)
    }

    /// Nobody is suspected any more. What is to be done with the requests that were kept, by a replica that leads or doesn't.
    pub(crate) fn end_trials<R: Wait>(&self, rt: &R, leads: bool, now: u64) -> Again {
        let mut requests = self.requests.lock(rt);
        requests.end(now);
        self.suspects_any.store(false, SeqCst);
        self.is_wary.store(requests.suspects.is_wary(now), SeqCst);
        requests.again(self.alloc, leads, now)
    }
}
