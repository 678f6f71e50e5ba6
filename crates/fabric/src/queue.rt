//! The list of the frames that wait for a block.

ghost use Rattle.std.specs.Prelude.{◌≡◌, ◌<◌, ◌≤◌, ◌-◌, IfSome};
ghost use Rattle.tuning.specs.declared.waiting.TheConstants.{MOST_WAITING_FRAMES};

use crate::waiting::{Carried, Waiting};
use ids::{Digest, ReplicaId};
use std::alloc::Global;
use std::collections::{BTreeMap, VecDeque};
use std::marker::Model;
use tuning::{ASK_AGAIN, MOST_PASSED, MOST_WAITING_BYTES, MOST_WAITING_FRAMES};

/// Whom to ask for which block.
#[derive(Clone, Copy)]
pub(crate) struct Question {
    pub(crate) sender: ReplicaId,
    pub(crate) block: Digest,
}

/// The last question, and how many parcels were done when it was asked.
#[derive(Clone, Copy)]
struct Asked {
    question: Question,
    done: u64,
}

/// The frames that wait.
#[derive(Drop)]
pub(crate) struct Queue {
    alloc: Global,
    /// The frames, by their numbers on the replica's link.
    frames: BTreeMap<u64, Waiting>,
    /// The numbers of those that lack a block, in the order in which they began to wait.
    lacking: BTreeMap<Digest, Vec<u64>>,
    /// The number of a frame that brings a block.
    bringing: BTreeMap<Digest, u64>,
    /// The numbers of those whose senders weren't asked, in the order in which they began to wait.
    unasked: VecDeque<u64>,
    /// How many bytes the frames have.
    bytes: usize,
    last: Option<Asked>,
}

impl Model for Queue {
    ghost use Rattle.std.specs.Prelude.{ℕ, ◌≤◌};
    ghost use Rattle.std.specs.BTreeMap.{btree_map_len};
    ghost use Rattle.tuning.specs.declared.waiting.TheConstants.{MOST_WAITING_FRAMES};

    ghost Value = { ℕ };

    ghost view = { λ queue. btree_map_len queue.frames };

    ghost invariant = { λ queue. btree_map_len queue.frames ≤ MOST_WAITING_FRAMES };
}

impl Queue {
    /// Nothing waits.
    pub(crate) fn new(alloc: Global) -> Queue
        ensures { result ≡ 0 }
    {
        Queue {
            alloc,
            frames: BTreeMap::new(alloc),
            lacking: BTreeMap::new(alloc),
            bringing: BTreeMap::new(alloc),
            unasked: VecDeque::new(alloc),
            bytes: 0,
            last: None,
        }
    }

    /// How many wait.
    pub(crate) fn len(&self) -> usize
        ensures { result ≡ self.now }
    {
        self.frames.len()
    }

    /// A waiting frame that brings this block.
    fn bringer(&self, block: &Digest) -> Option<&Waiting> {
        let number = self.bringing.get(block)?;
        self.frames.get(number)
    }

    /// Whether a frame waits that does all that this one would. Who has no good certificate of a block takes it by copies of several
    /// senders: so one sender's serves for no other's.
    fn has_one_like(&self, other: &Waiting) -> bool {
        let Some(block) = other.brings.block() else {
            return false;
        };
        match self.bringer(&block) {
            Some(frame) => match (frame.brings, other.brings) {
                (Carried::Block(_), Carried::Block(_)) => frame.sender == other.sender,
                (_, Carried::Block(_)) => false,
                (brings, other) => brings.serves_for(other),
            },
            None => false,
        }
    }

    /// The block of a waiting proposal that lacks this one.
    pub(crate) fn above(&self, block: &Digest) -> Option<Digest> {
        for number in self.lacking.get(block)? {
            if let Some(frame) = self.frames.get(number) {
                if let Carried::Proposal(next) = frame.brings {
                    return Some(next);
                }
            }
        }
        None
    }

    /// The first block that no waiting frame brings, from this one down.
    fn first_missing(&self, block: &Digest) -> Digest {
        let mut lacked = *block;
        for _ in 0..MOST_PASSED {
            match self.bringer(&lacked) {
                Some(frame) => lacked = frame.bottom,
                None => break,
            }
        }
        lacked
    }

    /// Enters a frame by what it lacks and what it brings, as far as memory is there.
    fn enter(&mut self, number: u64, lacks: Digest, brings: Option<Digest>)
        ensures { self.new ≡ self.old }
    {
        if let Some(block) = brings {
            let _refused = self.bringing.insert(block, number);
        }
        if let Some(numbers) = self.lacking.get_mut(&lacks) {
            let _refused = numbers.push(number);
            return;
        }
        let mut numbers = Vec::new(self.alloc);
        if numbers.push(number).is_ok() {
            let _refused = self.lacking.insert(lacks, numbers);
        }
    }

    /// Takes a number out of those that lack a block.
    fn leave(&mut self, number: u64, lacks: &Digest)
        ensures { self.new ≡ self.old }
    {
        let Some(numbers) = self.lacking.get_mut(lacks) else {
            return;
        };
        numbers.retain(|other| *other != number);
        if numbers.is_empty() {
            self.lacking.remove(lacks);
        }
    }

    /// A frame was taken out.
    fn forget(&mut self, frame: &Waiting)
        ensures { self.new ≡ self.old }
    {
        if self.frames.is_empty() {
            self.unasked.clear();
        }
        self.bytes = self.bytes.saturating_sub(frame.bytes.len());
        self.leave(frame.number, &frame.lacks);
        if let Some(block) = frame.brings.block() {
            if self.bringing.get(&block).copied() == Some(frame.number) {
                self.bringing.remove(&block);
            }
        }
    }

    /// Takes out the frame of this number.
    pub(crate) fn take_number(&mut self, number: u64) -> Option<Waiting>
        ensures { self.new ≤ self.old }
    {
        let frame = self.frames.remove(&number)?;
        self.forget(&frame);
        Some(frame)
    }

    /// Takes out the oldest frame that lacks this block.
    pub(crate) fn take_for(&mut self, block: &Digest) -> Option<Waiting>
        ensures { IfSome result (λ frame. frame.lacks ≡ block.now) }
    {
        let number = self.lacking.get(block)?.first().copied()?;
        let frame = self.take_number(number)?;
        if frame.lacks == *block {
            Some(frame)
        } else {
            None
        }
    }

    /// Takes out all frames that lack this block.
    pub(crate) fn lose_for(&mut self, block: &Digest) {
        for _ in 0..MOST_WAITING_FRAMES {
            if self.take_for(block).is_none() {
                break;
            }
        }
    }

    /// Takes out the oldest frame.
    fn drop_oldest(&mut self)
        ensures { self.new ≤ self.old - 1 }
    {
        if let Some((_number, oldest)) = self.frames.pop_first() {
            self.forget(&oldest);
        }
    }

    /// Takes out the oldest frames, as long as all have too many bytes, and one where there are too many.
    fn make_room(&mut self)
        ensures { self.new < MOST_WAITING_FRAMES }
    {
        for _ in 0..MOST_WAITING_FRAMES {
            if self.bytes <= MOST_WAITING_BYTES {
                break;
            }
            self.drop_oldest();
        }
        if self.frames.len() >= MOST_WAITING_FRAMES {
            self.drop_oldest();
        }
    }

    /// Adds a frame, unless one waits that does all that this one would. Its sender, unless it voted, is asked once
    /// so many parcels were done. Where the list is full the oldest goes; and one of the same number, which all of the
    /// replica's own have.
    pub(crate) fn add(&mut self, mut frame: Waiting, due: u64) {
        if self.has_one_like(&frame) {
            return;
        }
        let _same = self.take_number(frame.number);
        self.make_room();
        frame.due = due;
        frame.bottom = self.first_missing(&frame.lacks);
        let (number, lacks, brings) = (frame.number, frame.lacks, frame.brings.block());
        let (bytes, asks) = (frame.bytes.len(), frame.asks);
        if self.frames.insert(number, frame).is_ok() {
            self.bytes = self.bytes.saturating_add(bytes);
            self.enter(number, lacks, brings);
            if asks {
                let _refused = self.unasked.push_back(number);
            }
        }
    }

    /// The oldest frame whose sender is to be asked, when so many parcels were done, and wasn't. It counts as asked
    /// from now on.
    fn next_due(&mut self, done: u64) -> Option<u64> {
        for _ in 0..self.unasked.len() {
            let number = *self.unasked.front()?;
            let due = self.frames.get(&number).map(|frame| frame.due);
            if due.is_some_and(|due| due > done) {
                return None;
            }
            self.unasked.pop_front();
            if due.is_some() {
                return Some(number);
            }
        }
        None
    }

    /// Whether this was asked not long ago, when so many parcels were done.
    fn was_asked(&self, question: &Question, done: u64) -> bool {
        let Some(last) = self.last else {
            return false;
        };
        last.question.sender == question.sender
            && last.question.block == question.block
            && done.saturating_sub(last.done) < ASK_AGAIN
    }

    /// Whom to ask, and for which block, if for any, when so many parcels were done.
    pub(crate) fn next_question(&mut self, done: u64) -> Option<Question> {
        let number = self.next_due(done)?;
        let frame = self.frames.get(&number)?;
        let question = Question {
            sender: frame.sender,
            block: self.first_missing(&frame.lacks),
        };
        if self.was_asked(&question, done) {
            return None;
        }
        self.last = Some(Asked { question, done });
        Some(question)
    }
}
