ghost use Rattle.std.specs.Prelude.{◌≡◌, ◌+◌, ◌<◌, ◌≤◌, [], ◌∷◌, ◌++◌, ℕ, length, take, drop, nat_lt, nat_eq};
ghost use Rattle.std.specs.Prelude.{OnOk, OnErr, MatchBool, true, vec_len, vec_capacity};
ghost use Rattle.outbox.specs.Waiting.{IsBatch, closed, cost, cost_of, counted, empty};

use crate::batch::batch_len;
use crate::refusal::Refusal;
use bytes::Bytes;
use std::alloc::{AllocError, Global};
use std::collections::VecDeque;
use std::marker::Model;
use tuning::PARCEL_SIZE;

/// The frames that wait for one peer, oldest first.
///
/// A frame costs its bytes and `PARCEL_SIZE`.
#[derive(Drop)]
pub struct Outbox {
    frames: VecDeque<Bytes>,
    /// What the frames cost.
    cost: usize,
    most: usize,
    lost: u64,
    is_open: bool,
}

impl Model for Outbox {
    ghost use Rattle.std.specs.Prelude.{◌≡◌, ◌≤◌};
    ghost use Rattle.outbox.specs.Waiting as waiting;

    ghost Value = { waiting.Waiting };

    ghost view = { λ o. record {
      frames = o.frames.items;
      most = o.most;
      lost = o.lost;
      is_open = o.is_open;
    } };

    ghost invariant = { λ o. (o.cost ≡ waiting.cost o.frames.items) × (o.cost ≤ o.most) };
}

impl Outbox {
    /// Nothing waits, and what waits may cost so much. It takes no memory.
    pub fn new(alloc: Global, most: usize) -> Outbox
        ensures { result ≡ empty most }
    {
        Outbox {
            frames: VecDeque::new(alloc),
            cost: 0,
            most,
            lost: 0,
            is_open: true,
        }
    }

    /// The frame waits, behind the others; or it is lost, and counted. `Closed` exactly where nothing is kept; `Full`
    /// exactly where what waits would cost more than it may; else `Memory` alone.
    pub fn put(&mut self, frame: Bytes) -> Result<(), Refusal>
        ensures kept { OnOk result (self.new ≡ record self.old { frames = self.old.frames ++ frame ∷ [] }) }
        ensures lost { OnErr result (self.new ≡ record self.old { lost = counted self.old.lost 1 }) }
        ensures refused { MatchBool self.old.is_open
            (MatchBool (nat_lt self.old.most (cost self.old.frames + cost_of frame))
            (result ≡ Err Refusal.Full) (OnErr result (result ≡ Err Refusal.Memory)))
            (result ≡ Err Refusal.Closed) }
    {
        let kept = self.keep(frame);
        if kept.is_err() {
            self.lost = self.lost.saturating_add(1);
        }
        kept
    }

    /// The frame waits, behind the others; or nothing changes.
    fn keep(&mut self, frame: Bytes) -> Result<(), Refusal>
        ensures kept { OnOk result (self.new ≡ record self.old { frames = self.old.frames ++ frame ∷ [] }) }
        ensures unchanged { OnErr result (self.new ≡ self.old) }
        ensures refused { MatchBool self.old.is_open
            (MatchBool (nat_lt self.old.most (cost self.old.frames + cost_of frame))
            (result ≡ Err Refusal.Full) (OnErr result (result ≡ Err Refusal.Memory)))
            (result ≡ Err Refusal.Closed) }
    {
        if !self.is_open {
            return Err(Refusal::Closed);
        }
        let cost = frame.len() + PARCEL_SIZE;
        if cost > self.most - self.cost {
            return Err(Refusal::Full);
        }
        if self.frames.push_back(frame).is_err() {
            return Err(Refusal::Memory);
        }
        self.cost += cost;
        Ok(())
    }

    /// Moves the oldest frames to the end of `batch`: as many as have at most so many bytes, and one at least where one
    /// waits. Where memory is refused, nothing changes.
    pub fn take(&mut self, most: usize, batch: &mut Vec<Bytes>) -> Result<(), AllocError>
        ensures taken { OnOk result ((count : ℕ) × IsBatch most self.old.frames count
            × (batch.new.items ≡ batch.old.items ++ take count self.old.frames)
            × (self.new ≡ record self.old { frames = drop count self.old.frames })) }
        ensures unchanged { OnErr result ((batch.new.items ≡ batch.old.items) × (self.new ≡ self.old)) }
    {
        let count = self.batch_len(most);
        batch.reserve(count)?;
        self.move_oldest(count, batch);
        Ok(())
    }

    /// How many frames are taken at once, where they may have so many bytes.
    fn batch_len(&self, most: usize) -> usize
        ensures { IsBatch most self.now.frames result }
    {
        batch_len(&self.frames, most)
    }

    /// Moves so many of the oldest frames to the end of `batch`, which has room for them.
    fn move_oldest(&mut self, count: usize, batch: &mut Vec<Bytes>)
        requires within { count ≤ length self.old.frames }
        requires room { vec_len batch.old + count ≤ vec_capacity batch.old }
        ensures taken { batch.new.items ≡ batch.old.items ++ take count self.old.frames }
        ensures left { self.new ≡ record self.old { frames = drop count self.old.frames } }
    {
        for _ in 0..count {
            let frame = self.pop();
            batch.push_reserved(frame);
        }
    }

    /// Takes the oldest frame.
    fn pop(&mut self) -> Bytes
        requires { 0 < length self.old.frames }
        ensures taken { self.old.frames ≡ result ∷ self.new.frames }
        ensures kept { self.new ≡ record self.old { frames = self.new.frames } }
    {
        let frame = self.frames.pop_front().unwrap();
        self.cost -= frame.len() + PARCEL_SIZE;
        frame
    }

    /// What waits is lost, and counted, and so is each new frame until `reopen`: for a peer that is away and wants
    /// nothing old when it comes back.
    pub fn close(&mut self)
        ensures { self.new ≡ closed self.old }
    {
        self.lost = self.lost.saturating_add(self.frames.len() as u64);
        self.frames.clear();
        self.cost = 0;
        self.is_open = false;
    }

    /// New frames are kept again.
    pub fn reopen(&mut self)
        ensures { self.new ≡ record self.old { is_open = true } }
    {
        self.is_open = true;
    }

    /// Whether nothing waits.
    pub fn is_empty(&self) -> bool
        ensures { result ≡ nat_eq (length self.now.frames) 0 }
    {
        self.frames.is_empty()
    }

    /// How many frames were lost. At 2^64 - 1 the number stays.
    pub fn lost(&self) -> u64
        ensures { result ≡ self.now.lost }
    {
        self.lost
    }
}
