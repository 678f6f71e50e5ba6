ghost use Rattle.std.specs.Prelude.{◌≡◌, ◌==◌, length, ◌-◌, ◌^◌, ◌≤◌, IfOk, MatchOption, OnErr, OnOk, min, nat_lt};
ghost use Rattle.frame_record.specs.Costs.{cost, cost_of};
ghost use Rattle.frame_record.specs.Recording.{AreInOrder, batch, empty, frames_of, from_height};
ghost use Rattle.frame_record.specs.Recording.{is_known, is_low, lowest, why_not, with_frame};

use crate::batch::Batch;
use crate::ordered::{batch_from, drop_oldest, has, insert};
use crate::recorded::Recorded;
use crate::refusal::Refusal;
use ids::Height;
use std::alloc::{AllocError, Global};
use std::collections::VecDeque;
use std::marker::Model;

/// Frames in order of height; those of one height in the order in which they came.
///
/// A frame costs its bytes and `PARCEL_SIZE`. Where all would cost more than they may, the lowest make way.
#[derive(Drop)]
pub struct FrameRecord {
    frames: VecDeque<Recorded>,
    /// What the frames cost.
    cost: usize,
    most: usize,
}

impl Model for FrameRecord {
    ghost use Rattle.frame_record.specs.Recording as recording;

    ghost Value = { recording.Recording };

    ghost view = { λ r. record { frames = r.frames.items; most = r.most } };

    ghost invariant = { λ r. recording.IsKept r.frames.items r.cost r.most };
}

impl FrameRecord {
    /// Nothing is recorded, and what is may cost so much; more than 2^63 - 1 counts as that. It takes no memory.
    pub fn new(alloc: Global, most: usize) -> FrameRecord
        ensures { result ≡ empty (min most (2 ^ 63 - 1)) }
    {
        FrameRecord {
            frames: VecDeque::new(alloc),
            cost: 0,
            most: most.min(usize::MAX / 2),
        }
    }

    /// Records a frame that was taken. The frames of the lowest heights make way, this one too where it is among them.
    /// `TooLarge` exactly where it alone costs more than all may; then `TooLow` exactly where its height is below the lowest
    /// that is recorded; then `Known` exactly where one that brought the same block is; else `Memory` alone.
    pub fn put(&mut self, recorded: Recorded) -> Result<(), Refusal>
        ensures ok { OnOk result (self.new ≡ with_frame recorded self.old) }
        ensures unchanged { OnErr result (self.new ≡ self.old) }
        ensures refused { MatchOption (why_not self.old recorded) (OnErr result (result ≡ Err Refusal.Memory))
            (λ refusal. result ≡ Err refusal) }
    {
        match self.why_not(&recorded) {
            Some(refusal) => Err(refusal),
            None => self.add(recorded),
        }
    }

    /// Why a frame isn't recorded, if for another reason than memory.
    fn why_not(&self, recorded: &Recorded) -> Option<Refusal>
        ensures { result ≡ why_not self.now recorded.now }
    {
        if self.is_large(recorded) {
            Some(Refusal::TooLarge)
        } else if self.is_low(recorded.height) {
            Some(Refusal::TooLow)
        } else if self.is_known(recorded) {
            Some(Refusal::Known)
        } else {
            None
        }
    }

    /// Records a frame. Where memory is refused, nothing changes.
    fn add(&mut self, recorded: Recorded) -> Result<(), Refusal>
        requires { cost_of recorded ≤ self.old.most }
        ensures ok { OnOk result (self.new ≡ with_frame recorded self.old) }
        ensures unchanged { OnErr result (self.new ≡ self.old) }
        ensures memory { OnErr result (result ≡ Err Refusal.Memory) }
    {
        let cost = recorded.cost();
        let Ok(()) = insert(&mut self.frames, recorded) else {
            return Err(Refusal::Memory);
        };
        self.cost = drop_oldest(&mut self.frames, self.cost + cost, self.most);
        Ok(())
    }

    /// Whether a frame alone costs more than all may.
    fn is_large(&self, recorded: &Recorded) -> bool
        ensures { result ≡ nat_lt self.now.most (cost_of recorded.now) }
    {
        recorded.cost() > self.most
    }

    /// Whether one that brought the same block is recorded.
    fn is_known(&self, recorded: &Recorded) -> bool
        ensures { result ≡ is_known recorded.now self.now.frames }
    {
        has(&self.frames, recorded.height, &recorded.block)
    }

    /// Whether a height is below the lowest that is recorded.
    fn is_low(&self, height: Height) -> bool
        ensures { result ≡ is_low height self.now.frames }
    {
        match self.lowest() {
            Some(lowest) => height.0 < lowest.0,
            None => false,
        }
    }

    /// What was recorded from a height on: as many frames as have at most so many bytes, and one in any case; none where
    /// nothing was.
    pub fn from(&self, alloc: Global, height: Height, most: usize) -> Result<Batch, AllocError>
        ensures frames { IfOk result
            (λ given. given.frames.items ≡ batch most (frames_of (from_height height self.now.frames))) }
        ensures last { IfOk result (λ given. given.is_last
            ≡ (length given.frames.items == length (from_height height self.now.frames))) }
    {
        batch_from(alloc, &self.frames, height, most)
    }

    /// The lowest height that is recorded. Of the heights above it nothing was dropped.
    pub fn lowest(&self) -> Option<Height>
        ensures { result ≡ lowest self.now.frames }
    {
        Some(self.frames.front()?.height)
    }

    /// What the frames cost.
    pub fn cost(&self) -> usize
        ensures cost { result ≡ cost self.now.frames }
        ensures bounded { result ≤ self.now.most }
        ensures ordered { AreInOrder self.now.frames }
    {
        self.cost
    }
}
