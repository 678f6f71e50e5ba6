//! How many blocks there are of each height.

ghost use Rattle.std.specs.Prelude.{◌≡◌, ◌==◌, ◌+◌, ◌<◌, ◌≤◌, ◌^◌, ℕ, [], length, if◌then◌else◌, OnErr, OnOk};
ghost use Rattle.std.specs.Prelude.{max, sum};

use ids::Height;
use std::alloc::{AllocError, Global};
use std::collections::VecDeque;
use std::marker::Model;

/// The number of blocks of each height from a base on, up to the highest that there was.
#[derive(Drop)]
pub(crate) struct Counts {
    base: Height,
    heights: VecDeque<u32>,
    total: usize,
}

impl Model for Counts {
    ghost use Rattle.std.specs.Prelude.{sum, ◌≡◌};
    ghost use Rattle.block_tree.specs.Numbers.{CountsState};

    ghost Value = { CountsState };

    ghost view = { λ c. record { base = c.base; heights = c.heights.items } };

    ghost invariant = { λ c. c.total ≡ sum c.heights.items };
}

impl Counts {
    ghost use Rattle.block_tree.specs.Numbers.{count_of};

    /// No blocks. The counts begin at height 1.
    pub(crate) fn new(alloc: Global) -> Counts
        ensures { result ≡ record { base = 1; heights = [] } }
    {
        Counts {
            base: Height(1),
            heights: VecDeque::new(alloc),
            total: 0,
        }
    }

    /// How many blocks there are in all.
    pub(crate) fn total(&self) -> usize
        ensures { result ≡ sum self.now.heights }
    {
        self.total
    }

    /// How many blocks have a height.
    pub(crate) fn of(&self, height: Height) -> usize
        requires { self.now.base ≤ height }
        ensures { result ≡ count_of self.now height }
    {
        match self.heights.get((height.0 - self.base.0) as usize) {
            Some(count) => *count as usize,
            None => 0,
        }
    }

    /// Makes room for the count of a height that is at most one above the highest.
    pub(crate) fn reach(&mut self, height: Height) -> Result<(), AllocError>
        requires above { self.old.base ≤ height }
        requires next { height ≤ self.old.base + length self.old.heights }
        ensures reached { OnOk result (height < self.new.base + length self.new.heights) }
        ensures base { self.new.base ≡ self.old.base }
        ensures longer { length self.old.heights ≤ length self.new.heights }
        ensures same { (h : ℕ) → count_of self.new h ≡ count_of self.old h }
        ensures total { sum self.new.heights ≡ sum self.old.heights }
    {
        if (height.0 - self.base.0) as usize >= self.heights.len() {
            self.heights.push_back(0)?;
        }
        Ok(())
    }

    /// One more block of a height.
    pub(crate) fn add_one(&mut self, height: Height)
        requires above { self.old.base ≤ height }
        requires reached { height < self.old.base + length self.old.heights }
        requires room { sum self.old.heights + 1 < 2 ^ 32 }
        ensures base { self.new.base ≡ self.old.base }
        ensures counts { (h : ℕ) → self.old.base ≤ h
            → count_of self.new h ≡ (if height == h then count_of self.old h + 1 else count_of self.old h) }
        ensures long { length self.new.heights ≡ length self.old.heights }
    {
        self.heights[(height.0 - self.base.0) as usize] += 1;
        self.total += 1;
    }

    /// Drops the counts below a height.
    pub(crate) fn prune(&mut self, base: Height)
        ensures base { self.new.base ≡ max base self.old.base }
        ensures same { (h : ℕ) → self.new.base ≤ h → count_of self.new h ≡ count_of self.old h }
        ensures longer { self.old.base + length self.old.heights
            ≤ self.new.base + length self.new.heights }
    {
        'prune: while self.base.0 < base.0 {
            let Some(count) = self.heights.pop_front() else {
                self.base = base;
                return;
            };
            self.total -= count as usize;
            self.base.0 += 1;
        }
    }
}
