//! The doorkeeper.

ghost use Rattle.std.specs.Prelude.{◌≡◌, ◌<◌, [], IsTrue, OnOk, OnErr, max, nat_le, get_or, ℕ};
ghost use Rattle.std.specs.Bool.{OnTrue, OnFalse};
ghost use Rattle.ids.specs.declared.limits.TheConstants.{MOST_OF_HEIGHT, MOST_REPLICAS};
ghost use Rattle.ids.specs.Sizes.{replicas};
ghost use Rattle.doorkeeper.specs.Doors.{brought, of_height, passes, remembered, with_block};

use crate::brought::{Brought, most_of_each};
use crate::row::Row;
use ghost_list::GhostList;
use ids::{Config, Fault, Height};
use std::alloc::Global;
use std::collections::HashMap;
use std::marker::Model;

/// Who brought which blocks that a replica took, and so who may bring more.
///
/// Before a step that may take a block, `let_in` says whether the block passes, and takes the memory to
/// count it. Where the replica took it, `took` counts it. `forget_below` follows a pruning.
#[derive(Drop)]
pub struct Doorkeeper {
    /// How many replicas there are.
    replicas: u8,
    /// Of lower heights nothing is known.
    base: Height,
    rows: HashMap<u64, Row>,
    /// Every block that was counted, newest first.
    all: GhostList<Brought>,
}

impl Model for Doorkeeper {
    ghost use Rattle.std.specs.HashMap.{spare};
    ghost use Rattle.doorkeeper.specs.Doors.{DoorState, remembered};

    ghost Value = { DoorState };

    ghost use Rattle.doorkeeper.specs.Rows.{AreCounts};
    ghost use Rattle.std.specs.Prelude.{◌<◌, ◌≤◌};
    ghost use Rattle.ids.specs.declared.limits.TheConstants.{MOST_REPLICAS};

    ghost view = { λ d. record {
      replicas = d.replicas;
      base = d.base;
      taken = remembered d.base d.all.items;
      room = spare d.rows;
    } };

    ghost invariant = { λ d. (0 < d.replicas) × (d.replicas ≤ MOST_REPLICAS)
        × AreCounts d.replicas d.rows (remembered d.base d.all.items) };
}

impl Doorkeeper {
    /// Nobody of the replicas of these sizes has brought anything. It takes no memory.
    pub fn new(alloc: Global, config: Config) -> Doorkeeper
        ensures replicas { result.replicas ≡ replicas config }
        ensures base { result.base ≡ 0 }
        ensures taken { result.taken ≡ [] }
    {
        Doorkeeper {
            replicas: config.n(),
            base: Height(0),
            rows: HashMap::new(alloc),
            all: GhostList::new(),
        }
    }

    /// The counts of a height.
    fn row(&self, height: Height) -> Row
        ensures { (payer : ℕ) → payer < MOST_REPLICAS
            → get_or result payer 0 ≡ brought height payer self.now.taken }
    {
        match self.rows.get(&height.0) {
            Some(row) => *row,
            None => Row::new(),
        }
    }

    /// Whether a block passes: its account is that of one of the replicas, and few of its height came in on it,
    /// fewer than four where there are at most fifteen replicas.
    pub fn passes(&self, block: &Brought) -> bool
        ensures { result ≡ passes self.now.replicas block.now self.now.taken }
    {
        block.payer.0 < self.replicas
            && usize::from(self.row(block.height).of(block.payer)) < most_of_each(self.replicas)
    }

    /// Lets a block come to the replica, and takes the memory to count it.
    ///
    /// `Crowded` comes first, where the block doesn't pass; then `Memory`.
    pub fn let_in(&mut self, block: &Brought) -> Result<(), Fault>
        ensures passes { OnOk result (IsTrue (passes self.old.replicas block.now self.new.taken)) }
        ensures room { OnOk result (0 < self.new.room) }
        ensures crowded { OnFalse (passes self.old.replicas block.now self.old.taken) (result ≡ Err Fault.Crowded) }
        ensures memory { OnTrue (passes self.old.replicas block.now self.old.taken) (OnErr result (result ≡ Err Fault.Memory)) }
        ensures replicas { self.new.replicas ≡ self.old.replicas }
        ensures base { self.new.base ≡ self.old.base }
        ensures taken { self.new.taken ≡ self.old.taken }
    {
        if !self.passes(block) {
            return Err(Fault::Crowded);
        }
        self.rows.reserve(1)?;
        Ok(())
    }

    /// Counts a block that passed, and that the replica took.
    pub fn took(&mut self, block: &Brought)
        requires passes { IsTrue (passes self.old.replicas block.now self.old.taken) }
        requires room { 0 < self.old.room }
        ensures replicas { self.new.replicas ≡ self.old.replicas }
        ensures base { self.new.base ≡ self.old.base }
        ensures taken { self.new.taken ≡ with_block self.old.base block.now self.old.taken }
    {
        let (height, payer) = (block.height, block.payer);
        if height.0 < self.base.0 {
            return;
        }
        let mut row = self.row(height);
        row.add_one(payer);
        // There is room for it.
        let inserted: Result<_, _> = self.rows.insert(height.0, row);
        let _before = inserted.unwrap();
        self.all = self.all.with(block);
    }

    /// Forgets the blocks below a height: their rows make room for others. A lower height than before
    /// changes nothing.
    pub fn forget_below(&mut self, base: Height)
        ensures replicas { self.new.replicas ≡ self.old.replicas }
        ensures base { self.new.base ≡ max base self.old.base }
        ensures taken { self.new.taken ≡ remembered base self.old.taken }
    {
        if base.0 <= self.base.0 {
            return;
        }
        self.base = base;
        let lowest = base.0;
        self.rows.retain(
            |height: &u64, row: &mut Row| -> bool
                ensures { (result ≡ nat_le lowest height.now) × (row.new ≡ row.old) }
            {
                // For the proof: the row stays as it is.
                let _counts = row;
                *height >= lowest
            },
        );
    }
}
