//! Frames that say who sent them and which of its frames they are, and what was heard of each sender.

use anyhow::Result;
use bytes::Bytes;
use ids::PartyId;
use std::alloc::Global;
use std::sync::atomic::Ordering::SeqCst;
use std::sync::atomic::{AtomicBool, AtomicU64};
use wires::Arrivals;

/// How long the frame of this number is.
fn len_of(number: u64) -> usize {
    10 + (number % 200) as usize
}

/// What a frame is filled with.
fn filling(number: u64) -> u8 {
    (number % 251) as u8
}

/// Frame of this number of this sender: its party, the number, and a filling.
pub(crate) fn numbered(alloc: Global, from: PartyId, number: u64) -> Result<Bytes> {
    let mut frame = Vec::new(alloc);
    frame.extend_from_slice(&from.0.to_be_bytes())?;
    frame.extend_from_slice(&number.to_be_bytes())?;
    frame.resize(len_of(number), filling(number))?;
    Ok(Bytes::from_vec(frame)?)
}

/// Whether a frame is that of this number of this sender.
fn is_numbered(frame: &[u8], from: PartyId, number: u64) -> bool {
    frame.len() == len_of(number)
        && frame.starts_with(&from.0.to_be_bytes())
        && frame.get(2..10) == Some(number.to_be_bytes().as_slice())
        && frame.iter().skip(10).all(|byte| *byte == filling(number))
}

/// What was heard of one sender.
#[derive(Drop)]
pub(crate) struct Count {
    /// The number of the frame that is to come next.
    next: AtomicU64,
    /// How many came that weren't the next one.
    wrong: AtomicU64,
    /// How many frames there is room for.
    room: AtomicU64,
    /// Whether the row was found full.
    was_full: AtomicBool,
}

impl Count {
    /// The frame of this number is to come next.
    pub(crate) fn from(first: u64) -> Count {
        Count {
            next: AtomicU64::new(first),
            wrong: AtomicU64::new(0),
            room: AtomicU64::new(u64::MAX),
            was_full: AtomicBool::new(false),
        }
    }

    /// How many came in order, the first number included.
    pub(crate) fn next(&self) -> u64 {
        self.next.load(SeqCst)
    }

    /// How many came out of order.
    pub(crate) fn wrong(&self) -> u64 {
        self.wrong.load(SeqCst)
    }

    /// From now on there is room for so many.
    pub(crate) fn make_room(&self, room: u64) {
        self.room.store(room, SeqCst);
    }

    /// Whether there was no room for more.
    pub(crate) fn was_full(&self) -> bool {
        self.was_full.load(SeqCst)
    }

    /// How many came, in order or not.
    fn came(&self) -> u64 {
        self.next().saturating_add(self.wrong())
    }
}

/// A row: what came as one sender's.
#[derive(Clone, Copy)]
pub(crate) struct Row<'a> {
    pub(crate) count: &'a Count,
    pub(crate) from: PartyId,
}

impl Arrivals for Row<'_> {
    ghost use Rattle.std.specs.Prelude.{⊤};

    ghost takes = { λ before from frame after. ⊤ };

    fn has_room(&self) -> bool {
        let has_room = self.count.came() < self.count.room.load(SeqCst);
        if !has_room {
            self.count.was_full.store(true, SeqCst);
        }
        has_room
    }

    fn take(&mut self, from: PartyId, frame: &[u8]) {
        if from == self.from && is_numbered(frame, from, self.count.next()) {
            self.count.next.fetch_add(1, SeqCst);
        } else {
            self.count.wrong.fetch_add(1, SeqCst);
        }
    }
}
