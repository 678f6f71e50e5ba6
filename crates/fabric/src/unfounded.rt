//! Proposals without grounds.

ghost use Rattle.std.specs.Prelude.{◌≡◌, ◌≢◌, ◌⊎◌, ◌<◌, ◌++◌, ◌∷◌, ◌-◌, [], length, List, IfNone, IfSome};
ghost use Rattle.std.specs.Option.{option_to_list};
ghost use Rattle.fabric.specs.declared.unfounded.Unfounded as declared;
ghost use Rattle.fabric.specs.Proposed.{IsRest, NoneSince};
ghost use Rattle.tuning.specs.declared.waiting.TheConstants.{MOST_UNFOUNDED};

use bytes::Bytes;
use std::alloc::Global;
use std::collections::VecDeque;
use std::marker::Model;
use tuning::{MOST_UNFOUNDED, MOST_UNFOUNDED_BYTES};

/// A proposal whose certificate isn't good for its replica, and of which nothing else says that what it justifies may be
/// certified.
#[derive(Drop)]
pub(crate) struct Unfounded {
    /// Its number on the replica's link.
    pub(crate) number: u64,
    pub(crate) bytes: Bytes,
    /// How much news the replica had when the proposal was tried last.
    pub(crate) tried_at: u64,
}

/// Those of one replica, the one that was tried longest ago first.
#[derive(Drop)]
pub(crate) struct UnfoundedList {
    frames: VecDeque<Unfounded>,
    /// How many bytes they have.
    bytes: usize,
}

impl Model for UnfoundedList {
    ghost use Rattle.std.specs.Prelude.{◌≤◌, List, length};
    ghost use Rattle.tuning.specs.declared.waiting.TheConstants.{MOST_UNFOUNDED};
    ghost use Rattle.fabric.specs.declared.unfounded.Unfounded as declared;

    ghost Value = { List declared.Unfounded };

    ghost view = { λ list. list.frames.items };

    ghost invariant = { λ list. length list.frames.items ≤ MOST_UNFOUNDED };
}

impl UnfoundedList {
    /// None.
    pub(crate) fn new(alloc: Global) -> UnfoundedList
        ensures { result ≡ [] }
    {
        UnfoundedList {
            frames: VecDeque::new(alloc),
            bytes: 0,
        }
    }

    /// How many there are.
    pub(crate) fn len(&self) -> usize
        ensures { result ≡ length self.now }
    {
        self.frames.len()
    }

    /// Takes out the first.
    fn pop(&mut self) -> Option<Unfounded>
        ensures taken { self.old ≡ option_to_list result ++ self.new }
        ensures one { length self.new ≡ length self.old - 1 }
    {
        let first = self.frames.pop_front()?;
        self.bytes = self.bytes.saturating_sub(first.bytes.len());
        Some(first)
    }

    /// Takes out the first ones, as long as all have too many bytes, and one where there are too many.
    fn make_room(&mut self)
        ensures room { length self.new < MOST_UNFOUNDED }
        ensures rest { IsRest self.old self.new }
    {
        for _ in 0..MOST_UNFOUNDED {
            if self.bytes <= MOST_UNFOUNDED_BYTES {
                break;
            }
            let _lost = self.pop();
        }
        if self.frames.len() >= MOST_UNFOUNDED {
            let _lost = self.pop();
        }
    }

    /// Adds one behind all others. Where the list is full the first ones go; where memory is refused this one is lost.
    pub(crate) fn add(&mut self, frame: Unfounded)
        ensures { (rest : List declared.Unfounded) × IsRest self.old rest
            × ((self.new ≡ rest ++ frame ∷ []) ⊎ (self.new ≡ rest)) }
    {
        self.make_room();
        let bytes = frame.bytes.len();
        if self.frames.push_back(frame).is_ok() {
            self.bytes = self.bytes.saturating_add(bytes);
        }
    }

    /// Takes out the first, where the replica has had other news since that was tried.
    pub(crate) fn next(&mut self, news: u64) -> Option<Unfounded>
        ensures next { IfSome result (λ frame. (frame.tried_at ≢ news) × (self.old ≡ frame ∷ self.new)) }
        ensures none { IfNone result ((self.new ≡ self.old) × NoneSince news self.old) }
    {
        if self.frames.front()?.tried_at == news {
            return None;
        }
        self.pop()
    }
}
