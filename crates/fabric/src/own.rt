//! What a replica sends to itself.

ghost use Rattle.std.specs.Prelude.{◌≡◌, ◌⊎◌, ◌++◌, [], ◌∷◌, List, false, true, IfNone, IfSome, OnErr, OnOk};
ghost use Rattle.std.specs.Prelude.{◌==◌, length};

use bytes::Bytes;
use std::alloc::{AllocError, Global};
use std::collections::VecDeque;

/// What a replica sent to itself and isn't taken yet, and whether its link has its turn before the next of it.
#[derive(Drop)]
pub(crate) struct OwnFrames {
    frames: VecDeque<Bytes>,
    link_is_next: bool,
}

impl OwnFrames {
    /// Nothing was sent.
    pub(crate) fn new(alloc: Global) -> OwnFrames
        ensures frames { result.frames.items ≡ [] }
        ensures next { result.link_is_next ≡ false }
    {
        OwnFrames {
            frames: VecDeque::new(alloc),
            link_is_next: false,
        }
    }

    /// One frame more was sent.
    pub(crate) fn add(&mut self, frame: Bytes) -> Result<(), AllocError>
        ensures added { OnOk result (self.new.frames.items ≡ self.old.frames.items ++ frame ∷ []) }
        ensures unchanged { OnErr result (self.new.frames.items ≡ self.old.frames.items) }
        ensures next { self.new.link_is_next ≡ self.old.link_is_next }
    {
        self.frames.push_back(frame)?;
        Ok(())
    }

    /// Takes the oldest frame, where one waits and the link isn't next. Then the link is.
    pub(crate) fn take(&mut self) -> Option<Bytes>
        ensures taken { IfSome result (λ frame. (self.old.link_is_next ≡ false)
            × (self.old.frames.items ≡ frame ∷ self.new.frames.items) × (self.new.link_is_next ≡ true)) }
        ensures none { IfNone result ((self.new.frames.items ≡ self.old.frames.items)
            × (self.new.link_is_next ≡ self.old.link_is_next)
            × ((self.old.link_is_next ≡ true) ⊎ (self.old.frames.items ≡ []))) }
    {
        if self.link_is_next {
            return None;
        }
        let frame = self.frames.pop_front()?;
        self.link_is_next = true;
        Some(frame)
    }

    /// Whether nothing waits.
    pub(crate) fn is_empty(&self) -> bool
        ensures { result ≡ (length self.now.frames.items == 0) }
    {
        self.frames.is_empty()
    }

    /// The link was looked at: it had its turn.
    pub(crate) fn link_had_its_turn(&mut self)
        ensures frames { self.new.frames.items ≡ self.old.frames.items }
        ensures next { self.new.link_is_next ≡ false }
    {
        self.link_is_next = false;
    }
}
