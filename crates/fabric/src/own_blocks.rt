//! What a leader proposed since one of its blocks was certified.

ghost use Rattle.std.specs.Prelude.{◌≡◌, ◌⊎◌, [], None, Some, is_none, OnErr, OnOk};
ghost use Rattle.std.specs.Bool.{OnFalse, OnTrue};
ghost use Rattle.fabric.specs.Proposed.{is_among, is_known_as, superseded};

use ids::Digest;
use std::alloc::{AllocError, Global};
use std::collections::VecDeque;
use tuning::MOST_WAITING_FRAMES;

/// A leader's newest block, and those below it that the same certificate stands below.
///
/// A vote for the certified block is late. In trouble one for a block below the newest is passed over, too: replicas that
/// voted for less may vote for it, and liars, so that a certificate comes about which is good for the leader alone.
#[derive(Drop)]
pub(crate) struct OwnBlocks {
    certified: Option<Digest>,
    newest: Option<Digest>,
    below: VecDeque<Digest>,
}

impl OwnBlocks {
    /// Nothing was proposed.
    pub(crate) fn new(alloc: Global) -> OwnBlocks
        ensures certified { result.certified ≡ None }
        ensures newest { result.newest ≡ None }
        ensures below { result.below.items ≡ [] }
    {
        OwnBlocks {
            certified: None,
            newest: None,
            below: VecDeque::new(alloc),
        }
    }

    /// The newest one is below another one now. Of too many the oldest is forgotten.
    fn supersede(&mut self) -> Result<(), AllocError>
        ensures below { OnOk result (self.new.below.items ≡ superseded self.old.newest self.old.below.items) }
        ensures unchanged { OnErr result (self.new.below.items ≡ self.old.below.items) }
        ensures certified { self.new.certified ≡ self.old.certified }
    {
        let Some(newest) = self.newest.take() else {
            return Ok(());
        };
        self.below.reserve(1)?;
        if self.below.len() >= MOST_WAITING_FRAMES {
            let _oldest = self.below.pop_front();
        }
        self.below.push_back_reserved(newest);
        Ok(())
    }

    /// A proposal went out, whose certificate is for this block; and its own block, where that is known. Where memory is
    /// refused, the one that was the newest isn't known to be below it.
    pub(crate) fn propose(&mut self, certified: Digest, block: Option<Digest>)
        ensures certified { self.new.certified ≡ Some certified }
        ensures newest { self.new.newest ≡ block }
        ensures again { OnTrue (is_known_as certified self.old.certified)
            ((self.new.below.items ≡ superseded self.old.newest self.old.below.items)
            ⊎ (self.new.below.items ≡ self.old.below.items)) }
        ensures anew { OnFalse (is_known_as certified self.old.certified) (self.new.below.items ≡ []) }
    {
        if self.is_certified(&certified) {
            let _refused = self.supersede();
        } else {
            self.below.clear();
        }
        self.certified = Some(certified);
        self.newest = block;
    }

    /// Whether nothing was proposed.
    pub(crate) fn is_empty(&self) -> bool
        ensures { result ≡ is_none self.now.certified }
    {
        self.certified.is_none()
    }

    /// The block that its last proposal certifies.
    pub(crate) fn certified(&self) -> Option<Digest>
        ensures { result ≡ self.now.certified }
    {
        self.certified
    }

    /// Whether the certificate of its last proposal is for this block.
    pub(crate) fn is_certified(&self, block: &Digest) -> bool
        ensures { result ≡ is_known_as block.now self.now.certified }
    {
        match &self.certified {
            Some(certified) => *certified == *block,
            None => false,
        }
    }

    /// Whether it is below the newest.
    pub(crate) fn is_below(&self, block: &Digest) -> bool
        ensures { result ≡ is_among block.now self.now.below.items }
    {
        self.below.contains(block)
    }
}
