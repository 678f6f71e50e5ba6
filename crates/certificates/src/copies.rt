//! Copies of one block that several replicas sent.

ghost use Rattle.std.specs.Prelude.{◌≡◌, ◌≤◌, ◌↔◌, ◌++◌, ◌∷◌, ◌&&◌, [], length, nat_lt, IsTrue, IsOk, IfOk, OnErr};
ghost use Rattle.ids.specs.Sizes.{replicas};
ghost use Rattle.definitions.specs.FrameLimits.{IsFrame};
ghost use Rattle.definitions.specs.Frames.{kind_of, sender_of, content_of};
ghost use Rattle.frames_view.specs.Fields.{frame_replica};
ghost use Rattle.frames_view.specs.Views.{block_of};
ghost use Rattle.certificates.specs.Copying.{Gathered, is_another};

use crate::check::verifies;
use crate::checked::{Authenticated, Tagged};
use crate::row::ReplicaRow;
use frames_view::BlockView;
use ids::{Digest, Fault, ReplicaId};
use std::marker::Model;

/// Copies of one block, each with a certificate for what the block justifies, and with its sender's tag,
/// which verifies. There are no more than replicas; one sender may have sent several.
#[derive(Drop)]
pub struct Copies<'a> {
    first: Tagged<'a, BlockView<'a>>,
    block: Digest,
    senders: ReplicaRow,
}

impl<'a> Model for Copies<'a> {
    ghost use Rattle.std.specs.Prelude.{◌≡◌, ◌≤◌, length};
    ghost use Rattle.ids.specs.Sizes.{replicas};
    ghost use Rattle.definitions.specs.Digests.{digest};
    ghost use Rattle.frames_view.specs.Fields.{frame_core};
    ghost use Rattle.frames_view.specs.Views.{block_of};
    ghost use Rattle.certificates.specs.Copying.{Gathered};

    ghost Value = { Gathered };

    ghost view = { λ c. record { first = c.first; senders = c.senders } };

    ghost invariant = { λ c. (c.block ≡ digest (frame_core (block_of c.first.view)))
        × (length c.senders ≤ replicas c.first.keys.sizes) };
}

impl<'a> Copies<'a> {
    /// One copy.
    pub fn new(first: Tagged<'a, BlockView<'a>>) -> Copies<'a>
        ensures { result
            ≡ record { first = first.entry; senders = frame_replica (block_of first.entry.view) ∷ [] } }
    {
        let block = first.view().core().digest();
        let mut senders = ReplicaRow::new();
        senders.push(first.view().sender());
        Copies {
            first,
            block,
            senders,
        }
    }

    /// Whether the frame is one more copy of the block.
    #[tactic(auto, unfolding(definitions::specs::Admission::is_copy))]
    fn is_another(&self, view: &BlockView<'_>) -> bool
        requires { IsFrame self.now.first.keys.sizes (block_of view.now) }
        ensures { result ≡ is_another self.now (block_of view.now) }
    {
        let keyring = self.first.keyring();
        if !verifies(keyring, &view.claims(keyring).own) {
            return false;
        }
        let (first, other) = (self.first.view().certificate(), view.certificate());
        view.core().digest().0.as_slice() == self.block.0.as_slice()
            && other.digest().as_slice() == first.digest().as_slice()
    }

    /// Adds one more copy. Else `BadTag`, and nothing changes: where the block isn't the same, or its
    /// certificate is for another block, where the frame's own tag doesn't verify, or where there are as many
    /// copies as replicas.
    pub fn add(&mut self, view: &BlockView<'_>) -> Result<(), Fault>
        requires { IsFrame self.old.first.keys.sizes (block_of view.now) }
        ensures exactly { IsOk result ↔ IsTrue (nat_lt (length self.old.senders)
            (replicas self.old.first.keys.sizes) && is_another self.old (block_of view.now)) }
        ensures added { IfOk result (λ _. self.new ≡ record self.old {
          senders = self.old.senders ++ frame_replica (block_of view.now) ∷ [];
        }) }
        ensures refused { OnErr result ((result ≡ Err Fault.BadTag) × (self.new ≡ self.old)) }
    {
        let is_room = self.senders.as_slice().len() < usize::from(self.first.config().n());
        if !is_room || !self.is_another(view) {
            return Err(Fault::BadTag);
        }
        self.senders.push(view.sender());
        Ok(())
    }

    /// The first copy.
    pub fn first(&self) -> &Tagged<'a, BlockView<'a>>
        ensures { result.now ≡ self.now.first }
    {
        &self.first
    }

    /// Who sent the copies, in order.
    pub fn senders(&self) -> &[ReplicaId]
        ensures senders { result.now ≡ self.now.senders }
        ensures few { length self.now.senders ≤ replicas self.now.first.keys.sizes }
    {
        self.senders.as_slice()
    }
}
