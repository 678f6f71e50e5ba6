//! Planning and inserting blocks.

ghost use Rattle.std.specs.Prelude.{◌≡◌, ◌∷◌, OnErr, OnOk};
ghost use Rattle.definitions.specs.Trees.{blocks, placing};
ghost use Rattle.frames_view.specs.Views.{core_of, certificate_of};
ghost use Rattle.block_tree.specs.Insertions.{Inserted, IsPlanned, MayStand};
ghost use Rattle.block_tree.specs.Nodes.{stored_as};

use crate::node::Node;
use crate::place::Place;
use crate::tree::Tree;
use frames_view::{CertificateView, CoreView};
use ids::{Digest, Fault};
use std::alloc::AllocError;

/// What was planned for a block.
#[derive(Drop)]
pub enum Plan {
    /// It stands in the tree, by this digest.
    Stands(Digest),
    /// It may stand on its parent: its node, with copies of its parts.
    Grows(Node),
}

impl Tree {
    /// What is to become of a block that comes with the certificate of the block that it justifies,
    /// and with a clear mark. A new block's parts are copied; nothing changes yet.
    ///
    /// `Pruned` where it justifies a block below the horizon, `UnknownParent` where its parent isn't
    /// in the tree, `BadHeight` where its height isn't one above, `WrongJustify` where the
    /// certificate is for another block than it justifies, `Crowded` where 64 blocks have its
    /// height, `Full` where as many blocks stand as may or its height is 2^58 or more, in this
    /// order; then `Memory`. Of a block that stands, only `Pruned` and `WrongJustify`.
    pub fn plan(
        &self,
        core: &CoreView,
        certificate: &CertificateView,
        clear: bool,
    ) -> Result<Plan, Fault>
        ensures { IsPlanned self.now (core_of core.now) (certificate_of certificate.now) clear result
            (placing self.now.horizon self.now.most (core_of core.now) (certificate_of certificate.now)
            (blocks self.now.stored)) }
    {
        let digest = core.digest();
        match self.placing(&digest, core, certificate)? {
            Place::Stands => Ok(Plan::Stands(digest)),
            Place::Grows => {
                let node = Node::copy(self.alloc, digest, core, certificate, clear)?;
                Ok(Plan::Grows(node))
            }
        }
    }

    /// Adds a planned block. Its memory is taken first: where that is refused, nothing changed.
    pub fn add(&mut self, node: Node) -> Result<(), AllocError>
        requires { MayStand self.old node }
        ensures added { OnOk result (self.new
            ≡ record {
              most = self.old.most;
              horizon = self.old.horizon;
              stored = stored_as node (blocks self.old.stored) ∷ self.old.stored;
            }) }
        ensures unchanged { OnErr result (self.new ≡ self.old) }
    {
        let height = node.height();
        self.counts.reach(height)?;
        self.forest.push(node)?;
        self.counts.add_one(height);
        Ok(())
    }

    /// Puts a block on its parent, with the certificate of the block that it justifies and a clear
    /// mark, and gives its digest. A block that stands in the tree stays as it is, with its first
    /// certificate and mark.
    pub fn insert(
        &mut self,
        core: &CoreView,
        certificate: &CertificateView,
        clear: bool,
    ) -> Result<Digest, Fault>
        ensures { Inserted self.old (core_of core.now) (certificate_of certificate.now) clear result
            self.new }
    {
        match self.plan(core, certificate, clear)? {
            Plan::Stands(digest) => Ok(digest),
            Plan::Grows(node) => {
                let digest = node.digest();
                self.add(node)?;
                Ok(digest)
            }
        }
    }
}
