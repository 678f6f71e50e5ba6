//! What a block comes to in the tree.

ghost use Rattle.ids.specs.declared.limits.TheConstants.{MOST_OF_HEIGHT, HEIGHT_LIMIT};
ghost use Rattle.std.specs.Prelude.{◌≡◌, ◌<◌, ◌≤◌, ◌==◌, ◌&&◌, ◌∷◌, not, nat_lt, length, Some, count_by};
ghost use Rattle.definitions.specs.Branches.{Branch};
ghost use Rattle.definitions.specs.Digests.{digest as digest_of_core};
ghost use Rattle.definitions.specs.Trees.{blocks, find_in, block_of, justifies, placing, placing_over};
ghost use Rattle.frames_view.specs.Views.{core_of, certificate_of};
ghost use Rattle.block_tree.specs.Insertions.{place_of};

use crate::node::is_same;
use crate::tree::Tree;
use frames_view::{CertificateView, CoreView};
use ids::{Digest, Fault, HEIGHT_LIMIT, Height, MOST_OF_HEIGHT};

/// Where a block stands that isn't refused.
#[derive(Clone, Copy, Drop)]
pub enum Place {
    /// It stands in the tree.
    Stands,
    /// It may stand on its parent.
    Grows,
}

impl Tree {
    /// What a block of this digest comes to, with the certificate that came along: `plan` without a copy of
    /// it, so that it takes no memory.
    #[tactic(auto, unfolding(definitions::specs::Trees::placing, definitions::specs::Trees::placing_known))]
    pub fn placing(
        &self,
        digest: &Digest,
        core: &CoreView,
        certificate: &CertificateView,
    ) -> Result<Place, Fault>
        requires { digest.now ≡ digest_of_core (core_of core.now) }
        ensures { result
            ≡ place_of (placing self.now.horizon self.now.most (core_of core.now)
            (certificate_of certificate.now) (blocks self.now.stored)) }
    {
        let Some((justified, height)) = self.justified(digest) else {
            return self.placing_over(core, certificate);
        };
        if height.0 < self.horizon().0 {
            return Err(Fault::Pruned);
        }
        if is_same(&Digest(*certificate.digest()), &justified) {
            Ok(Place::Stands)
        } else {
            Err(Fault::WrongJustify)
        }
    }

    /// What a block comes to that doesn't stand in the tree.
    fn placing_over(&self, core: &CoreView, certificate: &CertificateView) -> Result<Place, Fault>
        ensures { result
            ≡ place_of (placing_over self.now.horizon self.now.most (core_of core.now)
            (certificate_of certificate.now) (blocks self.now.stored)) }
    {
        if core.justify_height().0 < self.horizon().0 {
            return Err(Fault::Pruned);
        }
        let Some(parent) = self.height(&Digest(*core.parent())) else {
            return Err(Fault::UnknownParent);
        };
        let height = core.height();
        if height.0 - 1 != parent.0 {
            return Err(Fault::BadHeight);
        }
        if !self.is_certified(core, certificate) {
            return Err(Fault::WrongJustify);
        }
        if self.is_crowded(height) {
            return Err(Fault::Crowded);
        }
        if self.is_full(height) {
            return Err(Fault::Full);
        }
        Ok(Place::Grows)
    }

    /// Whether the certificate is for the block that a core justifies, over its parent.
    fn is_certified(&self, core: &CoreView, certificate: &CertificateView) -> bool
        requires { self.now.horizon ≤ (core_of core.now).justify_height }
        ensures { (parent : Branch) → find_in (core_of core.now).parent (blocks self.now.stored) ≡ Some parent
            → (core_of core.now).height ≡ length (block_of (core_of core.now) ∷ parent)
            → result ≡ justifies (certificate_of certificate.now) (block_of (core_of core.now) ∷ parent) }
    {
        let parent = Digest(*core.parent());
        match self.ancestor_at(&parent, core.justify_height()) {
            Some(justified) => is_same(&Digest(*certificate.digest()), &justified),
            None => false,
        }
    }

    /// Whether as many blocks have a height as may have it.
    fn is_crowded(&self, height: Height) -> bool
        requires { self.now.horizon < height }
        ensures { result
            ≡ not (nat_lt (count_by (λ x. length x == height) (blocks self.now.stored)) MOST_OF_HEIGHT) }
    {
        self.counts.of(height) >= MOST_OF_HEIGHT
    }

    /// Whether as many blocks stand in the tree as may, or no block may have this height.
    fn is_full(&self, height: Height) -> bool
        ensures { result ≡ not (nat_lt (length (blocks self.now.stored)) self.now.most
            && nat_lt height HEIGHT_LIMIT) }
    {
        self.len() >= self.most || height.0 >= HEIGHT_LIMIT
    }
}
