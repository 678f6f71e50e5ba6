//! The digests of blocks.

ghost use Rattle.std.specs.Prelude.{◌≡◌};
ghost use Rattle.definitions.specs.Frames.{genesis_core};
ghost use Rattle.definitions.specs.Digests.{digest};
ghost use Rattle.frames_view.specs.Views.{core_of};

use crate::core_fields::CORE_HEAD;
use crate::views::CoreView;
use ids::Digest;
use sha2::Sha256;

impl CoreView<'_> {
    /// The digest of the block.
    #[tactic(auto, unfolding(definitions::specs::Digests::digest))]
    pub fn digest(&self) -> Digest
        ensures { result ≡ digest (core_of self.now) }
    {
        Digest(<Sha256 as sha2::Digest>::digest(self.raw))
    }
}

/// The digest of genesis, whose core is a head alone, of zero bytes.
#[tactic(auto, unfolding(definitions::specs::Digests::digest))]
pub fn genesis_digest() -> Digest
    ensures { result ≡ digest genesis_core }
{
    Digest(<Sha256 as sha2::Digest>::digest([0u8; CORE_HEAD].as_slice()))
}
