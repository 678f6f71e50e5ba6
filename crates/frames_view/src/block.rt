//! Blocks that were asked for.

ghost use Rattle.std.specs.Prelude.{◌≡◌, IfSome};
ghost use Rattle.definitions.specs.Frames.{content_of, tags};
ghost use Rattle.frames_view.specs.Fields.{frame_replica, frame_core, frame_certificate};
ghost use Rattle.frames_view.specs.Parts.{block_in};
ghost use Rattle.frames_view.specs.Views.{Gives, certificate_of, core_of, block_of};
ghost use Rattle.frames_view.specs.Places.{IsBlockAt};

use crate::certificate::take_certificate;
use crate::core_view::take_core;
use crate::cursor::{before, take_32, take_party};
use crate::frame_views::BlockView;
use crate::views::{CertificateView, CoreView};
use ids::{Config, ReplicaId};

impl<'a> BlockView<'a> {
    /// Who sends it.
    pub fn sender(&self) -> ReplicaId
        ensures { result ≡ frame_replica (block_of self.now) }
    {
        ReplicaId(self.sender)
    }

    /// The block's core.
    pub fn core(&self) -> CoreView<'a>
        ensures value { core_of result ≡ frame_core (block_of self.now) }
        ensures lent { result ≡ self.now.core }
    {
        self.core
    }

    /// The certificate.
    pub fn certificate(&self) -> CertificateView<'a>
        ensures value { certificate_of result ≡ frame_certificate (block_of self.now) }
        ensures lent { result ≡ self.now.certificate }
    {
        self.certificate
    }

    /// What its tag speaks of.
    pub fn content(&self) -> &'a [u8]
        ensures value { result.now ≡ content_of (block_of self.now) }
        ensures lent { result ≡ self.now.content }
    {
        self.content
    }

    /// Its tag.
    pub fn tag(&self) -> &'a [u8; 32]
        ensures value { result.now ≡ tags (block_of self.now) }
        ensures lent { result ≡ self.now.tag }
    {
        self.tag
    }
}

#[tactic(auto, unfolding(crate::specs::Parts::block_in))]
pub(crate) fn take_block<'a>(config: &Config, bytes: &'a [u8]) -> Option<(BlockView<'a>, &'a [u8])>
    ensures taken { Gives (λ p. (block_of p.0, p.1.now)) result (block_in config.now bytes.now) }
    ensures lent { IfSome result (λ p. IsBlockAt bytes.entry 0 p.0) }
{
    let (sender, rest) = take_party(bytes, config.n())?;
    let (core, rest) = take_core(config, rest)?;
    let (certificate, rest) = take_certificate(config, rest)?;
    let content = before(bytes, rest);
    let (tag, rest) = take_32(rest)?;
    let block = BlockView {
        content,
        sender,
        core,
        certificate,
        tag,
    };
    Some((block, rest))
}
