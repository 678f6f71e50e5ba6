//! Proposals.

ghost use Rattle.std.specs.Prelude.{◌≡◌, ◌+◌, ◌*◌, ◌≤◌, length, IfSome};
ghost use Rattle.definitions.specs.Frames.{content_of, tags};
ghost use Rattle.definitions.specs.Tags.{tag_of};
ghost use Rattle.frames_view.specs.Fields.{frame_view, frame_core, frame_certificate};
ghost use Rattle.frames_view.specs.Parts.{proposal_in};
ghost use Rattle.frames_view.specs.Views.{Gives, certificate_of, core_of, proposal_of};
ghost use Rattle.frames_view.specs.Places.{IsProposalAt};

use crate::certificate::take_certificate;
use crate::core_view::take_core;
use crate::cursor::{before, block_at, take_u64, take_vector};
use crate::frame_views::ProposalView;
use crate::views::{CertificateView, CoreView};
use ids::{Config, ReplicaId, View};

impl<'a> ProposalView<'a> {
    /// The view that it is for.
    pub fn view(&self) -> View
        ensures { result ≡ frame_view (proposal_of self.now) }
    {
        View(self.view)
    }

    /// The block's core.
    pub fn core(&self) -> CoreView<'a>
        ensures value { core_of result ≡ frame_core (proposal_of self.now) }
        ensures lent { result ≡ self.now.core }
    {
        self.core
    }

    /// The certificate.
    pub fn certificate(&self) -> CertificateView<'a>
        ensures value { certificate_of result ≡ frame_certificate (proposal_of self.now) }
        ensures lent { result ≡ self.now.certificate }
    {
        self.certificate
    }

    /// What its tags speak of.
    pub fn content(&self) -> &'a [u8]
        ensures value { result.now ≡ content_of (proposal_of self.now) }
        ensures lent { result ≡ self.now.content }
    {
        self.content
    }

    /// Its tags, one for each replica.
    pub fn vector(&self) -> &'a [u8]
        ensures value { result.now ≡ tags (proposal_of self.now) }
        ensures lent { result ≡ self.now.vector }
    {
        self.vector
    }

    /// Its tag for a replica.
    pub fn tag(&self, replica: ReplicaId) -> &'a [u8; 32]
        requires { 32 * replica + 32 ≤ length (tags (proposal_of self.now)) }
        ensures { result.now ≡ tag_of (tags (proposal_of self.now)) replica }
    {
        block_at(self.vector, 32 * usize::from(replica.0))
    }
}

#[tactic(auto, unfolding(crate::specs::Parts::proposal_in))]
pub(crate) fn take_proposal<'a>(
    config: &Config,
    bytes: &'a [u8],
) -> Option<(ProposalView<'a>, &'a [u8])>
    ensures taken { Gives (λ p. (proposal_of p.0, p.1.now)) result (proposal_in config.now bytes.now) }
    ensures lent { IfSome result (λ p. IsProposalAt bytes.entry 0 p.0) }
{
    let replicas = config.n();
    let (view, rest) = take_u64(bytes)?;
    let (core, rest) = take_core(config, rest)?;
    let (certificate, rest) = take_certificate(config, rest)?;
    let content = before(bytes, rest);
    let (vector, rest) = take_vector(rest, replicas)?;
    let proposal = ProposalView {
        content,
        view,
        core,
        certificate,
        vector,
    };
    Some((proposal, rest))
}
