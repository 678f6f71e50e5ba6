//! Announcements of views.

ghost use Rattle.std.specs.Prelude.{◌≡◌, ◌+◌, ◌*◌, ◌≤◌, length, IfSome};
ghost use Rattle.definitions.specs.Frames.{content_of, tags};
ghost use Rattle.definitions.specs.Tags.{tag_of};
ghost use Rattle.frames_view.specs.Fields.{frame_view, frame_replica, frame_certificate};
ghost use Rattle.frames_view.specs.Parts.{new_view_in};
ghost use Rattle.frames_view.specs.Views.{Gives, certificate_of, new_view_of};
ghost use Rattle.frames_view.specs.Places.{IsNewViewAt};

use crate::certificate::take_certificate;
use crate::cursor::{before, block_at, take_party, take_u64, take_vector};
use crate::frame_views::NewViewView;
use crate::views::CertificateView;
use ids::{Config, ReplicaId, View};

impl<'a> NewViewView<'a> {
    /// The view that it is for.
    pub fn view(&self) -> View
        ensures { result ≡ frame_view (new_view_of self.now) }
    {
        View(self.view)
    }

    /// Who sends it.
    pub fn sender(&self) -> ReplicaId
        ensures { result ≡ frame_replica (new_view_of self.now) }
    {
        ReplicaId(self.sender)
    }

    /// The certificate.
    pub fn certificate(&self) -> CertificateView<'a>
        ensures value { certificate_of result ≡ frame_certificate (new_view_of self.now) }
        ensures lent { result ≡ self.now.certificate }
    {
        self.certificate
    }

    /// What its tags speak of.
    pub fn content(&self) -> &'a [u8]
        ensures value { result.now ≡ content_of (new_view_of self.now) }
        ensures lent { result ≡ self.now.content }
    {
        self.content
    }

    /// Its tags, one for each replica.
    pub fn vector(&self) -> &'a [u8]
        ensures value { result.now ≡ tags (new_view_of self.now) }
        ensures lent { result ≡ self.now.vector }
    {
        self.vector
    }

    /// Its tag for a replica.
    pub fn tag(&self, replica: ReplicaId) -> &'a [u8; 32]
        requires { 32 * replica + 32 ≤ length (tags (new_view_of self.now)) }
        ensures { result.now ≡ tag_of (tags (new_view_of self.now)) replica }
    {
        block_at(self.vector, 32 * usize::from(replica.0))
    }
}

#[tactic(auto, unfolding(crate::specs::Parts::new_view_in))]
pub(crate) fn take_new_view<'a>(
    config: &Config,
    bytes: &'a [u8],
) -> Option<(NewViewView<'a>, &'a [u8])>
    ensures taken { Gives (λ p. (new_view_of p.0, p.1.now)) result (new_view_in config.now bytes.now) }
    ensures lent { IfSome result (λ p. IsNewViewAt bytes.entry 0 p.0) }
{
    let replicas = config.n();
    let (view, rest) = take_u64(bytes)?;
    let (sender, rest) = take_party(rest, replicas)?;
    let (certificate, rest) = take_certificate(config, rest)?;
    let content = before(bytes, rest);
    let (vector, rest) = take_vector(rest, replicas)?;
    let new_view = NewViewView {
        content,
        view,
        sender,
        certificate,
        vector,
    };
    Some((new_view, rest))
}
