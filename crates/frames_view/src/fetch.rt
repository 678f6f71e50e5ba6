//! Questions for blocks.

ghost use Rattle.std.specs.Prelude.{◌≡◌, IfSome};
ghost use Rattle.definitions.specs.Frames.{content_of, tags};
ghost use Rattle.frames_view.specs.Fields.{frame_replica, frame_digest};
ghost use Rattle.frames_view.specs.Parts.{fetch_in};
ghost use Rattle.frames_view.specs.Views.{Gives, fetch_of};
ghost use Rattle.frames_view.specs.Places.{IsFetchAt};

use crate::cursor::{before, take_32, take_party};
use crate::frame_views::FetchView;
use ids::{Config, ReplicaId};

impl<'a> FetchView<'a> {
    /// Who sends it.
    pub fn sender(&self) -> ReplicaId
        ensures { result ≡ frame_replica (fetch_of self.now) }
    {
        ReplicaId(self.sender)
    }

    /// The digest of the block that it is about.
    pub fn digest(&self) -> &'a [u8; 32]
        ensures value { result.now ≡ frame_digest (fetch_of self.now) }
        ensures lent { result ≡ self.now.digest }
    {
        self.digest
    }

    /// What its tag speaks of.
    pub fn content(&self) -> &'a [u8]
        ensures value { result.now ≡ content_of (fetch_of self.now) }
        ensures lent { result ≡ self.now.content }
    {
        self.content
    }

    /// Its tag.
    pub fn tag(&self) -> &'a [u8; 32]
        ensures value { result.now ≡ tags (fetch_of self.now) }
        ensures lent { result ≡ self.now.tag }
    {
        self.tag
    }
}

#[tactic(auto, unfolding(crate::specs::Parts::fetch_in))]
pub(crate) fn take_fetch<'a>(config: &Config, bytes: &'a [u8]) -> Option<(FetchView<'a>, &'a [u8])>
    ensures taken { Gives (λ p. (fetch_of p.0, p.1.now)) result (fetch_in config.now bytes.now) }
    ensures lent { IfSome result (λ p. IsFetchAt bytes.entry 0 p.0) }
{
    let (sender, rest) = take_party(bytes, config.n())?;
    let (digest, rest) = take_32(rest)?;
    let content = before(bytes, rest);
    let (tag, rest) = take_32(rest)?;
    let fetch = FetchView {
        content,
        sender,
        digest,
        tag,
    };
    Some((fetch, rest))
}
