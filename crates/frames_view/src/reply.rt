//! Replies.

ghost use Rattle.std.specs.Prelude.{◌≡◌, IfSome};
ghost use Rattle.definitions.specs.Frames.{content_of, tags};
ghost use Rattle.frames_view.specs.Fields.{frame_replica, frame_client, frame_seq, frame_place, frame_text};
ghost use Rattle.frames_view.specs.Parts.{reply_in};
ghost use Rattle.frames_view.specs.Views.{Gives, reply_of};
ghost use Rattle.frames_view.specs.Places.{IsReplyAt};

use crate::cursor::{before, take_32, take_party, take_positive, take_text};
use crate::frame_views::ReplyView;
use ids::{ClientId, Config, Place, ReplicaId, Seq};

impl<'a> ReplyView<'a> {
    /// Who replies.
    pub fn replica(&self) -> ReplicaId
        ensures { result ≡ frame_replica (reply_of self.now) }
    {
        ReplicaId(self.replica)
    }

    /// Whose request is replied to.
    pub fn client(&self) -> ClientId
        ensures { result ≡ frame_client (reply_of self.now) }
    {
        ClientId(self.client)
    }

    /// The request's number.
    pub fn seq(&self) -> Seq
        ensures { result ≡ frame_seq (reply_of self.now) }
    {
        Seq(self.seq)
    }

    /// The command's place in the history.
    pub fn place(&self) -> Place
        ensures { result ≡ frame_place (reply_of self.now) }
    {
        Place(self.place)
    }

    /// The reply's text.
    pub fn text(&self) -> &'a [u8]
        ensures value { result.now ≡ frame_text (reply_of self.now) }
        ensures lent { result ≡ self.now.text }
    {
        self.text
    }

    /// What its tag speaks of.
    pub fn content(&self) -> &'a [u8]
        ensures value { result.now ≡ content_of (reply_of self.now) }
        ensures lent { result ≡ self.now.content }
    {
        self.content
    }

    /// Its tag.
    pub fn tag(&self) -> &'a [u8; 32]
        ensures value { result.now ≡ tags (reply_of self.now) }
        ensures lent { result ≡ self.now.tag }
    {
        self.tag
    }
}

#[tactic(auto, unfolding(crate::specs::Parts::reply_in))]
pub(crate) fn take_reply<'a>(config: &Config, bytes: &'a [u8]) -> Option<(ReplyView<'a>, &'a [u8])>
    ensures taken { Gives (λ p. (reply_of p.0, p.1.now)) result (reply_in config.now bytes.now) }
    ensures lent { IfSome result (λ p. IsReplyAt bytes.entry 0 p.0) }
{
    let (replica, rest) = take_party(bytes, config.n())?;
    let (client, rest) = take_party(rest, config.clients())?;
    let (seq, rest) = take_positive(rest)?;
    let (place, rest) = take_positive(rest)?;
    let (text, rest) = take_text(rest)?;
    let content = before(bytes, rest);
    let (tag, rest) = take_32(rest)?;
    let reply = ReplyView {
        content,
        replica,
        client,
        seq,
        place,
        text,
        tag,
    };
    Some((reply, rest))
}
