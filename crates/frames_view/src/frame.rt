//! Frames of both versions, read whole.

ghost use Rattle.std.specs.Prelude.{◌≡◌, option_map, IfSome, IfOk};
ghost use Rattle.std.specs.Result.{result_ok};
ghost use Rattle.definitions.specs.Frames.{kind_of, is_marked, version_of, head_len};
ghost use Rattle.definitions.specs.FrameLimits.{IsReadAs};
ghost use Rattle.frames_view.specs.Parts.{kind_in, old_frame_in, new_frame_in, frame_in, carries_cut};
ghost use Rattle.frames_view.specs.Views.{Gives, frame_of};
ghost use Rattle.frames_view.specs.Places.{IsFrameAt};

use crate::block::take_block;
use crate::certificate::is_cut;
use crate::command::take_command;
use crate::cursor::{from, take_u8};
use crate::fetch::take_fetch;
use crate::frame_views::Frame;
use crate::new_view::take_new_view;
use crate::proposal::take_proposal;
use crate::reply::take_reply;
use crate::vote_frame::take_vote_frame;
use ids::{Config, Kind, MOST_FAULTS_OF_VERSION_ONE, NotAFrame, VERSION_TWO};

impl Frame<'_> {
    /// What kind of frame it is.
    pub fn kind(&self) -> Kind
        ensures { result ≡ kind_of (frame_of self.now) }
    {
        match self {
            Frame::Request(_) => Kind::Request,
            Frame::Proposal(_) => Kind::Proposal,
            Frame::Vote(_) => Kind::Vote,
            Frame::NewView(_) => Kind::NewView,
            Frame::Reply(_) => Kind::Reply,
            Frame::Fetch(_) => Kind::Fetch,
            Frame::Block(_) => Kind::Block,
        }
    }
}

/// A frame of this kind, with what is left behind it.
#[tactic(auto, unfolding(crate::specs::Parts::kind_in))]
fn take_kind<'a>(config: &Config, kind: Kind, bytes: &'a [u8]) -> Option<(Frame<'a>, &'a [u8])>
    ensures taken { Gives (λ p. (frame_of p.0, p.1.now)) result (kind_in config.now kind bytes.now) }
    ensures lent { IfSome result (λ p. IsFrameAt bytes.entry 0 p.0) }
{
    match kind {
        Kind::Request => {
            let (command, rest) = take_command(bytes, config.n(), config.clients())?;
            Some((Frame::Request(command), rest))
        }
        Kind::Proposal => {
            let (proposal, rest) = take_proposal(config, bytes)?;
            Some((Frame::Proposal(proposal), rest))
        }
        Kind::Vote => {
            let (vote, rest) = take_vote_frame(config, bytes)?;
            Some((Frame::Vote(vote), rest))
        }
        Kind::NewView => {
            let (new_view, rest) = take_new_view(config, bytes)?;
            Some((Frame::NewView(new_view), rest))
        }
        Kind::Reply => {
            let (reply, rest) = take_reply(config, bytes)?;
            Some((Frame::Reply(reply), rest))
        }
        Kind::Fetch => {
            let (fetch, rest) = take_fetch(config, bytes)?;
            Some((Frame::Fetch(fetch), rest))
        }
        Kind::Block => {
            let (block, rest) = take_block(config, bytes)?;
            Some((Frame::Block(block), rest))
        }
    }
}

/// The frame of version 1 that the bytes are, all of them.
#[tactic(auto, unfolding(crate::specs::Parts::old_frame_in))]
fn old_frame<'a>(config: &Config, bytes: &'a [u8]) -> Option<Frame<'a>>
    ensures taken { option_map frame_of result ≡ old_frame_in config.now bytes.now }
    ensures lent { IfSome result (λ f. IsFrameAt bytes.entry 1 f) }
{
    let (number, rest) = take_u8(bytes)?;
    let kind = Kind::from_number(number)?;
    let (frame, rest) = take_kind(config, kind, rest)?;
    if !rest.is_empty() {
        return None;
    }
    Some(frame)
}

/// Whether the certificate that it carries, if any, has no votes or exactly a quorum.
fn carries_cut(config: &Config, frame: &Frame<'_>) -> bool
    ensures { result ≡ carries_cut config.now (frame_of frame.now) }
{
    match frame {
        Frame::Proposal(proposal) => is_cut(config, &proposal.certificate),
        Frame::NewView(new_view) => is_cut(config, &new_view.certificate),
        Frame::Block(block) => is_cut(config, &block.certificate),
        _ => true,
    }
}

/// The frame of version 2 that these bytes are behind its mark.
#[tactic(auto, unfolding(crate::specs::Parts::new_frame_in))]
fn new_frame<'a>(config: &Config, bytes: &'a [u8]) -> Option<Frame<'a>>
    ensures taken { option_map frame_of result ≡ new_frame_in config.now bytes.now }
    ensures lent { IfSome result (λ f. IsFrameAt bytes.entry 1 f) }
{
    let frame = old_frame(config, bytes)?;
    if !carries_cut(config, &frame) {
        return None;
    }
    Some(frame)
}

/// Whether the bytes begin with the mark of version 2.
fn is_marked(bytes: &[u8]) -> bool
    ensures { result ≡ is_marked bytes.now }
{
    !bytes.is_empty() && bytes[0] == VERSION_TWO
}

/// The frame that the bytes are, all of them.
#[tactic(auto, unfolding(crate::specs::Parts::frame_in))]
fn whole_frame<'a>(config: &Config, bytes: &'a [u8]) -> Option<Frame<'a>>
    ensures taken { option_map frame_of result ≡ frame_in config.now bytes.now }
    ensures lent { IfSome result (λ f. IsFrameAt bytes.entry (head_len bytes.now) f) }
{
    if is_marked(bytes) {
        return new_frame(config, from(bytes, 1));
    }
    if config.faults() > MOST_FAULTS_OF_VERSION_ONE {
        return None;
    }
    old_frame(config, bytes)
}

/// The version of a frame, which its first byte alone tells: 2 behind the mark of that version, 1 where
/// it begins with a kind. None of any other bytes. It doesn't say that they are a frame.
pub fn version(bytes: &[u8]) -> Option<u8>
    ensures { result ≡ version_of bytes.now }
{
    if is_marked(bytes) {
        return Some(2);
    }
    match Kind::from_number(*bytes.first()?) {
        Some(_) => Some(1),
        None => None,
    }
}

/// The frame that the bytes are, where they are one: of version 2, or, with at most
/// `MOST_FAULTS_OF_VERSION_ONE` faulty replicas, of version 1.
pub fn read<'a>(config: &Config, bytes: &'a [u8]) -> Result<Frame<'a>, NotAFrame>
    // It is the frame that the bytes spell, and where there is none they spell none.
    ensures value { IsReadAs config.now bytes.now (option_map frame_of (result_ok result)) }
    // Its parts lie in the bytes, where they stand.
    ensures lent { IfOk result (λ f. IsFrameAt bytes.entry (head_len bytes.now) f) }
{
    // Both are bytes, so numbers of parties fit their fields.
    let (_replicas, _clients) = (config.n(), config.clients());
    whole_frame(config, bytes).ok_or(NotAFrame)
}
