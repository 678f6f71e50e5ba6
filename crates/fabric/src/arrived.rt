//! A frame that came to a replica, read once.

use crate::waiting::Carried;
use bytes::Bytes;
use frames_view::{Frame, ReadFrame};
use ids::{ClientId, Config, Digest, Height, ReplicaId, Seq, View};
use turns::LinkFrame;

/// A frame that came to a replica, or that it kept: read once for all that a worker asks of it.
#[derive(Drop)]
pub(crate) struct Arrived<'b> {
    pub(crate) bytes: &'b Bytes,
    pub(crate) frame: LinkFrame<'b>,
}

impl<'b> Arrived<'b> {
    /// The frame of this number that the bytes are. None where they are none.
    pub(crate) fn new(config: &Config, number: u64, bytes: &'b Bytes) -> Option<Arrived<'b>> {
        match ReadFrame::new(config, bytes.as_slice()) {
            Ok(read) => Some(Arrived {
                bytes,
                frame: LinkFrame { number, read },
            }),
            Err(_) => None,
        }
    }

    /// The frame.
    pub(crate) fn frame(&self) -> &Frame<'b> {
        self.frame.read.frame()
    }

    /// What it carries to its receiver's tree.
    pub(crate) fn carried(&self) -> Carried {
        Carried::of(self.frame())
    }

    /// The height of the block that it brings; 0 where it brings none.
    pub(crate) fn height(&self) -> Height {
        match self.frame() {
            Frame::Proposal(proposal) => proposal.core().height(),
            Frame::Block(block) => block.core().height(),
            _ => Height(0),
        }
    }

    /// The view that it proposes in, if it is a proposal.
    pub(crate) fn proposed_in(&self) -> Option<View> {
        match self.frame() {
            Frame::Proposal(proposal) => Some(proposal.view()),
            _ => None,
        }
    }

    /// Whose request it is, and its number, if it is one.
    pub(crate) fn request(&self) -> Option<(ClientId, Seq)> {
        match self.frame() {
            Frame::Request(command) => Some((command.client(), command.seq())),
            _ => None,
        }
    }

    /// Who asks by it, and for which block, if it is a question.
    pub(crate) fn question(&self) -> Option<(ReplicaId, Digest)> {
        match self.frame() {
            Frame::Fetch(question) => Some((question.sender(), Digest(*question.digest()))),
            _ => None,
        }
    }
}
