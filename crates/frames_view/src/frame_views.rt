//! Frames, as they lie in the bytes that they were read from.

ghost use Rattle.std.specs.Prelude.{◌≡◌};
ghost use Rattle.definitions.specs.Frames.{proposal_content, new_view_content, reply_content};
ghost use Rattle.definitions.specs.Frames.{fetch_content, block_content};
ghost use Rattle.frames_view.specs.PartViews.{core_of, certificate_of};

use crate::views::{CertificateView, CommandView, CoreView, VoteView};

/// A leader's block for a view, with the certificate that it rests on and a tag for each replica.
#[derive(Clone, Copy)]
pub struct ProposalView<'a> {
    pub(crate) content: &'a [u8],
    pub(crate) view: u64,
    pub(crate) core: CoreView<'a>,
    pub(crate) certificate: CertificateView<'a>,
    pub(crate) vector: &'a [u8],
    ghost spelled: { content.now ≡ proposal_content view (core_of core) (certificate_of certificate) },
}

/// A replica's vote for the block of a digest.
#[derive(Clone, Copy)]
pub struct VoteFrameView<'a> {
    pub(crate) digest: &'a [u8; 32],
    pub(crate) vote: VoteView<'a>,
}

/// A replica's announcement of its view, with its highest certificate and a tag for each replica.
#[derive(Clone, Copy)]
pub struct NewViewView<'a> {
    pub(crate) content: &'a [u8],
    pub(crate) view: u64,
    pub(crate) sender: u8,
    pub(crate) certificate: CertificateView<'a>,
    pub(crate) vector: &'a [u8],
    ghost spelled: { content.now ≡ new_view_content view sender (certificate_of certificate) },
}

/// A replica's reply to a client's command, and the command's place in the history.
#[derive(Clone, Copy)]
pub struct ReplyView<'a> {
    pub(crate) content: &'a [u8],
    pub(crate) replica: u8,
    pub(crate) client: u8,
    pub(crate) seq: u64,
    pub(crate) place: u64,
    pub(crate) text: &'a [u8],
    pub(crate) tag: &'a [u8; 32],
    ghost spelled: { content.now ≡ reply_content replica client seq place text.now },
}

/// A replica's question for the block of a digest.
#[derive(Clone, Copy)]
pub struct FetchView<'a> {
    pub(crate) content: &'a [u8],
    pub(crate) sender: u8,
    pub(crate) digest: &'a [u8; 32],
    pub(crate) tag: &'a [u8; 32],
    ghost spelled: { content.now ≡ fetch_content sender digest.now },
}

/// A block that was asked for, with a certificate for it.
#[derive(Clone, Copy)]
pub struct BlockView<'a> {
    pub(crate) content: &'a [u8],
    pub(crate) sender: u8,
    pub(crate) core: CoreView<'a>,
    pub(crate) certificate: CertificateView<'a>,
    pub(crate) tag: &'a [u8; 32],
    ghost spelled: { content.now ≡ block_content sender (core_of core) (certificate_of certificate) },
}

/// A frame, as it lies in the bytes that it was read from.
#[derive(Clone, Copy)]
pub enum Frame<'a> {
    /// A client's command, to all replicas.
    Request(CommandView<'a>),
    /// A leader's block.
    Proposal(ProposalView<'a>),
    /// A replica's vote, to the leader.
    Vote(VoteFrameView<'a>),
    /// A replica's announcement of its view.
    NewView(NewViewView<'a>),
    /// A replica's reply to a command.
    Reply(ReplyView<'a>),
    /// A question for a block.
    Fetch(FetchView<'a>),
    /// A block that was asked for.
    Block(BlockView<'a>),
}
