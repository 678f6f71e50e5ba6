//! Frames, read where they lie: a reader of bytes that anyone may have sent.
//!
//! Reading takes no memory: what it gives are views that borrow from the bytes. The writers of
//! frames stand in the crate `frame_writers`, and are passed on from here.
#![tactic(auto)]

mod block;
mod certificate;
mod certificate_buf;
mod command;
mod core_buf;
mod core_fields;
mod core_view;
mod cursor;
mod digest;
mod fetch;
mod frame;
mod frame_views;
mod lists;
mod new_view;
mod proposal;
mod read_frame;
mod reply;
mod views;
mod vote;
mod vote_frame;

pub use certificate_buf::CertificateBuf;
pub use core_buf::CoreBuf;
pub use digest::genesis_digest;
pub use frame::{read, version};
pub use frame_views::{
    BlockView, FetchView, Frame, NewViewView, ProposalView, ReplyView, VoteFrameView,
};
pub use frame_writers::{
    Payload, ReplyText, write_block, write_certificate, write_certified_vote, write_command,
    write_core, write_fetch, write_new_view, write_proposal, write_reply_frame,
    write_request_frame, write_vote,
};
pub use read_frame::ReadFrame;
pub use views::{CertificateView, CommandView, Commands, CoreView, VoteView, Votes};
