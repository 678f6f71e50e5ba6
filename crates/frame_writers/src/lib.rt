//! The writers of frames and of their parts.
//!
//! Each appends the one spelling in version 2 to what was written before, with the room for the whole of it
//! taken first. The one refusal is `Memory`: it comes only where the spare room was too small, and
//! then `out` is as it was. A writer that takes the bytes of a part writes them as they are, and
//! tests nothing: what it writes is a frame where they are.
#![tactic(auto)]

mod begun;
mod big_endian;
mod bounded;
mod frames;
mod parts;

pub use begun::{
    begin_block, begin_fetch, begin_new_view, begin_proposal, begin_reply, begin_request,
    begin_vote,
};
pub use bounded::{Bounded, Payload, ReplyText};
pub use frames::{
    write_block, write_fetch, write_new_view, write_proposal, write_reply_frame,
    write_request_frame, write_vote,
};
pub use parts::{write_certificate, write_certified_vote, write_command, write_core};
