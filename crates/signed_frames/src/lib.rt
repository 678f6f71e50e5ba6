//! A party's own frames, with its tags: a replica's votes, proposals, announcements of its view,
//! questions for blocks, blocks and replies, and a client's requests; and where they go.
//!
//! Each is made of the bytes of its parts, in one `Vec` of its own. The one refusal is `Memory`.
#![tactic(auto)]

mod out;
mod signed;
mod to_all;
mod to_one;
mod worker_keyring;

pub use out::{Out, Sending, To};
pub use to_all::{new_view_frame, proposal_frame, request_frame, vote_frame};
pub use to_one::{block_frame, fetch_frame, reply_frame};
pub use worker_keyring::WorkerKeyring;
