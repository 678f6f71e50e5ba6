//! How threads drive the replicas of one process: links between parties, and workers that take
//! frames to replicas.
#![tactic(auto)]

mod ahead;
mod arrived;
mod catching;
mod client_end;
mod client_links;
mod copying;
mod inbox;
mod laws;
mod links;
mod own;
mod own_blocks;
mod parcel;
mod post;
mod questioned;
mod queue;
mod recording;
mod requests;
mod rows;
mod taking;
mod trials;
mod unfounded;
mod waiting;
mod worker;
mod worth;

pub use client_end::{ClientEnd, NotTold};
pub use client_links::ClientLinks;
pub use inbox::Inbox;
pub use laws::link_is_served;
pub use links::{Ends, Links, is_request};
pub use parcel::{Answer, Base, Parcel};
pub use post::{Post, Requests};
pub use questioned::{Copies, CopyUse, Questioned};
pub use recording::Recording;
pub use rows::Sender;
pub use waiting::WaitingRoom;
pub use worker::{Outgoing, Worker};
