//! The seats of clients at a front: each serves one connection at a time, as one client of the replicas.
#![tactic(auto)]

mod all_seats;
mod client_seat;
mod link;

pub use all_seats::seats;
pub use client_seat::{ClientSeat, seat};
pub use link::ClientLink;
