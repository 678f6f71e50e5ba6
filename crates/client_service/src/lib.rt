//! The service of one connection: each request goes to all replicas until f + 1 of them have told
//! the same answer.
//!
//! A [`ClientService`] serves one connection at a time with the session of a client of its own,
//! over a [`Link`] to the replicas. It knows nothing of sockets, threads or clocks.
#![tactic(auto)]

mod link;
mod service;

pub use link::Link;
pub use service::ClientService;
