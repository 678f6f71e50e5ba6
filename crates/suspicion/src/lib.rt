//! Whom a replica believes, and how far: whose requests it lets in where it leads, whose votes it does without, and what is wrong
//! with a certificate that it refuses. Rules alone, without threads.
#![tactic(auto)]

mod doubts;
mod passing;
mod replica_set;
mod suspects;
mod vouchers;

pub use doubts::{Doubt, doubt_in};
pub use passing::Passing;
pub use replica_set::ReplicaSet;
pub use suspects::Suspects;
pub use vouchers::are_enough;
