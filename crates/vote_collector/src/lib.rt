//! The votes of which a replica makes certificates.
//!
//! Of each block each voter's first vote is kept until they are a quorum, which makes a
//! certificate. Votes for blocks at or below the highest certificate's are never needed again, and
//! are dropped.
#![tactic(auto)]

mod added;
mod collector;
mod kept_blocks;
mod kept_vote;
mod kept_votes;
mod laws;

pub use added::Added;
pub use collector::Collector;
pub use kept_vote::KeptVote;
pub use laws::{
    begins_empty, leads_are_followed, none_are_low, other_steps_are_followed, votes_are_followed,
};
