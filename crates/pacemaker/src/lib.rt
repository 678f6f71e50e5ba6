//! Which view a replica is in.
//!
//! A timeout moves a replica on by one view, and f + 1 replicas that have announced or passed a
//! greater view take it along: at least one of them is correct. The pacemaker is this project's own
//! (HotStuff, PODC 2019, leaves it open). It takes no memory.
#![tactic(auto)]

mod laws;
mod pacemaker;

pub use laws::other_steps_keep_the_pace;
pub use pacemaker::Pacemaker;
