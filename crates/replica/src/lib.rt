//! One replica as a state machine: what it takes in, and what it sends.
#![tactic(auto)]

mod announce;
mod archived;
mod beat;
mod blocks;
mod branch;
mod change;
mod chronicle;
mod execution;
mod fetch;
mod grounds;
mod lead;
mod offer;
mod pick;
mod prune;
mod replica;
mod request;
mod standing;
mod state;
mod step_log;
mod stored;
mod telling;
mod vote;

pub use admission::Input;
pub use archived::{Archived, Whole};
pub use chronicle::{ChronicleView, CountedVotes, StepView};
pub use replica::Replica;
pub use signed_frames::{Out, Sending, To};
