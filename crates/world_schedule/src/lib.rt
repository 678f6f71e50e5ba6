//! Worlds: every schedule of events is a run of the definitions.
#![tactic(auto)]

mod client;
mod effect;
mod event;
mod journal;
mod outcome;
mod parties;
mod replica_party;
mod replica_turn;
mod running;
mod sources;
mod way;
mod world;

pub use event::{Event, Source};
pub use outcome::{Accepted, History, Outcome, SentFrame};
pub use running::{Running, run};
pub use world::World;
