//! Healing that runs: whatever happened in a world, events of correct parties alone bring a waiting client its
//! receipt. Each phase of `recovery`'s `heal` is a function here, and runs before the next one is computed.
#![tactic(auto)]

mod blocks;
mod fetching;
mod heal;
mod healer;
mod leading;
mod requests;
mod views;

pub use heal::{Healed, heal_all};
pub use healer::Healer;
