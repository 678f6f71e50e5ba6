//! Which blocks a replica asks others for: on whose account, when, of whom, and the copies that came. A state
//! machine over plain values, which knows no clock, lock, socket or key.
#![tactic(auto)]

mod ask;
mod block_copy;
mod laws;
mod pace;
mod question;
mod questions;

pub use ask::Ask;
pub use block_copy::BlockCopy;
pub use laws::{others_come_nearer, others_keep_room};
pub use questions::Questions;
