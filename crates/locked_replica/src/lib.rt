//! A replica that several threads step, each with a share of its own that counts the steps it made.
//!
//! `Kept` is what stands under the lock. It answers only with a step of the replica or a refusal
//! that changes nothing, puts into the marks how far the replica has executed, and gives it back
//! for all its shares alone. No call here starts a thread or waits.
#![tactic(auto)]

mod closed;
mod kept;
mod once;
mod under_lock;

pub use closed::{Closed, NotAll};
pub use kept::{Kept, Locked};
pub use turns::Share;
