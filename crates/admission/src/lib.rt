//! What the bytes of a frame bring to a replica.
#![tactic(auto)]

mod admitting;
mod gathering;
mod input;
mod lacking;
mod offering;

pub use admitting::{admit, admit_read};
pub use gathering::admit_copies;
pub use input::Input;
pub use lacking::{missing, missing_of};
pub use offering::{admit_offer, admit_offer_read};
