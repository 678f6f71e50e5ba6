//! One frame's turn at a replica: its tags are checked, and then the replica makes one step, which
//! a share counts.
#![tactic(auto)]

mod frame_turn;
mod gate;
mod gather_turn;
mod offer_turn;
mod prompt;
mod share;
mod steps;

pub use frame_turn::{LinkFrame, turn};
pub use gate::{Gate, Open};
pub use gather_turn::gather;
pub use offer_turn::offer;
pub use prompt::Prompt;
pub use share::Share;
pub use steps::{Steps, UnderLock};
