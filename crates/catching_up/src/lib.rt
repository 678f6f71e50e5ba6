//! When a replica that fell behind asks whom for what the others recorded, from which height on. A state machine over
//! plain values, which knows no clock, lock, socket, key or frame.
//!
//! Nothing that a peer says is trusted: what counts is what the replica executed. A peer that gives nothing, gaps, other
//! bytes or old frames costs time, and no more than its turn.
#![tactic(auto)]

mod catching_up;
mod giving;
mod laws;
mod pace;
mod question;
mod ring;
mod told;

pub use catching_up::CatchingUp;
pub use giving::counted_until;
pub use laws::{a_correct_one_told, each_is_asked, each_is_awaited, little_is_given};
pub use pace::Pace;
pub use question::Question;
pub use told::{foremost, is_beyond};
