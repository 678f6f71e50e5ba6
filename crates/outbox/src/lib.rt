//! The frames that wait for one peer: in order, for a bounded cost. Putting one never waits; what doesn't fit is lost
//! and counted. It knows no clock, lock, thread or socket.
#![tactic(auto)]

mod batch;
mod laws;
mod outbox;
mod refusal;

pub use laws::{
    an_outbox_counts_what_is_lost, an_outbox_gives_what_was_kept, an_outbox_stays_within_its_bound,
};
pub use outbox::Outbox;
pub use refusal::Refusal;
