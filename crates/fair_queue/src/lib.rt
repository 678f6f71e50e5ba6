//! A queue of several senders, each with a row of its own: what one sends can't fill what another needs, and
//! each gets its turn.
#![tactic(auto)]

mod allowance;
mod laws;
mod queue;
mod refusal;
mod row;

pub use allowance::Allowance;
pub use laws::others_come_nearer;
pub use queue::FairQueue;
pub use refusal::Refusal;
