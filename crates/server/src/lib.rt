//! A whole deployment in one process: replicas in threads, their clock, and the front that clients
//! connect to.
#![tactic(auto)]

mod doubted;
mod ending;
mod floods;
mod judging;
mod laggards;
mod local;
mod roll;
mod running;
mod views;
mod watching;

pub use ending::{EndAudit, judge_all};
pub use running::{Ended, run};
pub use station::{Liars, Runtime, Terms, Workers};
