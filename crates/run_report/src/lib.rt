//! What is told of a run of a simulated world, line by line.
#![tactic(auto)]

mod report;

pub use report::text_of;
