//! One replica of a running deployment: what lies under its lock, its workers and its clock, over whatever carries what it
//! says.
#![tactic(auto)]

mod beside;
mod building;
mod comeback;
mod doubts;
mod forerunners;
mod given;
mod guarded;
mod left_out;
mod lying;
mod outside;
mod passed_over;
mod recorder;
mod runtime;
mod sights;
mod station;
mod supplied;
mod terms;
mod timed;
mod trouble;
mod ways;
mod worker;
mod working;

pub use building::{build_station, stations};
pub use runtime::Runtime;
pub use sights::Sights;
pub use station::{Looking, Progress, Station};
pub use terms::{Liars, Terms, Workers};
pub use timed::watch;
pub use ways::Seen;
pub use worker::WorkerStart;
pub use working::run_worker;
