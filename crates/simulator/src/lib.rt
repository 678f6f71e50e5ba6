//! The simulator: it reads a schedule, brings frames about as the schedule says, and tells what happened.
#![tactic(auto)]

mod ground_lines;
mod healing;
mod lines;
mod schedule;
mod sim_fault;
mod simulation;
mod words;
mod written;

pub use healing::heal;
pub use lines::Heading;
pub use schedule::{Schedule, parse};
pub use sim_fault::SimFault;
pub use simulation::{keyrings_of, read_fault, simulate, world_of};
