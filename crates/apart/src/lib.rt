//! Replicas and fronts as processes of their own, over wires.
//!
//! A replica's process has one station; a front's process has the seats of its clients. What replicas and clients say goes out
//! by wires, each frame as it is; what edges tell each other beside frames goes as `letters` has it. A process marks in its
//! state directory before it speaks (`state_marks`).
#![tactic(auto)]

mod attending;
mod front_desk;
mod front_process;
mod fronts;
mod holding;
mod numbering;
mod peers;
mod pending;
mod refusal;
mod replica_process;
mod replica_rows;
mod replies;
mod telling;
mod wire_post;
mod wire_requests;

pub use attending::ask;
pub use front_process::{FrontTerms, run_front};
pub use fronts::holder_of_front;
pub use refusal::Refusal;
pub use replica_process::{ReplicaTerms, run_replica};
