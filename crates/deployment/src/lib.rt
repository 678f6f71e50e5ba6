//! The deployment file: what all processes of a deployment know of it, the same text for all, without a secret.
//!
//! Each line ends with LF, has one space between fields, and numbers in decimal:
//!
//! - `faults F`, `clients C` and `keys-held N`: the sizes.
//! - `replica I ADDRESS` for each replica from 0 on: where it is reached.
//! - `front K COUNT` for each front from 0 on: how many clients it has. They take the clients in order, all of them.
#![tactic(auto)]

mod deployment;
mod fields;
mod fronts;
mod laws;
mod refusal;
mod replicas;
mod sizes;

pub use deployment::Deployment;
pub use fields::number_at;
pub use laws::a_file_is_of_one_deployment;
pub use refusal::Refusal;
pub use sizes::read_sizes;
