//! Lists that exist in proofs alone: what a value once was, for ever and without memory.
#![tactic(auto)]

mod list;

pub use list::{GhostList, Tells};
