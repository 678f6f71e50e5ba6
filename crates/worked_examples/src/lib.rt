//! Worked examples of the definitions, and laws that readers and writers rest on, each the contract of a
//! function with an empty body: what stands here was computed or proved by the check, and runs no code.
#![tactic(auto)]

pub mod cache;
pub mod chains;
pub mod frames;
pub mod grounds;
pub mod histories;
pub mod lines;
pub mod pruning;
pub mod replicas;
pub mod runs;
pub mod tags;
pub mod views;
pub mod windows;
