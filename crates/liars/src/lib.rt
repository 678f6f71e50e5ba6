//! Lies that a replica can be made to tell: what it sends is changed on its way out. For
//! demonstrations and tests.
#![tactic(auto)]

mod answers;
mod any;
mod claims;
mod climb;
mod crowd;
mod half;
mod left_out;
mod lies;
mod lone;
mod low;
mod lying;
mod plain;
mod spoil;

pub use any::for_each_alone;
pub use lies::Lies;
pub use lying::{Liar, Lying};
pub use plain::Lie;
