//! The tree of blocks that a replica keeps: blocks on branches that begin at genesis, each with its
//! certificate and a mark whether its commands' tags were found right.
//!
//! Blocks are named by their digests. Only an insertion takes memory.
#![tactic(auto)]

mod counts;
mod descend;
mod forest;
mod index;
mod insert;
mod links;
mod node;
mod place;
mod prune;
mod queries;
mod told;
mod tree;
mod turns;
mod walks;

pub use insert::Plan;
pub use node::Node;
pub use place::Place;
pub use tree::Tree;
pub use turns::Turns;
