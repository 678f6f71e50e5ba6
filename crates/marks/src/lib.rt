//! One word for each replica, which says how far it has executed.
//!
//! The owner of a word puts into it, and anyone reads it. No call takes a lock or waits.
#![tactic(auto)]

mod eye;
mod marks;
mod rule;
mod watcher;

pub use eye::Eye;
pub use marks::Marks;
pub use rule::Sight;
pub use watcher::Watcher;
