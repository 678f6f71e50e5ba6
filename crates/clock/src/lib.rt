//! When a replica is to propose, and when its view has lasted too long.
//!
//! [`Watch`] decides from what is seen of a replica each time that it is looked at; it knows no
//! clock. [`keep_time`] looks at one again and again, and hands in what is due.
#![tactic(auto)]

mod forerunner;
mod forgetting;
mod keeping;
mod laws;
mod trouble;
mod watch;

pub use forerunner::Forerunner;
pub use forgetting::{Keep, lacks_next, prune_at};
pub use keeping::{Watched, keep_time};
pub use laws::{
    commands_are_owed, proposals_may_wait, silences_end, slower_ones_are_helped,
    the_window_is_kept, timeouts_are_earned, timeouts_are_given, what_is_kept_is_within,
};
pub use trouble::Trouble;
pub use watch::{Due, LeadFrom, Pulse, Watch};
