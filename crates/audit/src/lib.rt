//! The audit of kept replicas: whether their histories agree, and where they fork a reason that can be
//! checked by itself. It trusts no replica that isn't handed in, takes no memory, and looks at no tag.
#![tactic(auto)]

mod chronicles;
mod collisions;
mod cores;
mod deeds;
mod enough;
mod fronts;
mod histories;
mod judging;
mod members;
mod unbacked;
mod verdict;
mod windows;

pub use judging::{check_reason, judge};
pub use verdict::{CorePlace, Reason, Verdict, WindowVerdict};
pub use windows::judge_windows;
