//! Window files: what a replica's window shows of its executed blocks, as a text, and the judgement of several.
//!
//! Each line ends with LF, has one space between fields, and numbers in decimal:
//!
//! - `faults F`, `clients C` and `keys-held N`: the sizes, as a deployment file has them.
//! - `window R`: which replica's window it is.
//! - `executed H`: the height of its last executed block.
//! - `from L`: the lowest height that it shows, 1 where there is no block yet. Genesis, at height 0, isn't told.
//! - for each height from L to H the digest of the block, 64 hexadecimal digits in lower case.
#![tactic(auto)]

mod head;
mod judging;
mod laws;
mod own;
mod reading;
mod window;
mod writing;

pub use deployment::Refusal;
pub use head::Head;
pub use judging::judge;
pub use laws::a_file_is_of_one_window;
pub use window::Window;
