//! One life for each party, and numbers given once: what a process marks in its state directory before it speaks, and
//! how it begins behind what is marked.
//!
//! A replica that came back without its memory could vote twice at a height, so it marks once that it speaks, and never
//! begins again. A front that came back at number 1 would be given old replies, so it marks numbers before its clients
//! give them, some at once, and begins behind all that are marked.
#![tactic(auto)]

mod asks;
mod directory;
mod keeper;
mod laws;
mod mark;
mod numbers;
mod refusal;

pub use asks::Ask;
pub use directory::Directory;
pub use keeper::Keeper;
pub use laws::{no_number_is_given_twice, who_has_spoken_never_begins_again};
pub use mark::{mark_text, read_mark};
pub use numbers::Numbers;
pub use refusal::Refusal;
