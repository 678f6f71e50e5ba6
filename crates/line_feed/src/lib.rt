//! Takes in what a connection brings, in pieces as they come, and gives its items one after the other.
//!
//! A [`Feed`] takes all its memory when it is made, and copies each byte once when it comes. What
//! it gives is lent from its buffer.
#![tactic(auto)]

mod feed;
mod item;
mod laws;

pub use feed::Feed;
pub use item::Item;
pub use laws::{a_feed_gives_the_end_again, a_feed_gives_what_was_pushed};
