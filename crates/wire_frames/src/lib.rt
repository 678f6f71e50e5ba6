//! Frames on a wire: each goes as four bytes of its length, big-endian, and its bytes. A length of 0 is a ping. What
//! passes a frame on, with some bytes before it, goes as a frame does.
//!
//! A [`Feed`] takes in what a connection brings, in pieces as they come, and gives its frames one after the other.
//! Nothing here knows a socket.
#![tactic(auto)]

mod feed;
mod item;
mod laws;
mod longest;
mod wire_fault;
mod writing;

pub use feed::Feed;
pub use item::Item;
pub use laws::{
    a_feed_gives_nothing_after_a_refusal, a_feed_gives_what_was_pushed, a_feed_gives_what_was_put,
    a_feed_has_room_for_a_piece, no_frame_is_longer, one_frame_is_as_long,
};
pub use longest::{longest_frame, longest_item};
pub use wire_fault::WireFault;
pub use writing::put;
