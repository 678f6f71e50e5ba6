//! The front of a server: it accepts TCP connections and serves each in a thread of its own, with a
//! seat of its own.
#![tactic(auto)]

mod accepting;
mod attending;
mod line;
mod seats;
mod slot;

pub use accepting::{Closer, front};
pub use seats::{Seat, Seats};
