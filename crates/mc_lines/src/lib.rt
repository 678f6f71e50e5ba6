//! Requests and replies of memcached's text protocol, and their texts (protocol.txt).
//!
//! `read_request` reads what a connection brings, from any sender: eleven commands (set, add,
//! replace, append, prepend, cas, get, gets, delete, incr, decr) and quit. It takes no memory,
//! looks at no more than a line of 4,096 bytes and the data behind it, and lends what it reads from
//! its input. The time of expiry is always 0.
#![tactic(auto)]

mod canonical;
mod decimal;
mod fields;
mod keys;
mod line;
mod number;
mod read;
mod reply;
mod request;
mod write;

pub use canonical::{CanonicalText, MOST_CANONICAL};
pub use ids::LineFault;
pub use keys::{KeyIter, Keys};
pub use number::read_number;
pub use read::{Read, read_canonical, read_request};
pub use reply::{Reply, Value, fault_text};
pub use request::{Request, Verb};
pub use write::{write_reply, write_request};
