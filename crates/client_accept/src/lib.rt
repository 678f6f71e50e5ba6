//! A client's session: the requests that it numbers and sends, and the replies that it accepts.
#![tactic(auto)]

mod answers;
mod receipt;
mod session;
mod tally;

pub use receipt::Receipt;
pub use session::Session;
