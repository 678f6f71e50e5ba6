//! The words that all crates share: the sizes of a deployment, the numbers of its parties and of what
//! they count, the kinds of frames, the limits, and the one list of refusals.
//!
//! Each newtype is a number that must not be mixed with another one; a contract sees it as that number.
//! No call of this crate takes memory.
#![tactic(auto)]

mod config;
mod digest;
mod fault;
mod kind;
mod limits;
mod line_fault;
mod not_a_frame;
mod numbers;
mod party;

pub use config::Config;
pub use digest::Digest;
pub use fault::Fault;
pub use kind::Kind;
pub use limits::{
    BELOW_HORIZON, HEAD_LEN, HEIGHT_LIMIT, MOST_ASKED, MOST_BLOCKS, MOST_COMMANDS, MOST_DATA,
    MOST_FAULTS_OF_VERSION_ONE, MOST_HELD, MOST_KEY, MOST_KEYS, MOST_LINE, MOST_OF_HEIGHT,
    MOST_PAYLOAD, MOST_PENDING, MOST_REPLICAS, MOST_TEXT, VERSION_TWO,
};
pub use line_fault::LineFault;
pub use not_a_frame::NotAFrame;
pub use numbers::{Height, Place, Seq, View};
pub use party::{ClientId, PartyId, ReplicaId};
