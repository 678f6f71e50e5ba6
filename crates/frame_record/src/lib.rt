//! What a replica took, for who fell behind: frames that brought blocks, in order of height, for a bounded cost; and the newest
//! announcement of each replica. It knows no clock, lock, thread or socket, and not what a frame is.
#![tactic(auto)]

mod announcements;
mod batch;
mod frame_record;
mod laws;
mod ordered;
mod recorded;
mod refusal;

pub use announcements::{Announced, Announcements};
pub use batch::Batch;
pub use frame_record::FrameRecord;
pub use laws::{a_batch_is_a_beginning, the_newest_stay};
pub use recorded::Recorded;
pub use refusal::Refusal;
