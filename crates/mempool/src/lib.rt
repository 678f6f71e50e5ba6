//! The pending requests of a replica: what clients asked for and no executed block has answered
//! yet, in order of arrival.
#![tactic(auto)]

mod laws;
mod mempool;
mod pending;
mod request_id;

pub use laws::{
    executed_leave_pending, lead_forgets_pending, pick_is_for_child, request_joins_pending,
};
pub use mempool::Mempool;
pub use pending::Pending;
pub use request_id::RequestId;
