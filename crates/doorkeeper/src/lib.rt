//! Who comes in to a replica: of each height few blocks on each replica's account, so that faulty replicas
//! can't fill a height, and end the service.
#![tactic(auto)]

mod brought;
mod climb;
mod door;
mod laws;
mod row;

pub use brought::{Brought, brings};
pub use climb::climbs_too_far;
pub use door::Doorkeeper;
pub use laws::{
    few_of_a_height, few_pass, leaders_pass, most_of_a_height, never_crowded, none_crowded_out,
    others_do_not_count,
};
