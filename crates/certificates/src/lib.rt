//! Checks of the tags of frames that were read, and a type that keeps what was found.
//!
//! A frame is checked by its receiver, a replica, under its own keyring: the frame's own tag has to
//! verify, and a certificate in it has to be good. No check takes memory. A certificate is passed on
//! with the first quorum of its votes that verify, and with no others.
#![tactic(auto)]

mod certificate;
mod check;
mod checked;
mod claims;
mod commands;
mod copies;
mod cut;
mod frames;
mod row;

pub use certificate::{check_cert, counted_voters};
pub use check::check_tag;
pub use checked::{Authenticated, CarriesBlock, Certified, Checked, Tagged};
pub use copies::Copies;
pub use cut::{CutVotes, cut_bytes};
pub use frames::{
    check_block, check_fetch, check_new_view, check_proposal, check_request, check_vote,
};
pub use row::ReplicaRow;
