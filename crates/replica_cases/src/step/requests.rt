//! Requests of client 0.

use frames_view::Payload;
use ids::{ClientId, Config, Fault, Seq};
use signed_frames::request_frame;
use simulated_keys::keyring_of;
use std::alloc::Global;

/// The frame of client 0's request of this number, a `get`.
pub(crate) fn request(alloc: Global, config: Config, number: u64) -> Result<Vec<u8>, Fault> {
    let payload = Payload::new(b"get a\r\n").ok_or(Fault::TooLarge)?;
    let ring = keyring_of(alloc, config, ClientId(0).into())?;
    request_frame(alloc, &ring, Seq(number), &payload)
}
