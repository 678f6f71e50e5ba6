//! A replica's reply.

use anyhow::{Result, bail};
use frame_writers::ReplyText;
use ids::{ClientId, Config, Place, ReplicaId, Seq};
use signed_frames::reply_frame;
use simulated_keys::replica_keyring_of;
use std::alloc::Global;

/// The bytes of the reply of these fields: whose request it was, its number, its place and the text.
pub(crate) fn reply(alloc: Global, config: Config, replica: u8, rest: &str) -> Result<String> {
    let mut fields = rest.splitn(4, ' ');
    let client: u8 = fields.next().unwrap_or("").parse()?;
    let seq: u64 = fields.next().unwrap_or("").parse()?;
    let place: u64 = fields.next().unwrap_or("").parse()?;
    let text = hex::decode(alloc, fields.next().unwrap_or(""))?;
    let Some(text) = ReplyText::new(text.as_slice()) else {
        bail!("too long a text");
    };
    if replica >= config.n() || client >= config.clients() {
        bail!("no such party");
    }
    let ring = replica_keyring_of(alloc, config, ReplicaId(replica))?;
    let frame = reply_frame(
        alloc,
        &ring,
        ClientId(client),
        Seq(seq),
        Place(place),
        &text,
    )?;
    Ok(hex::encode(alloc, &frame)?)
}
