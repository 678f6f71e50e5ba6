//! The frames that are handed in.

ghost use Rattle.std.specs.Prelude.{◌<◌};
ghost use Rattle.ids.specs.Sizes.{replicas};

use anyhow::{Result, bail};
use bytes::Bytes;
use frames_view::{Payload, ReplyText, genesis_digest};
use ids::{ClientId, Config, Digest, Fault, Kind, Place, ReplicaId, Seq, View};
use replica::{Out, Sending, To};
use signed_frames::{
    fetch_frame, new_view_frame, proposal_frame, reply_frame, request_frame, vote_frame,
};
use simulated_keys::{keyring_of, replica_keyring_of};
use std::alloc::Global;

/// The bytes of replica 2's question of this number, for a block that isn't there.
fn question_bytes(alloc: Global, config: Config, to: ReplicaId, number: u16) -> Result<Vec<u8>>
    requires { to < replicas config }
{
    let keyring = replica_keyring_of(alloc, config, ReplicaId(2))?;
    let [high, low] = number.to_be_bytes();
    let mut digest = [0xaa; 32];
    digest[0] = high;
    digest[1] = low;
    Ok(fetch_frame(alloc, &keyring, to, &Digest(digest))?)
}

/// Replica 2's question of this number.
pub(crate) fn question(alloc: Global, config: Config, to: ReplicaId, number: u16) -> Result<Bytes>
    requires { to < replicas config }
{
    Ok(Bytes::from_vec(question_bytes(alloc, config, to, number)?)?)
}

/// A question to replica 0 with a spoilt tag.
pub(crate) fn spoilt(alloc: Global, config: Config) -> Result<Bytes> {
    let mut bytes = question_bytes(alloc, config, ReplicaId(0), 3)?;
    if let Some(last) = bytes.last_mut() {
        *last ^= 1;
    }
    Ok(Bytes::from_vec(bytes)?)
}

/// The bytes of genesis's certificate: its digest, and no votes.
fn genesis_certificate() -> [u8; 33] {
    let mut certificate = [0; 33];
    certificate[..32].copy_from_slice(&genesis_digest().0);
    certificate
}

/// The bytes of the first proposal of replica 0: a block of height 1 without commands, on genesis and with its
/// certificate.
pub(crate) fn proposal_bytes(alloc: Global, config: Config) -> Result<Vec<u8>> {
    let keyring = replica_keyring_of(alloc, config, ReplicaId(0))?;
    let mut core = [0; 49];
    core[..32].copy_from_slice(&genesis_digest().0);
    core[39] = 1;
    let certificate = genesis_certificate();
    Ok(proposal_frame(alloc, &keyring, View(0), &core, &certificate)?)
}

/// The first proposal of replica 0.
pub(crate) fn proposal(alloc: Global, config: Config) -> Result<Bytes> {
    Ok(Bytes::from_vec(proposal_bytes(alloc, config)?)?)
}

/// The bytes of a replica's vote for a block.
pub(crate) fn vote(
    alloc: Global,
    config: Config,
    voter: ReplicaId,
    block: &Digest,
) -> Result<Vec<u8>> {
    let keyring = replica_keyring_of(alloc, config, voter)?;
    Ok(vote_frame(alloc, &keyring, block)?)
}

/// Client 0's request of this number: it sets an item.
pub(crate) fn set(alloc: Global, config: Config, number: u64) -> Result<Bytes> {
    let Some(payload) = Payload::new(b"set a 0 0 1\r\nx\r\n") else {
        bail!("no payload of a request");
    };
    let keyring = keyring_of(alloc, config, ClientId(0).into())?;
    let frame = request_frame(alloc, &keyring, Seq(number), &payload)?;
    Ok(Bytes::from_vec(frame)?)
}

/// Adds a frame that goes out.
fn add(out: &mut Out, to: To, kind: Kind, frame: Result<Vec<u8>, Fault>) -> Result<(), Fault> {
    let frame = frame?;
    Ok(out.push(Sending { to, kind, frame })?)
}

/// What replica 1 sends at once: its view to all, a vote for genesis to replica 2, and a reply to each client.
pub(crate) fn answers(alloc: Global, config: Config) -> Result<Out> {
    let keyring = replica_keyring_of(alloc, config, ReplicaId(1))?;
    let Some(text) = ReplyText::new(b"STORED\r\n") else {
        bail!("no text of a reply");
    };
    let mut answers = Out::none(alloc);
    let announcement = new_view_frame(alloc, &keyring, View(1), &genesis_certificate());
    add(&mut answers, To::All, Kind::NewView, announcement)?;
    let vote = vote_frame(alloc, &keyring, &genesis_digest());
    add(&mut answers, To::Replica(ReplicaId(2)), Kind::Vote, vote)?;
    for number in 0..config.clients() {
        let client = ClientId(number);
        let reply = reply_frame(alloc, &keyring, client, Seq(1), Place(1), &text);
        add(&mut answers, To::Client(client), Kind::Reply, reply)?;
    }
    Ok(answers)
}
