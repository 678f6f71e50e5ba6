//! Frames to one party.

ghost use Rattle.std.specs.Prelude.{◌≡◌, ◌<◌, ◌++◌, IfOk, OnErr};
ghost use Rattle.ids.specs.Sizes.{replicas};
ghost use Rattle.ids.specs.Numbers.{kind_number};
ghost use Rattle.ids.specs.declared.kind.Kind.TheVariants as kind;
ghost use Rattle.definitions.specs.Frames.{frame_text, fetch_content, block_text, spelling};
ghost use Rattle.definitions.specs.Keyrings.{keyring_of, tag_for};
ghost use Rattle.definitions.specs.Checks.{identity_of};
ghost use Rattle.definitions.specs.Sendings.{reply_to};

use crate::signed::{TAG_LEN, signed_for};
use authenticators::ReplicaKeyring;
use frame_writers::{ReplyText, begin_block, begin_fetch, begin_reply};
use ids::{ClientId, Digest, Fault, Kind, Place, ReplicaId, Seq};
use std::alloc::Global;

/// The question to a replica for the block of a digest.
pub fn fetch_frame(
    alloc: Global,
    keyring: &ReplicaKeyring,
    to: ReplicaId,
    block: &Digest,
) -> Result<Vec<u8>, Fault>
    requires other { to < replicas keyring.now.sizes }
    ensures made { IfOk result (λ frame. let content = fetch_content keyring.now.party block.now in
        frame.items
        ≡ frame_text (kind_number kind.Fetch) content
        (tag_for (keyring_of keyring.now) kind.Fetch to content)) }
    ensures memory { OnErr result (result ≡ Err Fault.Memory) }
{
    let mut frame = Vec::new(alloc);
    begin_fetch(keyring.replica(), block, TAG_LEN, &mut frame)?;
    signed_for(keyring.as_keyring(), Kind::Fetch, to.into(), frame)
}

/// A block for a replica that asked for it, of the bytes of its core and of its certificate.
pub fn block_frame<'a>(
    alloc: Global,
    keyring: &ReplicaKeyring,
    to: ReplicaId,
    core: &'a [u8],
    certificate: &'a [u8],
) -> Result<Vec<u8>, Fault>
    requires other { to < replicas keyring.now.sizes }
    ensures made { IfOk result
        (λ frame. let content = block_text keyring.now.party core.now certificate.now in
        frame.items
        ≡ frame_text (kind_number kind.Block) content
        (tag_for (keyring_of keyring.now) kind.Block to content)) }
    ensures memory { OnErr result (result ≡ Err Fault.Memory) }
{
    let mut frame = Vec::new(alloc);
    begin_block(keyring.replica(), core, certificate, TAG_LEN, &mut frame)?;
    signed_for(keyring.as_keyring(), Kind::Block, to.into(), frame)
}

/// The reply to a client's command: its number, its place in the history and what the cache answers.
#[tactic(auto, unfolding(definitions::specs::Sendings::reply_to))]
pub fn reply_frame(
    alloc: Global,
    keyring: &ReplicaKeyring,
    client: ClientId,
    seq: Seq,
    place: Place,
    text: &ReplyText<'_>,
) -> Result<Vec<u8>, Fault>
    requires other { client < keyring.now.sizes.clients }
    ensures made { IfOk result (λ frame. frame.items ≡ spelling (reply_to (identity_of keyring.now)
        (record { client = client; seq = seq; place = place; text = text.now })).1) }
    ensures memory { OnErr result (result ≡ Err Fault.Memory) }
{
    let mut frame = Vec::new(alloc);
    let sender = keyring.replica();
    begin_reply(sender, client, seq, place, text, TAG_LEN, &mut frame)?;
    signed_for(keyring.as_keyring(), Kind::Reply, client.into(), frame)
}
