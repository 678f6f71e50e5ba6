//! Frames to all replicas, and votes, whose tags are for all.

ghost use Rattle.std.specs.Prelude.{◌≡◌, IfOk, OnErr, IsTrue};
ghost use Rattle.ids.specs.Numbers.{kind_number};
ghost use Rattle.ids.specs.declared.kind.Kind.TheVariants as kind;
ghost use Rattle.definitions.specs.Frames.{vote, frame_text, proposal_text, new_view_text, spelling};
ghost use Rattle.definitions.specs.Keyrings.{keyring_of, vector_for, is_client_of, client_at};
ghost use Rattle.definitions.specs.Sessions.{request_frame};
ghost use Rattle.signed_frames.specs.Clients.{client_of};

use crate::signed::{signed_for_all, vector_len};
use authenticators::{Keyring, ReplicaKeyring};
use frame_writers::{Payload, begin_new_view, begin_proposal, begin_request, begin_vote};
use ids::{ClientId, Digest, Fault, Kind, Seq, View};
use std::alloc::Global;

/// The vote for a block. Its tags speak of the block's digest alone, so that they stand in a
/// certificate as they are.
pub fn vote_frame(alloc: Global, keyring: &ReplicaKeyring, block: &Digest) -> Result<Vec<u8>, Fault>
    ensures made { IfOk result (λ frame. frame.items
        ≡ spelling (vote block.now (record {
          voter = keyring.now.party;
          vector = vector_for keyring.now.sizes (keyring_of keyring.now) kind.Vote block.now;
        }))) }
    ensures memory { OnErr result (result ≡ Err Fault.Memory) }
{
    let mut frame = Vec::new(alloc);
    let keys = keyring.as_keyring();
    begin_vote(block, keyring.replica(), vector_len(keys), &mut frame)?;
    keys.vector(Kind::Vote, &block.0, &mut frame)?;
    Ok(frame)
}

/// The proposal of a block for a view, of the bytes of its core and of the certificate that goes along.
pub fn proposal_frame<'a>(
    alloc: Global,
    keyring: &ReplicaKeyring,
    view: View,
    core: &'a [u8],
    certificate: &'a [u8],
) -> Result<Vec<u8>, Fault>
    ensures made { IfOk result (λ frame. let content = proposal_text view core.now certificate.now in
        frame.items
        ≡ frame_text (kind_number kind.Proposal) content
        (vector_for keyring.now.sizes (keyring_of keyring.now) kind.Proposal content)) }
    ensures memory { OnErr result (result ≡ Err Fault.Memory) }
{
    let mut frame = Vec::new(alloc);
    let keys = keyring.as_keyring();
    begin_proposal(view, core, certificate, vector_len(keys), &mut frame)?;
    signed_for_all(alloc, keys, Kind::Proposal, frame)
}

/// The announcement of a view, of the bytes of the highest certificate.
pub fn new_view_frame(
    alloc: Global,
    keyring: &ReplicaKeyring,
    view: View,
    certificate: &[u8],
) -> Result<Vec<u8>, Fault>
    ensures made { IfOk result (λ frame. let content = new_view_text view keyring.now.party certificate.now in
        frame.items
        ≡ frame_text (kind_number kind.NewView) content
        (vector_for keyring.now.sizes (keyring_of keyring.now) kind.NewView content)) }
    ensures memory { OnErr result (result ≡ Err Fault.Memory) }
{
    let mut frame = Vec::new(alloc);
    let keys = keyring.as_keyring();
    let sender = keyring.replica();
    begin_new_view(view, sender, certificate, vector_len(keys), &mut frame)?;
    signed_for_all(alloc, keys, Kind::NewView, frame)
}

/// The client whose keys these are.
fn client_of(keyring: &Keyring) -> ClientId
    requires { IsTrue (is_client_of keyring.now.sizes keyring.now.party) }
    ensures { result ≡ client_at keyring.now.party }
{
    // For the proof: there are few clients.
    let _most = keyring.config().clients();
    ClientId(keyring.party().client().unwrap() as u8)
}

/// A client's request of this number: the payload is the canonical text of a request of the cache.
#[tactic(auto, unfolding(definitions::specs::Sessions::request_frame))]
pub fn request_frame(
    alloc: Global,
    keyring: &Keyring,
    seq: Seq,
    payload: &Payload<'_>,
) -> Result<Vec<u8>, Fault>
    requires { IsTrue (is_client_of keyring.now.sizes keyring.now.party) }
    ensures made { IfOk result
        (λ frame. frame.items ≡ spelling (request_frame (client_of keyring.now) seq payload.now)) }
    ensures memory { OnErr result (result ≡ Err Fault.Memory) }
{
    let mut frame = Vec::new(alloc);
    begin_request(
        client_of(keyring),
        seq,
        payload,
        vector_len(keyring),
        &mut frame,
    )?;
    signed_for_all(alloc, keyring, Kind::Request, frame)
}
