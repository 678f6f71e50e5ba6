//! Half votes: a liar's own votes, of whose tags one receiver's alone is right.

ghost use Rattle.std.specs.Prelude.{◌≡◌, ◌<◌, ◌^◌, ◌++◌, ◌∷◌, [], length, map, IfOk, IfSome, OnErr};
ghost use Rattle.std.specs.List.{flat_map, range_with_len};
ghost use Rattle.ids.specs.Sizes.{replicas};
ghost use Rattle.definitions.specs.Frames.{certificate_bytes, spelling, vote, vote_bytes};
ghost use Rattle.frames_view.specs.Views.{certificate_of, core_of};
ghost use Rattle.signed_frames.specs.Outs.{sent_of, to_of};
ghost use Rattle.liars.specs.Lies.{half_led, half_proposal, half_proposal_to, half_vector, half_voted};
ghost use Rattle.liars.specs.Lies.{halved, halved_vote, replica_in, IsTold};

use crate::lone::lone;
use crate::plain::one;
use authenticators::ReplicaKeyring;
use frame_writers::{write_certificate, write_certified_vote, write_vote};
use frames_view::{CertificateView, Frame, ProposalView, VoteFrameView, VoteView, read};
use ids::{Config, Digest, Fault, Kind, ReplicaId};
use signed_frames::{Sending, To, proposal_frame};
use std::alloc::{AllocError, Global};

/// Up to which height a half voter leads.
pub(crate) const SOON: u64 = 2;

/// Up to which height a late one does.
pub(crate) const LATE: u64 = 50_000;

/// The tags of the own vote for a block, of which one receiver's alone is right.
fn half_vector(
    alloc: Global,
    keyring: &ReplicaKeyring,
    block: &Digest,
    to: ReplicaId,
) -> Result<Vec<u8>, AllocError>
    requires other { to < replicas keyring.now.sizes }
    ensures made { IfOk result (λ vector. vector.items ≡ half_vector keyring.now block.now to) }
{
    let tag = keyring.as_keyring().tag(Kind::Vote, to.into(), &block.0);
    lone(alloc, keyring.config(), to, &tag)
}

/// Appends a vote of a certificate for a block. The own one is right for one receiver alone.
fn write_halved(
    alloc: Global,
    keyring: &ReplicaKeyring,
    block: &Digest,
    to: ReplicaId,
    vote: &VoteView<'_>,
    out: &mut Vec<u8>,
) -> Result<(), Fault>
    requires other { to < replicas keyring.now.sizes }
    ensures written { IfOk result (λ _. out.new.items
        ≡ out.old.items ++ vote_bytes (halved_vote keyring.now block.now to
        (record { voter = vote.now.voter; vector = vote.now.vector.now }))) }
    ensures memory { OnErr result (result ≡ Err Fault.Memory) }
{
    let voter = vote.voter();
    if voter == keyring.replica() {
        let vector = half_vector(alloc, keyring, block, to)?;
        write_certified_vote(voter, &vector, out)
    } else {
        write_certified_vote(voter, vote.vector(), out)
    }
}

/// Appends the votes of a certificate, the own one right for one receiver alone, and tells how many they are.
fn write_votes(
    alloc: Global,
    keyring: &ReplicaKeyring,
    certificate: &CertificateView<'_>,
    to: ReplicaId,
    out: &mut Vec<u8>,
) -> Result<u8, Fault>
    requires other { to < replicas keyring.now.sizes }
    requires few { length (certificate_of certificate.now).votes < 2 ^ 8 }
    ensures count { IfOk result (λ count. count ≡ length (certificate_of certificate.now).votes) }
    ensures bytes { IfOk result (λ count. out.new.items
        ≡ out.old.items ++ flat_map vote_bytes (halved keyring.now to (certificate_of certificate.now)).votes) }
    ensures memory { OnErr result (result ≡ Err Fault.Memory) }
{
    let block = Digest(*certificate.digest());
    let mut count: u8 = 0;
    for vote in certificate.votes() {
        write_halved(alloc, keyring, &block, to, &vote, out)?;
        count += 1;
    }
    Ok(count)
}

/// A certificate in which the own vote is right for one receiver alone.
fn halved(
    alloc: Global,
    keyring: &ReplicaKeyring,
    certificate: &CertificateView<'_>,
    to: ReplicaId,
) -> Result<Vec<u8>, Fault>
    requires other { to < replicas keyring.now.sizes }
    requires few { length (certificate_of certificate.now).votes < 2 ^ 8 }
    ensures made { IfOk result (λ bytes. bytes.items
        ≡ certificate_bytes (halved keyring.now to (certificate_of certificate.now))) }
    ensures memory { OnErr result (result ≡ Err Fault.Memory) }
{
    let mut votes = Vec::new(alloc);
    let count = write_votes(alloc, keyring, certificate, to, &mut votes)?;
    let mut bytes = Vec::new(alloc);
    write_certificate(&Digest(*certificate.digest()), count, &votes, &mut bytes)?;
    Ok(bytes)
}

/// A proposal with a certificate that is right for one receiver alone.
fn half_proposal(
    alloc: Global,
    keyring: &ReplicaKeyring,
    view: &ProposalView<'_>,
    to: ReplicaId,
) -> Result<Vec<u8>, Fault>
    requires other { to < replicas keyring.now.sizes }
    requires few { length (certificate_of view.now.certificate).votes < 2 ^ 8 }
    ensures made { IfOk result (λ frame. frame.items ≡ spelling (half_proposal keyring.now view.now.view
        (core_of view.now.core) (certificate_of view.now.certificate) to)) }
    ensures memory { OnErr result (result ≡ Err Fault.Memory) }
{
    let certificate = halved(alloc, keyring, &view.certificate(), to)?;
    proposal_frame(alloc, keyring, view.view(), view.core().raw(), &certificate)
}

/// Such a proposal to each replica.
fn half_proposals(
    alloc: Global,
    keyring: &ReplicaKeyring,
    view: &ProposalView<'_>,
) -> Result<Vec<Sending>, Fault>
    requires few { length (certificate_of view.now.certificate).votes < 2 ^ 8 }
    ensures made { IfOk result (λ out. map sent_of out.items
        ≡ map (half_proposal_to keyring.now view.now.view (core_of view.now.core)
        (certificate_of view.now.certificate)) (range_with_len 0 (replicas keyring.now.sizes))) }
    ensures memory { OnErr result (result ≡ Err Fault.Memory) }
{
    let mut out = Vec::new(alloc);
    for number in 0..keyring.config().n() {
        let to = ReplicaId(number);
        let frame = half_proposal(alloc, keyring, view, to)?;
        out.push(Sending {
            to: To::Replica(to),
            kind: Kind::Proposal,
            frame,
        })?;
    }
    Ok(out)
}

/// What a leader of half certificates sends.
pub(crate) fn with_half_certificates(
    alloc: Global,
    keyring: &ReplicaKeyring,
    most: u64,
    sending: Sending,
) -> Result<Vec<Sending>, Fault>
    ensures lies { IfOk result (λ out. IsTold (half_led most keyring.now) keyring.now.sizes (sent_of sending)
        (map sent_of out.items)) }
    ensures memory { OnErr result (result ≡ Err Fault.Memory) }
{
    match read(&keyring.config(), &sending.frame) {
        Ok(Frame::Proposal(view)) if view.core().height().0 <= most => {
            let proposals = half_proposals(alloc, keyring, &view)?;
            Ok(proposals)
        }
        Ok(Frame::Reply(_)) => Ok(one(alloc, sending)?),
        _ => Ok(Vec::new(alloc)),
    }
}

/// The replica to which a frame goes, if it goes to one.
pub(crate) fn replica_of(config: Config, to: To) -> Option<ReplicaId>
    ensures which { result ≡ replica_in config (to_of to) }
    ensures within { IfSome result (λ replica. replica < replicas config) }
{
    match to {
        To::Replica(replica) if replica.0 < config.n() => Some(replica),
        _ => None,
    }
}

/// The own vote for a block, right for one receiver alone.
fn half_vote(
    alloc: Global,
    keyring: &ReplicaKeyring,
    view: &VoteFrameView<'_>,
    to: ReplicaId,
) -> Result<Vec<u8>, Fault>
    requires other { to < replicas keyring.now.sizes }
    ensures made { IfOk result (λ frame. frame.items ≡ spelling (vote view.now.digest.now (record {
      voter = keyring.now.party;
      vector = half_vector keyring.now view.now.digest.now to;
    }))) }
    ensures memory { OnErr result (result ≡ Err Fault.Memory) }
{
    let block = Digest(*view.digest());
    let vector = half_vector(alloc, keyring, &block, to)?;
    let mut frame = Vec::new(alloc);
    write_vote(&block, keyring.replica(), &vector, &mut frame)?;
    Ok(frame)
}

/// What a voter of half votes sends.
pub(crate) fn with_half_votes(
    alloc: Global,
    keyring: &ReplicaKeyring,
    sending: Sending,
) -> Result<Vec<Sending>, Fault>
    ensures lies { IfOk result (λ out. IsTold (half_voted keyring.now) keyring.now.sizes (sent_of sending)
        (map sent_of out.items)) }
    ensures memory { OnErr result (result ≡ Err Fault.Memory) }
{
    let config = keyring.config();
    match read(&config, &sending.frame) {
        Ok(Frame::Proposal(_)) => Ok(Vec::new(alloc)),
        Ok(Frame::Vote(view)) => match replica_of(config, sending.to) {
            Some(to) => {
                let frame = half_vote(alloc, keyring, &view, to)?;
                let (to, kind) = (To::Replica(to), Kind::Vote);
                Ok(one(alloc, Sending { to, kind, frame })?)
            }
            None => Ok(one(alloc, sending)?),
        },
        _ => Ok(one(alloc, sending)?),
    }
}
