//! Certificates that a replica doubts: who leads made them, and they aren't right for it.

ghost use Rattle.std.specs.Prelude.{◌≡◌, ◌<◌, ℕ, IfSome, false, true};
ghost use Rattle.definitions.specs.Admission.{own_tag_verifies};
ghost use Rattle.definitions.specs.Checks.{identity_of, is_good, vote_verifies};
ghost use Rattle.definitions.specs.FrameLimits.{IsCertificate, IsFrame, IsVote};
ghost use Rattle.frames_view.specs.Views.{certificate_of, proposal_of, vote_of};
ghost use Rattle.suspicion.specs.ReplicaSets.{is_in};
ghost use Rattle.ids.specs.declared.limits.TheConstants.{MOST_REPLICAS};
ghost use Rattle.suspicion.specs.Doubting.{IsDoubt, IsDoubtIn, is_wrong};

use crate::replica_set::ReplicaSet;
use authenticators::VerifyingKeyring;
use certificates::check_cert;
use frames_view::{CertificateView, Frame, ProposalView, VoteView, read};
use ids::{Kind, MOST_REPLICAS, PartyId, ReplicaId};
use std::fmt;

/// What was found of a frame whose own tag is right for a replica, and whose certificate has votes that aren't.
#[derive(Clone, Copy)]
pub struct Doubt {
    /// Who sent it.
    pub sender: ReplicaId,
    /// Whose votes aren't right.
    pub wrong: ReplicaSet,
}

/// Numbers of replicas in a row.
impl fmt::Display for Doubt {
    fn fmt<W: fmt::Write>(&self, f: &mut fmt::Formatter<W>) -> fmt::Result {
        for number in 0..MOST_REPLICAS as u8 {
            if self.wrong.has(ReplicaId(number)) {
                write!(f, " {number}")?;
            }
        }
        Ok(())
    }
}

/// Whether a proposal's own tag is right.
fn is_tagged(keyring: &VerifyingKeyring, view: &ProposalView<'_>) -> bool
    requires { IsFrame keyring.now.sizes (proposal_of view.now) }
    ensures { result ≡ own_tag_verifies (identity_of keyring.now) (proposal_of view.now) }
{
    let sender = keyring.config().leader(view.view()).into();
    let tag = view.tag(keyring.replica());
    keyring.verify(Kind::Proposal, sender, view.content(), tag)
}

/// Whether a vote for the block of a digest is right.
fn vote_is_right(keyring: &VerifyingKeyring, digest: &[u8; 32], vote: &VoteView<'_>) -> bool
    requires { IsVote keyring.now.sizes (vote_of vote.now) }
    ensures { result ≡ vote_verifies (identity_of keyring.now) digest.now (vote_of vote.now) }
{
    let tag = vote.tag(keyring.replica());
    keyring.verify(Kind::Vote, PartyId::from(vote.voter()), digest, tag)
}

/// Whose votes in a certificate aren't right for a replica.
fn wrong_votes(keyring: &VerifyingKeyring, certificate: &CertificateView<'_>) -> ReplicaSet
    requires { IsCertificate keyring.now.sizes (certificate_of certificate.now) }
    ensures { (voter : ℕ) → voter < MOST_REPLICAS
        → is_in result voter ≡ is_wrong keyring.now (certificate_of certificate.now) voter }
{
    let mut wrong = ReplicaSet::none();
    for vote in certificate.votes() {
        if !vote_is_right(keyring, certificate.digest(), &vote) {
            wrong.add(vote.voter());
        }
    }
    wrong
}

/// What is found of a proposal, where its own tag is right and some vote in its certificate isn't.
fn doubt_of(keyring: &VerifyingKeyring, view: &ProposalView<'_>) -> Option<Doubt>
    requires { IsFrame keyring.now.sizes (proposal_of view.now) }
    ensures { IfSome result (λ doubt. IsDoubt keyring.now (proposal_of view.now) doubt) }
{
    let certificate = view.certificate();
    if !is_tagged(keyring, view) || check_cert(keyring, &keyring.config(), &certificate).is_ok() {
        return None;
    }
    let wrong = wrong_votes(keyring, &certificate);
    if wrong.len() == 0 {
        return None;
    }
    let sender = keyring.config().leader(view.view());
    Some(Doubt { sender, wrong })
}

/// What is found of a frame, if it is a proposal whose own tag is right for a replica, and some vote in its certificate isn't. A
/// certificate that lacks votes, as of a leader that begins anew, isn't doubted.
pub fn doubt_in(keyring: &VerifyingKeyring, bytes: &[u8]) -> Option<Doubt>
    ensures { IfSome result (λ doubt. IsDoubtIn keyring.now bytes.now doubt) }
{
    match read(&keyring.config(), bytes) {
        Ok(Frame::Proposal(view)) => doubt_of(keyring, &view),
        _ => None,
    }
}
