//! Certificates as they are passed on.

ghost use Rattle.std.specs.Prelude.{◌≡◌, ◌<◌, ◌+◌, ◌*◌, ◌^◌, ◌++◌, ◌∷◌, [], length, IfSome, IfNone, IfOk, OnErr};
ghost use Rattle.ids.specs.Sizes.{quorum, replicas};
ghost use Rattle.std.specs.List.{AllByRecursion, flat_map};
ghost use Rattle.definitions.specs.Frames.{vote_bytes, certificate_bytes};
ghost use Rattle.definitions.specs.FrameLimits.{IsVote, IsCertificate};
ghost use Rattle.definitions.specs.Checks.{identity_of, cut};
ghost use Rattle.frames_view.specs.Views.{vote_of, certificate_of, votes_left};
ghost use Rattle.certificates.specs.Cutting.{verified};

use crate::certificate::vote_verifies;
use crate::checked::Checked;
use authenticators::VerifyingKeyring;
use frames_view::{CertificateView, VoteView, Votes, write_certificate, write_certified_vote};
use ids::{Config, Digest, Fault};
use std::alloc::Global;
use std::marker::Model;

/// The first of these votes whose tag for the keyring's own replica verifies, and the votes behind it.
fn first_verified<'a>(
    keyring: &VerifyingKeyring,
    digest: &[u8; 32],
    votes: Votes<'a>,
) -> Option<(VoteView<'a>, Votes<'a>)>
    requires votes { AllByRecursion (IsVote keyring.now.sizes) (votes_left votes) }
    ensures some { IfSome result
        (λ p. verified (identity_of keyring.now) digest.now (votes_left votes.entry)
        ≡ vote_of p.0 ∷ verified (identity_of keyring.now) digest.now (votes_left p.1)) }
    ensures others { IfSome result (λ p. AllByRecursion (IsVote keyring.now.sizes) (votes_left p.1)) }
    ensures none { IfNone result
        (verified (identity_of keyring.now) digest.now (votes_left votes.entry) ≡ []) }
{
    let mut rest = votes;
    while let Some((vote, others)) = rest.split_first() {
        if vote_verifies(keyring, digest, &vote) {
            return Some((vote, others));
        }
        rest = others;
    }
    None
}

/// The votes of a certificate as a replica passes it on, in order: the first quorum of those whose
/// tags for the replica verify. They are lent, and each tag is checked when its vote is asked for.
#[derive(Drop)]
pub struct CutVotes<'a> {
    keyring: &'a VerifyingKeyring,
    digest: &'a [u8; 32],
    votes: Votes<'a>,
    /// At most so many are still to come.
    most: u8,
}

impl<'a> Model for CutVotes<'a> {
    ghost use Rattle.std.specs.Prelude.{List, take};
    ghost use Rattle.std.specs.List.{AllByRecursion};
    ghost use Rattle.definitions.specs.Frames.{Vote};
    ghost use Rattle.definitions.specs.FrameLimits.{IsVote};
    ghost use Rattle.definitions.specs.Checks.{identity_of};
    ghost use Rattle.frames_view.specs.Views.{votes_left};
    ghost use Rattle.certificates.specs.Cutting.{verified};

    ghost Value = { List Vote };

    ghost view = { λ c. take c.most (verified (identity_of c.keyring.now) c.digest.now (votes_left c.votes)) };

    ghost invariant = { λ c. AllByRecursion (IsVote c.keyring.now.sizes) (votes_left c.votes) };
}

impl<'a> Iterator for CutVotes<'a> {
    type Item = VoteView<'a>;

    ghost use Rattle.std.specs.Iterator.{YieldsFirstBy, item_count};
    ghost use Rattle.frames_view.specs.Views.{vote_of};

    ghost next_gives = { YieldsFirstBy vote_of (λ left. left) };

    ghost remaining = { item_count (λ left. left) };

    fn next(&mut self) -> Option<VoteView<'a>> {
        if self.most == 0 {
            return None;
        }
        let (vote, others) = first_verified(self.keyring, self.digest, self.votes)?;
        self.votes = others;
        self.most -= 1;
        Some(vote)
    }
}

/// The votes of a certificate as the keyring's replica passes it on.
#[tactic(auto, unfolding(definitions::specs::Checks::cut))]
fn cut<'a>(keyring: &'a VerifyingKeyring, certificate: &CertificateView<'a>) -> CutVotes<'a>
    requires certificate { IsCertificate keyring.now.sizes (certificate_of certificate.now) }
    ensures votes { result
        ≡ (cut (identity_of keyring.entry.now) (certificate_of certificate.entry.now)).votes }
    ensures few { length result < 2 ^ 8 }
{
    CutVotes {
        keyring,
        digest: certificate.digest(),
        votes: certificate.votes(),
        most: keyring.config().quorum(),
    }
}

impl<'a> Checked<'a, CertificateView<'a>> {
    /// The votes of the certificate as its replica passes it on: the first quorum of those whose tags
    /// for the replica verify. It takes no memory.
    pub fn cut(&self) -> CutVotes<'a>
        ensures { result ≡ (cut (identity_of self.now.keys) (certificate_of self.now.view)).votes }
    {
        cut(self.keyring(), self.view())
    }
}

/// How many bytes a quorum of votes takes in a certificate: the voter's number and a tag for each replica.
fn quorum_len(config: &Config) -> usize
    ensures { result ≡ quorum config.now * (2 + 32 * replicas config.now) }
{
    usize::from(config.quorum()) * (2 + 32 * usize::from(config.n()))
}

/// Appends the bytes of these votes, and tells how many they are.
fn write_votes(votes: CutVotes<'_>, out: &mut Vec<u8>) -> Result<u8, Fault>
    requires few { length votes < 2 ^ 8 }
    ensures count { IfOk result (λ count. count ≡ length votes.entry) }
    ensures bytes { IfOk result (λ count. out.new.items ≡ out.old.items ++ flat_map vote_bytes votes.entry) }
    ensures memory { OnErr result (result ≡ Err Fault.Memory) }
{
    let mut count: u8 = 0;
    for vote in votes {
        write_certified_vote(vote.voter(), vote.vector(), out)?;
        count += 1;
    }
    Ok(count)
}

/// The bytes of a certificate as the keyring's replica passes it on: with the first quorum of its
/// votes whose tags for the replica verify.
pub fn cut_bytes(
    alloc: Global,
    keyring: &VerifyingKeyring,
    certificate: &CertificateView,
) -> Result<Vec<u8>, Fault>
    requires certificate { IsCertificate keyring.now.sizes (certificate_of certificate.now) }
    ensures made { IfOk result (λ bytes. bytes.items
        ≡ certificate_bytes (cut (identity_of keyring.now) (certificate_of certificate.now))) }
    ensures memory { OnErr result (result ≡ Err Fault.Memory) }
{
    let mut votes = Vec::new(alloc);
    votes.reserve(quorum_len(&keyring.config()))?;
    let count = write_votes(cut(keyring, certificate), &mut votes)?;
    let mut bytes = Vec::new(alloc);
    write_certificate(&Digest(*certificate.digest()), count, &votes, &mut bytes)?;
    Ok(bytes)
}
