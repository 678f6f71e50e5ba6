//! Certificates.

ghost use Rattle.std.specs.Prelude.{◌≡◌, ◌↔◌, IsTrue, IsOk, IfOk, OnErr};
ghost use Rattle.definitions.specs.FrameLimits.{IsVote, IsCertificate};
ghost use Rattle.definitions.specs.Checks.{identity_of, vote_verifies, counted_voters, is_genesis, is_good};
ghost use Rattle.frames_view.specs.Views.{vote_of, certificate_of};
ghost use Rattle.certificates.specs.Shown as shown;
ghost use Rattle.certificates.specs.Outcomes.{IsGivenIf};

use crate::check::check;
use crate::checked::{Authenticated, Certified, Checked};
use crate::claims::Claims;
use crate::row::ReplicaRow;
use authenticators::VerifyingKeyring;
use frames_view::{CertificateView, VoteView};
use ids::{Config, Fault, Kind, PartyId};

/// The digest of genesis, SHA-256 of its 49 zero bytes. It is proved to be that, so that no check
/// computes it.
const GENESIS: [u8; 32] = [
    0x78, 0x87, 0x7f, 0xa8, 0x98, 0xf0, 0xb4, 0xc4, 0x5c, 0x9c, 0x33, 0xae, 0x94, 0x1e, 0x40, 0x61,
    0x7a, 0xd7, 0xc8, 0x65, 0x7a, 0x30, 0x7d, 0xb6, 0x2b, 0xc5, 0x69, 0x1f, 0x92, 0xf4, 0xf6, 0x0e,
];

/// Whether the vote's tag for the keyring's own replica verifies.
pub(crate) fn vote_verifies(keyring: &VerifyingKeyring, digest: &[u8; 32], vote: &VoteView) -> bool
    requires vote { IsVote keyring.now.sizes (vote_of vote.now) }
    ensures { result ≡ vote_verifies (identity_of keyring.now) digest.now (vote_of vote.now) }
{
    let tag = vote.tag(keyring.replica());
    keyring.verify(Kind::Vote, PartyId::from(vote.voter()), digest, tag)
}

/// Has the tags of its votes hashed in fours, where they aren't known. What is left over is hashed vote by vote.
fn foresee(keyring: &VerifyingKeyring, certificate: &CertificateView)
    requires certificate { IsCertificate keyring.now.sizes (certificate_of certificate.now) }
{
    let mut four = [PartyId::from(keyring.replica()); 4];
    let mut count = 0;
    for vote in certificate.votes() {
        four[count] = PartyId::from(vote.voter());
        count += 1;
        if count == 4 {
            keyring.foresee(Kind::Vote, &four, certificate.digest());
            count = 0;
        }
    }
}

/// The voters whose tags for the keyring's own replica verify. It takes no memory.
pub fn counted_voters(keyring: &VerifyingKeyring, certificate: &CertificateView) -> ReplicaRow
    requires certificate { IsCertificate keyring.now.sizes (certificate_of certificate.now) }
    ensures { result ≡ counted_voters (identity_of keyring.now) (certificate_of certificate.now) }
{
    // For the proof: there are few replicas.
    let _n = keyring.config().n();
    foresee(keyring, certificate);
    let mut voters = ReplicaRow::new();
    for vote in certificate.votes() {
        if vote_verifies(keyring, certificate.digest(), &vote) {
            voters.push(vote.voter());
        }
    }
    voters
}

/// Whether the digest is that of genesis.
#[tactic(auto, using(crate::proofs::Genesis::digest_of_genesis))]
fn is_genesis(digest: &[u8; 32]) -> bool
    ensures { result ≡ is_genesis digest.now }
{
    digest.as_slice() == GENESIS.as_slice()
}

/// Whether the certificate is good, where these are its counted voters: that of genesis has no
/// votes, and any other has a quorum of counted ones.
#[tactic(auto, unfolding(definitions::specs::Checks::is_good))]
fn is_good(keyring: &VerifyingKeyring, certificate: &CertificateView, voters: &ReplicaRow) -> bool
    requires { voters.now ≡ counted_voters (identity_of keyring.now) (certificate_of certificate.now) }
    ensures { result ≡ is_good (identity_of keyring.now) (certificate_of certificate.now) }
{
    if is_genesis(certificate.digest()) {
        certificate.votes().next().is_none()
    } else {
        voters.as_slice().len() >= usize::from(keyring.config().quorum())
    }
}

/// The counted voters of the certificate, if it is good; else `BadTag`.
pub(crate) fn good_voters(
    keyring: &VerifyingKeyring,
    certificate: &CertificateView,
) -> Result<ReplicaRow, Fault>
    requires certificate { IsCertificate keyring.now.sizes (certificate_of certificate.now) }
    ensures exactly { IsOk result
        ↔ IsTrue (is_good (identity_of keyring.now) (certificate_of certificate.now)) }
    ensures given { IfOk result
        (λ voters. voters ≡ counted_voters (identity_of keyring.now) (certificate_of certificate.now)) }
    ensures refused { OnErr result (result ≡ Err Fault.BadTag) }
{
    let voters = counted_voters(keyring, certificate);
    if !is_good(keyring, certificate, &voters) {
        return Err(Fault::BadTag);
    }
    Ok(voters)
}

impl<'a> Authenticated for CertificateView<'a> {
    ghost shows = { λ q. shown.certificate (certificate_of q) };

    #[tactic(auto, unfolding(definitions::specs::Checks::is_clear_core))]
    fn claims(&self, _keyring: &VerifyingKeyring) -> Claims<'_> {
        Claims {
            own: None,
            certificate: Some(*self),
            core: None,
        }
    }
}

impl<'a> Certified for CertificateView<'a> {}

/// The certificate, if it is good; else `BadTag`.
pub fn check_cert<'a>(
    keyring: &'a VerifyingKeyring,
    config: &Config,
    view: &CertificateView<'a>,
) -> Result<Checked<'a, CertificateView<'a>>, Fault>
    requires sizes { config.now ≡ keyring.now.sizes }
    requires certificate { IsCertificate config.now (certificate_of view.now) }
    ensures { IsGivenIf (is_good (identity_of keyring.now) (certificate_of view.now)) keyring.now view.now
        result }
{
    check(keyring, view)
}
