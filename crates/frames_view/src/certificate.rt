//! Certificates.

ghost use Rattle.std.specs.Prelude.{◌≡◌, ◌+◌, ◌<◌, ◌++◌, length, IfSome, OnOk, OnErr, vec_capacity, vec_len};
ghost use Rattle.ids.specs.Sizes.{replicas};
ghost use Rattle.definitions.specs.Slices.{LeftAt};
ghost use Rattle.definitions.specs.Writing.{IsAppended};
ghost use Rattle.definitions.specs.Frames.{vote_bytes, certificate_bytes};
ghost use Rattle.frames_view.specs.Readings.{IsRead, behind_rising};
ghost use Rattle.frames_view.specs.Parts.{vote_in, certificate_in, is_cut};
ghost use Rattle.frames_view.specs.Views.{Gives, certificate_of, votes_left};
ghost use Rattle.frames_view.specs.Places.{IsSplit, IsCertificateAt, certificate_len};

use crate::cursor::{split, take_32, take_u8};
use crate::views::{CertificateView, Votes};
use crate::vote::take_vote;
use frame_writers::write_certificate;
use ids::{Config, Digest, Fault};

impl<'a> CertificateView<'a> {
    /// The digest of the block that is voted for.
    pub fn digest(&self) -> &'a [u8; 32]
        ensures value { result.now ≡ (certificate_of self.now).digest }
        ensures lent { result ≡ self.now.digest }
    {
        self.digest
    }

    /// The votes, in order of their voters.
    pub fn votes(&self) -> Votes<'a>
        ensures value { votes_left result ≡ (certificate_of self.now).votes }
        ensures lent { result.rest ≡ self.now.votes }
    {
        Votes {
            replicas: self.replicas,
            count: self.count,
            rest: self.votes,
        }
    }

    /// Appends the certificate's bytes, as a frame has them.
    pub fn write(&self, out: &mut Vec<u8>) -> Result<(), Fault>
        ensures { IsAppended out.old out.new (certificate_bytes (certificate_of self.now)) result }
    {
        write_certificate(&Digest(*self.digest), self.count, self.votes, out)
    }
}

/// Whether it has no votes, or exactly a quorum.
pub(crate) fn is_cut(config: &Config, certificate: &CertificateView) -> bool
    ensures { result ≡ is_cut config.now (certificate_of certificate.now) }
{
    certificate.count == 0 || certificate.count == config.quorum()
}

/// What is left behind `count` votes whose voters rise.
fn skip_votes(bytes: &[u8], replicas: u8, count: u8) -> Option<&[u8]>
    ensures { Gives (λ rest. rest.now) result
        (behind_rising (λ v. v.voter) (vote_in replicas) 0 count bytes.now) }
{
    let mut rest = bytes;
    let mut least: u16 = 0;
    for _ in 0..count {
        let (vote, after) = take_vote(rest, replicas)?;
        let voter = u16::from(vote.voter);
        if voter < least {
            return None;
        }
        least = voter + 1;
        rest = after;
    }
    Some(rest)
}

/// `count` votes whose voters rise, and what is left behind them.
fn take_votes<'a>(config: &Config, bytes: &'a [u8], count: u8) -> Option<(&'a [u8], &'a [u8])>
    ensures left { Gives (λ p. p.1.now) result
        (behind_rising (λ v. v.voter) (vote_in (replicas config.now)) 0 count bytes.now) }
    ensures taken { IfSome result
        (λ p. IsRead vote_bytes (vote_in (replicas config.now)) count bytes.now p.0.now) }
    ensures lent { IfSome result (λ p. IsSplit bytes.entry p.0 p.1) }
{
    let rest = skip_votes(bytes, config.n(), count)?;
    Some(split(bytes, bytes.len() - rest.len()))
}

#[tactic(auto, unfolding(crate::specs::Parts::certificate_in, crate::specs::Parts::votes_in))]
pub(crate) fn take_certificate<'a>(
    config: &Config,
    bytes: &'a [u8],
) -> Option<(CertificateView<'a>, &'a [u8])>
    ensures taken { Gives (λ p. (certificate_of p.0, p.1.now)) result (certificate_in config.now bytes.now) }
    ensures lent { IfSome result
        (λ p. IsCertificateAt bytes.entry 0 p.0 × LeftAt bytes.entry (certificate_len p.0) p.1) }
{
    let replicas = config.n();
    let (digest, rest) = take_32(bytes)?;
    let (count, rest) = take_u8(rest)?;
    if count != 0 && (count < config.quorum() || count > replicas) {
        return None;
    }
    let (votes, rest) = take_votes(config, rest, count)?;
    let certificate = CertificateView {
        digest,
        replicas,
        count,
        votes,
    };
    Some((certificate, rest))
}
