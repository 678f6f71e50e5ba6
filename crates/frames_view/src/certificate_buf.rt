//! Certificates that are kept.

ghost use Rattle.std.specs.Prelude.{◌≡◌, List, [], IfOk};
ghost use Rattle.definitions.specs.Frames.{Vote};
ghost use Rattle.frames_view.specs.Spelled.{AreVotes};
ghost use Rattle.frames_view.specs.Views.{certificate_of};

use crate::views::CertificateView;
use ids::{Config, Digest};
use std::alloc::{AllocError, Global};
use std::marker::Model;

/// A certificate of its own, as `CertificateView` is one that is lent.
#[derive(Drop)]
pub struct CertificateBuf {
    digest: Digest,
    replicas: u8,
    count: u8,
    votes: Vec<u8>,
}

impl Model for CertificateBuf {
    ghost use Rattle.std.specs.Prelude.{◌≡◌, length};
    ghost use Rattle.std.specs.List.{flat_map};
    ghost use Rattle.definitions.specs.Frames.{Certificate, vote_bytes};
    ghost use Rattle.frames_view.specs.Readings.{elements};
    ghost use Rattle.frames_view.specs.Parts.{vote_in};

    ghost Value = { Certificate };

    ghost view = { λ q.
        record { digest = q.digest; votes = elements (vote_in q.replicas) q.count q.votes.items } };

    ghost invariant = { λ q. let votes = elements (vote_in q.replicas) q.count q.votes.items in
        (length q.digest ≡ 32) × (length votes ≡ q.count) × (q.votes.items ≡ flat_map vote_bytes votes) };
}

impl CertificateBuf {
    /// A copy of a certificate.
    pub fn copy(alloc: Global, certificate: &CertificateView) -> Result<CertificateBuf, AllocError>
        ensures { IfOk result (λ q. q ≡ certificate_of certificate.now) }
    {
        Ok(CertificateBuf {
            digest: Digest(*certificate.digest),
            replicas: certificate.replicas,
            count: certificate.count,
            votes: certificate.votes.to_vec(alloc)?,
        })
    }

    /// A certificate without votes. It takes no memory.
    pub fn without_votes(alloc: Global, config: Config, digest: Digest) -> CertificateBuf
        ensures { result ≡ record { digest = digest; votes = [] } }
    {
        CertificateBuf {
            digest,
            replicas: config.n(),
            count: 0,
            votes: Vec::new(alloc),
        }
    }

    /// The certificate of `count` votes, spelled one after the other.
    pub fn of_votes(config: &Config, digest: Digest, count: u8, votes: Vec<u8>) -> CertificateBuf
        requires { (vs : List Vote) × AreVotes config.now count votes.items vs }
        ensures { (vs : List Vote) → AreVotes config.now count votes.items vs
            → result ≡ record { digest = digest; votes = vs } }
    {
        // Both are bytes, so numbers of parties fit their fields.
        let (replicas, _clients) = (config.n(), config.clients());
        CertificateBuf {
            digest,
            replicas,
            count,
            votes,
        }
    }

    /// The certificate, lent.
    pub fn view(&self) -> CertificateView<'_>
        ensures { certificate_of result ≡ self.now }
    {
        CertificateView {
            digest: &self.digest.0,
            replicas: self.replicas,
            count: self.count,
            votes: self.votes.as_slice(),
        }
    }
}
