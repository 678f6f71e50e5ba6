//! What becomes of votes that are collected.
//!
//! Of each frame is told, behind the one before and with a comma between them: the number of its
//! refusal, 10 where the bytes are no vote and 11 for a bad tag; or what the vote was: `First`,
//! `Doubled`, `Past` where its block has a certificate, or `Complete` with the certificate's length
//! and the first 8 bytes of its SHA-256 digest.

ghost use Rattle.std.specs.Prelude.{◌≡◌};

use crate::check::bytes_of;
use authenticators::ReplicaKeyring;
use certificates::check_vote;
use frames_view::{CertificateBuf, Frame, read};
use ids::{Config, Digest, Fault, Height, ReplicaId};
use sha2::Sha256;
use simulated_keys::replica_keyring_of;
use std::alloc::Global;
use vote_collector::{Added, Collector};

/// The votes that a replica collects, and the blocks that have a certificate.
#[derive(Drop)]
struct Poll {
    alloc: Global,
    ring: ReplicaKeyring,
    collector: Collector,
    certified: Vec<Digest>,
    ghost same_sizes: { collector.sizes ≡ ring.sizes },
}

/// What becomes of a vote.
#[derive(Drop)]
enum Fate {
    First,
    Doubled,
    Past,
    Complete(CertificateBuf),
}

impl Poll {
    /// What becomes of one frame.
    fn add(&mut self, bytes: &[u8]) -> Result<Fate, Fault> {
        let config = self.ring.config();
        let Frame::Vote(view) = read(&config, bytes)? else {
            return Err(Fault::NotAFrame);
        };
        let checked = check_vote(self.ring.verifying(), &config, &view)?;
        let (digest, vote) = (Digest(*view.digest()), checked.view().vote());
        if self.certified.contains(&digest) {
            return Ok(Fate::Past);
        }
        match self.collector.judge(&digest, vote.voter()) {
            Added::Doubled => Ok(Fate::Doubled),
            Added::First => {
                let kept = self.collector.keep(&vote)?;
                self.collector.add(digest, Height(1), kept)?;
                Ok(Fate::First)
            }
            Added::Complete => {
                let certificate = self.collector.completed(&digest, &vote)?;
                self.certified.push(digest)?;
                Ok(Fate::Complete(certificate))
            }
        }
    }

    fn tell(&mut self, bytes: &[u8], text: &mut String) -> Result<(), Fault> {
        match self.add(bytes) {
            Ok(Fate::First) => text.push_str("First")?,
            Ok(Fate::Doubled) => text.push_str("Doubled")?,
            Ok(Fate::Past) => text.push_str("Past")?,
            Ok(Fate::Complete(certificate)) => tell_certificate(self.alloc, &certificate, text)?,
            Err(fault) => write!(text, "{}", fault.number())?,
        }
        Ok(())
    }
}

fn tell_certificate(
    alloc: Global,
    certificate: &CertificateBuf,
    text: &mut String,
) -> Result<(), Fault> {
    let mut bytes = Vec::new(alloc);
    certificate.view().write(&mut bytes)?;
    let digest = <Sha256 as sha2::Digest>::digest(&bytes);
    write!(
        text,
        "Complete {}:{}",
        bytes.len(),
        hex::encode(alloc, &digest[..8])?
    )?;
    Ok(())
}

/// What becomes of votes that come to a poll, one after the other.
fn tell_all(alloc: Global, poll: &mut Poll, votes: &str) -> Result<String, Fault> {
    let mut text = String::new(alloc);
    for digits in votes.split(' ') {
        if !text.is_empty() {
            text.push_str(", ")?;
        }
        poll.tell(&bytes_of(alloc, digits)?, &mut text)?;
    }
    Ok(text)
}

/// What becomes of the votes, one after the other.
pub(crate) fn votes(
    alloc: Global,
    config: Config,
    receiver: ReplicaId,
    rest: &str,
) -> Result<String, Fault> {
    let ring = replica_keyring_of(alloc, config, receiver)?;
    let collector = Collector::new(alloc, config);
    let mut poll = Poll {
        alloc,
        ring,
        collector,
        certified: Vec::new(alloc),
    };
    tell_all(alloc, &mut poll, rest)
}
