//! Many checks that are told in one line.

use crate::check::answers::tell;
use crate::check::bytes_of;
use ids::{Config, Fault, ReplicaId};
use sha2::{Digest, Sha256};
use simulated_keys::replica_keyring_of;
use std::alloc::Global;

/// How often each first word was said, and a digest of all that was said.
#[derive(Drop)]
pub(crate) struct Row {
    told: Sha256,
    passed: u64,
    no_frames: u64,
    bad_tags: u64,
    not_mine: u64,
    others: u64,
}

impl Row {
    pub(crate) fn new() -> Row {
        Row {
            told: Sha256::new(),
            passed: 0,
            no_frames: 0,
            bad_tags: 0,
            not_mine: 0,
            others: 0,
        }
    }

    /// One more line that was said.
    pub(crate) fn add(&mut self, line: &str) {
        self.told.update(line);
        self.told.update("\n");
        let count = match line.split(' ').next().unwrap_or("") {
            "ok" => &mut self.passed,
            "10" => &mut self.no_frames,
            "11" => &mut self.bad_tags,
            "30" => &mut self.not_mine,
            _ => &mut self.others,
        };
        *count = count.wrapping_add(1);
    }

    /// The counts, and half of the digest.
    pub(crate) fn into_text(self, alloc: Global) -> Result<String, Fault> {
        let Row {
            told,
            passed,
            no_frames,
            bad_tags,
            not_mine,
            others,
        } = self;
        let digest = hex::encode(alloc, &told.finalize()[..16])?;
        Ok(format!(in alloc;
            "{passed} ok, {no_frames} of 10, {bad_tags} of 11, {not_mine} of 30, {others} others, {digest}"
        )?)
    }
}

/// Changes the byte at a place by exclusive or with a mask; once more, and it is as before.
pub(crate) fn flip(bytes: &mut [u8], place: usize, mask: u8) {
    if let Some(byte) = bytes.get_mut(place) {
        *byte ^= mask;
    }
}

/// The checks of a frame with each byte in turn changed by the mask that stands before it.
pub(crate) fn changes(
    alloc: Global,
    config: Config,
    receiver: ReplicaId,
    rest: &str,
) -> Result<String, Fault> {
    let Some((mask, digits)) = rest.split_once(' ') else {
        return Err(Fault::BadFields);
    };
    let mask = bytes_of(alloc, mask)?.first().copied().unwrap_or(0);
    let mut bytes = bytes_of(alloc, digits)?;
    let ring = replica_keyring_of(alloc, config, receiver)?;
    let mut row = Row::new();
    for place in 0..bytes.len() {
        flip(&mut bytes, place, mask);
        let mut text = String::new(alloc);
        tell(ring.verifying(), &bytes, &mut text)?;
        row.add(&text);
        flip(&mut bytes, place, mask);
    }
    row.into_text(alloc)
}
