//! What a replica's admission answers to the bytes of one frame that were cut or changed.

use crate::check::bytes_of;
use crate::check::row::{Row, flip};
use admission::admit;
use authenticators::VerifyingKeyring;
use ids::{Config, Fault, ReplicaId};
use simulated_keys::replica_keyring_of;
use std::alloc::Global;

/// `ok` where the bytes are admitted, and else the number of the refusal.
fn answer(ring: &VerifyingKeyring, bytes: &[u8]) -> &'static str {
    match admit(ring, bytes) {
        Ok(_) => "ok",
        Err(Fault::NotAFrame) => "10",
        Err(Fault::BadTag) => "11",
        Err(Fault::NotMine) => "30",
        Err(_) => "another",
    }
}

/// Each proper beginning of the bytes, the shortest first.
fn add_cuts(ring: &VerifyingKeyring, bytes: &[u8], row: &mut Row) {
    for len in 0..bytes.len() {
        row.add(answer(ring, &bytes[..len]));
    }
}

/// The bytes with the one at a place changed to each other value.
fn add_changes_at(ring: &VerifyingKeyring, bytes: &mut [u8], place: usize, row: &mut Row) {
    for mask in 1..=u8::MAX {
        flip(bytes, place, mask);
        row.add(answer(ring, bytes));
        flip(bytes, place, mask);
    }
}

/// The bytes with one of them changed to each other value: each in turn, the first one first.
fn add_changes(ring: &VerifyingKeyring, bytes: &mut [u8], row: &mut Row) {
    for place in 0..bytes.len() {
        add_changes_at(ring, bytes, place, row);
    }
}

/// How a frame is spoilt.
#[derive(Clone, Copy)]
pub(crate) enum Spoiling {
    /// It is cut, anywhere.
    Cut,
    /// Any one of its bytes is changed to any other value.
    Change,
}

/// What a frame is answered that is spoilt so, in each way.
pub(crate) fn spoilt(
    alloc: Global,
    config: Config,
    receiver: ReplicaId,
    spoiling: Spoiling,
    digits: &str,
) -> Result<String, Fault> {
    let mut bytes = bytes_of(alloc, digits)?;
    let ring = replica_keyring_of(alloc, config, receiver)?;
    let mut row = Row::new();
    match spoiling {
        Spoiling::Cut => add_cuts(ring.verifying(), &bytes, &mut row),
        Spoiling::Change => add_changes(ring.verifying(), &mut bytes, &mut row),
    }
    row.into_text(alloc)
}
