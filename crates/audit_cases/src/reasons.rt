//! Reasons, as a line asks about them.

use crate::replicas::number;
use audit::{CorePlace, Reason};
use ids::{Digest, Fault, ReplicaId};

/// The number of a replica.
fn replica(digits: &str) -> Result<ReplicaId, Fault> {
    Ok(ReplicaId(number(digits)?))
}

/// A digest in hexadecimal.
pub(crate) fn digest(digits: &str) -> Result<Digest, Fault> {
    let mut bytes = [0; 32];
    hex::decode_to_slice(digits, &mut bytes)
        .ok()
        .ok_or(Fault::BadFields)?;
    Ok(Digest(bytes))
}

/// A place.
fn place(word: &str) -> Result<CorePlace, Fault> {
    let Some((owner, step)) = word.split_once('/') else {
        return Ok(CorePlace::Genesis);
    };
    Ok(CorePlace::Step {
        replica: replica(owner)?,
        step: step.parse().ok().ok_or(Fault::BadFields)?,
    })
}

/// Two replicas and a digest.
fn pair(words: &str) -> Result<(ReplicaId, ReplicaId, Digest), Fault> {
    let (receiver, rest) = words.split_once(':').ok_or(Fault::BadFields)?;
    let (other, digits) = rest.split_once(':').ok_or(Fault::BadFields)?;
    Ok((replica(receiver)?, replica(other)?, digest(digits)?))
}

/// A missing vote.
fn vote(words: &str) -> Result<Reason, Fault> {
    let (receiver, voter, digest) = pair(words)?;
    Ok(Reason::Vote {
        receiver,
        voter,
        digest,
    })
}

/// A sender that didn't take what it sent.
fn take(words: &str) -> Result<Reason, Fault> {
    let (receiver, sender, digest) = pair(words)?;
    Ok(Reason::Take {
        receiver,
        sender,
        digest,
    })
}

/// A collision.
fn collision(words: &str) -> Result<Reason, Fault> {
    let (first, second) = words.split_once(':').ok_or(Fault::BadFields)?;
    Ok(Reason::Collision {
        first: place(first)?,
        second: place(second)?,
    })
}

/// The reason of a field.
pub(crate) fn reason_of(field: &str) -> Result<Reason, Fault> {
    let (kind, words) = field.split_once(':').ok_or(Fault::BadFields)?;
    match kind {
        "vote" => vote(words),
        "take" => take(words),
        "collision" => collision(words),
        _ => Err(Fault::BadFields),
    }
}
