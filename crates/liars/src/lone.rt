//! Vectors of which one tag alone is right.

ghost use Rattle.std.specs.Prelude.{◌≡◌, ◌<◌, IfOk, drop, take};
ghost use Rattle.ids.specs.Sizes.{replicas};
ghost use Rattle.definitions.specs.Tags.{tag_of};
ghost use Rattle.liars.specs.Lies.{lone};

use ids::{Config, ReplicaId};
use std::alloc::{AllocError, Global};

/// The bytes behind so many.
#[tactic(auto, using(std::proofs::lemmas::List::drop_min))]
pub(crate) fn behind(bytes: &[u8], count: usize) -> &[u8]
    ensures { result.now ≡ drop count bytes.now }
{
    &bytes[count.min(bytes.len())..]
}

/// So many bytes at most.
#[tactic(auto, using(std::proofs::lemmas::List::take_min))]
pub(crate) fn first(bytes: &[u8], count: usize) -> &[u8]
    ensures { result.now ≡ take count bytes.now }
{
    &bytes[..count.min(bytes.len())]
}

/// The tag for a replica, as far as the vector has it.
pub(crate) fn tag_of(vector: &[u8], replica: ReplicaId) -> &[u8]
    ensures { result.now ≡ tag_of vector.now replica }
{
    first(behind(vector, 32 * usize::from(replica.0)), 32)
}

/// A vector that has this tag for one replica, and zero bytes for the others.
pub(crate) fn lone(
    alloc: Global,
    config: Config,
    to: ReplicaId,
    tag: &[u8],
) -> Result<Vec<u8>, AllocError>
    requires other { to < replicas config }
    ensures { IfOk result (λ vector. vector.items ≡ lone config to tag.now) }
{
    let (before, behind) = (to.0, config.n() - to.0 - 1);
    let mut vector = vec![in alloc; 0u8; 32 * usize::from(before)]?;
    let rest = vec![in alloc; 0u8; 32 * usize::from(behind)]?;
    vector.extend_from_slice(tag)?;
    vector.extend_from_slice(&rest)?;
    Ok(vector)
}
