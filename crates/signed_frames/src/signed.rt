//! The tags of frames that were written up to them.

ghost use Rattle.std.specs.Prelude.{◌≡◌, ◌≤◌, ◌++◌, length, drop, IfOk, OnErr, IsTrue};
ghost use Rattle.ids.specs.declared.limits.TheConstants.{HEAD_LEN};
ghost use Rattle.definitions.specs.Keyrings.{keyring_of, is_peer, tag_for, vector_for};

use appending::append;
use authenticators::Keyring;
use ids::{Fault, HEAD_LEN, Kind, PartyId};
use std::alloc::Global;

/// How many bytes one tag has.
pub(crate) const TAG_LEN: usize = 32;

/// How many bytes the tags have that are for all replicas.
pub(crate) fn vector_len(keyring: &Keyring) -> usize {
    TAG_LEN * usize::from(keyring.config().n())
}

/// The frame with its tags, one for each replica: they speak of all between the kind and them.
pub(crate) fn signed_for_all(
    alloc: Global,
    keyring: &Keyring,
    kind: Kind,
    mut frame: Vec<u8>,
) -> Result<Vec<u8>, Fault>
    requires { HEAD_LEN ≤ length frame.items }
    ensures made { IfOk result (λ signed. signed.items ≡ frame.items
        ++ vector_for keyring.now.sizes (keyring_of keyring.now) kind (drop HEAD_LEN frame.items)) }
    ensures memory { OnErr result (result ≡ Err Fault.Memory) }
{
    let mut tags = Vec::new(alloc);
    keyring.vector(kind, &frame[HEAD_LEN..], &mut tags)?;
    append(&mut frame, &[&tags])?;
    Ok(frame)
}

/// The frame with its tag for one party: it speaks of all between the kind and it.
pub(crate) fn signed_for(
    keyring: &Keyring,
    kind: Kind,
    to: PartyId,
    mut frame: Vec<u8>,
) -> Result<Vec<u8>, Fault>
    requires peer { IsTrue (is_peer keyring.now to) }
    requires begun { HEAD_LEN ≤ length frame.items }
    ensures made { IfOk result (λ signed. signed.items ≡ frame.items
        ++ tag_for (keyring_of keyring.now) kind to (drop HEAD_LEN frame.items)) }
    ensures memory { OnErr result (result ≡ Err Fault.Memory) }
{
    let tag = keyring.tag(kind, to, &frame[HEAD_LEN..]);
    append(&mut frame, &[&tag])?;
    Ok(frame)
}
