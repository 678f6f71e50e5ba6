//! Leading from a block.

ghost use Rattle.std.specs.Prelude.{◌≡◌, ◌||◌};
ghost use Rattle.block_tree.specs.Finding.{is_justified_in};
ghost use Rattle.replica.specs.Grounds.{is_own, lead_change, IsLead};
ghost use Rattle.replica.specs.Kept.{AreCertified};

use crate::change::{Change, Growth};
use crate::grounds::{own_voters, without_votes};
use crate::state::{High, State};
use crate::stored::StoredStep;
use authenticators::ReplicaKeyring;
use ids::{Digest, Fault};
use replica_rules::BlockRef;
use signed_frames::Out;

/// Whether what the block of a digest is certified by may be taken for granted: a block of the tree justifies it, or it
/// is that of the own highest certificate, of which a quorum verifies.
fn has_grounds(state: &State, keyring: &ReplicaKeyring, block: &Digest) -> bool
    requires certified { AreCertified keyring.now.sizes state.now.variables }
    ensures { result
        ≡ (is_justified_in block.now state.now.variables.stored || is_own keyring.now state.now.variables block.now) }
{
    state.tree.is_justified(block) || own_voters(state, keyring, block).is_some()
}

/// The change of a lead from this block.
fn leading(state: &State, keyring: &ReplicaKeyring, block: BlockRef) -> Change
    ensures { result ≡ lead_change state.now.variables block }
{
    let high = if state.high.block.digest == block.digest {
        None
    } else {
        Some(High {
            block,
            certificate: without_votes(state, keyring, block.digest),
        })
    };
    Change {
        growth: Growth::Lead,
        high,
        leaf: block,
        ..Change::noting(state, StoredStep::Led(block.digest), Out::none(state.alloc))
    }
}

/// What a lead from the block of a digest comes to: `UnknownParent` where it isn't in the tree, is lower than the lock,
/// or has no grounds.
pub(crate) fn decide_lead(
    state: &State,
    keyring: &ReplicaKeyring,
    digest: Digest,
) -> Result<Change, Fault>
    requires certified { AreCertified keyring.now.sizes state.now.variables }
    ensures { IsLead keyring.now state.now digest result }
{
    let Some(height) = state.tree.height(&digest) else {
        return Err(Fault::UnknownParent);
    };
    if height >= state.rules.lock().height && has_grounds(state, keyring, &digest) {
        Ok(leading(state, keyring, BlockRef { digest, height }))
    } else {
        Err(Fault::UnknownParent)
    }
}
