//! Questions for blocks.

ghost use Rattle.std.specs.Prelude.{◌≡◌, ◌<◌, IfOk, OnErr};
ghost use Rattle.ids.specs.Sizes.{replicas};
ghost use Rattle.block_tree.specs.Finding.{stored_in};
ghost use Rattle.replica.specs.Fetches.{supplied, fetch_change};
ghost use Rattle.replica.specs.Inputs.{asked_by};
ghost use Rattle.replica.specs.Kept.{AreCertified};

use crate::change::Change;
use crate::state::State;
use crate::stored::{GotFetch, StoredStep};
use authenticators::ReplicaKeyring;
use certificates::cut_bytes;
use frames_view::FetchView;
use ids::{Digest, Fault, Kind, ReplicaId};
use signed_frames::{Out, Sending, To, block_frame};

/// The block of a digest with its certificate as it is passed on, for a replica that asked for it, where it
/// stands in the tree.
fn supply(
    state: &State,
    keyring: &ReplicaKeyring,
    to: ReplicaId,
    digest: &Digest,
) -> Result<Out, Fault>
    requires other { to < replicas keyring.now.sizes }
    requires certified { AreCertified keyring.now.sizes state.now.variables }
    ensures made { IfOk result
        (λ out. out ≡ supplied keyring.now to (stored_in digest.now state.now.variables.stored)) }
    ensures memory { OnErr result (result ≡ Err Fault.Memory) }
{
    let Some(block) = state.tree.block(digest) else {
        return Ok(Out::none(state.alloc));
    };
    let certificate = cut_bytes(state.alloc, keyring.verifying(), &block.certificate())?;
    let frame = block_frame(state.alloc, keyring, to, block.core().raw(), &certificate)?;
    let sending = Sending {
        to: To::Replica(to),
        kind: Kind::Block,
        frame,
    };
    Ok(Out::one(state.alloc, sending)?)
}

/// What a question for a block comes to: the block goes to the one who asked, where it stands in the tree.
pub(crate) fn decide_fetch(
    state: &State,
    keyring: &ReplicaKeyring,
    asked: &FetchView,
) -> Result<Change, Fault>
    requires other { (asked_by asked.now).sender < replicas keyring.now.sizes }
    requires certified { AreCertified keyring.now.sizes state.now.variables }
    ensures made { IfOk result (λ d. d ≡ fetch_change keyring.now state.now.variables (asked_by asked.now)) }
    ensures memory { OnErr result (result ≡ Err Fault.Memory) }
{
    let (sender, block) = (asked.sender(), Digest(*asked.digest()));
    let out = supply(state, keyring, sender, &block)?;
    let step = StoredStep::GotFetch(GotFetch { sender, block });
    Ok(Change::noting(state, step, out))
}
