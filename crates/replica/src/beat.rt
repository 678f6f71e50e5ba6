//! Proposing at a beat.

ghost use Rattle.std.specs.Prelude.{◌≡◌, [], ◌∷◌, IfOk, OnErr};
ghost use Rattle.std.specs.Option.{option_or};
ghost use Rattle.definitions.specs.FrameLimits.{IsCertificate};
ghost use Rattle.replica.specs.Kept.{IsFitOwn, AreCertified};
ghost use Rattle.replica.specs.Beats.{beat_change, child_height, child_of, proposal_sent, is_led, made_by};
ghost use Rattle.replica.specs.Beats.{leaf_with, last_sent};

use crate::change::Change;
use crate::pick::picked;
use crate::state::{OwnProposal, State};
use crate::stored::StoredStep;
use authenticators::ReplicaKeyring;
use certificates::cut_bytes;
use frames_view::{CertificateBuf, write_core};
use ids::{Digest, Fault, Height, Kind, View};
use replica_rules::BlockRef;
use sha2::Sha256;
use signed_frames::{Out, Sending, To, proposal_frame};
use std::alloc::Global;

/// The height of a child of the leaf. No leaf is so high that there is none.
fn child_height(leaf: BlockRef) -> Height
    ensures { result ≡ child_height leaf }
{
    Height(leaf.height.0.saturating_add(1))
}

/// The core of a child of the leaf, with the first requests that wait and don't stand on the leaf's branch.
fn core_of(state: &State) -> Result<Vec<u8>, Fault>
    ensures made { IfOk result (λ core. core.items ≡ (child_of state.now).core) }
    ensures memory { OnErr result (result ≡ Err Fault.Memory) }
{
    let (count, commands) = picked(state)?;
    let height = child_height(state.leaf);
    let mut core = Vec::new(state.alloc);
    write_core(
        &state.leaf.digest,
        height,
        state.high.block.height,
        count,
        &commands,
        &mut core,
    )?;
    Ok(core)
}

/// The proposal of a child of the leaf.
fn child_of(state: &State) -> Result<OwnProposal, Fault>
    ensures made { IfOk result (λ own. own ≡ child_of state.now) }
    ensures memory { OnErr result (result ≡ Err Fault.Memory) }
{
    let core = core_of(state)?;
    let certificate = CertificateBuf::copy(state.alloc, &state.high.certificate.view())?;
    Ok(OwnProposal { core, certificate })
}

/// A proposal of its own, to all, with its certificate as it is passed on.
fn proposal_out(
    alloc: Global,
    keyring: &ReplicaKeyring,
    view: View,
    own: &OwnProposal,
) -> Result<Out, Fault>
    requires certificate { IsCertificate keyring.now.sizes own.now.certificate }
    ensures made { IfOk result (λ out. out ≡ proposal_sent keyring.now view own.now ∷ []) }
    ensures memory { OnErr result (result ≡ Err Fault.Memory) }
{
    let certificate = cut_bytes(alloc, keyring.verifying(), &own.certificate.view())?;
    let frame = proposal_frame(alloc, keyring, view, &own.core, &certificate)?;
    let sending = Sending {
        to: To::All,
        kind: Kind::Proposal,
        frame,
    };
    Ok(Out::one(alloc, sending)?)
}

/// Whether the replica leads its view.
pub(crate) fn leads(state: &State, keyring: &ReplicaKeyring) -> bool
    ensures { result ≡ is_led keyring.now state.now }
{
    keyring.config().leader(state.pace.view()) == keyring.replica()
}

/// Makes a child of the leaf, where the replica leads its view and the leaf's block is known.
fn made_by(state: &State, keyring: &ReplicaKeyring) -> Result<Option<OwnProposal>, Fault>
    ensures made { IfOk result (λ own. own ≡ made_by keyring.now state.now) }
    ensures memory { OnErr result (result ≡ Err Fault.Memory) }
{
    if !leads(state, keyring) {
        return Ok(None);
    }
    if !state.tree.contains(&state.leaf.digest) {
        return Ok(None);
    }
    let own = child_of(state)?;
    Ok(Some(own))
}

/// The leaf, where this was made on it.
fn leaf_with(made: &Option<OwnProposal>, leaf: BlockRef) -> BlockRef
    ensures { result ≡ leaf_with made.now leaf }
{
    match made {
        Some(own) => BlockRef {
            digest: Digest(<Sha256 as sha2::Digest>::digest(&own.core)),
            height: child_height(leaf),
        },
        None => leaf,
    }
}

/// A leader's last proposal, to all: the one that it made now, or the one before.
fn last_out(
    state: &State,
    keyring: &ReplicaKeyring,
    made: &Option<OwnProposal>,
) -> Result<Out, Fault>
    requires certified { IsFitOwn keyring.now.sizes (option_or made.now state.now.variables.own) }
    ensures made { IfOk result
        (λ out. out ≡ last_sent keyring.now state.now (option_or made.now state.now.variables.own)) }
    ensures memory { OnErr result (result ≡ Err Fault.Memory) }
{
    if !leads(state, keyring) {
        return Ok(Out::none(state.alloc));
    }
    match made.as_ref().or(state.own.as_ref()) {
        Some(own) => proposal_out(state.alloc, keyring, state.pace.view(), own),
        None => Ok(Out::none(state.alloc)),
    }
}

/// What a beat comes to: where the replica leads its view, it proposes a child of its leaf, or its
/// last proposal again where the leaf isn't in the tree yet.
pub(crate) fn decide_beat(state: &State, keyring: &ReplicaKeyring) -> Result<Change, Fault>
    requires certified { AreCertified keyring.now.sizes state.now.variables }
    ensures made { IfOk result (λ d. d ≡ beat_change keyring.now state.now) }
    ensures memory { OnErr result (result ≡ Err Fault.Memory) }
{
    let made = made_by(state, keyring)?;
    let out = last_out(state, keyring, &made)?;
    Ok(Change {
        leaf: leaf_with(&made, state.leaf),
        own: made,
        ..Change::noting(state, StoredStep::Beat, out)
    })
}
