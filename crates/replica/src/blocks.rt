//! Taking a block in.

ghost use Rattle.std.specs.Prelude.{◌≡◌, IfOk, OnErr};
ghost use Rattle.definitions.specs.Digests.{digest as digest_of_core};
ghost use Rattle.frames_view.specs.Views.{certificate_of};
ghost use Rattle.block_tree.specs.Insertions.{IsNodeFor};
ghost use Rattle.replica_rules.specs.Ruled.{with_vote};
ghost use Rattle.replica.specs.Changes.{fills_for, raise_of, leaf_after};
ghost use Rattle.replica.specs.Kept.{tree_of};
ghost use Rattle.replica.specs.Offers.{votes_sent, with_vote_in, again_step, again_change, new_change};
ghost use Rattle.replica.specs.Offers.{IsGrown, IsDecided};

use crate::change::{Change, Growth};
use crate::offer::Offer;
use crate::state::{High, State};
use crate::stored::{Again, StoredStep, TookAgain, TookNew};
use authenticators::ReplicaKeyring;
use block_tree::{Node, Plan, Tree};
use frames_view::{CertificateBuf, CertificateView, CoreBuf};
use ids::{Digest, Fault, Height, Kind};
use replica_rules::{BlockRef, Rules};
use signed_frames::{Out, Sending, To, vote_frame};
use std::alloc::{AllocError, Global};

/// What goes out: the vote, if one was given.
fn vote_out(
    state: &State,
    keyring: &ReplicaKeyring,
    digest: &Digest,
    voted: bool,
) -> Result<Out, Fault>
    ensures made { IfOk result (λ out. out ≡ votes_sent keyring.now state.now.pace.view digest.now voted) }
    ensures memory { OnErr result (result ≡ Err Fault.Memory) }
{
    if !voted {
        return Ok(Out::none(state.alloc));
    }
    let frame = vote_frame(state.alloc, keyring, digest)?;
    let leader = keyring.config().leader(state.pace.view());
    let sending = Sending {
        to: To::Replica(leader),
        kind: Kind::Vote,
        frame,
    };
    Ok(Out::one(state.alloc, sending)?)
}

/// The rules after a vote for a block of this height, if one was given.
fn with_vote(rules: Rules, voted: bool, height: Height) -> Rules
    ensures { result ≡ with_vote voted height rules }
{
    let mut rules = rules;
    if voted {
        rules.voted(height);
    }
    rules
}

/// The same for a block of the tree.
fn with_vote_in(tree: &Tree, rules: Rules, voted: bool, digest: &Digest) -> Rules
    ensures { result ≡ with_vote_in voted digest.now tree.now.stored rules }
{
    match tree.height(digest) {
        Some(height) => with_vote(rules, voted, height),
        None => rules,
    }
}

/// A block that stood in the tree, as it is stored.
fn stored_again(state: &State, offer: &Offer, voted: bool) -> Result<StoredStep, AllocError>
    ensures { IfOk result (λ s. s ≡ again_step offer.now voted) }
{
    let alloc = state.alloc;
    let again = Again {
        core: CoreBuf::copy(alloc, &offer.core)?,
        certificate: CertificateBuf::copy(alloc, &offer.certificate)?,
        counted: offer.counted.to_vec(alloc)?,
        clear: offer.clear,
        voted,
    };
    Ok(StoredStep::TookAgain(TookAgain {
        again: Box::new(alloc, again)?,
    }))
}

/// Takes a block that stands in the tree.
fn take_again(
    state: &State,
    keyring: &ReplicaKeyring,
    offer: &Offer,
    digest: Digest,
) -> Result<Change, Fault>
    requires digest { digest ≡ digest_of_core offer.now.core }
    ensures made { IfOk result (λ d. d ≡ again_change keyring.now state.now offer.now) }
    ensures memory { OnErr result (result ≡ Err Fault.Memory) }
{
    let voted = offer.is_for(state.pace.view()) && state.rules.may_vote(&state.tree, &digest);
    let rules = with_vote_in(&state.tree, state.rules, voted, &digest);
    let out = vote_out(state, keyring, &digest, voted)?;
    let step = stored_again(state, offer, voted)?;
    Ok(Change {
        rules,
        ..Change::noting(state, step, out)
    })
}

/// Whether a certificate for a block has votes where the highest one, which is for the same block above genesis, has
/// none.
fn fills(block: BlockRef, certificate: &CertificateView, high: &High) -> bool
    ensures { result
        ≡ fills_for (record { block = block; certificate = certificate_of certificate.now }) high.now }
{
    let is_same = block.height == high.block.height && block.digest == high.block.digest;
    let held = high.certificate.view();
    (high.block.height.0 > 0 && is_same)
        && held.votes().next().is_none()
        && certificate.votes().next().is_some()
}

/// A certificate that came whole, with its block, where it takes the place of the highest one so far: it is higher, or
/// for the same block, and that one has no votes.
pub(crate) fn raised(
    alloc: Global,
    block: BlockRef,
    certificate: &CertificateView,
    high: &High,
) -> Result<Option<High>, AllocError>
    ensures { IfOk result (λ r. r
        ≡ raise_of (record { block = block; certificate = certificate_of certificate.now }) high.now) }
{
    if block.height <= high.block.height && !fills(block, certificate, high) {
        return Ok(None);
    }
    let certificate = CertificateBuf::copy(alloc, certificate)?;
    Ok(Some(High { block, certificate }))
}

/// The leaf after a raise of this certificate.
pub(crate) fn leaf_after(raised: &Option<High>, high: &High, leaf: BlockRef) -> BlockRef
    ensures { result ≡ leaf_after raised.now high.now leaf }
{
    match raised {
        Some(raised) => {
            if raised.block.height > high.block.height {
                raised.block
            } else {
                leaf
            }
        }
        None => leaf,
    }
}

/// Takes a new block, by the rules after it.
fn take_new(
    state: &State,
    keyring: &ReplicaKeyring,
    offer: &Offer,
    node: Node,
    rules: Rules,
) -> Result<Change, Fault>
    requires node { IsNodeFor (tree_of state.now.variables) offer.now.core offer.now.certificate
        offer.now.found.clear node }
    ensures made { IfOk result (λ d. d ≡ new_change keyring.now state.now offer.now node rules) }
    ensures memory { OnErr result (result ≡ Err Fault.Memory) }
{
    let voted = offer.is_for(state.pace.view())
        && state.rules.may_vote_on(&state.tree, &offer.candidate());
    let rules = with_vote(rules, voted, offer.core.height());
    let out = vote_out(state, keyring, &node.digest(), voted)?;
    let high = raised(
        state.alloc,
        offer.justified(),
        &offer.certificate,
        &state.high,
    )?;
    let leaf = leaf_after(&high, &state.high, state.leaf);
    let step = StoredStep::TookNew(TookNew {
        counted: offer.counted.to_vec(state.alloc)?,
        senders: offer.senders.to_vec(state.alloc)?,
        voted,
    });
    Ok(Change {
        growth: Growth::Block(node),
        rules,
        high,
        leaf,
        ..Change::noting(state, step, out)
    })
}

/// What a block that may stand in the tree, as this node, comes to.
fn grow(state: &State, keyring: &ReplicaKeyring, offer: &Offer, node: Node) -> Result<Change, Fault>
    requires node { IsNodeFor (tree_of state.now.variables) offer.now.core offer.now.certificate
        offer.now.found.clear node }
    ensures { IsGrown keyring.now state.now offer.now result }
{
    let rules = state.rules.taking(&state.tree, offer.justified())?;
    take_new(state, keyring, offer, node, rules)
}

/// What a block comes to.
pub(crate) fn decide_block(
    state: &State,
    keyring: &ReplicaKeyring,
    offer: &Offer,
) -> Result<Change, Fault>
    ensures { IsDecided keyring.now state.now offer.now result }
{
    match state
        .tree
        .plan(&offer.core, &offer.certificate, offer.clear)?
    {
        Plan::Stands(digest) => take_again(state, keyring, offer, digest),
        Plan::Grows(node) => grow(state, keyring, offer, node),
    }
}
